// How files of the system are written.
use crate::failing::{Calls, Failing};
use std::os::unix::fs::{PermissionsExt, symlink};
use std::test::Fail;
use std::{env, fs, process};
use wac_files::{Disk, FileError, FileSystem, MOST_BYTES};

const OLD: &[u8] = b"package  a:b;\n";

const NEW: &[u8] = b"package a:b;\n";

/// An empty folder of this process.
fn folder(rt: &HostRuntime, name: &str) -> Result<String, Fail> {
    let run = process::id(rt.process());
    let place = env::temp_dir(rt)?;
    let place = place.as_str();
    let path = format!(in rt.alloc(); "{place}/wac_vectors_cli-{run}-{name}")?;
    fs::create_dir(rt, path.as_str())?;
    Ok(path)
}

fn remove(rt: &HostRuntime, folder: &str) -> Result<(), Fail> {
    fs::remove_dir_all(rt, folder)?;
    Ok(())
}

/// How many names a folder has.
fn count(rt: &HostRuntime, folder: &str) -> Result<usize, Fail> {
    let mut disk = Disk::new(*rt, 0, MOST_BYTES);
    Ok(disk.list(rt.alloc(), folder)?.len())
}

#[test]
fn files_are_replaced(rt: HostRuntime) -> Result<(), Fail> {
    let folder = folder(&rt, "replaced")?;
    let path = format!(in rt.alloc(); "{folder}/a.wac")?;
    fs::write(&rt, path.as_str(), OLD)?;
    fs::set_permissions(&rt, path.as_str(), fs::Permissions::from_mode(0o666))?;
    let mut disk = Disk::new(rt, 1, MOST_BYTES);
    disk.replace(rt.alloc(), path.as_str(), OLD, NEW)?;
    assert_eq!(rt; fs::read(&rt, path.as_str())?.as_slice(), NEW);
    let mode = fs::metadata(&rt, path.as_str())?.permissions().mode();
    assert_eq!(rt; mode & 0o7777, 0o666);
    let again = disk.replace(rt.alloc(), path.as_str(), OLD, NEW);
    assert_eq!(rt; again, Err(FileError::ChangedMeanwhile));
    assert_eq!(rt; count(&rt, folder.as_str())?, 1);
    remove(&rt, folder.as_str())
}

#[test]
fn read_only_files_are_not_replaced(rt: HostRuntime) -> Result<(), Fail> {
    let folder = folder(&rt, "read-only")?;
    let path = format!(in rt.alloc(); "{folder}/a.wac")?;
    fs::write(&rt, path.as_str(), OLD)?;
    fs::set_permissions(&rt, path.as_str(), fs::Permissions::from_mode(0o444))?;
    let mut disk = Disk::new(rt, 1, MOST_BYTES);
    let replaced = disk.replace(rt.alloc(), path.as_str(), OLD, NEW);
    assert_eq!(rt; replaced, Err(FileError::ReadOnly));
    assert_eq!(rt; fs::read(&rt, path.as_str())?.as_slice(), OLD);
    remove(&rt, folder.as_str())
}

#[test]
fn the_target_of_a_link_is_written(rt: HostRuntime) -> Result<(), Fail> {
    let folder = folder(&rt, "link")?;
    let path = format!(in rt.alloc(); "{folder}/a.wac")?;
    let link = format!(in rt.alloc(); "{folder}/b.wac")?;
    fs::write(&rt, path.as_str(), OLD)?;
    symlink(&rt, "a.wac", link.as_str())?;
    let mut disk = Disk::new(rt, 1, MOST_BYTES);
    disk.replace(rt.alloc(), link.as_str(), OLD, NEW)?;
    assert_eq!(rt; fs::read(&rt, path.as_str())?.as_slice(), NEW);
    assert!(rt; fs::symlink_metadata(&rt, link.as_str())?.is_symlink());
    remove(&rt, folder.as_str())
}

/// What a folder is like after its file was replaced, while a call failed.
#[derive(Clone, Copy)]
struct After {
    /// Whether the call that fails was made.
    is_made: bool,
    /// Whether the file holds what the result says.
    is_right: bool,
    /// How many names the folder has.
    names: usize,
    /// How many are left by the next run.
    swept: usize,
}

/// Replaces a file, where the call fails that comes after so many others.
fn replace_failing(rt: &HostRuntime, folder: &str, failing: usize) -> Result<After, Fail> {
    let path = format!(in rt.alloc(); "{folder}/a.wac")?;
    fs::write(rt, path.as_str(), OLD)?;
    let calls = Calls::failing_at(failing);
    let replaced = {
        let files = Failing {
            files: *rt,
            calls: &calls,
        };
        let mut disk = Disk::new(files, 1, MOST_BYTES);
        disk.replace(rt.alloc(), path.as_str(), OLD, NEW)
    };
    let held = fs::read(rt, path.as_str())?;
    let wanted = if replaced.is_ok() { NEW } else { OLD };
    let names = count(rt, folder)?;
    Disk::new(*rt, 1, MOST_BYTES).sweep(rt.alloc(), path.as_str())?;
    Ok(After {
        is_made: failing < calls.count(),
        is_right: held.as_slice() == wanted,
        names,
        swept: count(rt, folder)?,
    })
}

#[test]
fn files_are_old_or_new_where_a_call_fails(rt: HostRuntime) -> Result<(), Fail> {
    let folder = folder(&rt, "failing")?;
    let mut made = 0usize;
    let mut left = 0usize;
    for failing in 0..100 {
        let after = replace_failing(&rt, folder.as_str(), failing)?;
        assert!(rt; after.is_right, "at call {failing}");
        assert_eq!(rt; after.swept, 1, "at call {failing}");
        if after.names > 1 {
            left = left.saturating_add(1);
        }
        if after.is_made {
            made = made.saturating_add(1);
        }
    }
    // Each of the calls has failed once: to resolve, look, open, create, read, write, cut, sync and remove.
    assert!(rt; 10 <= made && made < 100, "{made} calls");
    // Only where it could not be removed a copy was left.
    assert_eq!(rt; left, 1);
    remove(&rt, folder.as_str())
}

#[test]
fn files_larger_than_the_limit_are_not_read(rt: HostRuntime) -> Result<(), Fail> {
    let folder = folder(&rt, "large")?;
    let path = format!(in rt.alloc(); "{folder}/a.wac")?;
    fs::write(&rt, path.as_str(), OLD)?;
    let len = OLD.len() as u64;
    let read = Disk::new(rt, 1, len).read(rt.alloc(), path.as_str())?;
    assert_eq!(rt; read.as_slice(), OLD);
    let refused = Disk::new(rt, 1, len - 1).read(rt.alloc(), path.as_str());
    assert_eq!(rt; refused.err(), Some(FileError::TooLarge(len - 1)));
    remove(&rt, folder.as_str())
}

#[test]
fn what_is_no_regular_file_is_not_read(rt: HostRuntime) -> Result<(), Fail> {
    let mut disk = Disk::new(rt, 1, MOST_BYTES);
    for path in ["/dev/zero", "/proc/self/status", "/"].as_slice() {
        let refused = disk.read(rt.alloc(), path);
        assert_eq!(rt; refused.err(), Some(FileError::NotAFile), "{path}");
    }
    Ok(())
}
