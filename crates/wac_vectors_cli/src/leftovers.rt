// What runs that ended left beside files.
use std::alloc::{AllocError, Global};
use std::os::unix::fs::MetadataExt;
use std::test::Fail;
use std::{env, fs, process};
use wac_files::{Disk, FileError, FileSystem, MOST_BYTES};

/// The number of a run that never was.
const ENDED: u32 = u32::MAX;

/// A text: each byte so many times.
type Parts = &'static [(u8, usize)];

/// A file, the copy that a run left of what it held, and whether the file may have been cut off.
type Row = (Parts, Parts, bool);

const OLD: Parts = &[(b'a', 9000)];

const SHORT: Parts = &[(b'a', 5000)];

static ROWS: [Row; 13] = [
    // Nothing was written, or the copy isn't whole.
    (&[(b'a', 9000)], OLD, false),
    (&[(b'a', 9000)], SHORT, false),
    // The new text is as long: whole, after one page, after two.
    (&[(b'b', 9000)], OLD, false),
    (&[(b'b', 4096), (b'a', 4904)], OLD, true),
    (&[(b'b', 8192), (b'a', 808)], OLD, true),
    // A page is written whole.
    (&[(b'b', 100), (b'a', 100)], &[(b'a', 200)], false),
    // It is shorter: with line ends after it, and cut.
    (&[(b'b', 5000), (b'\n', 4000)], OLD, false),
    (&[(b'b', 5000)], OLD, false),
    (&[(b'b', 4096), (b'a', 4904)], OLD, true),
    // It is longer: only line ends are written, one page, two pages, all.
    (&[(b'a', 5000), (b'\n', 5000)], SHORT, false),
    (&[(b'b', 4096), (b'a', 904), (b'\n', 5000)], SHORT, true),
    (&[(b'b', 8192), (b'\n', 1808)], SHORT, true),
    (&[(b'b', 10000)], SHORT, false),
];

fn text(alloc: Global, parts: Parts) -> Result<Vec<u8>, AllocError> {
    let mut text = Vec::new(alloc);
    for (byte, times) in parts {
        let len = text.len().saturating_add(*times);
        text.resize(len, *byte)?;
    }
    Ok(text)
}

/// An empty folder of this process.
fn folder(rt: &HostRuntime) -> Result<String, Fail> {
    let run = process::id(rt.process());
    let place = env::temp_dir(rt)?;
    let place = place.as_str();
    let path = format!(in rt.alloc(); "{place}/wac_vectors_cli-{run}-leftovers")?;
    fs::create_dir(rt, path.as_str())?;
    Ok(path)
}

/// Whether the next run takes a file for one that may have been cut off, and leaves it and its copy as they are. Else it
/// removes the copy.
fn is_taken_for_cut_off(rt: &HostRuntime, folder: &str, row: Row) -> Result<bool, Fail> {
    let (file, copied, _) = row;
    let path = format!(in rt.alloc(); "{folder}/a.wac")?;
    fs::write(rt, path.as_str(), text(rt.alloc(), file)?.as_slice())?;
    let inode = fs::metadata(rt, path.as_str())?.ino();
    let copy = format!(in rt.alloc(); "{folder}/.wacx-{ENDED}-{inode}-0.tmp")?;
    fs::write(rt, copy.as_str(), text(rt.alloc(), copied)?.as_slice())?;
    let swept = Disk::new(*rt, 1, MOST_BYTES).sweep(rt.alloc(), path.as_str());
    let is_there = fs::exists(rt, copy.as_str())?;
    match swept {
        Err(FileError::Interrupted(_)) if is_there => {
            fs::remove_file(rt, copy.as_str())?;
            Ok(true)
        }
        Ok(()) if !is_there => Ok(false),
        Ok(()) | Err(_) => Err(Fail::from("the copy isn't where it should be")),
    }
}

#[test]
fn copies_are_kept_of_files_that_may_have_been_cut_off(rt: HostRuntime) -> Result<(), Fail> {
    let folder = folder(&rt)?;
    for (at, row) in ROWS.iter().enumerate() {
        let found = is_taken_for_cut_off(&rt, folder.as_str(), *row)?;
        assert_eq!(rt; found, row.2, "row {at}");
    }
    fs::remove_dir_all(&rt, folder.as_str())?;
    Ok(())
}
