// The folders in which packages are looked for where none is named.
ghost use Rattle.std.specs.Prelude.{◌≡◌};

use crate::finding::joined;
use crate::keys::last_of;
use std::alloc::{AllocError, Global};
use wac_files::{FileError, FileSystem, Kind};

/// The names of folders in which packages are looked for.
static NAMES: [&str; 2] = ["deps", "packages"];

/// The folder that a document is in, by its path.
///
/// ```text
/// folder_of("app.wac")           // "."
/// folder_of("a/b/app.wac")       // "a/b"
/// ```
pub fn folder_of(path: &str) -> &str {
    match path.rsplit_once('/') {
        None => ".",
        Some(("", _)) => "/",
        Some((folder, _)) => folder,
    }
}

/// The folders in which packages are looked for where nobody says where they are, for the documents in a folder.
///
/// They are those named `deps` and `packages` in the nearest folder, from this one upwards to the one that holds `.git`,
/// in which one of the two is there; where no folder above holds `.git`, this one alone is looked at. Links aren't
/// followed. The paths are as short as the folder's: `../deps` for one beside the current folder.
pub fn default_folders<F: FileSystem>(
    alloc: Global,
    files: &mut F,
    folder: &str,
) -> Result<Vec<String>, AllocError>
    // No file is replaced.
    ensures { F.replaced files.new ≡ F.replaced files.old }
{
    match files.resolve(alloc, folder) {
        Ok(resolved) => nearest_folders(alloc, files, folder, resolved.as_str()),
        Err(FileError::OutOfMemory) => Err(AllocError),
        Err(_) => folders_in(alloc, files, folder),
    }
}

/// The same of a folder with its resolved path.
fn nearest_folders<F: FileSystem>(
    alloc: Global,
    files: &mut F,
    folder: &str,
    resolved: &str,
) -> Result<Vec<String>, AllocError>
    ensures { F.replaced files.new ≡ F.replaced files.old }
{
    let levels = levels_to_git(alloc, files, resolved)?;
    let mut shown = String::from_str(alloc, folder)?;
    let mut place = resolved;
    for _ in 0..levels {
        if holds_packages(alloc, files, place)? {
            break;
        }
        shown = above(alloc, shown.as_str())?;
        place = folder_of(place);
    }
    shown_folders(alloc, files, shown.as_str(), place)
}

/// The folders of packages at a resolved path, by a shorter path if that leads there.
fn shown_folders<F: FileSystem>(
    alloc: Global,
    files: &mut F,
    shown: &str,
    place: &str,
) -> Result<Vec<String>, AllocError>
    ensures { F.replaced files.new ≡ F.replaced files.old }
{
    match files.resolve(alloc, shown) {
        Ok(resolved) if resolved.as_str() == place => folders_in(alloc, files, shown),
        Err(FileError::OutOfMemory) => Err(AllocError),
        _ => folders_in(alloc, files, place),
    }
}

/// How far above a folder, which has this resolved path, the one is that holds `.git`. It is 0 where none does.
fn levels_to_git<F: FileSystem>(
    alloc: Global,
    files: &mut F,
    resolved: &str,
) -> Result<usize, AllocError>
    ensures { F.replaced files.new ≡ F.replaced files.old }
{
    let mut place = resolved;
    for level in 0..usize::MAX {
        let path = joined(alloc, place, ".git")?;
        if let Ok(Kind::File | Kind::Folder) = files.target(path.as_str()) {
            return Ok(level);
        }
        if folder_of(place).len() == place.len() || !place.contains('/') {
            break;
        }
        place = folder_of(place);
    }
    Ok(0)
}

/// Whether packages are looked for in what a folder holds.
fn holds_packages<F: FileSystem>(
    alloc: Global,
    files: &mut F,
    folder: &str,
) -> Result<bool, AllocError>
    ensures { F.replaced files.new ≡ F.replaced files.old }
{
    let found = folders_in(alloc, files, folder)?;
    Ok(!found.is_empty())
}

/// The folders in a folder in which packages are looked for.
fn folders_in<F: FileSystem>(
    alloc: Global,
    files: &mut F,
    folder: &str,
) -> Result<Vec<String>, AllocError>
    ensures { F.replaced files.new ≡ F.replaced files.old }
{
    let mut found = Vec::new(alloc);
    for name in NAMES.as_slice() {
        let path = joined(alloc, folder, name)?;
        if let Ok(Kind::Folder) = files.kind(path.as_str()) {
            found.push(path)?;
        }
    }
    Ok(found)
}

/// The path of the folder that a folder is in, as far as the names in its path tell.
fn above(alloc: Global, folder: &str) -> Result<String, AllocError> {
    let folder = without_slashes(folder);
    match last_of(folder) {
        "" | "." => String::from_str(alloc, if folder == "/" { "/" } else { ".." }),
        ".." => format!(in alloc; "{folder}/.."),
        _ => String::from_str(alloc, folder_of(folder)),
    }
}

/// A path without the slashes at its end, but for the one of the root.
fn without_slashes(path: &str) -> &str {
    match path.trim_end_matches('/') {
        "" if !path.is_empty() => "/",
        trimmed => trimmed,
    }
}
