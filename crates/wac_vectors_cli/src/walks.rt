// Which files paths lead to.
use std::alloc::Global;
use std::process::Abort;
use std::test::Fail;
use wac_files::{FileError, FileSystem, Found, MemoryFiles, find_all, find_files};

/// A folder with files of each kind.
fn tree(alloc: Global) -> Result<MemoryFiles, Fail> {
    let mut files = MemoryFiles::new(alloc);
    files.folder(alloc, ".")?;
    files.file(alloc, "b.wac", b"b")?;
    files.folder(alloc, "a")?;
    files.file(alloc, "a/z.wac", b"z")?;
    files.file(alloc, "a/.hidden.wac", b"h")?;
    files.file(alloc, "a/note.txt", b"n")?;
    files.pipe(alloc, "a/pipe.wac")?;
    files.link(alloc, "a/to-b.wac", "b.wac")?;
    files.link(alloc, "a/to-a.wac", "a")?;
    files.link(alloc, "a/to-none.wac", "none.wac")?;
    files.folder(alloc, "a/.git")?;
    files.file(alloc, "a/.git/x.wac", b"x")?;
    Ok(files)
}

/// The paths that were found, each ended by LF; after one that failed the error's code, and after a link `@`.
fn shown(alloc: Global, found: &[Found]) -> Result<String, Fail> {
    let mut text = String::new(alloc);
    for found in found {
        text.push_str(found.path.as_str())?;
        if let Some(failure) = &found.failure {
            text.push(' ')?;
            text.push_str(failure.code())?;
        }
        if found.is_link {
            text.push_str(" @")?;
        }
        text.push('\n')?;
    }
    Ok(text)
}

fn test(rt: &(impl Abort + Alloc<A = Global>), paths: &[&str], wanted: &str) -> Result<(), Fail> {
    let mut files = tree(rt.alloc())?;
    let found = find_files(rt.alloc(), &mut files, paths)?;
    let shown = shown(rt.alloc(), found.as_slice())?;
    assert_eq!(rt; shown.as_str(), wanted);
    Ok(())
}

#[test]
fn folders(rt: HostRuntime) -> Result<(), Fail> {
    test(&rt, &["."], "a/z.wac\nb.wac\n")?;
    test(&rt, &["a"], "a/z.wac\na/to-b.wac @\n")?;
    test(&rt, &["a/to-b.wac", "."], "a/to-b.wac\na/z.wac\n")?;
    test(&rt, &["b.wac", "."], "b.wac\na/z.wac\n")?;
    test(&rt, &["a/note.txt"], "a/note.txt\n")?;
    Ok(())
}

#[test]
fn what_is_no_file_is_listed_apart(rt: HostRuntime) -> Result<(), Fail> {
    let mut files = tree(rt.alloc())?;
    let all = find_all(rt.alloc(), &mut files, &["a", "a/pipe.wac"])?;
    let found = shown(rt.alloc(), all.files.as_slice())?;
    assert_eq!(rt;
        found.as_str(),
        "a/z.wac\na/pipe.wac wac::not-a-file\na/to-b.wac @\n"
    );
    let mut others = String::new(rt.alloc());
    for other in all.others.as_slice() {
        others.push_str(other.as_str())?;
        others.push('\n')?;
    }
    assert_eq!(rt; others.as_str(), "a/pipe.wac\na/to-none.wac\n");
    Ok(())
}
