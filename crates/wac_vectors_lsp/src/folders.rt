//! Folders over files in memory: calls that fail, and which documents are resolved.

use crate::sessions::files_of;
use std::alloc::{AllocError, Global};
use std::process::Abort;
use std::test::Fail;
use wac_lsp_workspace::{Workspace, read_files, read_folders};

/// What declares a package.
const B: &str = "package a:b;\nworld w { export f: func(); }\n";

/// A composition of a package that there isn't.
const APP: &str = "package a:app;\nlet x = new a:c { };\n";

/// A composition of `a:b`.
const COMPOSITION: &str = "package a:app;\nlet x = new a:b { };\n";

/// Two documents that declare packages.
static TEXTS: [(&str, &str); 2] = [("/project/a.wac", "package a:c;"), ("/project/x/b.wac", B)];

/// The workspace of a folder, of which nothing was read.
fn empty(alloc: Global) -> Result<Workspace, AllocError> {
    let mut folders = Vec::new(alloc);
    folders.push(String::from_str(alloc, "/project")?)?;
    Ok(Workspace::new(alloc, folders))
}

/// How many files are passed over where a call fails, and whether there is such a call.
fn passed_over(alloc: Global, call: usize) -> Result<(usize, bool), AllocError> {
    let mut files = files_of(alloc, &["/project", "/project/x"], &TEXTS)?;
    files.fail_at(call);
    let mut workspace = empty(alloc)?;
    let contents = read_folders(alloc, &mut files, &workspace)?;
    let taken = workspace.take(alloc, contents)?;
    Ok((taken.passed_over.len(), call < files.calls()))
}

#[test]
fn files_that_cannot_be_read_are_passed_over(rt: HostRuntime) -> Result<(), Fail> {
    let mut count = 0usize;
    let mut was_made = true;
    for call in 0..40 {
        let (found, is_made) = passed_over(rt.alloc(), call)?;
        count = count.saturating_add(found);
        was_made = is_made;
    }
    // Two of the calls read a file.
    assert!(rt; count == 2 && !was_made, "{count}");
    Ok(())
}

/// Paths of documents in no folder.
static ELSEWHERE: [&str; 5] = ["/b.wac", "/project2/b.wac", "/projec", "/project", ""];

/// Whether nothing is done with a document, and nothing is said of it.
fn is_passed_over(
    alloc: Global,
    workspace: &mut Workspace,
    path: &str,
) -> Result<bool, AllocError> {
    let is_taken = workspace.open(alloc, path, path, B)?;
    let found = workspace.diagnose(alloc, path, APP)?;
    Ok(is_taken.is_empty() && found.is_empty() && !workspace.resolves(path))
}

/// The first document that isn't passed over, though it is in no folder.
fn taken_elsewhere(
    alloc: Global,
    workspace: &mut Workspace,
) -> Result<Option<&'static str>, AllocError> {
    for path in &ELSEWHERE {
        if !is_passed_over(alloc, workspace, path)? {
            return Ok(Some(*path));
        }
    }
    Ok(None)
}

/// Has a workspace take what is in its folder: nothing.
fn read_empty(alloc: Global, workspace: &mut Workspace) -> Result<(), AllocError> {
    let mut files = files_of(alloc, &["/project"], &[])?;
    let contents = read_folders(alloc, &mut files, workspace)?;
    let _ = workspace.take(alloc, contents)?;
    Ok(())
}

/// How many errors a composition of a package has in a folder.
fn errors(alloc: Global, workspace: &Workspace) -> Result<usize, AllocError> {
    let found = workspace.diagnose(alloc, "/project/app.wac", COMPOSITION)?;
    Ok(found.len())
}

/// What a workspace of an empty folder does wrong, while a document is opened and closed.
fn fault(alloc: Global, workspace: &mut Workspace) -> Result<Option<&'static str>, AllocError> {
    let path = "/project/b.wac";
    if workspace.resolves(path) {
        return Ok(Some("a folder that wasn't read is resolved"));
    }
    read_empty(alloc, workspace)?;
    if !workspace.resolves(path) || errors(alloc, workspace)? != 1 {
        return Ok(Some("a package is there in an empty folder"));
    }
    if workspace
        .open(alloc, path, "file:///project/b.wac", B)?
        .is_empty()
    {
        return Ok(Some("a document declares no package"));
    }
    if errors(alloc, workspace)? != 0 {
        return Ok(Some("a package that is open isn't there"));
    }
    if let Some(path) = taken_elsewhere(alloc, workspace)? {
        return Ok(Some(path));
    }
    workspace.close(alloc, path)?;
    read_empty(alloc, workspace)?;
    if errors(alloc, workspace)? != 1 {
        return Ok(Some("a closed document stays"));
    }
    Ok(None)
}

#[test]
fn documents_of_folders_are_resolved(rt: HostRuntime) -> Result<(), Fail> {
    let mut workspace = empty(rt.alloc())?;
    let found = fault(rt.alloc(), &mut workspace)?;
    assert!(rt; found.is_none(), "{}", found.unwrap_or(""));
    Ok(())
}

/// Documents of a folder: a package, one that mentions it, and others.
static MANY: [(&str, &str); 6] = [
    (
        "/project/a.wac",
        "package a:b;\ninterface i { type t = u8; }\n",
    ),
    (
        "/project/b.wac",
        "package a:c;\ninterface j { use a:b/i.{t}; }\n",
    ),
    (
        "/project/c.wac",
        "package a:d;\ninterface k { type t = u8; }\n",
    ),
    ("/project/d.wac", "package a:e;\n"),
    ("/project/e.wac", "package a:f;\n"),
    ("/project/app.wac", COMPOSITION),
];

/// What is told of each package after a file was changed, and how many calls of the file system that takes.
fn after_change(alloc: Global) -> Result<(String, usize), AllocError> {
    let mut files = files_of(alloc, &["/project"], &MANY)?;
    let mut workspace = empty(alloc)?;
    let contents = read_folders(alloc, &mut files, &workspace)?;
    let _ = workspace.take(alloc, contents)?;
    let mut changed = files_of(
        alloc,
        &["/project"],
        &[("/project/a.wac", "package a:b;\ninterface i { }\n")],
    )?;
    let mut paths = Vec::new(alloc);
    paths.push(String::from_str(alloc, "/project/a.wac")?)?;
    let mut told = String::new(alloc);
    if let Some(contents) = read_files(alloc, &mut changed, &workspace, paths.as_slice())? {
        let taken = workspace.take_files(alloc, contents)?;
        for (path, text) in MANY.as_slice() {
            if taken.concerned.concern(alloc, text)? {
                let faults = workspace.diagnose(alloc, path, text)?.len();
                told.push_str(format!(in alloc; " {path} {faults}")?.as_str())?;
            }
        }
    }
    Ok((told, changed.calls()))
}

#[test]
fn a_changed_file_is_read_alone(rt: HostRuntime) -> Result<(), Fail> {
    let (told, calls) = after_change(rt.alloc())?;
    // The folder and the file are resolved, and the file is read.
    assert!(rt; calls == 3, "{calls}");
    // Those are told of which one mentions the other, or that of the package.
    assert!(rt;
        told.as_str() == " /project/a.wac 0 /project/b.wac 1 /project/app.wac 1",
        "{told}"
    );
    Ok(())
}
