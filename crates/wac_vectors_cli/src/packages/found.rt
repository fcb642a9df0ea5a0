// Which components are found, and their keys.
use std::alloc::{AllocError, Global};
use std::test::Fail;
use wac_component_packages::find_components;
use wac_files::MemoryFiles;

/// Folders and files below `deps`, in no order.
fn tree(alloc: Global) -> Result<MemoryFiles, AllocError> {
    let mut files = MemoryFiles::new(alloc);
    for folder in [
        "deps",
        "deps/b",
        "deps/a",
        "deps/a/two",
        "deps/a/.git",
        "deps/9c",
        "deps/a/two/x",
        "linked",
        "linked/links",
    ] {
        files.folder(alloc, folder)?;
    }
    files.file(alloc, "linked/links/a.wasm", b"")?;
    // A link to a folder isn't followed.
    files.link(alloc, "deps/links", "linked/links")?;
    for file in [
        "deps/b/one.wasm",
        "deps/a/two/1.0.0.wasm",
        "deps/a/two/0.9.0-rc.1.wasm",
        // These have no place: no version, no name, no namespace, too deep, another kind of file, hidden.
        "deps/a/two/latest.wasm",
        "deps/a/t_.wasm",
        "deps/9c/x.wasm",
        "deps/a/two/x/1.0.0.wasm",
        "deps/a/one.wac",
        "deps/a/.git/1.0.0.wasm",
        "deps/a/one.wasm",
        // This one is in the folder itself, where it has no key.
        "deps/root.wasm",
    ] {
        files.file(alloc, file, b"")?;
    }
    Ok(files)
}

/// The keys and the paths that are found in a folder, a line each.
fn lines(alloc: Global, files: &mut MemoryFiles, folder: &str) -> Result<String, AllocError> {
    let found = find_components(alloc, files, folder)?;
    let mut lines = String::new(alloc);
    for file in found.as_slice() {
        let key = match &file.key {
            Some(key) => key.as_str(),
            None => "?",
        };
        let path = file.path.as_str();
        write!(lines, "{key} {path}\n")?;
    }
    Ok(lines)
}

#[test]
fn components_are_found_by_their_places(rt: HostRuntime) -> Result<(), Fail> {
    let mut files = tree(rt.alloc())?;
    let found = lines(rt.alloc(), &mut files, "deps")?;
    let wanted = "a:one deps/a/one.wasm\n\
        a:two@0.9.0-rc.1 deps/a/two/0.9.0-rc.1.wasm\n\
        a:two@1.0.0 deps/a/two/1.0.0.wasm\n\
        b:one deps/b/one.wasm\n\
        ? deps/root.wasm\n";
    assert!(rt; found.as_str() == wanted, "{found}");
    let none = lines(rt.alloc(), &mut files, "deps/b/one.wasm")?;
    assert!(rt; none.is_empty(), "{none}");
    Ok(())
}
