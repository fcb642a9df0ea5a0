//! The folders of messages, and paths as URIs: the escapes are those of RFC 3986, by hand.

use std::alloc::{AllocError, Global};
use std::test::Fail;
use wac_lsp_folders::{client_folders, path_of_uri, uri_of_path};

/// Paths, and their URIs.
static PATHS: [(&str, &str); 6] = [
    ("/a.wac", "file:///a.wac"),
    ("/home/me/a b.wac", "file:///home/me/a%20b.wac"),
    ("/caf\u{e9}/a.wac", "file:///caf%C3%A9/a.wac"),
    ("/%41", "file:///%2541"),
    ("/a#b?c", "file:///a%23b%3Fc"),
    ("/-._~:@[]", "file:///-._~%3A%40%5B%5D"),
];

/// URIs that name paths, though no path has them, and URIs that name none.
static URIS: [(&str, &str); 19] = [
    ("file:///c%3a/x", "/c:/x"),
    ("file:///c:/x", "/c:/x"),
    ("file://localhost/x", "/x"),
    ("file:///a%2", "/a%2"),
    ("file:///", "/"),
    ("FILE:///a", "/a"),
    ("File://LocalHost/a", "/a"),
    ("file:///./a/./b", "/a/b"),
    ("file:///a//b/", "/a/b"),
    ("file:///a/b/../c", "/a/c"),
    ("file:///a/%2e%2E/c", "/c"),
    ("file:///../a", "/a"),
    ("file:///a/.b/..c/d..", "/a/.b/..c/d.."),
    ("files:///a", "none"),
    ("file:///%ff", "none"),
    ("file://host/x", "none"),
    ("file:x", "none"),
    ("untitled:Untitled-1", "none"),
    ("", "none"),
];

#[test]
fn paths_are_escaped_in_uris(rt: HostRuntime) -> Result<(), Fail> {
    for (path, uri) in PATHS.as_slice() {
        let found = uri_of_path(rt.alloc(), path)?;
        assert!(rt; found.as_str() == *uri, "{found}");
        let found = path_of_uri(rt.alloc(), uri)?;
        assert!(rt;
            found.is_some_and(|found: String| -> bool { found.as_str() == *path }),
            "{path}"
        );
    }
    Ok(())
}

/// The path of a URI, or that there is none.
fn path_or_none(alloc: Global, uri: &str) -> Result<String, AllocError> {
    match path_of_uri(alloc, uri)? {
        Some(path) => Ok(path),
        None => String::from_str(alloc, "none"),
    }
}

#[test]
fn uris_of_files_name_paths(rt: HostRuntime) -> Result<(), Fail> {
    for (uri, wanted) in URIS.as_slice() {
        let found = path_or_none(rt.alloc(), uri)?;
        assert!(rt; found.as_str() == *wanted, "{uri}: {found}");
    }
    Ok(())
}

/// The parameters of `initialize`, and the folders of it, each after a blank.
static MESSAGES: [(&str, &str); 12] = [
    (
        "{\"workspaceFolders\":[{\"uri\":\"file:///a%20b\",\"name\":\"x\"},{\"uri\":\"file:///c/\"}],\"rootUri\":\"file:///d\"}",
        " /a b /c",
    ),
    (
        "{\"workspaceFolders\":null,\"rootUri\":\"file:///d\",\"rootPath\":\"/e\"}",
        " /d",
    ),
    ("{\"rootUri\":null,\"rootPath\":\"/e\"}", " /e"),
    ("{\"workspaceFolders\":[],\"rootUri\":\"file:///d\"}", ""),
    (
        "{\"workspaceFolders\":[3,{},{\"uri\":4},{\"uri\":\"http://x/\"}]}",
        "",
    ),
    ("{\"rootUri\":\"file:///\"}", ""),
    ("{\"rootUri\":\"FILE:///a/./b/\"}", " /a/b"),
    ("{\"rootPath\":\"/a/../\"}", ""),
    ("{\"rootPath\":\"e\"}", ""),
    ("{\"rootPath\":3}", ""),
    ("{}", ""),
    ("3", ""),
];

#[test]
fn folders_of_clients_are_read(rt: HostRuntime) -> Result<(), Fail> {
    for (params, wanted) in MESSAGES.as_slice() {
        let body = format!(in rt.alloc();
            "{{\"id\":1,\"method\":\"initialize\",\"params\":{params}}}"
        )?;
        let folders = client_folders(rt.alloc(), body.as_bytes())?;
        let mut found = String::new(rt.alloc());
        for folder in folders.as_slice() {
            found.push(' ')?;
            found.push_str(folder.as_str())?;
        }
        assert!(rt; found.as_str() == *wanted, "{params}: {found}");
    }
    assert!(rt; client_folders(rt.alloc(), b"{")?.is_empty());
    Ok(())
}
