//! The comments of texts.

use std::alloc::{AllocError, Global};
use std::test::Fail;
use wac_comments::{Comment, CommentKind, comments};
use wac_comments_layout::ReadError;

/// Where comments lie, and what they are.
type Comments = &'static [(usize, usize, CommentKind)];

/// Texts, and the comments of each. One with a rejected character has none.
static LISTED: [(&str, Option<Comments>); 7] = [
    ("", Some(&[])),
    ("a \"// b\"", Some(&[])),
    (
        "// x \n/* y /* z */ */a///\n",
        Some(&[
            (0, 5, CommentKind::Line),
            (6, 15, CommentKind::Block),
            (22, 3, CommentKind::Doc),
        ]),
    ),
    (
        "/**/ /***/ /** é */",
        Some(&[
            (0, 4, CommentKind::Block),
            (5, 5, CommentKind::Doc),
            (11, 9, CommentKind::Doc),
        ]),
    ),
    ("# // x\r", Some(&[(2, 5, CommentKind::Line)])),
    ("// \u{7}", None),
    (
        "package a:b; // first\nrecord r { /* x */ a: u8 // last\n}",
        Some(&[
            (13, 8, CommentKind::Line),
            (33, 7, CommentKind::Block),
            (47, 7, CommentKind::Line),
        ]),
    ),
];

/// Whether comments lie there, and are of these kinds.
fn are_these(found: &[Comment], wanted: &[(usize, usize, CommentKind)]) -> bool {
    for (comment, (offset, len, kind)) in found.iter().zip(wanted.iter()) {
        let span = comment.span;
        if span.offset() != *offset || span.len() != *len || comment.kind != *kind {
            return false;
        }
    }
    found.len() == wanted.len()
}

/// Whether the comments of a text are these.
fn lists(alloc: Global, source: &str, wanted: Option<Comments>) -> Result<bool, AllocError> {
    match comments(alloc, source) {
        Ok(found) => match wanted {
            Some(wanted) => Ok(are_these(found.as_slice(), wanted)),
            None => Ok(false),
        },
        Err(ReadError::Memory(_)) => Err(AllocError),
        Err(_) => Ok(wanted.is_none()),
    }
}

/// The first text whose comments are others.
fn first_other(alloc: Global) -> Result<Option<&'static str>, AllocError> {
    for (source, wanted) in &LISTED {
        if !lists(alloc, source, *wanted)? {
            return Ok(Some(*source));
        }
    }
    Ok(None)
}

#[test]
fn comments_are_listed(rt: HostRuntime) -> Result<(), Fail> {
    let wrong = match first_other(rt.alloc()) {
        Ok(wrong) => wrong,
        Err(AllocError) => first_other(rt.alloc())?,
    };
    assert!(rt; wrong == None, "{wrong:?}");
    Ok(())
}
