//! What texts are tidied to.

use std::alloc::{AllocError, Global};
use std::test::Fail;
use wac_comments::{Options, TidyError, tidy};

/// Texts, and what each is tidied to, or what is said of one that is no document.
static TIDIED: [(&str, &str); 4] = [
    (
        "package a:b; // first\nrecord r { /* x */ a: u8 // last\n}",
        "package a:b; // first\n\nrecord r {\n    /* x */ a: u8, // last\n}\n",
    ),
    ("package a:b // x", "expected `;`, found end of input"),
    (
        "package a:b; let x /* z */ y;",
        "expected `=`, found identifier",
    ),
    (
        "package a:b; world w { import f func(); }",
        "expected `;`, found `func` keyword",
    ),
];

/// What a text is tidied to, or what is said of it.
fn tidied(alloc: Global, source: &str) -> Result<String, AllocError> {
    match tidy(alloc, source, Options::default()) {
        Ok(text) => Ok(text),
        Err(TidyError::Memory(_)) => Err(AllocError),
        Err(error) => error.to_string(alloc),
    }
}

/// The number of the first row whose text is tidied to another one.
fn first_other(alloc: Global) -> Result<Option<usize>, AllocError> {
    for (at, (source, wanted)) in TIDIED.iter().enumerate() {
        let text = tidied(alloc, source)?;
        if text.as_str() != *wanted {
            return Ok(Some(at));
        }
    }
    Ok(None)
}

#[test]
fn texts_are_tidied(rt: HostRuntime) -> Result<(), Fail> {
    let wrong = match first_other(rt.alloc()) {
        Ok(wrong) => wrong,
        Err(AllocError) => first_other(rt.alloc())?,
    };
    assert!(rt; wrong.is_none(), "row {wrong:?}");
    Ok(())
}
