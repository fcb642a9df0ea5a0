//! What is said of mistakes whose error has a help of its own, which is shown in the place of that; and which of others
//! is most like a word.

use std::alloc::{AllocError, Global};
use std::process::Abort;
use std::test::Fail;
use wac_hints::{nearest, parse_hint};
use wac_recovery::{Fault, recover};

/// A text, and what is said of its first error, if something is.
static MISTAKES: [(&str, &str); 4] = [
    ("\u{feff}package a:b;\n", "remove the byte order mark"),
    ("package a:b@1.2;\n", "the three numbers are `1.2.0`"),
    ("package a:b@2;\n", "the three numbers are `2.0.0`"),
    ("package a:b@01.2;\n", ""),
];

/// What is said of the first error of a text.
fn said(alloc: Global, text: &str) -> Result<String, AllocError> {
    match recover(alloc, text, 1) {
        Ok(recovery) => match recovery.faults.first() {
            Some(Fault::Parse(error)) => match parse_hint(alloc, text, error) {
                Ok(Some(hint)) => String::from_str(alloc, hint.message.as_str()),
                Ok(None) => Ok(String::new(alloc)),
                Err(error) => Err(error),
            },
            _ => String::from_str(alloc, "no error of parsing"),
        },
        Err(error) => Err(error),
    }
}

/// What is said of the first mistake of which something else is to be said.
fn first_other_hint(alloc: Global) -> Result<Option<String>, AllocError> {
    for (text, expected) in &MISTAKES {
        let found = said(alloc, text)?;
        if found.as_str() != *expected {
            return Ok(Some(found));
        }
    }
    Ok(None)
}

#[test]
fn mistakes_are_told(rt: HostRuntime) -> Result<(), Fail> {
    if let Some(found) = first_other_hint(rt.alloc())? {
        panic!(rt; "{found}");
    }
    Ok(())
}

/// A word, others, and which of them is nearest.
static NEAREST: [(&str, [&str; 3], Option<&str>); 5] = [
    ("lte", ["type", "let", "new"], Some("let")),
    ("abc", ["abd", "abe", "xyz"], Some("abd")),
    ("abc", ["abc", "xyz", "x"], None),
    ("metrics", ["metric", "matrix", "meters"], Some("metric")),
    ("a", ["b", "bc", "ab"], None),
];

/// The first word to which another one is nearest than its row says.
fn first_other(alloc: Global) -> Result<Option<&'static str>, AllocError> {
    for (word, words, expected) in &NEAREST {
        if nearest(alloc, word, words)? != *expected {
            return Ok(Some(*word));
        }
    }
    Ok(None)
}

#[test]
fn the_first_of_the_nearest_words(rt: HostRuntime) -> Result<(), Fail> {
    let wrong = first_other(rt.alloc())?;
    assert!(rt; wrong.is_none(), "{}", wrong.unwrap_or(""));
    Ok(())
}
