//! What is asked about the places of texts, and where the answer is another one.

use crate::completion::{foreign, kinds, names, packages};
use crate::lsp_names::{hovers, places};
use crate::marked::{Row, unmarked};
use crate::names::{bounds, offsets};
use crate::outline::{folds, symbols};
use std::alloc::{AllocError, Global};
use std::process::Abort;
use std::test::Fail;
use wac_lsp_outline::in_one_line;

/// What is asked about a place of a text.
#[derive(Clone, Copy)]
pub(crate) enum Question {
    /// Which kinds of tokens, which names, and which completions of a word can stand there.
    Kinds,
    Names,
    Completions,
    /// What of a foreign package can stand there, and what is written there of a package's name.
    Foreign,
    Package,
    /// Where the name is bound that is there, and where it is used: in a document.
    Bound,
    Used,
    /// What of the document is looked up in scopes.
    LookedUp,
    /// Where the name is that is there, where it is bound, where it is used, and what is said of it: in a text with
    /// faults too.
    Place,
    Definition,
    References,
    Hover,
    /// What the text declares, what of it can be folded, and the text in one line.
    Outline,
    Folds,
    OneLine,
}

/// The answer to a question about an offset of a text.
fn answer(
    alloc: Global,
    question: Question,
    text: &str,
    offset: usize,
) -> Result<String, AllocError> {
    match question {
        Question::Kinds => kinds::line_at(alloc, text, offset),
        Question::Names => names::names_line(alloc, text, offset),
        Question::Completions => names::completions_line(alloc, text, offset),
        Question::Foreign => foreign::line_at(alloc, text, offset),
        Question::Package => packages::line_at(alloc, text, offset),
        Question::Bound => offsets::bound(alloc, text, offset),
        Question::Used => offsets::used(alloc, text, offset),
        Question::LookedUp => bounds::looked_up(alloc, text),
        Question::Place => places::place(alloc, text, offset),
        Question::Definition => places::definition(alloc, text, offset),
        Question::References => places::references(alloc, text, offset),
        Question::Hover => hovers::hover(alloc, text, offset),
        Question::Outline => symbols::declared(alloc, text),
        Question::Folds => folds::folded(alloc, text),
        Question::OneLine => in_one_line(alloc, text),
    }
}

/// The answer about the mark of a text.
fn answer_at_mark(alloc: Global, question: Question, marked: &str) -> Result<String, AllocError> {
    let (text, offset) = unmarked(alloc, marked)?;
    answer(alloc, question, text.as_str(), offset)
}

/// The first text about which there is another answer, with that.
pub(crate) fn first_other(
    alloc: Global,
    question: Question,
    rows: &[Row],
) -> Result<Option<String>, AllocError> {
    for (marked, expected) in rows {
        let found = answer_at_mark(alloc, question, marked)?;
        if found.as_str() != *expected {
            return Ok(Some(format!(in alloc; "{marked}\n{found}")?));
        }
    }
    Ok(None)
}

/// What is asked, about which text and which offset of it, and the answer. No mark can be at most of these offsets,
/// which are within a character or after the end.
static OFFSETS: [(Question, &str, usize, &str); 11] = [
    (Question::Kinds, "", 0, "package"),
    (Question::Kinds, "", 1, ""),
    (Question::Kinds, "package a:b", 8, "name"),
    (Question::Kinds, "package a:b;", 13, ""),
    (Question::Kinds, "package a:b; // \u{e9}", 17, ""),
    (
        Question::Foreign,
        "package a:b; let x = new c:d { /* \u{e9} */",
        35,
        "",
    ),
    (
        Question::Foreign,
        "package a:b; let x = new c:d { /* \u{e9} */",
        100,
        "",
    ),
    (
        Question::Package,
        "package a:b; /* \u{e9} */ let x = new ",
        17,
        "",
    ),
    (
        Question::Package,
        "package a:b; /* \u{e9} */ let x = new ",
        100,
        "",
    ),
    (
        Question::Bound,
        "package a:b; import log: func(); export log as \"log\";",
        1000,
        "",
    ),
    (
        Question::Bound,
        "package a:b; import log: func(); export log as \"log\";",
        usize::MAX,
        "",
    ),
];

/// The number of the first row to which there is another answer.
fn first_other_offset(alloc: Global) -> Result<Option<usize>, AllocError> {
    for (number, (question, text, offset, expected)) in OFFSETS.iter().enumerate() {
        let found = answer(alloc, *question, text, *offset)?;
        if found.as_str() != *expected {
            return Ok(Some(number));
        }
    }
    Ok(None)
}

#[test]
fn offsets_lie_between_characters(rt: HostRuntime) -> Result<(), Fail> {
    let wrong = first_other_offset(rt.alloc())?;
    assert!(rt; wrong.is_none(), "row {wrong:?}");
    Ok(())
}
