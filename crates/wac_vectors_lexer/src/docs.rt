//! Docs of a place.

use std::alloc::Global;
use std::process::Abort;
use std::test::Fail;
use wac_lexer::{Lexer, SourceSpan};

/// A doc, its offset and length.
type Row = (&'static str, usize, usize);

/// Texts, and the docs before the first item of each.
static TEXTS: [(&str, &[Row]); 11] = [
    ("///x", &[("x", 0, 4)]),
    ("/**x*/", &[("x", 0, 6)]),
    ("/**/", &[]),
    ("/***/", &[("", 0, 5)]),
    ("/****/", &[("*", 0, 6)]),
    ("////x", &[("/x", 0, 5)]),
    ("// x\n/* y */ //\n///", &[("", 16, 3)]),
    ("/** a\n\n b */ x", &[("a\n\n b", 0, 12)]),
    (
        "/// a\r\n\r\n\t/** é /* */ */ x /// y",
        &[("a", 0, 6), ("é /* */", 10, 15)],
    ),
    ("///a\n/* b", &[("a", 0, 4)]),
    ("///\u{a0}a\u{2003}b\u{3000}\n;", &[("a\u{2003}b", 0, 13)]),
];

/// Whether a doc has this text, and is there.
fn is_doc(doc: &(&str, SourceSpan), row: &Row) -> bool {
    let (text, span) = *doc;
    let (expected, offset, len) = *row;
    text == expected && span == SourceSpan::new(offset, len)
}

/// Whether docs are these.
fn are_docs(docs: &[(&str, SourceSpan)], rows: &[Row]) -> bool {
    for (doc, row) in docs.iter().zip(rows) {
        if !is_doc(doc, row) {
            return false;
        }
    }
    docs.len() == rows.len()
}

/// Whether these are the docs before the first item. Running out of memory is no result, and changes nothing.
fn has_docs(alloc: Global, source: &str, rows: &[Row]) -> bool {
    let Ok(mut lexer) = Lexer::new(source) else {
        return false;
    };
    let first = lexer.peek();
    let are_right = match lexer.comments(alloc) {
        Ok(docs) => are_docs(&docs, rows),
        Err(_) => true,
    };
    are_right && lexer.next() == first
}

/// Asserts the docs before the first item of each text.
fn docs_are(rt: &impl Abort, alloc: Global, rows: &[(&str, &[Row])]) {
    for (source, docs) in rows {
        assert!(rt; has_docs(alloc, source, docs), "of {source}");
    }
}

#[test]
fn docs_of_texts(rt: HostRuntime) -> Result<(), Fail> {
    docs_are(&rt, rt.alloc(), &TEXTS);
    let Ok(lexer) = Lexer::new("/// a\n/// b\npackage") else {
        panic!(rt; "a source is refused");
    };
    let docs = lexer.comments(rt.alloc())?.len();
    assert!(rt; docs == 2, "docs");
    Ok(())
}

/// Reads one doc, for which memory is requested once: bench/memory counts how often.
#[test]
fn a_doc_takes_memory_once(rt: HostRuntime) {
    assert!(rt; has_docs(rt.alloc(), "/// x\npackage", &[("x", 0, 5)]));
}
