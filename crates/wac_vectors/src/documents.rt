//! What documents are parsed to and printed as, and what is said of texts that are none, where a request for memory fails
//! too: each test then asks once more.

use crate::rows::{DOCUMENTED, DOCUMENTED_PRINTED, DOCUMENTS};
use std::alloc::{AllocError, Global};
use std::test::Fail;
use wac_lexer::SourceSpan;
use wac_parser::{Document, Error, InstantiationArgument, format};

/// Where an error lies, and what it says. Where memory ran out, that is the answer.
fn told(alloc: Global, error: &Error) -> Result<String, AllocError> {
    let span = match error {
        Error::Lexer { span, .. }
        | Error::Expected { span, .. }
        | Error::ExpectedEither { span, .. }
        | Error::ExpectedMultiple { span, .. }
        | Error::EmptyType { span, .. }
        | Error::InvalidVersion { span, .. } => span,
        Error::Memory(_) => return Err(AllocError),
    };
    format!(in alloc; "{}+{}: {error}", span.offset(), span.len())
}

/// What the document of a text is shown as, or what is said of a text that is none.
fn shown(alloc: Global, source: &str) -> Result<String, AllocError> {
    match Document::parse(alloc, source) {
        Ok(document) => format!(in alloc; "{document:?}"),
        Err(error) => told(alloc, &error),
    }
}

/// What the document of a text is shown as begins so.
const SHOWN: &str = "Document { docs: [";

/// Documents, and how what each is shown as ends: with the number of its statements. Texts that are none, and what is said
/// of each: there is one for each error that a text can have.
static PARSED: [(&str, &str); 12] = [
    (DOCUMENTED, ", statements: 7 }"),
    (
        "package a:b; let x = new c:d { ..., y };",
        ", statements: 1 }",
    ),
    (
        "package a:b; world w { include v with { a as b }; include u with {}; }",
        ", statements: 1 }",
    ),
    (
        "package a:b; import log: func(); let i = new c:d { log, ... }; export i.run;",
        ", statements: 3 }",
    ),
    ("/// a\n/// b\npackage a:b; let x = y;", ", statements: 1 }"),
    ("package a:b; let x = y; export x;", ", statements: 2 }"),
    (
        "package a:b; let x = \"s;",
        "21+1: an unterminated string was encountered",
    ),
    (
        "package a:b; let x y;",
        "19+1: expected `=`, found identifier",
    ),
    (
        "package a:b; record r { , }",
        "24+1: expected `}` or identifier, found `,`",
    ),
    (
        "package a:b;;",
        "12+1: expected either `import` keyword, `let` keyword, `export` keyword, `interface` keyword, `world` keyword, `variant` keyword, `record` keyword, `flags` keyword, `enum` keyword, or `type` keyword, found `;`",
    ),
    (
        "package a:b; variant v {}",
        "24+1: variant must contain at least one case",
    ),
    (
        "package a:b@1.0.0-;",
        "12+6: `1.0.0-` is not a valid semantic version",
    ),
];

/// The number of the first row whose text isn't parsed as it says.
fn first_not_parsed(alloc: Global) -> Result<Option<usize>, AllocError> {
    for (at, (source, end)) in PARSED.iter().enumerate() {
        let text = shown(alloc, source)?;
        let text = text.as_str();
        if text != *end && !(text.starts_with(SHOWN) && text.ends_with(*end)) {
            return Ok(Some(at));
        }
    }
    Ok(None)
}

#[test]
fn texts_are_parsed(rt: HostRuntime) -> Result<(), Fail> {
    let wrong = match first_not_parsed(rt.alloc()) {
        Ok(wrong) => wrong,
        Err(AllocError) => first_not_parsed(rt.alloc())?,
    };
    assert!(rt; wrong.is_none(), "row {wrong:?}");
    Ok(())
}

/// A variant of a tree is shown as Rust derives it: its name, and its part in parentheses.
#[test]
fn variants_are_shown_with_their_parts(rt: HostRuntime) -> Result<(), Fail> {
    let dots = SourceSpan::new(3, 3);
    let fill = InstantiationArgument::Fill(dots);
    let text = format!(in rt.alloc(); "{fill:?}")?;
    let wanted = format!(in rt.alloc(); "Fill({dots:?})")?;
    assert!(rt; text.as_str() == wanted.as_str(), "{text}");
    Ok(())
}

/// What a document is printed as, with these blanks for each depth. Nothing where the text is none, or memory runs out.
fn printed(alloc: Global, source: &str, space: Option<&str>) -> Option<String> {
    match format(alloc, source, space) {
        Ok(text) => Some(text),
        Err(_) => None,
    }
}

/// A document of one depth.
const ARGUMENTS: &str = "package a:b; let x = new c:d { y };";

/// Documents, the blanks for each depth, and what each is printed as.
static PRINTED: [(&str, Option<&str>, &str); 4] = [
    (DOCUMENTED, None, DOCUMENTED_PRINTED),
    (
        ARGUMENTS,
        None,
        "package a:b;\n\nlet x = new c:d {\n    y,\n};\n",
    ),
    (
        ARGUMENTS,
        Some("\t"),
        "package a:b;\n\nlet x = new c:d {\n\ty,\n};\n",
    ),
    (
        ARGUMENTS,
        Some(""),
        "package a:b;\n\nlet x = new c:d {\ny,\n};\n",
    ),
];

/// Whether a document is printed as a text. Where that fails, it is printed once more.
fn is_printed(alloc: Global, source: &str, space: Option<&str>, wanted: &str) -> bool {
    let text = match printed(alloc, source, space) {
        Some(text) => Some(text),
        None => printed(alloc, source, space),
    };
    match text {
        Some(text) => text.as_str() == wanted,
        None => false,
    }
}

#[test]
fn documents_are_printed(rt: HostRuntime) {
    for (source, space, wanted) in &PRINTED {
        let is_printed = is_printed(rt.alloc(), source, *space, wanted);
        assert!(rt; is_printed, "of {source}");
    }
}

/// Whether what is printed the second time stays.
fn settles(alloc: Global, source: &str, space: &str) -> bool {
    let Some(once) = printed(alloc, source, Some(space)) else {
        return false;
    };
    match printed(alloc, once.as_str(), Some(space)) {
        Some(twice) => is_printed(alloc, twice.as_str(), Some(space), twice.as_str()),
        None => false,
    }
}

/// The first document for which it doesn't.
fn first_not_settled(alloc: Global, space: &str) -> Option<&'static str> {
    for source in &DOCUMENTS {
        if !settles(alloc, source, space) {
            return Some(*source);
        }
    }
    None
}

#[test]
fn printing_settles(rt: HostRuntime) {
    for space in ["\t", "   ", ""] {
        let wrong = first_not_settled(rt.alloc(), space);
        assert!(rt; wrong == None, "{wrong:?}");
    }
}
