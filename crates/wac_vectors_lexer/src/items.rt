//! Items of texts, and rejected characters.

use std::alloc::{AllocError, Global};
use std::process::Abort;
use std::test::Fail;
use wac_lexer::{Error, Lexer, LexerResult, SourceSpan, Token};

type Row = (LexerResult<Token>, usize, usize);

/// Whether the items of the source are these, each with its offset and length.
fn has_items(source: &str, rows: &[Row]) -> bool {
    let Ok(mut lexer) = Lexer::new(source) else {
        return false;
    };
    for (item, offset, len) in rows {
        if lexer.next() != Some((*item, SourceSpan::new(*offset, *len))) {
            return false;
        }
    }
    lexer.next() == None
}

/// Asserts that each text has the items of its row.
fn items_are(rt: &impl Abort, rows: &[(&str, &[Row])]) {
    for (source, items) in rows {
        assert!(rt; has_items(source, items), "of {source}");
    }
}

/// Asserts that each text is rejected, for its first fault.
fn are_refused(rt: &impl Abort, rows: &[(&str, Error, usize, usize)]) {
    for (source, fault, offset, len) in rows {
        let fault = Some((*fault, SourceSpan::new(*offset, *len)));
        assert!(rt; Lexer::new(source).err() == fault, "of {source}");
    }
}

/// Texts and their items.
static TEXTS: [(&str, &[Row]); 18] = [
    (
        "fooBar",
        &[
            (Ok(Token::Ident), 0, 3),
            (Ok(Token::Ident), 3, 1),
            (Ok(Token::Ident), 4, 2),
        ],
    ),
    (
        "....",
        &[(Ok(Token::Ellipsis), 0, 3), (Ok(Token::Dot), 3, 1)],
    ),
    ("x:string", &[(Ok(Token::PackageName), 0, 8)]),
    (
        "foo-Bar",
        &[(Ok(Token::Ident), 0, 5), (Ok(Token::Ident), 5, 2)],
    ),
    (
        "foo-bar:b@1.0.",
        &[(Ok(Token::PackageName), 0, 13), (Ok(Token::Dot), 13, 1)],
    ),
    (
        "import-x %import import",
        &[
            (Ok(Token::Ident), 0, 8),
            (Ok(Token::Ident), 9, 7),
            (Ok(Token::ImportKeyword), 17, 6),
        ],
    ),
    (
        "a#b",
        &[
            (Ok(Token::Ident), 0, 1),
            (Err(Error::UnexpectedToken), 1, 1),
            (Ok(Token::Ident), 2, 1),
        ],
    ),
    (
        "a /* x */ \"b\" \"",
        &[
            (Ok(Token::Ident), 0, 1),
            (Ok(Token::String), 10, 3),
            (Err(Error::UnterminatedString), 14, 1),
        ],
    ),
    (
        "package a:b@01.0.0;",
        &[
            (Ok(Token::PackageKeyword), 0, 7),
            (Ok(Token::PackageName), 8, 10),
            (Ok(Token::Semicolon), 18, 1),
        ],
    ),
    (
        "a:b@99999999999999999999999.0.0",
        &[(Ok(Token::PackageName), 0, 31)],
    ),
    (
        "/* /* unterminated */",
        &[(Err(Error::UnterminatedComment), 0, 21)],
    ),
    (
        "a; /* x",
        &[
            (Ok(Token::Ident), 0, 1),
            (Ok(Token::Semicolon), 1, 1),
            (Err(Error::UnterminatedComment), 3, 4),
        ],
    ),
    ("\"foo\nbar\"", &[(Ok(Token::String), 0, 9)]),
    (
        "\"é\" /* ü */ // ß\n\"\"",
        &[(Ok(Token::String), 0, 4), (Ok(Token::String), 20, 2)],
    ),
    (
        "é x",
        &[
            (Err(Error::UnexpectedToken), 0, 2),
            (Ok(Token::Ident), 3, 1),
        ],
    ),
    (
        "// x\r\n/***//* a /* /* deeply */ nested */ */ /",
        &[(Ok(Token::Slash), 45, 1)],
    ),
    (
        "a:b/c@1.2.3----R-S.12.9.1--.12+meta",
        &[(Ok(Token::PackagePath), 0, 35)],
    ),
    ("", &[]),
];

/// Texts, and the first rejected character of each.
static REFUSED: [(&str, Error, usize, usize); 5] = [
    (
        "package a:b; x // \u{202a}",
        Error::DisallowedBidirectionalOverride('\u{202a}'),
        18,
        3,
    ),
    (
        "é\u{149}\u{7f}",
        Error::DiscouragedUnicodeCodepoint('\u{149}'),
        2,
        2,
    ),
    ("\"\u{c}\"", Error::DisallowedControlCode('\u{c}'), 1, 1),
    ("\u{9f}", Error::DisallowedControlCode('\u{9f}'), 0, 2),
    (
        "\u{2069}",
        Error::DisallowedBidirectionalOverride('\u{2069}'),
        0,
        3,
    ),
];

/// A lexer of a source of three items, whose second one is a fault.
fn three_items(rt: &impl Abort) -> Lexer<'static> {
    match Lexer::new("let é\"x\"") {
        Ok(lexer) => lexer,
        Err(_) => panic!(rt; "a source is refused"),
    }
}

/// The first of the three items.
fn keyword() -> Option<(LexerResult<Token>, SourceSpan)> {
    Some((Ok(Token::LetKeyword), SourceSpan::new(0, 3)))
}

/// The span of the second of the three items.
fn second() -> SourceSpan {
    SourceSpan::new(4, 2)
}

/// The second of the three items.
fn fault() -> Option<(LexerResult<Token>, SourceSpan)> {
    Some((Err(Error::UnexpectedToken), second()))
}

/// Asserts what a lexer says ahead of its items.
fn looks_ahead(rt: &impl Abort) {
    let mut lexer = three_items(rt);
    assert!(rt; lexer.span() == SourceSpan::new(0, 0), "the start");
    assert!(rt; lexer.peek() == keyword(), "peek");
    assert!(rt; lexer.peek2() == fault(), "peek2");
    assert!(rt; lexer.next() == keyword(), "next");
    assert!(rt; lexer.span() == SourceSpan::new(0, 3), "next");
}

/// Asserts that a clone continues by itself.
fn clones(rt: &impl Abort) -> Result<(), Fail> {
    let mut lexer = three_items(rt);
    lexer.next();
    let mut copy = lexer.clone()?;
    assert!(rt; copy.next() == fault(), "the clone");
    assert!(rt; lexer.next() == fault(), "the cloned lexer");
    Ok(())
}

/// Asserts which spans a source has, and what is there.
fn slices(rt: &impl Abort) {
    let lexer = three_items(rt);
    let span = second();
    assert!(rt; lexer.holds(span));
    assert!(rt; lexer.source(span) == "é", "the second item");
    for (offset, len) in [(5, 1), (9, 1), (1, usize::MAX)] {
        assert!(rt; !lexer.holds(SourceSpan::new(offset, len)), "at {offset}");
    }
}

/// Asserts what a lexer says after its last item.
fn ends(rt: &impl Abort) {
    let mut lexer = three_items(rt);
    lexer.next();
    lexer.next();
    let third = SourceSpan::new(6, 3);
    let item = Some((Ok(Token::String), third));
    assert!(rt; lexer.next() == item, "the last item");
    assert!(rt; lexer.span() == SourceSpan::new(5, 1), "the last item");
    assert!(rt; lexer.peek2() == None, "the last item");
    assert!(rt; lexer.next() == None, "the end");
    assert!(rt; lexer.span() == SourceSpan::new(8, 1), "the end");
    lexer.stands_between_items();
}

#[test]
fn places_of_a_lexer(rt: HostRuntime) -> Result<(), Fail> {
    looks_ahead(&rt);
    slices(&rt);
    ends(&rt);
    clones(&rt)
}

/// Adds a text that many times as a comment nests.
fn push_levels(source: &mut String, text: &str) -> Result<(), AllocError> {
    for _ in 0..200 {
        source.push_str(text)?;
    }
    Ok(())
}

/// A block comment that nests 200 levels deep.
fn nested(alloc: Global) -> Result<String, AllocError> {
    let mut source = String::new(alloc);
    push_levels(&mut source, "/*")?;
    push_levels(&mut source, "*/")?;
    Ok(source)
}

/// The item after a comment that nests so deep.
static AFTER: [Row; 1] = [(Ok(Token::Ident), 800, 1)];

/// Asserts the items of a deep comment, and of one with an item after it.
fn deep_comments(rt: &impl Abort, alloc: Global) -> Result<(), AllocError> {
    let mut source = nested(alloc)?;
    assert!(rt; has_items(source.as_str(), &[]), "a deep comment");
    source.push_str("x")?;
    assert!(rt; has_items(source.as_str(), &AFTER), "after it");
    Ok(())
}

#[test]
fn items_of_texts(rt: HostRuntime) -> Result<(), Fail> {
    items_are(&rt, &TEXTS);
    deep_comments(&rt, rt.alloc())?;
    are_refused(&rt, &REFUSED);
    assert!(rt; Lexer::new("\t\r\n\u{a0}\u{202f}").is_ok());
    Ok(())
}
