//! Where a lexer is: its span and the docs after the last item, after the end and after a rejected token; and what a
//! lookahead counts.

use crate::trees::optional::{Place, place, told};
use std::alloc::{AllocError, Global};
use std::test::Fail;
use wac_ast_base::{Error, Lookahead, parse_token};
use wac_lexer::{Lexer, SourceSpan, Token};

/// A doc, its offset and its length. Nothing where there is none.
type Doc = Option<(&'static str, usize, usize)>;

/// A token that was not expected, or the end: where it is rejected, what was found there, the lexer's span after it, and
/// the doc after it. Where an item ends the text, the lexer's span is the byte before it.
type Step = (Place, Option<Token>, Place, Doc);

/// Texts, the doc before each, and what comes where a semicolon is expected, again and again.
static REFUSED: [(&str, Doc, &[Step]); 2] = [
    (
        "/// d\na /// x",
        Some(("d", 0, 5)),
        &[
            ((6, 1), Some(Token::Ident), (6, 1), Some(("x", 8, 5))),
            ((12, 1), None, (12, 1), None),
        ],
    ),
    (
        "x /// d\n yz",
        None,
        &[
            ((0, 1), Some(Token::Ident), (0, 1), Some(("d", 2, 5))),
            ((9, 2), Some(Token::Ident), (8, 1), None),
            ((10, 1), None, (10, 1), None),
        ],
    ),
];

/// Whether docs are this one alone.
fn are_doc(docs: &[(&str, SourceSpan)], wanted: Doc) -> bool {
    match (docs.first(), wanted) {
        (Some((text, span)), Some((doc, offset, len))) => {
            docs.len() == 1 && *text == doc && *span == SourceSpan::new(offset, len)
        }
        (None, None) => true,
        _ => false,
    }
}

/// Whether this doc alone follows the lexer's place.
fn has_doc(alloc: Global, lexer: &Lexer, wanted: Doc) -> Result<bool, AllocError> {
    let docs = lexer.comments(alloc)?;
    Ok(are_doc(docs.as_slice(), wanted))
}

/// Whether a semicolon is rejected there, for what was found.
fn is_refused(lexer: &mut Lexer, place: Place, found: Option<Token>) -> bool {
    match parse_token(lexer, Token::Semicolon) {
        Ok(_) => false,
        Err(error) => told(&error) == Some((place, found)),
    }
}

/// Whether these steps come.
fn come(alloc: Global, mut lexer: Lexer, steps: &[Step]) -> Result<bool, AllocError> {
    for (at, found, after, doc) in steps {
        let is_next = is_refused(&mut lexer, *at, *found) && place(lexer.span()) == *after;
        if !is_next || !has_doc(alloc, &lexer, *doc)? {
            return Ok(false);
        }
    }
    Ok(true)
}

/// The first text of which other steps come.
fn first_other(alloc: Global) -> Result<Option<&'static str>, AllocError> {
    for (source, doc, steps) in &REFUSED {
        let comes = match Lexer::new(source) {
            Ok(lexer) => has_doc(alloc, &lexer, *doc)? && come(alloc, lexer, steps)?,
            Err(_) => false,
        };
        if !comes {
            return Ok(Some(*source));
        }
    }
    Ok(None)
}

/// Eleven tokens, none of which is an identifier.
static ELEVEN: [Token; 11] = [
    Token::Semicolon,
    Token::Comma,
    Token::Colon,
    Token::Dot,
    Token::Equals,
    Token::OpenBrace,
    Token::CloseBrace,
    Token::OpenParen,
    Token::CloseParen,
    Token::OpenAngle,
    Token::CloseAngle,
];

/// How many tokens an error counts, and the last of those that it keeps.
fn counted(error: &Error) -> Option<(usize, Option<Token>)> {
    match error {
        Error::ExpectedMultiple {
            expected,
            count,
            ..
        } => Some((*count, expected[9])),
        _ => None,
    }
}

/// Whether a lookahead counts the tokens that it doesn't find: eleven others than the one that is there.
fn are_counted(lexer: &Lexer) -> bool {
    let mut lookahead = Lookahead::new(lexer);
    let before = lookahead.attempts() == 0
        && lookahead.peek(Token::Ident)
        && lookahead.attempts() == 0;
    for token in &ELEVEN {
        if lookahead.peek(*token) {
            return false;
        }
    }
    let after = lookahead.peek(Token::Ident) && lookahead.attempts() == 11;
    if lookahead.attempts() > 0 {
        let error = lookahead.error();
        return before && after && counted(&error) == Some((11, Some(Token::OpenAngle)));
    }
    false
}

#[test]
fn places_and_attempts(rt: HostRuntime) -> Result<(), Fail> {
    let wrong = first_other(rt.alloc())?;
    assert!(rt; wrong == None, "{wrong:?}");
    match Lexer::new("x") {
        Ok(lexer) => assert!(rt; are_counted(&lexer), "eleven"),
        Err(_) => panic!(rt; "refused"),
    }
    Ok(())
}
