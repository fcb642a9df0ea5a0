//! Calls that take a callback: each result once, with the items that it leaves.

use std::alloc::Global;
use wac_ast_base::{Error, ParseResult, at, has_more, parse_optional, parse_token};
use wac_ast_types::{Type, parse_optional_payload};
use wac_lexer::{Error as Fault, Lexer, LexerResult, SourceSpan, Token};

/// The span of a name.
fn name(lexer: &mut Lexer) -> ParseResult<SourceSpan> {
    parse_token(lexer, Token::Ident)
}

/// A place: its offset and length.
pub(crate) type Place = (usize, usize);

/// Where a span lies.
pub(crate) fn place(span: SourceSpan) -> Place {
    (span.offset(), span.len())
}

/// Where an error lies, and the token that was found there.
pub(crate) fn told(error: &Error) -> Option<(Place, Option<Token>)> {
    match error {
        Error::Lexer { span, .. } => Some((place(*span), None)),
        Error::Expected { found, span, .. } => Some((place(*span), *found)),
        _ => None,
    }
}

/// What an optional part gives: where it lies, nothing, or what is reported of an error.
type Given = Result<Option<Place>, Option<(Place, Option<Token>)>>;

/// What a name after `as` gives, where it may be left out.
fn given(lexer: &mut Lexer) -> Given {
    match parse_optional(lexer, Token::AsKeyword, |lexer| name(lexer)) {
        Ok(Some(span)) => Ok(Some(place(span))),
        Ok(None) => Ok(None),
        Err(error) => Err(told(&error)),
    }
}

/// An item, with its offset and length.
type Item = (LexerResult<Token>, usize, usize);

/// Texts, what an optional part at the start of each gives, and the items that are left.
static OPTIONAL: [(&str, Given, &[Item]); 5] = [
    ("as x;", Ok(Some((3, 1))), &[(Ok(Token::Semicolon), 4, 1)]),
    (
        "is x;",
        Ok(None),
        &[
            (Ok(Token::Ident), 0, 2),
            (Ok(Token::Ident), 3, 1),
            (Ok(Token::Semicolon), 4, 1),
        ],
    ),
    (" ", Ok(None), &[]),
    (
        "# x;",
        Err(Some(((0, 1), None))),
        &[
            (Err(Fault::UnexpectedToken), 0, 1),
            (Ok(Token::Ident), 2, 1),
            (Ok(Token::Semicolon), 3, 1),
        ],
    ),
    ("as ;", Err(Some(((3, 1), Some(Token::Semicolon)))), &[]),
];

/// Whether these items are left.
fn leaves(mut lexer: Lexer, items: &[Item]) -> bool {
    for (item, offset, len) in items {
        if lexer.next() != Some((*item, SourceSpan::new(*offset, *len))) {
            return false;
        }
    }
    lexer.next() == None
}

/// Where what a stream holds lies, and the stream.
fn held(ty: &Type) -> Option<(Option<Place>, Place)> {
    match ty {
        Type::Stream(Some(inner), span) => Some((Some(place(inner.span())), place(*span))),
        Type::Stream(None, span) => Some((None, place(*span))),
        _ => None,
    }
}

/// A stream of what is in the brackets.
fn stream<'a>(inner: Option<Box<Type<'a>>>, span: SourceSpan) -> Type<'a> {
    Type::Stream(inner, span)
}

/// Where what is held lies, and all of it; whether a name follows it; and the lexer's span.
type Taken = (Option<Place>, Place, bool, Place);

/// What a type of a text takes.
fn taken(alloc: Global, source: &str) -> Option<Taken> {
    let Ok(mut lexer) = Lexer::new(source) else {
        return None;
    };
    if !has_more(&lexer) {
        return None;
    }
    // (the contract that the prover would infer of this closure passes its limit)
    let made = parse_optional_payload::<Error, _>(
        alloc,
        &mut lexer,
        |inner, span|
            requires { Unit {0} }
            ensures { Unit {0} }
        { stream(inner, span) },
    );
    let (inner, all) = match made {
        Ok(ty) => held(&ty)?,
        Err(_) => return None,
    };
    Some((inner, all, at(&lexer, Token::Ident), place(lexer.span())))
}

/// Texts, and what a type of each takes. Where the text ends with it, nothing is read after it: the lexer's span is
/// that of the last item, which ends where the text ends and so is the byte before its start.
static PAYLOADS: [(&str, Taken); 4] = [
    ("stream<u8> x", (Some((7, 2)), (0, 10), true, (9, 1))),
    ("stream x", (None, (0, 6), true, (0, 6))),
    ("stream<u8>", (Some((7, 2)), (0, 10), false, (8, 1))),
    ("stream", (None, (0, 6), false, (0, 1))),
];

/// Whether an optional part at the start of a text gives this, and leaves these items.
fn gives(source: &str, expected: &Given, items: &[Item]) -> bool {
    match Lexer::new(source) {
        Ok(mut lexer) => given(&mut lexer) == *expected && leaves(lexer, items),
        Err(_) => false,
    }
}

#[test]
fn optional_parts(rt: HostRuntime) {
    for (source, expected, items) in &OPTIONAL {
        let is_given = gives(source, expected, items);
        assert!(rt; is_given, "of {source}");
    }
}

#[test]
fn optional_payloads(rt: HostRuntime) {
    for (source, expected) in &PAYLOADS {
        let is_taken = taken(rt.alloc(), source) == Some(*expected);
        assert!(rt; is_taken, "of {source}");
    }
}
