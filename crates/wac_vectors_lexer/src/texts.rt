//! Names of tokens, and texts of faults.

use std::alloc::{AllocError, Global};
use std::fmt::Display;
use std::process::Abort;
use std::test::Fail;
use wac_lexer::{Error, Lexer, SourceSpan, Token};

static KEYWORDS: [(&str, Token); 43] = [
    ("import", Token::ImportKeyword),
    ("with", Token::WithKeyword),
    ("type", Token::TypeKeyword),
    ("tuple", Token::TupleKeyword),
    ("list", Token::ListKeyword),
    ("option", Token::OptionKeyword),
    ("result", Token::ResultKeyword),
    ("borrow", Token::BorrowKeyword),
    ("resource", Token::ResourceKeyword),
    ("variant", Token::VariantKeyword),
    ("record", Token::RecordKeyword),
    ("flags", Token::FlagsKeyword),
    ("enum", Token::EnumKeyword),
    ("func", Token::FuncKeyword),
    ("static", Token::StaticKeyword),
    ("constructor", Token::ConstructorKeyword),
    ("u8", Token::U8Keyword),
    ("s8", Token::S8Keyword),
    ("u16", Token::U16Keyword),
    ("s16", Token::S16Keyword),
    ("u32", Token::U32Keyword),
    ("s32", Token::S32Keyword),
    ("u64", Token::U64Keyword),
    ("s64", Token::S64Keyword),
    ("f32", Token::F32Keyword),
    ("f64", Token::F64Keyword),
    ("char", Token::CharKeyword),
    ("bool", Token::BoolKeyword),
    ("string", Token::StringKeyword),
    ("interface", Token::InterfaceKeyword),
    ("world", Token::WorldKeyword),
    ("export", Token::ExportKeyword),
    ("new", Token::NewKeyword),
    ("let", Token::LetKeyword),
    ("use", Token::UseKeyword),
    ("include", Token::IncludeKeyword),
    ("as", Token::AsKeyword),
    ("package", Token::PackageKeyword),
    ("targets", Token::TargetsKeyword),
    ("async", Token::AsyncKeyword),
    ("stream", Token::StreamKeyword),
    ("future", Token::FutureKeyword),
    ("error-context", Token::ErrorContextKeyword),
];

static SYMBOLS: [(&str, Token); 18] = [
    (";", Token::Semicolon),
    ("{", Token::OpenBrace),
    ("}", Token::CloseBrace),
    (":", Token::Colon),
    ("=", Token::Equals),
    ("(", Token::OpenParen),
    (")", Token::CloseParen),
    ("->", Token::Arrow),
    ("<", Token::OpenAngle),
    (">", Token::CloseAngle),
    ("_", Token::Underscore),
    ("[", Token::OpenBracket),
    ("]", Token::CloseBracket),
    (".", Token::Dot),
    ("...", Token::Ellipsis),
    (",", Token::Comma),
    ("/", Token::Slash),
    ("@", Token::At),
];

/// Whether a text is this token and no other.
fn is_token(text: &str, token: Token) -> bool {
    let Ok(mut lexer) = Lexer::new(text) else {
        return false;
    };
    let item = Some((Ok(token), SourceSpan::new(0, text.len())));
    lexer.next() == item && lexer.next() == None
}

/// Whether a token is named by the text in quotes and a word for its kind.
fn is_named(alloc: Global, text: &str, token: Token, kind: &str) -> Result<bool, AllocError> {
    let name = format!(in alloc; "{token}")?;
    let expected = format!(in alloc; "`{text}`{kind}")?;
    Ok(name.as_str() == expected.as_str())
}

/// Asserts that each text is one token, which is named so.
fn are_words(
    rt: &impl Abort,
    alloc: Global,
    rows: &[(&str, Token)],
    kind: &str,
) -> Result<(), AllocError> {
    for (text, token) in rows {
        let is_word = is_token(text, *token) && is_named(alloc, text, *token, kind)?;
        assert!(rt; is_word, "of {text}");
    }
    Ok(())
}

/// Other tokens.
static TOKENS: [(Token, &str); 6] = [
    (Token::Comment, "comment"),
    (Token::BlockComment, "comment"),
    (Token::Ident, "identifier"),
    (Token::String, "string literal"),
    (Token::PackageName, "package name"),
    (Token::PackagePath, "package path"),
];

static FAULTS: [(Error, &str); 6] = [
    (Error::UnexpectedToken, "unexpected token was encountered"),
    (
        Error::UnterminatedString,
        "an unterminated string was encountered",
    ),
    (
        Error::UnterminatedComment,
        "an unterminated comment was encountered",
    ),
    (
        Error::DisallowedBidirectionalOverride('\u{202a}'),
        "disallowed bidirectional override codepoint `\\u{202a}`",
    ),
    (
        Error::DiscouragedUnicodeCodepoint('\u{149}'),
        "codepoint `\\u{149}` is discouraged by Unicode",
    ),
    (
        Error::DisallowedControlCode('\u{c}'),
        "disallowed control code '\\u{c}'",
    ),
];

/// Whether the text of a value is these words.
fn is_shown(alloc: Global, value: &impl Display, words: &str) -> Result<bool, AllocError> {
    let text = value.to_string(alloc)?;
    Ok(text.as_str() == words)
}

/// Asserts that the text of each value is what is written beside it.
fn are_shown<D: Display>(
    rt: &impl Abort,
    alloc: Global,
    rows: &[(D, &str)],
) -> Result<(), AllocError> {
    for (value, words) in rows {
        assert!(rt; is_shown(alloc, value, words)?, "of {words}");
    }
    Ok(())
}

#[test]
fn keywords(rt: HostRuntime) -> Result<(), Fail> {
    are_words(&rt, rt.alloc(), &KEYWORDS, " keyword")?;
    Ok(())
}

#[test]
fn symbols(rt: HostRuntime) -> Result<(), Fail> {
    are_words(&rt, rt.alloc(), &SYMBOLS, "")?;
    Ok(())
}

#[test]
fn names_and_messages(rt: HostRuntime) -> Result<(), Fail> {
    are_shown(&rt, rt.alloc(), &TOKENS)?;
    are_shown(&rt, rt.alloc(), &FAULTS)?;
    assert!(rt; Error::default() == Error::UnexpectedToken, "default");
    assert!(rt; Error::from(()) == Error::UnexpectedToken, "from");
    Ok(())
}
