//! The parts of a text that declare names.
use crate::lexed::{Lexed, end_of};
use crate::reading::Reading;
use wac_lexer::{SourceSpan, Token};
use wac_names::Kind;

/// The keyword that is before the name of a declaration of this kind.
fn keyword_of(kind: Kind) -> Option<Token> {
    match kind {
        Kind::Import | Kind::WorldImport => Some(Token::ImportKeyword),
        Kind::Let => Some(Token::LetKeyword),
        Kind::Interface => Some(Token::InterfaceKeyword),
        Kind::World => Some(Token::WorldKeyword),
        Kind::Alias => Some(Token::TypeKeyword),
        Kind::Resource => Some(Token::ResourceKeyword),
        Kind::Variant => Some(Token::VariantKeyword),
        Kind::Record => Some(Token::RecordKeyword),
        Kind::Flags => Some(Token::FlagsKeyword),
        Kind::Enum => Some(Token::EnumKeyword),
        Kind::WorldExport => Some(Token::ExportKeyword),
        Kind::UsedType => Some(Token::UseKeyword),
        Kind::IncludedItem => Some(Token::IncludeKeyword),
        Kind::Function
        | Kind::Method
        | Kind::Case
        | Kind::Field
        | Kind::Flag
        | Kind::Parameter
        | Kind::NamedResult => None,
    }
}

/// Whether a declaration of this kind may end with a brace.
fn ends_with_brace(kind: Kind) -> bool {
    matches!(
        kind,
        Kind::Interface
            | Kind::World
            | Kind::Resource
            | Kind::Variant
            | Kind::Record
            | Kind::Flags
            | Kind::Enum
    )
}

/// The number of the token with which the declaration of a name begins: the keyword nearest before it.
fn first_token(tokens: &[Lexed], name: usize, kind: Kind) -> usize {
    let Some(keyword) = keyword_of(kind) else {
        return name;
    };
    match tokens.get(..name) {
        Some(before) => before
            .iter()
            .rposition(|lexed| lexed.token == keyword)
            .unwrap_or(name),
        None => name,
    }
}

/// Where a declaration ends that begins with a token of these brackets, if it ends with this token.
fn end_at(tokens: &[Lexed], number: usize, opener: Option<usize>, kind: Kind) -> Option<usize> {
    let lexed = tokens.get(number)?;
    let is_beside = lexed.opener == opener;
    match lexed.token {
        Token::Semicolon if is_beside => Some(end_of(lexed.span)),
        Token::Comma if is_beside => Some(lexed.span.offset()),
        Token::CloseBrace if ends_with_brace(kind) => {
            let is_own = match lexed.opener {
                Some(brace) => tokens.get(brace)?.opener == opener,
                None => false,
            };
            if is_own {
                Some(end_of(lexed.span))
            } else {
                None
            }
        }
        Token::CloseBrace | Token::CloseParen if is_beside && opener.is_some() => {
            Some(lexed.span.offset())
        }
        _ => None,
    }
}

/// Where a declaration ends that begins with a token.
fn end_from(tokens: &[Lexed], first: usize, kind: Kind) -> Option<usize> {
    let opener = tokens.get(first)?.opener;
    for number in first..tokens.len() {
        if let Some(end) = end_at(tokens, number, opener, kind) {
            return Some(end);
        }
    }
    None
}

/// A part of a text that declares a name, without its docs.
#[derive(Clone, Copy)]
pub(crate) struct Declaration {
    /// The number of its first token.
    pub(crate) first: usize,
    pub(crate) span: SourceSpan,
}

/// The part of the text that declares the name of a number.
pub(crate) fn declaration_of(reading: &Reading, number: usize) -> Option<Declaration> {
    let tokens = reading.tokens.as_slice();
    let kind = reading.kind(number)?;
    let first = first_token(tokens, reading.token_of(number)?, kind);
    let start = tokens.get(first)?.span.offset();
    let end = end_from(tokens, first, kind)?;
    let span = SourceSpan::new(start, end.saturating_sub(start));
    Some(Declaration { first, span })
}
