//! The tokens of a document, with the brackets around them.
use std::alloc::{AllocError, Global};
use wac_lexer::{Lexer, SourceSpan, Token};

/// A token of a document.
#[derive(Clone, Copy)]
pub(crate) struct Lexed {
    pub(crate) token: Token,
    pub(crate) span: SourceSpan,
    /// The number of the bracket that opens what the token is in; of a bracket that closes the number of its other one.
    pub(crate) opener: Option<usize>,
}

/// Where a span ends.
pub(crate) fn end_of(span: SourceSpan) -> usize {
    span.offset().saturating_add(span.len())
}

/// Whether a token opens brackets.
fn opens(token: Token) -> bool {
    matches!(
        token,
        Token::OpenBrace | Token::OpenParen | Token::OpenAngle | Token::OpenBracket
    )
}

/// Whether a token closes brackets.
fn closes(token: Token) -> bool {
    matches!(
        token,
        Token::CloseBrace | Token::CloseParen | Token::CloseAngle | Token::CloseBracket
    )
}

/// Collects tokens.
#[derive(Drop)]
struct Collector {
    all: Vec<Lexed>,
    /// The numbers of the brackets that are open.
    open: Vec<usize>,
}

impl Collector {
    /// Adds a token.
    fn add(&mut self, token: Token, span: SourceSpan) -> Result<(), AllocError> {
        let opener = if closes(token) {
            self.open.pop()
        } else {
            self.open.last().copied()
        };
        if opens(token) {
            if self.open.push(self.all.len()).is_err() {
                return Err(AllocError);
            }
        }
        let lexed = Lexed {
            token,
            span,
            opener,
        };
        match self.all.push(lexed) {
            Ok(()) => Ok(()),
            Err(_) => Err(AllocError),
        }
    }
}

/// The tokens of a text: none where a character is rejected.
pub(crate) fn tokens_of(alloc: Global, text: &str) -> Result<Vec<Lexed>, AllocError> {
    let mut collector = Collector {
        all: Vec::new(alloc),
        open: Vec::new(alloc),
    };
    if let Ok(mut lexer) = Lexer::new(text) {
        while let Some((item, span)) = lexer.next() {
            if let Ok(token) = item {
                collector.add(token, span)?;
            }
        }
    }
    let Collector { all, .. } = collector;
    Ok(all)
}

/// Whether the token of a number is this one.
pub(crate) fn is_token(tokens: &[Lexed], number: usize, token: Token) -> bool {
    match tokens.get(number) {
        Some(lexed) => lexed.token == token,
        None => false,
    }
}

/// Whether the token before that of a number is this one.
pub(crate) fn is_before(tokens: &[Lexed], number: usize, token: Token) -> bool {
    match number.checked_sub(1) {
        Some(before) => is_token(tokens, before, token),
        None => false,
    }
}

/// The number of the bracket that opens what a token is in.
pub(crate) fn opener_of(tokens: &[Lexed], number: usize) -> Option<usize> {
    tokens.get(number)?.opener
}

/// Whether a token is in no brackets.
pub(crate) fn is_at_root(tokens: &[Lexed], number: usize) -> bool {
    match tokens.get(number) {
        Some(lexed) => lexed.opener.is_none(),
        None => false,
    }
}

/// The number of the token that an offset is in.
pub(crate) fn number_at(tokens: &[Lexed], offset: usize) -> Option<usize> {
    let count = tokens.partition_point(|lexed| lexed.span.offset() <= offset);
    count.checked_sub(1)
}

/// The number of the first semicolon at a number or after it that is in no brackets.
pub(crate) fn semicolon_from(tokens: &[Lexed], number: usize) -> Option<usize> {
    let rest = tokens.get(number..)?;
    let after = rest.iter().position(|lexed| lexed.token == Token::Semicolon
        && lexed.opener.is_none())?;
    Some(number.saturating_add(after))
}
