//! Documents that begin with a text.

use crate::kind::text_of;
use std::alloc::{AllocError, Global};
use wac_ast::Document;
use wac_ast_base::Error;
use wac_lexer::Token;

/// How many tokens are added at most.
const MOST: usize = 1100;

/// A text that begins with another one and an identifier.
#[derive(Drop)]
pub(crate) struct Closed {
    /// The whole text.
    pub text: String,
    /// Where the identifier begins. It is one letter.
    pub at: usize,
}

/// How soon a token ends what is open: those that close something come first.
fn rank(token: Token) -> usize {
    match token {
        Token::Semicolon => 0,
        Token::CloseBrace => 1,
        Token::CloseParen => 2,
        Token::CloseAngle => 3,
        Token::CloseBracket => 4,
        Token::Ident => 5,
        _ => 6,
    }
}

/// The one of some tokens that ends what is open soonest.
fn soonest(tokens: &[Option<Token>]) -> Option<Token> {
    let mut best: Option<Token> = None;
    for token in tokens {
        if let Some(token) = token {
            let is_sooner = match best {
                Some(other) => rank(*token) < rank(other),
                None => true,
            };
            if is_sooner {
                best = Some(*token);
            }
        }
    }
    best
}

/// The token that is added where a text ends too early.
fn added(error: &Error) -> Option<Token> {
    match error {
        Error::Expected {
            expected,
            found: None,
            ..
        } => Some(*expected),
        Error::ExpectedEither {
            first,
            second,
            found: None,
            ..
        } => soonest(&[Some(*first), Some(*second)]),
        Error::ExpectedMultiple {
            expected,
            found: None,
            ..
        } => soonest(expected),
        _ => None,
    }
}

/// The token that is added to a text. `None` where it is a document, or has a fault before its end.
fn missing(alloc: Global, text: &str) -> Result<Lack, AllocError> {
    match Document::parse(alloc, text) {
        Ok(_document) => Ok(Lack::Nothing),
        Err(Error::Memory(_)) => Err(AllocError),
        Err(error) => match added(&error) {
            Some(token) => Ok(Lack::Token(token)),
            None => Ok(Lack::Other),
        },
    }
}

/// What a text lacks.
enum Lack {
    /// It is a document.
    Nothing,
    /// This token, perhaps with others after it.
    Token(Token),
    /// It has a fault before its end.
    Other,
}

/// A document that begins with a text, a blank and an identifier. `None` where none was found.
pub(crate) fn close(alloc: Global, text: &str) -> Result<Option<Closed>, AllocError> {
    let mut all = String::from_str(alloc, text)?;
    all.push(' ')?;
    let at = all.len();
    all.push('a')?;
    for _ in 0..MOST {
        match missing(alloc, all.as_str())? {
            Lack::Nothing => return Ok(Some(Closed { text: all, at })),
            Lack::Token(token) => {
                all.push(' ')?;
                all.push_str(text_of(token))?;
            }
            Lack::Other => return Ok(None),
        }
    }
    Ok(None)
}

impl Closed {
    /// The same text with another identifier.
    pub(crate) fn with_name(&self, alloc: Global, name: &str) -> Result<String, AllocError> {
        let text = self.text.as_str();
        let mut all = String::from_str(alloc, text.get(..self.at).unwrap_or(""))?;
        all.push_str(name)?;
        all.push_str(text.get(self.at.saturating_add(1)..).unwrap_or(""))?;
        Ok(all)
    }
}
