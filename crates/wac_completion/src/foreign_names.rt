//! Names of foreign packages in a text.

use crate::foreign::{Foreign, Lexeme, Reader, foreign_after, unquoted};
use crate::names::text_of;
use std::alloc::{AllocError, Global};
use wac_ast_base::at;
use wac_lexer::{Lexer, SourceSpan, Token};

/// A name of a foreign package in a text.
#[derive(Drop)]
pub struct ForeignName<'t> {
    /// The name as it is written there, without quotes.
    pub name: &'t str,
    /// What it is one of.
    pub foreign: Foreign<'t>,
}

/// Whether an offset is at a name, or just after it.
fn is_at(token: Token, span: SourceSpan, offset: usize) -> bool {
    let end = span.offset().saturating_add(span.len());
    matches!(token, Token::Ident | Token::String) && span.offset() <= offset && offset <= end
}

/// A name after what was read, if it is one of a foreign package. An argument that is an identifier and has no colon names
/// what the text itself binds too.
fn named<'t>(
    alloc: Global,
    reader: Reader<'t>,
    lexeme: Lexeme<'t>,
    has_colon: bool,
) -> Result<Option<ForeignName<'t>>, AllocError> {
    let is_local = lexeme.token == Token::Ident && !has_colon;
    match foreign_after(alloc, reader) {
        Ok(Some(Foreign::Argument { .. })) if is_local => Ok(None),
        Ok(Some(foreign)) => Ok(Some(ForeignName {
            name: unquoted(lexeme.text),
            foreign,
        })),
        Ok(None) => Ok(None),
        Err(error) => Err(error),
    }
}

/// The name of a foreign package at an offset in bytes, or just before it, as the tokens before it say: an argument, an
/// export or a type, which [`foreign_at`](crate::foreign_at) would have asked for where it begins.
///
/// `None` where there is none, and in a text with a rejected character. Whether there is such a package isn't known here.
/// The error is that memory ran out.
///
/// ```text
/// foreign_name_at(alloc, "package a:b; let x = new c:d { log: y };", 32)?;        // the argument `log` of c:d
/// foreign_name_at(alloc, "package a:b; let x = new c:d {}; export x.f;", 42)?;    // the export `f` of c:d
/// ```
pub fn foreign_name_at<'t>(
    alloc: Global,
    source: &'t str,
    offset: usize,
) -> Result<Option<ForeignName<'t>>, AllocError> {
    let Ok(mut lexer) = Lexer::new(source) else {
        return Ok(None);
    };
    let mut reader = Reader::new(alloc);
    while let Some((item, span)) = lexer.next() {
        if let Ok(token) = item {
            let text = text_of(source, span);
            let lexeme = Lexeme { token, text };
            if is_at(token, span, offset) {
                let has_colon = at(&lexer, Token::Colon);
                return named(alloc, reader, lexeme, has_colon);
            }
            reader.take(lexeme)?;
        }
    }
    Ok(None)
}
