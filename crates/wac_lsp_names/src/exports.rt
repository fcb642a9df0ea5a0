//! The exports of a document, by its tokens.
use crate::lexed::{Lexed, is_at_root, is_before};
use crate::origins::Expression;
use wac_lexer::Token;

/// An export of a document, as numbers of tokens.
#[derive(Clone, Copy)]
pub(crate) struct Export {
    /// The word `export`.
    pub(crate) keyword: usize,
    /// The semicolon at the end.
    pub(crate) semicolon: usize,
}

/// The export that a semicolon ends, if it ends one.
pub(crate) fn export_at(tokens: &[Lexed], semicolon: usize) -> Option<Export> {
    if !is_at_root(tokens, semicolon) {
        return None;
    }
    for (number, lexed) in tokens.get(..semicolon)?.iter().enumerate().rev() {
        match lexed.token {
            _ if lexed.opener.is_some() => {}
            Token::ExportKeyword => {
                return Some(Export {
                    keyword: number,
                    semicolon,
                });
            }
            Token::Semicolon | Token::LetKeyword | Token::ImportKeyword => return None,
            _ => {}
        }
    }
    None
}

/// The expression of an export that has no name after `as`, and no `...`.
pub(crate) fn exported_expression(tokens: &[Lexed], export: Export) -> Option<Expression> {
    let last = export.semicolon.checked_sub(1)?;
    if is_before(tokens, last, Token::AsKeyword)
        || is_before(tokens, export.semicolon, Token::Ellipsis)
    {
        return None;
    }
    Some(Expression {
        start: export.keyword.saturating_add(1),
        end: export.semicolon,
    })
}

/// The name of an export after `as`.
pub(crate) fn written_name(tokens: &[Lexed], export: Export) -> Option<usize> {
    let last = export.semicolon.checked_sub(1)?;
    if is_before(tokens, last, Token::AsKeyword) {
        Some(last)
    } else {
        None
    }
}

/// The expression of an export with `...`.
pub(crate) fn spread_expression(tokens: &[Lexed], export: Export) -> Option<Expression> {
    if !is_before(tokens, export.semicolon, Token::Ellipsis) {
        return None;
    }
    Some(Expression {
        start: export.keyword.saturating_add(1),
        end: export.semicolon.checked_sub(1)?,
    })
}
