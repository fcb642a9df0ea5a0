//! The kinds of a document's tokens.
use crate::pieces::pieces_of;
use crate::places::View;
use serde_json::{Value, json};
use std::alloc::{AllocError, Global};
use wac_comments_layout::Piece;
use wac_hints::begins_type;
use wac_lexer::{Lexer, Token};
use wac_positions::ColumnUnit;

/// The kind of a token.
#[derive(Clone, Copy)]
enum Kind {
    Keyword,
    TypeName,
    Text,
    Comment,
    Operator,
    Variable,
    Namespace,
}

/// The names of the kinds, in the order of their numbers.
static NAMES: [&'static str; 7] = [
    "keyword",
    "type",
    "string",
    "comment",
    "operator",
    "variable",
    "namespace",
];

impl Kind {
    /// The place of its name among those of the kinds.
    fn number(self) -> usize {
        match self {
            Kind::Keyword => 0,
            Kind::TypeName => 1,
            Kind::Text => 2,
            Kind::Comment => 3,
            Kind::Operator => 4,
            Kind::Variable => 5,
            Kind::Namespace => 6,
        }
    }
}

/// The names of the kinds, as a value.
pub(crate) fn legend(alloc: Global) -> Result<Value, AllocError> {
    let mut names = Vec::new(alloc);
    for name in &NAMES {
        names.push(Value::try_from_str(alloc, *name)?)?;
    }
    let names = Value::Array(names);
    json!(in alloc; {"tokenTypes": names, "tokenModifiers": []})
}

/// Whether a text has a letter.
fn has_letter(text: &str) -> bool {
    text.as_bytes()
        .iter()
        .any(|byte| byte.is_ascii_alphabetic())
}

/// The kind of a token with this text.
fn kind_of(token: Token, text: &str) -> Kind {
    match token {
        Token::Ident => Kind::Variable,
        Token::String => Kind::Text,
        Token::PackageName | Token::PackagePath => Kind::Namespace,
        _ => {
            if begins_type(token) {
                Kind::TypeName
            } else if has_letter(text) {
                Kind::Keyword
            } else {
                Kind::Operator
            }
        }
    }
}

/// The token that a text is, if it is one.
fn token_of(text: &str) -> Option<Token> {
    let Ok(lexer) = Lexer::new(text) else {
        return None;
    };
    match lexer.peek() {
        Some((Ok(token), _)) => Some(token),
        _ => None,
    }
}

/// The kind of a piece, if it is a comment or a token.
fn kind_of_piece(piece: &Piece<'_>) -> Option<Kind> {
    if piece.is_comment() {
        return Some(Kind::Comment);
    }
    match token_of(piece.text) {
        Some(token) => Some(kind_of(token, piece.text)),
        None => None,
    }
}

/// Collects the numbers of tokens: each line and column relative to those of the token before.
#[derive(Drop)]
struct Numbers {
    values: Vec<Value>,
    line: usize,
    column: usize,
}

impl Numbers {
    /// Adds a number.
    fn push(&mut self, number: usize) -> Result<(), AllocError> {
        match self.values.push(Value::from(number)) {
            Ok(()) => Ok(()),
            Err(_) => Err(AllocError),
        }
    }

    /// Adds a part of one line.
    fn add(
        &mut self,
        view: &View<'_>,
        start: usize,
        end: usize,
        kind: Kind,
    ) -> Result<(), AllocError> {
        let first = view.place(start);
        let last = view.place(end);
        let line = first.line.saturating_sub(self.line);
        let column = if line == 0 {
            first.column.saturating_sub(self.column)
        } else {
            first.column
        };
        self.line = first.line;
        self.column = first.column;
        self.push(line)?;
        self.push(column)?;
        self.push(last.column.saturating_sub(first.column))?;
        self.push(kind.number())?;
        self.push(0)
    }

    /// Adds a piece, cut where lines end.
    fn add_piece(
        &mut self,
        view: &View<'_>,
        piece: &Piece<'_>,
        kind: Kind,
    ) -> Result<(), AllocError> {
        let mut start = piece.span.offset();
        for part in piece.text.split(['\n', '\r']) {
            let end = start.saturating_add(part.len());
            if start < end {
                self.add(view, start, end, kind)?;
            }
            start = end.saturating_add(1);
        }
        Ok(())
    }
}

/// The numbers of the kinds of pieces.
fn numbers_of(
    alloc: Global,
    view: &View<'_>,
    pieces: &[Piece<'_>],
) -> Result<Vec<Value>, AllocError> {
    let mut numbers = Numbers {
        values: Vec::new(alloc),
        line: 0,
        column: 0,
    };
    for piece in pieces {
        if let Some(kind) = kind_of_piece(piece) {
            numbers.add_piece(view, piece, kind)?;
        }
    }
    let Numbers { values, .. } = numbers;
    Ok(values)
}

/// The kinds of a text's tokens and comments up to its first rejected character, five numbers each.
pub(crate) fn tokens(alloc: Global, text: &str, unit: ColumnUnit) -> Result<Value, AllocError> {
    let pieces = pieces_of(alloc, text)?;
    let view = View::new(alloc, text, unit)?;
    let numbers = Value::Array(numbers_of(alloc, &view, pieces.as_slice())?);
    json!(in alloc; {"data": numbers})
}
