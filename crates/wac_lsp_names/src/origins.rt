//! What the value of an expression comes from, as far as the document says it.
use crate::lexed::{is_before, is_token, opener_of, semicolon_from};
use crate::reading::Reading;
use wac_lexer::Token;
use wac_names::Kind;

/// The tokens of an expression: from the first to before the last.
#[derive(Clone, Copy)]
pub(crate) struct Expression {
    pub(crate) start: usize,
    pub(crate) end: usize,
}

/// What a value comes from.
#[derive(Clone, Copy)]
pub(crate) enum Origin {
    /// A new instance.
    New,
    /// An export of an instance, by the name that this token is or has between its quotes.
    Access(usize),
    /// What an import or a declaration binds to the name of this number.
    Bound(usize),
    /// The document doesn't say it.
    Unknown,
}

/// What is known of an expression after one look at it.
enum Look {
    Found(Origin),
    /// Its value is that of another expression.
    At(Expression),
}

/// The expression of the `let` of a name.
fn let_expression(reading: &Reading, number: usize) -> Option<Expression> {
    let tokens = reading.tokens.as_slice();
    let token = reading.token_of(number)?;
    let end = semicolon_from(tokens, token)?;
    let start = token.saturating_add(2);
    Some(Expression { start, end })
}

/// Looks at an identifier.
fn look_at_identifier(reading: &Reading, token: usize) -> Look {
    let Some(number) = reading.mentioned_by(token) else {
        return Look::Found(Origin::Unknown);
    };
    if reading.kind(number) != Some(Kind::Let) {
        return Look::Found(Origin::Bound(number));
    }
    match let_expression(reading, number) {
        Some(expression) => Look::At(expression),
        None => Look::Found(Origin::Unknown),
    }
}

/// Looks at the last token of an expression: what is before it says less.
fn look_at(reading: &Reading, expression: Expression) -> Look {
    let tokens = reading.tokens.as_slice();
    let Some(last) = expression.end.checked_sub(1) else {
        return Look::Found(Origin::Unknown);
    };
    let Some(lexed) = tokens.get(last) else {
        return Look::Found(Origin::Unknown);
    };
    match lexed.token {
        Token::CloseBrace => Look::Found(Origin::New),
        Token::CloseBracket => Look::Found(Origin::Access(last.saturating_sub(1))),
        Token::CloseParen => match opener_of(tokens, last) {
            Some(opener) => Look::At(Expression {
                start: opener.saturating_add(1),
                end: last,
            }),
            None => Look::Found(Origin::Unknown),
        },
        Token::Ident if is_before(tokens, last, Token::Dot) => Look::Found(Origin::Access(last)),
        Token::Ident => look_at_identifier(reading, last),
        _ => Look::Found(Origin::Unknown),
    }
}

/// What the value of an expression comes from: names of `let` stand for what they are bound to.
pub(crate) fn origin_of(reading: &Reading, expression: Expression) -> Origin {
    let mut expression = expression;
    for _ in 0..reading.tokens.len() {
        match look_at(reading, expression) {
            Look::Found(origin) => return origin,
            Look::At(next) => expression = next,
        }
    }
    Origin::Unknown
}

/// What the value of an identifier comes from.
pub(crate) fn origin_of_token(reading: &Reading, token: usize) -> Origin {
    let end = token.saturating_add(1);
    origin_of(reading, Expression { start: token, end })
}

/// The parts of an import, as numbers of tokens.
#[derive(Clone, Copy)]
pub(crate) struct ImportParts {
    /// The name after `as`.
    pub(crate) named: Option<usize>,
    /// The first token of its type.
    pub(crate) ty: usize,
}

/// The parts of the import of a name.
pub(crate) fn import_parts(reading: &Reading, number: usize) -> Option<ImportParts> {
    let tokens = reading.tokens.as_slice();
    let next = reading.token_of(number)?.saturating_add(1);
    if is_token(tokens, next, Token::AsKeyword) {
        return Some(ImportParts {
            named: Some(next.saturating_add(1)),
            ty: next.saturating_add(3),
        });
    }
    Some(ImportParts {
        named: None,
        ty: next.saturating_add(1),
    })
}

/// Whether the type of an import is written out: a function or an interface, which has no id then.
pub(crate) fn is_written_out(reading: &Reading, ty: usize) -> bool {
    let tokens = reading.tokens.as_slice();
    is_token(tokens, ty, Token::FuncKeyword)
        || is_token(tokens, ty, Token::AsyncKeyword)
        || is_token(tokens, ty, Token::InterfaceKeyword)
}
