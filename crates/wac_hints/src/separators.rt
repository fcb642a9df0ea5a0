//! Semicolons and commas that are missing, or where others are.
use crate::hints::{Found, insert, replace, say};
use crate::lexeme::begins_statement;
use crate::spot::Spot;
use std::alloc::Global;
use wac_lexer::Token;

/// What is said of separators.
pub(crate) fn separator_hint(alloc: Global, spot: &Spot<'_>) -> Found {
    if let Some(hint) = needless_hint(alloc, spot)? {
        return Ok(Some(hint));
    }
    if let Some(hint) = semicolon_hint(alloc, spot)? {
        return Ok(Some(hint));
    }
    if let Some(hint) = comma_hint(alloc, spot)? {
        return Ok(Some(hint));
    }
    argument_hint(alloc, spot)
}

/// `;` and braces that end nothing.
fn needless_hint(alloc: Global, spot: &Spot<'_>) -> Found {
    if !spot.expects_statement() {
        return Ok(None);
    }
    if spot.has(Token::Semicolon) {
        return replace(
            alloc,
            "no `;` comes after `}` or another `;`",
            spot.ahead(1),
            "",
        );
    }
    if spot.has(Token::CloseBrace) {
        return replace(alloc, "no brace is open here", spot.ahead(1), "");
    }
    Ok(None)
}

/// A `;` that is missing, or another separator in its place.
fn semicolon_hint(alloc: Global, spot: &Spot<'_>) -> Found {
    if !spot.expects_only(Token::Semicolon) {
        return Ok(None);
    }
    if spot.has(Token::Comma) {
        return replace(alloc, "write `;` here, not `,`", spot.ahead(1), ";");
    }
    if ends_before(spot) {
        return insert(alloc, "a `;` is missing", spot.end_before(), ";");
    }
    Ok(None)
}

/// Whether what comes before seems to end there: another statement, a closing brace or another line follows.
fn ends_before(spot: &Spot<'_>) -> bool {
    match spot.clash.found {
        Some(token) => {
            begins_statement(token) || token == Token::CloseBrace || spot.is_on_next_line()
        }
        None => true,
    }
}

/// A comma that is missing, or another separator in its place.
fn comma_hint(alloc: Global, spot: &Spot<'_>) -> Found {
    if !spot.expects_only(Token::Comma) {
        return Ok(None);
    }
    let Some(bracket) = spot.open else {
        return Ok(None);
    };
    if spot.has(Token::Semicolon) {
        if bracket.has_parts() {
            return replace(alloc, "write `,` here, not `;`", spot.ahead(1), ",");
        }
        return Ok(None);
    }
    match spot.clash.found {
        Some(Token::Ident | Token::String | Token::Ellipsis) => {
            insert(alloc, "a `,` is missing", spot.end_before(), ",")
        }
        _ => Ok(None),
    }
}

/// A string as an argument, without a value, and what is used without its names.
fn argument_hint(alloc: Global, spot: &Spot<'_>) -> Found {
    if spot.has(Token::String) && spot.expects_only(Token::Ident) && spot.open.is_some() {
        return say(
            alloc,
            "after the string of an argument come `:` and a value",
        );
    }
    if spot.has(Token::Semicolon) && spot.expects_only(Token::Dot) {
        return say(alloc, "what is used of it follows, as in `.{a, b}`");
    }
    Ok(None)
}
