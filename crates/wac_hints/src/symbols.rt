//! Symbols in the place of others.
use crate::hints::{Found, insert, replace, say};
use crate::lexeme::begins_type;
use crate::spot::Spot;
use std::alloc::Global;
use wac_lexer::Token;

/// What is said of symbols.
pub(crate) fn symbol_hint(alloc: Global, spot: &Spot<'_>) -> Found {
    if let Some(hint) = arrow_hint(alloc, spot)? {
        return Ok(Some(hint));
    }
    if let Some(hint) = doubled_hint(alloc, spot)? {
        return Ok(Some(hint));
    }
    if let Some(hint) = equals_hint(alloc, spot)? {
        return Ok(Some(hint));
    }
    payload_hint(alloc, spot)
}

/// Whether the parameters of a function end before the place.
fn is_after_parameters(spot: &Spot<'_>) -> bool {
    match spot.closed {
        Some(bracket) => bracket.before == Some(Token::FuncKeyword),
        None => false,
    }
}

/// What comes before the results of a function.
fn arrow_hint(alloc: Global, spot: &Spot<'_>) -> Found {
    if !is_after_parameters(spot) {
        return Ok(None);
    }
    let message = "`->` comes before what a function returns";
    if spot.rest.starts_with("=>") {
        return replace(alloc, message, spot.ahead(2), "->");
    }
    if spot.has(Token::Colon) {
        let arrow = if spot.end_before() == spot.place {
            " ->"
        } else {
            "->"
        };
        return replace(alloc, message, spot.ahead(1), arrow);
    }
    match spot.clash.found {
        Some(token) if begins_type(token) => insert(alloc, message, spot.place, "-> "),
        _ => Ok(None),
    }
}

/// Symbols that are written twice, and dots of which there are too few.
fn doubled_hint(alloc: Global, spot: &Spot<'_>) -> Found {
    if spot.rest.starts_with("::") {
        return replace(alloc, "one `:` comes between names", spot.ahead(2), ":");
    }
    if spot.has(Token::Equals) && spot.follows(Token::Equals) {
        return replace(alloc, "one `=` binds a name", spot.ahead(1), "");
    }
    if spot.rest.starts_with("..") && spot.has(Token::Dot) {
        return replace(alloc, "write three dots, `...`", spot.ahead(2), "...");
    }
    Ok(None)
}

/// `=` and `:` in the place of one another, and `=` where neither is.
fn equals_hint(alloc: Global, spot: &Spot<'_>) -> Found {
    if spot.has(Token::Equals) && spot.expects_only(Token::Colon) {
        return replace(alloc, "write `:` here, not `=`", spot.ahead(1), ":");
    }
    if spot.has(Token::Equals) && spot.expects_only(Token::OpenBrace) {
        return replace(alloc, "no `=` comes before a body", spot.ahead(1), "");
    }
    if spot.has(Token::Colon) && spot.expects_only(Token::Equals) {
        let len = if spot.rest.starts_with(":=") { 2 } else { 1 };
        return replace(alloc, "write `=` here, not `:`", spot.ahead(len), "=");
    }
    valued_hint(alloc, spot)
}

/// `=` after a name in braces.
fn valued_hint(alloc: Global, spot: &Spot<'_>) -> Found {
    if !spot.has(Token::Equals) || !spot.expects(Token::Comma) {
        return Ok(None);
    }
    match spot.open {
        Some(bracket) if bracket.has_parts() => {
            say(alloc, "cases, flags and fields have no values")
        }
        Some(bracket) if bracket.token == Token::OpenBrace => {
            replace(alloc, "write `:` here, not `=`", spot.ahead(1), ":")
        }
        _ => Ok(None),
    }
}

/// Colons after cases, and square brackets after types.
fn payload_hint(alloc: Global, spot: &Spot<'_>) -> Found {
    let Some(bracket) = spot.open else {
        return Ok(None);
    };
    if spot.has(Token::Colon) && bracket.earlier == Some(Token::VariantKeyword) {
        return say(
            alloc,
            "the type of a case is in parentheses, as in `case(u8)`",
        );
    }
    if spot.has(Token::Colon) && bracket.has_parts() && spot.expects(Token::Comma) {
        return say(
            alloc,
            "cases and flags have no types; those of a `variant` do",
        );
    }
    Ok(None)
}
