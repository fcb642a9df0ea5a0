//! Brackets that are missing, or of another kind.
use crate::hints::{Found, insert, replace, say};
use crate::spot::{Bracket, Spot};
use std::alloc::Global;
use wac_lexer::{SourceSpan, Token};

/// What is said of brackets.
pub(crate) fn bracket_hint(alloc: Global, spot: &Spot<'_>) -> Found {
    if let Some(hint) = other_bracket_hint(alloc, spot)? {
        return Ok(Some(hint));
    }
    if let Some(hint) = list_hint(alloc, spot)? {
        return Ok(Some(hint));
    }
    open_hint(alloc, spot)
}

/// A bracket in the place of one of another kind.
fn other_bracket_hint(alloc: Global, spot: &Spot<'_>) -> Found {
    if spot.has(Token::OpenParen) && spot.expects_only(Token::OpenBrace) {
        return replace(alloc, "write `{` here, not `(`", spot.ahead(1), "{");
    }
    if spot.has(Token::OpenBracket) && spot.expects_only(Token::OpenBrace) {
        return replace(alloc, "write `{` here, not `[`", spot.ahead(1), "{");
    }
    if spot.has(Token::OpenBrace) && spot.expects_only(Token::OpenParen) {
        return replace(alloc, "write `(` here, not `{`", spot.ahead(1), "(");
    }
    if spot.has(Token::OpenParen) && spot.expects_only(Token::OpenAngle) {
        return replace(alloc, "write `<` here, not `(`", spot.ahead(1), "<");
    }
    Ok(None)
}

/// Square brackets after a type.
fn list_hint(alloc: Global, spot: &Spot<'_>) -> Found {
    if !spot.rest.starts_with("[]") {
        return Ok(None);
    }
    let Some(before) = spot.before else {
        return Ok(None);
    };
    let ty = spot.text_of(before);
    let text = format!(in alloc; "list<{ty}>")?;
    let message = format!(in alloc; "the type of lists is `{text}`")?;
    let end = spot.place.saturating_add(2);
    let span = SourceSpan::new(before.start, end.saturating_sub(before.start));
    replace(alloc, message.as_str(), span, text.as_str())
}

/// Whether what was found begins a statement that is never within these brackets.
fn begins_outside(spot: &Spot<'_>, bracket: Bracket) -> bool {
    let Some(found) = spot.clash.found else {
        return false;
    };
    match found {
        Token::LetKeyword | Token::InterfaceKeyword | Token::WorldKeyword | Token::PackageKeyword =>
            { bracket.token == Token::OpenBrace }
        Token::ImportKeyword | Token::ExportKeyword => {
            bracket.earlier == Some(Token::InterfaceKeyword)
                || bracket.before == Some(Token::InterfaceKeyword)
        }
        _ => false,
    }
}

/// A bracket that isn't closed, where the text or a statement ends.
fn open_hint(alloc: Global, spot: &Spot<'_>) -> Found {
    let Some(bracket) = spot.open else {
        return Ok(None);
    };
    let opening = bracket.opening();
    let closing = bracket.closing();
    if spot.clash.found.is_none() || begins_outside(spot, bracket) {
        let message = format!(in alloc; "the `{opening}` is not closed")?;
        return say(alloc, message.as_str());
    }
    let is_list = spot.expects(Token::Comma) || spot.expects_only(Token::CloseAngle);
    if is_list && spot.has(Token::Semicolon) {
        let message = format!(in alloc; "the `{opening}` is not closed: `{closing}` is missing")?;
        return insert(alloc, message.as_str(), spot.end_before(), closing);
    }
    Ok(None)
}
