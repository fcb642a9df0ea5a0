//! The hint for an error of parsing.
ghost use Rattle.std.specs.Prelude.{◌↔◌, IfOk, IfSome, IsTrue};
ghost use Rattle.wac_lexer.specs.Reading.{Slices};
ghost use Rattle.wac_hints.specs.Within.{EditsWithin};

use crate::brackets::bracket_hint;
use crate::characters::character_hint;
use crate::hints::{Edit, Found, Hint};
use crate::meant::meant_hint;
use crate::names::name_hint;
use crate::separators::separator_hint;
use crate::spot::{Clash, KEPT, Spot};
use crate::symbols::symbol_hint;
use crate::versions::{version_hint, version_mark_hint};
use std::alloc::{AllocError, Global};
use wac_ast_base::Error;
use wac_lexer::{SourceSpan, Token};

/// What was probably meant where a text has this error first, if there is a guess.
///
/// The error has to be that of this very text. A hint says other things than the error's message and the help of its
/// diagnostic. The edit's span lies in the text. It takes the time of reading the text's tokens up to the error once.
/// The error is that memory ran out.
pub fn parse_hint(alloc: Global, source: &str, error: &Error) -> Result<Option<Hint>, AllocError>
    ensures { IfOk result (λ found. IfSome found (λ hint. EditsWithin source.now hint)) }
{
    match hint_for(alloc, source, error) {
        Ok(Some(hint)) => Ok(Some(within(source, hint))),
        Ok(None) => Ok(None),
        Err(_) => Err(AllocError),
    }
}

/// A hint, but for an edit that doesn't lie in the text.
pub(crate) fn within(source: &str, hint: Hint) -> Hint
    ensures { EditsWithin source.now result }
{
    let Hint { message, edit } = hint;
    match edit {
        Some(Edit { span, text }) => {
            if lies_in(source, span) {
                Hint {
                    message,
                    edit: Some(Edit { span, text }),
                }
            } else {
                Hint {
                    message,
                    edit: None,
                }
            }
        }
        None => Hint {
            message,
            edit: None,
        },
    }
}

/// Whether a span lies in a text and cuts no character.
fn lies_in(source: &str, span: SourceSpan) -> bool
    ensures { IsTrue result ↔ Slices source.now span }
{
    match span.offset().checked_add(span.len()) {
        Some(end) => source.is_char_boundary(span.offset()) && source.is_char_boundary(end),
        None => false,
    }
}

/// The hint of the first rule that fits an error.
fn hint_for(alloc: Global, source: &str, error: &Error) -> Found {
    match error {
        Error::Lexer { error, span } => character_hint(alloc, source, *error, *span),
        Error::InvalidVersion { version, span } => version_hint(alloc, version.as_str(), *span),
        Error::EmptyType { .. } | Error::Memory(_) => Ok(None),
        _ => match clash_of(error) {
            Some(clash) => clash_hint(alloc, source, clash),
            None => Ok(None),
        },
    }
}

/// That one of so many tokens was expected at a place, and something else was found there.
fn clash_at(
    expected: [Option<Token>; KEPT],
    count: usize,
    found: Option<Token>,
    span: SourceSpan,
) -> Clash {
    Clash {
        expected,
        count,
        found,
        start: span.offset(),
        end: span.offset().saturating_add(span.len()),
    }
}

/// What an error expected and found.
fn clash_of(error: &Error) -> Option<Clash> {
    let mut kept = [None; KEPT];
    match error {
        Error::Expected {
            expected,
            found,
            span,
        } => {
            kept[0] = Some(*expected);
            Some(clash_at(kept, 1, *found, *span))
        }
        Error::ExpectedEither {
            first,
            second,
            found,
            span,
        } => {
            kept[0] = Some(*first);
            kept[1] = Some(*second);
            Some(clash_at(kept, 2, *found, *span))
        }
        Error::ExpectedMultiple {
            expected,
            count,
            found,
            span,
        } => Some(clash_at(*expected, *count, *found, *span)),
        _ => None,
    }
}

/// The hint of the first rule that fits a token that was not expected.
fn clash_hint(alloc: Global, source: &str, clash: Clash) -> Found {
    let Some(spot) = Spot::find(alloc, source, clash)? else {
        return Ok(None);
    };
    if let Some(hint) = name_hint(alloc, &spot)? {
        return Ok(Some(hint));
    }
    if let Some(hint) = version_mark_hint(alloc, &spot)? {
        return Ok(Some(hint));
    }
    if let Some(hint) = symbol_hint(alloc, &spot)? {
        return Ok(Some(hint));
    }
    if let Some(hint) = meant_hint(alloc, &spot)? {
        return Ok(Some(hint));
    }
    if let Some(hint) = separator_hint(alloc, &spot)? {
        return Ok(Some(hint));
    }
    bracket_hint(alloc, &spot)
}
