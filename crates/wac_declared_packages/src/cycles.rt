//! Texts that mention one another in a cycle.

use crate::error::DeclarationError;
use crate::outlines::{Outlines, first_missing};
use indexmap::IndexMap;
use std::alloc::AllocError;
use wac_graph::{Package, PackageKey};
use wac_lexer::SourceSpan;

/// The text that declares the first package that a text mentions and that isn't made, with the place of the mention. It
/// is none where one of the two texts is faulty.
fn next_text(
    outlines: &Outlines,
    made: &IndexMap<PackageKey, Package>,
    text: usize,
) -> Option<(usize, SourceSpan)> {
    let header = outlines.header(text)?;
    let Some((key, place)) = first_missing(&header.mentioned, made) else {
        return None;
    };
    let other = *outlines.texts.get(key)?;
    if outlines.header(other).is_some() {
        Some((other, place))
    } else {
        None
    }
}

/// The text that is reached from a text by as many mentions as there are texts: one of a cycle, if it leads to one.
fn text_in_cycle(
    outlines: &Outlines,
    made: &IndexMap<PackageKey, Package>,
    start: usize,
) -> Option<usize> {
    let mut text = start;
    for _ in 0..outlines.headers.len() {
        let (other, _) = next_text(outlines, made, text)?;
        text = other;
    }
    Some(text)
}

/// The first text of the cycle of a text, with the mention that goes on in the cycle.
fn first_in_cycle(
    outlines: &Outlines,
    made: &IndexMap<PackageKey, Package>,
    inside: usize,
) -> Option<(usize, SourceSpan)> {
    let mut text = inside;
    let mut first = inside;
    for _ in 0..outlines.headers.len() {
        let (other, _) = next_text(outlines, made, text)?;
        text = other;
        first = first.min(text);
    }
    let (_, place) = next_text(outlines, made, first)?;
    Some((first, place))
}

/// Rejects the first text of each cycle.
pub(crate) fn reject_cycles(
    outlines: &mut Outlines,
    made: &IndexMap<PackageKey, Package>,
) -> Result<(), AllocError> {
    for start in 0..outlines.headers.len() {
        if let Some(inside) = text_in_cycle(outlines, made, start) {
            if let Some((text, place)) = first_in_cycle(outlines, made, inside) {
                outlines.reject_text(text, DeclarationError::Cycle(place))?;
            }
        }
    }
    Ok(())
}
