//! Whether edits changed nothing but a name.
use crate::edits::{Edit, edited, moved};
use crate::reading::Reading;
use crate::refusals::{RenameError, Stopped};
use std::alloc::Global;
use wac_lexer::SourceSpan;
use wac_names::{Mention, Name, Names};

/// Whether a span is where another one is after edits.
fn is_moved(edits: &[Edit], before: SourceSpan, after: SourceSpan) -> bool {
    let expected = moved(edits, before);
    expected.offset() == after.offset() && expected.len() == after.len()
}

/// Whether the same names are bound after edits, at the places to which they moved.
fn are_bound(edits: &[Edit], before: &[Name], after: &[Name]) -> bool {
    for (name, other) in before.iter().zip(after.iter()) {
        let is_same = name.kind == other.kind && name.container == other.container;
        if !is_same || !is_moved(edits, name.span, other.span) {
            return false;
        }
    }
    before.len() == after.len()
}

/// The first mention that isn't the same after edits: what it was, and what there is.
fn first_other<'m>(
    edits: &[Edit],
    before: &'m [Mention],
    after: &'m [Mention],
) -> Option<(&'m Mention, &'m Mention)> {
    for (mention, other) in before.iter().zip(after.iter()) {
        let is_same = mention.binding == other.binding;
        if !is_same || !is_moved(edits, mention.span, other.span) {
            return Some((mention, other));
        }
    }
    None
}

/// What is wrong with the mentions after edits, if something is.
fn mention_fault(
    edits: &[Edit],
    before: &Names,
    after: &Names,
    number: usize,
) -> Option<RenameError> {
    let all = before.mentions.as_slice();
    match first_other(edits, all, after.mentions.as_slice()) {
        Some((mention, _)) if mention.binding == number => Some(RenameError::Captured),
        Some((_, other)) if other.binding == number => Some(RenameError::Captures),
        Some(_) => Some(RenameError::Unsure),
        None if all.len() < after.mentions.len() => Some(RenameError::Captures),
        None if after.mentions.len() < all.len() => Some(RenameError::Captured),
        None => None,
    }
}

/// What is wrong with a text after edits that give the name of a number another one, if something is: it has to bind and
/// use the same names, at the places to which they moved.
fn names_fault(
    edits: &[Edit],
    before: &Names,
    after: &Names,
    number: usize,
) -> Option<RenameError> {
    if !are_bound(edits, before.bindings.as_slice(), after.bindings.as_slice()) {
        return Some(RenameError::Unsure);
    }
    mention_fault(edits, before, after, number)
}

/// Tests edits that give the name of a number another one, by the names of the text after them.
pub(crate) fn test_edits(
    alloc: Global,
    reading: &Reading,
    edits: &[Edit],
    number: usize,
) -> Result<(), Stopped> {
    let Some(text) = edited(alloc, reading.text.as_str(), edits)? else {
        return Err(Stopped::Refused(RenameError::Unsure));
    };
    let Some(after) = Names::of_text(alloc, text.as_str())? else {
        return Err(Stopped::Refused(RenameError::Unsure));
    };
    match names_fault(edits, &reading.names, &after, number) {
        Some(error) => Err(Stopped::Refused(error)),
        None => Ok(()),
    }
}
