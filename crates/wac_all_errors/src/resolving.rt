//! The first rule that a text breaks, of which faulty statements are blanked.
ghost use Rattle.std.specs.Prelude.{IfOk, IfSome};
ghost use Rattle.wac_all_errors.specs.Naming.{IsUndeclared};
ghost use Rattle.wac_all_errors.specs.Telling.{SaysSame};

use crate::blanking::{UNDEFINED, is_caused, names_blanked, slice};
use crate::finding::{Finding, with_hint};
use std::alloc::{AllocError, Global};
use wac_diagnostics::{Diagnostic, Note};
use wac_first_error::{Verdict, first_error};
use wac_hints::{Hint, undefined_name_hint};
use wac_lexer::SourceSpan;
use wac_recovery::Attempt;

/// The first rule that is broken by what is left of a source, which is a document: nothing that the blanked statements
/// may be the cause of.
pub(crate) fn broken_rule(
    alloc: Global,
    source: &str,
    left: &Attempt,
) -> Result<Option<Finding>, AllocError> {
    match first_error(alloc, left.text().as_bytes(), true) {
        Ok(Verdict::Document(_)) => Ok(None),
        Ok(Verdict::Unresolved(_)) => Ok(None),
        Ok(Verdict::Rejected(diagnostic)) => match moved_back(diagnostic, left.skip()) {
            Some(diagnostic) => rule_of(alloc, source, left.source(), diagnostic),
            None => Ok(None),
        },
        Err(_) => Err(AllocError),
    }
}

/// A rule that is broken by what is left of a source, if the blanked statements can't be the cause.
fn rule_of(
    alloc: Global,
    source: &str,
    left: &str,
    diagnostic: Diagnostic,
) -> Result<Option<Finding>, AllocError>
    ensures { IfOk result (λ found. IfSome found (λ finding. IsUndeclared source.now left.now finding.diagnostic)) }
{
    if is_caused(diagnostic.code) {
        return Ok(None);
    }
    if names_blanked(source, left, &diagnostic) {
        return Ok(None);
    }
    match with_name_hint(alloc, left, diagnostic) {
        Ok(finding) => Ok(Some(finding)),
        Err(_) => Err(AllocError),
    }
}

/// A span so many bytes before.
fn back(span: SourceSpan, by: usize) -> SourceSpan {
    SourceSpan::new(span.offset().saturating_sub(by), span.len())
}

/// A diagnostic so many bytes before: nothing where its place is in these bytes.
fn moved_back(diagnostic: Diagnostic, by: usize) -> Option<Diagnostic> {
    let mut diagnostic = diagnostic;
    if let Some(span) = diagnostic.span {
        if span.offset() < by {
            return None;
        }
        diagnostic.span = Some(back(span, by));
    }
    move_notes(diagnostic.notes.as_mut_slice(), by);
    Some(diagnostic)
}

/// Moves notes so many bytes back.
fn move_notes(notes: &mut [Note], by: usize) {
    for note in notes.iter_mut() {
        note.span = back(note.span, by);
    }
}

/// A diagnostic with what was probably meant by its name, where that denotes nothing.
pub(crate) fn with_name_hint(
    alloc: Global,
    text: &str,
    diagnostic: Diagnostic,
) -> Result<Finding, AllocError>
    ensures { IfOk result (λ finding. SaysSame diagnostic finding.diagnostic) }
{
    match name_hint_of(alloc, text, &diagnostic) {
        Ok(hint) => Ok(with_hint(diagnostic, hint)),
        Err(_) => Err(AllocError),
    }
}

/// What was probably meant by the name that denotes nothing, if a diagnostic speaks of one.
fn name_hint_of(
    alloc: Global,
    text: &str,
    diagnostic: &Diagnostic,
) -> Result<Option<Hint>, AllocError> {
    if diagnostic.code != UNDEFINED {
        return Ok(None);
    }
    let Some(span) = diagnostic.span else {
        return Ok(None);
    };
    match slice(text, span) {
        Some(name) => undefined_name_hint(alloc, text, name, span),
        None => Ok(None),
    }
}
