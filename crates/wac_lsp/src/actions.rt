//! What mends a part of a document.
use crate::applying::workspace_edit;
use crate::diagnostics::{diagnostic_value, errors};
use crate::places::{Part, View};
use crate::questions::Subject;
use serde_json::{Value, json};
use std::alloc::{AllocError, Global};
use wac_all_errors::Finding;
use wac_diagnostics::Diagnostic;
use wac_lexer::SourceSpan;
use wac_lsp_messages::Range;
use wac_lsp_texts::offset_at;
use wac_positions::Lines;

/// Whether a part has a place in common with a span.
fn touches(part: Part, span: SourceSpan) -> bool {
    let end = span.offset().saturating_add(span.len());
    span.offset() <= part.end && part.start <= end
}

/// What is wrong with a document, and an edit that mends it.
#[derive(Drop)]
pub struct Mend {
    /// What is wrong.
    pub diagnostic: Diagnostic,
    /// What the edit does, for people.
    pub title: String,
    /// The part of the text that is replaced, in bytes.
    pub span: SourceSpan,
    /// What comes in its place.
    pub text: String,
}

/// Whether what is wrong has a place in a part.
fn is_in(diagnostic: &Diagnostic, part: Part) -> bool {
    match diagnostic.span {
        Some(span) => touches(part, span),
        None => false,
    }
}

/// An edit that mends a text, and what is said of it.
#[derive(Clone, Copy)]
struct Cure<'f> {
    title: &'f str,
    span: SourceSpan,
    text: &'f str,
}

/// The edit that takes a byte order mark away, if that is what was found.
fn mark_cure(finding: &Finding) -> Option<Cure<'_>> {
    if finding.diagnostic.code != "wac::byte-order-mark" {
        return None;
    }
    let span = finding.diagnostic.span?;
    Some(Cure {
        title: "remove the byte order mark",
        span,
        text: "",
    })
}

/// The edit that mends what was found, if there is one.
fn cure_of(finding: &Finding) -> Option<Cure<'_>> {
    let Some(change) = &finding.edit else {
        return mark_cure(finding);
    };
    let Some(title) = &finding.diagnostic.help else {
        return None;
    };
    Some(Cure {
        title: title.as_str(),
        span: change.span,
        text: change.text.as_str(),
    })
}

/// An edit of a document.
fn edit_value(
    alloc: Global,
    view: &View<'_>,
    about: &Subject<'_>,
    cure: &Cure<'_>,
) -> Result<Value, AllocError> {
    let range = view.span(alloc, cure.span)?;
    let text = cure.text;
    let edits = json!(in alloc; [{"range": range, "newText": text}])?;
    workspace_edit(alloc, about, edits)
}

/// An edit that mends what a diagnostic says, as an action.
fn action_value(
    alloc: Global,
    view: &View<'_>,
    about: &Subject<'_>,
    diagnostic: &Diagnostic,
    cure: &Cure<'_>,
) -> Result<Value, AllocError> {
    let edit = edit_value(alloc, view, about, cure)?;
    let diagnostic = diagnostic_value(alloc, view, about, diagnostic)?;
    let title = cure.title;
    let action = json!(in alloc; {
        "title": title,
        "kind": "quickfix",
        "diagnostics": [diagnostic],
        "edit": edit
    })?;
    Ok(action)
}

/// The action for what was found, if an edit mends it.
fn finding_action(
    alloc: Global,
    view: &View<'_>,
    about: &Subject<'_>,
    finding: &Finding,
) -> Result<Option<Value>, AllocError> {
    let Some(cure) = cure_of(finding) else {
        return Ok(None);
    };
    let action = action_value(alloc, view, about, &finding.diagnostic, &cure)?;
    Ok(Some(action))
}

/// The actions for what was found in a part of a text.
fn finding_actions(
    alloc: Global,
    view: &View<'_>,
    about: &Subject<'_>,
    part: Part,
    found: &[Finding],
) -> Result<Value, AllocError> {
    let mut actions = Vec::new(alloc);
    for finding in found {
        if is_in(&finding.diagnostic, part) {
            if let Some(action) = finding_action(alloc, view, about, finding)? {
                actions.push(action)?;
            }
        }
    }
    Ok(Value::Array(actions))
}

/// The action for what a caller found.
fn mend_action(
    alloc: Global,
    view: &View<'_>,
    about: &Subject<'_>,
    mend: &Mend,
) -> Result<Value, AllocError> {
    let cure = Cure {
        title: mend.title.as_str(),
        span: mend.span,
        text: mend.text.as_str(),
    };
    action_value(alloc, view, about, &mend.diagnostic, &cure)
}

/// The actions for what a caller found in a part of a text.
fn mend_actions(
    alloc: Global,
    view: &View<'_>,
    about: &Subject<'_>,
    part: Part,
    mends: &[Mend],
) -> Result<Value, AllocError> {
    let mut actions = Vec::new(alloc);
    for mend in mends {
        if is_in(&mend.diagnostic, part) {
            actions.push(mend_action(alloc, view, about, mend)?)?;
        }
    }
    Ok(Value::Array(actions))
}

/// The part of a text that is a range of it.
fn part_of(alloc: Global, about: &Subject<'_>, range: Range) -> Result<Part, AllocError> {
    let lines = Lines::new(alloc, about.text)?;
    let len = about.text.len();
    Ok(Part {
        start: offset_at(&lines, len, range.start, about.unit).unwrap_or(0),
        end: offset_at(&lines, len, range.end, about.unit).unwrap_or(0),
    })
}

/// The edits that mend what is wrong in a range of a text: what its errors say, or where it has none what a caller found.
/// There are none for a client that takes commands alone.
pub(crate) fn actions(
    alloc: Global,
    about: &Subject<'_>,
    range: Range,
    mends: &[Mend],
) -> Result<Value, AllocError> {
    if !about.features.action_literals {
        return Ok(Value::Array(Vec::new(alloc)));
    }
    let found = match errors(alloc, about.text) {
        Ok(found) => found,
        Err(_) => return Err(AllocError),
    };
    let part = part_of(alloc, about, range)?;
    let view = View::new(alloc, about.text, about.unit)?;
    if found.is_empty() {
        mend_actions(alloc, &view, about, part, mends)
    } else {
        finding_actions(alloc, &view, about, part, found.as_slice())
    }
}
