//! What of a composition without an error may not be meant.

use crate::cases::{push_export_cases, push_import_cases};
use crate::conflicts::push_conflicts;
use indexmap::IndexMap;
use std::alloc::{AllocError, Global};
use wac_diagnostics::{Diagnostic, Severity};
use wac_graph::CompositionGraph;
use wac_graph_outputs::{Picture, open_imports};
use wac_lexer::SourceSpan;

/// What of a graph without an error may not be meant: open imports of one name that no one import can stand for, and
/// names that differ in case alone. Its document binds names in these places. The error is that memory ran out.
pub fn warnings(
    alloc: Global,
    graph: &CompositionGraph,
    places: &IndexMap<String, SourceSpan>,
) -> Result<Vec<Diagnostic>, AllocError> {
    let mut found = Vec::new(alloc);
    push_conflicts(alloc, &mut found, graph, places)?;
    push_cases(alloc, &mut found, graph, places)?;
    Ok(found)
}

/// A warning.
pub(crate) fn warning(
    code: &'static str,
    message: String,
    place: Option<SourceSpan>,
) -> Diagnostic {
    let notes = Vec::new(*message.allocator());
    Diagnostic {
        severity: Severity::Warning,
        code,
        message,
        span: place,
        help: None,
        notes,
    }
}

/// Appends a warning for each import and each export whose name differs in case alone from an earlier one.
fn push_cases(
    alloc: Global,
    found: &mut Vec<Diagnostic>,
    graph: &CompositionGraph,
    places: &IndexMap<String, SourceSpan>,
) -> Result<(), AllocError> {
    let picture = Picture::of(alloc, graph, places)?;
    push_cases_of(alloc, found, &picture)
}

/// The same of what is shown of a graph.
fn push_cases_of(
    alloc: Global,
    found: &mut Vec<Diagnostic>,
    picture: &Picture,
) -> Result<(), AllocError> {
    let imports = open_imports(alloc, picture)?;
    push_import_cases(alloc, found, &imports)?;
    push_export_cases(alloc, found, picture.exports.as_slice())
}
