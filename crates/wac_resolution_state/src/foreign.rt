//! Paths of other packages.
ghost use Rattle.std.specs.Prelude.{◌≡◌, ◌∷◌, ◌++◌, [], suc, OnOk, Some, None, false, IfOk, MatchOption, take, string_bytes};
ghost use Rattle.std.specs.List.{join_with_byte};
ghost use Rattle.wac_lexer.specs.Ascii.{slash};
ghost use Rattle.wac_graph_types.specs.Names.{by_name};
ghost use Rattle.wac_graph_types.specs.Scope.{look_up};
ghost use Rattle.wac_graph_types.specs.Shape.{described};
ghost use Rattle.wac_graph_types.specs.Table.{ItemsNamed};
ghost use Rattle.wac_ast_base.specs.Names.{package_path_of};
ghost use Rattle.wac_ast_grammar.specs.Segments.{package_name_span};
ghost use Rattle.wac_graph.specs.Graph.{Parts};
ghost use Rattle.wac_graph.specs.Means.{means};
ghost use Rattle.wac_graph.specs.Origin.{Numbering};
ghost use Rattle.wac_resolution_errors.specs.Error.{package_missing_export, unknown_package};
ghost use Rattle.wac_resolution_errors.specs.ErrorModel.{error_model};
ghost use Rattle.wac_resolution_rules.specs.BrokenBodies.{ForeignPathBroken, path_broken};
ghost use Rattle.wac_resolution_rules.specs.Errors.{ErrorSays};
ghost use Rattle.wac_resolution_rules.specs.Paths.{key_of_path, segments_of};
ghost use Rattle.wac_resolution_state.specs.Named.{scope_of};
ghost use Rattle.wac_resolution_state.specs.Expands.{AllSupplied, Found, Loads, IsNotSupplied};
ghost use Rattle.wac_resolution_state.specs.Segments.{texts, SegmentsLead, LeadsAs};
ghost use Rattle.wac_resolution_state.specs.Context.{packages_in, context_of};

use crate::State;
use crate::context::Context;
use crate::key::package_key;
use crate::members::{Missing, members};
use crate::packages::package;
use indexmap::IndexMap;
use std::alloc::{AllocError, Global};
use wac_ast_base::{PackagePath, SegmentSpans};
use wac_graph::names::find;
use wac_graph::{ItemKind, PackageId};
use wac_lexer::SourceSpan;
use wac_resolution_errors::Error;

/// Appends a segment after a `/`.
fn push_segment(text: &mut String, segment: &str) -> Result<(), AllocError>
    ensures { OnOk result (string_bytes text.new ≡ string_bytes text.old ++ slash ∷ segment.now) }
{
    text.push('/')?;
    text.push_str(segment)?;
    Ok(())
}

/// A segment and so many of those after it, joined by `/`.
fn joined(
    alloc: Global,
    first: &str,
    rest: SegmentSpans<'_>,
    count: usize,
) -> Result<String, AllocError>
    ensures { IfOk result (λ s. string_bytes s ≡ join_with_byte slash (first.now ∷ take count (texts rest.entry))) }
{
    let mut rest = rest;
    let mut text = String::from_str(alloc, first)?;
    for _ in 0..count {
        match rest.next() {
            Some((segment, _)) => push_segment(&mut text, segment)?,
            None => return Ok(text),
        }
    }
    Ok(text)
}

/// The segments before one, joined: the first one and so many after it.
fn segments_before(
    alloc: Global,
    path: &PackagePath<'_>,
    count: usize,
) -> Result<String, AllocError>
    ensures { IfOk result (λ s. string_bytes s
        ≡ join_with_byte slash (take (suc count) (segments_of (package_path_of path.now)))) }
{
    let mut rest = path.segment_spans();
    let Some((first, _)) = rest.next() else {
        unreachable!()
    };
    joined(alloc, first, rest, count)
}

/// What is reported of a package that was not supplied.
fn unknown(alloc: Global, path: &PackagePath<'_>) -> Result<Error, AllocError>
    ensures { IfOk result (λ e. error_model e
        ≡ unknown_package path.now.name.now (package_name_span (package_path_of path.now))) }
{
    Ok(Error::UnknownPackage {
        name: String::from_str(alloc, path.name)?,
        span: path.package_name_span(),
    })
}

/// What is reported of a first segment that the package does not define.
fn not_defined(
    alloc: Global,
    path: &PackagePath<'_>,
    first: &str,
    span: SourceSpan,
) -> Result<Error, AllocError>
    ensures { IfOk result (λ e. error_model e ≡ package_missing_export None [] path.now.name.now first.now span) }
{
    Ok(Error::PackageMissingExport {
        package: String::from_str(alloc, path.name)?,
        export: String::from_str(alloc, first)?,
        kind: None,
        path: String::new(alloc),
        span,
    })
}

/// What is reported of a later segment that is not exported; `before` are the segments before it, joined.
fn not_exported(
    alloc: Global,
    path: &PackagePath<'_>,
    before: String,
    missing: Missing<'_>,
) -> Result<Error, AllocError>
    ensures { IfOk result (λ e. (numbering : Numbering) (g : Parts)
        → error_model e ≡ package_missing_export (Some (described (means numbering g missing.entry.kind)))
        (string_bytes before) path.now.name.now missing.entry.segment.now missing.entry.span) }
{
    Ok(Error::PackageMissingExport {
        package: String::from_str(alloc, path.name)?,
        export: String::from_str(alloc, missing.segment)?,
        kind: Some(missing.kind.desc()),
        path: before,
        span: missing.span,
    })
}

/// What the first segment denotes among what a package defines.
fn defined(
    alloc: Global,
    definitions: &IndexMap<String, ItemKind>,
    path: &PackagePath<'_>,
    first: &str,
    span: SourceSpan,
) -> Result<ItemKind, Error>
    ensures ok { IfOk result (λ k. look_up first.now (by_name definitions.now.entries) ≡ Some k) }
    ensures err { ErrorSays result (λ e. (look_up first.now (by_name definitions.now.entries) ≡ None)
        × (e ≡ package_missing_export None [] path.now.name.now first.now span)) }
{
    match find(definitions, first) {
        Some(kind) => Ok(kind),
        None => Err(not_defined(alloc, path, first, span)?),
    }
}

/// What a path resolves to among what its package defines.
fn defined_path(
    state: &State,
    definitions: &IndexMap<String, ItemKind>,
    path: &PackagePath<'_>,
) -> Result<ItemKind, Error>
    requires { ItemsNamed state.now.graph.types (by_name definitions.now.entries) }
    ensures ok { IfOk result (λ k. SegmentsLead state.now.graph (by_name definitions.now.entries)
        (package_path_of path.now) k) }
    ensures err { ErrorSays result (λ e. (numbering : Numbering)
        → ForeignPathBroken (scope_of numbering state.now.graph (by_name definitions.now.entries))
        (package_path_of path.now) (segments_of (package_path_of path.now)) e) }
{
    let mut rest = path.segment_spans();
    let Some((first, span)) = rest.next() else {
        unreachable!()
    };
    let kind = defined(state.alloc, definitions, path, first, span)?;
    match members(&state.graph, first, kind, rest) {
        Ok(kind) => Ok(kind),
        Err(missing) => {
            let before = segments_before(state.alloc, path, missing.before)?;
            Err(not_exported(state.alloc, path, before, missing)?)
        }
    }
}

/// The package of a path.
fn load(
    state: &mut State,
    context: &Context<'_>,
    path: &PackagePath<'_>,
) -> Result<Option<PackageId>, AllocError>
    requires { AllSupplied (packages_in context.now) state.old.graph }
    ensures { IfOk result (λ o. MatchOption o
        (IsNotSupplied (packages_in context.now) (key_of_path (package_path_of path.now)))
        (λ id. Loads (packages_in context.now) state.old.graph state.new.graph
        (key_of_path (package_path_of path.now)) id.0)) }
{
    let key = package_key(state.alloc, path.name, path.string)?;
    package(state, context, &key)
}

/// What a path resolves to in a supplied package.
pub fn foreign_path(
    state: &mut State,
    context: &Context<'_>,
    path: &PackagePath<'_>,
) -> Result<ItemKind, Error>
    requires { AllSupplied (packages_in context.now) state.old.graph }
    ensures ok { IfOk result (λ k. Found (packages_in context.now) state.old.graph state.new.graph
        (λ numbering m. LeadsAs false (context_of numbering context.now) [] (package_path_of path.now) m) k) }
    ensures err { ErrorSays result (λ e. (numbering : Numbering)
        → path_broken false (context_of numbering context.now) [] (package_path_of path.now) e) }
{
    let loaded = load(state, context, path)?;
    match loaded {
        Some(id) => {
            let held = state.graph.package(id);
            defined_path(state, held.definitions, path)
        }
        None => Err(unknown(state.alloc, path)?),
    }
}
