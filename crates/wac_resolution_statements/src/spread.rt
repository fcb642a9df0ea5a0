//! Exports of an instance that are exported under their own names.
ghost use Rattle.std.specs.Prelude.{◌≡◌, ◌<◌, ℕ, OnOk, IfOk, length, map, string_bytes};
ghost use Rattle.wac_ast_grammar.specs.Tree.{Expr, ExportOptions as Options};
ghost use Rattle.wac_graph_types.specs.Names.{by_name};
ghost use Rattle.wac_graph_types.specs.Readings.{interface_exports};
ghost use Rattle.wac_graph_types.specs.Steps.{Steps, Fails};
ghost use Rattle.wac_graph.specs.Origin.{Numbering};
ghost use Rattle.wac_resolution_rules.specs.BrokenStatements.{ExportOneBroken, ExportOptionsBroken};
ghost use Rattle.wac_resolution_rules.specs.Errors.{ErrorSays};
ghost use Rattle.wac_resolution_rules.specs.Expressions.{at};
ghost use Rattle.wac_resolution_rules.specs.Spans.{expr_span};
ghost use Rattle.wac_resolution_rules.specs.Statements.{ExportsBy, ExportsOne};
ghost use Rattle.wac_resolution_state.specs.Root.{composed, Agrees};
ghost use Rattle.wac_resolution_statements.specs.Externs.{places_in, ArePlaced, Under};
ghost use Rattle.wac_resolution_statements.specs.Exports.{ExportSteps, Exported};
ghost use Rattle.wac_resolution_statements.specs.Spreads.{AreUnexported, EachExported, exported_item};

use crate::export::export_alias;
use crate::externs::Externs;
use crate::name::NewName;
use crate::node::ExportedNode;
use indexmap::IndexMap;
use std::alloc::{AllocError, Global};
use wac_graph::{CompositionGraph, InterfaceId, ItemKind, NodeId, Rules};
use wac_lexer::SourceSpan;
use wac_resolution_errors::{Error, InstanceOperation};
use wac_resolution_state::{Scope, State, instance};

/// The names that the graph doesn't export yet, copied.
fn unexported_names(
    alloc: Global,
    graph: &CompositionGraph,
    all: &IndexMap<String, ItemKind>,
) -> Result<Vec<String>, AllocError>
    ensures { IfOk result (λ names. AreUnexported graph.now.exports (by_name all.now.entries)
        (map string_bytes names.items)) }
{
    let mut names = Vec::with_capacity(alloc, all.len())?;
    for (name, _) in all.iter() {
        if graph.get_export(name.as_str()).is_none() {
            let copy = String::from_str(alloc, name.as_str())?;
            names.push(copy)?;
        }
    }
    Ok(names)
}

/// The names of the exports of an interface that the graph doesn't export yet.
fn unexported(state: &State, interface: InterfaceId) -> Result<Vec<String>, AllocError>
    ensures { IfOk result (λ names. AreUnexported state.now.graph.exports
        (interface_exports state.now.graph.types interface.0) (map string_bytes names.items)) }
{
    let types = state.graph.types();
    match types.exports(ItemKind::Instance(interface)) {
        Some(all) => unexported_names(state.alloc, &state.graph, all),
        None => Ok(Vec::new(state.alloc)),
    }
}

/// An instance whose exports are exported, and the place of the `...`.
#[derive(Clone, Copy)]
struct Spread {
    /// The instance.
    node: NodeId,
    /// The place of the `...`.
    dots: SourceSpan,
}

/// Exports exports of an instance, each under its name.
fn export_each<R: Rules>(
    state: &mut State,
    scope: &Scope<'_, '_, R>,
    externs: &mut Externs,
    spread: &Spread,
    names: &[String],
) -> Result<(), Error>
    requires agrees { Agrees state.old.graph scope.now.root.now }
    requires placed { ArePlaced state.old.graph externs.old }
    requires exported { EachExported state.old.graph spread.now.node.0 (map string_bytes names.now) }
    ensures ok { OnOk result (ExportSteps spread.now.dots state.old.graph state.new.graph scope.now.root.now externs.old
        externs.new (map string_bytes names.now)
        (λ numbering c d. Under (R.named scope.now.rules.now)
        (λ s. Steps (ExportsOne s spread.now.node.0) c
        (map (exported_item numbering state.old.graph spread.now.node.0) names.now) d))) }
    ensures err { ErrorSays result (λ e. (numbering : Numbering)
        → Under (R.named scope.now.rules.now)
        (λ s. Fails (ExportsOne s spread.now.node.0)
        (ExportOneBroken s (places_in scope.now.root.now externs.old) spread.now.dots e spread.now.node.0)
        (composed numbering state.old.graph scope.now.root.now)
        (map (exported_item numbering state.old.graph spread.now.node.0) names.now))) }
{
    for text in names {
        let name = NewName {
            text: text.as_str(),
            span: spread.dots,
            help: None,
        };
        export_alias(state, scope, externs, &name, spread.node)?;
    }
    Ok(())
}

/// Exports each export of an instance that isn't exported yet. The span is that of the `...`.
pub fn export_spread<R: Rules>(
    state: &mut State,
    scope: &Scope<'_, '_, R>,
    externs: &mut Externs,
    exported: &ExportedNode,
    dots: SourceSpan,
) -> Result<(), Error>
    requires agrees { Agrees state.old.graph scope.now.root.now }
    requires placed { ArePlaced state.old.graph externs.old }
    requires there { exported.now.node.0 < length state.old.graph.nodes }
    ensures ok { OnOk result (Exported dots state.old.graph state.new.graph scope.now.root.now externs.old externs.new
        (λ numbering c d. Under (R.named scope.now.rules.now)
        (λ s. ExportsBy s (at c exported.now.node.0) (Options.spread dots) d))) }
    ensures err { ErrorSays result (λ e. (numbering : Numbering) (x : Expr) → expr_span x ≡ exported.now.span
        → Under (R.named scope.now.rules.now)
        (λ s. ExportOptionsBroken s (at (composed numbering state.old.graph scope.now.root.now) exported.now.node.0)
        (places_in scope.now.root.now externs.old) e x (Options.spread dots))) }
{
    let interface = instance(
        state,
        exported.node,
        InstanceOperation::Spread,
        exported.span,
    )?;
    let names = unexported(state, interface)?;
    if names.is_empty() {
        return Err(Error::SpreadExportNoEffect {
            span: exported.span,
        });
    }
    let spread = Spread {
        node: exported.node,
        dots,
    };
    export_each(state, scope, externs, &spread, &names)?;
    Ok(())
}
