//! What resolving returns.
ghost use Rattle.std.specs.Prelude.{◌≡◌};

use std::marker::Model;
use wac_ast::Document;
use wac_graph::CompositionGraph;
use wac_resolution_errors::Error;

/// What resolving returns, or why a document can't be resolved.
pub type ResolutionResult<T> = Result<T, Error>;

/// A document, and the graph that it describes.
#[derive(Drop)]
pub struct Resolution<'d, 'a> {
    document: &'d Document<'a>,
    graph: CompositionGraph,
}

impl<'d, 'a> Model for Resolution<'d, 'a> {
    ghost use Rattle.std.specs.Coded.{codes};
    ghost use Rattle.wac_graph_types.specs.contracts.entry.Entry as entry;
    ghost use Rattle.wac_ast_types.specs.contracts.types.«Type» as ty;
    ghost use Rattle.wac_ast_statements.specs.contracts.expr.PrimaryExpr as primary;
    ghost use mir.Syntax.{erased};
    ghost use Rattle.std.specs.Prelude.{[]};
    ghost use Rattle.wac_resolution.specs.Resolved.{Resolved};

    ghost Value = { Resolved };

    ghost coded = { Prim.hlevel (codes, entry.the_row.coded, (ty.the_row (record { mir = erased; lft = [] })).coded, (primary.the_row (record { mir = erased; lft = [] })).coded) };

    ghost view = { λ r. record { document = r.document.now; graph = r.graph } };
}

impl<'d, 'a> Resolution<'d, 'a> {
    pub(crate) fn new(document: &'d Document<'a>, graph: CompositionGraph) -> Self
        ensures document { result.document ≡ document.now }
        ensures graph { result.graph ≡ graph }
    {
        Resolution { document, graph }
    }

    /// The document that was resolved.
    pub fn document(&self) -> &'d Document<'a>
        ensures { result.now ≡ self.now.document }
    {
        self.document
    }

    /// The graph that it describes.
    pub fn graph(&self) -> &CompositionGraph
        ensures { result.now ≡ self.now.graph }
    {
        &self.graph
    }

    /// The graph alone.
    pub fn into_graph(self) -> CompositionGraph
        ensures { result ≡ self.entry.graph }
    {
        self.graph
    }
}
