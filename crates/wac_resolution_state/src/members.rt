//! Later segments of paths.
ghost use Rattle.std.specs.Prelude.{◌<◌, ◌^◌, IfOk, IfErr, length};
ghost use Rattle.wac_graph_types.specs.Table.{Names as NamesEntry};
ghost use Rattle.wac_resolution_state.specs.Segments.{texts, MembersLead, Misses};

use wac_ast_base::SegmentSpans;
use wac_graph::{CompositionGraph, ItemKind};
use wac_lexer::SourceSpan;

/// A segment that is not exported by what the one before it denotes.
#[derive(Clone, Copy)]
pub struct Missing<'a> {
    /// How many segments there are between it and the first one.
    pub before: usize,
    /// The segment before it.
    pub last: &'a str,
    /// What that one denotes.
    pub kind: ItemKind,
    /// The segment.
    pub segment: &'a str,
    /// Its span.
    pub span: SourceSpan,
}

/// What segments resolve to, after a first one that denotes a kind.
pub fn members<'a>(
    graph: &CompositionGraph,
    first: &'a str,
    from: ItemKind,
    rest: SegmentSpans<'a>,
) -> Result<ItemKind, Missing<'a>>
    requires named { NamesEntry graph.now.types from }
    requires fits { length rest < 2 ^ 64 }
    ensures ok { IfOk result (λ k. MembersLead graph.now from (texts rest.entry) k) }
    ensures err { IfErr result (λ m. Misses graph.now first.now from rest.entry m) }
{
    let mut before = 0;
    let mut last = first;
    let mut kind = from;
    for (segment, span) in rest {
        match graph.export(kind, segment) {
            Some(export) => kind = export,
            None => {
                return Err(Missing {
                    before,
                    last,
                    kind,
                    segment,
                    span,
                });
            }
        }
        last = segment;
        before += 1;
    }
    Ok(kind)
}
