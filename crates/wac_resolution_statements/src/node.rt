//! Nodes that are exported.

use wac_graph::NodeId;
use wac_lexer::SourceSpan;

/// A node that is exported, and the place of the expression that denotes it.
#[derive(Clone, Copy, Debug)]
pub struct ExportedNode {
    /// The node.
    pub node: NodeId,
    /// The place of the expression.
    pub span: SourceSpan,
}
