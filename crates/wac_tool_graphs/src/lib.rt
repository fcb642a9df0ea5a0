//! Part of `wac_tool`: the lines of a graph, and the rules by which `wac resolve` tests.
//!
//! [`same`] says whether two kinds mean the same, without recursion. [`Types::same`](wac_graph_types::Types::same)
//! recurses as deep as types nest, and a text from a stranger may have a chain of thousands,
//! `type b = list<a>; type c = list<b>;`. Here pairs of entries that have to mean the same stand in a list, and each is
//! compared one level deep; a pair that follows from the others isn't added.
#![tactic(auto)]

mod comparing;
mod graphs;
mod laws;
mod lines;
mod pairs;
mod rules;

pub use comparing::same;
pub use graphs::write_graph;
pub use laws::same_meanings_pass;
pub use lines::OutputFailed;
pub use rules::SameRules;
