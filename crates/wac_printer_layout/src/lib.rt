//! What is printed reads back: laws of the pieces that a printed text consists of.
#![tactic(auto)]

mod laws;

pub use laws::{
    bare_trees_and_lines_give_texts, bare_trees_give_plain_trees, docs_are_cut_into_lines,
    documents_are_read_back, documents_join, items_are_accepted, pieces_are_put_together,
    pieces_are_read_back, printed_texts_are_utf8, printed_texts_read_back, printed_texts_stay,
    printing_is_fixed, trees_are_read_back,
};
