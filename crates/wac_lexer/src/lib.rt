//! The lexer of the WebAssembly Composition language.
#![tactic(auto)]

mod automaton;
mod characters;
mod comments;
mod device;
mod docs;
mod error;
mod follow;
mod laws;
mod lexer;
mod shape;
mod span;
mod symbols;
mod token;
mod words;

pub use comments::part_len;
pub use device::{Blocks, Bytes, Feed, In, Out, Sink, put_all};
pub use error::Error;
pub use follow::{blanks_follow_tokens, identifiers_follow_dots, tokens_are_read_back};
pub use laws::{
    comments_are_pieces, docs_stand_in_the_gap, equality_reads_all, first_items_are_found,
    fronts_are_longest, gap_is_longest, items_stand_in_order, patterns_are_decided,
    refused_characters_are_first, tokens_are_decided,
};
pub use lexer::{Lexer, LexerResult};
pub use span::SourceSpan;
pub use token::Token;
