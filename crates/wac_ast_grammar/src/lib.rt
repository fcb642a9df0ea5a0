//! The grammar of WAC as data, and its laws.
#![tactic(auto)]

mod laws;

pub use laws::{
    arguments_are_refused_at_first_faults, refusals_lie_at_first_faults, tokens_have_texts,
    trees_are_as_their_leaves, trees_end_where_they_must, trees_stand_in_their_text,
    what_is_read_derives,
};
