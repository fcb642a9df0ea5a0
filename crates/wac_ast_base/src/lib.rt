//! Part of `wac_ast`: what every parser of WAC uses: errors, lookahead, taking tokens, lists, names.
#![tactic(auto)]

mod debug;
mod delimited;
mod error;
mod laws;
mod lookahead;
mod message;
mod names;
mod package;
mod parse;
mod pieces;
mod segments;
mod version;

pub use debug::write_variant;
pub use delimited::{begins, no_item, parse_body, parse_list, take_comma};
pub use error::{Error, ParseResult};
pub use laws::{parsers_stop_at_first_faults, segments_stand_at_their_spans};
pub use lookahead::Lookahead;
pub use names::{DocComment, ExternName, Ident, String};
pub use package::{PackageName, PackagePath};
pub use parse::{
    Parse, Peek, at, at_second, boxed, has_more, join, parse_docs, parse_optional, parse_token,
    push, refuse_empty, take_optional, take_token,
};
pub use pieces::{BodyKind, parse_after, parse_before, parse_filled, take_word};
pub use segments::SegmentSpans;
