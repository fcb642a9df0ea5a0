//! Tests of trees and of the calls that their parsers share: what is in trees, as their JSON shows it; optional parts
//! and payloads, the lexer's place after them, what a lookahead counts, and paths of packages.

mod json_texts;
mod json_values;
mod json_written;
mod optional;
mod paths;
mod places;
