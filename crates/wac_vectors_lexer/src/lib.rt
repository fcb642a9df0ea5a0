//! Tests of `wac_lexer` and `wac_positions`: vectors of the language, names and messages, docs, scans, and devices of
//! bytes; places and offsets in each unit, and lines with each end.
#![tactic(auto)]

#[cfg(test)]
mod devices;
#[cfg(test)]
mod docs;
#[cfg(test)]
mod items;
#[cfg(test)]
mod places;
#[cfg(test)]
mod scans;
#[cfg(test)]
mod texts;
#[cfg(test)]
mod tokens;
