//! Tests of `wac_parser`, `wac_examples` and `wac_comments`: what calls return, and where memory or a writer fails. What is
//! in trees, as their JSON shows it; and the calls that parsers share.
#![tactic(auto)]

#[cfg(test)]
mod comments;
#[cfg(test)]
mod documents;
#[cfg(test)]
mod examples;
#[cfg(test)]
mod expecting;
#[cfg(test)]
mod rows;
#[cfg(test)]
mod trees;
#[cfg(test)]
mod writers;
