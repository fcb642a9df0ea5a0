//! What a component is decoded to, as JSON.
//!
//! `{"imports": [..], "exports": [..]}`, or `{"definitions": [..]}` for a WIT package. An item has its `name`, and one of
//! `func`, `instance`, `type`, `component` and `module`. A type in use is called by its name in the same interface or
//! world, else by its name where it was first, else by its structure. Resources are numbered in the order of printing.
#![tactic(auto)]

mod printer;
mod words;

pub use printer::{JsonError, to_json};
