//! The trees of the language as JSON values.
//!
//! `docs/JSON.md` lists the form of every node.
#![tactic(auto)]

mod build;
mod containers;
mod document;
mod enum_decl;
mod export;
mod expr;
mod flags_decl;
mod func_type;
mod import;
mod include;
mod interface_decl;
mod let_statement;
mod name;
mod package;
mod record_decl;
mod resource_decl;
mod to_value;
mod type_alias;
mod type_statement;
mod use_decl;
mod value_type;
mod variant_decl;
mod world_decl;

pub use to_value::ToValue;
