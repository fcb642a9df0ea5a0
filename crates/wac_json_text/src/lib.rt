//! The JSON form of documents, written part by part into a sink.
//!
//! `docs/JSON.md` lists the form of every node. Nothing is held in memory: a document of any size is written as it is
//! gone through.
#![tactic(auto)]

mod document;
mod enum_decl;
mod export;
mod expr;
mod expression;
mod flags_decl;
mod form;
mod func_type;
mod import;
mod include;
mod interface_decl;
mod let_statement;
mod name;
mod package;
mod parts;
mod record_decl;
mod resource_decl;
mod text;
mod type_alias;
mod type_statement;
mod use_decl;
mod value_type;
mod variant_decl;
mod world_decl;
mod written;

pub use written::write_json;
