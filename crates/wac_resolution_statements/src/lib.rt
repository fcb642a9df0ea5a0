//! Part of `wac_resolution`: `let` and `export` statements, imports and definitions of what is resolved, under which
//! names they are imported and exported, and whether a composition is what its target requires.
#![tactic(auto)]

mod allowed;
mod definition;
mod export;
mod export_statements;
mod externs;
mod import_check;
mod import_names;
mod let_statements;
mod name;
mod name_check;
mod named_imports;
mod node;
mod open;
mod options;
mod spread;
mod statement;
mod target;
mod target_check;
mod target_exports;
mod target_imports;
mod target_world;
mod used;

pub use definition::define;
pub use export::{export_alias, export_as};
pub use export_statements::export_statement;
pub use externs::Externs;
pub use import_names::import_name;
pub use let_statements::let_statement;
pub use name::NewName;
pub use name_check::check_name;
pub use named_imports::{NewImport, import_as};
pub use node::ExportedNode;
pub use options::{export_renamed, export_unnamed};
pub use spread::export_spread;
pub use statement::export_node;
pub use target_check::check_target;
