//! Part of `wac_ast`: interfaces, worlds and imports of WAC: trees and parsers.
#![tactic(auto)]

mod import;
mod interface;
mod world;

pub use import::{ImportStatement, ImportType};
pub use interface::{InlineInterface, InterfaceDecl, InterfaceExport, InterfaceItem};
pub use world::{
    ExternType, NamedWorldItem, WorldDecl, WorldExport, WorldImport, WorldItem, WorldItemPath,
};
