//! Part of `wac_ast`: types of WAC and their declarations: trees and parsers.
#![tactic(auto)]

mod enum_decl;
mod flags_decl;
mod func_type;
mod head;
mod record_decl;
mod resource;
mod type_alias;
mod type_decl;
mod types;
mod variant_decl;

pub use enum_decl::{EnumCase, EnumDecl};
pub use flags_decl::{Flag, FlagsDecl};
pub use func_type::{FuncType, FuncTypeRef, NamedType, ResultList};
pub use record_decl::{Field, RecordDecl};
pub use resource::{Constructor, Method, ResourceDecl, ResourceMethod};
pub use type_alias::{TypeAlias, TypeAliasKind};
pub use type_decl::{ItemTypeDecl, TypeDecl};
pub use types::{Type, parse_optional_payload};
pub use variant_decl::{VariantCase, VariantDecl};
