//! Part of `wac_ast`: expressions, the package directive, bindings and exports: trees and parsers.
#![tactic(auto)]

mod directive;
mod export;
mod expr;
mod let_statement;

pub use directive::PackageDirective;
pub use export::{ExportOptions, ExportStatement};
pub use expr::{
    AccessExpr, Expr, InstantiationArgument, InstantiationArgumentName, NamedAccessExpr,
    NamedInstantiationArgument, NestedExpr, NewExpr, PostfixExpr, PrimaryExpr,
};
pub use let_statement::LetStatement;
