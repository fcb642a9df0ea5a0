//! What is wrong with a text, and the forms in which it is reported: for people, as JSON, and as commands of a GitHub
//! workflow.
#![tactic(auto)]

mod commands;
mod diagnostic;
mod lexer_codes;
mod objects;
mod pages;
mod places;
mod readable;

pub use commands::github;
pub use diagnostic::{Diagnostic, Note, Severity};
pub use lexer_codes::lexer_code;
pub use objects::json;
pub use pages::human;
