//! Packages that documents of type statements declare.
//!
//! ```text
//! package example:cache@1.2.0;
//! interface metrics { hits: func() -> u64; }
//! world cache { import log: func(line: string); export metrics; export get: func(key: string) -> option<string>; }
//! ```
//!
//! [`declared_package`] makes the package that one document declares, and [`declared_packages`] those of many, in any
//! order; [`declare_all`] goes on after an error. `docs/PACKAGES.md` says what such documents are, and how to go from
//! WIT to them. [`package_of`] makes a package of the definitions of a graph, and [`copied_package`] one of another.
#![tactic(auto)]

mod causes;
mod copies;
mod cycles;
mod declaration;
mod definitions;
mod definitions_error;
mod ending;
mod error;
mod header;
mod making;
mod many;
mod outlines;
mod package;
mod rules;
mod sizes;
mod sources;
mod supplying;
mod worlds;

pub use copies::copied_package;
pub use declaration::declared_package;
pub use definitions_error::DefinitionsError;
pub use error::{DeclarationError, DeclarationFault};
pub use many::{Declared, declare_all, declared_packages};
pub use package::package_of;
pub use supplying::supplied_packages;
