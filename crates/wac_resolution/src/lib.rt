//! Resolving: the composition graph that a document describes, or the rule that its first failing statement breaks.
//!
//! A document is resolved with the packages that it may mention and with rules, which say what fits where and which
//! names imports and exports may have:
//!
//! ```text
//! let resolution = resolve(alloc, &document, packages, &rules)?;
//! let graph = resolution.into_graph();
//! ```
//!
//! [`packages`] lists the foreign packages that a document mentions, each where it does first. `docs/RESOLVING.md` says
//! what documents mean. Only `Error::Memory` names no rule: it says that a request for
//! memory failed.
#![tactic(auto)]

mod context;
mod definitions;
mod documents;
mod import_kind;
mod imports;
mod keeping;
mod laws;
mod lent;
mod mention_laws;
mod mentions;
mod mentions_in_document;
mod mentions_in_expressions;
mod mentions_in_interfaces;
mod mentions_in_statements;
mod mentions_in_worlds;
mod resolution;
mod resolver;
mod statements;
mod steps;
mod target;

pub use documents::{resolve, resolve_graph};
pub use laws::formatting_changes_no_graph;
pub use mention_laws::{mentions_stand_in_order, only_first_mentions_matter};
pub use mentions_in_document::packages;
pub use resolution::{Resolution, ResolutionResult};
pub use resolver::AstResolver;
pub use wac_resolution_errors::{Error, InstanceOperation};
