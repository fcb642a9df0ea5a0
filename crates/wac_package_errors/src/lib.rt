//! The first error of a document that is resolved with packages that documents declare, with its help; warnings of one
//! without an error; and what is said of documents that declare none, with helps for those who copy WIT.
//!
//! ```text
//! let declared = declare_all(alloc, &texts, &worlds)?;
//! let known = KnownPackages { declared: &declared, names: &paths, searched: Searched::Folders };
//! match first_error_with(alloc, text, known)? {
//!     Composed::Resolved(graph) => ..,
//!     Composed::Unresolved => ..,                     // it mentions a package that has an error
//!     Composed::Rejected(diagnostic) => print(human(alloc, "app.wac", text.as_bytes(), &diagnostic, false)?),
//! }
//! ```
#![tactic(auto)]

mod accesses;
mod arguments;
mod bare;
mod context;
mod declaring;
mod earlier;
mod first;
mod helps;
mod items;
mod known;
mod mismatches;
mod order;
mod places;
mod resolving;
mod rules;
mod sources;
mod spreads;
mod targets;
mod texts;
mod unknown;
mod wit;

pub use declaring::declaration_diagnostic;
pub use first::{Composed, first_error_with};
pub use known::KnownPackages;
pub use places::warnings_of;
pub use unknown::Searched;
pub use wit::syntax_diagnostic;
// What a caller supplies, or asks first.
pub use wac_composition::flat_text;
pub use wac_declared_packages::{DeclarationFault, Declared, declare_all};
pub use wac_resolution::packages;
