//! The component model's rules: which kind may stand where another is expected, and which names externs may have; and
//! where two kinds differ first, of which these rules say that one may not stand where the other is expected.
#![tactic(auto)]

mod ahead;
mod differences;
mod finding_mismatch;
mod fitting;
mod found;
mod groups;
pub mod internals;
mod kinds;
mod known;
mod laws;
mod mismatch_words;
mod parts;
mod places;
mod rules;
mod sides;
mod sources;

pub use finding_mismatch::mismatch;
pub use laws::{each_kind_fits_itself, fitting_leads_on, same_kinds_fit};
pub use mismatch_words::{Mismatch, Place, Step, Words};
pub use rules::{ComponentRules, DOES_NOT_FIT, NO_NAME};
