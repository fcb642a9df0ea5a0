//! What `wac_component_rules` and `wac_composition` read of kinds. It is of no use to others, and may change.

pub use crate::fitting::{fits_after, fitting};
pub use crate::found::Found;
pub use crate::kinds::{number, same_form};
pub use crate::parts::{Part, PartSlot, part_at, part_count, same_constructor};
pub use crate::sides::{Side, items};
pub use crate::sources::{plain_kind, source_name};
