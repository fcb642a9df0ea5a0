//! How variants of trees are shown.

use std::fmt;

/// Writes a variant of one part, as `Variant(..)`. The `Debug` of an enum of trees is this for each of its variants.
pub fn write_variant<T: fmt::Debug, W: fmt::Write>(
    f: &mut fmt::Formatter<W>,
    name: &str,
    part: &T,
) -> fmt::Result {
    write!(f, "{name}({part:?})")
}
