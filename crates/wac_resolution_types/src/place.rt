//! Where declarations are.

/// Where a declaration is.
#[derive(Clone, Copy, Debug, PartialEq, Eq)]
pub enum Place {
    /// At root.
    Root,
    /// In the body of an interface or a world.
    Body,
}
