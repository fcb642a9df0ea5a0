//! Whose body it is.

/// Whose body it is: errors name it.
#[derive(Clone, Copy, Debug, PartialEq, Eq)]
pub enum Owner<'o> {
    /// That of an interface, which may have a name.
    Interface(Option<&'o str>),
    /// That of a world.
    World(&'o str),
}
