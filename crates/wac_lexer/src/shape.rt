// The shapes of the texts of tokens.

/// The shape of a text, before keywords and identifiers, or two symbols, are distinguished.
#[derive(Clone, Copy, Debug, PartialEq, Eq)]
pub enum Shape {
    Word,
    Name,
    Path,
    Quoted,
    Symbol,
}
