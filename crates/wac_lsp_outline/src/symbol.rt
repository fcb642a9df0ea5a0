//! What a text declares.
use wac_lexer::SourceSpan;

/// The kind of what a text declares.
#[derive(Clone, Copy, Debug, PartialEq, Eq)]
pub enum Kind {
    /// A world.
    World,
    /// An interface, of a document or of a world.
    Interface,
    /// An import of a document, a `let`, or what a world imports or exports that is neither function nor interface.
    Binding,
    /// A function of an interface or a world.
    Function,
    /// A resource.
    Resource,
    /// The constructor of a resource.
    Constructor,
    /// A method of a resource, also a static one.
    Method,
    /// A record.
    Record,
    /// A field of a record.
    Field,
    /// A variant, flags or an enum.
    Choice,
    /// A case of a variant or an enum, or a flag.
    Case,
    /// An alias of a type.
    Alias,
}

/// Something that a text declares.
#[derive(Clone, Copy, Debug)]
pub struct Symbol {
    /// Where its name is. That of a constructor is its keyword.
    pub name: SourceSpan,
    /// What it is.
    pub kind: Kind,
    /// Where its declaration begins, in bytes.
    pub start: usize,
    /// Where its declaration ends.
    pub end: usize,
    /// How many declarations are around it.
    pub depth: usize,
    /// Where it is said what it is: from after the name, and a colon or `=` there, up to a brace or the end. It is empty
    /// where nothing is said.
    pub detail: SourceSpan,
}

/// Where a span ends.
pub(crate) fn end_of(span: SourceSpan) -> usize {
    span.offset().saturating_add(span.len())
}
