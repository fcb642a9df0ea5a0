//! Names, and which of them is at an offset.
ghost use Rattle.std.specs.Prelude.{◌≡◌, IfOk, option_copied, slice_get};
ghost use Rattle.wac_names.specs.Places.{binding_at, bound_at, definition_at, first_mention, mentioned_at, mentions_of, references_at, touches};

use std::alloc::{AllocError, Global};
use wac_lexer::SourceSpan;

/// What binds a name.
#[derive(Clone, Copy, PartialEq, Eq)]
pub enum Kind {
    /// `import x: ..` of the document.
    Import,
    /// `let x = ..`
    Let,
    /// `interface x { .. }`
    Interface,
    /// `world x { .. }`
    World,
    /// `type x = ..`
    Alias,
    /// `resource x ..`
    Resource,
    /// `variant x { .. }`
    Variant,
    /// `record x { .. }`
    Record,
    /// `flags x { .. }`
    Flags,
    /// `enum x { .. }`
    Enum,
    /// `x` of `use i.{t as x}`, or of `use i.{x}` where the document doesn't declare what is used.
    UsedType,
    /// `x: func(..)` of an interface.
    Function,
    /// `x: func(..)` or `x: static func(..)` of a resource.
    Method,
    /// `import x: ..` of a world.
    WorldImport,
    /// `export x: ..` of a world.
    WorldExport,
    /// `x` of `include w with { y as x }`.
    IncludedItem,
    /// A case of a variant or an enum.
    Case,
    /// A field of a record.
    Field,
    /// A flag.
    Flag,
    /// A parameter of a function, a method or a constructor.
    Parameter,
    /// A result of a function that has a name.
    NamedResult,
}

/// A name where it is bound.
#[derive(Clone, Copy)]
pub struct Name {
    /// Where it is written, with its `%` where it has one.
    pub span: SourceSpan,
    /// What binds it.
    pub kind: Kind,
    /// The number of the name whose declaration it is in, as the interface of a function. It is lower than its own.
    pub container: Option<usize>,
}

/// A name where it is used.
#[derive(Clone, Copy)]
pub struct Mention {
    /// Where it is written, with its `%` where it has one; of a string in brackets what is between the quotes.
    pub span: SourceSpan,
    /// The number of the name that it stands for.
    pub binding: usize,
    /// Where the scope binds it in which it is looked up: where that name is bound, or at the item of a `use` that brings
    /// it in. `None` for a member, which is looked up among exports: an access, a later segment of a path, an item of a
    /// `use`, and what an `include` renames.
    pub bound: Option<SourceSpan>,
}

/// The names of a document.
#[derive(Drop)]
pub struct Names {
    /// Where names are bound, in the order of the text.
    pub bindings: Vec<Name>,
    /// Where they are used, in the order of the text, but those of the target last.
    pub mentions: Vec<Mention>,
}

/// Whether an offset is in a span or just after it.
pub fn touches(span: SourceSpan, offset: usize) -> bool
    ensures { result ≡ touches offset span }
{
    let start = span.offset();
    start <= offset && offset - start <= span.len()
}

/// The name of a number.
pub(crate) fn numbered(names: &[Name], number: usize) -> Option<&Name>
    ensures { option_copied result ≡ slice_get names.now number }
{
    names.get(number)
}

/// The first mention at an offset.
fn first_mention(mentions: &[Mention], offset: usize) -> Option<&Mention>
    ensures { option_copied result ≡ first_mention mentions.now offset }
{
    mentions
        .iter()
        .find(|mention| touches(mention.span, offset))
}

/// The number of the name for which the first mention at an offset stands.
fn mentioned_at(mentions: &[Mention], offset: usize) -> Option<usize>
    ensures { result ≡ mentioned_at mentions.now offset }
{
    match first_mention(mentions, offset) {
        Some(mention) => Some(mention.binding),
        None => None,
    }
}

/// The number of the first name that is bound at an offset.
fn bound_at(bindings: &[Name], offset: usize) -> Option<usize>
    ensures { result ≡ bound_at bindings.now offset }
{
    bindings.iter().position(|name| touches(name.span, offset))
}

/// Where the name of a number is mentioned, in order.
fn mentions_of(
    alloc: Global,
    mentions: &[Mention],
    binding: usize,
) -> Result<Vec<SourceSpan>, AllocError>
    ensures { IfOk result (λ all. all.items ≡ mentions_of mentions.now binding) }
{
    mentions
        .iter()
        .filter(|mention| mention.binding == binding)
        .map(|mention| mention.span)
        .collect(alloc)
}

impl Names {
    /// The number of the name that is bound or used at an offset.
    pub fn binding_at(&self, offset: usize) -> Option<usize>
        ensures { result ≡ binding_at self.now offset }
    {
        match mentioned_at(&self.mentions, offset) {
            Some(binding) => Some(binding),
            None => bound_at(&self.bindings, offset),
        }
    }

    /// The name that is bound or used at an offset, where it is bound.
    pub fn definition_at(&self, offset: usize) -> Option<&Name>
        ensures { option_copied result ≡ definition_at self.now offset }
    {
        match self.binding_at(offset) {
            Some(binding) => numbered(&self.bindings, binding),
            None => None,
        }
    }

    /// Where the name is used that is bound or used at an offset. Where it is bound is not among that.
    pub fn references_at(&self, alloc: Global, offset: usize) -> Result<Vec<SourceSpan>, AllocError>
        ensures { IfOk result (λ all. all.items ≡ references_at self.now offset) }
    {
        match self.binding_at(offset) {
            Some(binding) => mentions_of(alloc, &self.mentions, binding),
            None => Ok(Vec::new(alloc)),
        }
    }

    /// All names where they are bound, in the order of the text, each after its container. An outline leaves out the
    /// parameters and the results.
    pub fn symbols(&self) -> &[Name]
        ensures { result.now ≡ self.now.bindings.items }
    {
        &self.bindings
    }
}
