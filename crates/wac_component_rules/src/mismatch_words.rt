//! What a mismatch says: the steps of a path, and what was expected and found at its end.

use std::fmt;
use wac_graph_types::ItemKind;

/// A step from a kind to one of its parts.
#[derive(Clone, Copy, Debug, PartialEq, Eq)]
pub enum Step<'a> {
    Import(&'a str),
    Export(&'a str),
    Parameter(&'a str),
    /// The result, if it has no name.
    Result,
    NamedResult(&'a str),
    Field(&'a str),
    Case(&'a str),
    /// Of a tuple, counted from 0.
    Element(usize),
    /// What a list, an option, a stream or a future is of.
    Inner,
    Ok,
    Err,
}

impl<'a> fmt::Display for Step<'a> {
    fn fmt<W: fmt::Write>(&self, f: &mut fmt::Formatter<W>) -> fmt::Result {
        match self {
            Step::Import(name) => write!(f, "import `{name}`"),
            Step::Export(name) => write!(f, "export `{name}`"),
            Step::Parameter(name) => write!(f, "parameter `{name}`"),
            Step::Result => f.write_str("result"),
            Step::NamedResult(name) => write!(f, "result `{name}`"),
            Step::Field(name) => write!(f, "field `{name}`"),
            Step::Case(name) => write!(f, "case `{name}`"),
            Step::Element(number) => write!(f, "element {number}"),
            Step::Inner => f.write_str("element"),
            Step::Ok => f.write_str("ok"),
            Step::Err => f.write_str("err"),
        }
    }
}

/// What is at the end of a path, in words.
#[derive(Clone, Copy, Debug, PartialEq, Eq)]
pub enum Words<'a> {
    /// A kind or a type, as `function`, `u8` or `record`.
    Plain(&'static str),
    /// Something with a name, as ``parameter `a` ``.
    Named(&'static str, &'a str),
    /// So many of these.
    Count(usize, &'static str),
}

impl<'a> fmt::Display for Words<'a> {
    fn fmt<W: fmt::Write>(&self, f: &mut fmt::Formatter<W>) -> fmt::Result {
        match self {
            Words::Plain(text) => f.write_str(text),
            Words::Named(what, name) => write!(f, "{what} `{name}`"),
            Words::Count(count, what) => write!(f, "{count} {what}"),
        }
    }
}

/// What is at the end of a path.
#[derive(Clone, Copy, Debug)]
pub struct Place<'a> {
    /// The kind to which the path leads; none where there is no such part, or one without a type.
    pub at: Option<ItemKind>,
    /// In words: the kind, or what of it differs.
    pub words: Words<'a>,
}

/// The first place where two kinds differ, and what was expected and found there.
///
/// The path leads from the two kinds to that place; it is empty where they differ themselves. What is expected is at
/// its end in the second kind, and what is found at its end in the first.
#[derive(Debug, Drop)]
pub struct Mismatch<'a> {
    pub path: Vec<Step<'a>>,
    pub expected: Place<'a>,
    pub found: Place<'a>,
}

impl<'a> fmt::Display for Mismatch<'a> {
    /// The path, if it has a step, then what was expected and found: ``at parameter `x`, element: expected u8, found
    /// u16``.
    fn fmt<W: fmt::Write>(&self, f: &mut fmt::Formatter<W>) -> fmt::Result {
        let mut before = "at ";
        for step in &self.path {
            write!(f, "{before}{step}")?;
            before = ", ";
        }
        if !self.path.is_empty() {
            f.write_str(": ")?;
        }
        write!(
            f,
            "expected {}, found {}",
            self.expected.words, self.found.words
        )
    }
}
