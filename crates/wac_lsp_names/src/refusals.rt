//! Why a name can't be renamed.
use std::alloc::AllocError;

/// Why a name isn't renamed.
#[derive(Clone, Copy, Debug, Drop, PartialEq, Eq)]
pub enum RenameError {
    /// There is no name of the document at the place.
    NoName,
    /// The new name is empty.
    Empty,
    /// The new name has another character than letters of ASCII, digits and `-`.
    Character,
    /// The new name begins or ends with `-`, or has two of them in a row.
    Hyphen,
    /// A word of the new name doesn't begin with a letter.
    WordStart,
    /// A word of the new name has small letters and capitals.
    MixedCase,
    /// The new name is bound where the old one is.
    Taken,
    /// A use of the old name would stand for something else.
    Captured,
    /// A use of something else would stand for the new name.
    Captures,
    /// A statement with an error has the old or the new name.
    Faulty,
    /// The import may have the id of what it imports, or else its identifier as its name.
    ImportName,
    /// An argument that stands alone may be found by another name.
    ArgumentName,
    /// The name is one of those that `...` gives on.
    Spread,
    /// The name is one of the world that the document targets.
    Target,
    /// The document would mean something else afterwards.
    Unsure,
}

impl RenameError {
    /// What a client shows.
    pub fn message(self) -> &'static str {
        match self {
            RenameError::NoName => "no name of this document is here",
            RenameError::Empty => "a name has at least one letter",
            RenameError::Character => "a name has no other characters than letters, digits and `-`",
            RenameError::Hyphen => "`-` stands between two words of a name",
            RenameError::WordStart => "each word of a name begins with a letter",
            RenameError::MixedCase => "a word of a name has small letters or capitals, not both",
            RenameError::Taken => "the new name is taken where this one is bound",
            RenameError::Captured =>
                "a use of this name would stand for something else that has the new name",
            RenameError::Captures =>
                "a use of something else that has the new name would stand for this one",
            RenameError::Faulty =>
                "a statement with an error has the old or the new name: mend it first",
            RenameError::ImportName => {
                "the import may be named by the id of what it imports: give it a name with `as` first"
            }
            RenameError::ArgumentName => {
                "an argument is found by this name or by another one: write the name of the import and `:` before it first"
            }
            RenameError::Spread =>
                "`...` gives it on by this name: write what it gives one by one first",
            RenameError::Target =>
                "the world is the target of this document, whose imports and exports have its names",
            RenameError::Unsure => "the document would mean something else afterwards",
        }
    }
}

/// Why no edits are made.
#[derive(Clone, Copy, Debug, Drop)]
pub enum Stopped {
    /// The name isn't renamed.
    Refused(RenameError),
    /// A request for memory failed.
    Memory,
}

impl From<AllocError> for Stopped {
    fn from(_error: AllocError) -> Self {
        Stopped::Memory
    }
}

impl From<RenameError> for Stopped {
    fn from(error: RenameError) -> Self {
        Stopped::Refused(error)
    }
}
