// Brackets, and what is in them.
ghost use Rattle.std.specs.Prelude.{◌≡◌, [], ◌∷◌};
ghost use Rattle.std.specs.Str.{bytes_eq};
ghost use Rattle.wac_comments_layout.specs.Brackets.{is_opening, is_closing, begins_rows, in_braces, opened_by, is_flat, has_commas};

/// What is in brackets.
#[derive(Clone, Copy, Debug, PartialEq, Eq)]
pub(crate) enum Brackets {
    /// Statements or items, each with an empty line before the next.
    Body,
    /// Rows of a type, each on a line.
    Rows,
    /// Arguments or renamed names, each on a line, without docs.
    Arguments,
    /// A list on one line.
    Flat,
}

impl Brackets {
    pub(crate) fn is_flat(self) -> bool
        ensures { result ≡ is_flat self }
    {
        match self {
            Brackets::Body | Brackets::Rows | Brackets::Arguments => false,
            Brackets::Flat => true,
        }
    }

    /// Whether each element has a comma after it.
    pub(crate) fn has_commas(self) -> bool
        ensures { result ≡ has_commas self }
    {
        match self {
            Brackets::Body | Brackets::Flat => false,
            Brackets::Rows | Brackets::Arguments => true,
        }
    }
}

/// Whether a token is this one byte. Most tokens are tested for several marks, and a call of `==` costs more.
pub(crate) fn is_mark(token: &str, mark: u8) -> bool
    ensures { result ≡ bytes_eq token.now (mark ∷ []) }
{
    let bytes = token.as_bytes();
    bytes.len() == 1 && bytes[0] == mark
}

pub(crate) fn opens(token: &str) -> bool
    ensures { result ≡ is_opening token.now }
{
    is_mark(token, b'(') || is_mark(token, b'[') || is_mark(token, b'<') || is_mark(token, b'{')
}

pub(crate) fn closes(token: &str) -> bool
    ensures { result ≡ is_closing token.now }
{
    is_mark(token, b')') || is_mark(token, b']') || is_mark(token, b'>') || is_mark(token, b'}')
}

/// Whether rows of a type are in the braces after this word and a name.
fn begins_rows(word: &str) -> bool
    ensures { result ≡ begins_rows word.now }
{
    word == "variant" || word == "record" || word == "flags" || word == "enum"
}

/// What is in braces, by the two tokens before them: before the brace of `new` comes a package name, the only token with a
/// colon in it.
fn in_braces(before: &str, earlier: &str) -> Brackets
    ensures { result ≡ in_braces before.now earlier.now }
{
    if is_mark(before, b'.') {
        Brackets::Flat
    } else if before == "with" || before.as_bytes().contains(&b':') {
        Brackets::Arguments
    } else if begins_rows(earlier) {
        Brackets::Rows
    } else {
        Brackets::Body
    }
}

/// What is in the brackets that a token opens, by the two tokens before it.
pub(crate) fn opened_by(token: &str, before: &str, earlier: &str) -> Brackets
    ensures { result ≡ opened_by token.now before.now earlier.now }
{
    if is_mark(token, b'{') {
        in_braces(before, earlier)
    } else {
        Brackets::Flat
    }
}
