// What is wrong with a source.
use std::fmt;

/// A fault of a source's text. Its `Display` is the message, without the place.
#[derive(Clone, Copy, Debug, PartialEq, Eq)]
pub enum Error {
    /// No token begins with this character.
    UnexpectedToken,
    /// No other quote follows this one.
    UnterminatedString,
    /// The comment, or one within it, has no end. It takes all that is left of the source.
    UnterminatedComment,
    /// A character that changes the direction of a text: U+202A to U+202E, U+2066 to U+2069.
    DisallowedBidirectionalOverride(char),
    /// U+0149, U+0673, U+0F77, U+0F79, U+17A3, U+17A4, U+17B4 or U+17B5.
    DiscouragedUnicodeCodepoint(char),
    /// Another control code than TAB, LF and CR: up to U+001F, or U+007F to U+009F.
    DisallowedControlCode(char),
}

// By hand, since a derived `Default` has no clause.
impl Default for Error {
    ghost use Rattle.std.specs.Prelude.{◌≡◌};
    ghost use Rattle.wac_lexer.specs.declared.error.Error.TheVariants.{UnexpectedToken};

    ghost is_default = { λ e. e ≡ UnexpectedToken };

    fn default() -> Error {
        Error::UnexpectedToken
    }
}

impl From<()> for Error {
    ghost use Rattle.std.specs.Prelude.{◌≡◌};
    ghost use Rattle.wac_lexer.specs.declared.error.Error.TheVariants.{UnexpectedToken};

    ghost from_gives = { λ _ e. e ≡ UnexpectedToken };

    fn from(_unit: ()) -> Error {
        Error::UnexpectedToken
    }
}

impl fmt::Display for Error {
    ghost use Rattle.std.specs.Prelude.{Some};
    ghost use Rattle.wac_lexer.specs.Messages.{text_of};

    ghost output = { λ e. Some (text_of e) };

    fn fmt<W: fmt::Write>(&self, f: &mut fmt::Formatter<W>) -> fmt::Result {
        match *self {
            Error::UnexpectedToken => f.write_str("unexpected token was encountered"),
            Error::UnterminatedString => f.write_str("an unterminated string was encountered"),
            Error::UnterminatedComment => f.write_str("an unterminated comment was encountered"),
            Error::DisallowedBidirectionalOverride(c) => {
                let code = c as u32;
                write!(
                    f,
                    "disallowed bidirectional override codepoint `\\u{{{code:x}}}`"
                )
            }
            Error::DiscouragedUnicodeCodepoint(c) => {
                let code = c as u32;
                write!(f, "codepoint `\\u{{{code:x}}}` is discouraged by Unicode")
            }
            Error::DisallowedControlCode(c) => {
                let code = c as u32;
                write!(f, "disallowed control code '\\u{{{code:x}}}'")
            }
        }
    }
}
