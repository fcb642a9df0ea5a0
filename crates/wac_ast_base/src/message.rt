//! What is said of an error.

ghost use Rattle.std.specs.Fmt.{WritesOnOk};
ghost use Rattle.std.specs.Prelude.{◌++◌};
ghost use Rattle.wac_ast_base.specs.Lookahead.{kept_in};
ghost use Rattle.wac_ast_base.specs.Messages.{entry, entries, joined, several_expected};

use crate::error::{Error, KEPT};
use std::fmt;
use wac_lexer::Token;

impl fmt::Display for Error {
    ghost use Rattle.std.specs.Prelude.{Some};
    ghost use Rattle.wac_ast_base.specs.Error.{told_by};
    ghost use Rattle.wac_ast_base.specs.Messages.{message_of};

    ghost output = { λ e. Some (message_of (told_by e)) };

    fn fmt<W: fmt::Write>(&self, f: &mut fmt::Formatter<W>) -> fmt::Result {
        match self {
            Error::Lexer { error, .. } => error.fmt(f),
            Error::Expected {
                expected,
                found,
                ..
            } => write!(f, "expected {expected}, found {}", Found(*found)),
            Error::ExpectedEither {
                first,
                second,
                found,
                ..
            } => write!(f, "expected {first} or {second}, found {}", Found(*found)),
            Error::ExpectedMultiple {
                expected,
                count,
                found,
                ..
            } => write_several(f, expected, *count, *found),
            Error::EmptyType { ty, kind, .. } => write!(f, "{ty} must contain at least one {kind}"),
            Error::InvalidVersion { version, .. } => write!(
                f,
                "`{version}` is not a valid semantic version"
            ),
            Error::Memory(_) => f.write_str("out of memory"),
        }
    }
}

/// Displays a token that was found, or the end of the input.
#[derive(Drop)]
struct Found(Option<Token>);

impl fmt::Display for Found {
    ghost use Rattle.std.specs.Prelude.{Some};
    ghost use Rattle.wac_ast_base.specs.Messages.{found_text};

    ghost output = { λ found. Some (found_text found.0) };

    fn fmt<W: fmt::Write>(&self, f: &mut fmt::Formatter<W>) -> fmt::Result {
        match &self.0 {
            Some(token) => token.fmt(f),
            None => f.write_str("end of input"),
        }
    }
}

/// Writes that one of several tokens was expected, the first of which were kept.
#[tactic(auto, unfolding(crate::specs::Messages::several_expected))]
fn write_several<W: fmt::Write>(
    f: &mut fmt::Formatter<W>,
    kept: &[Option<Token>],
    count: usize,
    found: Option<Token>,
) -> fmt::Result
    ensures { WritesOnOk W.write_str_gives f.old result (several_expected (kept_in kept.now) count found) f.new }
{
    f.write_str("expected either ")?;
    write_kept(f, kept, count)?;
    let more = if count > KEPT { ", or more..." } else { "" };
    write!(f, "{more}, found {}", Found(found))
}

/// Writes the tokens that were kept, where so many were tried.
fn write_kept<W: fmt::Write>(
    f: &mut fmt::Formatter<W>,
    kept: &[Option<Token>],
    count: usize,
) -> fmt::Result
    ensures { WritesOnOk W.write_str_gives f.old result (joined (entries count (kept_in kept.now))) f.new }
{
    let mut separator = "";
    let mut left = count;
    for place in kept.iter() {
        if let Some(token) = place {
            write_entry(f, separator, *token, left)?;
            separator = ", ";
            left = left.saturating_sub(1);
        }
    }
    Ok(())
}

/// Writes a token, where so many of those that were tried are left.
fn write_entry<W: fmt::Write>(
    f: &mut fmt::Formatter<W>,
    separator: &str,
    token: Token,
    left: usize,
) -> fmt::Result
    ensures { WritesOnOk W.write_str_gives f.old result (separator.now ++ entry left token) f.new }
{
    let word = if left == 1 { "or " } else { "" };
    write!(f, "{separator}{word}{token}")
}
