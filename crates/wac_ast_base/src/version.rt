//! Versions of packages.

ghost use Rattle.std.specs.Prelude.{◌≡◌, ◌<◌, ◌≤◌, ◌^◌, true, false, IfOk, IfErr, Ok};
ghost use Rattle.std.specs.Option.{option_map};
ghost use Rattle.semver.specs.Identifiers.{parts_of};
ghost use Rattle.semver.specs.Parse.{version_parts};
ghost use Rattle.wac_lexer.specs.Span.{span, end_of};
ghost use Rattle.wac_ast_grammar.specs.Version.{is_ok, reads_version, unversioned, version_of};
ghost use Rattle.wac_ast_base.specs.Error.{told_by, invalid_version, no_memory};
ghost use Rattle.wac_ast_base.specs.Answer.{RefusesVersion, version_told, version_told_at, plain};
ghost use Rattle.wac_ast_base.specs.Names.{TakesPackage};

use crate::error::{Error, ParseResult};
use crate::parse::parse_token;
use semver::Version;
use std::alloc::{AllocError, Global};
use wac_lexer::{Lexer, SourceSpan, Token};

/// A text with a version after `@`.
#[derive(Debug, Drop)]
pub struct Versioned<'a> {
    /// The whole text.
    pub text: &'a str,
    /// The text before `@`.
    pub name: &'a str,
    /// The version after `@`.
    pub version: Option<Version>,
    /// The span of the whole text.
    pub span: SourceSpan,
}

/// Takes the next item, which must be this token of a package, and reads its version.
pub fn take_package<'a>(
    alloc: Global,
    lexer: &mut Lexer<'a>,
    expected: Token,
) -> ParseResult<Versioned<'a>>
    requires { plain expected ≡ false }
    ensures takes { TakesPackage expected result lexer.old lexer.new }
    ensures source { lexer.new.source ≡ lexer.old.source }
    ensures moves { lexer.old.place ≤ lexer.new.place }
    ensures fits { IfOk result (λ x. end_of x.span < 2 ^ 64) }
{
    let span = parse_token(lexer, expected)?;
    let text = lexer.source(span);
    let (name, version) = parse_version(alloc, text, span)?;
    Ok(Versioned {
        text,
        name,
        version,
        span,
    })
}

/// The text of a package before `@`, and the version after it.
///
/// The span is that of the whole text.
pub fn parse_version<'a>(
    alloc: Global,
    text: &'a str,
    span: SourceSpan,
) -> ParseResult<(&'a str, Option<Version>)>
    requires { end_of span < 2 ^ 64 }
    ensures reads { IfOk result (λ _. reads_version text.now ≡ true) }
    ensures name { IfOk result (λ p. p.0.now ≡ unversioned text.now) }
    ensures version { IfOk result (λ p. option_map parts_of p.1 ≡ version_of text.now) }
    ensures refused { IfErr result (RefusesVersion (reads_version text.now) (version_told text.now span)) }
{
    match text.split_once('@') {
        Some((name, version)) => Ok((name, Some(read_version(alloc, version, span)?))),
        None => Ok((text, None)),
    }
}

/// Reads a version text, which ends a span.
fn read_version(alloc: Global, text: &str, span: SourceSpan) -> ParseResult<Version>
    requires { end_of span < 2 ^ 64 }
    ensures ok { IfOk result (λ v. version_parts text.now ≡ Ok (parts_of v)) }
    ensures refused { IfErr result (RefusesVersion (is_ok (version_parts text.now)) (version_told_at text.now span)) }
{
    match Version::parse(alloc, text) {
        Ok(version) => Ok(version),
        Err(error) => {
            if error == semver::Error::from(AllocError) {
                Err(Error::Memory(AllocError))
            } else {
                Err(invalid_version(alloc, text, span)?)
            }
        }
    }
}

/// The error that a text, which ends a span, is no version.
fn invalid_version(alloc: Global, text: &str, span: SourceSpan) -> ParseResult<Error>
    requires { end_of span < 2 ^ 64 }
    ensures ok { IfOk result (λ e. told_by e ≡ version_told_at text.now span) }
    ensures memory { IfErr result (λ e. told_by e ≡ no_memory) }
{
    let end = span.offset() + span.len();
    Ok(Error::InvalidVersion {
        version: String::from_str(alloc, text)?,
        span: SourceSpan::new(end.saturating_sub(text.len()), text.len()),
    })
}
