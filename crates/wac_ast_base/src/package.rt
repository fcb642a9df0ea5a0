//! Names and paths of packages.

ghost use Rattle.std.specs.Prelude.{◌≡◌, ◌+◌, length};
ghost use Rattle.std.specs.List.{count_by};
ghost use Rattle.wac_ast_grammar.specs.Grammar as symbols;
ghost use Rattle.wac_ast_grammar.specs.Reading.{begins};
ghost use Rattle.wac_ast_base.specs.Lookahead.{Peeks};
ghost use Rattle.wac_ast_grammar.specs.Version.{path_name, after_slash, is_slash};
ghost use Rattle.wac_ast_grammar.specs.Segments.{package_name_span, segment_spans};
ghost use Rattle.wac_ast_base.specs.Names.{package_name_of, package_path_of};

use crate::error::ParseResult;
use crate::lookahead::Lookahead;
use crate::parse::{Parse, Peek};
use crate::segments::SegmentSpans;
use crate::version::take_package;
use semver::Version;
use std::alloc::Global;
use wac_lexer::{Lexer, SourceSpan, Token};

/// The name of a package.
#[derive(Debug, Drop)]
pub struct PackageName<'a> {
    /// The whole text, with the version.
    pub string: &'a str,
    /// The text before `@`.
    pub name: &'a str,
    /// The version after `@`.
    pub version: Option<Version>,
    /// The span of the whole text.
    pub span: SourceSpan,
}

impl<'a> Parse<'a> for PackageName<'a> {
    ghost symbol = { symbols.package_name };

    ghost tree = { package_name_of };

    #[tactic(auto, using(wac_ast_grammar::proofs::Fixed::read_is))]
    fn parse(alloc: Global, lexer: &mut Lexer<'a>) -> ParseResult<Self> {
        let found = take_package(alloc, lexer, Token::PackageName)?;
        Ok(PackageName {
            string: found.text,
            name: found.name,
            version: found.version,
            span: found.span,
        })
    }
}

/// A path to an item of a package.
#[derive(Debug, Drop)]
pub struct PackagePath<'a> {
    /// The span of the whole text.
    pub span: SourceSpan,
    /// The whole text, with the version.
    pub string: &'a str,
    /// The name of the package: the text before the first `/`.
    pub name: &'a str,
    /// The segments: the text between the first `/` and `@`.
    pub segments: &'a str,
    /// The version after `@`.
    pub version: Option<Version>,
}

impl<'a> PackagePath<'a> {
    /// The span of the package's name.
    pub fn package_name_span(&self) -> SourceSpan
        ensures { result ≡ package_name_span (package_path_of self.now) }
    {
        SourceSpan::new(self.span.offset(), self.name.len())
    }

    /// The segments in order, each with its span.
    ///
    /// They live as long as the source, even after the path was dropped.
    #[tactic(auto, using(crate::proofs::PathParts::counted))]
    pub fn segment_spans(&self) -> SegmentSpans<'a>
        ensures segments { result ≡ segment_spans (package_path_of self.now) }
        ensures count { length result ≡ count_by is_slash self.now.segments.now + 1 }
    {
        let offset = self.span.offset().saturating_add(self.name.len());
        SegmentSpans::new(self.segments, offset.saturating_add(1))
    }
}

impl<'a> Parse<'a> for PackagePath<'a> {
    ghost symbol = { symbols.package_path };

    ghost tree = { package_path_of };

    #[tactic(auto, using(wac_ast_grammar::proofs::Fixed::read_is))]
    fn parse(alloc: Global, lexer: &mut Lexer<'a>) -> ParseResult<Self> {
        let found = take_package(alloc, lexer, Token::PackagePath)?;
        Ok(PackagePath {
            span: found.span,
            string: found.text,
            name: before_slash(found.text),
            segments: text_after_slash(found.name),
            version: found.version,
        })
    }
}

impl<'a> Peek for PackagePath<'a> {
    ghost firsts = { begins symbols.package_path };

    fn peek(lookahead: &mut Lookahead) -> bool
        ensures { Peeks (begins symbols.package_path) result lookahead.old lookahead.new }
    {
        lookahead.peek(Token::PackagePath)
    }
}

/// The text before the first `/`.
fn before_slash(text: &str) -> &str
    ensures { result.now ≡ path_name text.now }
{
    match text.split_once('/') {
        Some((name, _)) => name,
        None => text,
    }
}

/// The text after the first `/`.
fn text_after_slash(text: &str) -> &str
    ensures { result.now ≡ after_slash text.now }
{
    match text.split_once('/') {
        Some((_, segments)) => segments,
        None => "",
    }
}
