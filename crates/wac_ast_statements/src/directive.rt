//! The beginning of a document.

ghost use Rattle.wac_ast_grammar.specs.Grammar as symbols;
ghost use Rattle.wac_ast_statements.specs.Statements.{directive_of};

use std::alloc::Global;
use std::fmt;
use wac_ast_base::{Error, PackageName, PackagePath, Parse, ParseResult, parse_after, take_token};
use wac_lexer::{Lexer, Token};

/// The beginning of a document.
#[derive(Drop)]
pub struct PackageDirective<'a> {
    /// The package that the document makes.
    pub package: PackageName<'a>,
    /// The world that its composition is made for, where it is given.
    pub targets: Option<PackagePath<'a>>,
}

impl fmt::Debug for PackageDirective<'_> {
    fn fmt<W: fmt::Write>(&self, f: &mut fmt::Formatter<W>) -> fmt::Result {
        let PackageDirective { package, targets } = self;
        write!(
            f,
            "PackageDirective {{ package: {package:?}, targets: {targets:?} }}"
        )
    }
}

impl<'a> Parse<'a> for PackageDirective<'a> {
    ghost symbol = { symbols.directive };

    ghost tree = { directive_of };

    fn parse(alloc: Global, lexer: &mut Lexer<'a>) -> ParseResult<Self> {
        take_token(lexer, Token::PackageKeyword)?;
        let package = Parse::parse(alloc, lexer)?;
        let targets = parse_after::<PackagePath, Error>(alloc, lexer, Token::TargetsKeyword)?;
        take_token(lexer, Token::Semicolon)?;
        Ok(PackageDirective { package, targets })
    }
}
