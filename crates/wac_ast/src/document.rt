//! Documents.

ghost use Rattle.std.specs.Prelude.{◌≡◌, ◌<◌, ◌⊎◌, [], alloc_error, IfOk, IfErr, OnOk};
ghost use Rattle.wac_lexer.specs.Reading.{left};
ghost use Rattle.wac_ast_base.specs.declared.error.Error.TheVariants.{Memory};
ghost use Rattle.wac_ast_base.specs.Error.{told_by};
ghost use Rattle.wac_ast_grammar.specs.Tree.{Document as Tree};
ghost use Rattle.wac_ast_base.specs.Answer.{Gives};
ghost use Rattle.wac_ast_base.specs.Lists.{each};
ghost use Rattle.wac_ast_grammar.specs.TextTree.{IsTreeOf};
ghost use Rattle.wac_ast.specs.Document.{ErrorOf, ReturnsTree, Parses};
ghost use Rattle.wac_ast_grammar.specs.Slices.{DocumentSlices};
ghost use Rattle.wac_ast_grammar.specs.Reading.{read};
ghost use Rattle.wac_ast_grammar.specs.Grammar as symbols;
ghost use Rattle.wac_ast.specs.Statements.{statement_of, document_of};

use crate::statement::Statement;
use std::alloc::Global;
use std::fmt;
use wac_ast_base::{DocComment, Error, Parse, ParseResult, has_more, parse_docs, push};
use wac_ast_statements::PackageDirective;
use wac_lexer::{Lexer, items_stand_in_order};

/// A document.
#[derive(Drop)]
pub struct Document<'a> {
    /// The documentation of the package.
    pub docs: Vec<DocComment<'a>>,
    /// Which package the document makes.
    pub directive: PackageDirective<'a>,
    /// Its statements, in order.
    pub statements: Vec<Statement<'a>>,
}

// The statements are only counted: the rows of all of them are more than the checker compares in one step.
impl fmt::Debug for Document<'_> {
    fn fmt<W: fmt::Write>(&self, f: &mut fmt::Formatter<W>) -> fmt::Result {
        let docs = &self.docs;
        let directive = &self.directive;
        let statements = self.statements.len();
        write!(
            f,
            "Document {{ docs: {docs:?}, directive: {directive:?}, statements: {statements} }}"
        )
    }
}

impl<'a> Document<'a> {
    /// Parses a text as a document.
    ///
    /// Spans are in bytes of the text. A text with a character that no text may have is
    /// rejected for the first one, whatever precedes it.
    pub fn parse(alloc: Global, source: &'a str) -> ParseResult<Self>
        // What is returned is the text's tree.
        ensures found { IfOk result (λ d. IsTreeOf source.now (document_of d)) }
        // Where the text has a tree, that one is returned, unless memory runs out.
        ensures only { (t : Tree) → IsTreeOf source.now t → ReturnsTree document_of result t }
        // A text has at most one tree.
        ensures one { (t u : Tree) → IsTreeOf source.now t → IsTreeOf source.now u → t ≡ u }
        // The spans of the tree slice the text.
        ensures slices { IfOk result (λ d. DocumentSlices source.now (document_of d)) }
        // An error reports the first place where no document continues, and it is the same each time.
        ensures error { IfErr result (λ e. (e ≡ Memory alloc_error) ⊎ ErrorOf (told_by e) source.now) }
    {
        items_stand_in_order();
        parse_document(alloc, source)
    }
}

/// Parses a text, as reading its items does.
fn parse_document<'a>(alloc: Global, source: &'a str) -> ParseResult<Document<'a>>
    ensures { Parses document_of result source.now }
{
    let mut lexer = Lexer::new(source)?;
    parse_parts(alloc, &mut lexer)
}

/// The parts of a document, up to the end of the input.
fn parse_parts<'a>(alloc: Global, lexer: &mut Lexer<'a>) -> ParseResult<Document<'a>>
    ensures gives { Gives document_of result lexer.old lexer.new (read symbols.document (left lexer.old)) }
    ensures ended { OnOk result (left lexer.new ≡ []) }
{
    let docs = parse_docs(alloc, lexer)?;
    let directive = Parse::parse(alloc, lexer)?;
    let statements = parse_statements(alloc, lexer)?;
    Ok(Document {
        docs,
        directive,
        statements,
    })
}

/// The statements up to the end of the input.
fn parse_statements<'a>(alloc: Global, lexer: &mut Lexer<'a>) -> ParseResult<Vec<Statement<'a>>>
    ensures gives { Gives (each statement_of) result lexer.old lexer.new (read symbols.statements (left lexer.old)) }
    ensures ended { OnOk result (left lexer.new ≡ []) }
{
    let mut statements = Vec::new(alloc);
    while has_more(lexer) {
        push(&mut statements, Parse::parse(alloc, lexer)?)?;
    }
    Ok(statements)
}
