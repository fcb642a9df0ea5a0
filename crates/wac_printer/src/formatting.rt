//! Formatting texts.
ghost use Rattle.std.specs.Prelude.{◌≡◌, ◌⊎◌, IfOk, IfErr, alloc_error, string_bytes};
ghost use Rattle.wac_ast_grammar.specs.Tree.{Document as Tree};
ghost use Rattle.wac_ast_grammar.specs.TextTree.{IsTreeOf};
ghost use Rattle.wac_ast.specs.Document.{ErrorOf};
ghost use Rattle.wac_ast_base.specs.Error.{told_by};
ghost use Rattle.wac_ast.specs.Statements.{document_of};
ghost use Rattle.wac_ast_base.specs.declared.error.Error.TheVariants.{Memory};
ghost use Rattle.wac_printer_layout.specs.Joins.{AreBlanks};
ghost use Rattle.wac_printer_layout.specs.Reread.{printed, WasPrinted};
ghost use Rattle.wac_printer_pieces.specs.Printed.{space_of};
ghost use Rattle.wac_printer.specs.Sliced.{DocumentSliced};
ghost use Rattle.wac_printer.specs.Formatted.{IsStable, PrintsOne, PrintsTree, ReturnsReadable};

use crate::{DocumentPrinter, Page, trees_of_texts_can_be_printed};
use std::alloc::{AllocError, Global};
use wac_ast::{Document, Error, ParseResult};
use wac_lexer::Bytes;
use wac_printer_layout::{printed_texts_read_back, printed_texts_stay};

/// Prints the document of a text in the one layout.
///
/// `space` is written once for each depth where a line begins, four spaces where it is `None`. All that the
/// layout of the source said is replaced; identifiers, strings and package names keep their spelling, and docs
/// keep their lines. Memory is taken for the tree and for the text.
pub fn format(alloc: Global, source: &str, space: Option<&str>) -> ParseResult<String>
    // What is returned is printed of the text's tree.
    ensures found { PrintsOne (space_of space.entry) source.now result }
    // Where the text has a tree, it is printed, unless memory runs out.
    ensures only { (tree : Tree) → IsTreeOf source.now tree → PrintsTree (space_of space.entry) source.now tree result }
    // Where blanks are written for a depth, the printed text reads back as the same
    // document, and is fixed from the second time on.
    ensures again { AreBlanks (space_of space.entry) → ReturnsReadable (space_of space.entry) source.now result }
    // Where the source was itself printed, what is returned has a tree that is printed as the result.
    ensures fixed { AreBlanks (space_of space.entry) → WasPrinted source.now → IsStable (space_of space.entry) result }
    // An error reports the first place where no document continues.
    ensures error { IfErr result (λ e. (e ≡ Memory alloc_error) ⊎ ErrorOf (told_by e) source.now) }
{
    let document = Document::parse(alloc, source)?;
    trees_of_texts_can_be_printed();
    printed_texts_read_back();
    printed_texts_stay();
    let page = Page {
        document: &document,
    };
    let bytes = print(alloc, page, source, space)?;
    let text = text_of(bytes)?;
    Ok(text)
}

/// The text of bytes that are UTF-8, as all printed text is.
fn text_of(bytes: Vec<u8>) -> ParseResult<String>
    ensures ok { IfOk result (λ text. string_bytes text ≡ bytes.items) }
    ensures err { IfErr result (λ e. e ≡ Memory alloc_error) }
{
    match String::from_utf8(bytes) {
        Ok(text) => Ok(text),
        Err(_) => Err(Error::Memory(AllocError)),
    }
}

/// The bytes that a document of a source is printed as.
fn print(
    alloc: Global,
    page: Page<'_, '_>,
    source: &str,
    space: Option<&str>,
) -> Result<Vec<u8>, AllocError>
    requires { DocumentSliced source.now (document_of page) }
    ensures { IfOk result (λ bytes. bytes.items ≡ printed (space_of space.entry) source.now (document_of page.entry)) }
{
    let mut printer = DocumentPrinter::new(Bytes::new(alloc), source, space);
    match printer.page(page) {
        Ok(()) => Ok(printer.into_writer().into_vec()),
        Err(_) => Err(AllocError),
    }
}
