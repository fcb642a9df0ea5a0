//! A writer that fails: what it then holds, and what a printer returns.

use crate::expecting::Expecting;
use crate::rows::{DOCUMENTED, DOCUMENTED_PRINTED};
use std::alloc::{AllocError, Global};
use std::fmt::Display;
use std::test::Fail;
use wac_parser::lexer::Out;
use wac_parser::{
    Document, DocumentPrinter, Error, Page, PrintError, PrintResult, trees_of_texts_can_be_printed,
};

/// What a printer returns to two calls.
fn printed_twice(
    page: Page<'_, '_>,
    source: &str,
    writer: &mut Expecting,
) -> (PrintResult, PrintResult)
    requires { DocumentSliced source.now (document_of page) }
{
    let mut printer = DocumentPrinter::new(Out::new(writer), source, None);
    let first = printer.page(page);
    let second = printer.docs(&[]);
    (first, second)
}

ghost use Rattle.wac_ast.specs.Statements.{document_of};
ghost use Rattle.wac_printer.specs.Sliced.{DocumentSliced};

/// Whether a writer with so much room holds just the beginning of a text, and the printer says that it failed.
fn is_cut_at(alloc: Global, source: &str, text: &'static str, room: usize) -> bool {
    let Ok(document) = Document::parse(alloc, source) else {
        return false;
    };
    trees_of_texts_can_be_printed();
    let mut writer = Expecting::new(text, 1, room);
    let page = Page {
        document: &document,
    };
    let answers = printed_twice(page, source, &mut writer);
    answers == (Err(PrintError::Writer), Err(PrintError::Failed)) && writer.took(room)
}

#[test]
fn a_failing_writer_holds_a_beginning(rt: HostRuntime) {
    for room in 0..DOCUMENTED_PRINTED.len() {
        let is_cut = is_cut_at(rt.alloc(), DOCUMENTED, DOCUMENTED_PRINTED, room);
        assert!(rt; is_cut, "at {room}");
    }
}

/// Whether an error is described so.
fn says<T: Display>(alloc: Global, error: &T, text: &str) -> Result<bool, AllocError> {
    let described = format!(in alloc; "{error}")?;
    Ok(described.as_str() == text)
}

#[test]
fn errors_are_described(rt: HostRuntime) -> Result<(), Fail> {
    let alloc = rt.alloc();
    assert!(rt; says(alloc, &PrintError::Writer, "the writer failed")?);
    assert!(rt; says(alloc, &PrintError::Failed, "the printer has failed")?);
    assert!(rt; says(alloc, &Error::Memory(AllocError), "out of memory")?);
    Ok(())
}
