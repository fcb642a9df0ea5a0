//! Going through the statements of a document.

use std::alloc::Global;
use wac_parser::{Document, ImportType, Page, ParseResult, Statement};

/// The packages that the imports of a document name, in order.
pub fn imported_packages<'a>(alloc: Global, source: &'a str) -> ParseResult<Vec<&'a str>> {
    let document = Document::parse(alloc, source)?;
    let page = Page {
        document: &document,
    };
    packages_of(alloc, page)
}

fn packages_of<'a>(alloc: Global, page: Page<'_, 'a>) -> ParseResult<Vec<&'a str>> {
    let Page { document } = page;
    let mut names = Vec::new(alloc);
    for statement in &document.statements {
        if let Statement::Import(import) = statement
            && let ImportType::Package(path) = &import.ty
        {
            names.push(path.name)?;
        }
    }
    Ok(names)
}
