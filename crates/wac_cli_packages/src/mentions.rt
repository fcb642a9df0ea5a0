// The packages that texts mention.
use indexmap::IndexMap;
use std::alloc::{AllocError, Global};
use wac_ast::Document;
use wac_first_error::Reading;
use wac_graph::PackageKey;
use wac_lexer::SourceSpan;
use wac_package_errors::{flat_text, packages};
use wac_printer::Page;

/// The text of bytes. It is empty where they are none, or brackets are nested too deeply.
pub(crate) fn text_in(alloc: Global, bytes: &[u8]) -> Result<&str, AllocError> {
    match flat_text(alloc, bytes) {
        Ok(Reading::Text(text)) => Ok(text),
        Ok(Reading::Rejected(_)) => Ok(""),
        Err(_) => Err(AllocError),
    }
}

/// The packages that a text mentions: none where it is no document.
pub(crate) fn mentioned_in(
    alloc: Global,
    text: &str,
) -> Result<IndexMap<PackageKey, SourceSpan>, AllocError> {
    match Document::parse(alloc, text) {
        Ok(document) => mentioned_by(
            Page {
                document: &document,
            },
            alloc,
        ),
        Err(wac_ast::Error::Memory(refused)) => Err(refused),
        Err(_) => Ok(IndexMap::new(alloc)),
    }
}

/// The packages that a document mentions.
fn mentioned_by(
    page: Page<'_, '_>,
    alloc: Global,
) -> Result<IndexMap<PackageKey, SourceSpan>, AllocError> {
    let Page { document } = page;
    packages(alloc, document)
}
