//! Texts that compose the cache.

use crate::composing::composition_error;
use crate::errors::place_of;
use crate::missing::missing_packages;
use crate::packages::cache_alone;
use std::alloc::{AllocError, Global};
use wac_parser::lexer::SourceSpan;
use wac_parser::{Document, Error, Page, ParseResult};

/// Why the cache can't be composed as a text says, and where it says so. `None` where it can.
pub fn error_with_cache(
    alloc: Global,
    source: &str,
) -> Result<Option<(Option<SourceSpan>, String)>, AllocError> {
    match Document::parse(alloc, source) {
        Ok(document) => error_of(
            alloc,
            Page {
                document: &document,
            },
        ),
        Err(error) => rejection(alloc, &error),
    }
}

/// Why a text is no document.
fn rejection(
    alloc: Global,
    error: &Error,
) -> Result<Option<(Option<SourceSpan>, String)>, AllocError> {
    match place_of(error) {
        Some(span) => Ok(Some((Some(span), error.to_string(alloc)?))),
        None => Err(AllocError),
    }
}

fn error_of(
    alloc: Global,
    page: Page<'_, '_>,
) -> Result<Option<(Option<SourceSpan>, String)>, AllocError> {
    let packages = cache_alone(alloc)?;
    composition_error(alloc, page, packages)
}

/// A line for each package that a text mentions, but for the cache.
pub fn missing_beside_cache(alloc: Global, source: &str) -> ParseResult<String> {
    let document = Document::parse(alloc, source)?;
    let page = Page {
        document: &document,
    };
    Ok(missing_of(alloc, page)?)
}

fn missing_of(alloc: Global, page: Page<'_, '_>) -> Result<String, AllocError> {
    let packages = cache_alone(alloc)?;
    missing_packages(alloc, page, &packages)
}
