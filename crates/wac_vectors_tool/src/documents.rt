//! Documents, parsed and resolved.

use crate::packages::packages;
use crate::readings::{Asked, told};
use crate::rules::Fixed;
use indexmap::IndexMap;
use std::alloc::{AllocError, Global};
use std::process::Abort;
use wac_ast::Document;
use wac_composition::graph_with;
use wac_graph::{CompositionGraph, Package, PackageKey, Reason};
use wac_printer::Page;
use wac_resolution::Error;
use wac_tool_graphs::SameRules;

/// What a document is resolved with.
#[derive(Clone, Copy)]
pub enum With {
    /// No packages. All passes.
    Nothing,
    /// The packages of the tests. All passes.
    Packages,
    /// The same packages. No kind fits any, for reason 7.
    NothingFits,
    /// The same packages. No name may be used, for reason 8.
    NoNames,
    /// The same packages. What means the same fits.
    SameFits,
}

/// What a document is resolved with, its text, and what is asked of it.
pub type Row = (With, &'static str, &'static str);

/// What is asked of a document, and what it is resolved with.
#[derive(Clone, Copy)]
pub struct Question {
    pub alloc: Global,
    pub asked: Asked,
    pub with: With,
}

/// The packages of the tests, or none. They are all valid, so that the only error is that memory runs out.
fn handed(alloc: Global, with: With) -> Result<IndexMap<PackageKey, Package>, AllocError> {
    if let With::Nothing = with {
        return Ok(IndexMap::new(alloc));
    }
    match packages(alloc) {
        Ok(packages) => Ok(packages),
        Err(_) => Err(AllocError),
    }
}

/// Rules with a fixed result, as they are asked for.
fn fixed(with: With) -> Fixed {
    match with {
        With::NothingFits => Fixed {
            kinds: Some(Reason(7)),
            names: None,
        },
        With::NoNames => Fixed {
            kinds: None,
            names: Some(Reason(8)),
        },
        _ => Fixed {
            kinds: None,
            names: None,
        },
    }
}

/// What a document describes with these packages.
fn described(
    page: Page<'_, '_>,
    alloc: Global,
    with: With,
    packages: IndexMap<PackageKey, Package>,
) -> Result<CompositionGraph, Error> {
    match with {
        With::SameFits => graph_with(page, alloc, packages, &SameRules::new(alloc)),
        _ => graph_with(page, alloc, packages, &fixed(with)),
    }
}

/// What a document describes.
fn resolved(page: Page<'_, '_>, alloc: Global, with: With) -> Result<CompositionGraph, Error> {
    match handed(alloc, with) {
        Ok(packages) => described(page, alloc, with, packages),
        Err(refused) => Err(Error::Memory(refused)),
    }
}

/// What the document of a text describes. Each text of the tests has a tree, so that the only error of parsing is that memory
/// runs out.
pub fn composed(alloc: Global, with: With, text: &str) -> Result<CompositionGraph, Error> {
    match Document::parse(alloc, text) {
        Ok(document) => resolved(
            Page {
                document: &document,
            },
            alloc,
            with,
        ),
        Err(_) => Err(Error::Memory(AllocError)),
    }
}

/// The answer to a question of the document of a text. The only error is that memory runs out.
pub fn answer_of(question: Question, text: &str) -> Result<String, AllocError> {
    let Question { alloc, asked, with } = question;
    told(alloc, asked, composed(alloc, with, text))
}

/// Asserts of each row what it says of its document.
pub fn hold(rt: &impl Abort, alloc: Global, asked: Asked, rows: &[Row]) -> Result<(), AllocError> {
    for row in rows {
        let (with, text, wanted) = *row;
        let found = answer_of(Question { alloc, asked, with }, text)?;
        assert!(rt; found.as_str() == wanted, "{found} of {text}");
    }
    Ok(())
}
