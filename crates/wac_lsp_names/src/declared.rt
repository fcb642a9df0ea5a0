//! What is said of what another text declares.
ghost use Rattle.std.specs.Prelude.{◌≡◌, IfNone, IfOk, IfSome, None};
ghost use Rattle.wac_lsp_names.specs.Occurrences.{IsFoundAt};

use crate::hover::{Hover, docs_before, hover_at};
use std::alloc::{AllocError, Global};
use wac_lexer::SourceSpan;

/// What a text has in a span.
fn text_at(text: &str, span: SourceSpan) -> &str {
    let end = span.offset().saturating_add(span.len());
    text.get(span.offset()..end).unwrap_or("")
}

/// What is said of the package of a name: the beginning of its text, and its documentation.
fn package_hover(alloc: Global, text: &str, name: &str, at: SourceSpan) -> Result<Hover, AllocError>
    ensures { IfOk result (λ hover. hover.at ≡ at) }
{
    let declaration = format!(in alloc; "package {name};")?;
    let docs = docs_before(alloc, text, 0)?;
    Ok(Hover {
        at,
        declaration,
        docs,
    })
}

/// The same of a name at another place.
fn moved(hover: Hover, at: SourceSpan) -> Hover
    ensures { result.at ≡ at }
{
    let Hover {
        at: _,
        declaration,
        docs,
    } = hover;
    Hover {
        at,
        declaration,
        docs,
    }
}

/// What is said of a name at a place of some text, which a text declares in a span: of the name of its package, and of any
/// other one as [`hover_at`](crate::hover_at) says it there. The error is that memory ran out.
///
/// ```text
/// declared_hover(alloc, "package c:d; interface i { f: func(); }", SourceSpan::new(27, 1), at)?;    // `f: func();`
/// declared_hover(alloc, "package c:d; interface i { f: func(); }", SourceSpan::new(8, 3), at)?;     // `package c:d;`
/// ```
#[tactic(auto, using(crate::proofs::Finding::unfound))]
pub fn declared_hover(
    alloc: Global,
    text: &str,
    declared: SourceSpan,
    at: SourceSpan,
) -> Result<Option<Hover>, AllocError>
    // It is said of the place that was given.
    ensures place { IfOk result (λ hover. IfSome hover (λ h. h.at ≡ at)) }
    // Nothing is said only where `occurrences_at` finds no name at the beginning of the span.
    ensures none { IfOk result (λ hover. IfNone hover (IsFoundAt text.now declared.offset None)) }
{
    let name = text_at(text, declared);
    if name.contains(':') {
        return Ok(Some(package_hover(alloc, text, name, at)?));
    }
    match hover_at(alloc, text, declared.offset())? {
        Some(hover) => Ok(Some(moved(hover, at))),
        None => Ok(None),
    }
}
