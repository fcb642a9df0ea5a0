//! What a text is, or what is wrong with it first.
ghost use Rattle.std.specs.Prelude.{◌≡◌, IfOk, None, false, true};
ghost use Rattle.wac_ast.specs.Statements.{document_of};
ghost use Rattle.wac_ast_base.specs.Error.{told_by};
ghost use Rattle.wac_comments_layout.specs.Nesting.{too_deep};
ghost use Rattle.wac_first_error.specs.Findings.{IsDepth, IsFault, IsFinding, IsResolved, IsRule};
ghost use Rattle.wac_first_error.specs.Mentioned.{mentions_foreign};

use crate::parsing::parse_diagnostic;
use crate::reading::nested_too_deep;
use crate::resolving::resolution_diagnostic;
use crate::rules::{broken_rule, mentions_packages};
use std::alloc::{AllocError, Global};
use wac_ast::Document;
use wac_ast_base::Error;
use wac_comments_layout::too_deep;
use wac_diagnostics::Diagnostic;
use wac_lexer::SourceSpan;
use wac_printer::Page;
use wac_resolution_errors::Error as ResolutionError;

/// What a text is.
#[derive(Drop)]
pub enum Finding {
    /// A document, which was resolved where that was asked for.
    Document,
    /// A document that mentions foreign packages.
    Unresolved,
    /// Something else, or a document that breaks a rule.
    Rejected(Diagnostic),
}

/// What a text is, or what is wrong with it first.
pub fn find(alloc: Global, text: &str, resolve: bool) -> Result<Finding, AllocError>
    ensures { IfOk result (λ finding. IsFinding text.now resolve finding) }
{
    match too_deep(text) {
        Some(span) => find_depth(alloc, span),
        None => find_flat(alloc, text, resolve),
    }
}

/// What is wrong with a text whose brackets are nested too deeply.
fn find_depth(alloc: Global, span: SourceSpan) -> Result<Finding, AllocError>
    ensures { IfOk result (λ finding. IsDepth span finding) }
{
    match nested_too_deep(alloc, span) {
        Ok(diagnostic) => Ok(Finding::Rejected(diagnostic)),
        Err(_) => Err(AllocError),
    }
}

/// What a text is whose brackets aren't nested too deeply.
fn find_flat(alloc: Global, text: &str, resolve: bool) -> Result<Finding, AllocError>
    requires flat { too_deep text.now ≡ None }
    ensures { IfOk result (λ finding. IsFinding text.now resolve finding) }
{
    match Document::parse(alloc, text) {
        Ok(document) => find_in(
            alloc,
            Page {
                document: &document,
            },
            resolve,
        ),
        Err(error) => find_fault(alloc, &error),
    }
}

/// What is wrong with a text that is no document.
fn find_fault(alloc: Global, error: &Error) -> Result<Finding, AllocError>
    ensures { IfOk result (λ finding. IsFault (told_by error.now) finding) }
{
    match parse_diagnostic(alloc, error) {
        Ok(diagnostic) => Ok(Finding::Rejected(diagnostic)),
        Err(_) => Err(AllocError),
    }
}

/// What a document is, and which rule it breaks first where it is to be resolved.
fn find_in(alloc: Global, page: Page<'_, '_>, resolve: bool) -> Result<Finding, AllocError>
    ensures { IfOk result (λ finding. IsResolved (document_of page.entry) resolve finding) }
{
    let Page { document } = page;
    if !resolve {
        return Ok(Finding::Document);
    }
    match mentions_packages(alloc, Page { document }) {
        Ok(true) => Ok(Finding::Unresolved),
        Ok(false) => find_alone(alloc, Page { document }),
        Err(_) => Err(AllocError),
    }
}

/// What a document is that mentions no foreign package, or which rule it breaks first.
fn find_alone(alloc: Global, page: Page<'_, '_>) -> Result<Finding, AllocError>
    requires { mentions_foreign (document_of page) ≡ false }
    ensures { IfOk result (λ finding. IsResolved (document_of page.entry) true finding) }
{
    match broken_rule(alloc, page) {
        Ok(()) => Ok(Finding::Document),
        Err(error) => find_rule(alloc, &error),
    }
}

/// What is said of a document that breaks a rule.
fn find_rule(alloc: Global, error: &ResolutionError) -> Result<Finding, AllocError>
    ensures { IfOk result (λ finding. IsRule error.now finding) }
{
    match resolution_diagnostic(alloc, error) {
        Ok(diagnostic) => Ok(Finding::Rejected(diagnostic)),
        Err(_) => Err(AllocError),
    }
}
