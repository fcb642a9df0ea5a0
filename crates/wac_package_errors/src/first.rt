//! The first error of a document that is resolved with packages.
ghost use Rattle.std.specs.Prelude.{IfOk};
ghost use Rattle.wac_package_errors.specs.Composed.{IsDocumentOrRejected};

use crate::bare::{Bare, first_without_world, no_world};
use crate::context::{Context, target_end};
use crate::helps::help_with;
use crate::known::KnownPackages;
use crate::resolving::graph_of;
use crate::texts::end_of;
use crate::wit::syntax_diagnostic;
use indexmap::IndexMap;
use std::alloc::{AllocError, Global};
use wac_ast::Document;
use wac_ast::internals::Statements;
use wac_component_rules::ComponentRules;
use wac_diagnostics::Diagnostic;
use wac_first_error::resolution_diagnostic;
use wac_graph::{CompositionGraph, PackageKey};
use wac_lexer::SourceSpan;
use wac_package_names::find_instantiations;
use wac_printer::Page;
use wac_resolution::packages;
use wac_resolution_errors::Error;

/// What a text is.
#[derive(Drop)]
pub enum Composed {
    /// A document that was resolved: its graph.
    Resolved(CompositionGraph),
    /// A document that mentions a package that has an error, and so wasn't resolved.
    Unresolved,
    /// Something else, or a document that breaks a rule: what is wrong first.
    Rejected(Diagnostic),
}

/// The first error of a text, which is resolved with known packages and by the component model's rules.
///
/// What is tested, in this order: that it is a document; that it breaks no rule of resolving, and that no package is
/// instantiated of which no world is chosen, statement by statement; what the target asks for. A document that mentions
/// a package with an error is tested up to parsing. Brackets may not be nested deeper than the stack is:
/// `flat_text` of `wac_composition` rejects such texts. The error is that memory ran out.
pub fn first_error_with(
    alloc: Global,
    text: &str,
    known: KnownPackages<'_>,
) -> Result<Composed, AllocError>
    // What isn't rejected is a document.
    ensures { IfOk result (λ composed. IsDocumentOrRejected text.now composed) }
{
    match Document::parse(alloc, text) {
        Ok(document) => judged(
            Page {
                document: &document,
            },
            alloc,
            text,
            known,
        ),
        Err(error) => unparsed(alloc, text, &error),
    }
}

/// What is said of a text that is no document.
fn unparsed(alloc: Global, text: &str, error: &wac_ast::Error) -> Result<Composed, AllocError>
    ensures { IfOk result (λ composed. IsDocumentOrRejected text.now composed) }
{
    match syntax_diagnostic(alloc, text, error) {
        Ok(diagnostic) => Ok(Composed::Rejected(diagnostic)),
        Err(refused) => Err(refused),
    }
}

/// The first error of a document.
fn judged(
    page: Page<'_, '_>,
    alloc: Global,
    text: &str,
    known: KnownPackages<'_>,
) -> Result<Composed, AllocError> {
    let Page { document } = page;
    match packages(alloc, document) {
        Ok(mentioned) => {
            if known.has_faulty(&mentioned) {
                Ok(Composed::Unresolved)
            } else {
                mentioning(Page { document }, alloc, text, known, &mentioned)
            }
        }
        Err(refused) => Err(refused),
    }
}

/// The rule that a document breaks first, which mentions packages.
fn mentioning(
    page: Page<'_, '_>,
    alloc: Global,
    text: &str,
    known: KnownPackages<'_>,
    mentioned: &IndexMap<PackageKey, SourceSpan>,
) -> Result<Composed, AllocError> {
    let Page { document } = page;
    let statements = Statements {
        all: &document.statements,
    };
    match find_instantiations(alloc, statements) {
        Ok(news) => {
            let context = Context {
                text,
                target_start: end_of(document.directive.package.span),
                target_end: target_end(&document.directive),
                mentioned,
                news: &news,
                known,
            };
            resolved(Page { document }, alloc, context)
        }
        Err(refused) => Err(refused),
    }
}

/// The rule that a document breaks first.
fn resolved(
    page: Page<'_, '_>,
    alloc: Global,
    context: Context<'_>,
) -> Result<Composed, AllocError> {
    let graph = graph_of(page, alloc, context, &ComponentRules::new(alloc));
    outcome_of(alloc, context, graph)
}

/// What a document is, by its graph or the rule that it breaks first.
fn outcome_of(
    alloc: Global,
    context: Context<'_>,
    graph: Result<CompositionGraph, Error>,
) -> Result<Composed, AllocError> {
    match graph {
        Ok(graph) => with_worlds(alloc, context, graph),
        Err(error) => rejected(alloc, context, &error),
    }
}

/// The graph, unless a package without a world is instantiated.
fn with_worlds(
    alloc: Global,
    context: Context<'_>,
    graph: CompositionGraph,
) -> Result<Composed, AllocError> {
    match first_without_world(context) {
        None => Ok(Composed::Resolved(graph)),
        Some(bare) => rejected_world(alloc, &bare),
    }
}

/// What is said of an error of resolving, or of a package without a world that is instantiated before it.
fn rejected(alloc: Global, context: Context<'_>, error: &Error) -> Result<Composed, AllocError> {
    match first_without_world(context) {
        None => rejected_rule(alloc, context, error),
        Some(bare) => {
            if is_before(context, error, bare.place) {
                rejected_rule(alloc, context, error)
            } else {
                rejected_world(alloc, &bare)
            }
        }
    }
}

/// What is said of a package without a world.
fn rejected_world(alloc: Global, bare: &Bare<'_>) -> Result<Composed, AllocError> {
    Ok(Composed::Rejected(no_world(alloc, bare)?))
}

/// What is said of an error of resolving.
fn rejected_rule(
    alloc: Global,
    context: Context<'_>,
    error: &Error,
) -> Result<Composed, AllocError> {
    Ok(Composed::Rejected(diagnostic_with_help(alloc, context, error)?))
}

/// Whether an error is that of a statement before a place, or no memory. The target is looked at last.
fn is_before(context: Context<'_>, error: &Error, place: SourceSpan) -> bool {
    match error {
        Error::Memory(_) => true,
        Error::ImportNotInTarget { .. } | Error::TargetMismatch { .. } => false,
        _ => match error.span() {
            Some(span) => context.target_end <= span.offset() && span.offset() < place.offset(),
            None => false,
        },
    }
}

/// What is said of an error of resolving with packages.
fn diagnostic_with_help(
    alloc: Global,
    context: Context<'_>,
    error: &Error,
) -> Result<Diagnostic, AllocError> {
    let mut diagnostic = resolution_diagnostic(alloc, error)?;
    if diagnostic.help.is_none() {
        diagnostic.help = help_with(alloc, error, context)?;
    }
    Ok(diagnostic)
}
