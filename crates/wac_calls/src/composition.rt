// The graph of a document, with packages that are handed over.
ghost use Rattle.std.specs.Prelude.{IsUtf8};
ghost use Rattle.wac_calls.specs.Compositions.{AnsweredGraph, ComesToGraph, IsOfDocument, IsOfPackage, SaysGraph, SaysGraphWith, SaysUngraphed};

use crate::answer::{Answer, tell};
use crate::diagnostics::{rejected, unparsed};
use crate::error::GraphError;
use crate::graphs::graph_json;
use crate::handed_over::{ComponentFault, HandedOver, handed_over};
use crate::nesting::first_deeper;
use crate::outcome::Outcome;
use crate::packages::{PackagesError, package_frames};
use std::alloc::Global;
use wac_declared_packages::DeclarationFault;
use wac_first_error::resolution_diagnostic;
use wac_lexer::SourceSpan;
use wac_resolution::Error as ResolutionError;

/// A document, and the packages that it may mention.
#[derive(Clone, Copy)]
pub struct Composition<'t> {
    /// The bytes of the document.
    pub text: &'t [u8],
    /// Frames, each a length of eight bytes, lowest first, and so many bytes: documents that declare packages, and
    /// components, each after a frame with the name of its package, as `a:b@1.0.0`. Packages are in any order.
    pub packages: &'t [u8],
}

/// Puts into a room the graph that a document describes by the component model's rules, as one JSON object on a line,
/// or else into the room for a message why there is none. It is else as `call`.
///
/// ```text
/// let composition = Composition { text: b"package a:b; import y: func();", packages: b"" };
/// graph(alloc, DEFAULT_LIMIT, composition, &mut out, &mut message)        // out: {"nodes":[{"id":0,"kind":"import",..
/// ```
pub fn graph(
    alloc: Global,
    limit: usize,
    composition: Composition<'_>,
    out: &mut [u8],
    message: &mut [u8],
) -> Answer
    ensures { AnsweredGraph limit composition.entry result out.old out.new message.old message.new }
{
    let outcome = outcome_of(alloc, limit, composition.text, composition.packages);
    tell(&outcome, out, message)
}

/// What the graph of bytes comes to.
fn outcome_of(alloc: Global, limit: usize, text: &[u8], packages: &[u8]) -> Outcome
    ensures { ComesToGraph limit text.now packages.now result }
{
    match str::from_utf8(text) {
        Ok(source) => outcome_of_text(alloc, limit, source, packages),
        Err(_) => Outcome::NotUtf8,
    }
}

/// What the graph of a text comes to.
fn outcome_of_text(alloc: Global, limit: usize, source: &str, packages: &[u8]) -> Outcome
    requires { IsUtf8 source.now }
    ensures { ComesToGraph limit source.now packages.now result }
{
    match first_deeper(source, limit) {
        Some(span) => Outcome::NestedTooDeep { span },
        None => graphed(alloc, limit, source, packages),
    }
}

/// What the graph of a text comes to whose brackets are nested no deeper than the limit.
fn graphed(alloc: Global, limit: usize, source: &str, packages: &[u8]) -> Outcome
    ensures { SaysGraphWith limit source.now packages.now result }
{
    match package_frames(alloc, packages, limit) {
        Ok(frames) => graphed_with(alloc, source, frames.as_slice()),
        Err(error) => bad_packages(alloc, error),
    }
}

/// What the graph of a text comes to, with the packages of frames.
fn graphed_with(alloc: Global, source: &str, frames: &[&[u8]]) -> Outcome
    ensures { SaysGraph source.now result }
{
    match handed_over(alloc, frames) {
        Ok(handed) => graphed_over(alloc, source, &handed),
        Err(fault) => undecoded(fault),
    }
}

/// What the graph of a text comes to, with the packages that are handed over.
fn graphed_over(alloc: Global, source: &str, handed: &HandedOver<'_>) -> Outcome
    ensures { SaysGraph source.now result }
{
    match graph_json(alloc, source, handed) {
        Ok(line) => Outcome::Written(line),
        Err(error) => ungraphed(alloc, handed, error),
    }
}

/// What a graph comes to that there isn't.
fn ungraphed(alloc: Global, handed: &HandedOver<'_>, why: GraphError) -> Outcome
    ensures { SaysUngraphed why result }
{
    match why {
        GraphError::Parse(error) => unparsed(alloc, &error),
        GraphError::Resolution(error) => unresolved(alloc, &error),
        GraphError::Package(fault) => undeclared(alloc, handed, &fault),
        GraphError::Component(fault) => undecoded(fault),
        GraphError::Memory(_) => Outcome::OutOfMemory,
    }
}

/// What is said of a document that breaks a rule.
fn unresolved(alloc: Global, error: &ResolutionError) -> Outcome
    ensures { IsOfDocument result }
{
    match resolution_diagnostic(alloc, error) {
        Ok(diagnostic) => rejected(diagnostic),
        Err(_) => Outcome::OutOfMemory,
    }
}

/// What is said of a text that declares no package.
fn undeclared(alloc: Global, handed: &HandedOver<'_>, fault: &DeclarationFault) -> Outcome
    ensures { IsOfPackage result }
{
    let error = &fault.error;
    let place = handed.place_of(fault.text);
    let span = match error.span() {
        Some(span) => SourceSpan::new(place.offset().saturating_add(span.offset()), span.len()),
        None => place,
    };
    match format!(in alloc; "{error}") {
        Ok(message) => Outcome::BadPackage { span, message },
        Err(_) => Outcome::OutOfMemory,
    }
}

/// What is said of a component that makes no package.
fn undecoded(fault: ComponentFault) -> Outcome
    ensures { IsOfPackage result }
{
    match fault {
        ComponentFault::Bad { span, message } => Outcome::BadPackage { span, message },
        ComponentFault::Memory => Outcome::OutOfMemory,
    }
}

/// What is said of a buffer that has no packages.
fn bad_packages(alloc: Global, error: PackagesError) -> Outcome
    ensures { IsOfPackage result }
{
    let Some(span) = error.span() else {
        return Outcome::OutOfMemory;
    };
    match format!(in alloc; "{error}") {
        Ok(message) => Outcome::BadPackage { span, message },
        Err(_) => Outcome::OutOfMemory,
    }
}
