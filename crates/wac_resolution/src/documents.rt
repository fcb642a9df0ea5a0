//! Resolving a document, in one call.
ghost use Rattle.wac_resolution_rules.specs.Given.{rules_of};
ghost use Rattle.wac_resolution.specs.Resolved.{in_resolution};
ghost use Rattle.wac_resolution.specs.Resolves.{Resolves};

use crate::resolution::{Resolution, ResolutionResult};
use crate::resolver::AstResolver;
use indexmap::IndexMap;
use std::alloc::Global;
use wac_ast::Document;
use wac_graph::{CompositionGraph, Package, PackageKey, Rules};

/// Resolves a document with the packages that it may mention and with rules.
///
/// The packages are dropped at the end; those that the document mentions are copied into the graph, and no others. The
/// document and the rules stay as they are. An error names a rule and its place in bytes, or says that memory ran out.
///
/// ```text
/// package a:b; import x: func(); export x as "y";     one node, exported as `y`
/// package a:b; export x;                              undefined name `x`, at 20+1
/// ```
pub fn resolve<'d, 'a, R: Rules>(
    alloc: Global,
    document: &'d Document<'a>,
    packages: IndexMap<PackageKey, Package>,
    rules: &R,
) -> ResolutionResult<Resolution<'d, 'a>>
    // It is the resolution that the document describes, or the first rule that it breaks, unless memory runs out.
    ensures { Resolves packages.entries (rules_of R.Rules rules.now) document.now result }
{
    AstResolver::new(document).resolve(alloc, packages, rules)
}

/// The graph that a document describes, for those who don't need the resolution that `resolve` returns.
///
/// The packages are dropped at the end, and the document and the rules stay as they are, as in `resolve`.
pub fn resolve_graph<R: Rules>(
    alloc: Global,
    document: &Document<'_>,
    packages: IndexMap<PackageKey, Package>,
    rules: &R,
) -> ResolutionResult<CompositionGraph>
    // With the document beside it, the graph is the document's resolution, and an error is one of `resolve`.
    ensures { Resolves packages.entries (rules_of R.Rules rules.now) document.now (in_resolution document.now result) }
{
    AstResolver::new(document).resolve_graph(alloc, packages, rules)
}
