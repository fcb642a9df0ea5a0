//! The resolver of a document.
ghost use Rattle.std.specs.Prelude.{◌≡◌, IfOk};
ghost use Rattle.wac_ast.specs.Statements.{document_of};
ghost use Rattle.wac_resolution.specs.Noted.{mentions_in};
ghost use Rattle.wac_resolution.specs.Packages.{AreFirst, OnlyTheseMatter};
ghost use Rattle.wac_resolution_rules.specs.Given.{rules_of};
ghost use Rattle.wac_resolution_rules.specs.Mentions.{mentions};
ghost use Rattle.wac_resolution.specs.Resolved.{in_resolution};
ghost use Rattle.wac_resolution.specs.Resolves.{IsKept, Resolves, ResolvesOver};

use crate::context::context;
use crate::keeping::keep_mentioned;
use crate::packages;
use crate::resolution::{Resolution, ResolutionResult};
use crate::steps::composed;
use indexmap::IndexMap;
use std::alloc::{AllocError, Global};
use std::marker::Model;
use wac_ast::Document;
use wac_ast::internals::Statements;
use wac_graph::{CompositionGraph, Package, PackageKey, Rules};
use wac_lexer::SourceSpan;
use wac_resolution_errors::Error;
use wac_resolution_state::Given;

/// A resolver of one document.
#[derive(Drop)]
pub struct AstResolver<'d, 'a> {
    document: &'d Document<'a>,
}

impl<'d, 'a> Model for AstResolver<'d, 'a> {
    ghost use Rattle.std.specs.Prelude.{[]};
    ghost use Rattle.std.specs.Coded.{codes};
    ghost use Rattle.wac_ast_types.specs.contracts.types.«Type» as ty;
    ghost use Rattle.wac_ast_statements.specs.contracts.expr.PrimaryExpr as primary;
    ghost use mir.Syntax.{erased};
    ghost use Rattle.wac_ast.specs.declared.document.Document.{Document};

    ghost Value = { Document };

    ghost coded = { Prim.hlevel (codes, (ty.the_row (record { mir = erased; lft = [] })).coded, (primary.the_row (record { mir = erased; lft = [] })).coded) };

    ghost view = { λ r. r.document.now };

    ghost invariant = { λ r. Unit {0} };
}

impl<'d, 'a> AstResolver<'d, 'a> {
    /// The resolver of a document.
    pub fn new(document: &'d Document<'a>) -> Self
        ensures { result ≡ document.now }
    {
        AstResolver { document }
    }

    /// The packages that the document mentions, each with the place of its first mention.
    fn first_mentions(self, alloc: Global) -> Result<IndexMap<PackageKey, SourceSpan>, AllocError>
        ensures first { IfOk result (λ m. AreFirst (mentions (document_of self.entry)) (mentions_in m.entries)) }
        ensures matter { IfOk result (λ m. OnlyTheseMatter (document_of self.entry) (mentions_in m.entries)) }
    {
        let AstResolver { document } = self;
        packages(alloc, document)
    }

    /// Those of the packages that the document mentions. The others are dropped.
    fn mentioned_packages(
        self,
        alloc: Global,
        packages: IndexMap<PackageKey, Package>,
    ) -> Result<IndexMap<PackageKey, Package>, AllocError>
        ensures { IfOk result (λ kept. IsKept (document_of self.entry) packages.entries kept.entries) }
    {
        match self.first_mentions(alloc) {
            Ok(mentioned) => Ok(keep_mentioned(packages, &mentioned)),
            Err(error) => Err(error),
        }
    }

    /// The graph of the document with all of these packages.
    fn graph_over<R: Rules>(
        self,
        alloc: Global,
        packages: &IndexMap<PackageKey, Package>,
        rules: &R,
    ) -> ResolutionResult<CompositionGraph>
        ensures { ResolvesOver packages.now.entries (rules_of R.Rules rules.now) (document_of self.entry)
            (in_resolution self.entry result) }
    {
        let document = self.document;
        let directive = &document.directive;
        let context = context(directive, packages);
        let given = Given {
            context: &context,
            rules,
        };
        let statements = Statements {
            all: &document.statements,
        };
        composed(statements, alloc, &given, &directive.targets)
    }

    /// The graph of the document, as `resolve` gives it in a resolution.
    pub(crate) fn resolve_graph<R: Rules>(
        self,
        alloc: Global,
        packages: IndexMap<PackageKey, Package>,
        rules: &R,
    ) -> ResolutionResult<CompositionGraph>
        ensures { Resolves packages.entries (rules_of R.Rules rules.now) self.entry (in_resolution self.entry result) }
    {
        let document = self.document;
        match AstResolver::new(document).mentioned_packages(alloc, packages) {
            Ok(kept) => AstResolver::new(document).graph_over(alloc, &kept, rules),
            Err(error) => Err(Error::Memory(error)),
        }
    }

    /// Resolves the document with packages and rules.
    ///
    /// The packages are dropped at the end; those that the document mentions are copied into the graph, and no others.
    /// The document and the rules stay as they are.
    pub fn resolve<R: Rules>(
        self,
        alloc: Global,
        packages: IndexMap<PackageKey, Package>,
        rules: &R,
    ) -> ResolutionResult<Resolution<'d, 'a>>
        // It is the resolution that the document describes, or the first rule that it breaks, unless memory runs out.
        ensures { Resolves packages.entries (rules_of R.Rules rules.now) self.entry result }
    {
        let document = self.document;
        match AstResolver::new(document).resolve_graph(alloc, packages, rules) {
            Ok(graph) => Ok(Resolution::new(document, graph)),
            Err(error) => Err(error),
        }
    }
}
