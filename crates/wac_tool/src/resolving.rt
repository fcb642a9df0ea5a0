//! Resolving a document that is given no package.
ghost use Rattle.std.specs.Prelude.{◌≡◌, ◌+◌, IfOk, IfErr, IsUtf8};
ghost use Rattle.wac_ast.specs.Statements.{document_of};
ghost use Rattle.wac_tool.specs.Resolving.{IsErrorOf, IsGraphOf, IsRejection, HasGraph};
ghost use Rattle.wac_tool.specs.Running.{Answers, Rejects, input_failures, output_failures};
ghost use Rattle.wac_tool.specs.declared.command.Command.TheVariants.{Resolve};

use crate::error::RunError;
use crate::refusing::refusal;
use indexmap::IndexMap;
use std::alloc::{AllocError, Global};
use wac_ast::Document;
use wac_graph::CompositionGraph;
use wac_lexer::Sink;
use wac_resolution::{AstResolver, Error};
use wac_tool_graphs::{SameRules, write_graph};

/// Writes the lines of the graph that the document of a source describes.
pub(crate) fn write_resolved<S: Sink>(
    alloc: Global,
    source: &str,
    writer: &mut S,
) -> Result<(), RunError>
    requires { IsUtf8 source.now }
    ensures answers { Answers Resolve result source.now (S.bytes writer.old) (S.bytes writer.new) }
    ensures input { input_failures result ≡ 0 }
    ensures output { S.failures writer.new ≡ S.failures writer.old + output_failures result }
{
    let graph = graph_of(alloc, source)?;
    match write_graph(&graph, writer) {
        Ok(()) => Ok(()),
        Err(_) => Err(RunError::Output),
    }
}

/// The graph that the document of a source describes.
fn graph_of(alloc: Global, source: &str) -> Result<CompositionGraph, RunError>
    ensures ok { IfOk result (λ graph. HasGraph source.now graph) }
    ensures err { IfErr result (λ error. Rejects Resolve source.now error) }
{
    match Document::parse(alloc, source) {
        Ok(document) => resolved(alloc, AstResolver::new(&document)),
        Err(error) => Err(refusal(alloc, error)),
    }
}

/// The graph that a document describes.
fn resolved<'d, 'a: 'd>(
    alloc: Global,
    resolver: AstResolver<'d, 'a>,
) -> Result<CompositionGraph, RunError>
    ensures ok { IfOk result (λ graph. IsGraphOf (document_of resolver.entry) graph) }
    ensures err { IfErr result (λ error. IsErrorOf (document_of resolver.entry) error) }
{
    match resolver.resolve(alloc, IndexMap::new(alloc), &SameRules::new(alloc)) {
        Ok(resolution) => Ok(resolution.into_graph()),
        Err(error) => Err(rejection(alloc, error)),
    }
}

/// What is returned for a document that breaks a rule.
fn rejection(alloc: Global, error: Error) -> RunError
    ensures { IsRejection error result }
{
    match error {
        Error::Memory(_) => RunError::Memory(AllocError),
        error => {
            let span = error.span();
            match format!(in alloc; "{error}") {
                Ok(text) => RunError::Refused { span, text },
                Err(_) => RunError::Memory(AllocError),
            }
        }
    }
}
