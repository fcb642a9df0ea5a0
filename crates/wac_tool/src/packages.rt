//! Listing the packages that a document mentions.
ghost use Rattle.std.specs.Prelude.{◌≡◌, ◌+◌, ◌++◌, IfOk, IfErr, IsUtf8, OnOk, string_bytes};
ghost use Rattle.wac_ast.specs.Statements.{document_of};
ghost use Rattle.wac_graph.specs.Package.{key_of};
ghost use Rattle.wac_resolution.specs.Noted.{mentions_in};
ghost use Rattle.wac_tool.specs.Running.{Answers, Rejects, Writes, input_failures, output_failures, mentioned_lines, package_line, package_lines};
ghost use Rattle.wac_tool.specs.declared.command.Command.TheVariants as commands;

use crate::error::RunError;
use crate::refusing::refusal;
use indexmap::IndexMap;
use std::alloc::{AllocError, Global};
use wac_ast::Document;
use wac_graph::PackageKey;
use wac_lexer::{Sink, SourceSpan, put_all};
use wac_printer::Page;
use wac_resolution::packages;

/// Writes a line for each package that the document of a source mentions.
pub(crate) fn write_packages<S: Sink>(
    alloc: Global,
    source: &str,
    writer: &mut S,
) -> Result<(), RunError>
    requires { IsUtf8 source.now }
    ensures answers { Answers commands.Packages result source.now (S.bytes writer.old) (S.bytes writer.new) }
    ensures input { input_failures result ≡ 0 }
    ensures output { S.failures writer.new ≡ S.failures writer.old + output_failures result }
{
    let lines = lines_of(alloc, source)?;
    if put_all(writer, lines.as_bytes()) {
        Ok(())
    } else {
        Err(RunError::Output)
    }
}

/// A line for each package that the document of a source mentions.
fn lines_of(alloc: Global, source: &str) -> Result<String, RunError>
    ensures ok { IfOk result (λ lines. Writes commands.Packages source.now (string_bytes lines)) }
    ensures err { IfErr result (λ error. Rejects commands.Packages source.now error) }
{
    let document = match Document::parse(alloc, source) {
        Ok(document) => document,
        Err(error) => return Err(refusal(alloc, error)),
    };
    let page = Page {
        document: &document,
    };
    Ok(mentioned(alloc, page)?)
}

/// A line for each package that a document mentions.
fn mentioned(alloc: Global, page: Page<'_, '_>) -> Result<String, AllocError>
    ensures { IfOk result (λ lines. string_bytes lines ≡ mentioned_lines (document_of page.entry)) }
{
    let Page { document } = page;
    let mentioned = packages(alloc, document)?;
    keys(alloc, &mentioned)
}

/// A line for each key.
fn keys(alloc: Global, packages: &IndexMap<PackageKey, SourceSpan>) -> Result<String, AllocError>
    ensures { IfOk result (λ lines. string_bytes lines ≡ package_lines (mentions_in packages.now.entries)) }
{
    let mut lines = String::new(alloc);
    for (key, _) in packages.iter() {
        push_key(&mut lines, key)?;
    }
    Ok(lines)
}

/// Appends the line of a key.
fn push_key(lines: &mut String, key: &PackageKey) -> Result<(), AllocError>
    ensures { OnOk result (string_bytes lines.new ≡ string_bytes lines.old ++ package_line (key_of key.now)) }
{
    lines.push_str(key.name.as_str())?;
    if let Some(version) = &key.version {
        lines.push('@')?;
        lines.push_str(version.as_str())?;
    }
    lines.push('\n')?;
    Ok(())
}
