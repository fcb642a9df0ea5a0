//! The packages that a document mentions.
ghost use Rattle.std.specs.Prelude.{◌≡◌, IfOk, map};
ghost use Rattle.wac_ast.specs.Statements.{document_of, statement_of};
ghost use Rattle.wac_ast_statements.specs.Statements.{directive_of};
ghost use Rattle.wac_resolution_rules.specs.Mentions.{mentions};
ghost use Rattle.wac_resolution.specs.Ascending.{AscendInTexts};
ghost use Rattle.wac_resolution.specs.FirstMentions.{first_mentions};
ghost use Rattle.wac_resolution.specs.Noted.{mentioned_by, mentions_in};
ghost use Rattle.wac_resolution.specs.Packages.{AreFirst, OnlyTheseMatter};

use crate::mention_laws::{mentions_stand_in_order, only_first_mentions_matter};
use crate::mentions::Mentions;
use crate::mentions_in_statements::{all_statements, target};
use indexmap::IndexMap;
use std::alloc::{AllocError, Global};
use wac_ast::internals::Statements;
use wac_ast::{Document, PackageDirective};
use wac_graph::PackageKey;
use wac_lexer::SourceSpan;

/// What the directive and the statements of a document mention, in their order.
fn mentioned(
    statements: Statements<'_, '_>,
    alloc: Global,
    directive: &PackageDirective<'_>,
) -> Result<IndexMap<PackageKey, SourceSpan>, AllocError>
    ensures { IfOk result (λ m. mentions_in m.entries ≡ first_mentions
        (mentioned_by (directive_of directive.now) (map statement_of statements.entry))) }
{
    let mut mentions = Mentions::new(alloc, directive.package.name);
    target(&mut mentions, &directive.targets)?;
    all_statements(statements, &mut mentions)?;
    Ok(mentions.into_first())
}

/// The foreign packages that a document mentions, in order of their first mentions, each with the place of the first one.
///
/// A package is mentioned by the target, by the path of an import, a `use`, an `include` or an item of a world, and by the name after a
/// `new`. The document's own package is never listed, whatever the version. Two versions of a package are two packages.
/// The place is that of the package's name: of a path the name before the first `/`, of a `new` the name with its version.
/// The error is that memory ran out.
///
/// ```text
/// package a:b; import x: f:g/h; let y = new c:d@1.0.0 { ... };      f:g at 23+3, c:d@1.0.0 at 42+9
/// ```
pub fn packages(
    alloc: Global,
    document: &Document<'_>,
) -> Result<IndexMap<PackageKey, SourceSpan>, AllocError>
    // They are the first mentions of the document, in order.
    ensures listed { IfOk result (λ m. mentions_in m.entries ≡ first_mentions (mentions (document_of document.now))) }
    // Each mentioned package is listed once, with the place of its first mention, and no other one.
    ensures first { IfOk result (λ m. AreFirst (mentions (document_of document.now)) (mentions_in m.entries)) }
    // Of the document of a text their places ascend: the list is in the order of its spans.
    ensures order { IfOk result (λ m. AscendInTexts (document_of document.now) (mentions_in m.entries)) }
    // Whatever packages are passed to resolving, no others matter.
    ensures matter { IfOk result (λ m. OnlyTheseMatter (document_of document.now) (mentions_in m.entries)) }
{
    only_first_mentions_matter();
    mentions_stand_in_order();
    let directive = &document.directive;
    let statements = Statements {
        all: &document.statements,
    };
    mentioned(statements, alloc, directive)
}
