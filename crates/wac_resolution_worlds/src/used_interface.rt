//! What a path or an identifier names, as an interface.
ghost use Rattle.std.specs.Prelude.{◌≡◌, IfOk};
ghost use Rattle.wac_ast_uses.specs.Uses.{use_path_of};
ghost use Rattle.wac_graph.specs.Graph.{Parts};
ghost use Rattle.wac_graph.specs.Means.{means};
ghost use Rattle.wac_graph.specs.Origin.{Numbering};
ghost use Rattle.wac_resolution_rules.specs.BrokenBodies.{IsNoInterface};
ghost use Rattle.wac_resolution_rules.specs.Errors.{ErrorSays};
ghost use Rattle.wac_resolution_rules.specs.Spans.{use_path_name, use_path_span};

use std::alloc::Global;
use wac_ast_uses::UsePath;
use wac_graph::{InterfaceId, ItemKind, Type};
use wac_lexer::SourceSpan;
use wac_resolution_errors::Error;

/// The text by which an interface is named.
pub(crate) fn path_name<'x, 'a>(path: &'x UsePath<'a>) -> &'a str
    ensures { result.now ≡ use_path_name (use_path_of path.now) }
{
    match path {
        UsePath::Package(path) => path.string,
        UsePath::Ident(id) => id.string,
    }
}

/// Where that text is.
pub(crate) fn path_span(path: &UsePath<'_>) -> SourceSpan
    ensures { result ≡ use_path_span (use_path_of path.now) }
{
    match path {
        UsePath::Package(path) => path.span,
        UsePath::Ident(id) => id.span,
    }
}

/// The interface that a kind is. `name` and `span` are for the error.
#[tactic(auto, using(crate::proofs::UsedInterfaces::interfaces_found))]
pub(crate) fn interface_of(
    alloc: Global,
    kind: ItemKind,
    name: &str,
    span: SourceSpan,
) -> Result<InterfaceId, Error>
    ensures ok { IfOk result (λ i. kind ≡ ItemKind.Ty (Type.Interface i)) }
    ensures err { ErrorSays result (λ e. (numbering : Numbering) (g : Parts)
        → IsNoInterface (means numbering g kind) name.now span e) }
{
    match kind {
        ItemKind::Ty(Type::Interface(interface)) => Ok(interface),
        other => Err(Error::NotInterface {
            name: String::from_str(alloc, name)?,
            kind: other.desc(),
            span,
        }),
    }
}
