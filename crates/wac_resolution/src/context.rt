//! What a document is resolved in.
ghost use Rattle.std.specs.Prelude.{◌≡◌, option_map};
ghost use Rattle.wac_ast_statements.specs.Statements.{directive_of};
ghost use Rattle.wac_ast_grammar.specs.Version.{version_text};
ghost use Rattle.wac_resolution_state.specs.Context.{packages_in};
ghost use Rattle.wac_resolution.specs.Resolved.{by_key};

use indexmap::IndexMap;
use wac_ast::PackageDirective;
use wac_graph::{Package, PackageKey};
use wac_resolution_state::Context;

/// The text of the version, after `@`.
fn version(text: &str) -> Option<&str>
    ensures { option_map (λ t. t.now) result ≡ version_text text.now }
{
    let (_, version) = text.split_once('@')?;
    Some(version)
}

/// What the document of a directive is resolved in, with these packages.
pub(crate) fn context<'s>(
    directive: &PackageDirective<'s>,
    packages: &'s IndexMap<PackageKey, Package>,
) -> Context<'s>
    ensures own { result.own.now ≡ (directive_of directive.now).package_name.name }
    ensures version { option_map (λ v. v.now) result.version
        ≡ version_text (directive_of directive.now).package_name.string }
    ensures packages { packages_in result ≡ by_key packages.now.entries }
{
    Context {
        own: directive.package.name,
        version: version(directive.package.string),
        packages,
    }
}
