//! The packages that matter.
ghost use Rattle.std.specs.Prelude.{◌≡◌};
ghost use Rattle.wac_graph.specs.Package.{key_of};
ghost use Rattle.wac_resolution.specs.Noted.{mentions_in};
ghost use Rattle.wac_resolution_rules.specs.Mentions.{is_mentioned, kept};
ghost use Rattle.wac_resolution.specs.Resolved.{by_key};

use indexmap::IndexMap;
use wac_graph::{Package, PackageKey};
use wac_lexer::SourceSpan;

/// Keeps the packages that are mentioned, in their order. The others are dropped.
pub(crate) fn keep_mentioned(
    mut packages: IndexMap<PackageKey, Package>,
    mentioned: &IndexMap<PackageKey, SourceSpan>,
) -> IndexMap<PackageKey, Package>
    ensures { by_key result.entries ≡ kept (mentions_in mentioned.now.entries) (by_key packages.entries) }
{
    packages.retain(
        |key: &PackageKey, _package: &mut Package| -> bool
            ensures { (result ≡ is_mentioned (mentions_in mentioned.entry.now.entries) (key_of key.now))
                × (_package.new ≡ _package.old) }
        { mentioned.contains_key(key) },
    );
    packages
}
