//! Texts that declare packages, and the worlds that are chosen for these.
ghost use Rattle.std.specs.Prelude.{◌≡◌, option_map, slice_get};
ghost use Rattle.wac_graph.specs.Package.{key_of};
ghost use Rattle.wac_declared_packages.specs.Together.{found, now_of, world_chosen};

use indexmap::IndexMap;
use wac_graph::PackageKey;

/// Texts that declare packages, and the worlds that are chosen for these.
#[derive(Clone, Copy)]
pub struct Sources<'t> {
    pub texts: &'t [&'t str],
    /// The names of worlds, by the packages for which they are chosen.
    pub worlds: &'t IndexMap<PackageKey, String>,
}

/// The text of a number.
#[tactic(auto, using(crate::proofs::Declares::text_found, crate::proofs::Declares::text_missing))]
pub(crate) fn text_at<'t>(sources: &Sources<'t>, number: usize) -> Option<&'t str>
    ensures { option_map (λ t. t.now) result ≡ slice_get (now_of sources.now.texts.now) number }
{
    match sources.texts.get(number) {
        Some(text) => Some(*text),
        None => None,
    }
}

/// The name of a world that is stored under a key.
fn world_name<'t>(sources: &Sources<'t>, key: &PackageKey) -> Option<&'t String>
    ensures { option_map (λ s. s.now) result ≡ found key.now sources.now.worlds.now.entries }
{
    sources.worlds.get(key)
}

/// The world that is chosen for a package, if one is.
pub(crate) fn world_of<'t>(sources: &Sources<'t>, key: &PackageKey) -> Option<&'t str>
    ensures { option_map (λ s. s.now) result ≡ world_chosen (key_of key.now) sources.now.worlds.now.entries }
{
    match world_name(sources, key) {
        None => None,
        Some(world) => Some(world.as_str()),
    }
}
