//! Part of `wac_resolution`: the definitions of resolving, and their laws. `docs/RESOLVING.md` says the rules in words.
#![tactic(auto)]

mod laws;

pub use laws::{
    aliases_stand_once, broken_rules_stop, compositions_begin_with_their_prefixes,
    edges_go_forward, includes_lose_nothing, judgements_have_one_result, layout_carries_no_meaning,
    names_have_places, names_stand_once, only_mentioned_packages_matter, scopes_are_covered,
    what_breaks_first_fails,
};
