//! Names that are found by their last part.
ghost use Rattle.std.specs.Prelude.{◌≡◌, option_map};
ghost use Rattle.wac_ast_grammar.specs.Version.{unversioned};
ghost use Rattle.wac_graph_types.specs.Names.{by_name};
ghost use Rattle.wac_resolution_rules.specs.Find.{after_last_slash, is_short_for as short_for, only_one, long_names, names_of, find_name as found_name};

use indexmap::IndexMap;
use wac_graph::ItemKind;
use wac_graph::names::find;

/// The text before `@`.
fn unversioned_text(text: &str) -> &str
    ensures { result.now ≡ unversioned text.now }
{
    match text.split_once('@') {
        Some((name, _)) => name,
        None => text,
    }
}

/// Whether the name is the part of the text after the last `/` and before `@`.
fn is_short_for(name: &str, text: &str) -> bool
    ensures { result ≡ short_for name.now text.now }
{
    match text.rsplit_once('/') {
        Some((_, last)) => name == unversioned_text(last),
        None => false,
    }
}

/// The only name that this one is short for, if there is just one.
fn only_long<'x>(name: &str, all: &'x IndexMap<String, ItemKind>) -> Option<&'x str>
    ensures { option_map (λ s. s.now) result ≡ only_one (long_names name.now (names_of (by_name all.now.entries))) }
{
    let mut found: Option<&'x str> = None;
    for (text, _) in all.iter() {
        if is_short_for(name, text.as_str()) {
            if found.is_some() {
                return None;
            }
            found = Some(text.as_str());
        }
    }
    found
}

/// The name under which an item is found: its own, else the only one that it is short for, else its own.
pub fn find_name<'x>(name: &'x str, all: &'x IndexMap<String, ItemKind>) -> &'x str
    ensures { result.now ≡ found_name name.now (by_name all.now.entries) }
{
    if find(all, name).is_some() {
        return name;
    }
    match only_long(name, all) {
        Some(found) => found,
        None => name,
    }
}
