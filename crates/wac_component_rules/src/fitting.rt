//! Whether a kind of a table may stand where another is expected.
ghost use Rattle.std.specs.Prelude.{◌≡◌, ◌<◌, ℕ, IfSome, length};
ghost use Rattle.wac_graph_types.specs.Meaning.{meaning};
ghost use Rattle.wac_graph_types.specs.Table.{IsTable, Names};
ghost use Rattle.wac_component_rules.specs.Compared.{kinds_fit, plainly_fit, entries_fit, TellsSides, TellsParts};
ghost use Rattle.wac_component_rules.specs.Fits.{fits};
ghost use Rattle.wac_component_rules.specs.Found.{AllFit};
ghost use Rattle.wac_component_rules.specs.Parts.{OfOneSort};
ghost use Rattle.wac_component_rules.specs.Seen.{seen};

use crate::ahead::compare_ahead;
use crate::found::Found;
use crate::kinds::{is_type, number, same_form, value_kind};
use crate::parts::{part_at, part_count, same_constructor};
use crate::sides::{Side, items};
use crate::sources::{plain_kind, source_name};
use std::alloc::Global;
use wac_graph_types::names::find;
use wac_graph_types::{Entry, ItemKind};

/// Whether the first kind may stand where the second is expected, if they are given.
#[cycle(fitting)]
pub fn kind_fits(
    entries: &[Entry],
    found: &mut Found,
    a: Option<ItemKind>,
    b: Option<ItemKind>,
) -> bool
    requires table { IsTable entries.now }
    requires first { IfSome a (Names entries.now) }
    requires second { IfSome b (Names entries.now) }
    requires found { AllFit entries.now found.old }
    ensures fits { (o : ℕ → ℕ) → result ≡ kinds_fit o entries.now a b }
    ensures found { AllFit entries.now found.new }
{
    match (a, b) {
        (None, None) => true,
        (Some(a), Some(b)) => {
            let first = plain_kind(entries, a);
            let second = plain_kind(entries, b);
            plain_fits(entries, found, first, second)
        }
        (None, Some(b)) => {
            // Its contract says what the kind is seen as.
            let _second = plain_kind(entries, b);
            false
        }
        (Some(a), None) => {
            // Its contract says what the kind is seen as.
            let _first = plain_kind(entries, a);
            false
        }
    }
}

/// The same of kinds that are no aliases.
#[cycle(fitting)]
fn plain_fits(entries: &[Entry], found: &mut Found, a: ItemKind, b: ItemKind) -> bool
    requires table { IsTable entries.now }
    requires first { Names entries.now a }
    requires second { Names entries.now b }
    requires found { AllFit entries.now found.old }
    ensures fits { (o : ℕ → ℕ) → result ≡ plainly_fit o entries.now a b }
    ensures found { AllFit entries.now found.new }
{
    if !same_form(a, b) {
        return false;
    }
    match (number(a), number(b)) {
        (None, None) => true,
        (Some(i), Some(j)) => {
            if !entry_fits(entries, found, i, j) {
                return false;
            }
            if is_type(a) {
                entry_fits(entries, found, j, i)
            } else {
                true
            }
        }
        _ => false,
    }
}

/// The same of entries. A pair in `found` isn't compared again, and a pair that fits is added, so that types that name
/// others twice aren't traversed twice.
#[cycle(fitting)]
pub(crate) fn entry_fits(entries: &[Entry], found: &mut Found, i: usize, j: usize) -> bool
    requires table { IsTable entries.now }
    requires first { i < length entries.now }
    requires second { j < length entries.now }
    requires sorts { OfOneSort entries.now i j }
    requires found { AllFit entries.now found.old }
    ensures fits { (o : ℕ → ℕ) → result ≡ entries_fit o entries.now i j }
    ensures found { AllFit entries.now found.new }
{
    if found.has(i, j) {
        return true;
    }
    if let Some(fits) = found.answer(i, j) {
        return fits;
    }
    if compared(entries, found, i, j) {
        found.add(i, j);
        true
    } else {
        false
    }
}

#[cycle(fitting)]
fn compared(entries: &[Entry], found: &mut Found, i: usize, j: usize) -> bool
    requires table { IsTable entries.now }
    requires first { i < length entries.now }
    requires second { j < length entries.now }
    requires sorts { OfOneSort entries.now i j }
    requires found { AllFit entries.now found.old }
    ensures fits { (o : ℕ → ℕ) → result ≡ entries_fit o entries.now i j }
    ensures found { AllFit entries.now found.new }
{
    match &entries[i] {
        Entry::Resource(_) => source_name(entries, i) == source_name(entries, j),
        Entry::Defined(_) => parts_fit(entries, found, i, j),
        Entry::Func(_) => parts_fit(entries, found, i, j),
        Entry::Interface(_) => side_fits(entries, found, i, j, Side::Exports),
        Entry::World(_) => {
            if side_fits(entries, found, j, i, Side::Imports) {
                side_fits(entries, found, i, j, Side::Exports)
            } else {
                false
            }
        }
    }
}

/// Whether each item that the expected entry has on a side is among those of the given one, and fits.
#[cycle(fitting)]
fn side_fits(
    entries: &[Entry],
    found: &mut Found,
    given: usize,
    expected: usize,
    side: Side,
) -> bool
    requires table { IsTable entries.now }
    requires first { given < length entries.now }
    requires second { expected < length entries.now }
    requires found { AllFit entries.now found.old }
    ensures fits { (o : ℕ → ℕ) → TellsSides o entries.now side given expected result }
    ensures found { AllFit entries.now found.new }
{
    let asked = match items(&entries[expected], side) {
        None => return true,
        Some(asked) => asked,
    };
    let offered = match items(&entries[given], side) {
        None => return asked.is_empty(),
        Some(offered) => offered,
    };
    for at in 0..asked.len() {
        match asked.get_index(at) {
            None => return false,
            Some((name, kind)) => match find(offered, name.as_str()) {
                None => return false,
                Some(offer) => {
                    if !kind_fits(entries, found, Some(offer), Some(*kind)) {
                        return false;
                    }
                }
            },
        }
    }
    true
}

/// Whether two defined types or two function types fit part by part.
#[cycle(fitting)]
fn parts_fit(entries: &[Entry], found: &mut Found, i: usize, j: usize) -> bool
    requires table { IsTable entries.now }
    requires first { i < length entries.now }
    requires second { j < length entries.now }
    requires sorts { OfOneSort entries.now i j }
    requires found { AllFit entries.now found.old }
    ensures fits { (o : ℕ → ℕ) → TellsParts o entries.now i j result }
    ensures found { AllFit entries.now found.new }
{
    let first = &entries[i];
    let second = &entries[j];
    if !same_constructor(first, second) {
        return false;
    }
    let count = part_count(first);
    if part_count(second) != count {
        return false;
    }
    for at in 0..count {
        match (part_at(first, at), part_at(second, at)) {
            (Some(c), Some(d)) => {
                if !c.slot.same(d.slot) {
                    return false;
                }
                let given = value_kind(c.value);
                let expected = value_kind(d.value);
                if !kind_fits(entries, found, given, expected) {
                    return false;
                }
            }
            _ => return false,
        }
    }
    true
}

/// Whether the first kind of a table may stand where the second is expected. What was found of other kinds of the table
/// isn't compared again.
pub fn fits_after(entries: &[Entry], found: &mut Found, a: ItemKind, b: ItemKind) -> bool
    requires table { IsTable entries.now }
    requires first { Names entries.now a }
    requires second { Names entries.now b }
    requires found { AllFit entries.now found.old }
    ensures fits { (o : ℕ → ℕ) → result ≡ fits (seen (meaning o entries.now a)) (seen (meaning o entries.now b)) }
    ensures found { AllFit entries.now found.new }
{
    // Where memory runs out, the pairs that are left are compared by calls within calls.
    let _is_complete = compare_ahead(entries, found, a, b).is_ok();
    kind_fits(entries, found, Some(a), Some(b))
}

/// Whether the first kind of a table may stand where the second is expected. Each pair of entries that
/// is compared takes memory.
pub fn fitting(alloc: Global, entries: &[Entry], a: ItemKind, b: ItemKind) -> bool
    requires table { IsTable entries.now }
    requires first { Names entries.now a }
    requires second { Names entries.now b }
    ensures { (o : ℕ → ℕ) → result ≡ fits (seen (meaning o entries.now a)) (seen (meaning o entries.now b)) }
{
    let mut found = Found::new(alloc);
    fits_after(entries, &mut found, a, b)
}
