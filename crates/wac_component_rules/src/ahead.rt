//! Pairs of entries that a pair needs are compared before it, over a list of those that wait, so that chains of types that
//! name one another take memory and no stack.
//!
//! Pairs are compared in the order in which [`entry_fits`] comes to them. After the first that doesn't fit only those that
//! need it are compared: they don't fit either. What is left out here, as where memory runs out, [`entry_fits`] compares
//! itself, by a call within a call for each link of a chain.
ghost use Rattle.std.specs.Prelude.{◌≡◌, ◌<◌, IfSome, IsTrue, length};
ghost use Rattle.wac_graph_types.specs.Table.{IsTable, Names};
ghost use Rattle.wac_component_rules.specs.Found.{AllFit};
ghost use Rattle.wac_component_rules.specs.Parts.{OfOneSort};

use crate::fitting::entry_fits;
use crate::found::Found;
use crate::kinds::{is_type, number, same_form, same_sort, value_kind};
use crate::parts::{part_at, part_count, same_constructor};
use crate::sides::{Side, items};
use crate::sources::plain_kind;
use std::alloc::AllocError;
use wac_graph_types::names::find;
use wac_graph_types::{Entry, ItemKind};

/// An entry that is given where another one is expected.
#[derive(Clone, Copy)]
pub(crate) struct Pair {
    pub given: usize,
    pub expected: usize,
}

impl Pair {
    fn turned(self) -> Pair
        ensures given { result.given ≡ self.expected }
        ensures expected { result.expected ≡ self.given }
    {
        Pair {
            given: self.expected,
            expected: self.given,
        }
    }
}

/// A pair that waits to be compared, and whether those that it needs are after it in the list.
#[derive(Clone, Copy)]
struct Waiting {
    pair: Pair,
    is_opened: bool,
}

/// Adds a pair, if it wasn't compared yet.
fn add(
    found: &Found,
    needed: &mut Vec<Pair>,
    given: usize,
    expected: usize,
) -> Result<(), AllocError> {
    if found.answer(given, expected).is_none() {
        needed.push(Pair { given, expected })?;
    }
    Ok(())
}

/// Adds what two kinds need, if they are given.
fn add_kinds(
    entries: &[Entry],
    found: &Found,
    needed: &mut Vec<Pair>,
    a: Option<ItemKind>,
    b: Option<ItemKind>,
) -> Result<(), AllocError>
    requires table { IsTable entries.now }
    requires first { IfSome a (Names entries.now) }
    requires second { IfSome b (Names entries.now) }
{
    match (a, b) {
        (Some(a), Some(b)) => {
            let first = plain_kind(entries, a);
            let second = plain_kind(entries, b);
            add_plain(found, needed, first, second)
        }
        _ => Ok(()),
    }
}

/// The same of kinds that are no aliases.
fn add_plain(
    found: &Found,
    needed: &mut Vec<Pair>,
    a: ItemKind,
    b: ItemKind,
) -> Result<(), AllocError> {
    if !same_form(a, b) {
        return Ok(());
    }
    match (number(a), number(b)) {
        (Some(i), Some(j)) => {
            add(found, needed, i, j)?;
            if is_type(a) {
                add(found, needed, j, i)
            } else {
                Ok(())
            }
        }
        _ => Ok(()),
    }
}

/// Whether two entries may fit part by part.
fn has_alike_parts(first: &Entry, second: &Entry) -> bool {
    same_sort(first, second)
        && same_constructor(first, second)
        && part_count(first) == part_count(second)
}

/// Adds what two defined types or two function types need, up to the first part that differs by itself.
fn add_parts(
    entries: &[Entry],
    found: &Found,
    needed: &mut Vec<Pair>,
    pair: Pair,
) -> Result<(), AllocError>
    requires table { IsTable entries.now }
    requires first { pair.given < length entries.now }
    requires second { pair.expected < length entries.now }
{
    let first = &entries[pair.given];
    let second = &entries[pair.expected];
    if !has_alike_parts(first, second) {
        return Ok(());
    }
    for at in 0..part_count(first) {
        match (part_at(first, at), part_at(second, at)) {
            (Some(c), Some(d)) => {
                if !c.slot.same(d.slot) {
                    return Ok(());
                }
                let given = value_kind(c.value);
                let expected = value_kind(d.value);
                add_kinds(entries, found, needed, given, expected)?;
            }
            _ => return Ok(()),
        }
    }
    Ok(())
}

/// Adds what two interfaces or two worlds need on a side, up to the first item that is expected and isn't there.
fn add_side(
    entries: &[Entry],
    found: &Found,
    needed: &mut Vec<Pair>,
    pair: Pair,
    side: Side,
) -> Result<(), AllocError>
    requires table { IsTable entries.now }
    requires first { pair.given < length entries.now }
    requires second { pair.expected < length entries.now }
{
    let asked = match items(&entries[pair.expected], side) {
        None => return Ok(()),
        Some(asked) => asked,
    };
    let offered = match items(&entries[pair.given], side) {
        None => return Ok(()),
        Some(offered) => offered,
    };
    for at in 0..asked.len() {
        match asked.get_index(at) {
            None => return Ok(()),
            Some((name, kind)) => match find(offered, name.as_str()) {
                None => return Ok(()),
                Some(offer) => add_kinds(entries, found, needed, Some(offer), Some(*kind))?,
            },
        }
    }
    Ok(())
}

/// Adds the pairs that a pair needs, in the order in which they decide.
fn add_needed(
    entries: &[Entry],
    found: &Found,
    needed: &mut Vec<Pair>,
    pair: Pair,
) -> Result<(), AllocError>
    requires table { IsTable entries.now }
    requires first { pair.given < length entries.now }
    requires second { pair.expected < length entries.now }
{
    match &entries[pair.given] {
        Entry::Resource(_) => Ok(()),
        Entry::Defined(_) => add_parts(entries, found, needed, pair),
        Entry::Func(_) => add_parts(entries, found, needed, pair),
        Entry::Interface(_) => add_side(entries, found, needed, pair, Side::Exports),
        Entry::World(_) => {
            add_side(entries, found, needed, pair.turned(), Side::Imports)?;
            add_side(entries, found, needed, pair, Side::Exports)
        }
    }
}

/// Puts pairs into the list, the last one first, so that the first one is compared first.
fn put(waiting: &mut Vec<Waiting>, pairs: &[Pair]) -> Result<(), AllocError> {
    for pair in pairs.iter().rev() {
        waiting.push(Waiting {
            pair: *pair,
            is_opened: false,
        })?;
    }
    Ok(())
}

/// Puts a pair into the list, and after it those that it needs.
fn open(
    entries: &[Entry],
    found: &Found,
    waiting: &mut Vec<Waiting>,
    pair: Pair,
) -> Result<(), AllocError>
    requires table { IsTable entries.now }
    requires first { pair.given < length entries.now }
    requires second { pair.expected < length entries.now }
{
    let mut needed = Vec::new(found.allocator());
    add_needed(entries, found, &mut needed, pair)?;
    waiting.push(Waiting {
        pair,
        is_opened: true,
    })?;
    put(waiting, needed.as_slice())
}

/// Whether both entries are in the table, and of one sort.
fn is_there(entries: &[Entry], pair: Pair) -> bool
    ensures first { IsTrue result → pair.given < length entries.now }
    ensures second { IsTrue result → pair.expected < length entries.now }
    ensures sorts { IsTrue result → OfOneSort entries.now pair.given pair.expected }
{
    match (entries.get(pair.given), entries.get(pair.expected)) {
        (Some(given), Some(expected)) => same_sort(given, expected),
        _ => false,
    }
}

/// Compares a pair, and keeps the answer.
fn compare(entries: &[Entry], found: &mut Found, pair: Pair) -> Result<bool, AllocError>
    requires table { IsTable entries.now }
    requires first { pair.given < length entries.now }
    requires second { pair.expected < length entries.now }
    requires sorts { OfOneSort entries.now pair.given pair.expected }
    requires found { AllFit entries.now found.old }
    ensures found { AllFit entries.now found.new }
{
    let fits = entry_fits(entries, found, pair.given, pair.expected);
    found.keep(pair.given, pair.expected, fits)?;
    Ok(fits)
}

/// Compares the pair that waited last, or puts those that it needs after it. `false` if it was compared and doesn't fit.
fn compare_next(
    entries: &[Entry],
    found: &mut Found,
    waiting: &mut Vec<Waiting>,
    next: Waiting,
) -> Result<bool, AllocError>
    requires table { IsTable entries.now }
    requires found { AllFit entries.now found.old }
    ensures found { AllFit entries.now found.new }
{
    let pair = next.pair;
    if !is_there(entries, pair) || found.answer(pair.given, pair.expected).is_some() {
        return Ok(true);
    }
    if next.is_opened {
        return compare(entries, found, pair);
    }
    open(entries, found, waiting, pair)?;
    Ok(true)
}

/// Compares the pairs that need the one that doesn't fit, the last first.
fn close(entries: &[Entry], found: &mut Found, waiting: &[Waiting]) -> Result<(), AllocError>
    requires table { IsTable entries.now }
    requires found { AllFit entries.now found.old }
    ensures found { AllFit entries.now found.new }
{
    for next in waiting.iter().rev() {
        if next.is_opened && is_there(entries, next.pair) {
            let _fits = compare(entries, found, next.pair)?;
        }
    }
    Ok(())
}

/// Compares what two kinds need, each pair after those that it needs.
pub(crate) fn compare_ahead(
    entries: &[Entry],
    found: &mut Found,
    a: ItemKind,
    b: ItemKind,
) -> Result<(), AllocError>
    requires table { IsTable entries.now }
    requires first { Names entries.now a }
    requires second { Names entries.now b }
    requires found { AllFit entries.now found.old }
    ensures found { AllFit entries.now found.new }
{
    let mut needed = Vec::new(found.allocator());
    add_kinds(entries, found, &mut needed, Some(a), Some(b))?;
    let mut waiting = Vec::new(found.allocator());
    put(&mut waiting, needed.as_slice())?;
    for _ in 0..u64::MAX {
        match waiting.pop() {
            None => return Ok(()),
            Some(next) => {
                if !compare_next(entries, found, &mut waiting, next)? {
                    return close(entries, found, waiting.as_slice());
                }
            }
        }
    }
    Ok(())
}
