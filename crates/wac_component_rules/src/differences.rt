//! What differs in a pair of kinds: the kinds themselves, or a part of them.

ghost use Rattle.wac_graph_types.specs.Table.{IsTable};
ghost use Rattle.wac_component_rules.specs.Found.{AllFit};

use crate::groups::{Group, group_of};
use crate::internals::{Found, Part, Side, items, same_form};
use crate::known::{entry_of, known_fits, plain};
use crate::mismatch_words::Step;
use crate::places::Topic;
use wac_graph_types::names::find;
use wac_graph_types::{Entry, ItemKind, Type};

/// Two kinds that are compared, and may be the other way round than the whole ones.
#[derive(Clone, Copy)]
pub(crate) struct Pair {
    pub given: ItemKind,
    pub expected: ItemKind,
}

/// What differs: the topic, after a step, if any, or a part after a step, if any.
#[derive(Clone, Copy)]
pub(crate) enum Difference<'a> {
    Here(Option<Step<'a>>, Topic),
    At(Option<Step<'a>>, Pair),
}

/// What differs in a pair that doesn't fit.
pub(crate) fn first_difference<'a>(
    entries: &'a [Entry],
    found: &mut Found,
    pair: Pair,
) -> Difference<'a>
    requires table { IsTable entries.now }
    requires found { AllFit entries.now found.old }
    ensures found { AllFit entries.now found.new }
{
    let given = plain(entries, pair.given);
    let expected = plain(entries, pair.expected);
    match (given, expected) {
        (ItemKind::Ty(Type::Value(given)), ItemKind::Ty(Type::Value(expected))) => {
            let given = ItemKind::Value(given);
            let expected = ItemKind::Value(expected);
            Difference::At(None, Pair { given, expected })
        }
        (ItemKind::Value(_), ItemKind::Value(_)) => {
            let pair = Pair { given, expected };
            form_difference(entries, found, pair, Topic::Type)
        }
        _ => {
            let pair = Pair { given, expected };
            form_difference(entries, found, pair, Topic::Kind)
        }
    }
}

/// The same of kinds that aren't both types of values. If all of their parts fit, the topic differs.
fn form_difference<'a>(
    entries: &'a [Entry],
    found: &mut Found,
    pair: Pair,
    topic: Topic,
) -> Difference<'a>
    requires table { IsTable entries.now }
    requires found { AllFit entries.now found.old }
    ensures found { AllFit entries.now found.new }
{
    if !same_form(pair.given, pair.expected) {
        return Difference::Here(None, topic);
    }
    match pair.given {
        ItemKind::Ty(Type::Resource(_)) => Difference::Here(None, topic),
        ItemKind::Ty(_) => type_difference(entries, found, pair),
        _ => match (
            entry_of(entries, pair.given),
            entry_of(entries, pair.expected),
        ) {
            (Some(given), Some(expected)) => match entry_difference(
                entries, found, given, expected,
            ) {
                Some(difference) => difference,
                None => Difference::Here(None, topic),
            },
            _ => Difference::Here(None, topic),
        },
    }
}

/// Types are compared both ways: this way first.
fn type_difference<'a>(entries: &'a [Entry], found: &mut Found, pair: Pair) -> Difference<'a>
    requires table { IsTable entries.now }
    requires found { AllFit entries.now found.old }
    ensures found { AllFit entries.now found.new }
{
    let given = pair.given.promote();
    let expected = pair.expected.promote();
    if known_fits(entries, found, given, expected) {
        Difference::At(
            None,
            Pair {
                given: expected,
                expected: given,
            },
        )
    } else {
        Difference::At(None, Pair { given, expected })
    }
}

/// What differs in two entries, if it is a part of them.
fn entry_difference<'a>(
    entries: &'a [Entry],
    found: &mut Found,
    given: &'a Entry,
    expected: &'a Entry,
) -> Option<Difference<'a>>
    requires table { IsTable entries.now }
    requires found { AllFit entries.now found.old }
    ensures found { AllFit entries.now found.new }
{
    match (given, expected) {
        (Entry::Defined(ty), Entry::Defined(other)) => {
            if ty.same_shape(other) {
                runs_difference(entries, found, group_of(ty), given, expected)
            } else {
                None
            }
        }
        (Entry::Func(func), Entry::Func(other)) => {
            if func.is_async == other.is_async {
                func_difference(entries, found, given, expected)
            } else {
                Some(Difference::Here(None, Topic::Async))
            }
        }
        (Entry::Interface(_), Entry::Interface(_)) => export_difference(
            entries, found, given, expected,
        ),
        (Entry::World(_), Entry::World(_)) => world_difference(entries, found, given, expected),
        _ => None,
    }
}

/// Parameters, then results.
fn func_difference<'a>(
    entries: &'a [Entry],
    found: &mut Found,
    given: &'a Entry,
    expected: &'a Entry,
) -> Option<Difference<'a>>
    requires table { IsTable entries.now }
    requires found { AllFit entries.now found.old }
    ensures found { AllFit entries.now found.new }
{
    match runs_difference(entries, found, Group::Parameters, given, expected) {
        Some(difference) => Some(difference),
        None => runs_difference(entries, found, Group::Results, given, expected),
    }
}

/// Imports, then exports.
fn world_difference<'a>(
    entries: &'a [Entry],
    found: &mut Found,
    given: &'a Entry,
    expected: &'a Entry,
) -> Option<Difference<'a>>
    requires table { IsTable entries.now }
    requires found { AllFit entries.now found.old }
    ensures found { AllFit entries.now found.new }
{
    match import_difference(entries, found, given, expected) {
        Some(difference) => Some(difference),
        None => export_difference(entries, found, given, expected),
    }
}

/// Parts pair by pair, name, then type, then their number.
fn runs_difference<'a>(
    entries: &'a [Entry],
    found: &mut Found,
    group: Group,
    given: &'a Entry,
    expected: &'a Entry,
) -> Option<Difference<'a>>
    requires table { IsTable entries.now }
    requires found { AllFit entries.now found.old }
    ensures found { AllFit entries.now found.new }
{
    let first = group.run(given);
    let second = group.run(expected);
    for at in 0..first.count.min(second.count) {
        match (first.part(at), second.part(at)) {
            (Some(c), Some(d)) => {
                if let Some(difference) = part_difference(entries, found, group, at, (c, d)) {
                    return Some(difference);
                }
            }
            _ => return None,
        }
    }
    if first.count == second.count {
        None
    } else {
        Some(Difference::Here(None, Topic::Count(group)))
    }
}

/// The same of one part of each.
fn part_difference<'a>(
    entries: &'a [Entry],
    found: &mut Found,
    group: Group,
    at: usize,
    parts: (Part<'a>, Part<'a>),
) -> Option<Difference<'a>>
    requires table { IsTable entries.now }
    requires found { AllFit entries.now found.old }
    ensures found { AllFit entries.now found.new }
{
    let (given, expected) = parts;
    if !given.slot.same(expected.slot) {
        return Some(Difference::Here(None, Topic::Name(group, at)));
    }
    let step = Some(group.step(expected.slot, at));
    match (given.value, expected.value) {
        (None, None) => None,
        (Some(a), Some(b)) => {
            let given = ItemKind::Value(a);
            let expected = ItemKind::Value(b);
            if known_fits(entries, found, given, expected) {
                None
            } else {
                Some(Difference::At(step, Pair { given, expected }))
            }
        }
        _ => Some(Difference::Here(step, Topic::Kind)),
    }
}

/// The first export that is expected and isn't there, or doesn't fit.
fn export_difference<'a>(
    entries: &'a [Entry],
    found: &mut Found,
    given: &'a Entry,
    expected: &'a Entry,
) -> Option<Difference<'a>>
    requires table { IsTable entries.now }
    requires found { AllFit entries.now found.old }
    ensures found { AllFit entries.now found.new }
{
    let offered = items(given, Side::Exports)?;
    let asked = items(expected, Side::Exports)?;
    for (name, kind) in asked.iter() {
        let step = Some(Step::Export(name.as_str()));
        match find(offered, name.as_str()) {
            None => return Some(Difference::Here(step, Topic::Kind)),
            Some(offer) => {
                if !known_fits(entries, found, offer, *kind) {
                    let pair = Pair {
                        given: offer,
                        expected: *kind,
                    };
                    return Some(Difference::At(step, pair));
                }
            }
        }
    }
    None
}

/// The first import of the given one that the expected one hasn't, or that doesn't fit: the other way round.
fn import_difference<'a>(
    entries: &'a [Entry],
    found: &mut Found,
    given: &'a Entry,
    expected: &'a Entry,
) -> Option<Difference<'a>>
    requires table { IsTable entries.now }
    requires found { AllFit entries.now found.old }
    ensures found { AllFit entries.now found.new }
{
    let asked = items(given, Side::Imports)?;
    let offered = items(expected, Side::Imports)?;
    for (name, kind) in asked.iter() {
        let step = Some(Step::Import(name.as_str()));
        match find(offered, name.as_str()) {
            None => return Some(Difference::Here(step, Topic::Kind)),
            Some(offer) => {
                if !known_fits(entries, found, offer, *kind) {
                    let pair = Pair {
                        given: offer,
                        expected: *kind,
                    };
                    return Some(Difference::At(step, pair));
                }
            }
        }
    }
    None
}
