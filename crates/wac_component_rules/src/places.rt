//! What is at the end of a path in a kind.
ghost use Rattle.std.specs.Prelude.{◌≡◌, Some, option_and_then};
ghost use Rattle.wac_graph_types.specs.Entry.{optional};
ghost use Rattle.wac_graph_types.specs.Scope.{look_up};
ghost use Rattle.wac_graph_types.specs.Table.{IsTable};
ghost use Rattle.wac_component_rules.specs.Parts.{side_items, slot_of};
ghost use Rattle.wac_component_rules.specs.Paths.{Leads, entry_named, of_place, of_slot, step_in};

use crate::groups::Group;
use crate::internals::{PartSlot, Side, items, part_at, part_count};
use crate::known::{entry_of, kind_words, plain, value_words};
use crate::mismatch_words::{Place, Step, Words};
use wac_graph_types::names::find;
use wac_graph_types::{Entry, FuncType, ItemKind, Type, ValueType};

/// What of two kinds differs.
#[derive(Clone, Copy)]
pub(crate) enum Topic {
    /// The kinds themselves.
    Kind,
    /// The types of values that they are.
    Type,
    Async,
    /// The names of their parts at a place.
    Name(Group, usize),
    /// How many parts they have.
    Count(Group),
}

/// What is at the end of the path, as far as the topic goes.
pub(crate) fn place<'a>(
    entries: &'a [Entry],
    kind: ItemKind,
    path: &[Step<'a>],
    topic: Topic,
) -> Place<'a>
    requires table { IsTable entries.now }
    ensures { Leads entries.now (Some kind) path.now result.at }
{
    let at = kind_at(entries, kind, path);
    let words = match at {
        Some(last) => words_of(entries, plain(entries, last), topic),
        None => nothing(path),
    };
    Place { at, words }
}

/// The kind at the end of a path, if there is one.
fn kind_at(entries: &[Entry], kind: ItemKind, path: &[Step<'_>]) -> Option<ItemKind>
    requires table { IsTable entries.now }
    ensures { Leads entries.now (Some kind) path.now result }
{
    let mut at = kind;
    for number in 0..path.len() {
        let from = plain(entries, at);
        match kind_after(entries, from, path[number]) {
            None => return None,
            Some(next) => at = next,
        }
    }
    Some(at)
}

/// The kind to which a step leads from one that is no alias.
fn kind_after(entries: &[Entry], kind: ItemKind, step: Step<'_>) -> Option<ItemKind>
    ensures { result ≡ option_and_then (λ e. step_in step.entry e) (entry_named entries.now kind) }
{
    match entry_of(entries, kind) {
        None => None,
        Some(entry) => part_after(entry, step),
    }
}

fn part_after(entry: &Entry, step: Step<'_>) -> Option<ItemKind>
    ensures { result ≡ step_in step.entry entry.now }
{
    match step {
        Step::Import(name) => item(entry, Side::Imports, name),
        Step::Export(name) => item(entry, Side::Exports, name),
        Step::Parameter(name) => value_in(entry, PartSlot::Named(name)),
        Step::Result => value_in(entry, PartSlot::Given(None)),
        Step::NamedResult(name) => value_in(entry, PartSlot::Given(Some(name))),
        Step::Field(name) => value_in(entry, PartSlot::Named(name)),
        Step::Case(name) => value_in(entry, PartSlot::Named(name)),
        Step::Element(at) => value_at(entry, at),
        Step::Inner => value_in(entry, PartSlot::Only),
        Step::Ok => value_in(entry, PartSlot::Ok),
        Step::Err => value_in(entry, PartSlot::Err),
    }
}

fn item(entry: &Entry, side: Side, name: &str) -> Option<ItemKind>
    ensures { result ≡ look_up name.now (side_items side entry.now) }
{
    match items(entry, side) {
        None => None,
        Some(all) => find(all, name),
    }
}

fn kind_of(value: Option<ValueType>) -> Option<ItemKind>
    ensures { result ≡ optional value }
{
    match value {
        None => None,
        Some(value) => Some(ItemKind::Value(value)),
    }
}

fn value_at(entry: &Entry, at: usize) -> Option<ItemKind>
    ensures { result ≡ of_place at entry.now }
{
    match part_at(entry, at) {
        None => None,
        Some(part) => kind_of(part.value),
    }
}

/// The type of the first part in a slot.
fn value_in(entry: &Entry, slot: PartSlot<'_>) -> Option<ItemKind>
    ensures { result ≡ of_slot (slot_of slot.entry) entry.now }
{
    for at in 0..part_count(entry) {
        match part_at(entry, at) {
            None => return None,
            Some(part) => {
                if part.slot.same(slot) {
                    return kind_of(part.value);
                }
            }
        }
    }
    None
}

/// What is at the end of a path that leads to nothing.
fn nothing<'a>(path: &[Step<'a>]) -> Words<'a> {
    match path.last() {
        Some(Step::Import(_)) => Words::Plain("no import of that name"),
        Some(Step::Export(_)) => Words::Plain("no export of that name"),
        _ => Words::Plain("no type"),
    }
}

/// A kind that is no alias, as far as the topic goes.
fn words_of(entries: &[Entry], kind: ItemKind, topic: Topic) -> Words<'_> {
    match (topic, entry_of(entries, kind)) {
        (Topic::Type, _) => type_words(entries, kind),
        (Topic::Async, Some(Entry::Func(func))) => async_words(func),
        (Topic::Name(group, at), Some(entry)) => name_words(entry, group, at),
        (Topic::Count(group), Some(entry)) => group.counted(group.run(entry).count),
        _ => kind_words(entries, kind),
    }
}

fn type_words(entries: &[Entry], kind: ItemKind) -> Words<'_> {
    match kind {
        ItemKind::Ty(Type::Value(value)) => value_words(entries, value),
        _ => kind_words(entries, kind),
    }
}

fn async_words(func: &FuncType) -> Words<'_> {
    if func.is_async {
        Words::Plain("async function")
    } else {
        Words::Plain("function that isn't async")
    }
}

fn name_words(entry: &Entry, group: Group, at: usize) -> Words<'_> {
    match group.run(entry).part(at) {
        None => Words::Plain("nothing"),
        Some(part) => group.words(part.slot),
    }
}
