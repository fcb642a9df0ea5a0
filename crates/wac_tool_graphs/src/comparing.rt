//! The comparison of kinds, pair by pair.
ghost use Rattle.std.specs.Prelude.{◌≡◌, ◌<◌, ℕ, IsTrue, ◌↔◌, IfOk, OnOk, length};
ghost use Rattle.wac_graph_types.specs.Entry.{children};
ghost use Rattle.wac_graph_types.specs.Meaning.{Apart, IsEarlier, IsOneToOne, UnderOrigins, of_child, of_kind, row};
ghost use Rattle.wac_graph_types.specs.Shape.{entry_over};
ghost use Rattle.wac_graph_types.specs.Table.{IsTable, Names};
ghost use Rattle.wac_tool_graphs.specs.Pairs.{Agree, AreAlikeOver, Reduces};

use crate::pairs::{Pairs, Unanswered};
use std::alloc::Global;
use wac_graph_types::internals::same_label;
use wac_graph_types::{Entry, ItemKind, Types};

/// Of two kinds of which one names an entry below this one, the recursion of `Types::same` is no deeper than this.
const SHALLOW: usize = 256;

/// Whether two kinds may mean the same, where the pair of entries that has to do so for it is added.
fn add_kinds(
    pairs: &mut Pairs,
    a: Option<ItemKind>,
    b: Option<ItemKind>,
) -> Result<bool, Unanswered>
    ensures { IfOk result (λ same. Reduces (λ means. of_child means a ≡ of_child means b) same pairs.old pairs.new) }
{
    match (a, b) {
        (None, None) => Ok(true),
        (Some(a), Some(b)) => {
            if !a.same_form(b) {
                return Ok(false);
            }
            match (a.id(), b.id()) {
                (Some(first), Some(second)) => {
                    pairs.add(first, second)?;
                    Ok(true)
                }
                (None, None) => Ok(true),
                _ => Ok(false),
            }
        }
        _ => Ok(false),
    }
}

/// Whether the parts of two entries may mean the same, where the pairs that have to do so for it are added.
fn add_parts(pairs: &mut Pairs, first: &Entry, second: &Entry) -> Result<bool, Unanswered>
    ensures { IfOk result (λ same. Reduces (λ means. row means (children first.now) ≡ row means (children second.now))
        same pairs.old pairs.new) }
{
    let count = first.len();
    if second.len() != count {
        return Ok(false);
    }
    for at in 0..count {
        match (first.child(at), second.child(at)) {
            (Some(c), Some(d)) => {
                if !c.place.same(d.place) {
                    return Ok(false);
                }
                if !add_kinds(pairs, c.kind, d.kind)? {
                    return Ok(false);
                }
            }
            _ => return Ok(false),
        }
    }
    Ok(true)
}

/// Whether two entries of which not both are one resource may mean the same, where the pairs that have to do so for it
/// are added.
fn add_entries(pairs: &mut Pairs, first: &Entry, second: &Entry) -> Result<bool, Unanswered>
    ensures { IfOk result (λ same. (p q : ℕ) → Apart p q first.now second.now
        → Reduces (λ means. entry_over means p first.now ≡ entry_over means q second.now) same pairs.old pairs.new) }
{
    if !same_label(first, second) {
        return Ok(false);
    }
    add_parts(pairs, first, second)
}

/// Whether the entries of a pair may mean the same, where the pairs that have to do so for it are added.
fn add_pair(
    entries: &[Entry],
    pairs: &mut Pairs,
    first: usize,
    second: usize,
) -> Result<bool, Unanswered>
    ensures within { OnOk result ((first < length entries.now) × (second < length entries.now)) }
    ensures reduces { IfOk result (λ same. (origins : ℕ → ℕ) → IsOneToOne entries.now origins
        → Reduces (AreAlikeOver origins entries.now first second) same pairs.old pairs.new) }
{
    match (entries.get(first), entries.get(second)) {
        (Some(a), Some(b)) => {
            if first == second {
                Ok(true)
            } else {
                add_entries(pairs, a, b)
            }
        }
        _ => Err(Unanswered),
    }
}

/// Whether the entries of each pair mean the same. The pairs that they need go last, each once.
fn all_same(entries: &[Entry], pairs: &mut Pairs) -> Result<bool, Unanswered>
    requires { IsEarlier entries.now }
    ensures { IfOk result (λ same. UnderOrigins entries.now (λ mean. IsTrue same ↔ Agree mean pairs.old)) }
{
    for at in 0..usize::MAX {
        match pairs.at(at) {
            None => return Ok(true),
            Some((first, second)) => {
                if !add_pair(entries, pairs, first, second)? {
                    return Ok(false);
                }
            }
        }
    }
    Err(Unanswered)
}

/// Whether two kinds mean the same, found over a list of pairs.
fn same_by_pairs(
    alloc: Global,
    entries: &[Entry],
    a: ItemKind,
    b: ItemKind,
) -> Result<bool, Unanswered>
    requires { IsEarlier entries.now }
    ensures { IfOk result (λ same. UnderOrigins entries.now (λ mean. IsTrue same ↔ (of_kind mean a ≡ of_kind mean b))) }
{
    let mut pairs = Pairs::new(alloc);
    if !add_kinds(&mut pairs, Some(a), Some(b))? {
        return Ok(false);
    }
    all_same(entries, &mut pairs)
}

/// Whether the types in a kind nest no deeper than calls may.
fn is_shallow(kind: ItemKind) -> bool {
    match kind.id() {
        None => true,
        Some(number) => number < SHALLOW,
    }
}

/// Whether two kinds mean the same, whatever the origins of resources are, as [`Types::same`] says it.
///
/// It takes no stack for types that nest. Where both kinds name an entry beyond the first 256, pairs of entries that have
/// to mean the same stand in a list, whose memory is from `alloc` and goes back at the end; there are fewer of them than
/// entries, and each is compared once. Where there is no memory for it, the answer is that of [`Types::same`], which
/// recurses.
pub fn same(alloc: Global, types: &Types, a: ItemKind, b: ItemKind) -> bool
    requires table { IsTable types.now }
    requires first { Names types.now a }
    requires second { Names types.now b }
    ensures { UnderOrigins types.now (λ mean. IsTrue result ↔ (of_kind mean a ≡ of_kind mean b)) }
{
    if is_shallow(a) || is_shallow(b) {
        return types.same(a, b);
    }
    match same_by_pairs(alloc, types.entries(), a, b) {
        Ok(same) => same,
        Err(_) => types.same(a, b),
    }
}
