//! Whether an entry contains a borrow, from what is known of those before it.
ghost use Rattle.std.specs.Prelude.{◌≡◌, ℕ};
ghost use Rattle.wac_graph_types.specs.Borrows.{SaysBorrow};
ghost use Rattle.wac_graph_types.specs.Kind.{form};
ghost use Rattle.wac_graph_types.specs.Meaning.{look, of_child, over};
ghost use Rattle.wac_graph_types.specs.Readings.{is_resource as resource_entry};
ghost use Rattle.wac_graph_types.specs.Shape.{is_borrow_form};

use crate::entry::Entry;
use crate::kind::{ItemKind, ValueType};

fn is_borrow(kind: ItemKind) -> bool
    ensures { result ≡ is_borrow_form (form kind) }
{
    match kind {
        ItemKind::Value(ValueType::Borrow(_)) => true,
        _ => false,
    }
}

fn is_resource(entry: &Entry) -> bool
    ensures { result ≡ resource_entry entry.now }
{
    match entry {
        Entry::Resource(_) => true,
        _ => false,
    }
}

/// What is known of the entry of a number. What names no entry contains nothing.
fn is_known(known: &[bool], number: usize) -> bool
    ensures { SaysBorrow known.now (λ ms. look ms number) result }
{
    match known.get(number) {
        Some(borrow) => *borrow,
        None => false,
    }
}

/// Whether a kind in an entry contains a borrow.
pub(crate) fn child_has_borrow(known: &[bool], child: Option<ItemKind>) -> bool
    ensures { SaysBorrow known.now (λ ms. of_child (look ms) child) result }
{
    match child {
        None => false,
        Some(kind) => {
            if is_borrow(kind) {
                return true;
            }
            match kind.id() {
                None => false,
                Some(number) => is_known(known, number),
            }
        }
    }
}

/// Whether an entry contains a borrow. What a resource is an alias of doesn't count.
pub(crate) fn entry_has_borrow(known: &[bool], entry: &Entry) -> bool
    ensures { (origins : ℕ → ℕ) → SaysBorrow known.now (λ ms. over origins ms entry.now) result }
{
    if is_resource(entry) {
        return false;
    }
    for at in 0..entry.len() {
        match entry.child(at) {
            None => return false,
            Some(child) => {
                if child_has_borrow(known, child.kind) {
                    return true;
                }
            }
        }
    }
    false
}
