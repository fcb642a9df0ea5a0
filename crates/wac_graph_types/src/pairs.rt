//! Pairs of entries that mean the same, so that few are compared again.
ghost use Rattle.std.specs.Prelude.{◌≡◌, ◌+◌, ◌<◌, ◌↔◌, ℕ, IsTrue, List};
ghost use Rattle.wac_graph_types.specs.declared.entry.Entry.{Entry};
ghost use Rattle.wac_graph_types.specs.Meaning.{Alike};
ghost use Rattle.wac_graph_types.specs.Pairs.{AreAlike, Holds, slot_of};

use std::marker::Model;

/// How many pairs there is room for.
const ROOM: usize = 512;

/// Some of the pairs that were added: each is in a slot of its own, until another one takes that. It takes no memory.
#[derive(Drop)]
pub(crate) struct Pairs {
    slots: [(usize, usize); ROOM],
}

impl Model for Pairs {
    ghost use Rattle.std.specs.Prelude.{ℕ, List};

    ghost Value = { List (ℕ × ℕ) };

    ghost view = { λ p. p.slots };
}

/// The slot of a pair.
fn slot(i: usize, j: usize) -> usize
    ensures { result ≡ slot_of i j }
{
    i.wrapping_mul(2).wrapping_add(j) % ROOM
}

impl Pairs {
    /// No pair but that of the first entry and itself.
    pub fn new() -> Self
        ensures alike { (es : List Entry) → AreAlike es result }
        ensures empty { (i j : ℕ) → Holds result i j → (i ≡ 0) × (j ≡ 0) }
    {
        Pairs {
            slots: [(0, 0); ROOM],
        }
    }

    /// Whether a pair is held.
    pub fn has(&self, i: usize, j: usize) -> bool
        ensures alike { (es : List Entry) → AreAlike es self.now → IsTrue result → Alike es i j }
        ensures there { IsTrue result ↔ Holds self.now i j }
    {
        match self.slots.get(slot(i, j)) {
            Some((a, b)) => *a == i && *b == j,
            None => false,
        }
    }

    /// Adds a pair. Of the others only the one in its slot is lost.
    pub fn add(&mut self, i: usize, j: usize)
        ensures alike { (es : List Entry) → AreAlike es self.old → Alike es i j → AreAlike es self.new }
        ensures there { Holds self.new i j }
        ensures others { (a b : ℕ) → (slot_of a b ≡ slot_of i j → ⊥) → (Holds self.new a b ↔ Holds self.old a b) }
    {
        self.slots[slot(i, j)] = (i, j);
    }
}

/// Pairs of consecutive types have slots of their own, as far as there are slots.
pub(crate) fn following_pairs_are_kept()
    ensures { (i j k : ℕ) → k < 512 → slot_of (i + k) (j + k) ≡ slot_of i j → k ≡ 0 }
{}
