//! Pairs of entries that were compared, so that few are compared again.
ghost use Rattle.std.specs.Prelude.{ℕ, ◌<◌, List, IsTrue, IfSome, Bool};
ghost use Rattle.wac_graph_types.specs.declared.entry.Entry.{Entry};
ghost use Rattle.wac_component_rules.specs.Found.{AllFit, EntryFits, EntryTells};

use indexmap::IndexMap;
use std::alloc::{AllocError, Global};
use std::marker::Model;

/// How many pairs that fit there is room for without memory.
const ROOM: usize = 1024;

/// Pairs that were compared.
///
/// Of those that fit some are in slots, each in one of its own until another one takes that, which takes no memory.
/// Pairs that were compared ahead, and whether they fit, are kept for as long as kinds are compared.
#[derive(Drop)]
pub struct Found {
    slots: [Option<(usize, usize)>; ROOM],
    answers: Vec<((usize, usize), bool)>,
    /// Where each pair's answer is. The pair at that place is read before its answer is used.
    places: IndexMap<(usize, usize), usize>,
}

impl Model for Found {
    ghost use Rattle.std.specs.Prelude.{ℕ, List, Option, Bool};

    ghost Value = { List (Option (ℕ × ℕ)) × List ((ℕ × ℕ) × Bool) };

    ghost view = { λ p. (p.slots, p.answers.items) };
}

fn slot(i: usize, j: usize) -> usize
    ensures { result < 1024 }
{
    i.wrapping_mul(3).wrapping_add(j.wrapping_mul(5)) % ROOM
}

impl Found {
    /// No pair. Those that are kept take memory from `alloc`.
    pub fn new(alloc: Global) -> Self
        ensures { (es : List Entry) → AllFit es result }
    {
        Found {
            slots: [None; ROOM],
            answers: Vec::new(alloc),
            places: IndexMap::new(alloc),
        }
    }

    pub(crate) fn allocator(&self) -> Global {
        *self.answers.allocator()
    }

    /// Whether a pair that fits is in its slot.
    pub(crate) fn has(&self, i: usize, j: usize) -> bool
        ensures { (es : List Entry) → AllFit es self.now → IsTrue result → EntryFits es i j }
    {
        match self.slots.get(slot(i, j)) {
            Some(Some((a, b))) => *a == i && *b == j,
            _ => false,
        }
    }

    /// Puts a pair that fits into its slot. Of the others only the one in that slot is lost.
    pub(crate) fn add(&mut self, i: usize, j: usize)
        ensures { (es : List Entry) → AllFit es self.old → EntryFits es i j → AllFit es self.new }
    {
        self.slots[slot(i, j)] = Some((i, j));
    }

    /// Whether a pair fits, if its answer is kept.
    pub(crate) fn answer(&self, i: usize, j: usize) -> Option<bool>
        ensures { (es : List Entry) → AllFit es self.now → IfSome result (EntryTells es i j) }
    {
        let place = match self.places.get(&(i, j)) {
            None => return None,
            Some(place) => *place,
        };
        match self.answers.get(place) {
            None => None,
            Some(((a, b), fits)) => {
                if *a == i && *b == j {
                    Some(*fits)
                } else {
                    None
                }
            }
        }
    }

    /// Keeps whether a pair fits.
    pub(crate) fn keep(&mut self, i: usize, j: usize, fits: bool) -> Result<(), AllocError>
        ensures { (es : List Entry) → AllFit es self.old → EntryTells es i j fits → AllFit es self.new }
    {
        let place = self.answers.len();
        self.answers.push(((i, j), fits))?;
        self.places.insert((i, j), place)?;
        Ok(())
    }
}
