//! Pairs of entries that have to mean the same.
ghost use Rattle.std.specs.Prelude.{◌≡◌, [], IfOk, IfSome, OnOk, slice_get, true};
ghost use Rattle.wac_tool_graphs.specs.Pairs.{AreMadeOne, Follow, FollowWith, Reduces};

use indexmap::IndexMap;
use std::alloc::Global;
use std::marker::Model;

/// No answer was found with the memory that there is.
#[derive(Clone, Copy)]
pub(crate) struct Unanswered;

/// Pairs of numbers of entries, in the order in which they were added.
///
/// Entries that have to mean the same for the pairs to do so are in one class, so that there are fewer pairs than entries.
#[derive(Drop)]
pub(crate) struct Pairs {
    all: Vec<(usize, usize)>,
    /// For an entry another one of its class. Only one of a class, its root, has none.
    leaders: IndexMap<usize, usize>,
}

impl Model for Pairs {
    ghost use Rattle.std.specs.Prelude.{ℕ, List};
    ghost use Rattle.wac_tool_graphs.specs.Pairs.{Follow};

    ghost Value = { List (ℕ × ℕ) };

    ghost view = { λ p. p.all.items };

    ghost invariant = { λ p. Follow p.all.items p.leaders.entries };
}

/// The leader of an entry, if it has one.
fn leader(leaders: &IndexMap<usize, usize>, entry: usize) -> Option<usize>
    ensures { IfSome result (λ leader. AreMadeOne leaders.now.entries entry leader) }
{
    leaders.get(&entry).copied()
}

/// Gives an entry a leader.
fn lead(leaders: &mut IndexMap<usize, usize>, entry: usize, leader: usize) -> Result<(), Unanswered>
    ensures { FollowWith entry leader leaders.old.entries leaders.new.entries }
{
    match leaders.insert(entry, leader) {
        Ok(_) => Ok(()),
        Err(_) => Err(Unanswered),
    }
}

/// The root of the class of an entry. Entries on the way to it come nearer to it, so that ways stay short.
fn root(leaders: &mut IndexMap<usize, usize>, entry: usize) -> Result<usize, Unanswered>
    ensures kept { Follow leaders.old.entries leaders.new.entries }
    ensures root { IfOk result (λ root. AreMadeOne leaders.old.entries entry root) }
{
    let mut at = entry;
    for _ in 0..usize::MAX {
        match leader(leaders, at) {
            None => return Ok(at),
            Some(above) => match leader(leaders, above) {
                None => return Ok(above),
                Some(next) => {
                    lead(leaders, at, next)?;
                    at = next;
                }
            },
        }
    }
    Err(Unanswered)
}

impl Pairs {
    /// No pair. Those that are added take their memory from `alloc`.
    pub fn new(alloc: Global) -> Self
        ensures { result ≡ [] }
    {
        Pairs {
            all: Vec::new(alloc),
            leaders: IndexMap::new(alloc),
        }
    }

    /// The pair at a place.
    pub fn at(&self, place: usize) -> Option<(usize, usize)>
        ensures { result ≡ slice_get self.now place }
    {
        self.all.get(place).copied()
    }

    /// Adds a pair, if the others don't say that its entries mean the same.
    pub fn add(&mut self, first: usize, second: usize) -> Result<(), Unanswered>
        ensures { OnOk result (Reduces (λ means. means first ≡ means second) true self.old self.new) }
    {
        let a = root(&mut self.leaders, first)?;
        let b = root(&mut self.leaders, second)?;
        if a == b {
            return Ok(());
        }
        if self.all.push((first, second)).is_err() {
            return Err(Unanswered);
        }
        lead(&mut self.leaders, a, b)
    }
}
