//! The order in which types are declared.

use crate::fault::Fault;
use crate::mentions::mentioned_by;
use crate::resources::Members;
use crate::scope::{Entry, Kind, Scope, View};
use crate::steps::Steps;
use indexmap::IndexSet;
use std::alloc::{AllocError, Global};
use wac_components_types::{NameId, Table};

/// A type that is to be declared.
struct Waiting {
    name: NameId,
    place: usize,
    is_resource: bool,
    /// The names that its declaration mentions.
    mentions: IndexSet<NameId>,
}

impl Drop for Waiting {
    fn drop(self) {
        let Waiting {
            name: _,
            place: _,
            is_resource: _,
            mentions: _,
        } = self;
    }
}

/// A type whose turn it is, by its place, and whether it is in a circle of names.
#[derive(Clone, Copy)]
pub(crate) struct Turn {
    pub name: NameId,
    pub place: usize,
    pub in_circle: bool,
}

/// Whether all that a type mentions but itself is declared.
fn is_ready(waiting: &Waiting, declared: &IndexSet<NameId>) -> bool {
    for name in waiting.mentions.iter() {
        if *name != waiting.name && !declared.contains(name) {
            return false;
        }
    }
    true
}

/// The types that wait, those that are declared, and the turns so far.
struct Queue {
    waiting: Vec<Waiting>,
    declared: IndexSet<NameId>,
    turns: Vec<Turn>,
}

impl Drop for Queue {
    fn drop(self) {
        let Queue {
            waiting: _,
            declared: _,
            turns: _,
        } = self;
    }
}

impl Queue {
    fn new(alloc: Global) -> Self {
        Queue {
            waiting: Vec::new(alloc),
            declared: IndexSet::new(alloc),
            turns: Vec::new(alloc),
        }
    }

    fn into_turns(self) -> Vec<Turn> {
        let Queue {
            waiting: _,
            declared: _,
            turns,
        } = self;
        turns
    }

    fn add(
        &mut self,
        declared: (NameId, Kind),
        place: usize,
        mentions: IndexSet<NameId>,
    ) -> Result<(), AllocError> {
        let (name, kind) = declared;
        self.waiting.push(Waiting {
            name,
            place,
            is_resource: is_resource(kind),
            mentions,
        })?;
        Ok(())
    }

    /// Notes that a type is declared.
    fn note(&mut self, name: NameId) -> Result<(), AllocError> {
        self.declared.insert(name)?;
        Ok(())
    }

    /// Adds the item at a place: a type that is declared waits, one that is used is there.
    fn add_at(
        &mut self,
        steps: &mut Steps,
        place: usize,
        members: &Members,
        view: View<'_>,
    ) -> Result<(), Fault> {
        let Some((name, Entry { kind, names })) = view.scope.entry(place) else {
            return Ok(());
        };
        match kind {
            Kind::Alias(_) | Kind::Resource | Kind::Type(_) => {
                let all = mentioned_by(steps, (name, kind), members, view.with(names))?;
                self.add((name, kind), place, all)?;
            }
            Kind::Used(_) => self.note(name)?,
            _ => {}
        }
        Ok(())
    }

    /// Adds the types of a scope.
    fn add_all(
        &mut self,
        steps: &mut Steps,
        members: &Members,
        view: View<'_>,
    ) -> Result<(), Fault> {
        for place in 0..view.scope.entries.len() {
            self.add_at(steps, place, members, view)?;
        }
        Ok(())
    }

    /// The place of the first type that is ready, if one is.
    fn first_ready(&self, steps: &mut Steps) -> Result<Option<usize>, Fault> {
        for place in 0..self.waiting.len() {
            if let Some(waiting) = self.waiting.get(place) {
                steps.take((waiting.mentions.len() as u64).saturating_add(1))?;
                if is_ready(waiting, &self.declared) {
                    return Ok(Some(place));
                }
            }
        }
        Ok(None)
    }

    /// The place of the first resource, or 0.
    fn first_resource(&self) -> usize {
        for place in 0..self.waiting.len() {
            if let Some(waiting) = self.waiting.get(place) {
                if waiting.is_resource {
                    return place;
                }
            }
        }
        0
    }

    /// It is the turn of the type at a place.
    fn take_turn(&mut self, chosen: usize, in_circle: bool) -> Result<(), AllocError> {
        if chosen >= self.waiting.len() {
            return Ok(());
        }
        let next = self.waiting.remove(chosen);
        let (name, place) = (next.name, next.place);
        self.turns.push(Turn {
            name,
            place,
            in_circle,
        })?;
        self.note(name)
    }

    /// It is the turn of the first type that is ready, else of the first resource.
    fn next(&mut self, steps: &mut Steps) -> Result<(), Fault> {
        steps.take(self.waiting.len() as u64)?;
        let ready = self.first_ready(steps)?;
        let chosen = match ready {
            Some(place) => place,
            None => self.first_resource(),
        };
        self.take_turn(chosen, ready.is_none())?;
        Ok(())
    }

    /// It is the turn of all, one after another.
    fn all_turns(&mut self, steps: &mut Steps) -> Result<(), Fault> {
        for _ in 0..self.waiting.len() {
            self.next(steps)?;
        }
        Ok(())
    }
}

/// The types that a scope declares, each after those that it mentions, as far as there is no circle.
pub(crate) fn turns(
    steps: &mut Steps,
    table: &Table,
    members: &Members,
    scope: &Scope,
) -> Result<Vec<Turn>, Fault> {
    let mut queue = Queue::new(scope.alloc);
    let view = View {
        table,
        scope,
        names: 0,
    };
    queue.add_all(steps, members, view)?;
    queue.all_turns(steps)?;
    Ok(queue.into_turns())
}

fn is_resource(kind: Kind) -> bool {
    match kind {
        Kind::Resource => true,
        _ => false,
    }
}
