//! How large packages are, and how large those of texts may be together.
ghost use Rattle.std.specs.Prelude.{◌↔◌, ◌+◌, ◌≤◌, IsTrue};

use std::alloc::{AllocError, Global};
use wac_graph_types::internals::Place;
use wac_graph_types::{Entry, Types};

/// How large the packages of texts may be together, beside one for each byte of the texts.
const ROOM: u64 = 300_000;

/// How large the packages of texts are, and how large they may be together.
#[derive(Drop)]
pub(crate) struct Sizes {
    /// By the numbers of the texts; 0 for a text whose package isn't made.
    pub(crate) of_texts: Vec<u64>,
    pub(crate) total: u64,
    pub(crate) most: u64,
}

impl Sizes {
    /// The sizes of packages of which none is made.
    pub(crate) fn of(alloc: Global, texts: &[&str]) -> Result<Self, AllocError> {
        let mut of_texts = Vec::with_capacity(alloc, texts.len())?;
        let mut most = ROOM;
        for text in texts {
            of_texts.push(0)?;
            most = most.saturating_add(text.len() as u64);
        }
        Ok(Sizes {
            of_texts,
            total: 0,
            most,
        })
    }

    /// Whether so much more is no more than all may be together.
    pub(crate) fn has_room(&self, size: u64) -> bool
        ensures { IsTrue result ↔ (self.now.total + size ≤ self.now.most) }
    {
        self.total <= self.most && size <= self.most - self.total
    }

    /// The size of the package of a text.
    pub(crate) fn of_text(&self, text: usize) -> u64 {
        match self.of_texts.get(text) {
            Some(size) => *size,
            None => 0,
        }
    }

    /// Notes the size of the package of a text.
    pub(crate) fn note(&mut self, text: usize, size: u64) {
        if let Some(noted) = self.of_texts.get_mut(text) {
            *noted = size;
        }
        self.total = self.total.saturating_add(size);
    }
}

/// What a name counts beside what it names: names of usual length nothing.
fn size_of_name(name: &str) -> u64 {
    (name.len() / 32) as u64
}

/// What a name counts, if there is one.
fn size_of_optional(name: Option<&str>) -> u64 {
    match name {
        Some(name) => size_of_name(name),
        None => 0,
    }
}

/// What the names of a place in an entry count.
fn size_of_place(place: Place<'_>) -> u64 {
    match place {
        Place::Named(name) | Place::Import(name) | Place::Export(name) => size_of_name(name),
        Place::Given(name) => size_of_optional(name),
        Place::Used(name, other) => { size_of_name(name).saturating_add(size_of_optional(other)) }
        Place::Only | Place::Ok | Place::Err | Place::Owner | Place::Source => 0,
    }
}

/// What the name of an entry counts.
fn size_of_own_name(entry: &Entry) -> u64 {
    match entry {
        Entry::Resource(resource) => size_of_name(resource.name.as_str()),
        Entry::Interface(interface) => size_of_id(&interface.id),
        Entry::World(world) => size_of_id(&world.id),
        Entry::Defined(_) | Entry::Func(_) => 0,
    }
}

/// What an id counts, if there is one.
fn size_of_id(id: &Option<String>) -> u64 {
    match id {
        Some(id) => size_of_name(id.as_str()),
        None => 0,
    }
}

/// The size of an entry: one for itself, one for each kind in it, and one for each 32 bytes of a name.
fn size_of_entry(entry: &Entry) -> u64 {
    let mut size = size_of_own_name(entry).saturating_add(1);
    for at in 0..entry.len() {
        if let Some(child) = entry.child(at) {
            size = size
                .saturating_add(1)
                .saturating_add(size_of_place(child.place));
        }
    }
    size
}

/// The size of a table, which is in proportion to the memory that a copy takes.
pub(crate) fn size_of(types: &Types) -> u64 {
    let mut size: u64 = 0;
    for entry in types.entries() {
        size = size.saturating_add(size_of_entry(entry));
    }
    size
}
