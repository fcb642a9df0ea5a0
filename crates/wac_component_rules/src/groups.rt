//! Runs of parts of one sort: parameters, results, fields, cases and others, with their words.

use crate::internals::{Part, PartSlot, part_at, part_count};
use crate::mismatch_words::{Step, Words};
use wac_graph_types::{DefinedType, Entry};

/// What parts are of the type that they belong to.
#[derive(Clone, Copy)]
pub(crate) enum Group {
    Parameters,
    Results,
    Fields,
    Cases,
    Flags,
    Elements,
    /// The one part of a list, an option, a stream or a future, and those of a result.
    Inner,
}

/// Consecutive parts of an entry.
#[derive(Clone, Copy)]
pub(crate) struct Run<'a> {
    pub count: usize,
    entry: &'a Entry,
    from: usize,
}

impl<'a> Run<'a> {
    pub fn part(self, at: usize) -> Option<Part<'a>> {
        part_at(self.entry, self.from.checked_add(at)?)
    }
}

/// The group of a defined type's parts.
pub(crate) fn group_of(ty: &DefinedType) -> Group {
    match ty {
        DefinedType::Tuple(_) => Group::Elements,
        DefinedType::Record { .. } => Group::Fields,
        DefinedType::Variant { .. } => Group::Cases,
        DefinedType::Enum(_) => Group::Cases,
        DefinedType::Flags(_) => Group::Flags,
        DefinedType::List(_) => Group::Inner,
        DefinedType::Option(_) => Group::Inner,
        DefinedType::Result { .. } => Group::Inner,
        DefinedType::Alias(_) => Group::Inner,
        DefinedType::Stream(_) => Group::Inner,
        DefinedType::Future(_) => Group::Inner,
    }
}

impl Group {
    /// The parts of this group in a defined type or a function type.
    pub fn run(self, entry: &Entry) -> Run<'_> {
        let all = part_count(entry);
        let params = match entry {
            Entry::Func(func) => func.params.len(),
            _ => 0,
        };
        match self {
            Group::Parameters => Run {
                count: params,
                entry,
                from: all.saturating_sub(params),
            },
            _ => Run {
                count: all.saturating_sub(params),
                entry,
                from: 0,
            },
        }
    }

    fn word(self) -> &'static str {
        match self {
            Group::Parameters => "parameter",
            Group::Results => "result",
            Group::Fields => "field",
            Group::Cases => "case",
            Group::Flags => "flag",
            Group::Elements => "element",
            Group::Inner => "element",
        }
    }

    fn words_of_many(self) -> &'static str {
        match self {
            Group::Parameters => "parameters",
            Group::Results => "results",
            Group::Fields => "fields",
            Group::Cases => "cases",
            Group::Flags => "flags",
            Group::Elements => "elements",
            Group::Inner => "elements",
        }
    }

    /// So many parts, in words.
    pub fn counted(self, count: usize) -> Words<'static> {
        if count == 1 {
            Words::Count(count, self.word())
        } else {
            Words::Count(count, self.words_of_many())
        }
    }

    /// A part's name, in words.
    pub fn words(self, slot: PartSlot<'_>) -> Words<'_> {
        match slot {
            PartSlot::Named(name) => Words::Named(self.word(), name),
            PartSlot::Given(Some(name)) => Words::Named("result", name),
            PartSlot::Given(None) => Words::Plain("result without a name"),
            PartSlot::Only => Words::Plain("element"),
            PartSlot::Ok => Words::Plain("ok"),
            PartSlot::Err => Words::Plain("err"),
        }
    }

    /// The step to the part with this slot and place.
    pub fn step(self, slot: PartSlot<'_>, at: usize) -> Step<'_> {
        match (slot, self) {
            (PartSlot::Named(name), Group::Parameters) => Step::Parameter(name),
            (PartSlot::Named(name), Group::Fields) => Step::Field(name),
            (PartSlot::Named(name), _) => Step::Case(name),
            (PartSlot::Given(Some(name)), _) => Step::NamedResult(name),
            (PartSlot::Given(None), _) => Step::Result,
            (PartSlot::Ok, _) => Step::Ok,
            (PartSlot::Err, _) => Step::Err,
            (PartSlot::Only, Group::Elements) => Step::Element(at),
            (PartSlot::Only, _) => Step::Inner,
        }
    }
}
