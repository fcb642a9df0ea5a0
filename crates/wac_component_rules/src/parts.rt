//! The parts of defined types and of function types, one by one.
ghost use Rattle.std.specs.Prelude.{◌≡◌, [], ◌∷◌, ◌++◌, ◌<◌, ◌^◌, IsTrue, ◌↔◌, length, slice_get, option_map, string_bytes};
ghost use Rattle.wac_graph_types.specs.Entry.{optional, defined_children, value_children, case_children, name_children, tuple_children, named_result_children, result_children, children, sort_of, Slot};
ghost use Rattle.wac_component_rules.specs.Parts.{slot_of, part_view, parts_of, plain_of, aliased_in, aliased_by};

use indexmap::{IndexMap, IndexSet};
use wac_graph_types::{DefinedType, Entry, FuncResults, FuncType, ValueType};

/// Where in an entry a part is.
#[derive(Clone, Copy)]
pub enum PartSlot<'a> {
    Only,
    Ok,
    Err,
    Named(&'a str),
    Given(Option<&'a str>),
}

/// A part, with its type, if it has one.
#[derive(Clone, Copy)]
pub struct Part<'a> {
    pub slot: PartSlot<'a>,
    pub value: Option<ValueType>,
}

fn same_text(a: Option<&str>, b: Option<&str>) -> bool
    ensures { IsTrue result ↔ (option_map (λ s. s.now) a.entry ≡ option_map (λ s. s.now) b.entry) }
{
    match (a, b) {
        (None, None) => true,
        (Some(a), Some(b)) => a == b,
        _ => false,
    }
}

impl<'a> PartSlot<'a> {
    pub fn same(self, other: PartSlot<'_>) -> bool
        ensures { IsTrue result ↔ (slot_of self.entry ≡ slot_of other.entry) }
    {
        match (self, other) {
            (PartSlot::Only, PartSlot::Only) => true,
            (PartSlot::Ok, PartSlot::Ok) => true,
            (PartSlot::Err, PartSlot::Err) => true,
            (PartSlot::Named(a), PartSlot::Named(b)) => a == b,
            (PartSlot::Given(a), PartSlot::Given(b)) => same_text(a, b),
            _ => false,
        }
    }
}

fn at_only(at: usize, value: Option<ValueType>) -> Option<Part<'static>>
    ensures { option_map part_view result ≡ slice_get ((Slot.only, optional value) ∷ []) at }
{
    if at == 0 {
        Some(Part {
            slot: PartSlot::Only,
            value,
        })
    } else {
        None
    }
}

fn at_result(at: usize, ok: Option<ValueType>, err: Option<ValueType>) -> Option<Part<'static>>
    ensures { option_map part_view result ≡ slice_get (defined_children (DefinedType.Result ok err)) at }
{
    match at {
        0 => Some(Part {
            slot: PartSlot::Ok,
            value: ok,
        }),
        1 => Some(Part {
            slot: PartSlot::Err,
            value: err,
        }),
        _ => None,
    }
}

fn at_scalar(at: usize, value: ValueType) -> Option<Part<'static>>
    ensures { option_map part_view result ≡ slice_get (result_children (FuncResults.Scalar value)) at }
{
    if at == 0 {
        Some(Part {
            slot: PartSlot::Given(None),
            value: Some(value),
        })
    } else {
        None
    }
}

fn at_item(types: &[ValueType], at: usize) -> Option<Part<'_>>
    ensures { option_map part_view result ≡ slice_get (tuple_children types.now) at }
{
    match types.get(at) {
        None => None,
        Some(v) => Some(Part {
            slot: PartSlot::Only,
            value: Some(*v),
        }),
    }
}

fn at_case(cases: &IndexMap<String, Option<ValueType>>, at: usize) -> Option<Part<'_>>
    ensures { option_map part_view result ≡ slice_get (case_children cases.now.entries) at }
{
    match cases.get_index(at) {
        None => None,
        Some((name, v)) => Some(Part {
            slot: PartSlot::Named(name.as_str()),
            value: *v,
        }),
    }
}

fn at_field(fields: &IndexMap<String, ValueType>, at: usize) -> Option<Part<'_>>
    ensures { option_map part_view result ≡ slice_get (value_children fields.now.entries) at }
{
    match fields.get_index(at) {
        None => None,
        Some((name, v)) => Some(Part {
            slot: PartSlot::Named(name.as_str()),
            value: Some(*v),
        }),
    }
}

fn at_named_result(results: &IndexMap<String, ValueType>, at: usize) -> Option<Part<'_>>
    ensures { option_map part_view result ≡ slice_get (named_result_children results.now.entries) at }
{
    match results.get_index(at) {
        None => None,
        Some((name, v)) => Some(Part {
            slot: PartSlot::Given(Some(name.as_str())),
            value: Some(*v),
        }),
    }
}

fn at_name(names: &IndexSet<String>, at: usize) -> Option<Part<'_>>
    ensures { option_map part_view result ≡ slice_get (name_children names.now.keys) at }
{
    match names.get_index(at) {
        None => None,
        Some(name) => Some(Part {
            slot: PartSlot::Named(name.as_str()),
            value: None,
        }),
    }
}

fn defined_count(ty: &DefinedType) -> usize
    ensures { result ≡ length (defined_children ty.now) }
{
    match ty {
        DefinedType::Tuple(types) => types.len(),
        DefinedType::List(_) => 1,
        DefinedType::Option(_) => 1,
        DefinedType::Result { .. } => 2,
        DefinedType::Variant { cases } => cases.len(),
        DefinedType::Record { fields } => fields.len(),
        DefinedType::Flags(names) => names.len(),
        DefinedType::Enum(names) => names.len(),
        DefinedType::Alias(_) => 1,
        DefinedType::Stream(_) => 1,
        DefinedType::Future(_) => 1,
    }
}

fn defined_part(ty: &DefinedType, at: usize) -> Option<Part<'_>>
    ensures { option_map part_view result ≡ slice_get (defined_children ty.now) at }
{
    match ty {
        DefinedType::Tuple(types) => at_item(types, at),
        DefinedType::List(t) => at_only(at, Some(*t)),
        DefinedType::Option(t) => at_only(at, Some(*t)),
        DefinedType::Result { ok, err } => at_result(at, *ok, *err),
        DefinedType::Variant { cases } => at_case(cases, at),
        DefinedType::Record { fields } => at_field(fields, at),
        DefinedType::Flags(names) => at_name(names, at),
        DefinedType::Enum(names) => at_name(names, at),
        DefinedType::Alias(t) => at_only(at, Some(*t)),
        DefinedType::Stream(t) => at_only(at, *t),
        DefinedType::Future(t) => at_only(at, *t),
    }
}

fn result_count(results: &FuncResults) -> usize
    ensures len { result ≡ length (result_children results.now) }
    ensures small { result < 2 ^ 63 }
{
    match results {
        FuncResults::None => 0,
        FuncResults::Scalar(_) => 1,
        FuncResults::Named(named) => named.len(),
    }
}

fn result_part(results: &FuncResults, at: usize) -> Option<Part<'_>>
    ensures { option_map part_view result ≡ slice_get (result_children results.now) at }
{
    match results {
        FuncResults::None => None,
        FuncResults::Scalar(v) => at_scalar(at, *v),
        FuncResults::Named(named) => at_named_result(named, at),
    }
}

fn func_count(func: &FuncType) -> usize
    ensures { result ≡ length (children (Entry.Func func.now)) }
{
    result_count(&func.results) + func.params.len()
}

fn func_part(func: &FuncType, at: usize) -> Option<Part<'_>>
    ensures { option_map part_view result ≡ slice_get (children (Entry.Func func.now)) at }
{
    let results = result_count(&func.results);
    if at < results {
        result_part(&func.results, at)
    } else {
        at_field(&func.params, at - results)
    }
}

/// The number of parts of a defined type or a function type.
pub fn part_count(entry: &Entry) -> usize
    ensures { result ≡ length (parts_of entry.now) }
{
    match entry {
        Entry::Defined(ty) => defined_count(ty),
        Entry::Func(func) => func_count(func),
        Entry::Resource(_) => 0,
        Entry::Interface(_) => 0,
        Entry::World(_) => 0,
    }
}

/// The part of a defined type or a function type at a place.
pub fn part_at(entry: &Entry, at: usize) -> Option<Part<'_>>
    ensures { option_map part_view result ≡ slice_get (parts_of entry.now) at }
{
    match entry {
        Entry::Defined(ty) => defined_part(ty, at),
        Entry::Func(func) => func_part(func, at),
        Entry::Resource(_) => None,
        Entry::Interface(_) => None,
        Entry::World(_) => None,
    }
}

/// Whether two defined types, or two function types, are alike apart from their parts.
pub fn same_constructor(first: &Entry, second: &Entry) -> bool
    requires { sort_of first.now ≡ sort_of second.now }
    ensures { IsTrue result ↔ (plain_of first.now ≡ plain_of second.now) }
{
    match (first, second) {
        (Entry::Defined(a), Entry::Defined(b)) => a.same_shape(b),
        (Entry::Func(a), Entry::Func(b)) => a.is_async == b.is_async,
        _ => true,
    }
}

fn aliased_type(ty: &DefinedType) -> Option<ValueType>
    ensures { result ≡ aliased_by ty.now }
{
    match ty {
        DefinedType::Alias(t) => Some(*t),
        _ => None,
    }
}

/// The type that an entry is another name of, if it is an alias of a type of values.
pub fn aliased(entry: &Entry) -> Option<ValueType>
    ensures { result ≡ aliased_in entry.now }
{
    match entry {
        Entry::Defined(ty) => aliased_type(ty),
        Entry::Resource(_) => None,
        Entry::Func(_) => None,
        Entry::Interface(_) => None,
        Entry::World(_) => None,
    }
}
