//! The kinds in an entry, one by one.
ghost use Rattle.std.specs.Prelude.{◌≡◌, [], ◌∷◌, ◌<◌, ◌^◌, IsTrue, ◌↔◌, length, slice_get, option_map, string_bytes};
ghost use Rattle.wac_graph_types.specs.Entry.{children, child_view, slot_of, value_children, case_children, name_children, tuple_children, use_children, import_children, export_children, extern_children, named_result_children, result_children, sort_of};

use crate::entry::{
    DefinedType, Entry, FuncResults, FuncType, Interface, Resource, UsedType, World,
};
use crate::kind::{ItemKind, Sort, Type, ValueType};
use indexmap::{IndexMap, IndexSet};

/// Where in an entry a kind is.
#[derive(Clone, Copy)]
pub enum Place<'a> {
    Only,
    Ok,
    Err,
    Named(&'a str),
    Given(Option<&'a str>),
    Owner,
    Source,
    Used(&'a str, Option<&'a str>),
    Import(&'a str),
    Export(&'a str),
}

/// A kind in an entry, if it is given.
#[derive(Clone, Copy)]
pub struct Child<'a> {
    pub place: Place<'a>,
    pub kind: Option<ItemKind>,
}

fn same_text(a: Option<&str>, b: Option<&str>) -> bool
    ensures { IsTrue result ↔ (option_map (λ s. s.now) a.entry ≡ option_map (λ s. s.now) b.entry) }
{
    match (a, b) {
        (None, None) => true,
        (Some(a), Some(b)) => a == b,
        _ => false,
    }
}

impl<'a> Place<'a> {
    /// Whether both are one place.
    pub fn same(self, other: Place<'_>) -> bool
        ensures { IsTrue result ↔ (slot_of self.entry ≡ slot_of other.entry) }
    {
        match (self, other) {
            (Place::Only, Place::Only) => true,
            (Place::Ok, Place::Ok) => true,
            (Place::Err, Place::Err) => true,
            (Place::Named(a), Place::Named(b)) => a == b,
            (Place::Given(a), Place::Given(b)) => same_text(a, b),
            (Place::Owner, Place::Owner) => true,
            (Place::Source, Place::Source) => true,
            (Place::Used(a, c), Place::Used(b, d)) => a == b && same_text(c, d),
            (Place::Import(a), Place::Import(b)) => a == b,
            (Place::Export(a), Place::Export(b)) => a == b,
            _ => false,
        }
    }
}

fn only(at: usize, place: Place<'_>, kind: Option<ItemKind>) -> Option<Child<'_>>
    ensures { option_map child_view result ≡ slice_get ((slot_of place.entry, kind) ∷ []) at }
{
    if at == 0 {
        Some(Child { place, kind })
    } else {
        None
    }
}

fn value(kind: Option<ValueType>) -> Option<ItemKind>
    ensures { result ≡ option_map (λ v. ItemKind.Value v) kind }
{
    match kind {
        None => None,
        Some(v) => Some(ItemKind::Value(v)),
    }
}

fn item(types: &[ValueType], at: usize) -> Option<Child<'_>>
    ensures { option_map child_view result ≡ slice_get (tuple_children types.now) at }
{
    match types.get(at) {
        None => None,
        Some(v) => Some(Child {
            place: Place::Only,
            kind: Some(ItemKind::Value(*v)),
        }),
    }
}

fn case(cases: &IndexMap<String, Option<ValueType>>, at: usize) -> Option<Child<'_>>
    ensures { option_map child_view result ≡ slice_get (case_children cases.now.entries) at }
{
    match cases.get_index(at) {
        None => None,
        Some((name, v)) => Some(Child {
            place: Place::Named(name.as_str()),
            kind: value(*v),
        }),
    }
}

fn named(fields: &IndexMap<String, ValueType>, at: usize) -> Option<Child<'_>>
    ensures { option_map child_view result ≡ slice_get (value_children fields.now.entries) at }
{
    match fields.get_index(at) {
        None => None,
        Some((name, v)) => Some(Child {
            place: Place::Named(name.as_str()),
            kind: Some(ItemKind::Value(*v)),
        }),
    }
}

fn given(results: &IndexMap<String, ValueType>, at: usize) -> Option<Child<'_>>
    ensures { option_map child_view result ≡ slice_get (named_result_children results.now.entries) at }
{
    match results.get_index(at) {
        None => None,
        Some((name, v)) => Some(Child {
            place: Place::Given(Some(name.as_str())),
            kind: Some(ItemKind::Value(*v)),
        }),
    }
}

fn name(names: &IndexSet<String>, at: usize) -> Option<Child<'_>>
    ensures { option_map child_view result ≡ slice_get (name_children names.now.keys) at }
{
    match names.get_index(at) {
        None => None,
        Some(name) => Some(Child {
            place: Place::Named(name.as_str()),
            kind: None,
        }),
    }
}

fn text(name: &Option<String>) -> Option<&str>
    ensures { option_map (λ s. s.now) result ≡ option_map string_bytes name.now }
{
    match name {
        None => None,
        Some(text) => Some(text.as_str()),
    }
}

fn used(uses: &IndexMap<String, UsedType>, at: usize) -> Option<Child<'_>>
    ensures { option_map child_view result ≡ slice_get (use_children uses.now.entries) at }
{
    match uses.get_index(at) {
        None => None,
        Some((name, u)) => Some(Child {
            place: Place::Used(name.as_str(), text(&u.name)),
            kind: Some(ItemKind::Instance(u.interface)),
        }),
    }
}

fn import(imports: &IndexMap<String, ItemKind>, at: usize) -> Option<Child<'_>>
    ensures { option_map child_view result ≡ slice_get (import_children imports.now.entries) at }
{
    match imports.get_index(at) {
        None => None,
        Some((name, kind)) => Some(Child {
            place: Place::Import(name.as_str()),
            kind: Some(*kind),
        }),
    }
}

pub(crate) fn export(exports: &IndexMap<String, ItemKind>, at: usize) -> Option<Child<'_>>
    ensures { option_map child_view result ≡ slice_get (export_children exports.now.entries) at }
{
    match exports.get_index(at) {
        None => None,
        Some((name, kind)) => Some(Child {
            place: Place::Export(name.as_str()),
            kind: Some(*kind),
        }),
    }
}

fn extern_at<'a>(
    imports: &'a IndexMap<String, ItemKind>,
    exports: &'a IndexMap<String, ItemKind>,
    at: u128,
) -> Option<Child<'a>>
    requires { at < length (extern_children imports.now.entries exports.now.entries) }
    ensures { option_map child_view result ≡ slice_get (extern_children imports.now.entries exports.now.entries) at }
{
    let count = imports.len() as u128;
    let _exports = exports.len();
    if at < count {
        import(imports, at as usize)
    } else {
        export(exports, (at - count) as usize)
    }
}

fn either(ok: Option<ValueType>, err: Option<ValueType>, at: usize) -> Option<Child<'static>>
    ensures { option_map child_view result ≡ slice_get (children (Entry.Defined (DefinedType.Result ok err))) at }
{
    match at {
        0 => Some(Child {
            place: Place::Ok,
            kind: value(ok),
        }),
        1 => Some(Child {
            place: Place::Err,
            kind: value(err),
        }),
        _ => None,
    }
}

impl DefinedType {
    fn len(&self) -> usize
        ensures { result ≡ length (children (Entry.Defined self.now)) }
    {
        match self {
            DefinedType::Tuple(types) => types.len(),
            DefinedType::List(_) => 1,
            DefinedType::Option(_) => 1,
            DefinedType::Result { .. } => 2,
            DefinedType::Variant { cases } => cases.len(),
            DefinedType::Record { fields } => fields.len(),
            DefinedType::Flags(names) => names.len(),
            DefinedType::Enum(names) => names.len(),
            DefinedType::Alias(_) => 1,
            DefinedType::Stream(_) => 1,
            DefinedType::Future(_) => 1,
        }
    }

    fn child(&self, at: usize) -> Option<Child<'_>>
        ensures { option_map child_view result ≡ slice_get (children (Entry.Defined self.now)) at }
    {
        match self {
            DefinedType::Tuple(types) => item(types, at),
            DefinedType::List(t) => only(at, Place::Only, value(Some(*t))),
            DefinedType::Option(t) => only(at, Place::Only, value(Some(*t))),
            DefinedType::Result { ok, err } => either(*ok, *err, at),
            DefinedType::Variant { cases } => case(cases, at),
            DefinedType::Record { fields } => named(fields, at),
            DefinedType::Flags(names) => name(names, at),
            DefinedType::Enum(names) => name(names, at),
            DefinedType::Alias(t) => only(at, Place::Only, value(Some(*t))),
            DefinedType::Stream(t) => only(at, Place::Only, value(*t)),
            DefinedType::Future(t) => only(at, Place::Only, value(*t)),
        }
    }
}

impl Resource {
    fn len(&self) -> usize
        ensures { result ≡ length (children (Entry.Resource self.now)) }
    {
        match self.alias {
            None => 0,
            Some(_) => 2,
        }
    }

    fn child(&self, at: usize) -> Option<Child<'_>>
        ensures { option_map child_view result ≡ slice_get (children (Entry.Resource self.now)) at }
    {
        let alias = self.alias?;
        if at == 0 {
            let owner = match alias.owner {
                None => None,
                Some(id) => Some(ItemKind::Instance(id)),
            };
            return Some(Child {
                place: Place::Owner,
                kind: owner,
            });
        }
        only(
            at - 1,
            Place::Source,
            Some(ItemKind::Ty(Type::Resource(alias.source))),
        )
    }
}

impl FuncResults {
    fn len(&self) -> usize
        ensures len { result ≡ length (result_children self.now) }
        ensures small { result < 2 ^ 63 }
    {
        match self {
            FuncResults::None => 0,
            FuncResults::Scalar(_) => 1,
            FuncResults::Named(results) => results.len(),
        }
    }

    fn child(&self, at: usize) -> Option<Child<'_>>
        ensures { option_map child_view result ≡ slice_get (result_children self.now) at }
    {
        match self {
            FuncResults::None => None,
            FuncResults::Scalar(v) => only(at, Place::Given(None), value(Some(*v))),
            FuncResults::Named(results) => given(results, at),
        }
    }
}

impl FuncType {
    fn len(&self) -> usize
        ensures { result ≡ length (children (Entry.Func self.now)) }
    {
        self.results.len() + self.params.len()
    }

    fn child(&self, at: usize) -> Option<Child<'_>>
        ensures { option_map child_view result ≡ slice_get (children (Entry.Func self.now)) at }
    {
        let results = self.results.len();
        if at < results {
            self.results.child(at)
        } else {
            named(&self.params, at - results)
        }
    }
}

impl Interface {
    fn len(&self) -> usize
        ensures { result ≡ length (children (Entry.Interface self.now)) }
    {
        self.uses.len() + self.exports.len()
    }

    fn child(&self, at: usize) -> Option<Child<'_>>
        ensures { option_map child_view result ≡ slice_get (children (Entry.Interface self.now)) at }
    {
        let uses = self.uses.len();
        if at < uses {
            used(&self.uses, at)
        } else {
            export(&self.exports, at - uses)
        }
    }
}

impl World {
    fn len(&self) -> u128
        ensures { result ≡ length (children (Entry.World self.now)) }
    {
        self.uses.len() as u128 + self.imports.len() as u128 + self.exports.len() as u128
    }

    fn child(&self, at: u128) -> Option<Child<'_>>
        requires { at < length (children (Entry.World self.now)) }
        ensures { option_map child_view result ≡ slice_get (children (Entry.World self.now)) at }
    {
        let uses = self.uses.len() as u128;
        if at < uses {
            used(&self.uses, at as usize)
        } else {
            extern_at(&self.imports, &self.exports, at - uses)
        }
    }
}

impl Entry {
    pub(crate) fn sort(&self) -> Sort
        ensures { result ≡ sort_of self.now }
    {
        match self {
            Entry::Defined(_) => Sort::Defined,
            Entry::Resource(_) => Sort::Resource,
            Entry::Func(_) => Sort::Func,
            Entry::Interface(_) => Sort::Interface,
            Entry::World(_) => Sort::World,
        }
    }

    /// The number of kinds in it, which a `usize` need not hold.
    pub fn len(&self) -> u128
        ensures { result ≡ length (children self.now) }
    {
        match self {
            Entry::Defined(d) => d.len() as u128,
            Entry::Resource(r) => r.len() as u128,
            Entry::Func(f) => f.len() as u128,
            Entry::Interface(i) => i.len() as u128,
            Entry::World(w) => w.len(),
        }
    }

    /// The kind at a place.
    pub fn child(&self, at: u128) -> Option<Child<'_>>
        requires { at < length (children self.now) }
        ensures { option_map child_view result ≡ slice_get (children self.now) at }
    {
        match self {
            Entry::Defined(d) => {
                let _count = d.len();
                d.child(at as usize)
            }
            Entry::Resource(r) => {
                let _count = r.len();
                r.child(at as usize)
            }
            Entry::Func(f) => {
                let _count = f.len();
                f.child(at as usize)
            }
            Entry::Interface(i) => {
                let _count = i.len();
                i.child(at as usize)
            }
            Entry::World(w) => w.child(at),
        }
    }
}
