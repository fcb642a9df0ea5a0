//! Kinds that are tested against their table, and in words.

ghost use Rattle.std.specs.Prelude.{◌≡◌, IsTrue, option_copied};
ghost use Rattle.wac_graph_types.specs.Entry.{sort_of};
ghost use Rattle.wac_graph_types.specs.Kind.{sort_named};
ghost use Rattle.wac_graph_types.specs.declared.kind.Sort.TheVariants as sorts;
ghost use Rattle.wac_graph_types.specs.Table.{IsTable, Names};
ghost use Rattle.wac_component_rules.specs.Found.{AllFit};
ghost use Rattle.wac_component_rules.specs.Paths.{IsPlainly, entry_named};

use crate::internals::{Found, fits_after, number, plain_kind};
use crate::mismatch_words::Words;
use wac_graph_types::{DefinedType, Entry, ItemKind, PrimitiveType, ResourceId, Type, ValueType};

/// Whether an entry is of the sort that a kind names.
fn is_of(entry: &Entry, kind: ItemKind) -> bool
    ensures { IsTrue result → sort_of entry.now ≡ sort_named kind }
{
    match entry {
        Entry::Defined(_) => names_defined(kind),
        Entry::Resource(_) => names_resource(kind),
        Entry::Func(_) => names_func(kind),
        Entry::Interface(_) => names_interface(kind),
        Entry::World(_) => names_world(kind),
    }
}

fn names_defined(kind: ItemKind) -> bool
    ensures { IsTrue result → sort_named kind ≡ sorts.Defined }
{
    match kind {
        ItemKind::Value(ValueType::Defined(_)) => true,
        ItemKind::Ty(Type::Value(ValueType::Defined(_))) => true,
        _ => false,
    }
}

fn names_resource(kind: ItemKind) -> bool
    ensures { IsTrue result → sort_named kind ≡ sorts.Resource }
{
    match kind {
        ItemKind::Value(ValueType::Own(_)) => true,
        ItemKind::Value(ValueType::Borrow(_)) => true,
        ItemKind::Ty(Type::Value(ValueType::Own(_))) => true,
        ItemKind::Ty(Type::Value(ValueType::Borrow(_))) => true,
        ItemKind::Ty(Type::Resource(_)) => true,
        _ => false,
    }
}

fn names_func(kind: ItemKind) -> bool
    ensures { IsTrue result → sort_named kind ≡ sorts.Func }
{
    match kind {
        ItemKind::Func(_) => true,
        ItemKind::Ty(Type::Func(_)) => true,
        _ => false,
    }
}

fn names_interface(kind: ItemKind) -> bool
    ensures { IsTrue result → sort_named kind ≡ sorts.Interface }
{
    match kind {
        ItemKind::Instance(_) => true,
        ItemKind::Ty(Type::Interface(_)) => true,
        _ => false,
    }
}

fn names_world(kind: ItemKind) -> bool
    ensures { IsTrue result → sort_named kind ≡ sorts.World }
{
    match kind {
        ItemKind::Component(_) => true,
        ItemKind::Ty(Type::World(_)) => true,
        _ => false,
    }
}

/// Whether what a kind names, if anything, is an entry of its sort.
fn is_known(entries: &[Entry], kind: ItemKind) -> bool
    ensures { IsTrue result → Names entries.now kind }
{
    match number(kind) {
        None => true,
        Some(number) => match entries.get(number) {
            None => false,
            Some(entry) => is_of(entry, kind),
        },
    }
}

/// Whether the table has both kinds, and the first fits the second. What was found of other kinds isn't compared again.
pub(crate) fn known_fits(entries: &[Entry], found: &mut Found, a: ItemKind, b: ItemKind) -> bool
    requires table { IsTable entries.now }
    requires found { AllFit entries.now found.old }
    ensures found { AllFit entries.now found.new }
{
    if is_known(entries, a) && is_known(entries, b) {
        fits_after(entries, found, a, b)
    } else {
        false
    }
}

/// A kind with aliases seen through, if the table has it.
pub(crate) fn plain(entries: &[Entry], kind: ItemKind) -> ItemKind
    requires table { IsTable entries.now }
    ensures { IsPlainly entries.now kind result }
{
    if is_known(entries, kind) {
        plain_kind(entries, kind)
    } else {
        kind
    }
}

/// The entry that a kind names, if the table has it.
pub(crate) fn entry_of(entries: &[Entry], kind: ItemKind) -> Option<&Entry>
    ensures { option_copied result ≡ entry_named entries.now kind }
{
    match number(kind) {
        None => None,
        Some(number) => entries.get(number),
    }
}

/// The name of a resource's source.
fn resource_name(entries: &[Entry], id: ResourceId) -> &str {
    let mut at = id.0;
    for _ in 0..entries.len() {
        match entries.get(at) {
            Some(Entry::Resource(resource)) => match resource.alias {
                None => return resource.name.as_str(),
                Some(alias) => at = alias.source.0,
            },
            _ => return "",
        }
    }
    ""
}

fn primitive_word(primitive: PrimitiveType) -> &'static str {
    match primitive {
        PrimitiveType::U8 => "u8",
        PrimitiveType::S8 => "s8",
        PrimitiveType::U16 => "u16",
        PrimitiveType::S16 => "s16",
        PrimitiveType::U32 => "u32",
        PrimitiveType::S32 => "s32",
        PrimitiveType::U64 => "u64",
        _ => wide_word(primitive),
    }
}

fn wide_word(primitive: PrimitiveType) -> &'static str {
    match primitive {
        PrimitiveType::S64 => "s64",
        PrimitiveType::F32 => "f32",
        PrimitiveType::F64 => "f64",
        PrimitiveType::Char => "char",
        PrimitiveType::Bool => "bool",
        PrimitiveType::String => "string",
        _ => "error-context",
    }
}

fn defined_word(ty: &DefinedType) -> &'static str {
    match ty {
        DefinedType::Tuple(_) => "tuple",
        DefinedType::List(_) => "list",
        DefinedType::Option(_) => "option",
        DefinedType::Result { .. } => "result",
        DefinedType::Variant { .. } => "variant",
        DefinedType::Record { .. } => "record",
        DefinedType::Flags(_) => "flags",
        DefinedType::Enum(_) => "enum",
        DefinedType::Alias(_) => "alias",
        DefinedType::Stream(_) => "stream",
        DefinedType::Future(_) => "future",
    }
}

/// A type of values in words.
pub(crate) fn value_words(entries: &[Entry], value: ValueType) -> Words<'_> {
    match value {
        ValueType::Primitive(primitive) => Words::Plain(primitive_word(primitive)),
        ValueType::Own(id) => Words::Named("own", resource_name(entries, id)),
        ValueType::Borrow(id) => Words::Named("borrow", resource_name(entries, id)),
        ValueType::Defined(id) => match entries.get(id.0) {
            Some(Entry::Defined(ty)) => Words::Plain(defined_word(ty)),
            _ => Words::Plain("value type"),
        },
    }
}

/// A kind in words: of a value its type, of a resource its name, else as messages name it.
pub(crate) fn kind_words(entries: &[Entry], kind: ItemKind) -> Words<'_> {
    match kind {
        ItemKind::Value(value) => value_words(entries, value),
        ItemKind::Ty(Type::Resource(id)) => Words::Named("resource", resource_name(entries, id)),
        other => Words::Plain(other.desc()),
    }
}
