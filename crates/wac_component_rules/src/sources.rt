//! What names stand for: the sources of resources, and the types that aliases of value types are names of.
ghost use Rattle.std.specs.Prelude.{◌≡◌, ◌<◌, ℕ, Some, length, slice_get, option_map, option_copied};
ghost use Rattle.wac_graph_types.specs.Entry.{sort_of};
ghost use Rattle.wac_graph_types.specs.declared.kind.Sort.TheVariants as sorts;
ghost use Rattle.wac_graph_types.specs.Meaning.{meaning_at, NamesBefore};
ghost use Rattle.wac_graph_types.specs.Readings.{as_resource};
ghost use Rattle.wac_graph_types.specs.Table.{IsTable, Names};
ghost use Rattle.wac_component_rules.specs.Compared.{SeenAs, type_kind};
ghost use Rattle.wac_component_rules.specs.Seen.{what, What};

use crate::parts::aliased;
use wac_graph_types::{Entry, ItemKind, Resource, Type, ValueType};

fn resource_of(entry: &Entry) -> Option<&Resource>
    ensures { option_copied result ≡ as_resource entry.now }
{
    match entry {
        Entry::Resource(resource) => Some(resource),
        Entry::Defined(_) => None,
        Entry::Func(_) => None,
        Entry::Interface(_) => None,
        Entry::World(_) => None,
    }
}

/// The name of a resource's source: of what it is an alias of in the end.
pub fn source_name(entries: &[Entry], number: usize) -> &str
    requires table { IsTable entries.now }
    requires within { number < length entries.now }
    requires sort { option_map sort_of (slice_get entries.now number) ≡ Some sorts.Resource }
    ensures { (o : ℕ → ℕ) → what (meaning_at o entries.now number) ≡ What.named_resource result.now }
{
    let mut at = number;
    loop {
        match resource_of(&entries[at]) {
            None => return "",
            Some(resource) => match resource.alias {
                None => return resource.name.as_str(),
                Some(alias) => at = alias.source.0,
            },
        }
    }
}

/// The type that a type of values is in the end, with aliases seen through.
pub fn plain_value(entries: &[Entry], value: ValueType) -> ValueType
    requires table { IsTable entries.now }
    requires named { Names entries.now (ItemKind.Value value) }
    ensures named { Names entries.now (ItemKind.Value result) }
    ensures before { (n : ℕ) → NamesBefore n (ItemKind.Value value) → NamesBefore n (ItemKind.Value result) }
    ensures value { (o : ℕ → ℕ) → SeenAs o entries.now (ItemKind.Value value) (ItemKind.Value result) }
    ensures typed { (o : ℕ → ℕ) → SeenAs o entries.now (type_kind value) (type_kind result) }
{
    let mut at = value;
    loop {
        match at {
            ValueType::Primitive(_) => return at,
            ValueType::Own(_) => return at,
            ValueType::Borrow(_) => return at,
            ValueType::Defined(id) => match aliased(&entries[id.0]) {
                None => return at,
                Some(source) => at = source,
            },
        }
    }
}

/// The type that an item is in the end, with aliases of types of values seen through.
fn plain_type(entries: &[Entry], ty: Type) -> Type
    requires table { IsTable entries.now }
    requires named { Names entries.now (ItemKind.Ty ty) }
    ensures named { Names entries.now (ItemKind.Ty result) }
    ensures before { (n : ℕ) → NamesBefore n (ItemKind.Ty ty) → NamesBefore n (ItemKind.Ty result) }
    ensures kind { (o : ℕ → ℕ) → SeenAs o entries.now (ItemKind.Ty ty) (ItemKind.Ty result) }
{
    match ty {
        Type::Value(value) => Type::Value(plain_value(entries, value)),
        Type::Resource(_) => ty,
        Type::Func(_) => ty,
        Type::Interface(_) => ty,
        Type::World(_) => ty,
        Type::Module(_) => ty,
    }
}

/// The kind that a kind is in the end, with aliases of types of values seen through.
pub fn plain_kind(entries: &[Entry], kind: ItemKind) -> ItemKind
    requires table { IsTable entries.now }
    requires named { Names entries.now kind }
    ensures named { Names entries.now result }
    ensures before { (n : ℕ) → NamesBefore n kind → NamesBefore n result }
    ensures kind { (o : ℕ → ℕ) → SeenAs o entries.now kind result }
{
    match kind {
        ItemKind::Value(value) => ItemKind::Value(plain_value(entries, value)),
        ItemKind::Ty(ty) => ItemKind::Ty(plain_type(entries, ty)),
        ItemKind::Func(_) => kind,
        ItemKind::Instance(_) => kind,
        ItemKind::Component(_) => kind,
        ItemKind::Module(_) => kind,
    }
}
