//! Entries that are copied from one table to another.
ghost use Rattle.std.specs.Prelude.{◌≡◌, ◌+◌, ◌<◌, ◌^◌, IfSome, IfOk, OnOk, length, option_map, string_bytes};
ghost use Rattle.wac_graph_types.specs.Entry.{children, defined_children, alias_children, result_children, defined_label};
ghost use Rattle.wac_graph_types.specs.Meaning.{EachKind};
ghost use Rattle.wac_graph_types.specs.Table.{IsTable};
ghost use Rattle.wac_graph.specs.Moved.{moved_children, Fits};
ghost use Rattle.wac_graph.specs.Copied.{IsCopy, IsGrown, IsGrownBy, MeansTheSame};
ghost use Rattle.wac_graph_types.specs.declared.entry.Entry.TheVariants as entries;

use crate::copy::{
    copy_cases, copy_items, copy_names, copy_text, copy_tuple, copy_uses, copy_values,
    moved_optional, moved_value,
};
use std::alloc::{AllocError, Global};
use wac_graph_types::{
    DefinedType, Entry, FuncResults, FuncType, Interface, InterfaceId, Resource, ResourceAlias,
    ResourceId, Types, World,
};

fn copy_defined(alloc: Global, n: usize, from: &DefinedType) -> Result<DefinedType, AllocError>
    requires { EachKind (Fits n) (defined_children from.now) }
    ensures label { IfOk result (λ d. defined_label d ≡ defined_label from.now) }
    ensures kinds { IfOk result (λ d. defined_children d ≡ moved_children n (defined_children from.now)) }
{
    match from {
        DefinedType::Tuple(types) => Ok(DefinedType::Tuple(copy_tuple(alloc, n, types)?)),
        DefinedType::List(ty) => Ok(DefinedType::List(moved_value(n, *ty))),
        DefinedType::Option(ty) => Ok(DefinedType::Option(moved_value(n, *ty))),
        DefinedType::Result { ok, err } => Ok(DefinedType::Result {
            ok: moved_optional(n, *ok),
            err: moved_optional(n, *err),
        }),
        DefinedType::Variant { cases } => Ok(DefinedType::Variant {
            cases: copy_cases(alloc, n, cases)?,
        }),
        DefinedType::Record { fields } => Ok(DefinedType::Record {
            fields: copy_values(alloc, n, fields)?,
        }),
        DefinedType::Flags(names) => Ok(DefinedType::Flags(copy_names(alloc, names)?)),
        DefinedType::Enum(names) => Ok(DefinedType::Enum(copy_names(alloc, names)?)),
        DefinedType::Alias(ty) => Ok(DefinedType::Alias(moved_value(n, *ty))),
        DefinedType::Stream(ty) => Ok(DefinedType::Stream(moved_optional(n, *ty))),
        DefinedType::Future(ty) => Ok(DefinedType::Future(moved_optional(n, *ty))),
    }
}

fn moved_alias(n: usize, alias: Option<ResourceAlias>) -> Option<ResourceAlias>
    requires { EachKind (Fits n) (alias_children alias) }
    ensures { alias_children result ≡ moved_children n (alias_children alias) }
{
    match alias {
        None => None,
        Some(alias) => Some(ResourceAlias {
            owner: match alias.owner {
                None => None,
                Some(id) => Some(InterfaceId(n + id.0)),
            },
            source: ResourceId(n + alias.source.0),
        }),
    }
}

fn copy_resource(alloc: Global, n: usize, from: &Resource) -> Result<Resource, AllocError>
    requires { EachKind (Fits n) (alias_children from.now.alias) }
    ensures { IfOk result (λ r. IsCopy n (entries.Resource from.now) (entries.Resource r)) }
{
    let name = String::from_str(alloc, from.name.as_str())?;
    Ok(Resource {
        name,
        alias: moved_alias(n, from.alias),
    })
}

/// The results with their numbers moved by `n`.
fn copy_results(alloc: Global, n: usize, from: &FuncResults) -> Result<FuncResults, AllocError>
    requires { EachKind (Fits n) (result_children from.now) }
    ensures { IfOk result (λ r. result_children r ≡ moved_children n (result_children from.now)) }
{
    match from {
        FuncResults::None => Ok(FuncResults::None),
        FuncResults::Scalar(value) => Ok(FuncResults::Scalar(moved_value(n, *value))),
        FuncResults::Named(results) => Ok(FuncResults::Named(copy_values(alloc, n, results)?)),
    }
}

fn copy_func(alloc: Global, n: usize, from: &FuncType) -> Result<FuncType, AllocError>
    requires { EachKind (Fits n) (children (entries.Func from.now)) }
    ensures { IfOk result (λ f. IsCopy n (entries.Func from.now) (entries.Func f)) }
{
    let params = copy_values(alloc, n, &from.params)?;
    let results = copy_results(alloc, n, &from.results)?;
    Ok(FuncType {
        params,
        results,
        is_async: from.is_async,
    })
}

fn copy_interface(alloc: Global, n: usize, from: &Interface) -> Result<Interface, AllocError>
    requires { EachKind (Fits n) (children (entries.Interface from.now)) }
    ensures { IfOk result (λ i. IsCopy n (entries.Interface from.now) (entries.Interface i)) }
{
    let id = copy_text(alloc, &from.id)?;
    let uses = copy_uses(alloc, n, &from.uses)?;
    let exports = copy_items(alloc, n, &from.exports)?;
    Ok(Interface { id, uses, exports })
}

fn copy_world(alloc: Global, n: usize, from: &World) -> Result<World, AllocError>
    requires { EachKind (Fits n) (children (entries.World from.now)) }
    ensures { IfOk result (λ w. IsCopy n (entries.World from.now) (entries.World w)) }
{
    let id = copy_text(alloc, &from.id)?;
    let uses = copy_uses(alloc, n, &from.uses)?;
    let imports = copy_items(alloc, n, &from.imports)?;
    let exports = copy_items(alloc, n, &from.exports)?;
    Ok(World {
        id,
        uses,
        imports,
        exports,
    })
}

/// The entry with its numbers moved by `n`.
fn copy_entry(alloc: Global, n: usize, from: &Entry) -> Result<Entry, AllocError>
    requires { EachKind (Fits n) (children from.now) }
    ensures { IfOk result (λ e. IsCopy n from.now e) }
{
    match from {
        Entry::Defined(ty) => Ok(Entry::Defined(copy_defined(alloc, n, ty)?)),
        Entry::Resource(resource) => Ok(Entry::Resource(copy_resource(alloc, n, resource)?)),
        Entry::Func(func) => Ok(Entry::Func(copy_func(alloc, n, func)?)),
        Entry::Interface(interface) => Ok(Entry::Interface(copy_interface(alloc, n, interface)?)),
        Entry::World(world) => Ok(Entry::World(copy_world(alloc, n, world)?)),
    }
}

/// Appends copies of the entries, with the numbers that they then have. An error leaves those that were copied
/// by then.
fn copy_entries(alloc: Global, types: &mut Types, from: &[Entry]) -> Result<(), AllocError>
    requires into { IsTable types.old }
    requires table { IsTable from.now }
    requires room { length types.old + length from.now < 2 ^ 64 }
    ensures grown { OnOk result (IsGrownBy types.old from.now types.new) }
    ensures table { IsTable types.new }
    ensures more { IsGrown types.old types.new }
{
    let n = types.entries().len();
    for at in 0..from.len() {
        let copy = copy_entry(alloc, n, &from[at])?;
        types.add(copy)?;
    }
    Ok(())
}

/// Appends copies of a table's entries, which mean what the entries mean.
pub fn copy_types(alloc: Global, types: &mut Types, from: &Types) -> Result<(), AllocError>
    requires into { IsTable types.old }
    requires table { IsTable from.now }
    requires room { length types.old + length from.now < 2 ^ 64 }
    ensures grown { OnOk result (IsGrownBy types.old from.now types.new) }
    ensures means { OnOk result (MeansTheSame types.old from.now types.new) }
    ensures table { IsTable types.new }
    ensures more { IsGrown types.old types.new }
{
    copy_entries(alloc, types, from.entries())?;
    Ok(())
}
