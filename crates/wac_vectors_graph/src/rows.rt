//! Tables and packages, made of rows.

use indexmap::{IndexMap, IndexSet};
use std::alloc::{AllocError, Global};
use wac_graph::{
    DefinedType, Entry, FuncResults, FuncType, Interface, InterfaceId, ItemKind, Package,
    PackageError, Resource, ResourceAlias, Types, UsedType, ValueType, World, WorldId,
};

/// An entry of a table, as a test writes it.
#[derive(Clone, Copy)]
pub enum Row<'a> {
    Resource(&'static str, Option<ResourceAlias>),
    Tuple(&'a [ValueType]),
    List(ValueType),
    Alias(ValueType),
    Stream,
    Record(&'a [(&'static str, ValueType)]),
    Variant(&'a [(&'static str, Option<ValueType>)]),
    Enum(&'a [&'static str]),
    /// Parameters, and the result of an async function.
    Func(&'a [(&'static str, ValueType)], Option<ValueType>),
    /// The results of a function without parameters, by name.
    Giving(&'a [(&'static str, ValueType)]),
    /// The result of a function without parameters. It has no name.
    GivingOne(ValueType),
    /// An interface with its id and exports.
    Interface(Option<&'static str>, &'a [(&'static str, ItemKind)]),
    /// An interface that uses, as the first name, the second name of another one.
    Using(&'static str, InterfaceId, &'static str, &'a [(&'static str, ItemKind)]),
    /// A world with its imports and exports.
    World(&'a [(&'static str, ItemKind)], &'a [(&'static str, ItemKind)]),
}

/// Puts a value under a name.
fn put<V: Drop>(
    alloc: Global,
    all: &mut IndexMap<String, V>,
    name: &str,
    value: V,
) -> Result<(), AllocError> {
    let key = String::from_str(alloc, name)?;
    all.insert(key, value)?;
    Ok(())
}

/// Values by name, in order.
pub fn named<V: Copy>(
    alloc: Global,
    rows: &[(&'static str, V)],
) -> Result<IndexMap<String, V>, AllocError> {
    let mut all = IndexMap::new(alloc);
    for (name, value) in rows {
        put(alloc, &mut all, name, *value)?;
    }
    Ok(all)
}

fn put_name(alloc: Global, all: &mut IndexSet<String>, name: &str) -> Result<(), AllocError> {
    let name = String::from_str(alloc, name)?;
    all.insert(name)?;
    Ok(())
}

fn names(alloc: Global, rows: &[&'static str]) -> Result<IndexSet<String>, AllocError> {
    let mut all = IndexSet::new(alloc);
    for name in rows {
        put_name(alloc, &mut all, name)?;
    }
    Ok(all)
}

fn values(alloc: Global, rows: &[ValueType]) -> Result<Vec<ValueType>, AllocError> {
    let mut all = Vec::new(alloc);
    for value in rows {
        all.push(*value)?;
    }
    Ok(all)
}

fn resource(alloc: Global, name: &str, alias: Option<ResourceAlias>) -> Result<Entry, AllocError> {
    let name = String::from_str(alloc, name)?;
    Ok(Entry::Resource(Resource { name, alias }))
}

fn func(
    alloc: Global,
    rows: &[(&'static str, ValueType)],
    output: Option<ValueType>,
) -> Result<Entry, AllocError> {
    let params = named(alloc, rows)?;
    Ok(Entry::Func(FuncType {
        params,
        results: match output {
            None => FuncResults::None,
            Some(value) => FuncResults::Scalar(value),
        },
        is_async: output.is_some(),
    }))
}

fn giving(alloc: Global, results: FuncResults) -> Entry {
    Entry::Func(FuncType {
        params: IndexMap::new(alloc),
        results,
        is_async: false,
    })
}

fn text(alloc: Global, text: Option<&str>) -> Result<Option<String>, AllocError> {
    match text {
        None => Ok(None),
        Some(text) => Ok(Some(String::from_str(alloc, text)?)),
    }
}

fn interface(
    alloc: Global,
    id: Option<&str>,
    rows: &[(&'static str, ItemKind)],
) -> Result<Entry, AllocError> {
    let id = text(alloc, id)?;
    let exports = named(alloc, rows)?;
    Ok(Entry::Interface(Interface {
        id,
        uses: IndexMap::new(alloc),
        exports,
    }))
}

fn uses(
    alloc: Global,
    name: &str,
    interface: InterfaceId,
    other: &str,
) -> Result<IndexMap<String, UsedType>, AllocError> {
    let used = UsedType {
        interface,
        name: text(alloc, Some(other))?,
    };
    let mut uses = IndexMap::new(alloc);
    put(alloc, &mut uses, name, used)?;
    Ok(uses)
}

fn using(
    alloc: Global,
    uses: IndexMap<String, UsedType>,
    rows: &[(&'static str, ItemKind)],
) -> Result<Entry, AllocError> {
    let exports = named(alloc, rows)?;
    Ok(Entry::Interface(Interface {
        id: None,
        uses,
        exports,
    }))
}

pub fn world(
    alloc: Global,
    imports: &[(&'static str, ItemKind)],
    exports: &[(&'static str, ItemKind)],
) -> Result<Entry, AllocError> {
    let imports = named(alloc, imports)?;
    let exports = named(alloc, exports)?;
    Ok(Entry::World(World {
        id: None,
        uses: IndexMap::new(alloc),
        imports,
        exports,
    }))
}

fn defined(alloc: Global, row: Row<'_>) -> Result<Entry, AllocError> {
    Ok(Entry::Defined(match row {
        Row::Tuple(rows) => DefinedType::Tuple(values(alloc, rows)?),
        Row::List(of) => DefinedType::List(of),
        Row::Alias(of) => DefinedType::Alias(of),
        Row::Record(rows) => DefinedType::Record {
            fields: named(alloc, rows)?,
        },
        Row::Variant(rows) => DefinedType::Variant {
            cases: named(alloc, rows)?,
        },
        Row::Enum(rows) => DefinedType::Enum(names(alloc, rows)?),
        _ => DefinedType::Stream(None),
    }))
}

fn entry(alloc: Global, row: Row<'_>) -> Result<Entry, AllocError> {
    match row {
        Row::Resource(name, alias) => resource(alloc, name, alias),
        Row::Func(params, output) => func(alloc, params, output),
        Row::Giving(rows) => {
            let results = named(alloc, rows)?;
            Ok(giving(alloc, FuncResults::Named(results)))
        }
        Row::GivingOne(value) => Ok(giving(alloc, FuncResults::Scalar(value))),
        Row::Interface(id, exports) => interface(alloc, id, exports),
        Row::Using(name, of, other, exports) => using(
            alloc,
            uses(alloc, name, of, other)?,
            exports,
        ),
        Row::World(imports, exports) => world(alloc, imports, exports),
        _ => defined(alloc, row),
    }
}

/// Adds the entry of a row.
pub fn add(alloc: Global, types: &mut Types, row: Row<'_>) -> Result<(), AllocError> {
    types.add(entry(alloc, row)?)?;
    Ok(())
}

fn table(alloc: Global, rows: &[Row<'_>]) -> Result<Types, AllocError> {
    let mut types = Types::new(alloc);
    for row in rows {
        add(alloc, &mut types, *row)?;
    }
    Ok(types)
}

/// A table, and what a package with it defines.
pub fn parts(
    alloc: Global,
    rows: &[Row<'_>],
    definitions: &[(&'static str, ItemKind)],
) -> Result<(Types, IndexMap<String, ItemKind>), AllocError> {
    let definitions = named(alloc, definitions)?;
    let types = table(alloc, rows)?;
    Ok((types, definitions))
}

/// The package of a table, with the numbers of its world and its instance.
pub fn package(
    alloc: Global,
    rows: &[Row<'_>],
    (world, instance): (usize, usize),
    definitions: &[(&'static str, ItemKind)],
) -> Result<Package, PackageError> {
    let (types, definitions) = parts(alloc, rows, definitions)?;
    Package::new(types, WorldId(world), InterfaceId(instance), definitions)
}
