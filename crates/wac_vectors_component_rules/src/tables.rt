//! Kinds in a table of types: each is added with what it names, now and then by way of an alias.

ghost use Rattle.std.specs.Prelude.{IfSome};
ghost use Rattle.wac_graph_types.specs.Table.{IsTable, Names};

use crate::choices::Choices;
use crate::definition::{Kind, Part, Shape};
use indexmap::IndexMap;
use std::alloc::{AllocError, Global};
use wac_component_rules::{ComponentRules, mismatch};
use wac_graph_types::names::find;
use wac_graph_types::{
    DefinedType, FuncResults, FuncType, Interface, ItemKind, Package, PackageError, PrimitiveType,
    Resource, ResourceAlias, ResourceId, Rules, Type, Types, ValueType, World,
};

/// The names of the kinds of a table.
pub const NAMES: [&str; 12] = [
    "k0", "k1", "k2", "k3", "k4", "k5", "k6", "k7", "k8", "k9", "k10", "k11",
];

fn value_of(items: &[ItemKind], parts: &[Part], at: usize) -> ValueType {
    match parts.get(at) {
        Some((_, number)) => match items.get(*number) {
            Some(ItemKind::Value(value)) => *value,
            _ => ValueType::Primitive(PrimitiveType::Bool),
        },
        None => ValueType::Primitive(PrimitiveType::Bool),
    }
}

/// A type, or another name of it.
fn maybe_aliased(
    types: &mut Types,
    choices: &mut Choices,
    value: ValueType,
) -> Result<ValueType, AllocError> {
    if choices.below(3) == 0 {
        let id = types.add_defined_type(DefinedType::Alias(value))?;
        Ok(ValueType::Defined(id))
    } else {
        Ok(value)
    }
}

/// The types of values that parts are of, by name.
fn values(
    alloc: Global,
    items: &[ItemKind],
    parts: &[Part],
) -> Result<IndexMap<String, ValueType>, AllocError> {
    let mut all = IndexMap::new(alloc);
    for at in 0..parts.len() {
        let (name, _) = parts[at];
        all.insert(String::from_str(alloc, name)?, value_of(items, parts, at))?;
    }
    Ok(all)
}

/// The kinds that parts are of, by name.
fn kinds(
    alloc: Global,
    items: &[ItemKind],
    parts: &[Part],
) -> Result<IndexMap<String, ItemKind>, AllocError> {
    let mut all = IndexMap::new(alloc);
    for (name, number) in parts {
        if let Some(kind) = items.get(*number) {
            all.insert(String::from_str(alloc, name)?, *kind)?;
        }
    }
    Ok(all)
}

/// A resource, or another name of it.
fn resource(
    alloc: Global,
    types: &mut Types,
    choices: &mut Choices,
    name: &str,
) -> Result<ResourceId, AllocError> {
    let source = types.add_resource(Resource {
        name: String::from_str(alloc, name)?,
        alias: None,
    })?;
    if choices.below(2) == 0 {
        return Ok(source);
    }
    types.add_resource(Resource {
        name: String::from_str(alloc, "t")?,
        alias: Some(ResourceAlias {
            owner: None,
            source,
        }),
    })
}

fn defined(
    alloc: Global,
    types: &mut Types,
    choices: &mut Choices,
    items: &[ItemKind],
    kind: &Kind,
) -> Result<ItemKind, AllocError> {
    let parts = kind.parts.as_slice();
    let first = maybe_aliased(types, choices, value_of(items, parts, 0))?;
    let ty = match kind.shape {
        Shape::List => DefinedType::List(first),
        Shape::Tuple => DefinedType::Tuple(vec![in alloc; first, value_of(items, parts, 1)]?),
        _ => DefinedType::Record {
            fields: values(alloc, items, parts)?,
        },
    };
    Ok(ItemKind::Value(ValueType::Defined(types.add_defined_type(ty)?)))
}

fn func(
    alloc: Global,
    types: &mut Types,
    items: &[ItemKind],
    kind: &Kind,
) -> Result<ItemKind, AllocError> {
    let params = values(alloc, items, kind.parts.as_slice())?;
    Ok(ItemKind::Func(types.add_func_type(FuncType {
        params,
        results: FuncResults::None,
        is_async: kind.shape == Shape::AsyncFunc,
    })?))
}

fn instance(
    alloc: Global,
    types: &mut Types,
    exports: IndexMap<String, ItemKind>,
) -> Result<ItemKind, AllocError> {
    Ok(ItemKind::Instance(types.add_interface(Interface {
        id: Some(String::from_str(alloc, "a:b/c")?),
        uses: IndexMap::new(alloc),
        exports,
    })?))
}

fn component(
    alloc: Global,
    types: &mut Types,
    imports: IndexMap<String, ItemKind>,
    exports: IndexMap<String, ItemKind>,
) -> Result<ItemKind, AllocError> {
    Ok(ItemKind::Component(types.add_world(World {
        id: None,
        uses: IndexMap::new(alloc),
        imports,
        exports,
    })?))
}

/// Adds a kind over the items so far.
fn item(
    alloc: Global,
    types: &mut Types,
    choices: &mut Choices,
    items: &[ItemKind],
    kind: &Kind,
) -> Result<ItemKind, AllocError> {
    match kind.shape {
        Shape::Byte => Ok(ItemKind::Value(ValueType::Primitive(PrimitiveType::U8))),
        Shape::Char => Ok(ItemKind::Value(ValueType::Primitive(PrimitiveType::Char))),
        Shape::Own => {
            let id = resource(alloc, types, choices, kind.name)?;
            Ok(ItemKind::Value(ValueType::Own(id)))
        }
        Shape::Borrow => {
            let id = resource(alloc, types, choices, kind.name)?;
            Ok(ItemKind::Value(ValueType::Borrow(id)))
        }
        Shape::Resource => {
            let id = resource(alloc, types, choices, kind.name)?;
            Ok(ItemKind::Ty(Type::Resource(id)))
        }
        Shape::Type => Ok(ItemKind::Ty(Type::Value(value_of(items, kind.parts.as_slice(), 0)))),
        Shape::Func => func(alloc, types, items, kind),
        Shape::AsyncFunc => func(alloc, types, items, kind),
        Shape::Instance => {
            let exports = kinds(alloc, items, kind.parts.as_slice())?;
            instance(alloc, types, exports)
        }
        Shape::Component => {
            let imports = kinds(alloc, items, kind.imports.as_slice())?;
            let exports = kinds(alloc, items, kind.parts.as_slice())?;
            component(alloc, types, imports, exports)
        }
        _ => defined(alloc, types, choices, items, kind),
    }
}

/// The items of kinds, which are added to a table.
fn items(
    alloc: Global,
    types: &mut Types,
    choices: &mut Choices,
    kinds: &[Kind],
) -> Result<Vec<ItemKind>, AllocError> {
    let mut all = Vec::new(alloc);
    for kind in kinds {
        let next = item(alloc, types, choices, all.as_slice(), kind)?;
        all.push(next)?;
    }
    Ok(all)
}

fn definitions(
    alloc: Global,
    items: &[ItemKind],
) -> Result<IndexMap<String, ItemKind>, AllocError> {
    let mut all = IndexMap::new(alloc);
    for at in 0..items.len().min(NAMES.len()) {
        all.insert(String::from_str(alloc, NAMES[at])?, items[at])?;
    }
    Ok(all)
}

/// A package that defines these items, each under the name of its place, and imports and exports nothing.
pub fn package_of(
    alloc: Global,
    mut types: Types,
    items: &[ItemKind],
) -> Result<Package, PackageError> {
    let world = types.add_world(World {
        id: None,
        uses: IndexMap::new(alloc),
        imports: IndexMap::new(alloc),
        exports: IndexMap::new(alloc),
    })?;
    let instance = types.add_interface(Interface {
        id: None,
        uses: IndexMap::new(alloc),
        exports: IndexMap::new(alloc),
    })?;
    let definitions = definitions(alloc, items)?;
    Package::new(types, world, instance, definitions)
}

/// A package that defines these kinds.
pub fn package(
    alloc: Global,
    choices: &mut Choices,
    kinds: &[Kind],
) -> Result<Package, PackageError> {
    let mut types = Types::new(alloc);
    let items = items(alloc, &mut types, choices, kinds)?;
    package_of(alloc, types, items.as_slice())
}

/// The definition of a package under a name.
fn definition(owner: &Package, name: &str) -> Option<ItemKind>
    ensures { IfSome result (Names owner.now.types) }
{
    find(owner.definitions(), name)
}

/// Where one kind of a table doesn't fit another, in words. `None` where the rules and `mismatch` don't agree.
fn difference(
    alloc: Global,
    types: &Types,
    a: ItemKind,
    b: ItemKind,
) -> Result<Option<String>, AllocError>
    requires table { IsTable types.now }
    requires first { Names types.now a }
    requires second { Names types.now b }
{
    let fits = ComponentRules::new(alloc).subtype(types, a, b).is_ok();
    match mismatch(alloc, types, a, b)? {
        None if fits => Ok(Some(String::new(alloc))),
        Some(found) if !fits => Ok(Some(found.to_string(alloc)?)),
        _ => Ok(None),
    }
}

/// Where one definition of a package doesn't fit another, in words. `None` where there are no such, or where the rules
/// and `mismatch` don't agree.
pub fn told(
    alloc: Global,
    package: &Package,
    a: &str,
    b: &str,
) -> Result<Option<String>, AllocError> {
    match (definition(package, a), definition(package, b)) {
        (Some(first), Some(second)) => difference(alloc, package.types(), first, second),
        _ => Ok(None),
    }
}

/// Whether one definition of a package may stand where another is expected, by the rules and by `mismatch`.
pub fn fits(
    alloc: Global,
    package: &Package,
    a: &str,
    b: &str,
) -> Result<Option<bool>, AllocError> {
    match told(alloc, package, a, b)? {
        None => Ok(None),
        Some(text) => Ok(Some(text.is_empty())),
    }
}

/// Whether this text was told.
pub fn reads(found: &Option<String>, wanted: &str) -> bool {
    match found {
        None => false,
        Some(text) => text.as_str() == wanted,
    }
}
