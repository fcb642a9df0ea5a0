//! Types that are added to a table by hand.

use indexmap::IndexMap;
use std::alloc::{AllocError, Global};
use wac_graph_types::{
    DefinedType, FuncResults, FuncType, Interface, ItemKind, PrimitiveType, Types, ValueType, World,
};

pub const BYTE: ValueType = ValueType::Primitive(PrimitiveType::U8);

pub const CHAR: ValueType = ValueType::Primitive(PrimitiveType::Char);

/// Values by their names.
pub fn named<V: Copy>(
    alloc: Global,
    rows: &[(&str, V)],
) -> Result<IndexMap<String, V>, AllocError> {
    let mut all = IndexMap::new(alloc);
    for (name, value) in rows {
        all.insert(String::from_str(alloc, name)?, *value)?;
    }
    Ok(all)
}

/// A type of values that was added.
pub fn defined(types: &mut Types, ty: DefinedType) -> Result<ValueType, AllocError> {
    Ok(ValueType::Defined(types.add_defined_type(ty)?))
}

/// A function with these parameters and without results.
pub fn func(
    alloc: Global,
    types: &mut Types,
    params: &[(&str, ValueType)],
) -> Result<ItemKind, AllocError> {
    let params = named(alloc, params)?;
    Ok(ItemKind::Func(types.add_func_type(FuncType {
        params,
        results: FuncResults::None,
        is_async: false,
    })?))
}

fn interface(alloc: Global, exports: &[(&str, ItemKind)]) -> Result<Interface, AllocError> {
    Ok(Interface {
        id: Some(String::from_str(alloc, "a:b/c")?),
        uses: IndexMap::new(alloc),
        exports: named(alloc, exports)?,
    })
}

/// An instance with these exports.
pub fn instance(
    alloc: Global,
    types: &mut Types,
    exports: &[(&str, ItemKind)],
) -> Result<ItemKind, AllocError> {
    let interface = interface(alloc, exports)?;
    Ok(ItemKind::Instance(types.add_interface(interface)?))
}

fn world(
    alloc: Global,
    imports: &[(&str, ItemKind)],
    exports: &[(&str, ItemKind)],
) -> Result<World, AllocError> {
    let imports = named(alloc, imports)?;
    Ok(World {
        id: None,
        uses: IndexMap::new(alloc),
        imports,
        exports: named(alloc, exports)?,
    })
}

/// A component with these imports and exports.
pub fn component(
    alloc: Global,
    types: &mut Types,
    imports: &[(&str, ItemKind)],
    exports: &[(&str, ItemKind)],
) -> Result<ItemKind, AllocError> {
    let world = world(alloc, imports, exports)?;
    Ok(ItemKind::Component(types.add_world(world)?))
}
