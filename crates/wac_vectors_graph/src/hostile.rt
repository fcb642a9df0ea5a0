//! Each id of a package is replaced by each number up to the count of entries.

use crate::rows::{Row, add, named, world};
use crate::types::is_wrong;
use indexmap::IndexMap;
use std::alloc::{AllocError, Global};
use std::test::Fail;
use wac_graph::{
    DefinedTypeId, FuncTypeId, InterfaceId, ItemKind, Package, PackageError, ResourceId, Type,
    Types, ValueType, WorldId,
};

/// The ids of a package.
type Ids = [usize; 13];

/// How many entries it has.
const ENTRIES: usize = 7;

fn func(id: usize) -> ItemKind {
    ItemKind::Func(FuncTypeId(id))
}

/// A resource, and a record that has it.
fn add_values(alloc: Global, types: &mut Types, ids: &Ids) -> Result<(), AllocError> {
    add(alloc, types, Row::Resource("r", None))?;
    let fields = [("x", ValueType::Own(ResourceId(ids[0])))];
    add(alloc, types, Row::Record(&fields))
}

/// A function that borrows the resource and returns the record, and one that takes nothing and returns the record under
/// a name.
fn add_funcs(alloc: Global, types: &mut Types, ids: &Ids) -> Result<(), AllocError> {
    let params = [("a", ValueType::Borrow(ResourceId(ids[1])))];
    let output = ValueType::Defined(DefinedTypeId(ids[2]));
    add(alloc, types, Row::Func(&params, Some(output)))?;
    let results = [("b", ValueType::Defined(DefinedTypeId(ids[3])))];
    add(alloc, types, Row::Giving(&results))
}

/// The interface `x:y/z`, which exports the resource, and the interface of the instances.
fn add_interfaces(alloc: Global, types: &mut Types, ids: &Ids) -> Result<(), AllocError> {
    let exports = [("r", ItemKind::Ty(Type::Resource(ResourceId(ids[4]))))];
    add(alloc, types, Row::Interface(Some("x:y/z"), &exports))?;
    let exports = [("run", func(ids[5]))];
    add(alloc, types, Row::Interface(None, &exports))
}

fn add_world(alloc: Global, types: &mut Types, ids: &Ids) -> Result<(), AllocError> {
    let instance = ItemKind::Instance(InterfaceId(ids[7]));
    let imports = [("log", func(ids[6])), ("x:y/z", instance)];
    let exports = [("run", func(ids[8]))];
    types.add(world(alloc, &imports, &exports)?)?;
    Ok(())
}

fn add_all(alloc: Global, types: &mut Types, ids: &Ids) -> Result<(), AllocError> {
    add_values(alloc, types, ids)?;
    add_funcs(alloc, types, ids)?;
    add_interfaces(alloc, types, ids)?;
    add_world(alloc, types, ids)
}

fn table(alloc: Global, ids: &Ids) -> Result<Types, AllocError> {
    let mut types = Types::new(alloc);
    add_all(alloc, &mut types, ids)?;
    Ok(types)
}

fn definitions(alloc: Global, ids: &Ids) -> Result<IndexMap<String, ItemKind>, AllocError> {
    let interface = ItemKind::Ty(Type::Interface(InterfaceId(ids[9])));
    let world = ItemKind::Ty(Type::World(WorldId(ids[10])));
    named(alloc, &[("z", interface), ("w", world)])
}

/// A package that imports the function `log` and the instance `x:y/z`, exports the function `run`, and defines that
/// interface and its own world.
fn tampered(alloc: Global, ids: &Ids) -> Result<Package, PackageError> {
    let definitions = definitions(alloc, ids)?;
    let types = table(alloc, ids)?;
    Package::new(types, WorldId(ids[11]), InterfaceId(ids[12]), definitions)
}

/// What an id may name.
#[derive(Clone, Copy, PartialEq, Eq)]
enum Sort {
    Resource,
    Value,
    Func,
    Interface,
    World,
}

/// The sorts of the entries.
static SORTS: [Sort; ENTRIES] = [
    Sort::Resource,
    Sort::Value,
    Sort::Func,
    Sort::Func,
    Sort::Interface,
    Sort::Interface,
    Sort::World,
];

/// The ids of the package that was not tampered with.
const IDS: Ids = [0, 0, 1, 1, 0, 3, 2, 4, 3, 4, 6, 6, 5];

/// For each id the entry that it is in, or the count of entries where it is in none, and what it has to name.
static PLACES: [(usize, Sort); 13] = [
    (1, Sort::Resource),
    (2, Sort::Resource),
    (2, Sort::Value),
    (3, Sort::Value),
    (4, Sort::Resource),
    (5, Sort::Func),
    (6, Sort::Func),
    (6, Sort::Interface),
    (6, Sort::Func),
    (ENTRIES, Sort::Interface),
    (ENTRIES, Sort::World),
    (ENTRIES, Sort::World),
    (ENTRIES, Sort::Interface),
];

/// What is wrong with an id, if anything is.
fn wrong(id: usize, (entry, sort): (usize, Sort)) -> Option<&'static str> {
    match SORTS.get(id) {
        None => Some("id out of range"),
        Some(other) if *other != sort => Some("id of another sort"),
        Some(_) if id >= entry => Some("id is not earlier"),
        Some(_) => None,
    }
}

/// What is wrong with the package where an id was replaced by another valid one: the definition `z` may be the
/// interface of the instances, which has no id; their interface may be the other one, whose exports have other names;
/// and the functions mean different things.
fn wrong_meaning(ids: &Ids) -> &'static str {
    if ids[9] == 5 {
        "interface type without an id"
    } else if ids[12] == 4 || ids[5] != ids[8] {
        "instance exports differ from the exports of the world"
    } else {
        "nothing"
    }
}

/// Whether the fault is found where a number replaces one of the ids.
fn is_tested(alloc: Global, at: usize, number: usize) -> Result<bool, AllocError> {
    let mut ids = IDS;
    let mut wanted = None;
    if let (Some(id), Some(place)) = (ids.get_mut(at), PLACES.get(at)) {
        *id = number;
        wanted = wrong(number, *place);
    }
    let wanted = wanted.unwrap_or(wrong_meaning(&ids));
    is_wrong(alloc, tampered(alloc, &ids), wanted)
}

/// Whether it is for each number up to the count of entries.
fn is_tested_for_each(alloc: Global, at: usize) -> Result<bool, AllocError> {
    for number in 0..ENTRIES + 1 {
        if !is_tested(alloc, at, number)? {
            return Ok(false);
        }
    }
    Ok(true)
}

#[test]
fn each_id_is_tested(rt: HostRuntime) -> Result<(), Fail> {
    for at in 0..IDS.len() {
        assert!(rt; is_tested_for_each(rt.alloc(), at)?, "of {at}");
    }
    Ok(())
}
