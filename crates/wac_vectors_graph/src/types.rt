//! Tests of what no contract says: that calls succeed, and that the definitions mean what they should.
ghost use Rattle.std.specs.Prelude.{◌≡◌, ℕ};
ghost use Rattle.wac_graph_types.specs.declared.rules.Reason.{Reason as TheReason};

use crate::reading::has_each;
use crate::rows::{Row, package, parts};
use indexmap::IndexMap;
use std::alloc::{AllocError, Global};
use std::fmt::Display;
use std::test::Fail;
use wac_graph::{
    DefinedType, DefinedTypeId, ExternKind, FuncKind, FuncResults, FuncType, FuncTypeId, Interface,
    InterfaceId, ItemKind, ModuleTypeId, Package, PackageError, PrimitiveType, Reason, Resource,
    ResourceAlias, ResourceId, Rules, Type, Types, ValueType, World, WorldId,
};

type Definitions = &'static [(&'static str, ItemKind)];

const BYTE: ValueType = ValueType::Primitive(PrimitiveType::U8);

const INSTANCE: Row<'static> = Row::Interface(None, &[]);

const WORLD: Row<'static> = Row::World(&[], &[]);

const INTERFACE: ItemKind = ItemKind::Ty(Type::Interface(InterfaceId(0)));

const SECOND: ValueType = ValueType::Defined(DefinedTypeId(2));

const THIRD: ItemKind = ItemKind::Ty(Type::Value(ValueType::Defined(DefinedTypeId(3))));

const FOURTH: ValueType = ValueType::Defined(DefinedTypeId(4));

const NINTH: ValueType = ValueType::Defined(DefinedTypeId(9));

/// An owned resource by the number of an interface.
const OWNED: ValueType = ValueType::Own(ResourceId(0));

const OTHER_EXPORTS: &str = "instance exports differ from the exports of the world";

/// Entries, the numbers of the world and of the instance, definitions, and what is wrong with them.
type Fault = (
    &'static [Row<'static>],
    (usize, usize),
    Definitions,
    &'static str,
);

static FAULTS: [Fault; 11] = [
    (&[INSTANCE, WORLD], (1, 0), &[], "nothing"),
    (&[INSTANCE, WORLD], (5, 0), &[], "id out of range"),
    (&[INSTANCE, WORLD], (0, 0), &[], "id of another sort"),
    (
        &[INSTANCE, WORLD, Row::List(SECOND)],
        (1, 0),
        &[],
        "id is not earlier",
    ),
    (
        &[
            INSTANCE,
            WORLD,
            Row::Interface(None, &[("t", THIRD)]),
            Row::Stream,
        ],
        (1, 0),
        &[],
        "id is not earlier",
    ),
    (
        &[INSTANCE, WORLD, Row::Giving(&[("a", BYTE), ("b", NINTH)])],
        (1, 0),
        &[],
        "id out of range",
    ),
    (
        &[INSTANCE, WORLD, Row::Giving(&[("a", BYTE), ("b", OWNED)])],
        (1, 0),
        &[],
        "id of another sort",
    ),
    (
        &[
            INSTANCE,
            WORLD,
            Row::Giving(&[("a", BYTE), ("b", FOURTH)]),
            Row::Stream,
            Row::Stream,
        ],
        (1, 0),
        &[],
        "id is not earlier",
    ),
    (
        &[INSTANCE, WORLD],
        (1, 0),
        &[("i", INTERFACE)],
        "interface type without an id",
    ),
    (
        &[INSTANCE, WORLD, Row::Interface(None, &[("i", INTERFACE)])],
        (1, 0),
        &[],
        "interface type without an id",
    ),
    (
        &[
            INSTANCE,
            WORLD,
            Row::Func(&[], None),
            Row::Interface(None, &[("run", ItemKind::Func(FuncTypeId(2)))]),
        ],
        (1, 3),
        &[],
        OTHER_EXPORTS,
    ),
];

/// Whether a value's text is these words.
fn is_shown(alloc: Global, value: &impl Display, words: &str) -> Result<bool, AllocError> {
    let text = value.to_string(alloc)?;
    Ok(text.as_str() == words)
}

/// Whether this is what is wrong with a package.
pub fn is_wrong(
    alloc: Global,
    made: Result<Package, PackageError>,
    wrong: &str,
) -> Result<bool, AllocError> {
    match made {
        Ok(_) => Ok(wrong == "nothing"),
        Err(error) => is_shown(alloc, &error, wrong),
    }
}

fn is_fault(alloc: Global, (rows, places, definitions, wrong): Fault) -> Result<bool, AllocError> {
    is_wrong(alloc, package(alloc, rows, places, definitions), wrong)
}

/// Whether each row says what is wrong.
fn are_faults(alloc: Global, rows: &[Fault]) -> Result<bool, AllocError> {
    for row in rows {
        if !is_fault(alloc, *row)? {
            return Ok(false);
        }
    }
    Ok(true)
}

#[test]
fn names_the_first_fault(rt: HostRuntime) -> Result<(), Fail> {
    assert!(rt; are_faults(rt.alloc(), &FAULTS)?);
    Ok(())
}

#[test]
fn names_memory(rt: HostRuntime) -> Result<(), Fail> {
    let error = PackageError::Memory(AllocError);
    assert!(rt; is_shown(rt.alloc(), &error, "out of memory")?);
    Ok(())
}

/// The world, the instance, and how many entries and definitions a package has.
fn numbers(package: &Package) -> (WorldId, InterfaceId, usize, usize) {
    (
        package.world(),
        package.instance(),
        package.types().entries().len(),
        package.definitions().len(),
    )
}

const RECORD: Row<'static> = Row::Record(&[("x", BYTE)]);

/// Two records with a field `x`, one with a field `y`, an alias of the first, and two resources of one name.
static DEFINING: [Row<'static>; 8] = [
    INSTANCE,
    WORLD,
    RECORD,
    RECORD,
    Row::Record(&[("y", BYTE)]),
    Row::Alias(SECOND),
    Row::Resource("r", None),
    Row::Resource("r", None),
];

static DEFINED: [(&str, ItemKind); 6] = [
    ("a", ItemKind::Ty(Type::Value(SECOND))),
    ("b", THIRD),
    (
        "c",
        ItemKind::Ty(Type::Value(ValueType::Defined(DefinedTypeId(4)))),
    ),
    (
        "d",
        ItemKind::Ty(Type::Value(ValueType::Defined(DefinedTypeId(5)))),
    ),
    ("r", ItemKind::Ty(Type::Resource(ResourceId(6)))),
    ("s", ItemKind::Ty(Type::Resource(ResourceId(7)))),
];

type Parts = (Types, IndexMap<String, ItemKind>);

fn defining_parts(alloc: Global) -> Result<Parts, AllocError> {
    parts(alloc, &DEFINING, &DEFINED)
}

fn defining(alloc: Global) -> Result<Package, PackageError> {
    let (types, definitions) = defining_parts(alloc)?;
    Package::new(types, WorldId(1), InterfaceId(0), definitions)
}

/// Whether the definitions of these places mean the same.
pub fn same(package: &Package, i: usize, j: usize) -> Option<bool> {
    let types = package.types();
    let definitions = package.definitions();
    let (_, first) = definitions.get_index(i)?;
    let (_, second) = definitions.get_index(j)?;
    Some(types.same(*first, *second))
}

/// Whether each row says whether the definitions of two places mean the same.
fn are_compared(package: &Package, rows: &[(usize, usize, bool)]) -> bool {
    for (i, j, is) in rows {
        if same(package, *i, *j) != Some(*is) {
            return false;
        }
    }
    true
}

/// Which definitions of [`DEFINED`] mean the same.
static SAME: [(usize, usize, bool); 6] = [
    (0, 0, true),
    (0, 1, true),
    (0, 2, false),
    (0, 3, false),
    (4, 4, true),
    (4, 5, false),
];

/// Whether rules say this of definitions and of names.
fn are_asked(package: &Package) -> bool {
    asked(&OnlySame, package, 0, 1) == Some(Ok(()))
        && asked(&OnlySame, package, 0, 2) == Some(Err(Reason(7)))
        && OnlySame.extern_name("a") == Ok(())
        && OnlySame.extern_name("") == Err(Reason(8))
}

#[test]
fn compares_meanings(rt: HostRuntime) -> Result<(), Fail> {
    let package = defining(rt.alloc())?;
    let numbers = numbers(&package);
    assert!(rt; numbers == (WorldId(1), InterfaceId(0), 8, 6), "numbers");
    assert!(rt; are_compared(&package, &SAME), "meanings");
    assert!(rt; are_asked(&package), "rules");
    Ok(())
}

/// Functions that differ in their results alone.
static GIVING: [Row<'static>; 10] = [
    INSTANCE,
    WORLD,
    Row::Giving(&[("a", BYTE)]),
    Row::Giving(&[("a", BYTE)]),
    Row::Giving(&[("b", BYTE)]),
    Row::GivingOne(BYTE),
    Row::Giving(&[("a", BYTE), ("b", BYTE)]),
    Row::Giving(&[("b", BYTE), ("a", BYTE)]),
    Row::Giving(&[]),
    Row::Func(&[], None),
];

static GIVEN: [(&str, ItemKind); 8] = [
    ("a", ItemKind::Ty(Type::Func(FuncTypeId(2)))),
    ("b", ItemKind::Ty(Type::Func(FuncTypeId(3)))),
    ("c", ItemKind::Ty(Type::Func(FuncTypeId(4)))),
    ("d", ItemKind::Ty(Type::Func(FuncTypeId(5)))),
    ("e", ItemKind::Ty(Type::Func(FuncTypeId(6)))),
    ("f", ItemKind::Ty(Type::Func(FuncTypeId(7)))),
    ("g", ItemKind::Ty(Type::Func(FuncTypeId(8)))),
    ("h", ItemKind::Ty(Type::Func(FuncTypeId(9)))),
];

/// Which definitions of [`GIVEN`] mean the same.
static SAME_RESULTS: [(usize, usize, bool); 7] = [
    (0, 0, true),
    (0, 1, true),
    (0, 2, false),
    (0, 3, false),
    (0, 4, false),
    (4, 5, false),
    (6, 7, true),
];

#[test]
fn names_of_results_count(rt: HostRuntime) -> Result<(), Fail> {
    let package = package(rt.alloc(), &GIVING, (1, 0), &GIVEN)?;
    assert!(rt; are_compared(&package, &SAME_RESULTS));
    Ok(())
}

/// In a run in which one request for memory fails, its parts may have to be made again; the package is then made at
/// once.
#[test]
fn makes_a_package_without_memory(rt: HostRuntime) -> Result<(), Fail> {
    let (types, definitions) = match defining_parts(rt.alloc()) {
        Ok(all) => all,
        Err(_) => defining_parts(rt.alloc())?,
    };
    let package = Package::new(types, WorldId(1), InterfaceId(0), definitions);
    assert!(rt; package.is_ok());
    Ok(())
}

/// Kinds may be used for those of equal meaning, and no name is empty.
struct OnlySame;

impl Rules for OnlySame {
    ghost use Rattle.std.specs.Prelude.{None, Some, [], ◌∷◌};
    ghost use Rattle.wac_graph_types.specs.Equality.{equal_or, meaning_discrete, equal_or-renamed};
    ghost use Rattle.wac_vectors_graph.specs.TestRules.{empty_refused};

    ghost passes = { λ _ a b. equal_or (record { 0 = 7 }) (meaning_discrete a b) };

    ghost named = { λ _ name. empty_refused name };

    ghost alike_renamed = { λ _ f a b apart. equal_or-renamed (record { 0 = 7 }) f a b apart };

    fn subtype(&self, types: &Types, a: ItemKind, b: ItemKind) -> Result<(), Reason> {
        if types.same(a, b) {
            Ok(())
        } else {
            Err(Reason(7))
        }
    }

    fn extern_name(&self, name: &str) -> Result<(), Reason> {
        if name.is_empty() {
            Err(Reason(8))
        } else {
            Ok(())
        }
    }
}

/// What rules say of the definitions of two places.
fn asked<R: Rules>(rules: &R, package: &Package, i: usize, j: usize) -> Option<Result<(), Reason>> {
    let types = package.types();
    let definitions = package.definitions();
    let (_, first) = definitions.get_index(i)?;
    let (_, second) = definitions.get_index(j)?;
    Some(rules.subtype(types, *first, *second))
}

fn func(alloc: Global) -> FuncType {
    FuncType {
        params: IndexMap::new(alloc),
        results: FuncResults::None,
        is_async: false,
    }
}

fn interface(alloc: Global) -> Interface {
    Interface {
        id: None,
        uses: IndexMap::new(alloc),
        exports: IndexMap::new(alloc),
    }
}

fn world(alloc: Global) -> World {
    World {
        id: None,
        uses: IndexMap::new(alloc),
        imports: IndexMap::new(alloc),
        exports: IndexMap::new(alloc),
    }
}

/// An entry of each sort; their numbers.
fn add_each(alloc: Global, types: &mut Types) -> Result<[usize; 5], AllocError> {
    let name = String::from_str(alloc, "r")?;
    let resource = types.add_resource(Resource { name, alias: None })?;
    let list = types.add_defined_type(DefinedType::List(BYTE))?;
    let func = types.add_func_type(func(alloc))?;
    let interface = types.add_interface(interface(alloc))?;
    let world = types.add_world(world(alloc))?;
    Ok([resource.0, list.0, func.0, interface.0, world.0])
}

#[test]
fn adds_entries(rt: HostRuntime) -> Result<(), Fail> {
    let mut types = Types::new(rt.alloc());
    let added = add_each(rt.alloc(), &mut types)?;
    assert!(rt; added == [0, 1, 2, 3, 4], "entries");
    assert!(rt; has_each(&types));
    assert!(rt; types.interface(InterfaceId(4)).is_none());
    Ok(())
}

/// Kinds, what they are called, and what their promoted kinds are called.
static CALLED: [(ItemKind, &str, &str); 8] = [
    (
        ItemKind::Ty(Type::Func(FuncTypeId(0))),
        "function type",
        "function",
    ),
    (INTERFACE, "interface", "instance"),
    (ItemKind::Ty(Type::World(WorldId(0))), "world", "component"),
    (
        ItemKind::Ty(Type::Resource(ResourceId(0))),
        "resource",
        "resource",
    ),
    (
        ItemKind::Ty(Type::Module(ModuleTypeId(0))),
        "module type",
        "module type",
    ),
    (ItemKind::Ty(Type::Value(BYTE)), "value type", "value type"),
    (ItemKind::Module(ModuleTypeId(0)), "module", "module"),
    (ItemKind::Value(BYTE), "value", "value"),
];

/// Whether each kind and its promoted kind are called what is written beside them.
fn are_called(rows: &[(ItemKind, &str, &str)]) -> bool {
    for (kind, words, promoted) in rows {
        if kind.desc() != *words || kind.promote().desc() != *promoted {
            return false;
        }
    }
    true
}

#[test]
fn describes_kinds(rt: HostRuntime) {
    assert!(rt; are_called(&CALLED));
}

static EXTERN_KINDS: [(ExternKind, &str); 2] = [
    (ExternKind::Import, "import"),
    (ExternKind::Export, "export"),
];

static FUNC_KINDS: [(FuncKind, &str); 4] = [
    (FuncKind::Free, "function"),
    (FuncKind::Method, "method"),
    (FuncKind::Static, "static method"),
    (FuncKind::Constructor, "constructor"),
];

/// Whether the text of each value is what is written beside it.
fn are_shown<D: Display>(alloc: Global, rows: &[(D, &str)]) -> Result<bool, AllocError> {
    for (value, words) in rows {
        if !is_shown(alloc, value, words)? {
            return Ok(false);
        }
    }
    Ok(true)
}

#[test]
fn writes_kinds(rt: HostRuntime) -> Result<(), Fail> {
    assert!(rt; are_shown(rt.alloc(), &EXTERN_KINDS)?);
    assert!(rt; are_shown(rt.alloc(), &FUNC_KINDS)?);
    Ok(())
}
