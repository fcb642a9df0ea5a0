//! Packages.
ghost use Rattle.std.specs.Prelude.{◌≡◌, ◌<◌, length, option_map, option_copied, IsTrue, ◌↔◌, IfOk, IfErr, OnOk, IfSome};
ghost use Rattle.std.specs.List.{AllByRecursion};
ghost use Rattle.wac_graph_types.specs.Entry.{children, export_children};
ghost use Rattle.wac_graph_types.specs.Meaning.{UnderOrigins, IsEarlier, ChildrenBefore, EachKind};
ghost use Rattle.wac_graph_types.specs.Readings.{interface_in, world_in};
ghost use Rattle.wac_graph_types.specs.Kind.{named_by};
ghost use Rattle.wac_graph_types.specs.Names.{by_name};
ghost use Rattle.wac_graph_types.specs.Table.{IsOfSort, IsTable, ItemsNamed, Names};
ghost use Rattle.wac_graph_types.specs.Package.{parts_of, IdsInRange, IdsOfSort, IdsEarlier, HaveIds, SameExterns, SameExports, OtherExports, IsPackage, FirstFault};
ghost use Rattle.wac_graph_types.specs.Tests.{Passes, EntriesPass, DefinitionsPass, AllPass};

use crate::alike::same_child;
use crate::child::export;
use crate::entry::Entry;
use crate::kind::{InterfaceId, ItemKind, Type, WorldId};
use crate::types::{Types, interface_at, world_at};
use indexmap::IndexMap;
use std::alloc::AllocError;
use std::fmt;
use std::marker::Model;

/// Why there is no such package. The faults are in the order in which they are looked for.
#[derive(Debug, Drop)]
pub enum PackageError {
    /// An id is past the table's entries.
    OutOfRange,
    /// An id names an entry of another sort.
    OtherSort,
    /// An id inside an entry isn't below that entry's number.
    NotEarlier,
    /// A definition, import or export is an interface as a type, and that interface has no id.
    NoInterfaceId,
    /// The instance and the world export other names or meanings, or in another order.
    InstanceExports,
    /// Memory ran out while the package's parts were made. [`Package::new`] takes none and never returns it.
    Memory(AllocError),
}

impl fmt::Display for PackageError {
    ghost use Rattle.std.specs.Prelude.{Some};
    ghost use Rattle.wac_graph_types.specs.Messages.{text_of};

    ghost output = { λ e. Some (text_of e) };

    fn fmt<W: fmt::Write>(&self, f: &mut fmt::Formatter<W>) -> fmt::Result {
        match self {
            PackageError::OutOfRange => f.write_str("id out of range"),
            PackageError::OtherSort => f.write_str("id of another sort"),
            PackageError::NotEarlier => f.write_str("id is not earlier"),
            PackageError::NoInterfaceId => f.write_str("interface type without an id"),
            PackageError::InstanceExports => {
                f.write_str("instance exports differ from the exports of the world")
            }
            PackageError::Memory(_) => f.write_str("out of memory"),
        }
    }
}

impl std::error::Error for PackageError {}

impl From<AllocError> for PackageError {
    ghost use Rattle.std.specs.Prelude.{◌≡◌};
    ghost use Rattle.wac_graph_types.specs.declared.package.PackageError.TheVariants as errors;

    ghost from_gives = { λ refused e. e ≡ errors.Memory refused };

    fn from(refused: AllocError) -> PackageError {
        PackageError::Memory(refused)
    }
}

/// A component's types: its world, the instance that it becomes, and the types that it defines, by name.
///
/// The numbers in it are those of its own table. A contract sees its parts.
pub struct Package {
    types: Types,
    world: WorldId,
    instance: InterfaceId,
    definitions: IndexMap<String, ItemKind>,
}

impl Model for Package {
    ghost use Rattle.wac_graph_types.specs.Package.{PackageParts, parts_of, IsPackage};
    ghost use Rattle.std.specs.Coded.{codes};
    ghost use Rattle.wac_graph_types.specs.contracts.entry.Entry as entry;

    ghost Value = { PackageParts };

    ghost coded = { Prim.hlevel (codes, entry.the_row.coded) };

    ghost view = { λ p. parts_of p.types p.world p.instance p.definitions.entries };

    ghost invariant = { λ p. IsPackage (parts_of p.types p.world p.instance p.definitions.entries) };
}

// Written out, so that a crate above, which may drop a package, need not prove how its parts are dropped.
impl Drop for Package {
    fn drop(self) {
        let Package {
            types: _,
            world: _,
            instance: _,
            definitions: _,
        } = self;
    }
}

/// What each kind of a package is tested for.
#[derive(Clone, Copy)]
pub enum Test {
    InRange,
    OfSort,
    Earlier,
    HasId,
}

fn has_id(entries: &[Entry], kind: ItemKind) -> bool
    ensures { IsTrue result ↔ Passes Test.HasId entries.now 0 kind }
{
    let ItemKind::Ty(Type::Interface(id)) = kind else {
        return true;
    };
    match interface_at(entries, id) {
        Some(interface) => interface.id.is_some(),
        None => false,
    }
}

fn is_of_sort(entries: &[Entry], kind: ItemKind) -> bool
    ensures { IsTrue result ↔ Passes Test.OfSort entries.now 0 kind }
{
    let Some(id) = kind.id() else {
        return true;
    };
    match entries.get(id) {
        None => false,
        Some(entry) => entry.sort() == kind.sort(),
    }
}

fn is_before(number: usize, kind: ItemKind) -> bool
    ensures { IsTrue result ↔ IfSome (named_by kind) (λ i. i < number) }
{
    match kind.id() {
        None => true,
        Some(id) => id < number,
    }
}

/// Whether a kind in the entry of that number passes.
fn passes(test: Test, entries: &[Entry], number: usize, kind: ItemKind) -> bool
    ensures { IsTrue result ↔ Passes test entries.now number kind }
{
    match test {
        Test::InRange => is_before(entries.len(), kind),
        Test::OfSort => is_of_sort(entries, kind),
        Test::Earlier => is_before(number, kind),
        Test::HasId => has_id(entries, kind),
    }
}

fn child_passes(test: Test, entries: &[Entry], number: usize, kind: Option<ItemKind>) -> bool
    ensures { IsTrue result ↔ IfSome kind (Passes test entries.now number) }
{
    match kind {
        None => true,
        Some(kind) => passes(test, entries, number, kind),
    }
}

fn entry_passes(test: Test, entries: &[Entry], number: usize, entry: &Entry) -> bool
    ensures { IsTrue result ↔ EachKind (Passes test entries.now number) (children entry.now) }
{
    for at in 0..entry.len() {
        let Some(child) = entry.child(at) else {
            return false;
        };
        if !child_passes(test, entries, number, child.kind) {
            return false;
        }
    }
    true
}

fn entries_pass(test: Test, entries: &[Entry]) -> bool
    ensures { IsTrue result ↔ EntriesPass test entries.now }
{
    for number in 0..entries.len() {
        if !entry_passes(test, entries, number, &entries[number]) {
            return false;
        }
    }
    true
}

fn definitions_pass(test: Test, entries: &[Entry], definitions: &IndexMap<String, ItemKind>) -> bool
    ensures { IsTrue result ↔ DefinitionsPass test entries.now (by_name definitions.now.entries) }
{
    for at in 0..definitions.len() {
        let Some((_, kind)) = definitions.get_index(at) else {
            return false;
        };
        if !passes(test, entries, 0, *kind) {
            return false;
        }
    }
    true
}

/// Whether each kind of a package passes.
fn all_pass(
    test: Test,
    entries: &[Entry],
    world: WorldId,
    instance: InterfaceId,
    definitions: &IndexMap<String, ItemKind>,
) -> bool
    ensures { IsTrue result ↔ AllPass test (parts_of entries.now world instance definitions.now.entries) }
{
    passes(test, entries, 0, ItemKind::Component(world))
        && passes(test, entries, 0, ItemKind::Instance(instance))
        && definitions_pass(test, entries, definitions)
        && entries_pass(test, entries)
}

/// Whether each id is an entry's number.
fn ids_in_range(
    entries: &[Entry],
    world: WorldId,
    instance: InterfaceId,
    definitions: &IndexMap<String, ItemKind>,
) -> bool
    ensures { IsTrue result ↔ IdsInRange (parts_of entries.now world instance definitions.now.entries) }
{
    all_pass(Test::InRange, entries, world, instance, definitions)
}

/// Whether each id names an entry of its sort.
fn ids_of_sort(
    entries: &[Entry],
    world: WorldId,
    instance: InterfaceId,
    definitions: &IndexMap<String, ItemKind>,
) -> bool
    ensures { IsTrue result ↔ IdsOfSort (parts_of entries.now world instance definitions.now.entries) }
{
    all_pass(Test::OfSort, entries, world, instance, definitions)
}

/// Whether each id in an entry is below the entry's number.
fn ids_earlier(entries: &[Entry]) -> bool
    ensures { IsTrue result ↔ IdsEarlier entries.now }
{
    entries_pass(Test::Earlier, entries)
}

/// Whether each interface that appears as a type has an id.
fn have_ids(entries: &[Entry], definitions: &IndexMap<String, ItemKind>) -> bool
    ensures { IsTrue result ↔ HaveIds entries.now (by_name definitions.now.entries) }
{
    definitions_pass(Test::HasId, entries, definitions) && entries_pass(Test::HasId, entries)
}

/// Whether the exports have equal names and meanings, one by one.
fn same_externs(
    entries: &[Entry],
    first: &IndexMap<String, ItemKind>,
    second: &IndexMap<String, ItemKind>,
) -> bool
    requires earlier { IsEarlier entries.now }
    requires first { ChildrenBefore (length entries.now) (export_children first.now.entries) }
    requires second { ChildrenBefore (length entries.now) (export_children second.now.entries) }
    ensures { UnderOrigins entries.now (λ mean. IsTrue result ↔ SameExterns first.now.entries second.now.entries mean) }
{
    let count = first.len();
    if second.len() != count {
        return false;
    }
    for at in 0..count {
        match (export(first, at), export(second, at)) {
            (Some(c), Some(d)) => {
                if !c.place.same(d.place) {
                    return false;
                }
                if !same_child(entries, c.kind, d.kind) {
                    return false;
                }
            }
            _ => return false,
        }
    }
    true
}

#[tactic(auto, using(crate::proofs::Exports::read_interface_before))]
fn exports_of_interface(entries: &[Entry], id: InterfaceId) -> Option<&IndexMap<String, ItemKind>>
    requires earlier { IsEarlier entries.now }
    ensures read { option_copied result ≡ option_map (λ i. i.exports) (interface_in entries.now id.0) }
    ensures before { IfSome result (λ m. ChildrenBefore (length entries.now) (export_children m.now.entries)) }
{
    let interface = interface_at(entries, id)?;
    Some(&interface.exports)
}

#[tactic(auto, using(crate::proofs::Exports::read_world_before))]
fn exports_of_world(entries: &[Entry], id: WorldId) -> Option<&IndexMap<String, ItemKind>>
    requires earlier { IsEarlier entries.now }
    ensures read { option_copied result ≡ option_map (λ w. w.exports) (world_in entries.now id.0) }
    ensures before { IfSome result (λ m. ChildrenBefore (length entries.now) (export_children m.now.entries)) }
{
    let world = world_at(entries, id)?;
    Some(&world.exports)
}

/// Whether the instance and the world, which exist, export the same.
#[tactic(auto, using(crate::proofs::Exports::interface_there, crate::proofs::Exports::world_there))]
fn same_exports(entries: &[Entry], world: WorldId, instance: InterfaceId) -> bool
    requires earlier { IsEarlier entries.now }
    requires world { IsOfSort entries.now (ItemKind.Component world) }
    requires instance { IsOfSort entries.now (ItemKind.Instance instance) }
    ensures same { IsTrue result → SameExports entries.now world instance }
    ensures other { (IsTrue result → ⊥) → OtherExports entries.now world instance }
{
    let Some(first) = exports_of_interface(entries, instance) else {
        return false;
    };
    let Some(second) = exports_of_world(entries, world) else {
        return false;
    };
    same_externs(entries, first, second)
}

/// Looks for each fault in the whole package before the next. It borrows the parts, so that no exit has to drop them.
fn test_parts(
    entries: &[Entry],
    world: WorldId,
    instance: InterfaceId,
    definitions: &IndexMap<String, ItemKind>,
) -> Result<(), PackageError>
    ensures ok { OnOk result (IsPackage (parts_of entries.now world instance definitions.now.entries)) }
    ensures err { IfErr result (λ e. FirstFault e (parts_of entries.now world instance definitions.now.entries)) }
{
    if !ids_in_range(entries, world, instance, definitions) {
        return Err(PackageError::OutOfRange);
    }
    if !ids_of_sort(entries, world, instance, definitions) {
        return Err(PackageError::OtherSort);
    }
    if !ids_earlier(entries) {
        return Err(PackageError::NotEarlier);
    }
    if !have_ids(entries, definitions) {
        return Err(PackageError::NoInterfaceId);
    }
    if !same_exports(entries, world, instance) {
        return Err(PackageError::InstanceExports);
    }
    Ok(())
}

impl Package {
    /// The package of these parts, unless it has a fault: then the first one, where each is looked for in the whole
    /// package before the next.
    ///
    /// It takes no memory. The types, the world and the rest are dropped where it is rejected.
    pub fn new(
        types: Types,
        world: WorldId,
        instance: InterfaceId,
        definitions: IndexMap<String, ItemKind>,
    ) -> Result<Package, PackageError>
        ensures is { IfOk result (λ p. p ≡ parts_of types world instance definitions.entries) }
        ensures ok { IfOk result IsPackage }
        ensures err { IfErr result (λ e. FirstFault e (parts_of types world instance definitions.entries)) }
    {
        match test_parts(types.entries(), world, instance, &definitions) {
            Err(fault) => Err(fault),
            Ok(()) => Ok(Package {
                types,
                world,
                instance,
                definitions,
            }),
        }
    }

    /// Its table of types.
    pub fn types(&self) -> &Types
        ensures types { result.now ≡ self.now.types }
        ensures table { IsTable self.now.types }
        ensures facts { IsPackage self.now }
    {
        &self.types
    }

    /// The component's world: what it imports and exports.
    #[tactic(auto, using(crate::proofs::Packages::package_world))]
    pub fn world(&self) -> WorldId
        ensures world { result ≡ self.now.world }
        ensures named { Names self.now.types (ItemKind.Component self.now.world) }
    {
        self.world
    }

    /// The interface of the component's instances. It exports what the world exports.
    #[tactic(auto, using(crate::proofs::Packages::package_instance))]
    pub fn instance(&self) -> InterfaceId
        ensures instance { result ≡ self.now.instance }
        ensures named { Names self.now.types (ItemKind.Instance self.now.instance) }
    {
        self.instance
    }

    /// The types that the package defines, by name and in order.
    #[tactic(auto, using(crate::proofs::Packages::package_definitions))]
    pub fn definitions(&self) -> &IndexMap<String, ItemKind>
        ensures definitions { by_name result.now.entries ≡ self.now.definitions }
        ensures named { ItemsNamed self.now.types self.now.definitions }
    {
        &self.definitions
    }
}
