//! The table of types.
ghost use Rattle.std.specs.Prelude.{◌≡◌, ℕ, ◌+◌, ◌<◌, ◌^◌, ◌++◌, [], ◌∷◌, IsTrue, ◌↔◌, IfOk, OnOk, OnErr, length, slice_get, option_copied, option_and_then, option_map, unwrap_or, string_bytes, vec_len, vec_capacity};
ghost use Rattle.wac_graph_types.specs.Growth.{KeepsMeanings};
ghost use Rattle.wac_graph_types.specs.Meaning.{UnderOrigins, meaning, of_kind};
ghost use Rattle.wac_graph_types.specs.Shape.{contains_borrow as has_borrow};
ghost use Rattle.wac_graph_types.specs.Table.{IsTable, Names};
ghost use Rattle.wac_graph_types.specs.Readings.{as_defined, as_resource, as_func, as_interface, as_world, interface_exports, world_exports, world_imports, kind_exports};
ghost use Rattle.wac_graph_types.specs.Names.{by_name, name_in_place};
ghost use Rattle.wac_graph_types.specs.Scope.{look_up};

use crate::entry::{DefinedType, Entry, FuncType, Interface, Resource, World};
use crate::kind::{
    DefinedTypeId, FuncTypeId, InterfaceId, ItemKind, ResourceId, Type, ValueType, WorldId,
};
use crate::names::{find, name_at};
use crate::{alike, borrows};
use indexmap::IndexMap;
use std::alloc::{AllocError, Global};
use std::marker::Model;

/// A table of types. A contract sees the list of its entries. Growth keeps the meaning of each older kind.
pub struct Types {
    entries: Vec<Entry>,
    /// For each entry whether it contains a borrow, so that this is found once however often a type is named.
    borrows: Vec<bool>,
}

impl Model for Types {
    ghost use Rattle.std.specs.Prelude.{List};
    ghost use Rattle.std.specs.Coded.{codes};
    ghost use Rattle.wac_graph_types.specs.declared.entry.Entry.{Entry};
    ghost use Rattle.wac_graph_types.specs.contracts.entry.Entry as entry;
    ghost use Rattle.wac_graph_types.specs.Borrows.{AreBorrows};

    ghost Value = { List Entry };

    ghost coded = { Prim.hlevel (codes, entry.the_row.coded) };

    ghost view = { λ t. t.entries.items };

    ghost invariant = { λ t. AreBorrows t.entries.items t.borrows.items };
}

// Written out, so that a crate above, which may drop a table, need not prove how its entries are dropped.
impl Drop for Types {
    fn drop(self) {
        let Types {
            entries: _,
            borrows: _,
        } = self;
    }
}

/// Makes room for one more entry, and for what is known of it. The entry isn't passed, so the `?` has none to drop.
fn make_room(entries: &mut Vec<Entry>, borrows: &mut Vec<bool>) -> Result<(), AllocError>
    ensures entries { entries.new.items ≡ entries.old.items }
    ensures borrows { borrows.new.items ≡ borrows.old.items }
    ensures entry { OnOk result (vec_len entries.new < vec_capacity entries.new) }
    ensures borrow { OnOk result (vec_len borrows.new < vec_capacity borrows.new) }
{
    entries.reserve(1)?;
    borrows.reserve(1)
}

/// The interface of that number among the entries, if there is one.
pub(crate) fn interface_at(entries: &[Entry], id: InterfaceId) -> Option<&Interface>
    ensures { option_copied result ≡ option_and_then as_interface (slice_get entries.now id.0) }
{
    let entry = entries.get(id.0)?;
    match entry {
        Entry::Interface(interface) => Some(interface),
        _ => None,
    }
}

/// The world of that number among the entries, if there is one.
pub(crate) fn world_at(entries: &[Entry], id: WorldId) -> Option<&World>
    ensures { option_copied result ≡ option_and_then as_world (slice_get entries.now id.0) }
{
    let entry = entries.get(id.0)?;
    match entry {
        Entry::World(world) => Some(world),
        _ => None,
    }
}

impl Types {
    /// An empty table, which takes its memory from `alloc`.
    pub fn new(alloc: Global) -> Self
        ensures { result ≡ [] }
    {
        Types {
            entries: Vec::new(alloc),
            borrows: Vec::new(alloc),
        }
    }

    /// Makes room for so many more entries, whose numbers then are in a `usize`'s range.
    pub fn reserve(&mut self, additional: usize) -> Result<(), AllocError>
        ensures same { self.new ≡ self.old }
        ensures room { OnOk result (length self.old + additional < 2 ^ 64) }
    {
        self.entries.reserve(additional)?;
        self.borrows.reserve(additional)?;
        let _room = self.entries.capacity();
        Ok(())
    }

    /// Appends an entry, and returns its number.
    #[tactic(auto, using(crate::proofs::Growing::keeps_added, crate::proofs::Growing::keeps_unchanged))]
    pub fn add(&mut self, entry: Entry) -> Result<usize, AllocError>
        ensures number { IfOk result (λ id. id ≡ length self.old) }
        ensures ok { OnOk result (self.new ≡ self.old ++ entry ∷ []) }
        ensures err { OnErr result (self.new ≡ self.old) }
        ensures keeps { KeepsMeanings self.old self.new }
    {
        let id = self.entries.len();
        let borrow = borrows::entry_has_borrow(&self.borrows, &entry);
        match make_room(&mut self.entries, &mut self.borrows) {
            Err(refused) => {
                // Spelled out, since a proof in which each exit drops the entry by itself is slow.
                drop(entry);
                Err(refused)
            }
            Ok(()) => {
                self.entries.push_reserved(entry);
                self.borrows.push_reserved(borrow);
                Ok(id)
            }
        }
    }

    /// Appends a defined type. The ids in it aren't tested here, but by [`Package::new`](crate::Package::new).
    pub fn add_defined_type(&mut self, ty: DefinedType) -> Result<DefinedTypeId, AllocError>
        ensures number { IfOk result (λ id. id.0 ≡ length self.old) }
        ensures ok { OnOk result (self.new ≡ self.old ++ Entry.Defined ty ∷ []) }
        ensures err { OnErr result (self.new ≡ self.old) }
        ensures keeps { KeepsMeanings self.old self.new }
    {
        Ok(DefinedTypeId(self.add(Entry::Defined(ty))?))
    }

    /// Appends a resource. The ids in it aren't tested here, but by [`Package::new`](crate::Package::new).
    pub fn add_resource(&mut self, resource: Resource) -> Result<ResourceId, AllocError>
        ensures number { IfOk result (λ id. id.0 ≡ length self.old) }
        ensures ok { OnOk result (self.new ≡ self.old ++ Entry.Resource resource ∷ []) }
        ensures err { OnErr result (self.new ≡ self.old) }
        ensures keeps { KeepsMeanings self.old self.new }
    {
        Ok(ResourceId(self.add(Entry::Resource(resource))?))
    }

    /// Appends a function type. The ids in it aren't tested here, but by [`Package::new`](crate::Package::new).
    pub fn add_func_type(&mut self, func: FuncType) -> Result<FuncTypeId, AllocError>
        ensures number { IfOk result (λ id. id.0 ≡ length self.old) }
        ensures ok { OnOk result (self.new ≡ self.old ++ Entry.Func func ∷ []) }
        ensures err { OnErr result (self.new ≡ self.old) }
        ensures keeps { KeepsMeanings self.old self.new }
    {
        Ok(FuncTypeId(self.add(Entry::Func(func))?))
    }

    /// Appends an interface. The ids in it aren't tested here, but by [`Package::new`](crate::Package::new).
    pub fn add_interface(&mut self, interface: Interface) -> Result<InterfaceId, AllocError>
        ensures number { IfOk result (λ id. id.0 ≡ length self.old) }
        ensures ok { OnOk result (self.new ≡ self.old ++ Entry.Interface interface ∷ []) }
        ensures err { OnErr result (self.new ≡ self.old) }
        ensures keeps { KeepsMeanings self.old self.new }
    {
        Ok(InterfaceId(self.add(Entry::Interface(interface))?))
    }

    /// Appends a world. The ids in it aren't tested here, but by [`Package::new`](crate::Package::new).
    pub fn add_world(&mut self, world: World) -> Result<WorldId, AllocError>
        ensures number { IfOk result (λ id. id.0 ≡ length self.old) }
        ensures ok { OnOk result (self.new ≡ self.old ++ Entry.World world ∷ []) }
        ensures err { OnErr result (self.new ≡ self.old) }
        ensures keeps { KeepsMeanings self.old self.new }
    {
        Ok(WorldId(self.add(Entry::World(world))?))
    }

    /// The defined type of that number, if there is one.
    pub fn defined_type(&self, id: DefinedTypeId) -> Option<&DefinedType>
        ensures { option_copied result ≡ option_and_then as_defined (slice_get self.now id.0) }
    {
        let entry = self.entries.get(id.0)?;
        match entry {
            Entry::Defined(ty) => Some(ty),
            _ => None,
        }
    }

    /// The resource of that number, if there is one.
    pub fn resource(&self, id: ResourceId) -> Option<&Resource>
        ensures { option_copied result ≡ option_and_then as_resource (slice_get self.now id.0) }
    {
        let entry = self.entries.get(id.0)?;
        match entry {
            Entry::Resource(resource) => Some(resource),
            _ => None,
        }
    }

    /// The function type of that number, if there is one.
    pub fn func_type(&self, id: FuncTypeId) -> Option<&FuncType>
        ensures { option_copied result ≡ option_and_then as_func (slice_get self.now id.0) }
    {
        let entry = self.entries.get(id.0)?;
        match entry {
            Entry::Func(func) => Some(func),
            _ => None,
        }
    }

    /// The interface of that number, if there is one.
    pub fn interface(&self, id: InterfaceId) -> Option<&Interface>
        ensures { option_copied result ≡ option_and_then as_interface (slice_get self.now id.0) }
    {
        interface_at(&self.entries, id)
    }

    /// The world of that number, if there is one.
    pub fn world(&self, id: WorldId) -> Option<&World>
        ensures { option_copied result ≡ option_and_then as_world (slice_get self.now id.0) }
    {
        world_at(&self.entries, id)
    }

    fn interface_exports(&self, id: InterfaceId) -> Option<&IndexMap<String, ItemKind>>
        ensures { unwrap_or (option_map (λ m. by_name m.now.entries) result) [] ≡ interface_exports self.now id.0 }
    {
        let interface = self.interface(id)?;
        Some(&interface.exports)
    }

    fn world_exports(&self, id: WorldId) -> Option<&IndexMap<String, ItemKind>>
        ensures { unwrap_or (option_map (λ m. by_name m.now.entries) result) [] ≡ world_exports self.now id.0 }
    {
        let world = self.world(id)?;
        Some(&world.exports)
    }

    /// What an interface, instance, world or component exports, by name and in order.
    pub fn exports(&self, kind: ItemKind) -> Option<&IndexMap<String, ItemKind>>
        ensures { unwrap_or (option_map (λ m. by_name m.now.entries) result) [] ≡ kind_exports self.now kind }
    {
        match kind {
            ItemKind::Ty(Type::Interface(id)) => self.interface_exports(id),
            ItemKind::Ty(Type::World(id)) => self.world_exports(id),
            ItemKind::Instance(id) => self.interface_exports(id),
            ItemKind::Component(id) => self.world_exports(id),
            _ => None,
        }
    }

    /// What a world imports, by name and in order.
    pub fn imports(&self, id: WorldId) -> Option<&IndexMap<String, ItemKind>>
        ensures { unwrap_or (option_map (λ m. by_name m.now.entries) result) [] ≡ world_imports self.now id.0 }
    {
        let world = self.world(id)?;
        Some(&world.imports)
    }

    /// What an interface, instance, world or component exports under a name.
    pub fn export(&self, kind: ItemKind, name: &str) -> Option<ItemKind>
        ensures { result ≡ look_up name.now (kind_exports self.now kind) }
    {
        let all = self.exports(kind)?;
        find(all, name)
    }

    /// What a world imports under a name.
    pub fn import(&self, id: WorldId, name: &str) -> Option<ItemKind>
        ensures { result ≡ look_up name.now (world_imports self.now id.0) }
    {
        let all = self.imports(id)?;
        find(all, name)
    }

    /// The name of an export by its place, copied.
    pub fn export_name(
        &self,
        alloc: Global,
        kind: ItemKind,
        at: usize,
    ) -> Result<Option<String>, AllocError>
        ensures { IfOk result (λ n. option_map string_bytes n ≡ name_in_place at (kind_exports self.now kind)) }
    {
        match self.exports(kind) {
            None => Ok(None),
            Some(all) => name_at(alloc, all, at),
        }
    }

    /// The name of a world's import by its place, copied.
    pub fn import_name(
        &self,
        alloc: Global,
        id: WorldId,
        at: usize,
    ) -> Result<Option<String>, AllocError>
        ensures { IfOk result (λ n. option_map string_bytes n ≡ name_in_place at (world_imports self.now id.0)) }
    {
        match self.imports(id) {
            None => Ok(None),
            Some(all) => name_at(alloc, all, at),
        }
    }

    /// The entries in order.
    pub fn entries(&self) -> &[Entry]
        ensures { result.now ≡ self.now }
    {
        self.entries.as_slice()
    }

    /// Whether two kinds mean the same, whatever the origins of resources are. It takes no memory, and recurses as
    /// deep as the types nest. It remembers up to 512 of the pairs that it has found to mean the same.
    pub fn same(&self, a: ItemKind, b: ItemKind) -> bool
        requires table { IsTable self.now }
        requires first { Names self.now a }
        requires second { Names self.now b }
        ensures { UnderOrigins self.now (λ mean. IsTrue result ↔ (of_kind mean a ≡ of_kind mean b)) }
    {
        alike::same(&self.entries, a, b)
    }

    /// Whether a value of the type contains a borrow anywhere. What a resource is an alias of doesn't count, and what
    /// names no entry contains none. It is known of each entry, so nothing is traversed.
    pub fn contains_borrow(&self, value: ValueType) -> bool
        ensures { (origins : ℕ → ℕ) → result ≡ has_borrow (meaning origins self.now (ItemKind.Value value)) }
    {
        borrows::child_has_borrow(&self.borrows, Some(ItemKind::Value(value)))
    }
}
