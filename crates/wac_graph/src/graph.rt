//! The graph of a composition.
ghost use Rattle.std.specs.Prelude.{◌≡◌, ◌+◌, ◌<◌, ℕ, [], ◌∷◌, ◌++◌, OnOk, OnErr, IfOk, IfSome, IsSome, None, Some, option_map, option_and_then, length, slice_get, string_bytes};
ghost use Rattle.std.specs.List.{AllByRecursion};
ghost use Rattle.wac_graph_types.specs.Entry.{children};
ghost use Rattle.wac_graph_types.specs.Growth.{KeepsMeanings, KeepsNames};
ghost use Rattle.wac_graph_types.specs.Meaning.{EachKind};
ghost use Rattle.wac_graph_types.specs.Names.{name_in_place};
ghost use Rattle.wac_graph_types.specs.Package.{IsPackage};
ghost use Rattle.wac_graph_types.specs.Readings.{kind_exports};
ghost use Rattle.wac_graph_types.specs.Scope.{look_up, IsFresh};
ghost use Rattle.wac_graph_types.specs.Table.{IsTable, EachEntryNamed, Names as NamesEntry};
ghost use Rattle.wac_graph_types.specs.declared.entry.Entry.TheVariants as entries;
ghost use Rattle.wac_graph.specs.Adds.{Adds, AddsPackage, AddsInstance};
ghost use Rattle.wac_graph.specs.Aliased.{AddsAlias, IsAliased, alias_number};
ghost use Rattle.wac_graph.specs.Copied.{IsGrown, IsGrownBy, MeansTheSame};
ghost use Rattle.wac_graph.specs.Graph.{empty, with_import, with_definition, with_export, with_package, with_name, with_argument, export_kind as kind_exported, import_kind as kind_imported, parameter_kind, arguments_of, alias_in, package_of, read_form, import_in_place};
ghost use Rattle.wac_graph.specs.Means.{MeansExport, KeepsKinds, EntriesMean, OriginsApart};
ghost use Rattle.wac_graph.specs.Node.{sort_in, sort_of, import_in, source_in, HasPackage};
ghost use Rattle.wac_graph.specs.Numbers.{numbers};
ghost use Rattle.wac_graph.specs.Package.{key_of, package_keyed, IsHeld};
ghost use Rattle.wac_graph.specs.Readings.{held_of};
ghost use Rattle.wac_graph.specs.Sound.{IsSound, NamesNodes};

use crate::copy_types;
use crate::held_nodes::HeldNodes;
use crate::ids::{Nodes, Packages};
use crate::named::{Names, NodeNames};
use crate::node::{Node, NodeId, NodeKind, PackageId};
use crate::package_key::PackageKey;
use crate::packages::{GraphPackage, HeldPackages, PackageCopy};
use std::alloc::{AllocError, Global};
use std::marker::Model;
use wac_graph_types::{
    DefinedType, DefinedTypeId, Entry, FuncType, FuncTypeId, Interface, InterfaceId, ItemKind,
    Package, Resource, ResourceId, Type, Types, ValueType, World, WorldId,
};

/// A composition: nodes, each an import, a definition, an alias of an instance's export or an instance of a package;
/// what is imported and exported under which name; the packages; and one table with the types of all these.
///
/// Nodes, packages and types are only added, so ids stay valid. The methods take ids of this very graph. What each
/// requires beyond that is in its contract, and the readings show it. The one error is out of memory; it leaves
/// all as it was, except that [`add_package`](Self::add_package) may have added types.
///
/// A contract sees the parts: lists of types, packages, nodes, imports and exports.
pub struct CompositionGraph {
    alloc: Global,
    types: Types,
    packages: HeldPackages,
    nodes: HeldNodes,
    imports: NodeNames,
    exports: NodeNames,
}

impl Model for CompositionGraph {
    ghost use Rattle.std.specs.Coded.{codes};
    ghost use Rattle.wac_graph.specs.Graph.{Parts, graph_of};
    ghost use Rattle.wac_graph.specs.Sound.{IsSound};
    ghost use Rattle.wac_graph_types.specs.contracts.entry.Entry as entry;

    ghost Value = { Parts };

    ghost coded = { Prim.hlevel (codes, entry.the_row.coded) };

    ghost view = { λ g. graph_of g.types g.packages g.nodes.items g.imports g.exports };

    ghost invariant = { λ g. IsSound (graph_of g.types g.packages g.nodes.items g.imports g.exports) };
}

// Written out, so that a crate above, which may drop a graph, need not prove how its parts are dropped.
impl Drop for CompositionGraph {
    fn drop(self) {
        let CompositionGraph {
            alloc: _,
            types: _,
            packages: _,
            nodes: _,
            imports: _,
            exports: _,
        } = self;
    }
}

impl CompositionGraph {
    /// An empty graph, which takes its memory from `alloc`.
    pub fn new(alloc: Global) -> Self
        ensures { result ≡ empty }
    {
        CompositionGraph {
            alloc,
            types: Types::new(alloc),
            packages: HeldPackages::new(alloc),
            nodes: HeldNodes::new(alloc),
            imports: NodeNames::new(alloc),
            exports: NodeNames::new(alloc),
        }
    }

    fn add_entry(&mut self, entry: Entry) -> Result<usize, AllocError>
        requires { EachKind (NamesEntry self.old.types) (children entry) }
        ensures ok { IfOk result (λ id. Adds self.old self.new entry id) }
        ensures err { OnErr result (self.new ≡ self.old) }
        ensures keeps { KeepsMeanings self.old.types self.new.types }
    {
        let id = self.types.add(entry)?;
        Ok(id)
    }

    /// Adds a type whose ids name earlier entries of their sort.
    #[tactic(auto, using(crate::proofs::Entries::defined_named))]
    pub fn add_defined_type(&mut self, ty: DefinedType) -> Result<DefinedTypeId, AllocError>
        requires { EachKind (NamesEntry self.old.types) (children (entries.Defined ty)) }
        ensures ok { IfOk result (λ id. Adds self.old self.new (entries.Defined ty) id.0) }
        ensures there { IfOk result (λ id. NamesEntry self.new.types (ItemKind.Value (ValueType.Defined id))) }
        ensures err { OnErr result (self.new ≡ self.old) }
        ensures keeps { KeepsMeanings self.old.types self.new.types }
    {
        Ok(DefinedTypeId(self.add_entry(Entry::Defined(ty))?))
    }

    /// Adds a resource: a new one, whatever its name and its alias are.
    #[tactic(auto, using(crate::proofs::Entries::resource_named))]
    pub fn add_resource(&mut self, resource: Resource) -> Result<ResourceId, AllocError>
        requires { EachKind (NamesEntry self.old.types) (children (entries.Resource resource)) }
        ensures ok { IfOk result (λ id. Adds self.old self.new (entries.Resource resource) id.0) }
        ensures there { IfOk result (λ id. NamesEntry self.new.types (ItemKind.Ty (Type.Resource id))) }
        ensures err { OnErr result (self.new ≡ self.old) }
        ensures keeps { KeepsMeanings self.old.types self.new.types }
    {
        Ok(ResourceId(self.add_entry(Entry::Resource(resource))?))
    }

    /// Adds a function type.
    #[tactic(auto, using(crate::proofs::Entries::func_named))]
    pub fn add_func_type(&mut self, func: FuncType) -> Result<FuncTypeId, AllocError>
        requires { EachKind (NamesEntry self.old.types) (children (entries.Func func)) }
        ensures ok { IfOk result (λ id. Adds self.old self.new (entries.Func func) id.0) }
        ensures there { IfOk result (λ id. NamesEntry self.new.types (ItemKind.Func id)) }
        ensures err { OnErr result (self.new ≡ self.old) }
        ensures keeps { KeepsMeanings self.old.types self.new.types }
    {
        Ok(FuncTypeId(self.add_entry(Entry::Func(func))?))
    }

    /// Adds an interface.
    #[tactic(auto, using(crate::proofs::Entries::interface_named))]
    pub fn add_interface(&mut self, interface: Interface) -> Result<InterfaceId, AllocError>
        requires { EachKind (NamesEntry self.old.types) (children (entries.Interface interface)) }
        ensures ok { IfOk result (λ id. Adds self.old self.new (entries.Interface interface) id.0) }
        ensures there { IfOk result (λ id. NamesEntry self.new.types (ItemKind.Instance id)) }
        ensures err { OnErr result (self.new ≡ self.old) }
        ensures keeps { KeepsMeanings self.old.types self.new.types }
    {
        Ok(InterfaceId(self.add_entry(Entry::Interface(interface))?))
    }

    /// Adds a world.
    #[tactic(auto, using(crate::proofs::Entries::world_named))]
    pub fn add_world(&mut self, world: World) -> Result<WorldId, AllocError>
        requires { EachKind (NamesEntry self.old.types) (children (entries.World world)) }
        ensures ok { IfOk result (λ id. Adds self.old self.new (entries.World world) id.0) }
        ensures there { IfOk result (λ id. NamesEntry self.new.types (ItemKind.Component id)) }
        ensures err { OnErr result (self.new ≡ self.old) }
        ensures keeps { KeepsMeanings self.old.types self.new.types }
    {
        Ok(WorldId(self.add_entry(Entry::World(world))?))
    }

    /// Adds a package under a new key: its types are copied to the end of the table, where each has a new number.
    ///
    /// A copy means what the package's type means, where the resource of number `i` in the package has the origin of
    /// its copy. An error may leave copied types behind.
    pub fn add_package(
        &mut self,
        key: &PackageKey,
        package: &Package,
    ) -> Result<PackageId, AllocError>
        requires { package_keyed (key_of key.now) self.old.packages ≡ None }
        ensures ok { IfOk result (λ id. AddsPackage self.old self.new (key_of key.now) «package».now id.0) }
        ensures err { OnErr result (self.new ≡ record self.old { types = self.new.types }) }
        ensures grown { IsGrown self.old.types self.new.types }
        ensures keeps { KeepsMeanings self.old.types self.new.types }
        ensures kinds { KeepsKinds self.old self.new }
        ensures names { KeepsNames self.old.types self.new.types }
    {
        let id = self.append_package(key, package)?;
        Ok(id)
    }

    /// Appends a package and copies of its types.
    fn append_package(
        &mut self,
        key: &PackageKey,
        package: &Package,
    ) -> Result<PackageId, AllocError>
        requires { package_keyed (key_of key.now) self.old.packages ≡ None }
        ensures number { IfOk result (λ id. id.0 ≡ length self.old.packages) }
        ensures ok { OnOk result (self.new ≡ with_package self.old (key_of key.now) «package».now self.new.types) }
        ensures copies { OnOk result (IsGrownBy self.old.types «package».now.types self.new.types) }
        ensures means { OnOk result (MeansTheSame self.old.types «package».now.types self.new.types) }
        ensures err { OnErr result (self.new ≡ record self.old { types = self.new.types }) }
        ensures grown { IsGrown self.old.types self.new.types }
        ensures keeps { KeepsMeanings self.old.types self.new.types }
        ensures sound { IsSound self.old }
        ensures facts { IsPackage «package».now }
    {
        let id = PackageId(self.packages.len());
        let number = self.types.entries().len();
        self.types.reserve(package.types().entries().len())?;
        let copy = PackageCopy::moved(self.alloc, number, package)?;
        copy_types(self.alloc, &mut self.types, package.types())?;
        self.packages.push(self.alloc, key, copy)?;
        Ok(id)
    }

    /// Adds a node that is imported under a new name.
    pub fn add_import(&mut self, name: &str, kind: ItemKind) -> Result<NodeId, AllocError>
        requires new { IsFresh name.now self.old.imports }
        requires kind { NamesEntry self.old.types kind }
        ensures number { IfOk result (λ id. id.0 ≡ length self.old.nodes) }
        ensures ok { OnOk result (self.new ≡ with_import self.old name.now kind) }
        ensures err { OnErr result (self.new ≡ self.old) }
    {
        let id = NodeId(self.nodes.len());
        let text = String::from_str(self.alloc, name)?;
        self.nodes.reserve()?;
        self.imports.push(self.alloc, name, id)?;
        self.nodes
            .push(self.alloc, Node::import(self.alloc, text, kind));
        Ok(id)
    }

    /// Adds a node for a type that is exported under a new name.
    pub fn add_definition(&mut self, name: &str, kind: ItemKind) -> Result<NodeId, AllocError>
        requires new { IsFresh name.now self.old.exports }
        requires kind { NamesEntry self.old.types kind }
        ensures number { IfOk result (λ id. id.0 ≡ length self.old.nodes) }
        ensures ok { OnOk result (self.new ≡ with_definition self.old name.now kind) }
        ensures err { OnErr result (self.new ≡ self.old) }
    {
        let id = NodeId(self.nodes.len());
        self.nodes.reserve()?;
        self.exports.push(self.alloc, name, id)?;
        self.nodes
            .push(self.alloc, Node::definition(self.alloc, kind));
        Ok(id)
    }

    /// Exports a node under a new name. A node may have several.
    pub fn add_export(&mut self, name: &str, node: NodeId) -> Result<(), AllocError>
        requires new { IsFresh name.now self.old.exports }
        requires there { node.0 < length self.old.nodes }
        ensures ok { OnOk result (self.new ≡ with_export self.old name.now node.0) }
        ensures err { OnErr result (self.new ≡ self.old) }
    {
        self.exports.push(self.alloc, name, node)
    }

    /// What a node exports under a name, if it is an instance.
    pub fn export_kind(&self, node: NodeId, export: &str) -> Option<ItemKind>
        ensures kind { result ≡ kind_exported self.now node.0 export.now }
        ensures named { IfSome result (NamesEntry self.now.types) }
    {
        match self.nodes.get(node.0)?.kind() {
            ItemKind::Instance(id) => self.types.export(ItemKind::Instance(id), export),
            _ => None,
        }
    }

    fn alias_of(&self, node: NodeId, export: &str) -> Option<NodeId>
        ensures { option_map (λ n. n.0) result ≡ alias_in self.now.nodes node.0 export.now }
    {
        self.nodes.alias_of(node, export)
    }

    /// The node that is the alias of an export of an instance: the one that exists, else a new one.
    pub fn add_alias(&mut self, node: NodeId, export: &str) -> Result<NodeId, AllocError>
        requires { IsSome (kind_exported self.old node.0 export.now) }
        ensures number { IfOk result (λ id. alias_number self.old node.0 export.now ≡ id.0) }
        ensures ok { OnOk result (IsAliased self.old self.new node.0 export.now) }
        ensures err { OnErr result (self.new ≡ self.old) }
    {
        if let Some(id) = self.alias_of(node, export) {
            return Ok(id);
        }
        self.append_alias(node, export)
    }

    fn append_alias(&mut self, node: NodeId, export: &str) -> Result<NodeId, AllocError>
        requires exported { IsSome (kind_exported self.old node.0 export.now) }
        requires new { alias_in self.old.nodes node.0 export.now ≡ None }
        ensures number { IfOk result (λ id. id.0 ≡ length self.old.nodes) }
        ensures ok { OnOk result (AddsAlias self.old self.new node.0 export.now) }
        ensures err { OnErr result (self.new ≡ self.old) }
    {
        let kind = self.export_kind(node, export).unwrap();
        let id = NodeId(self.nodes.len());
        self.nodes.push_alias(self.alloc, node, export, kind)?;
        Ok(id)
    }

    /// Adds an instance of a package. It has no argument yet.
    pub fn add_instantiation(&mut self, package: PackageId) -> Result<NodeId, AllocError>
        requires { «package».0 < length self.old.packages }
        ensures number { IfOk result (λ id. id.0 ≡ length self.old.nodes) }
        ensures ok { OnOk result (AddsInstance self.old self.new «package».0) }
        ensures err { OnErr result (self.new ≡ self.old) }
    {
        let instance = self.packages.get(package.0).instance;
        let id = NodeId(self.nodes.len());
        self.nodes.reserve()?;
        self.nodes.push(
            self.alloc,
            Node::instantiation(self.alloc, package, instance),
        );
        Ok(id)
    }

    /// Gives an earlier node for an import of an instantiation that has none yet.
    pub fn set_argument(
        &mut self,
        node: NodeId,
        import: &str,
        value: NodeId,
    ) -> Result<(), AllocError>
        requires import { IsSome (parameter_kind self.old node.0 import.now) }
        requires open { IsFresh import.now (arguments_of self.old node.0) }
        requires earlier { value.0 < node.0 }
        ensures ok { OnOk result (self.new ≡ with_argument self.old node.0 import.now value.0) }
        ensures err { OnErr result (self.new ≡ self.old) }
    {
        self.nodes.set_argument(self.alloc, node.0, import, value)?;
        Ok(())
    }

    /// Names a node that has no name.
    pub fn set_name(&mut self, node: NodeId, name: &str) -> Result<(), AllocError>
        requires there { node.0 < length self.old.nodes }
        requires unnamed { option_and_then (λ n. n.name) (slice_get self.old.nodes node.0) ≡ None }
        ensures ok { OnOk result (self.new ≡ with_name self.old node.0 name.now) }
        ensures err { OnErr result (self.new ≡ self.old) }
    {
        let text = String::from_str(self.alloc, name)?;
        self.nodes.set_name(node.0, text);
        Ok(())
    }

    /// The nodes in the order in which they were added.
    #[tactic(auto, using(crate::proofs::Numbers::numbers_below))]
    pub fn nodes(&self) -> Nodes<'_>
        ensures nodes { result ≡ numbers 0 (length self.now.nodes) }
        ensures there { AllByRecursion (λ i. i < length self.now.nodes) result }
        ensures sound { IsSound self.now }
    {
        Nodes::new(&self.nodes)
    }

    /// What a node is.
    pub fn node(&self, id: NodeId) -> &NodeKind
        requires { id.0 < length self.now.nodes }
        ensures node { read_form sort_in self.now id.0 ≡ Some (sort_of result.now) }
        ensures there { HasPackage (length self.now.packages) (sort_of result.now) }
    {
        self.nodes.at(id.0).node()
    }

    /// The package that a node is an instance of.
    pub fn instance_of(&self, id: NodeId) -> Option<PackageId>
        requires { id.0 < length self.now.nodes }
        ensures of { option_map (λ p. p.0) result ≡ package_of self.now id.0 }
        ensures there { IfSome result (λ p. p.0 < length self.now.packages) }
    {
        self.nodes.at(id.0).package()
    }

    /// The kind of the item that a node represents.
    pub fn kind(&self, id: NodeId) -> ItemKind
        requires { id.0 < length self.now.nodes }
        ensures kind { option_map (λ n. n.kind) (slice_get self.now.nodes id.0) ≡ Some result }
        ensures named { NamesEntry self.now.types result }
    {
        self.nodes.at(id.0).kind()
    }

    /// The name that [`set_name`](Self::set_name) gave.
    pub fn name(&self, id: NodeId) -> Option<&str>
        requires { id.0 < length self.now.nodes }
        ensures { option_map (λ n. n.name) (slice_get self.now.nodes id.0) ≡ Some (option_map (λ s. s.now) result) }
    {
        self.nodes.at(id.0).name()
    }

    /// The name under which a node is imported.
    pub fn import_name(&self, id: NodeId) -> Option<&str>
        requires { id.0 < length self.now.nodes }
        ensures { read_form import_in self.now id.0 ≡ Some (option_map (λ s. s.now) result) }
    {
        self.nodes.at(id.0).import_name()
    }

    /// The instance and the name of its export, of a node that is an alias.
    pub fn alias_source(&self, id: NodeId) -> Option<(NodeId, &str)>
        requires { id.0 < length self.now.nodes }
        ensures source { read_form source_in self.now id.0 ≡ Some (option_map (λ s. (s.0.0, s.1.now)) result) }
        ensures earlier { IfSome result (λ s. s.0.0 < id.0) }
    {
        self.nodes.at(id.0).source()
    }

    /// The arguments of an instantiation, in the order in which they were given. Other nodes have none.
    pub fn arguments(&self, id: NodeId) -> Names<'_>
        requires { id.0 < length self.now.nodes }
        ensures arguments { result ≡ arguments_of self.now id.0 }
        ensures earlier { NamesNodes id.0 result }
    {
        self.nodes.at(id.0).arguments().iter()
    }

    /// The node that was given for an import of an instantiation.
    pub fn argument(&self, id: NodeId, import: &str) -> Option<NodeId>
        requires { id.0 < length self.now.nodes }
        ensures node { option_map (λ n. n.0) result ≡ look_up import.now (arguments_of self.now id.0) }
        ensures earlier { IfSome result (λ n. n.0 < id.0) }
    {
        self.nodes.at(id.0).arguments().get(import)
    }

    /// The imported nodes by name, in the order in which they were added.
    pub fn imports(&self) -> Names<'_>
        ensures imports { result ≡ self.now.imports }
        ensures there { NamesNodes (length self.now.nodes) result }
    {
        self.imports.iter()
    }

    /// The node that is imported under a name.
    pub fn get_import(&self, name: &str) -> Option<NodeId>
        ensures node { option_map (λ n. n.0) result ≡ look_up name.now self.now.imports }
        ensures there { IfSome result (λ n. n.0 < length self.now.nodes) }
    {
        self.imports.get(name)
    }

    /// The exported nodes by name, in the order in which they were exported.
    pub fn exports(&self) -> Names<'_>
        ensures exports { result ≡ self.now.exports }
        ensures there { NamesNodes (length self.now.nodes) result }
    {
        self.exports.iter()
    }

    /// The node that is exported under a name.
    pub fn get_export(&self, name: &str) -> Option<NodeId>
        ensures node { option_map (λ n. n.0) result ≡ look_up name.now self.now.exports }
        ensures there { IfSome result (λ n. n.0 < length self.now.nodes) }
    {
        self.exports.get(name)
    }

    /// The packages in the order in which they were added.
    #[tactic(auto, using(crate::proofs::Numbers::numbers_below))]
    pub fn packages(&self) -> Packages<'_>
        ensures packages { result ≡ numbers 0 (length self.now.packages) }
        ensures there { AllByRecursion (λ i. i < length self.now.packages) result }
    {
        Packages::new(&self.packages)
    }

    /// The package of a key, if it was added.
    pub fn get_package(&self, key: &PackageKey) -> Option<PackageId>
        ensures found { option_map (λ p. p.0) result ≡ package_keyed (key_of key.now) self.now.packages }
        ensures there { IfSome result (λ p. p.0 < length self.now.packages) }
    {
        let place = self.packages.find(key)?;
        Some(PackageId(place))
    }

    /// What the graph holds of a package.
    pub fn package(&self, id: PackageId) -> GraphPackage<'_>
        requires { id.0 < length self.now.packages }
        ensures found { slice_get self.now.packages id.0 ≡ Some (held_of result) }
        ensures named { IsHeld self.now.types (held_of result) }
    {
        self.packages.get(id.0)
    }

    /// What a package imports under a name.
    pub fn import_kind(&self, id: PackageId, name: &str) -> Option<ItemKind>
        requires { id.0 < length self.now.packages }
        ensures kind { result ≡ kind_imported self.now id.0 name.now }
        ensures named { IfSome result (NamesEntry self.now.types) }
    {
        self.types.import(self.packages.get(id.0).world, name)
    }

    /// The name of a package's import at a place. It is copied, so it can be passed to calls that change the graph.
    pub fn parameter_name(&self, id: PackageId, at: usize) -> Result<Option<String>, AllocError>
        requires { id.0 < length self.now.packages }
        ensures { IfOk result (λ n. option_map string_bytes n ≡ import_in_place self.now id.0 at) }
    {
        let world = self.packages.get(id.0).world;
        self.types.import_name(self.alloc, world, at)
    }

    /// What an interface, instance, world or component exports under a name.
    pub fn export(&self, kind: ItemKind, name: &str) -> Option<ItemKind>
        requires { NamesEntry self.now.types kind }
        ensures kind { result ≡ look_up name.now (kind_exports self.now.types kind) }
        ensures means { MeansExport self.now kind name.now result }
        ensures named { IfSome result (NamesEntry self.now.types) }
    {
        self.types.export(kind, name)
    }

    /// The name of the export at a place. It is copied, so it can be passed to calls that change the graph.
    pub fn export_name(&self, kind: ItemKind, at: usize) -> Result<Option<String>, AllocError>
        ensures { IfOk result (λ n. option_map string_bytes n ≡ name_in_place at (kind_exports self.now.types kind)) }
    {
        self.types.export_name(self.alloc, kind, at)
    }

    /// The table of types.
    pub fn types(&self) -> &Types
        ensures types { result.now ≡ self.now.types }
        ensures table { IsTable self.now.types }
        ensures entries { EachEntryNamed self.now.types }
        ensures means { EntriesMean self.now }
        ensures apart { OriginsApart self.now }
    {
        &self.types
    }
}
