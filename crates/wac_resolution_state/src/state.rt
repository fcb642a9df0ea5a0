//! The graph so far, and what is added to its types.
ghost use Rattle.std.specs.Prelude.{◌≡◌, IfOk, IfSome, option_map, option_and_then, slice_get, string_bytes};
ghost use Rattle.wac_graph_types.specs.declared.entry.Entry.TheVariants as entries;
ghost use Rattle.wac_graph_types.specs.Entry.{children, defined_children};
ghost use Rattle.wac_graph_types.specs.Meaning.{EachKind, of_child};
ghost use Rattle.wac_graph_types.specs.Names.{by_name};
ghost use Rattle.wac_graph_types.specs.Readings.{as_resource};
ghost use Rattle.wac_graph_types.specs.Shape.{func_entry, interface_entry, world_entry, results_mean, values_mean, items_mean, uses_mean, owner_of as owner_meant};
ghost use Rattle.wac_graph_types.specs.Table.{Names};
ghost use Rattle.wac_graph.specs.Means.{entry_means, declared_count};
ghost use Rattle.wac_graph.specs.Origin.{Numbering};
ghost use Rattle.wac_graph.specs.Resources.{resource_entry, alias_entry};
ghost use Rattle.wac_resolution_state.specs.Growth.{AddsDefined, AddsFunc, AddsInterface, AddsWorld, AddsResource};

use std::alloc::{AllocError, Global};
use wac_graph::{
    CompositionGraph, DefinedType, FuncType, FuncTypeId, Interface, InterfaceId, ItemKind,
    Resource, ResourceAlias, ResourceId, Type, ValueType, World, WorldId,
};

/// The graph so far, and where memory comes from.
#[derive(Drop)]
pub struct State {
    /// Where memory comes from.
    pub alloc: Global,
    /// The graph.
    pub graph: CompositionGraph,
}

impl State {
    /// Adds a type of values.
    pub fn add_defined(&mut self, ty: DefinedType) -> Result<ValueType, AllocError>
        requires { EachKind (Names self.old.graph.types) (defined_children ty) }
        ensures { IfOk result (λ v. AddsDefined self.old.graph self.new.graph ty v) }
    {
        Ok(ValueType::Defined(self.graph.add_defined_type(ty)?))
    }

    /// Adds a function type.
    pub fn add_func(&mut self, func: FuncType) -> Result<FuncTypeId, AllocError>
        requires { EachKind (Names self.old.graph.types) (children (entries.Func func)) }
        ensures { IfOk result (λ f. AddsFunc self.old.graph self.new.graph
            (λ numbering. func_entry func.is_async (results_mean (entry_means numbering self.old.graph) func.results)
            (values_mean (entry_means numbering self.old.graph) (by_name func.params.entries))) f) }
    {
        Ok(self.graph.add_func_type(func)?)
    }

    /// Adds an interface.
    pub fn add_interface(&mut self, interface: Interface) -> Result<InterfaceId, AllocError>
        requires { EachKind (Names self.old.graph.types) (children (entries.Interface interface)) }
        ensures { IfOk result (λ i. AddsInterface self.old.graph self.new.graph
            (λ numbering. interface_entry (option_map string_bytes interface.id)
            (uses_mean (entry_means numbering self.old.graph) (by_name interface.uses.entries))
            (items_mean (entry_means numbering self.old.graph) (by_name interface.exports.entries))) i) }
    {
        Ok(self.graph.add_interface(interface)?)
    }

    /// Adds a world.
    pub fn add_world(&mut self, world: World) -> Result<WorldId, AllocError>
        requires { EachKind (Names self.old.graph.types) (children (entries.World world)) }
        ensures { IfOk result (λ w. AddsWorld self.old.graph self.new.graph
            (λ numbering. world_entry (option_map string_bytes world.id)
            (uses_mean (entry_means numbering self.old.graph) (by_name world.uses.entries))
            (items_mean (entry_means numbering self.old.graph) (by_name world.imports.entries))
            (items_mean (entry_means numbering self.old.graph) (by_name world.exports.entries))) w) }
    {
        Ok(self.graph.add_world(world)?)
    }

    /// Adds a new resource.
    pub fn add_resource(&mut self, name: &str) -> Result<ResourceId, AllocError>
        ensures { IfOk result (λ r. AddsResource self.old.graph self.new.graph
            (λ numbering. resource_entry numbering (declared_count self.old.graph) name.now) r) }
    {
        let name = String::from_str(self.alloc, name)?;
        Ok(self.graph.add_resource(Resource { name, alias: None })?)
    }

    /// Adds a new resource that is an alias of another: it has that one's owner.
    pub fn add_alias(&mut self, name: &str, from: ResourceId) -> Result<ResourceId, AllocError>
        requires { Names self.old.graph.types (ItemKind.Ty (Type.Resource from)) }
        ensures { IfOk result (λ r. AddsResource self.old.graph self.new.graph
            (λ numbering. alias_entry numbering (declared_count self.old.graph) name.now
            (entry_means numbering self.old.graph from.0)) r) }
    {
        let owner = self.owner(from);
        let name = String::from_str(self.alloc, name)?;
        let alias = Some(ResourceAlias {
            owner,
            source: from,
        });
        Ok(self.graph.add_resource(Resource { name, alias })?)
    }

    /// The interface that owns the source of a resource that is an alias.
    fn owner(&self, resource: ResourceId) -> Option<InterfaceId>
        requires { Names self.now.graph.types (ItemKind.Ty (Type.Resource resource)) }
        ensures means { (numbering : Numbering)
            → of_child (entry_means numbering self.now.graph) (option_map (λ i. ItemKind.Instance i) result)
            ≡ owner_meant (entry_means numbering self.now.graph resource.0) }
        ensures named { IfSome (option_map (λ i. ItemKind.Instance i) result) (Names self.now.graph.types) }
    {
        // Its contract says that the table is sound, and what its entries mean.
        let _types = self.graph.types();
        self.written_owner(resource)
    }

    /// The owner in the entry of a resource.
    fn written_owner(&self, resource: ResourceId) -> Option<InterfaceId>
        ensures { result ≡ option_and_then (λ a. a.owner)
            (option_and_then (λ r. r.alias)
            (option_and_then as_resource (slice_get self.now.graph.types resource.0))) }
    {
        let resource = self.graph.types().resource(resource)?;
        let alias = resource.alias?;
        alias.owner
    }
}
