// Laws of graphs that are extended. Each function does nothing: its contract is the law.
ghost use Rattle.std.specs.Prelude.{◌≡◌, ◌<◌, ℕ, List, Some, length, slice_get};
ghost use Rattle.wac_graph_types.specs.declared.kind.ItemKind.TheVariants as kinds;
ghost use Rattle.wac_graph_types.specs.declared.kind.WorldId.{WorldId};
ghost use Rattle.wac_graph_types.specs.Package.{PackageParts};
ghost use Rattle.wac_graph_types.specs.Scope.{Named};
ghost use Rattle.wac_graph_types.specs.Table.{Names};
ghost use Rattle.wac_graph.specs.declared.node.NodeId.{NodeId};
ghost use Rattle.wac_graph.specs.Graph.{Parts};
ghost use Rattle.wac_graph.specs.Means.{declared_count};
ghost use Rattle.wac_graph.specs.Origin.{Numbering};
ghost use Rattle.wac_graph.specs.Package.{Key, HeldPackage};
ghost use Rattle.wac_graph.specs.Packages.{contents_in};
ghost use Rattle.wac_resolution_state.specs.declared.root.Root.{Root};
ghost use Rattle.wac_resolution_state.specs.NodeGrowth.{GrowsNodes};
ghost use Rattle.wac_resolution_state.specs.Nodes.{composition_of, NodesStand};
ghost use Rattle.wac_resolution_state.specs.Root.{Agrees};
ghost use Rattle.wac_resolution_state.specs.Expands.{Expands, AllSupplied};
ghost use Rattle.wac_resolution_expressions.specs.Spreads.{GivenThere, imports_at};
ghost use Rattle.wac_resolution_expressions.specs.Growth.{Extends};

/// A graph that gets nothing is extended, and so is one that gets types and packages, or nodes, and one that is extended twice.
pub fn graphs_extend()
    ensures nothing { (packages : List (Key × PackageParts)) (g : Parts)
        → NodesStand g → AllSupplied packages g → Extends packages g g }
    ensures expands { (packages : List (Key × PackageParts)) (old new : Parts) → Expands old new → NodesStand old
        → AllSupplied packages new → declared_count new ≡ declared_count old → Extends packages old new }
    ensures nodes { (packages : List (Key × PackageParts)) (old new : Parts)
        → GrowsNodes old new → AllSupplied packages old → Extends packages old new }
    ensures twice { (packages : List (Key × PackageParts)) (a b c : Parts)
        → Extends packages a b → Extends packages b c → Extends packages a c }
{}

/// Names at root still agree with the graph, given nodes still exist, and worlds and packages mean what they meant. The
/// composition stays the same where no node is added.
pub fn extending_keeps()
    ensures agrees { (packages : List (Key × PackageParts)) (old new : Parts)
        → Extends packages old new → (root : Root) → Agrees old root → Agrees new root }
    ensures given { (packages : List (Key × PackageParts)) (old new : Parts)
        → Extends packages old new → (all : Named NodeId) → GivenThere old all → GivenThere new all }
    ensures imports { (packages : List (Key × PackageParts)) (old new : Parts) → Extends packages old new
        → (w : WorldId) → Names old.types (kinds.Component w) → (numbering : Numbering)
        → imports_at numbering new w ≡ imports_at numbering old w }
    ensures contents { (packages : List (Key × PackageParts)) (old new : Parts) → Extends packages old new
        → AllSupplied packages old → (i : ℕ) (p : HeldPackage) → slice_get old.packages i ≡ Some p
        → (numbering : Numbering) → contents_in numbering new p ≡ contents_in numbering old p }
    ensures composition { (old new : Parts) → Expands old new → NodesStand old → declared_count new ≡ declared_count old
        → (numbering : Numbering) (declared : Named ℕ)
        → composition_of numbering new declared ≡ composition_of numbering old declared }
{}
