// Laws of graphs that get more types and packages. Each function does nothing: its contract is the law.
ghost use Rattle.std.specs.Prelude.{◌≡◌, List};
ghost use Rattle.wac_graph_types.specs.declared.kind.ItemKind.{ItemKind};
ghost use Rattle.wac_graph_types.specs.Package.{PackageParts};
ghost use Rattle.wac_graph_types.specs.Scope.{Named};
ghost use Rattle.wac_graph_types.specs.Table.{ItemsNamed};
ghost use Rattle.wac_graph.specs.Graph.{Parts};
ghost use Rattle.wac_graph.specs.Origin.{Numbering};
ghost use Rattle.wac_graph.specs.Package.{Key};
ghost use Rattle.wac_resolution_state.specs.Growth.{Grows};
ghost use Rattle.wac_resolution_state.specs.Named.{scope_of};
ghost use Rattle.wac_resolution_state.specs.Expands.{Expands, AllSupplied};

/// A graph that gets nothing expands, and what expands twice expands.
pub fn expanding_goes_on()
    ensures nothing { (g : Parts) → Expands g g }
    ensures twice { (a b c : Parts) → Expands a b → Expands b c → Expands a c }
{}

/// A graph that gets more types alone expands, and still holds packages as they were supplied.
pub fn growing_expands()
    ensures expands { (old new : Parts) → Grows old new → Expands old new }
    ensures supplied { (packages : List (Key × PackageParts)) (old new : Parts)
        → Grows old new → AllSupplied packages old → AllSupplied packages new }
    ensures kept { (packages : List (Key × PackageParts)) (old new : Parts)
        → Expands old new → new.packages ≡ old.packages → AllSupplied packages old → AllSupplied packages new }
{}

/// Named kinds still name types, and mean what they meant.
pub fn scopes_are_kept()
    ensures named { (old new : Parts) (ks : Named ItemKind)
        → Expands old new → ItemsNamed old.types ks → ItemsNamed new.types ks }
    ensures means { (old new : Parts) (ks : Named ItemKind) (numbering : Numbering)
        → Expands old new → ItemsNamed old.types ks → scope_of numbering new ks ≡ scope_of numbering old ks }
{}
