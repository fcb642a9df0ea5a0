//! Laws of the definitions that the contracts cite. Each function does nothing: its contract is the law.
ghost use Rattle.std.specs.Prelude.{◌≡◌, ◌↔◌, ℕ, List, [], IsTrue, length};
ghost use Rattle.wac_graph_types.specs.declared.entry.Entry.{Entry as AnEntry};
ghost use Rattle.wac_graph_types.specs.declared.kind.ItemKind.{ItemKind as Kind};
ghost use Rattle.wac_graph_types.specs.Package.{PackageParts};
ghost use Rattle.wac_graph_types.specs.declared.kind.InterfaceId.{InterfaceId as AnInterface};
ghost use Rattle.wac_graph_types.specs.declared.kind.WorldId.{WorldId as AWorld};
ghost use Rattle.wac_graph.specs.Graph.{Parts, with_entry, with_import, with_definition, with_export, with_alias, with_instantiation, with_name, with_argument, arguments_of};
ghost use Rattle.wac_graph.specs.Kept.{Keeps, KeepsArguments, KeepsAliases};
ghost use Rattle.wac_graph.specs.Laws.{MeansInterfaceExports, MeansWorldExports, MeansWorldImports, KeepsWithPackage, NameIsRead, ArgumentIsRead, OthersStay, OtherNodesStay, AliasesStay, ImportsAsPackage, ExportsAsKind};
ghost use Rattle.wac_graph.specs.Means.{KeepsKinds};
ghost use Rattle.wac_graph.specs.Origin.{Numbering, IsOneToOne, numbered};
ghost use Rattle.wac_graph.specs.Package.{Key, HeldPackage, IsHeld, same_key};
ghost use Rattle.wac_graph.specs.Packages.{KeepsContents};

/// What interfaces and worlds export and import, in the table's order, is what their meanings do.
pub fn tables_mean()
    ensures interfaces { (g : Parts) (numbering : Numbering) (id : AnInterface) → MeansInterfaceExports g numbering id }
    ensures worlds { (g : Parts) (numbering : Numbering) (id : AWorld) → MeansWorldExports g numbering id }
    ensures imports { (g : Parts) (numbering : Numbering) (id : AWorld) → MeansWorldImports g numbering id }
{}

/// Some naming of origins gives no two the same number, so what is said of each such numbering is not said of none.
pub fn origins_can_be_numbered()
    ensures { IsOneToOne numbered }
{}

/// Keys are the same where their names and their versions' texts are.
pub fn keys_are_compared()
    ensures { (a b : Key) → IsTrue (same_key a b) ↔ (a ≡ b) }
{}

/// What is read by number and by name stays as types and packages are added.
pub fn adding_keeps()
    ensures entries { (g : Parts) (e : AnEntry) → Keeps g (with_entry g e) }
    ensures packages { (g : Parts) (key : Key) (p : PackageParts) → KeepsWithPackage g key p }
{}

/// What is read by number and by name stays as nodes and exports are added, and as nodes are changed.
pub fn composing_keeps()
    ensures imports { (g : Parts) (name : List ℕ) (k : Kind) → Keeps g (with_import g name k) }
    ensures definitions { (g : Parts) (name : List ℕ) (k : Kind) → Keeps g (with_definition g name k) }
    ensures exports { (g : Parts) (name : List ℕ) (node : ℕ) → Keeps g (with_export g name node) }
    ensures aliases { (g : Parts) (node : ℕ) (export : List ℕ) (k : Kind) → Keeps g (with_alias g node export k) }
    ensures instances { (g : Parts) (p : ℕ) (k : Kind) → Keeps g (with_instantiation g p k) }
    ensures names { (g : Parts) (node : ℕ) (name : List ℕ) → Keeps g (with_name g node name) }
    ensures arguments { (g : Parts) (node : ℕ) (name : List ℕ) (value : ℕ) → Keeps g (with_argument g node name value) }
{}

/// What stays through each of two steps stays through both.
pub fn keeping_goes_on()
    ensures { (a b c : Parts) → Keeps a b → Keeps b c → Keeps a c }
{}

/// A package that a graph holds keeps its contents where kinds keep their meanings.
pub fn contents_are_kept()
    ensures { (old new : Parts) (p : HeldPackage) → KeepsKinds old new → IsHeld old.types p → KeepsContents old new p }
{}

/// A node that is named has the name; arguments and aliases are what they were.
pub fn names_are_read()
    ensures named { (g : Parts) (node : ℕ) (name : List ℕ) → NameIsRead g node name }
    ensures arguments { (g : Parts) (node : ℕ) (name : List ℕ) → KeepsArguments g (with_name g node name) }
    ensures aliases { (g : Parts) (node : ℕ) (name : List ℕ) → KeepsAliases g (with_name g node name) }
{}

/// An argument that is given to an instance is found by its name; other arguments, and aliases, are what they were.
pub fn arguments_are_read()
    ensures given { (g : Parts) (node : ℕ) (name : List ℕ) (value : ℕ) → ArgumentIsRead g node name value }
    ensures others { (g : Parts) (node : ℕ) (name : List ℕ) (value : ℕ) → OthersStay g node name value }
    ensures nodes { (g : Parts) (node : ℕ) (name : List ℕ) (value : ℕ) → OtherNodesStay g node name value }
    ensures aliases { (g : Parts) (node : ℕ) (name : List ℕ) (value : ℕ) → AliasesStay g node name value }
{}

/// An instance that is added has no argument, imports what its package imports, and exports what its kind does;
/// aliases are what they were.
pub fn instances_are_read()
    ensures arguments { (g : Parts) (p : ℕ) (k : Kind) → arguments_of (with_instantiation g p k) (length g.nodes) ≡ [] }
    ensures imports { (g : Parts) (p : ℕ) (k : Kind) → ImportsAsPackage g (with_instantiation g p k) p }
    ensures exports { (g : Parts) (p : ℕ) (k : Kind) → ExportsAsKind g (with_instantiation g p k) k }
    ensures aliases { (g : Parts) (p : ℕ) (k : Kind) → KeepsAliases g (with_instantiation g p k) }
{}
