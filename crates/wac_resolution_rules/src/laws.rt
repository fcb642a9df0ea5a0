// Laws of the definitions of resolving. Each function does nothing: its contract is the law.
ghost use Rattle.std.specs.Prelude.{◌≡◌, ◌↔◌, ◌++◌, ◌∷◌, ℕ, List, Option, Some, true};
ghost use Rattle.std.specs.Str.{IsUtf8};
ghost use Rattle.wac_lexer.specs.Span.{Span};
ghost use Rattle.wac_graph_types.specs.Meaning.{Meaning};
ghost use Rattle.wac_graph_types.specs.Scope.{Named, Scope, StandsFor};
ghost use Rattle.wac_graph_types.specs.Shape.{exports_of, imports_of};
ghost use Rattle.wac_graph_types.specs.Steps.{Steps};
ghost use Rattle.wac_graph_types.specs.declared.kind.ExternKind.TheVariants as sides;
ghost use Rattle.wac_graph.specs.Packages.{Packages};
ghost use Rattle.wac_ast_grammar.specs.Spelled.{DocumentSpelled};
ghost use Rattle.wac_ast_grammar.specs.TextTree.{IsTreeOf};
ghost use Rattle.wac_ast_grammar.specs.Tree.{Document, Expr, FuncType, InterfaceItem, PackagePath, Statement, Ty, TypeDecl, WorldInclude, WorldItem};
ghost use Rattle.wac_printer_layout.specs.Bare.{Keep, bare_document};
ghost use Rattle.wac_printer_layout.specs.PlainTree.{plain_document};
ghost use Rattle.wac_printer_layout.specs.Reread.{IsReread};
ghost use Rattle.wac_resolution_rules.specs.Bodies.{Body, IsCovered, empty_body};
ghost use Rattle.wac_resolution_rules.specs.BrokenStatements.{StatementBroken, TargetBroken};
ghost use Rattle.wac_resolution_rules.specs.Composition.{Composition, start};
ghost use Rattle.wac_resolution_rules.specs.Declarations.{IsTypeDecl};
ghost use Rattle.wac_resolution_errors.specs.Error.{Error};
ghost use Rattle.wac_resolution_rules.specs.Expressions.{At, Stands};
ghost use Rattle.wac_resolution_rules.specs.Given.{Given};
ghost use Rattle.wac_resolution_rules.specs.Includes.{Entries, HasInclude, Included, has_colon};
ghost use Rattle.wac_resolution_rules.specs.Mentions.{Agree, IsMentioned, KeysHold, given_over, kept, mentions};
ghost use Rattle.wac_resolution_rules.specs.Nodes.{imports};
ghost use Rattle.wac_resolution_rules.specs.Paths.{LeadsTo, Context};
ghost use Rattle.wac_resolution_rules.specs.Places.{HavePlaces, Leads, Placed, Places, placed_start};
ghost use Rattle.wac_resolution_rules.specs.ResolvedDocument.{DescribeAlike, Describes, FirstFailing};
ghost use Rattle.wac_resolution_rules.specs.Sound.{AliasesOnce, Begins, IsSound, NamesOnce};
ghost use Rattle.wac_resolution_rules.specs.Statements.{Composes, StatementStep};
ghost use Rattle.wac_resolution_rules.specs.Target.{MeetsPath};
ghost use Rattle.wac_resolution_rules.specs.Types.{HasType, IsFuncWith};
ghost use Rattle.wac_resolution_rules.specs.Worlds.{HasInterfaceItem, HasWorldItem, IsInterface, IsWorld};

/// Each judgement has one result: what a type, a declaration, a path, an interface, a world or an expression means,
/// what a statement yields, and what a document describes.
pub fn judgements_have_one_result()
    ensures types { (scope : Scope) (t : Ty) (a b : Meaning) → HasType scope t a → HasType scope t b → a ≡ b }
    ensures functions { (scope : Scope) (first : Named Meaning) (f : FuncType) (a b : Meaning)
        → IsFuncWith scope first f a → IsFuncWith scope first f b → a ≡ b }
    ensures declarations { (scope : Scope) (n : ℕ) (d : TypeDecl) (a b : Meaning) (i j : ℕ)
        → IsTypeDecl scope n d a i → IsTypeDecl scope n d b j → (a ≡ b) × (i ≡ j) }
    ensures paths { (context : Context) (root : Scope) (p : PackagePath) (a b : Meaning)
        → LeadsTo context root p a → LeadsTo context root p b → a ≡ b }
    ensures interfaces { (context : Context) (root : Scope) (n : ℕ) (id : Option (List ℕ)) (items : List InterfaceItem)
        (a b : Meaning) (i j : ℕ)
        → IsInterface context root n id items a i → IsInterface context root n id items b j → (a ≡ b) × (i ≡ j) }
    ensures worlds { (context : Context) (root : Scope) (n : ℕ) (id : Option (List ℕ)) (items : List WorldItem)
        (a b : Meaning) (i j : ℕ)
        → IsWorld context root n id items a i → IsWorld context root n id items b j → (a ≡ b) × (i ≡ j) }
    ensures expressions { (s : Given) (old : Composition) (x : Expr) (a b : At)
        → Stands s old x a → Stands s old x b → a ≡ b }
    ensures statements { (s : Given) (old : Composition) (x : Statement) (a b : Composition)
        → StatementStep s old x a → StatementStep s old x b → a ≡ b }
    ensures documents { (s : Given) (document : Document) (a b : Composition)
        → Describes s document a → Describes s document b → a ≡ b }
{}

/// Layout carries no meaning. Documents that differ in blanks, comments, docs and places alone describe the same, with the same packages and rules:
/// those with equal plain trees, those with equal bare trees, and a document and what is printed of it.
pub fn layout_carries_no_meaning()
    ensures plain { (a b : Document) → plain_document a ≡ plain_document b → DescribeAlike a b }
    ensures bare { (keep other : Keep) (source text : List ℕ) (a b : Document) → DocumentSpelled source a
        → DocumentSpelled text b → bare_document keep source a ≡ bare_document other text b → DescribeAlike a b }
    ensures printed { (source text : List ℕ) (a b : Document) → IsUtf8 source → IsTreeOf source a → IsUtf8 text
        → IsTreeOf text b → IsReread text b source a → DescribeAlike b a }
{}

/// A statement that breaks a rule resolves to nothing, and a target that breaks one isn't met.
pub fn broken_rules_stop()
    ensures statement { (s : Given) (old : Composition) (places : Places) (e : Error) (x : Statement)
        (new : Composition)
        → StatementBroken s old places e x → StatementStep s old x new → ⊥ }
    ensures target { (s : Given) (c : Composition) (places : Places) (e : Error) (path : PackagePath)
        → TargetBroken s c places e path → MeetsPath s c path → ⊥ }
{}

/// A statement that breaks a rule, after statements that compose, is the first failing one; where all compose, a target that breaks one is what fails.
/// A document in which something fails describes nothing.
pub fn what_breaks_first_fails()
    ensures statement { (s : Given) (document : Document) (e : Error) (before : List Statement) (x : Statement)
        (after : List Statement)
        → document.statements ≡ before ++ x ∷ after
        → (so_far : Placed) → Steps (Leads s) (placed_start start) before so_far
        → StatementBroken s so_far.composition so_far.places e x → FirstFailing s document e }
    ensures target { (s : Given) (document : Document) (e : Error) (path : PackagePath)
        → document.directive.targets ≡ Some path
        → (whole : Placed) → Steps (Leads s) (placed_start start) document.statements whole
        → TargetBroken s whole.composition whole.places e path → FirstFailing s document e }
    ensures nothing { (s : Given) (document : Document) (e : Error) (c : Composition)
        → FirstFailing s document e → Describes s document c → ⊥ }
{}

/// The composition of statements begins with the composition of each prefix of them, but an alias node without a name may have one later.
pub fn compositions_begin_with_their_prefixes()
    ensures { (s : Given) (before after : List Statement) (new : Composition) → Composes s start (before ++ after) new
        → (mid : Composition) × Composes s start before mid × Begins mid new }
{}

/// Each edge goes from an earlier node to a later one. Each argument of an instance is for an import of its package,
/// once, and fits it.
pub fn edges_go_forward()
    ensures { (s : Given) (statements : List Statement) (c : Composition)
        → Composes s start statements c → IsSound s c }
{}

/// There is at most one alias of an export of a node.
pub fn aliases_stand_once()
    ensures { (s : Given) (statements : List Statement) (c : Composition)
        → Composes s start statements c → AliasesOnce c.nodes }
{}

/// No name is imported twice, exported twice or bound twice at root.
pub fn names_stand_once()
    ensures { (s : Given) (statements : List Statement) (c : Composition)
        → Composes s start statements c → NamesOnce c }
{}

/// Of the packages only those that a document mentions matter, to what it describes and to what fails in it first, and
/// each package that it instantiates is mentioned.
pub fn only_mentioned_packages_matter()
    ensures kept { (s : Given) (packages : Packages) (document : Document) (c : Composition)
        → s.context.own ≡ document.directive.package_name.name
        → Describes (given_over s (kept (mentions document) packages)) document c ↔ Describes (given_over s packages)
        document c }
    ensures fails { (s : Given) (packages : Packages) (document : Document) (e : Error)
        → s.context.own ≡ document.directive.package_name.name
        → FirstFailing (given_over s (kept (mentions document) packages)) document e ↔ FirstFailing
        (given_over s packages) document e }
    ensures agree { (s : Given) (packages others : Packages) (document : Document) (c : Composition)
        → s.context.own ≡ document.directive.package_name.name
        → Agree packages others (mentions document) → Describes (given_over s packages) document c
        → Describes (given_over s others) document c }
    ensures instances { (s : Given) (document : Document) (c : Composition)
        → s.context.own ≡ document.directive.package_name.name → Describes s document c
        → KeysHold (IsMentioned (mentions document)) c.nodes }
{}

/// Each name that statements bind, import or export has a place, and statements compose with or without places.
pub fn names_have_places()
    ensures places { (s : Given) (statements : List Statement) (new : Placed)
        → Steps (Leads s) (placed_start start) statements new → HavePlaces new.composition new.places }
    ensures bound { (c : Composition) (p : Places) (name : List ℕ) (n : ℕ)
        → HavePlaces c p → StandsFor c.declared name n → (span : Span) × StandsFor p.bound name span }
    ensures imported { (c : Composition) (p : Places) (name : List ℕ) (k : Meaning)
        → HavePlaces c p → StandsFor (imports c) name k → (span : Span) × StandsFor p.imported name span }
    ensures exported { (c : Composition) (p : Places) (name : List ℕ) (n : ℕ)
        → HavePlaces c p → StandsFor c.exports name n → (span : Span) × StandsFor p.exported name span }
    ensures composes { (s : Given) (statements : List Statement) (old new : Placed)
        → Steps (Leads s) old statements new → Composes s old.composition statements new.composition }
{}

/// In the body of an interface or a world, each name of its scope is among its exports or imports: what is new there is new in the scope.
pub fn scopes_are_covered()
    ensures interface { (context : Context) (root : Scope) (n : ℕ) (items : List InterfaceItem) (body : Body)
        → Steps (HasInterfaceItem context root) (empty_body n) items body → IsCovered sides.Export body }
    ensures world { (context : Context) (root : Scope) (n : ℕ) (items : List WorldItem) (body : Body)
        → Steps (HasWorldItem context root) (empty_body n) items body → IsCovered sides.Import body }
{}

/// After an `include` a world still imports and exports what it did before, and it imports or exports each name with a
/// colon that the included world does.
pub fn includes_lose_nothing()
    ensures imports { (context : Context) (root : Scope) (old : Body) (x : WorldInclude) (new : Body) (name : List ℕ)
        (m : Meaning)
        → HasInclude context root old x new → StandsFor old.imports name m → StandsFor new.imports name m }
    ensures exports { (context : Context) (root : Scope) (old : Body) (x : WorldInclude) (new : Body) (name : List ℕ)
        (m : Meaning)
        → HasInclude context root old x new → StandsFor old.exports name m → StandsFor new.exports name m }
    ensures taken_imports { (entries : Entries) (world : Meaning) (old new : Body)
        → Included entries world old new → (before : Named Meaning) (n : List ℕ × Meaning) (after : Named Meaning)
        → imports_of world ≡ before ++ n ∷ after → has_colon n.0 ≡ true → (m : Meaning) × StandsFor new.imports n.0 m }
    ensures taken_exports { (entries : Entries) (world : Meaning) (old new : Body)
        → Included entries world old new → (before : Named Meaning) (n : List ℕ × Meaning) (after : Named Meaning)
        → exports_of world ≡ before ++ n ∷ after → has_colon n.0 ≡ true → (m : Meaning) × StandsFor new.exports n.0 m }
{}
