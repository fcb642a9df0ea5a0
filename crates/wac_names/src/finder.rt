//! What was found so far, and what the document did for it.
ghost use Rattle.std.specs.Prelude.{◌≡◌, ◌++◌, [], ◌∷◌, IfOk, OnOk};
ghost use Rattle.wac_ast_base.specs.Names.{ident_of};
ghost use Rattle.wac_names.specs.declared.steps.Level.TheVariants as levels;
ghost use Rattle.wac_names.specs.Steps.{Step};
ghost use Rattle.wac_names.specs.Traced.{Takes, step_of, traced};

use crate::includes::include_items;
use crate::known::Known;
use crate::names::{Kind, Names};
use crate::place::{Denoted, Here, Part, Place, ROOT};
use crate::steps::{Level, StepTaken};
use std::alloc::{AllocError, Global};
use std::marker::Model;
use wac_ast_base::Ident;
use wac_ast_uses::WorldIncludeItem;

/// The same identifier.
fn copied<'a>(id: &Ident<'a>) -> Ident<'a>
    ensures { ident_of result ≡ ident_of id.now }
{
    Ident {
        string: id.string,
        span: id.span,
    }
}

/// Adds an item at the end. The prover follows a value with a text through a generic call alone.
fn push<T: Drop>(items: &mut Vec<T>, item: T) -> Result<(), AllocError>
    ensures { OnOk result (items.new.items ≡ items.old.items ++ item ∷ []) }
{
    items.push(item)?;
    Ok(())
}

/// What is known so far, and the steps that were taken. A contract sees the steps alone.
pub(crate) struct Finder<'a> {
    known: Known<'a>,
    steps: Vec<StepTaken<'a>>,
}

impl<'a> Model for Finder<'a> {
    ghost use Rattle.std.specs.Prelude.{List};
    ghost use Rattle.wac_names.specs.Steps.{Step};
    ghost use Rattle.wac_names.specs.Traced.{traced};

    ghost Value = { List Step };

    ghost view = { λ w. traced w.steps.items };
}

impl<'a> Drop for Finder<'a> {
    fn drop(self) {
        let Finder { known: _, steps: _ } = self;
    }
}

impl<'a> Finder<'a> {
    /// Nothing was found yet in the document of the package of this name.
    pub(crate) fn new(alloc: Global, own: &'a str) -> Self
        ensures { result ≡ [] }
    {
        Finder {
            known: Known::new(alloc, own),
            steps: Vec::new(alloc),
        }
    }

    /// The names that were found, and the steps that were taken.
    pub(crate) fn into_parts(self) -> (Names, Vec<StepTaken<'a>>)
        ensures { traced result.1.items ≡ self.entry }
    {
        let Finder { known, steps } = self;
        (known.into_names(), steps)
    }

    /// Takes the step that begins a body.
    fn begins(&mut self, level: Level) -> Result<(), AllocError>
        ensures { OnOk result (Takes self.old self.new (Step.begins level ∷ [])) }
    {
        push(&mut self.steps, StepTaken::Begins(level))
    }

    /// Takes the step that binds a name.
    fn binds(&mut self, level: Level, id: &Ident<'a>) -> Result<(), AllocError>
        ensures { OnOk result (Takes self.old self.new (Step.binds level (ident_of id.now) ∷ [])) }
    {
        push(&mut self.steps, StepTaken::Binds(level, copied(id)))
    }

    /// Takes the step that looks an identifier up.
    fn looks_up(&mut self, level: Level, id: &Ident<'a>) -> Result<(), AllocError>
        ensures { OnOk result (Takes self.old self.new (Step.looks_up level (ident_of id.now) ∷ [])) }
    {
        push(&mut self.steps, StepTaken::LooksUp(level, copied(id)))
    }

    /// Takes the step that looks an identifier up, else at root.
    fn looks_outwards(&mut self, level: Level, id: &Ident<'a>) -> Result<(), AllocError>
        ensures { OnOk result (Takes self.old self.new (Step.looks_outwards level (ident_of id.now) ∷ [])) }
    {
        push(&mut self.steps, StepTaken::LooksOutwards(level, copied(id)))
    }

    /// Takes the step that looks up the first segment of a path.
    fn enters(&mut self, name: &'a str, id: &Ident<'a>) -> Result<(), AllocError>
        ensures { OnOk result (Takes self.old self.new (Step.enters name.now (ident_of id.now) ∷ [])) }
    {
        push(&mut self.steps, StepTaken::Enters(name, copied(id)))
    }

    /// Opens the root scope.
    pub(crate) fn open_root(&mut self) -> Result<(), AllocError>
        ensures { OnOk result (self.new ≡ self.old) }
    {
        self.known.open()?;
        Ok(())
    }

    /// The place of the items of an interface or a world, whose name has this number, in a new scope.
    pub(crate) fn open_body(
        &mut self,
        level: Level,
        owner: usize,
        outside: Part,
    ) -> Result<Place, AllocError>
        ensures begins { OnOk result (Takes self.old self.new (Step.begins level ∷ [])) }
        ensures level { IfOk result (λ place. place.here.level ≡ level) }
    {
        self.begins(level)?;
        let scope = self.known.open()?;
        Ok(Place {
            here: Here { level, scope },
            outside,
            owner: Some(owner),
        })
    }

    /// Notes that an identifier is bound, as what scopes don't bind is too.
    pub(crate) fn declare(
        &mut self,
        id: &Ident<'a>,
        kind: Kind,
        container: Option<usize>,
    ) -> Result<usize, AllocError>
        ensures { OnOk result (self.new ≡ self.old) }
    {
        self.known.declare(id, kind, container)
    }

    /// Binds a type where declarations are, for identifiers there and from outside.
    pub(crate) fn bind_type(
        &mut self,
        place: Place,
        id: &Ident<'a>,
        denoted: Denoted,
    ) -> Result<(), AllocError>
        ensures { OnOk result (Takes self.old self.new (Step.binds place.here.level (ident_of id.now) ∷ [])) }
    {
        self.binds(place.here.level, id)?;
        self.known.bind_type(place, id, denoted)
    }

    /// Binds a type that a `use` brings in, after the item that is the mention of it.
    pub(crate) fn bind_used(
        &mut self,
        place: Place,
        id: &Ident<'a>,
        denoted: Denoted,
    ) -> Result<(), AllocError>
        ensures { OnOk result (Takes self.old self.new (Step.binds place.here.level (ident_of id.now) ∷ [])) }
    {
        self.binds(place.here.level, id)?;
        self.known.bind_used(place, id, denoted)
    }

    /// Binds a name at root.
    pub(crate) fn bind_at_root(
        &mut self,
        id: &Ident<'a>,
        denoted: Denoted,
    ) -> Result<(), AllocError>
        ensures { OnOk result (Takes self.old self.new (Step.binds levels.Root (ident_of id.now) ∷ [])) }
    {
        self.binds(Level::Root, id)?;
        self.known.bind(ROOT, Part::Names, id, denoted)
    }

    /// Binds a name for what is outside alone: no identifier within denotes it.
    pub(crate) fn bind_outside(
        &mut self,
        scope: usize,
        part: Part,
        id: &Ident<'a>,
        denoted: Denoted,
    ) -> Result<(), AllocError>
        ensures { OnOk result (self.new ≡ self.old) }
    {
        self.known.bind(scope, part, id, denoted)
    }

    /// What an identifier denotes in a scope.
    pub(crate) fn look_up(
        &mut self,
        here: Here,
        id: &Ident<'a>,
    ) -> Result<Option<Denoted>, AllocError>
        ensures { OnOk result (Takes self.old self.new (Step.looks_up here.level (ident_of id.now) ∷ [])) }
    {
        self.looks_up(here.level, id)?;
        self.known.refer(here.scope, id)
    }

    /// What an identifier denotes in a scope, else at root.
    pub(crate) fn look_outwards(
        &mut self,
        here: Here,
        id: &Ident<'a>,
    ) -> Result<Option<Denoted>, AllocError>
        ensures { OnOk result (Takes self.old self.new (Step.looks_outwards here.level (ident_of id.now) ∷ [])) }
    {
        self.looks_outwards(here.level, id)?;
        self.known.refer_outwards(here.scope, id)
    }

    /// What the first segment of a path into the package of a name denotes at root, if that is the document's own.
    pub(crate) fn enter(
        &mut self,
        name: &'a str,
        id: &Ident<'a>,
    ) -> Result<Option<Denoted>, AllocError>
        ensures { OnOk result (Takes self.old self.new (Step.enters name.now (ident_of id.now) ∷ [])) }
    {
        self.enters(name, id)?;
        if self.known.is_own(name) {
            self.known.refer(ROOT, id)
        } else {
            Ok(None)
        }
    }

    /// The export that an identifier denotes of what has this scope after it.
    pub(crate) fn member(
        &mut self,
        scope: Option<usize>,
        id: &Ident<'a>,
    ) -> Result<Option<Denoted>, AllocError>
        ensures { OnOk result (self.new ≡ self.old) }
    {
        self.known.member(scope, id)
    }

    /// Notes what an `include` at a place takes of the world with this scope, and renames.
    pub(crate) fn include(
        &mut self,
        place: Place,
        from: Option<usize>,
        items: &[WorldIncludeItem<'a>],
    ) -> Result<(), AllocError>
        ensures { OnOk result (self.new ≡ self.old) }
    {
        include_items(&mut self.known, place, from, items)
    }
}
