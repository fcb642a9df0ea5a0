//! Where declarations are, and what names denote there.

ghost use Rattle.std.specs.Prelude.{◌≡◌};
ghost use Rattle.wac_names.specs.declared.steps.Level.TheVariants as levels;

use crate::steps::Level;

/// What a name denotes.
#[derive(Clone, Copy)]
pub(crate) struct Denoted {
    /// The number of the name that it stands for.
    pub binding: usize,
    /// The scope of what is found after it, as the exports of an instance.
    pub scope: Option<usize>,
    /// The number of the mention by which a `use` brings it into the scope in which it was found. Without one it is bound
    /// there where its name is.
    pub used: Option<usize>,
}

impl Denoted {
    /// A name that is bound itself, and the scope after it.
    pub(crate) fn new(binding: usize, scope: Option<usize>) -> Self {
        Denoted {
            binding,
            scope,
            used: None,
        }
    }

    /// The same, brought in by the mention of a number.
    pub(crate) fn used_by(self, mention: usize) -> Self {
        Denoted {
            binding: self.binding,
            scope: self.scope,
            used: Some(mention),
        }
    }
}

/// The scope after what a name denotes.
pub(crate) fn after(found: Option<Denoted>) -> Option<usize> {
    let denoted = found?;
    denoted.scope
}

/// The names of a scope are of three sorts.
#[derive(Clone, Copy)]
pub(crate) enum Part {
    /// Those that identifiers within it denote.
    Names,
    /// What a world imports.
    Imports,
    /// What an interface or a world exports.
    Exports,
}

/// A scope.
#[derive(Clone, Copy)]
pub(crate) struct Here {
    /// Which of those it is that are open.
    pub level: Level,
    /// Its number.
    pub scope: usize,
}

/// Where declarations are.
#[derive(Clone, Copy)]
pub(crate) struct Place {
    /// The scope that binds their names.
    pub here: Here,
    /// How the types are found from outside: an interface exports them, a world imports them.
    pub outside: Part,
    /// The number of the name whose declaration they are in. At root there is none.
    pub owner: Option<usize>,
}

/// The number of the scope of a document's statements.
pub(crate) const ROOT: usize = 0;

impl Here {
    /// The root scope.
    pub(crate) fn root() -> Self
        ensures { result.level ≡ levels.Root }
    {
        Here {
            level: Level::Root,
            scope: ROOT,
        }
    }
}

impl Place {
    /// The place of a document's statements. Paths find their names in the scope itself.
    pub(crate) fn of_statements() -> Self
        ensures { result.here.level ≡ levels.Root }
    {
        Place {
            here: Here::root(),
            outside: Part::Names,
            owner: None,
        }
    }
}
