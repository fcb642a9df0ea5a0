//! Names in paths, and in what stands for a path.
ghost use Rattle.std.specs.Prelude.{◌≡◌, [], ◌∷◌, OnOk};
ghost use Rattle.wac_ast_base.specs.Names.{ident_of, package_path_of};
ghost use Rattle.wac_ast_uses.specs.Uses.{use_path_of, world_ref_of};
ghost use Rattle.wac_names.specs.declared.steps.Level.TheVariants as levels;
ghost use Rattle.wac_names.specs.Steps.{Step, path_steps, use_path_steps, world_ref_steps};
ghost use Rattle.wac_names.specs.Traced.{Takes};

use crate::finder::Finder;
use crate::place::{Denoted, Here, after};
use std::alloc::AllocError;
use wac_ast_base::{Ident, PackagePath, SegmentSpans};
use wac_ast_uses::{UsePath, WorldRef};

/// Notes the segments of a path after the one that denotes this, and returns the scope after the last one.
fn segments<'a>(
    finder: &mut Finder<'a>,
    first: Option<Denoted>,
    rest: SegmentSpans<'a>,
) -> Result<Option<usize>, AllocError>
    ensures { OnOk result (finder.new ≡ finder.old) }
{
    let mut found = first;
    for (string, span) in rest {
        found = finder.member(after(found), &Ident { string, span })?;
    }
    Ok(after(found))
}

/// Notes the names of a path, and returns the scope after it. The document binds no name of a path into another package.
pub(crate) fn path<'a>(
    finder: &mut Finder<'a>,
    path: &PackagePath<'a>,
) -> Result<Option<usize>, AllocError>
    ensures { OnOk result (Takes finder.old finder.new (path_steps (package_path_of path.now))) }
{
    let mut rest = path.segment_spans();
    match rest.next() {
        Some((string, span)) => {
            let first = finder.enter(path.name, &Ident { string, span })?;
            segments(finder, first, rest)
        }
        None => Ok(None),
    }
}

/// Notes an identifier at root, and returns the scope after it.
pub(crate) fn at_root<'a>(
    finder: &mut Finder<'a>,
    id: &Ident<'a>,
) -> Result<Option<usize>, AllocError>
    ensures { OnOk result (Takes finder.old finder.new (Step.looks_up levels.Root (ident_of id.now) ∷ [])) }
{
    let found = finder.look_up(Here::root(), id)?;
    Ok(after(found))
}

/// Notes the interface of a `use`, and returns its scope.
pub(crate) fn use_path<'a>(
    finder: &mut Finder<'a>,
    from: &UsePath<'a>,
) -> Result<Option<usize>, AllocError>
    ensures { OnOk result (Takes finder.old finder.new (use_path_steps (use_path_of from.now))) }
{
    match from {
        UsePath::Package(from) => path(finder, from),
        UsePath::Ident(id) => at_root(finder, id),
    }
}

/// Notes the world of an `include`, and returns its scope.
pub(crate) fn world_ref<'a>(
    finder: &mut Finder<'a>,
    world: &WorldRef<'a>,
) -> Result<Option<usize>, AllocError>
    ensures { OnOk result (Takes finder.old finder.new (world_ref_steps (world_ref_of world.now))) }
{
    match world {
        WorldRef::Package(from) => path(finder, from),
        WorldRef::Ident(id) => at_root(finder, id),
    }
}
