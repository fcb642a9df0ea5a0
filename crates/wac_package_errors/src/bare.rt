//! Packages that are instantiated though no world of theirs is chosen.

use crate::context::Context;
use std::alloc::{AllocError, Global};
use wac_diagnostics::Diagnostic;
use wac_graph::{ItemKind, Package, PackageKey, Type};
use wac_lexer::SourceSpan;
use wac_package_names::push_key;

/// A package without a world that is instantiated at a place.
#[derive(Drop)]
pub(crate) struct Bare<'c> {
    pub key: &'c PackageKey,
    pub package: &'c Package,
    pub place: SourceSpan,
}

/// Whether a package's world is one that its document declares.
fn has_world(package: &Package) -> bool {
    let world = package.world();
    for (_, kind) in package.definitions().iter() {
        if *kind == ItemKind::Ty(Type::World(world)) {
            return true;
        }
    }
    false
}

/// The first package that is instantiated and has no world.
pub(crate) fn first_without_world<'c>(context: Context<'c>) -> Option<Bare<'c>> {
    for new in context.news.all.as_slice() {
        if let Some(package) = context.known.package(&new.key) {
            if !has_world(package) {
                return Some(Bare {
                    key: &new.key,
                    package,
                    place: new.place,
                });
            }
        }
    }
    None
}

/// Appends the options that choose the worlds of a package, as `--world a:b=v` or that of another. Returns how many
/// there are.
fn push_choices(out: &mut String, bare: &Bare<'_>) -> Result<usize, AllocError> {
    let mut count = 0usize;
    for (name, kind) in bare.package.definitions().iter() {
        if let ItemKind::Ty(Type::World(_)) = kind {
            out.push_str(if count == 0 {
                "choose one: --world "
            } else {
                ", --world "
            })?;
            push_key(out, bare.key)?;
            out.push('=')?;
            out.push_str(name.as_str())?;
            count = count.saturating_add(1);
        }
    }
    Ok(count)
}

/// What is said of the instance of a package without a world.
pub(crate) fn no_world(alloc: Global, bare: &Bare<'_>) -> Result<Diagnostic, AllocError> {
    let mut choices = String::new(alloc);
    let count = push_choices(&mut choices, bare)?;
    let mut message = String::from_str(alloc, "package `")?;
    push_key(&mut message, bare.key)?;
    message.push_str(if count == 0 {
        "` declares no world, so it can't be instantiated"
    } else {
        "` declares several worlds, and none is chosen"
    })?;
    let mut diagnostic = Diagnostic::at("wac::no-world", message, bare.place);
    if count > 0 {
        diagnostic.help = Some(choices);
    }
    Ok(diagnostic)
}
