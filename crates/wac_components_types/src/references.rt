//! Types that are other names of types.

use crate::names::{Names, Origin, origin_of, target};
use crate::{NameId, Owner, Table, TypeId};

/// What a type that is imported or exported is another name of.
#[derive(Clone, Copy)]
pub enum Reference {
    /// A type of the same interface or world, by its name there.
    Named(NameId),
    /// A type of another interface, which is used from there.
    Used(Origin),
}

/// What a type of an owner is another name of, where `names` are those of its interface or world.
///
/// ```text
/// reference_of(table, &names, ty, Owner::Instance(instance))      // None where the owner declares the type
/// ```
pub fn reference_of(table: &Table, names: &Names, ty: TypeId, owner: Owner) -> Option<Reference> {
    let of = match target(table, ty) {
        Some(target) => target,
        None => ty,
    };
    let is_named = target(table, of).is_some();
    if is_named {
        if let Some(name) = names.own(of) {
            return Some(Reference::Named(name));
        }
    }
    if let Some(far) = origin_of(table, ty, Some(owner)) {
        return Some(Reference::Used(far));
    }
    if is_named {
        let name = names.of(table, of)?;
        return Some(Reference::Named(name));
    }
    None
}
