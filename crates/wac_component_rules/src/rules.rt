//! The rules that a caller hands to the resolver.

use crate::fitting::fitting;
use std::alloc::Global;
use wac_extern_names::is_extern_name;
use wac_graph_types::{ItemKind, Reason, Rules, Types};

/// Why [`ComponentRules`] refuse a kind: it may not stand where the other one is expected.
pub const DOES_NOT_FIT: Reason = Reason(1);

/// Why [`ComponentRules`] refuse a name: no import or export may have it.
pub const NO_NAME: Reason = Reason(2);

/// The rules of the component model.
///
/// They say no for [`DOES_NOT_FIT`] and [`NO_NAME`] alone. Comparing two kinds takes memory from the allocator that they are
/// made with, for each pair of types that is compared, and gives it back; and it takes no stack for types that name one
/// another in a chain. Where there is no memory it takes stack instead, some 700 bytes for each type of the chain.
///
/// ```text
/// let resolution = resolver.resolve(alloc, packages, &ComponentRules::new(alloc))?;
/// ```
#[derive(Clone, Copy, Debug)]
pub struct ComponentRules {
    alloc: Global,
}

impl ComponentRules {
    /// Rules that take memory from `alloc`.
    pub fn new(alloc: Global) -> Self {
        ComponentRules { alloc }
    }
}

impl Rules for ComponentRules {
    ghost use Rattle.wac_component_rules.specs.Fits.{component_passes, component_names};
    ghost use Rattle.wac_component_rules.specs.Renaming.{passes_renamed};

    ghost passes = { λ _ a b. component_passes a b };

    ghost named = { λ _ name. component_names name };

    ghost alike_renamed = { λ _ f a b apart. passes_renamed f a b };

    fn subtype(&self, types: &Types, a: ItemKind, b: ItemKind) -> Result<(), Reason> {
        if fitting(self.alloc, types.entries(), a, b) {
            Ok(())
        } else {
            Err(DOES_NOT_FIT)
        }
    }

    fn extern_name(&self, name: &str) -> Result<(), Reason> {
        if is_extern_name(name) {
            Ok(())
        } else {
            Err(NO_NAME)
        }
    }
}
