//! Rules that reject nothing, by which a document with a kind that doesn't fit has a graph all the same.

use wac_graph::{ItemKind, Reason, Rules, Types};

/// Each kind fits, and each name may be used.
#[derive(Clone, Copy, Debug)]
pub(crate) struct NoRules;

impl Rules for NoRules {
    ghost use Rattle.std.specs.Prelude.{None, refl};

    ghost passes = { λ _ _ _. None };

    ghost named = { λ _ _. None };

    ghost alike_renamed = { λ _ _ _ _ _. refl };

    fn subtype(&self, _types: &Types, _a: ItemKind, _b: ItemKind) -> Result<(), Reason> {
        Ok(())
    }

    fn extern_name(&self, _name: &str) -> Result<(), Reason> {
        Ok(())
    }
}
