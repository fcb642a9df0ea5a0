//! Rules with a fixed result.

use wac_graph::{ItemKind, Reason, Rules, Types};

/// The same result for all kinds, and for all names.
#[derive(Clone, Copy)]
pub struct Fixed {
    /// Why no kind fits any.
    pub kinds: Option<Reason>,
    /// Why no name may be used.
    pub names: Option<Reason>,
}

impl Rules for Fixed {
    ghost use Rattle.std.specs.Prelude.{refl};

    ghost passes = { λ rules _ _. rules.kinds };

    ghost named = { λ rules _. rules.names };

    ghost alike_renamed = { λ _ _ _ _ _. refl };

    fn subtype(&self, _types: &Types, _a: ItemKind, _b: ItemKind) -> Result<(), Reason> {
        match self.kinds {
            None => Ok(()),
            Some(reason) => Err(reason),
        }
    }

    fn extern_name(&self, _name: &str) -> Result<(), Reason> {
        match self.names {
            None => Ok(()),
            Some(reason) => Err(reason),
        }
    }
}
