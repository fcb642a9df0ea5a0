//! The rules by which `wac resolve` tests.

use crate::same;
use std::alloc::Global;
use wac_graph_types::{ItemKind, Reason, Rules, Types};

/// Rules under which a kind fits one that means the same, and no other; each name may be used.
///
/// Comparing kinds takes no stack for types that nest, but memory from an allocator for as long as a comparison takes.
///
/// ```text
/// match resolve(alloc, document, IndexMap::new(alloc), &SameRules::new(alloc)) { .. }
/// ```
#[derive(Clone, Copy, Debug)]
pub struct SameRules {
    alloc: Global,
}

impl SameRules {
    /// The rules, which take the memory for comparing from `alloc`.
    pub fn new(alloc: Global) -> Self {
        SameRules { alloc }
    }
}

impl Rules for SameRules {
    ghost use Rattle.std.specs.Prelude.{None};
    ghost use Rattle.wac_graph_types.specs.Equality.{equal_or-renamed};
    ghost use Rattle.wac_tool_graphs.specs.Rules.{same_passes};

    ghost passes = { λ _ a b. same_passes a b };

    ghost named = { λ _ name. None };

    ghost alike_renamed = { λ _ f a b apart. equal_or-renamed (record { 0 = 1 }) f a b apart };

    fn subtype(&self, types: &Types, a: ItemKind, b: ItemKind) -> Result<(), Reason> {
        if same(self.alloc, types, a, b) {
            Ok(())
        } else {
            Err(Reason(1))
        }
    }

    fn extern_name(&self, _name: &str) -> Result<(), Reason> {
        Ok(())
    }
}
