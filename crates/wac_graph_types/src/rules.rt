//! Rules that a caller supplies.
ghost use Rattle.std.specs.Prelude.{ℕ, List, Option};
ghost use Rattle.wac_graph_types.specs.declared.rules.Reason.{Reason};
ghost use Rattle.wac_graph_types.specs.Meaning.{Meaning, UnderOrigins, of_kind};
ghost use Rattle.wac_graph_types.specs.Rules.{Answers, IgnoresRenaming};
ghost use Rattle.wac_graph_types.specs.Table.{IsTable, Names};

use crate::kind::ItemKind;
use crate::types::Types;

/// Why rules say no. What a number stands for is the rules' own choice.
#[derive(Clone, Copy, Debug, PartialEq, Eq)]
pub struct Reason(pub u32);

/// Which kinds may be used for which, and which names imports and exports may have.
///
/// Component subtyping and the syntax of names aren't decided here: whoever resolves a document supplies
/// them. An implementation goes by what the two kinds mean, so neither by their numbers in the table nor
/// by what else is in it, and it can't tell which origins resources have, only which are the same.
pub trait Rules {
    /// The reason for which the first may not be used where the second is expected, if there is one.
    ghost passes: { Self → Meaning → Meaning → Option Reason };

    /// The reason for which an import or export may not have the name, if there is one.
    ghost named: { Self → List ℕ → Option Reason };

    /// Whether `a` may be used where `b` is expected.
    fn subtype(&self, types: &Types, a: ItemKind, b: ItemKind) -> Result<(), Reason>
        requires table { IsTable types.now }
        requires first { Names types.now a }
        requires second { Names types.now b }
        ensures { UnderOrigins types.now (λ mean. Answers result (passes self.now (of_kind mean a) (of_kind mean b))) };

    /// Whether an import or export may have the name.
    fn extern_name(&self, name: &str) -> Result<(), Reason>
        ensures { Answers result (named self.now name.now) };

    /// The result stays the same when the origins that occur in the meanings are renamed one to one.
    ghost alike_renamed: { (x : Self) → IgnoresRenaming (passes x) };
}
