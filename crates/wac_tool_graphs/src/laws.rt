//! Laws of the definitions that the contracts cite. Each function does nothing: its contract is the law.
ghost use Rattle.std.specs.Prelude.{◌≡◌, ◌≢◌, None, Some};
ghost use Rattle.wac_graph_types.specs.Meaning.{Meaning};
ghost use Rattle.wac_tool_graphs.specs.Rules.{same_passes};

/// Kinds of equal meaning pass, and all others are rejected for reason 1.
pub fn same_meanings_pass()
    ensures equal { (a b : Meaning) → a ≡ b → same_passes a b ≡ None }
    ensures other { (a b : Meaning) → a ≢ b → same_passes a b ≡ Some (record { 0 = 1 }) }
{}
