//! Laws of the definition `fits`. Each function does nothing: its contract is the law.
ghost use Rattle.std.specs.Prelude.{◌≡◌, true};
ghost use Rattle.wac_graph_types.specs.Meaning.{Meaning};
ghost use Rattle.wac_component_rules.specs.Fits.{fits};
ghost use Rattle.wac_component_rules.specs.Own.{IsClear};
ghost use Rattle.wac_component_rules.specs.Seen.{Seen, seen};

/// Each kind fits itself, if each name in it is that of one item.
pub fn each_kind_fits_itself()
    ensures { (x : Seen) → IsClear x → fits x x ≡ true }
{}

/// What fits a kind that fits a third one fits that.
pub fn fitting_leads_on()
    ensures { (x y z : Seen) → fits x y ≡ true → fits y z ≡ true → fits x z ≡ true }
{}

/// A kind fits each kind that means the same.
pub fn same_kinds_fit()
    ensures { (a b : Meaning) → IsClear (seen a) → a ≡ b → fits (seen a) (seen b) ≡ true }
{}
