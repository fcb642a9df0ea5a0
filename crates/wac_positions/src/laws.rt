//! Laws of the definitions that contracts cite. Each function does nothing: its contract is the law.
ghost use Rattle.std.specs.Prelude.{◌≡◌, ℕ, List, length};
ghost use Rattle.wac_positions.specs.Lines.{HasNoLineEnd, line_starts};

/// A text without LF and CR has one line.
pub fn texts_without_line_ends_have_one_line()
    ensures { (text : List ℕ) → HasNoLineEnd text → length (line_starts text) ≡ 1 }
{}
