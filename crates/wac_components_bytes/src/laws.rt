//! Rows of the definitions that the contracts cite. Each function does nothing: its contract is the row.
ghost use Rattle.std.specs.Prelude.{◌≡◌, [], ◌∷◌};
ghost use Rattle.wac_components_bytes.specs.Leb128.{of_groups};

/// The bytes 0xe5, 0x8e and 0x26 hold the number 624485, by the example that descriptions of LEB128 have.
pub fn three_groups_are_a_number()
    ensures { of_groups (0xe5 ∷ 0x8e ∷ 0x26 ∷ []) ≡ 624485 }
{}
