//! Places in a text.
ghost use Rattle.std.specs.Prelude.{◌≡◌};
ghost use Rattle.wac_positions.specs.Places.{width};

/// What columns are counted in.
#[derive(Clone, Copy, Debug, PartialEq, Eq)]
pub enum ColumnUnit {
    /// Bytes of UTF-8.
    Bytes,
    /// Code units of UTF-16, in which most language servers count: two for a character past U+FFFF, else one.
    Utf16,
    /// Characters, that is, Unicode scalar values.
    Characters,
}

/// A place in a text. Lines and columns are counted from 0.
#[derive(Clone, Copy, Debug, PartialEq, Eq)]
pub struct Place {
    /// How many lines are before this one.
    pub line: usize,
    /// How many units of the line are before the place.
    pub column: usize,
}

/// How many units a byte counts for.
pub(crate) fn width(unit: ColumnUnit, byte: u8) -> usize
    ensures { result ≡ width unit byte }
{
    let is_continuation = 128 <= byte && byte < 192;
    match unit {
        ColumnUnit::Bytes => 1,
        _ if is_continuation => 0,
        ColumnUnit::Utf16 if 240 <= byte => 2,
        _ => 1,
    }
}
