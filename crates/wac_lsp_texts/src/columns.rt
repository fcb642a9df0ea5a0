//! Columns of a line.
ghost use Rattle.std.specs.Prelude.{◌≡◌, ◌≤◌};
ghost use Rattle.wac_positions.specs.Places.{width};
ghost use Rattle.wac_lsp_texts.specs.Clamped.{IsClampedAt};

use wac_positions::ColumnUnit;

/// How many units a byte counts for.
pub(crate) fn width(unit: ColumnUnit, byte: u8) -> usize
    ensures is { result ≡ width unit byte }
    ensures most { result ≤ 2 }
{
    let is_continuation = 128 <= byte && byte < 192;
    match unit {
        ColumnUnit::Bytes => 1,
        _ if is_continuation => 0,
        ColumnUnit::Utf16 if 240 <= byte => 2,
        _ => 1,
    }
}

/// A place of a line.
#[derive(Clone, Copy, Debug, PartialEq, Eq)]
pub(crate) struct InLine {
    /// How many bytes of the line are before it.
    pub(crate) offset: usize,
    /// How many units of the line are before it.
    pub(crate) column: usize,
}

/// The place of a line that is nearest to a column, and not after it: a character of the line begins there, or it ends.
pub(crate) fn clamped_column(line: &str, unit: ColumnUnit, column: usize) -> InLine
    ensures { IsClampedAt unit line.now column result.column result.offset }
{
    let mut count: usize = 0;
    let mut clamped = InLine {
        offset: 0,
        column: 0,
    };
    for (at, byte) in line.as_bytes().iter().enumerate() {
        if count <= column && line.is_char_boundary(at) {
            clamped = InLine {
                offset: at,
                column: count,
            };
        }
        count += width(unit, *byte);
    }
    if count <= column {
        return InLine {
            offset: line.len(),
            column: count,
        };
    }
    clamped
}
