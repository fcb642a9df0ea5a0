//! Places of an editor as offsets.
ghost use Rattle.std.specs.Prelude.{◌≡◌, IfSome, length};
ghost use Rattle.wac_lsp_texts.specs.Clamped.{IsClamped};

use crate::columns::clamped_column;
use wac_positions::{ColumnUnit, Lines, Place};

/// The offset of a place, in bytes of the text whose lines these are. A place past the end of a line means its end, one
/// past the text the text's end, and one within a character where that begins. `None` isn't known to come, and no
/// clause excludes it.
pub fn offset_at(lines: &Lines<'_>, len: usize, place: Place, unit: ColumnUnit) -> Option<usize>
    requires { len ≡ length lines.now }
    ensures { IfSome result (λ at. IsClamped lines.now unit place at) }
{
    if lines.count() <= place.line {
        return Some(len);
    }
    let column = clamped_column(lines.line(place.line), unit, place.column).column;
    lines.offset(
        Place {
            line: place.line,
            column,
        },
        unit,
    )
}
