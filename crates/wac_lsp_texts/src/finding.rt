//! The offset of a place in a text whose lines aren't listed.
ghost use Rattle.std.specs.Prelude.{IfSome};
ghost use Rattle.wac_lsp_texts.specs.Clamped.{IsClamped};
ghost use Rattle.wac_lsp_texts.specs.Started.{Starts};

use crate::columns::clamped_column;
use crate::starts::{LineStart, first_line, line_len, start_from};
use wac_positions::{ColumnUnit, Place};

/// The offset of a place, as `offset_at` finds it, and a line that isn't after the place, from a line that may be.
/// It goes over the text between them, and over all before the place where the line is after it.
#[tactic(auto, using(crate::proofs::Starting::first, crate::proofs::Placing::clamped, crate::proofs::Placing::boundary, crate::proofs::Placing::past))]
pub(crate) fn offset_from(
    text: &str,
    known: LineStart,
    place: Place,
    unit: ColumnUnit,
) -> Option<(usize, LineStart)>
    requires { Starts text.now known.line known.offset }
    ensures clamped { IfSome result (λ found. IsClamped text.now unit place found.0) }
    ensures starts { IfSome result (λ found. Starts text.now found.1.line found.1.offset) }
{
    let known = if known.line <= place.line {
        known
    } else {
        first_line()
    };
    let Some(start) = start_from(text.as_bytes(), known, place.line) else {
        return Some((text.len(), known));
    };
    let (_, rest) = text.split_at(start);
    let (line, _) = rest.split_at(line_len(rest.as_bytes()));
    let found = clamped_column(line, unit, place.column);
    let offset = start + found.offset;
    if !text.is_char_boundary(offset) {
        return None;
    }
    Some((
        offset,
        LineStart {
            line: place.line,
            offset: start,
        },
    ))
}
