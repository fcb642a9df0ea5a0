//! Places of offsets, each found without going over its line.
use crate::columns::width;
use std::alloc::{AllocError, Global};
use wac_positions::{ColumnUnit, Lines, Place};

/// Before each so many bytes it is noted how many units come before them.
const STEP: usize = 256;

/// The places of the offsets of a text.
///
/// `Lines::place` goes over the line before the offset, which takes quadratic time for all tokens of a text of one line.
/// Here a place takes the time of 256 bytes at most, and logarithmic time in the number of lines. The units are counted
/// once, when the value is made, and it takes a `usize` for each line and for each 256 bytes.
#[derive(Drop)]
pub struct Places<'a> {
    text: &'a str,
    unit: ColumnUnit,
    lines: Lines<'a>,
    /// How many units of the text come before each part of it.
    counts: Vec<usize>,
}

/// How many units bytes have.
fn units(unit: ColumnUnit, bytes: &[u8]) -> usize {
    let mut count = 0usize;
    for byte in bytes {
        count = count.saturating_add(width(unit, *byte));
    }
    count
}

/// How many units come before each part of a text, and before its end.
fn counts_of(alloc: Global, unit: ColumnUnit, bytes: &[u8]) -> Result<Vec<usize>, AllocError> {
    let mut counts = Vec::new(alloc);
    let mut count = 0usize;
    for part in bytes.chunks(STEP) {
        counts.push(count)?;
        count = count.saturating_add(units(unit, part));
    }
    counts.push(count)?;
    Ok(counts)
}

impl<'a> Places<'a> {
    /// Finds the lines of a text, and counts its units.
    pub fn new(alloc: Global, text: &'a str, unit: ColumnUnit) -> Result<Places<'a>, AllocError> {
        let lines = Lines::new(alloc, text)?;
        let counts = counts_of(alloc, unit, text.as_bytes())?;
        Ok(Places {
            text,
            unit,
            lines,
            counts,
        })
    }

    /// How many bytes the text has.
    pub fn len(&self) -> usize {
        self.text.len()
    }

    /// How many units of the text come before an offset.
    fn units_before(&self, offset: usize) -> usize {
        let part = offset / STEP;
        let start = part.saturating_mul(STEP);
        let before = self.counts.get(part).copied().unwrap_or(0);
        let rest = self.text.as_bytes().get(start..offset).unwrap_or(&[]);
        before.saturating_add(units(self.unit, rest))
    }

    /// Where a line begins: the text's end, where there is no such line.
    fn start_of(&self, line: usize) -> usize {
        let place = Place { line, column: 0 };
        self.lines
            .offset(place, ColumnUnit::Bytes)
            .unwrap_or(self.text.len())
    }

    /// The line in which an offset lies, from its start on.
    fn line_of(&self, offset: usize) -> usize {
        let mut first = 0usize;
        let mut after = self.lines.count();
        for _ in 0..usize::BITS {
            let middle = first.saturating_add(after.saturating_sub(first) / 2);
            if self.start_of(middle) <= offset {
                first = middle;
            } else {
                after = middle;
            }
        }
        first
    }

    /// The offset before the CR LF between whose characters an offset is, and else the offset: the protocol has no place
    /// there.
    fn before_line_end(&self, at: usize) -> usize {
        let start = at.saturating_sub(1);
        let end = at.saturating_add(1);
        match self.text.as_bytes().get(start..end) {
            Some(around) if around == b"\r\n".as_slice() => start,
            _ => at,
        }
    }

    /// The place of an offset in bytes, as `Lines::place` has it: within a character that of the character, and past the
    /// end that of the end. Between a CR and its LF it is that of the line's end.
    pub fn place(&self, offset: usize) -> Place {
        let at = self.before_line_end(self.text.floor_char_boundary(offset));
        let line = self.line_of(at);
        let before = self.units_before(self.start_of(line));
        Place {
            line,
            column: self.units_before(at).saturating_sub(before),
        }
    }
}
