//! The lines of a text.
ghost use Rattle.std.specs.Prelude.{◌≡◌, ℕ, ◌≤◌, ◌<◌, IfOk, IfSome, None, length};
ghost use Rattle.std.specs.List.{position_or_len};
ghost use Rattle.std.specs.Str.{IsCharBoundary};
ghost use Rattle.wac_positions.specs.Lines.{ends_line, is_line_end, line_starts, start_of};
ghost use Rattle.wac_positions.specs.Places.{units, IsColumn};

use crate::place::{ColumnUnit, Place, width};
use std::alloc::{AllocError, Global};
use std::marker::Model;

/// The lines of a text, with which places are found.
///
/// A line ends at LF, at CR LF, or at a CR that no LF follows. So a text has at least one line, and the last one has no
/// end. The lines are found once, when the value is made, and take a `usize` each; a query then takes logarithmic time
/// in their number, and linear time in the length of one line.
///
/// ```text
/// let lines = Lines::new(alloc, "package a:b;\nlet x = y;\n")?;
/// lines.place(17, ColumnUnit::Characters)         // Place { line: 1, column: 4 }
/// lines.line(1)                                   // "let x = y;"
/// ```
#[derive(Drop)]
pub struct Lines<'a> {
    text: &'a str,
    starts: Vec<usize>,
}

impl<'a> Model for Lines<'a> {
    ghost use Rattle.std.specs.Prelude.{◌≡◌, ℕ, List, IsUtf8};
    ghost use Rattle.wac_positions.specs.Lines.{line_starts};

    ghost Value = { List ℕ };

    ghost view = { λ l. l.text.now };

    ghost invariant = { λ l. IsUtf8 l.text.now × (l.starts.items ≡ line_starts l.text.now) };
}

/// Whether a line ends with a byte, before these bytes.
fn ends_line(byte: u8, rest: &[u8]) -> bool
    ensures { result ≡ ends_line byte rest.now }
{
    match byte {
        b'\n' => true,
        b'\r' => rest.is_empty() || rest[0] != b'\n',
        _ => false,
    }
}

/// How many units bytes have.
fn units(unit: ColumnUnit, bytes: &[u8]) -> usize
    ensures { result ≡ units unit bytes.now }
{
    let mut count = 0;
    for byte in bytes {
        count += width(unit, *byte);
    }
    count
}

/// Whether a byte belongs to the end of a line.
fn is_line_end(byte: u8) -> bool
    ensures { result ≡ is_line_end byte }
{
    byte == b'\n' || byte == b'\r'
}

/// How many bytes of a text are before the first end of a line.
#[tactic(auto, using(crate::proofs::Starts::line_end_ascii))]
fn line_len(text: &[u8]) -> usize
    ensures len { result ≡ position_or_len is_line_end text.now }
    ensures boundary { IsCharBoundary text.now result }
{
    for (at, byte) in text.iter().enumerate() {
        if is_line_end(*byte) {
            return at;
        }
    }
    text.len()
}

/// Where within a line the character begins that comes after so many units.
fn find_column(line: &[u8], unit: ColumnUnit, column: usize) -> Option<usize>
    ensures found { IfSome result (λ at. (at < length line.now) × IsColumn line.now unit column at) }
    ensures none { result ≡ None → (at : ℕ) → at < length line.now → ¬ (IsColumn line.now unit column at) }
{
    let mut count = 0;
    for (at, byte) in line.iter().enumerate() {
        let is_continuation = 128 <= *byte && *byte < 192;
        if count == column && !is_continuation {
            return Some(at);
        }
        count += width(unit, *byte);
    }
    None
}

/// Where the lines of a text begin.
#[tactic(auto, using(crate::proofs::Starts::starts_taken, crate::proofs::Starts::starts_passed))]
fn line_starts(alloc: Global, text: &[u8]) -> Result<Vec<usize>, AllocError>
    ensures { IfOk result (λ starts. starts.items ≡ line_starts text.now) }
{
    let mut starts = Vec::new(alloc);
    starts.push(0)?;
    for (at, byte) in text.iter().enumerate() {
        let (_, rest) = text.split_at(at + 1);
        if ends_line(*byte, rest) {
            starts.push(at + 1)?;
        }
    }
    Ok(starts)
}

impl<'a> Lines<'a> {
    ghost use Rattle.std.specs.Prelude.{◌≡◌, ◌≤◌, ◌<◌, ◌+◌, ◌^◌, ℕ, [], IfOk, IfSome, None, Some, length, slice_index};
    ghost use Rattle.std.specs.Str.{IsCharBoundary};
    ghost use Rattle.wac_positions.specs.Lines.{line, line_starts, Begins, IsLine};
    ghost use Rattle.wac_positions.specs.Places.{line_at, place_at, IsNearest, Denotes};

    /// Finds the lines of a text.
    pub fn new(alloc: Global, text: &'a str) -> Result<Lines<'a>, AllocError>
        ensures { IfOk result (λ lines. lines ≡ text.entry.now) }
    {
        let starts = line_starts(alloc, text.as_bytes())?;
        Ok(Lines { text, starts })
    }

    /// How many lines there are: at least one.
    pub fn count(&self) -> usize
        ensures { result ≡ length (line_starts self.now) }
    {
        self.starts.len()
    }

    /// The text of a line, without its end. It is empty where there is no such line.
    pub fn line(&self, number: usize) -> &'a str
        ensures line { number < length (line_starts self.now) → result.now ≡ line self.now number }
        ensures none { length (line_starts self.now) ≤ number → result.now ≡ [] }
    {
        let Some(start) = self.start(number) else {
            return "";
        };
        let (_, rest) = self.text.split_at(start);
        let (line, _) = rest.split_at(line_len(rest.as_bytes()));
        line
    }

    /// Where a line begins.
    fn start(&self, number: usize) -> Option<usize>
        ensures some { IfSome result (λ start. Begins self.now number start) }
        ensures none { result ≡ None → length (line_starts self.now) ≤ number }
    {
        match self.starts.get(number) {
            Some(start) => Some(*start),
            None => None,
        }
    }

    /// Where the next line begins, or the text ends.
    fn stop(&self, number: usize) -> usize
        requires { number < length (line_starts self.now) }
        ensures next { number + 1 < length (line_starts self.now) → result ≡ start_of self.now (number + 1) }
        ensures last { length (line_starts self.now) ≡ number + 1 → result ≡ length self.now }
    {
        let count = self.starts.len();
        if number + 1 < count {
            self.starts[number + 1]
        } else {
            self.text.len()
        }
    }

    /// The number of the line in which an offset lies.
    fn line_at(&self, offset: usize) -> usize
        ensures line { result ≡ line_at self.now offset }
        ensures within { result < length (line_starts self.now) }
        ensures after { slice_index (line_starts self.now) result ≤ offset }
    {
        self.starts.partition_point(|start| *start <= offset) - 1
    }

    /// The place of an offset in bytes.
    ///
    /// An offset within a character has the place of that character, and one past the end that of the end.
    pub fn place(&self, offset: usize, unit: ColumnUnit) -> Place
        ensures nearest { (at : ℕ) × IsNearest self.now offset at × (result ≡ place_at self.now unit at) }
        ensures exact { IsCharBoundary self.now offset → result ≡ place_at self.now unit offset }
    {
        let at = self.text.floor_char_boundary(offset);
        let line = self.line_at(at);
        let start = self.starts[line];
        let (before, _) = self.text.as_bytes().split_at(at);
        let (_, before) = before.split_at(start);
        Place {
            line,
            column: units(unit, before),
        }
    }

    /// The bytes of a line, with its end, and where they begin. There are none where there is no such line.
    fn bytes_of(&self, number: usize) -> Option<(usize, &'a [u8])>
        ensures some { IfSome result (λ found. IsLine self.now number found.0 found.1.now) }
        ensures fits { IfSome result (λ found. found.0 + length found.1.now < 2 ^ 64) }
        ensures none { result ≡ None → length (line_starts self.now) ≤ number }
    {
        let start = self.start(number)?;
        let (bytes, _) = self.text.as_bytes().split_at(self.stop(number));
        let (_, bytes) = bytes.split_at(start);
        Some((start, bytes))
    }

    /// The offset of a place, in bytes, if a character begins there or the text ends.
    ///
    /// There is none past the end of a line. Between the CR and the LF that end a line there is one.
    pub fn offset(&self, place: Place, unit: ColumnUnit) -> Option<usize>
        ensures found { IfSome result (λ at. Denotes self.now unit place at) }
        ensures only { (at : ℕ) → Denotes self.now unit place at → result ≡ Some at }
    {
        let (start, line) = self.bytes_of(place.line)?;
        match find_column(line, unit, place.column) {
            Some(at) => Some(start + at),
            None => self.end(place, unit),
        }
    }

    /// The end of the text, where it has this place.
    fn end(&self, place: Place, unit: ColumnUnit) -> Option<usize>
        ensures found { IfSome result (λ at. (at ≡ length self.now) × (place_at self.now unit at ≡ place)) }
        ensures only { place_at self.now unit (length self.now) ≡ place → result ≡ Some (length self.now) }
    {
        let end = self.text.len();
        if self.place(end, unit) == place {
            Some(end)
        } else {
            None
        }
    }
}
