//! Where a line of a text begins, found from where one before it does.
ghost use Rattle.std.specs.Prelude.{◌≡◌, ◌≤◌, ◌<◌, true, None, [], IfSome, length, drop, slice_index};
ghost use Rattle.std.specs.List.{position_or_len};
ghost use Rattle.std.specs.Str.{IsCharBoundary};
ghost use Rattle.wac_positions.specs.Lines.{ends_line, is_line_end, line_starts, starts_after};
ghost use Rattle.wac_lsp_texts.specs.Started.{BeginsWithEnd, IsNextStart, Starts};

use memchr::memchr2;

/// A line, and the offset at which it begins.
#[derive(Clone, Copy, Debug, PartialEq, Eq)]
pub(crate) struct LineStart {
    /// How many lines are before it.
    pub(crate) line: usize,
    /// How many bytes are before it.
    pub(crate) offset: usize,
}

/// The first line of a text.
pub(crate) fn first_line() -> LineStart
    ensures { (result.line ≡ 0) × (result.offset ≡ 0) }
{
    LineStart { line: 0, offset: 0 }
}

/// Whether a line ends with a byte, before these bytes.
fn ends_line(byte: u8, rest: &[u8]) -> bool
    ensures { result ≡ ends_line byte rest.now }
{
    match byte {
        b'\n' => true,
        b'\r' => rest.is_empty() || rest[0] != b'\n',
        _ => false,
    }
}

/// How many bytes of a text are before the first end of a line.
#[tactic(auto, using(crate::proofs::Starting::line_end_ascii))]
pub(crate) fn line_len(text: &[u8]) -> usize
    ensures len { result ≡ position_or_len is_line_end text.now }
    ensures within { result ≤ length text.now }
    ensures boundary { IsCharBoundary text.now result }
{
    match memchr2(b'\n', b'\r', text) {
        Some(at) => at,
        None => text.len(),
    }
}

/// How many bytes the end of a line has with which a text begins. An empty text has none.
#[tactic(auto, using(crate::proofs::Starting::one, crate::proofs::Starting::two, crate::proofs::Starting::two_fit))]
fn end_len(end: &[u8]) -> usize
    requires { 0 < length end.now → is_line_end (slice_index end.now 0) ≡ true }
    ensures none { result ≡ 0 → end.now ≡ [] }
    ensures within { result ≤ length end.now }
    ensures some { 0 < result → BeginsWithEnd end.now result }
{
    if end.is_empty() {
        return 0;
    }
    let (_, rest) = end.split_at(1);
    if ends_line(end[0], rest) { 1 } else { 2 }
}

/// Where the line begins that follows one.
#[tactic(auto, using(crate::proofs::Starting::next, crate::proofs::Starting::last, crate::proofs::Starting::ends_here))]
fn next_start(text: &[u8], start: usize) -> Option<usize>
    requires { start ≤ length text.now }
    ensures within { IfSome result (λ next. next ≤ length text.now) }
    ensures some { IfSome result (λ next. IsNextStart text.now start next) }
    ensures none { result ≡ None → starts_after start (drop start text.now) ≡ [] }
{
    let (_, rest) = text.split_at(start);
    let len = line_len(rest);
    let (_, end) = rest.split_at(len);
    match end_len(end) {
        0 => None,
        more => Some(start + len + more),
    }
}

/// Where a line begins, from where one begins that is not after it.
pub(crate) fn start_from(text: &[u8], known: LineStart, line: usize) -> Option<usize>
    requires before { known.line ≤ line }
    requires starts { Starts text.now known.line known.offset }
    ensures some { IfSome result (λ start. Starts text.now line start) }
    ensures none { result ≡ None → length (line_starts text.now) ≤ line }
{
    let mut start = known.offset;
    for _ in known.line..line {
        match next_start(text, start) {
            Some(next) => start = next,
            None => return None,
        }
    }
    Some(start)
}
