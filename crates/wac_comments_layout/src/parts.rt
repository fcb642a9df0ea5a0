// Sequences of blanks and comments.
ghost use Rattle.std.specs.Prelude.{true, ◌≡◌, ◌≤◌, ◌<◌, ◌-◌, ◌+◌, Some, None, length, drop, MatchOption};
ghost use Rattle.std.specs.List.{suffix_len};
ghost use Rattle.wac_comments_layout.specs.Kept.{kept_len, is_line};
ghost use Rattle.wac_lexer.specs.Comments.{after, opens, closes, line_len, block_len, part_len, is_blank};

pub(crate) fn opens(bytes: &[u8]) -> bool
    ensures { result ≡ opens bytes.now }
{
    bytes.len() >= 2 && bytes[0] == b'/' && bytes[1] == b'*'
}

fn closes(bytes: &[u8]) -> bool
    ensures { result ≡ closes bytes.now }
{
    bytes.len() >= 2 && bytes[0] == b'*' && bytes[1] == b'/'
}

/// The end of the comment in which the bytes begin: how many bytes up to there.
fn comment_end(bytes: &[u8]) -> Option<usize>
    ensures ends { MatchOption result (after 1 bytes.now ≡ None) (λ n. after 1 bytes.now ≡ Some (drop n bytes.now)) }
    ensures within { MatchOption result (Unit {0}) (λ n. n ≤ length bytes.now) }
{
    let mut depth = 1usize;
    let mut i = 0;
    while i < bytes.len() {
        let (_, rest) = bytes.split_at(i);
        if opens(rest) {
            depth += 1;
            i += 2;
        } else if closes(rest) {
            depth -= 1;
            i += 2;
            if depth == 0 {
                return Some(i);
            }
        } else {
            i += 1;
        }
    }
    None
}

pub(crate) fn is_blank(byte: u8) -> bool
    ensures { result ≡ is_blank byte }
{
    byte == b' ' || byte == b'\t' || byte == b'\r' || byte == b'\n'
}

/// Whether a line comment begins the bytes.
pub(crate) fn is_line_comment(bytes: &[u8]) -> bool
    ensures { result ≡ is_line bytes.now }
{
    bytes.len() >= 2 && bytes[0] == b'/' && bytes[1] == b'/'
}

/// How many bytes come before the end of the line.
fn line_len(bytes: &[u8]) -> usize
    ensures len { result ≡ line_len bytes.now }
    ensures within { result ≤ length bytes.now }
{
    bytes.iter().take_while(|byte| **byte != b'\n').count()
}

/// How many bytes a whole block comment takes at the start, and 0 where there is none.
fn block_len(bytes: &[u8]) -> usize
    requires { opens bytes.now ≡ true }
    ensures len { result ≡ block_len bytes.now }
    ensures within { result ≤ length bytes.now }
{
    let (_, rest) = bytes.split_at(2);
    match comment_end(rest) {
        Some(len) => len + 2,
        None => 0,
    }
}

/// How many bytes the first blank or comment takes, and 0 where there is none.
pub(crate) fn part_len(bytes: &[u8]) -> usize
    ensures len { result ≡ part_len bytes.now }
    ensures within { result ≤ length bytes.now }
{
    if bytes.is_empty() {
        0
    } else if is_blank(bytes[0]) {
        1
    } else if is_line_comment(bytes) {
        line_len(bytes)
    } else if opens(bytes) {
        block_len(bytes)
    } else {
        0
    }
}

/// How many blanks are at the end.
fn blanks_at_end(bytes: &[u8]) -> usize
    ensures count { result ≡ suffix_len is_blank bytes.now }
    ensures within { result ≤ length bytes.now }
{
    bytes
        .iter()
        .rev()
        .take_while(|byte| is_blank(**byte))
        .count()
}

/// How many bytes of a comment are kept: a line comment loses the blanks at its end.
pub(crate) fn kept_len(bytes: &[u8]) -> usize
    ensures len { result ≡ kept_len bytes.now }
    ensures within { result ≤ length bytes.now }
{
    if is_line_comment(bytes) {
        bytes.len() - blanks_at_end(bytes)
    } else {
        bytes.len()
    }
}
