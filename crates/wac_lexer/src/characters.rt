// Tests the characters of a source.
ghost use Rattle.std.specs.Prelude.{◌≡◌, ◌≤◌, true, length, take};
ghost use Rattle.std.specs.List.{list_all, prefix_len};
ghost use Rattle.std.specs.Str.{IsCharBoundary};
ghost use Rattle.wac_lexer.specs.Characters.{fault_of, is_plain, refused, refused_after};

use crate::error::Error;
use crate::span::SourceSpan;

fn fault_of(c: char) -> Option<Error>
    ensures { result ≡ fault_of c }
{
    match c {
        '\t' | '\n' | '\r' => None,
        '\u{202a}'..='\u{202e}' | '\u{2066}'..='\u{2069}' => {
            Some(Error::DisallowedBidirectionalOverride(c))
        }
        '\u{149}'
        | '\u{673}'
        | '\u{f77}'
        | '\u{f79}'
        | '\u{17a3}'..='\u{17a4}'
        | '\u{17b4}'..='\u{17b5}' => Some(Error::DiscouragedUnicodeCodepoint(c)),
        '\0'..='\u{1f}' | '\u{7f}'..='\u{9f}' => Some(Error::DisallowedControlCode(c)),
        _ => None,
    }
}

/// Whether a byte is a character that every source may have: printable ASCII, TAB, LF or CR.
fn is_plain(byte: u8) -> bool
    ensures { result ≡ is_plain byte }
{
    ((byte >= b' ') & (byte <= b'~')) | (byte == b'\n') | (byte == b'\t') | (byte == b'\r')
}

/// How many bytes are tested at once.
const BLOCK: usize = 16;

/// Whether all of some bytes are plain. There is no branch for a byte, so that vector instructions can test them side by side.
fn are_plain(bytes: &[u8]) -> bool
    ensures { result ≡ list_all is_plain bytes.now }
{
    let mut all = true;
    for byte in bytes {
        all &= is_plain(*byte);
    }
    all
}

/// How many bytes the whole blocks of plain bytes take that come first.
fn plain_blocks(bytes: &[u8]) -> usize
    ensures within { result ≤ length bytes.now }
    ensures plain { list_all is_plain (take result bytes.now) ≡ true }
{
    let mut i = 0;
    while bytes.len() - i >= BLOCK {
        let (_, rest) = bytes.split_at(i);
        let (block, _) = rest.split_at(BLOCK);
        if !are_plain(block) {
            return i;
        }
        i += BLOCK;
    }
    i
}

/// How many plain bytes come first.
fn plain_len(bytes: &[u8]) -> usize
    ensures len { result ≡ prefix_len is_plain bytes.now }
    ensures within { result ≤ length bytes.now }
{
    let len = plain_blocks(bytes);
    let (_, rest) = bytes.split_at(len);
    len + single_plain_len(rest)
}

/// How many plain bytes come first, tested one by one.
fn single_plain_len(bytes: &[u8]) -> usize
    ensures len { result ≡ prefix_len is_plain bytes.now }
    ensures within { result ≤ length bytes.now }
{
    bytes.iter().take_while(|byte| is_plain(**byte)).count()
}

/// Where the plain bytes from a place on end. None of them is a rejected character.
fn past_plain(source: &str, place: usize) -> usize
    requires { IsCharBoundary source.now place }
    ensures within { IsCharBoundary source.now result }
    ensures onward { place ≤ result }
    ensures passes { refused_after source.now result ≡ refused_after source.now place }
{
    let (_, rest) = source.split_at(place);
    place + plain_len(rest.as_bytes())
}

/// The first rejected character.
pub(crate) fn refused(source: &str) -> Option<(Error, SourceSpan)>
    ensures { result ≡ refused source.now }
{
    let mut place = past_plain(source, 0);
    while place < source.len() {
        let (_, rest) = source.split_at(place);
        match rest.chars().next() {
            Some(c) => {
                let len = c.len_utf8();
                if let Some(fault) = fault_of(c) {
                    return Some((fault, SourceSpan::new(place, len)));
                }
                place = past_plain(source, place + len);
            }
            None => return None,
        }
    }
    None
}
