//! The word at the end of a text, and what begins with it.
ghost use Rattle.std.specs.Prelude.{◌≡◌, ◌+◌, ◌<◌, ◌^◌, MatchBool};
ghost use Rattle.std.specs.Str.{IsCharBoundary};
ghost use Rattle.wac_completion.specs.Words.{WordBegins, is_word};

/// Whether a byte may belong to a word: to a name or a keyword.
pub(crate) fn is_word(byte: u8) -> bool
    ensures { result ≡ is_word byte }
{
    matches!(byte, b'a'..=b'z' | b'A'..=b'Z' | b'0'..=b'9' | b'-' | b'%')
}

/// Where a word that began at a byte begins after one more.
fn next_start(start: usize, i: usize, byte: u8) -> usize
    requires { i < 2 ^ 63 }
    ensures { MatchBool (is_word byte) (result ≡ start) (result ≡ i + 1) }
{
    if is_word(byte) { start } else { i + 1 }
}

/// Where the word at the end of some bytes begins. Where there is none, that is their end.
fn word_begins(bytes: &[u8]) -> usize
    ensures { WordBegins bytes.now result }
{
    let mut start = 0usize;
    for (i, byte) in bytes.iter().enumerate() {
        let next = next_start(start, i, *byte);
        start = next;
    }
    start
}

/// Where the word at the end of a text begins.
pub(crate) fn word_start(text: &str) -> usize
    ensures begins { WordBegins text.now result }
    ensures boundary { IsCharBoundary text.now result }
{
    word_begins(text.as_bytes())
}

/// Whether a text begins with a word, or does without its `%`.
pub(crate) fn begins_with(text: &str, word: &str) -> bool {
    text.starts_with(word)
        || match text.strip_prefix('%') {
            Some(rest) => rest.starts_with(word),
            None => false,
        }
}
