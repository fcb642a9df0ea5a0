// What may follow a token.
ghost use Rattle.std.specs.Prelude.{◌≡◌};
ghost use Rattle.wac_comments_layout.specs.Following.{ends_tokens, end_tokens, stands_apart, is_closed, is_access, may_follow};

use crate::brackets::is_mark;
use crate::parts::is_blank;

/// Whether a byte continues no token.
fn ends_tokens(byte: u8) -> bool
    ensures { result ≡ ends_tokens byte }
{
    is_blank(byte)
        || byte == b';'
        || byte == b','
        || byte == b'('
        || byte == b')'
        || byte == b'<'
        || byte == b'>'
        || byte == b'['
        || byte == b']'
        || byte == b'{'
        || byte == b'}'
}

/// Whether two bytes continue none.
fn end_tokens(first: u8, second: u8) -> bool
    ensures { result ≡ end_tokens first second }
{
    first == b':' && is_blank(second) || first == b'.' && (is_blank(second) || second == b'{')
}

/// Whether what stands after continues no token.
fn stands_apart(after: &[u8]) -> bool
    ensures { result ≡ stands_apart after.now }
{
    match after.first() {
        Some(first) => {
            ends_tokens(*first)
                || match after.get(1) {
                    Some(second) => end_tokens(*first, *second),
                    None => false,
                }
        }
        None => true,
    }
}

/// Whether nothing continues a token.
fn is_closed(token: &str) -> bool
    ensures { result ≡ is_closed token.now }
{
    is_mark(token, b'(')
        || is_mark(token, b'<')
        || is_mark(token, b'[')
        || is_mark(token, b'{')
        || token == "..."
}

/// Whether a word stands before a dot, or a dot before a word.
fn is_access(token: &str, after: &[u8]) -> bool
    ensures { result ≡ is_access token.now after.now }
{
    match after.first() {
        Some(byte) => {
            let is_dot = is_mark(token, b'.');
            *byte == b'.' && !is_dot && !token.as_bytes().contains(&b':')
                || is_dot && *byte >= b'a' && *byte <= b'z'
        }
        None => false,
    }
}

/// Whether it is plain that what stands after a token doesn't continue it.
pub(crate) fn may_follow(token: &str, after: &[u8]) -> bool
    ensures { result ≡ may_follow token.now after.now }
{
    stands_apart(after) || is_closed(token) || is_access(token, after)
}
