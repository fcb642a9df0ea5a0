// Whether tokens and comments that are known are those of a text, which is walked over without a search for tokens.
ghost use Rattle.std.specs.Prelude.{◌≡◌, ◌≤◌, IfSome, true, Some, [], ◌∷◌, drop, length};
ghost use Rattle.std.specs.List.{AllByRecursion, prefix_len};
ghost use Rattle.wac_comments_layout.specs.Following.{FirstIs, IsPieceText, is_aside, texts_from};
ghost use Rattle.wac_comments_layout.specs.Kept.{kept};
ghost use Rattle.wac_comments_layout.specs.Pieces.{texts};
ghost use Rattle.wac_comments_layout.specs.Texts.{texts_of};
ghost use Rattle.wac_lexer.specs.Comments.{is_blank};
ghost use Rattle.wac_lexer.specs.Tokens.{token_of};
ghost use Rattle.wac_lexer.specs.declared.token.Token.{Token as Kind};

use crate::following::may_follow;
use crate::parts::{is_blank, kept_len, part_len};
use crate::pieces::Piece;

/// The bytes from a place on.
fn rest(bytes: &[u8], place: usize) -> &[u8]
    requires { place ≤ length bytes.now }
    ensures { result.now ≡ drop place bytes.now }
{
    let (_, rest) = bytes.split_at(place);
    rest
}

/// How many blanks come first.
fn blanks_len(bytes: &[u8]) -> usize
    ensures len { result ≡ prefix_len is_blank bytes.now }
    ensures within { result ≤ length bytes.now }
{
    bytes.iter().take_while(|byte| is_blank(**byte)).count()
}

/// Where the blanks after a place end.
fn after_blanks(bytes: &[u8], place: usize) -> usize
    requires { place ≤ length bytes.now }
    ensures within { result ≤ length bytes.now }
    ensures same { texts_from bytes.now result ≡ texts_from bytes.now place }
{
    place + blanks_len(rest(bytes, place))
}

/// What is kept of a comment.
fn kept(comment: &[u8]) -> &[u8]
    ensures { result.now ≡ kept comment.now }
{
    let (kept, _) = comment.split_at(kept_len(comment));
    kept
}

/// Where the comment at a place ends, if this is what is kept of it.
fn after_comment(bytes: &[u8], place: usize, comment: &[u8]) -> Option<usize>
    requires { place ≤ length bytes.now }
    ensures { IfSome result (λ end. FirstIs bytes.now place comment.now end) }
{
    let rest = rest(bytes, place);
    let len = part_len(rest);
    if len < 2 {
        return None;
    }
    let (part, _) = rest.split_at(len);
    if kept(part) == comment {
        Some(place + len)
    } else {
        None
    }
}

/// Where the token at a place ends, if it is plain that it is this one.
fn after_token(bytes: &[u8], place: usize, token: &str) -> Option<usize>
    requires within { place ≤ length bytes.now }
    requires token { (kind : Kind) × (token_of token.now ≡ Some kind) }
    ensures { IfSome result (λ end. FirstIs bytes.now place token.now end) }
{
    let rest = rest(bytes, place);
    let text = token.as_bytes();
    if rest.len() < text.len() {
        return None;
    }
    let (front, after) = rest.split_at(text.len());
    if front == text && may_follow(token, after) {
        Some(place + text.len())
    } else {
        None
    }
}

/// Whether a text begins as comments do, or is empty.
fn is_aside(text: &str) -> bool
    ensures { result ≡ is_aside text.now }
{
    match text.as_bytes().first() {
        Some(byte) => *byte == b'/',
        None => true,
    }
}

/// Where the first piece after a place ends, if it is plain that it has this one's text.
fn after_piece(bytes: &[u8], place: usize, piece: &Piece<'_>) -> Option<usize>
    requires within { place ≤ length bytes.now }
    requires text { IsPieceText piece.now.text.now }
    ensures { IfSome result (λ end. FirstIs bytes.now place piece.now.text.now end) }
{
    let start = after_blanks(bytes, place);
    if piece.is_comment() {
        after_comment(bytes, start, piece.text.as_bytes())
    } else if is_aside(piece.text) {
        None
    } else {
        after_token(bytes, start, piece.text)
    }
}

/// Whether only blanks are left after a place, and the text of the last piece is empty.
fn is_end(bytes: &[u8], place: usize, last: &str) -> bool
    requires { place ≤ length bytes.now }
    ensures { result ≡ true → texts_from bytes.now place ≡ last.now ∷ [] }
{
    let end = after_blanks(bytes, place);
    if end < bytes.len() {
        return false;
    }
    last.is_empty()
}

/// Whether it is plain that the bytes of a text have these tokens and comments.
fn stand_in_bytes(bytes: &[u8], pieces: &[Piece<'_>]) -> bool
    requires { AllByRecursion IsPieceText (texts_of pieces.now) }
    ensures { result ≡ true → texts_from bytes.now 0 ≡ texts_of pieces.now }
{
    let mut place = 0;
    for (index, piece) in pieces.iter().enumerate() {
        if index + 1 == pieces.len() {
            return is_end(bytes, place, piece.text);
        }
        match after_piece(bytes, place, piece) {
            Some(end) => place = end,
            None => return false,
        }
    }
    false
}

/// Whether it is plain that these are the tokens and comments of a text, with its end.
///
/// Each token is compared with the text at its place, so none is searched for; where a token may go on, the answer is no.
/// So a no says nothing: `read` finds what the text has. No memory is taken.
///
/// ```text
/// stand_in("a;", read(alloc, "a ;", 1)?.as_slice())       // true
/// stand_in("a:b;", read(alloc, "a : b;", 1)?.as_slice())  // false: `a:b` is one token
/// ```
pub fn stand_in(text: &str, pieces: &[Piece<'_>]) -> bool
    requires { AllByRecursion IsPieceText (texts_of pieces.now) }
    ensures { result ≡ true → texts text.now ≡ texts_of pieces.now }
{
    stand_in_bytes(text.as_bytes(), pieces)
}
