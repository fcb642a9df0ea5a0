// What comes before each token of a printed text.
use crate::pieces::Piece;
use std::alloc::{AllocError, Global};

/// What comes before a token of a printed text, apart from docs: line ends, or blanks on the same line.
#[derive(Clone, Copy, Debug)]
pub(crate) struct Separator {
    pub(crate) lines: usize,
    pub(crate) blanks: usize,
}

/// What comes before the first token of bytes, and how many bytes. Line ends after a doc are not counted.
fn separator_before(bytes: &[u8]) -> (Separator, usize) {
    let mut separator = Separator {
        lines: 0,
        blanks: 0,
    };
    let mut after_doc = false;
    let mut in_doc = false;
    for (len, byte) in bytes.iter().enumerate() {
        match *byte {
            b'\n' => {
                in_doc = false;
                if !after_doc {
                    separator.lines = separator.lines.saturating_add(1);
                }
            }
            b'/' => {
                after_doc = true;
                in_doc = true;
            }
            b' ' | b'\t' => separator.blanks = separator.blanks.saturating_add(1),
            _ => {
                if !in_doc {
                    return (separator, len);
                }
            }
        }
    }
    (separator, bytes.len())
}

/// What comes before each token of a printed text, and at its end. Its tokens are those among the pieces, and its only
/// comments are docs. A line begins at its start too.
pub(crate) fn separators(
    alloc: Global,
    pieces: &[Piece<'_>],
    printed: &str,
) -> Result<Vec<Separator>, AllocError> {
    let mut separators = Vec::with_capacity(alloc, pieces.len())?;
    let mut rest = printed.as_bytes();
    // The start of the text begins a line.
    let mut lines = 1;
    for piece in pieces {
        if !piece.is_comment() {
            let (mut found, len) = separator_before(rest);
            found.lines = found.lines.saturating_add(lines);
            lines = 0;
            if separators.push(found).is_err() {
                return Err(AllocError);
            }
            let end = len.saturating_add(piece.text.len()).min(rest.len());
            rest = rest.split_at(end).1;
        }
    }
    Ok(separators)
}
