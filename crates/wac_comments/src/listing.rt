// The comments of a text.
ghost use Rattle.std.specs.Prelude.{◌≡◌, IfOk, IfErr, OnOk, None};
ghost use Rattle.wac_lexer.specs.Characters.{refused};
ghost use Rattle.wac_comments_layout.specs.Texts.{pieces_of};
ghost use Rattle.wac_comments_layout.specs.Errors.{IsReadErrorOf};
ghost use Rattle.wac_comments.specs.Comments.{kind_of, comments_among, comments};

use std::alloc::{AllocError, Global};
use wac_comments_layout::{Piece, ReadError, read};
use wac_lexer::SourceSpan;

/// What a comment is.
#[derive(Clone, Copy, Debug, PartialEq, Eq)]
pub enum CommentKind {
    /// `// x`, up to the end of the line.
    Line,
    /// `/* x */`. Block comments nest.
    Block,
    /// `/// x` or `/** x */`, which the parser takes as a doc where docs may be.
    Doc,
}

/// A comment of a text.
#[derive(Clone, Copy, Debug, PartialEq, Eq)]
pub struct Comment {
    /// Where it lies, with its marks. A line comment ends before the line end.
    pub span: SourceSpan,
    /// What it is.
    pub kind: CommentKind,
}

/// The comments of a text, in order: all that lie between its tokens. The error is that of the first rejected character,
/// or out of memory.
pub fn comments(alloc: Global, source: &str) -> Result<Vec<Comment>, ReadError>
    ensures found { IfOk result (λ found. found.items ≡ comments source.now) }
    ensures accepted { OnOk result (refused source.now ≡ None) }
    ensures error { IfErr result (λ e. IsReadErrorOf source.now e) }
{
    let pieces = read(alloc, source, 1)?;
    match comments_among(alloc, pieces.as_slice()) {
        Ok(comments) => Ok(comments),
        Err(AllocError) => Err(ReadError::Memory(AllocError)),
    }
}

/// The comments among pieces.
fn comments_among(alloc: Global, pieces: &[Piece<'_>]) -> Result<Vec<Comment>, AllocError>
    ensures { IfOk result (λ found. found.items ≡ comments_among (pieces_of pieces.now)) }
{
    let mut comments = Vec::new(alloc);
    for piece in pieces {
        if piece.is_comment() {
            let comment = Comment {
                span: piece.span,
                kind: kind_of(piece),
            };
            if comments.push(comment).is_err() {
                return Err(AllocError);
            }
        }
    }
    Ok(comments)
}

/// What a comment is.
fn kind_of(comment: &Piece<'_>) -> CommentKind
    ensures { result ≡ kind_of comment.now.text.now }
{
    if comment.is_doc() {
        CommentKind::Doc
    } else if comment.is_line() {
        CommentKind::Line
    } else {
        CommentKind::Block
    }
}
