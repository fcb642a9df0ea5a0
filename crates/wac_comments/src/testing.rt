// The test of a result before it is returned.
ghost use Rattle.std.specs.Prelude.{◌≡◌, true, IfOk, IfErr, slice_get, Some, alloc_error};
ghost use Rattle.std.specs.List.{AllByRecursion};
ghost use Rattle.wac_printer_layout.specs.Joins.{AreBlanks};
ghost use Rattle.wac_comments_layout.specs.Following.{IsPieceText};
ghost use Rattle.wac_comments_layout.specs.Pieces.{texts};
ghost use Rattle.wac_comments_layout.specs.Texts.{texts_of};
ghost use Rattle.wac_comments.specs.Tidied.{ReadsBackAs};
ghost use Rattle.wac_comments.specs.declared.error.TidyError.TheVariants.{Memory};

use crate::error::TidyError;
use std::alloc::{AllocError, Global};
use wac_ast_base::Error;
use wac_comments_layout::{Piece, ReadError, read, stand_in};
use wac_printer::format;

/// Whether the piece at an index has this text.
fn has_text(pieces: &[Piece<'_>], index: usize, text: &str) -> bool
    ensures { result ≡ true → slice_get (texts_of pieces.now) index ≡ Some text.now }
{
    match pieces.get(index) {
        Some(piece) => piece.text == text,
        None => false,
    }
}

/// Whether two lists of pieces have the same texts.
fn have_same_texts(found: &[Piece<'_>], wanted: &[Piece<'_>]) -> bool
    ensures { result ≡ true → texts_of found.now ≡ texts_of wanted.now }
{
    for (index, piece) in found.iter().enumerate() {
        if !has_text(wanted, index, piece.text) {
            return false;
        }
    }
    found.len() == wanted.len()
}

/// Whether a text has these tokens and comments, in order. It is read only where that isn't plain.
fn has_pieces(alloc: Global, text: &str, wanted: &[Piece<'_>]) -> Result<bool, TidyError>
    requires { AllByRecursion IsPieceText (texts_of wanted.now) }
    ensures yes { IfOk result (λ yes. yes ≡ true → texts text.now ≡ texts_of wanted.now) }
    ensures error { IfErr result (λ e. e ≡ Memory alloc_error) }
{
    if stand_in(text, wanted) {
        return Ok(true);
    }
    match read(alloc, text, 1) {
        Ok(found) => Ok(have_same_texts(found.as_slice(), wanted)),
        Err(ReadError::Refused(..)) => Ok(false),
        Err(ReadError::Memory(_)) => Err(TidyError::Memory(AllocError)),
    }
}

/// Whether a text is formatted to another one.
fn is_formatted_to(
    alloc: Global,
    text: &str,
    formatted: &str,
    indent: &str,
) -> Result<bool, TidyError>
    requires { AreBlanks indent.now }
    ensures yes { IfOk result (λ yes. yes ≡ true → ReadsBackAs text.now formatted.now) }
    ensures error { IfErr result (λ e. e ≡ Memory alloc_error) }
{
    match format(alloc, text, Some(indent)) {
        Ok(found) => Ok(found.as_str() == formatted),
        Err(Error::Memory(_)) => Err(TidyError::Memory(AllocError)),
        Err(_) => Ok(false),
    }
}

/// Whether a text is its source, whose tokens and comments are printed as they are.
pub(crate) fn is_same(text: &str, source: &str, pieces: &[Piece<'_>], printed: &[Piece<'_>]) -> bool
    ensures same { result ≡ true → text.now ≡ source.now }
    ensures printed { result ≡ true → texts_of pieces.now ≡ texts_of printed.now }
{
    if text == source {
        have_same_texts(pieces, printed)
    } else {
        false
    }
}

/// Whether a text has these tokens and comments, in order, and is formatted to another one.
pub(crate) fn is_kept(
    alloc: Global,
    text: &str,
    wanted: &[Piece<'_>],
    formatted: &str,
    indent: &str,
) -> Result<bool, TidyError>
    requires blanks { AreBlanks indent.now }
    requires known { AllByRecursion IsPieceText (texts_of wanted.now) }
    ensures kept { IfOk result (λ yes. yes ≡ true → texts text.now ≡ texts_of wanted.now) }
    ensures formatted { IfOk result (λ yes. yes ≡ true → ReadsBackAs text.now formatted.now) }
    ensures error { IfErr result (λ e. e ≡ Memory alloc_error) }
{
    if is_formatted_to(alloc, text, formatted, indent)? {
        has_pieces(alloc, text, wanted)
    } else {
        Ok(false)
    }
}
