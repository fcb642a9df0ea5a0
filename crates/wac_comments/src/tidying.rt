// Printing documents with their comments.
ghost use Rattle.std.specs.Prelude.{◌≡◌, ◌⊎◌, IfOk, IfErr, IfSome, OnOk, Err, None, alloc_error, string_bytes};
ghost use Rattle.std.specs.List.{list_any};
ghost use Rattle.wac_printer_layout.specs.Joins.{AreBlanks};
ghost use Rattle.wac_lexer.specs.Characters.{refused};
ghost use Rattle.wac_comments_layout.specs.Kept.{is_comment};
ghost use Rattle.wac_comments_layout.specs.Nesting.{too_deep};
ghost use Rattle.wac_comments_layout.specs.Pieces.{pieces, texts};
ghost use Rattle.wac_comments_layout.specs.Printing.{printed};
ghost use Rattle.wac_comments_layout.specs.Texts.{pieces_of, texts_of};
ghost use Rattle.wac_comments.specs.Comments.{comment_texts, doc_texts, has_comments};
ghost use Rattle.wac_comments.specs.Errors.{IsErrorOf, is_memory};
ghost use Rattle.wac_comments.specs.Tidied.{IsEnded, IsFormatted, IsPlain, IsPlainWith, Kept, ReadsBackAs, SameTree};
ghost use Rattle.wac_comments.specs.declared.error.TidyError.TheVariants.{NestedTooDeep, NotKept, Memory};

use crate::error::TidyError;
use crate::options::Options;
use crate::testing::{is_kept, is_same};
use std::alloc::{AllocError, Global};
use wac_ast_base::Error;
use wac_comments_layout::{
    Piece, ReadError, Style, lay_out, plain, printed, read, too_deep, too_deep_among,
};
use wac_lexer::SourceSpan;
use wac_printer::format;

/// Prints the document of a text in the one layout, with every comment of the text in its place.
///
/// A comment at the end of a line stays there, and one on lines of its own stays on such; a line ends where a comment asks
/// for it. Docs stay as they are, to the letter. The result is tested before it is returned: `NotKept` says that it failed
/// the test, and no text is known for which it does. Memory is taken for the tokens and comments of the text, for its tree,
/// and for the text that is returned.
///
/// ```text
/// tidy(alloc, "package a:b; // first", Options::default())     // Ok("package a:b; // first\n")
/// ```
pub fn tidy(alloc: Global, source: &str, options: Options) -> Result<String, TidyError>
    // All comments of the source are there, in order, and none but these.
    ensures comments { IfOk result (λ text. comment_texts (string_bytes text) ≡ comment_texts source.now) }
    // Each stands before the same printed token as in the source.
    ensures kept { IfOk result (λ text. Kept source.now (string_bytes text)) }
    // The text and the source have the same bare tree and the same lines of docs, so they are formatted alike.
    ensures formatted { IfOk result (λ text. SameTree source.now (string_bytes text)) }
    // Its docs are those of the source, to the letter.
    ensures docs { IfOk result (λ text. doc_texts (string_bytes text) ≡ doc_texts source.now) }
    // Without comments it is what the source is formatted to, but for its line ends.
    ensures plain { IfOk result (λ text. IsPlain options source.now (string_bytes text)) }
    // Brackets that are nested too deep are reported before all but refused characters.
    ensures deep { IfSome (too_deep source.now) (λ span. result ≡ Err (NestedTooDeep span)) }
    // An error is that of the source, unless the test failed or memory ran out.
    ensures only { IfErr result (λ e. IsErrorOf source.now e) }
{
    let pieces = read(alloc, source, options.indent.tab());
    if let Some(span) = nested(source, &pieces) {
        return Err(TidyError::NestedTooDeep { span });
    }
    match options.indent.text(alloc) {
        Ok(indent) => tidied(
            alloc,
            source,
            &pieces,
            indent.as_str(),
            options.line_end.text(),
        ),
        Err(AllocError) => Err(TidyError::Memory(AllocError)),
    }
}

/// The first bracket of a source that is nested too deeply. Where its pieces could not be read, the source is.
fn nested(source: &str, reading: &Result<Vec<Piece<'_>>, ReadError>) -> Option<SourceSpan>
    requires found { IfOk reading.now (λ found. pieces_of found.items ≡ pieces source.now) }
    requires accepted { OnOk reading.now (refused source.now ≡ None) }
    ensures { result ≡ too_deep source.now }
{
    match reading {
        Ok(found) => too_deep_among(found.as_slice()),
        Err(_) => too_deep(source),
    }
}

/// The same with the texts of the options, and with what was read.
fn tidied(
    alloc: Global,
    source: &str,
    pieces: &Result<Vec<Piece<'_>>, ReadError>,
    indent: &str,
    line_end: &str,
) -> Result<String, TidyError>
    requires blanks { AreBlanks indent.now }
    requires texts { IfOk pieces.now (λ found. texts_of found.items ≡ texts source.now) }
    ensures kept { IfOk result (λ text. Kept source.now (string_bytes text)) }
    ensures formatted { IfOk result (λ text. SameTree source.now (string_bytes text)) }
    ensures plain { IfOk result (λ text. IsPlainWith indent.now line_end.now source.now (string_bytes text)) }
    ensures only { IfErr result (λ e. IsErrorOf source.now e) }
{
    let formatted = format_text(alloc, source, indent)?;
    let style = Style { indent, line_end };
    match pieces {
        Ok(pieces) => tested(alloc, source, pieces.as_slice(), formatted.as_str(), style),
        Err(ReadError::Refused(..)) => Err(TidyError::NotKept),
        Err(ReadError::Memory(_)) => Err(TidyError::Memory(AllocError)),
    }
}

/// What a source is formatted to.
fn format_text(alloc: Global, source: &str, indent: &str) -> Result<String, TidyError>
    requires { AreBlanks indent.now }
    ensures found { IfOk result (λ text. IsFormatted indent.now source.now (string_bytes text)) }
    ensures back { IfOk result (λ text. ReadsBackAs source.now (string_bytes text)) }
    ensures only { IfErr result (λ e. IsErrorOf source.now e) }
{
    match format(alloc, source, Some(indent)) {
        Ok(text) => Ok(text),
        Err(error) => {
            if is_memory(&error) {
                Err(TidyError::Memory(AllocError))
            } else {
                Err(TidyError::Parse(error))
            }
        }
    }
}

/// Whether memory ran out.
fn is_memory(error: &Error) -> bool
    ensures { result ≡ is_memory error.now }
{
    match error {
        Error::Lexer { .. }
        | Error::Expected { .. }
        | Error::ExpectedEither { .. }
        | Error::ExpectedMultiple { .. }
        | Error::EmptyType { .. }
        | Error::InvalidVersion { .. } => false,
        Error::Memory(_) => true,
    }
}

/// The tidy text of a source with these tokens and comments, which is formatted to another text. It is tested before it is
/// returned: what is not the source itself is read and formatted.
fn tested(
    alloc: Global,
    source: &str,
    pieces: &[Piece<'_>],
    formatted: &str,
    style: Style<'_>,
) -> Result<String, TidyError>
    requires blanks { AreBlanks style.indent.now }
    requires pieces { texts_of pieces.now ≡ texts source.now }
    requires back { ReadsBackAs source.now formatted.now }
    ensures kept { IfOk result (λ text. Kept source.now (string_bytes text)) }
    ensures back { IfOk result (λ text. ReadsBackAs (string_bytes text) formatted.now) }
    ensures plain { IfOk result (λ text.
        IsEnded (has_comments source.now) style.entry.line_end.now formatted.now (string_bytes text)) }
    ensures only { IfErr result (λ e. (e ≡ NotKept) ⊎ (e ≡ Memory alloc_error)) }
{
    let found = wanted(alloc, pieces)?;
    let wanted = found.as_slice();
    let candidate = candidate(alloc, wanted, formatted, style)?;
    let text = candidate.as_str();
    if is_same(text, source, pieces, wanted) {
        return Ok(candidate);
    }
    let kept = is_kept(alloc, text, wanted, formatted, style.indent)?;
    if kept {
        Ok(candidate)
    } else {
        Err(TidyError::NotKept)
    }
}

/// The tokens and comments of a source as they are printed.
fn wanted<'a>(alloc: Global, pieces: &[Piece<'a>]) -> Result<Vec<Piece<'a>>, TidyError>
    ensures found { IfOk result (λ wanted. texts_of wanted.items ≡ printed (texts_of pieces.now)) }
    ensures error { IfErr result (λ e. e ≡ Memory alloc_error) }
{
    match printed(alloc, pieces) {
        Ok(wanted) => Ok(wanted),
        Err(AllocError) => Err(TidyError::Memory(AllocError)),
    }
}

/// The text that is tested.
fn candidate<'a>(
    alloc: Global,
    pieces: &'a [Piece<'a>],
    formatted: &str,
    style: Style<'_>,
) -> Result<String, TidyError>
    ensures plain { IfOk result (λ text.
        IsEnded (list_any is_comment (texts_of pieces.now)) style.entry.line_end.now formatted.now
        (string_bytes text)) }
    ensures only { IfErr result (λ e. (e ≡ NotKept) ⊎ (e ≡ Memory alloc_error)) }
{
    if !has_comments(pieces) {
        return match plain(alloc, formatted, style.line_end) {
            Ok(text) => Ok(text),
            Err(AllocError) => Err(TidyError::Memory(AllocError)),
        };
    }
    match lay_out(alloc, pieces, formatted, style) {
        Ok(text) => Ok(text),
        Err(AllocError) => Err(TidyError::Memory(AllocError)),
    }
}

/// Whether one of these pieces is a comment.
fn has_comments(pieces: &[Piece<'_>]) -> bool
    ensures { result ≡ list_any is_comment (texts_of pieces.now) }
{
    for piece in pieces {
        if piece.is_comment() {
            return true;
        }
    }
    false
}
