//! What blanked statements declare.
ghost use Rattle.std.specs.Prelude.{◌≡◌, ◌↔◌, ◌&&◌, IsTrue, MatchOption, false};
ghost use Rattle.wac_lexer.specs.Reading.{Slices, left as items_left, slice};
ghost use Rattle.wac_ast_grammar.specs.Tree.{without_percent};
ghost use Rattle.wac_all_errors.specs.Naming.{
  IsUndeclared,
  declared_among,
  declares,
  declares_next,
  is_blank_at,
  same_name,
};

use wac_diagnostics::Diagnostic;
use wac_lexer::{Lexer, LexerResult, SourceSpan, Token};

/// The code of an error that a name denotes nothing.
pub(crate) const UNDEFINED: &str = "wac::undefined-name";

/// Whether an error of resolving may come of a statement that was blanked, and not of what is left.
pub(crate) fn is_caused(code: &str) -> bool {
    matches!(
        code,
        "wac::missing-target-export"
            | "wac::package-path-missing-export"
            | "wac::package-missing-export"
    )
}

/// Whether a name right after an item is declared there: after a keyword of a declaration, or another name, since a
/// misspelled keyword is one.
fn declares_next(item: LexerResult<Token>) -> bool
    ensures { result ≡ declares_next item }
{
    matches!(
        item,
        Ok(
            Token::Ident
                | Token::ImportKeyword
                | Token::LetKeyword
                | Token::InterfaceKeyword
                | Token::WorldKeyword
                | Token::TypeKeyword
                | Token::VariantKeyword
                | Token::RecordKeyword
                | Token::FlagsKeyword
                | Token::EnumKeyword
        )
    )
}

/// Whether a byte of a text is a blank.
fn is_blank_at(text: &str, at: usize) -> bool
    ensures { result ≡ is_blank_at text.now at }
{
    let bytes = text.as_bytes();
    at < bytes.len() && bytes[at] == b' '
}

/// A text without a leading `%`.
fn without_percent(text: &str) -> &str
    ensures { result.now ≡ without_percent text.now }
{
    text.strip_prefix('%').unwrap_or(text)
}

/// Whether names are the same, be they after `%` or not.
fn same_name(a: &str, b: &str) -> bool
    ensures { result ≡ same_name a.now b.now }
{
    without_percent(a) == without_percent(b)
}

/// Whether a name at an offset is another one, and is blanked in what is left.
fn is_blanked_name(left: &str, at: usize, found: &str, name: &str) -> bool
    ensures { result ≡ (is_blank_at left.now at && same_name found.now name.now) }
{
    is_blank_at(left, at) && same_name(found, name)
}

/// Whether what is blanked of a source in what is left declares a name. In a source with a rejected character any may be.
fn declares(source: &str, left: &str, name: &str) -> bool
    ensures { result ≡ declares source.now left.now name.now }
{
    match Lexer::new(source) {
        Ok(lexer) => declared_among(lexer, left, name),
        Err(_) => true,
    }
}

/// Whether one of the items that a lexer has left declares a name, and is blanked in what is left of the source.
fn declared_among(mut lexer: Lexer<'_>, left: &str, name: &str) -> bool
    ensures { result ≡ declared_among left.now name.now false (items_left lexer.entry) }
{
    let mut is_after = false;
    while let Some((item, span)) = lexer.next() {
        if is_after && is_blanked_name(left, span.offset(), lexer.source(span), name) {
            return true;
        }
        is_after = declares_next(item);
    }
    false
}

/// Whether a span lies in a text and cuts no character.
fn lies_in(text: &str, span: SourceSpan) -> bool
    ensures { IsTrue result ↔ Slices text.now span }
{
    match span.offset().checked_add(span.len()) {
        Some(end) => text.is_char_boundary(span.offset()) && text.is_char_boundary(end),
        None => false,
    }
}

/// The text of a span, where it lies in the text and cuts no character.
pub(crate) fn slice(text: &str, span: SourceSpan) -> Option<&str>
    ensures { MatchOption result (¬ (Slices text.now span)) (λ part. part.now ≡ slice text.now span) }
{
    if !lies_in(text, span) {
        return None;
    }
    let (_, rest) = text.split_at(span.offset());
    let (part, _) = rest.split_at(span.len());
    Some(part)
}

/// Whether a diagnostic says of a name in what is left of a source that it is unknown, where a blanked statement
/// declares it.
pub(crate) fn names_blanked(source: &str, left: &str, diagnostic: &Diagnostic) -> bool
    ensures { result ≡ false → IsUndeclared source.now left.now diagnostic.now }
{
    if diagnostic.code != UNDEFINED {
        return false;
    }
    match diagnostic.span {
        Some(span) => names_declared(source, left, span),
        None => false,
    }
}

/// Whether the name at a place of what is left of a source is one that a blanked statement declares.
fn names_declared(source: &str, left: &str, at: SourceSpan) -> bool
    ensures { result ≡ false → Slices left.now at → declares source.now left.now (slice left.now at) ≡ false }
{
    match slice(left, at) {
        Some(name) => declares(source, left, name),
        None => false,
    }
}
