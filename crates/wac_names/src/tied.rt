//! Mentions that are spelled like the names for which they stand.
ghost use Rattle.std.specs.Prelude.{◌≡◌, ◌↔◌, All, IfOk, IfSome, IsSome, IsTrue};
ghost use Rattle.wac_lexer.specs.Reading.{Slices, slice};
ghost use Rattle.wac_ast_grammar.specs.Tree.{without_percent};
ghost use Rattle.wac_names.specs.Places.{AreTied, IsTied, name_in, same_name};

use crate::names::{Mention, Name, Names, numbered};
use std::alloc::{AllocError, Global};
use wac_lexer::SourceSpan;

/// Whether a span lies in a text and cuts no character.
fn lies_in(source: &str, span: SourceSpan) -> bool
    ensures { IsTrue result ↔ Slices source.now span }
{
    match span.offset().checked_add(span.len()) {
        Some(end) => source.is_char_boundary(span.offset()) && source.is_char_boundary(end),
        None => false,
    }
}

/// What a text has in a span.
fn text_in(source: &str, span: SourceSpan) -> &str
    requires { Slices source.now span }
    ensures { result.now ≡ slice source.now span }
{
    let (_, rest) = source.split_at(span.offset());
    let (text, _) = rest.split_at(span.len());
    text
}

/// The text without a leading `%`.
pub fn without_percent(text: &str) -> &str
    ensures { result.now ≡ without_percent text.now }
{
    text.strip_prefix('%').unwrap_or(text)
}

/// The name that a text has in a span, without a leading `%`: `log` for `%log`. `None` where the span doesn't lie in the
/// text, or cuts a character.
pub fn name_in(source: &str, span: SourceSpan) -> Option<&str>
    ensures name { IfSome result (λ name. name.now ≡ name_in source.now span) }
    ensures found { IsSome result ↔ Slices source.now span }
{
    if lies_in(source, span) {
        Some(without_percent(text_in(source, span)))
    } else {
        None
    }
}

/// Whether two texts are the same.
#[tactic(auto, using(wac_lexer::proofs::Texts::bytes_eq_is))]
pub fn is_same(text: &str, other: &str) -> bool
    ensures { IsTrue result → text.now ≡ other.now }
{
    text == other
}

/// The bytes that a text has in a span, as far as it goes.
fn bytes_in(source: &str, span: SourceSpan) -> &[u8]
    ensures { result.now ≡ slice source.now span }
{
    let bytes = source.as_bytes();
    let (_, rest) = bytes.split_at(span.offset().min(bytes.len()));
    let (found, _) = rest.split_at(span.len().min(rest.len()));
    found
}

/// The bytes without a leading `%`.
fn bytes_without_percent(bytes: &[u8]) -> &[u8]
    ensures { result.now ≡ without_percent bytes.now }
{
    match bytes.split_first() {
        Some((first, rest)) if *first == b'%' => rest,
        _ => bytes,
    }
}

/// Whether a text has the same name in two spans.
pub(crate) fn is_same_name(source: &str, first: SourceSpan, second: SourceSpan) -> bool
    ensures { result ≡ same_name source.now first second }
{
    bytes_without_percent(bytes_in(source, first))
        == bytes_without_percent(bytes_in(source, second))
}

/// Whether a mention stands for one of these names, and is spelled like it.
fn is_tied(source: &str, names: &[Name], mention: &Mention) -> bool
    ensures { IsTrue result → IsTied source.now names.now mention.now }
{
    match numbered(names, mention.binding) {
        Some(name) => is_same_name(source, name.span, mention.span),
        None => false,
    }
}

/// The mentions that stand for one of these names and are spelled like it.
fn tied(
    alloc: Global,
    source: &str,
    names: &[Name],
    mentions: &[Mention],
) -> Result<Vec<Mention>, AllocError>
    ensures { IfOk result (λ all. All (IsTied source.now names.now) all.items) }
{
    let mut all = Vec::new(alloc);
    for mention in mentions {
        if is_tied(source, names, mention) {
            all.push(Mention {
                span: mention.span,
                binding: mention.binding,
                bound: mention.bound,
            })?;
        }
    }
    Ok(all)
}

/// The names with their mentions. A finder finds no mention of another name or another spelling: that is tested here, so
/// that it needs no proof.
pub(crate) fn tied_names(alloc: Global, source: &str, found: Names) -> Result<Names, AllocError>
    ensures { IfOk result (AreTied source.now) }
{
    let Names {
        bindings,
        mentions: all,
    } = found;
    let mentions = tied(alloc, source, &bindings, &all)?;
    Ok(Names { bindings, mentions })
}
