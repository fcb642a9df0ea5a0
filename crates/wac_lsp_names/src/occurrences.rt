//! Where names are bound and used.
ghost use Rattle.std.specs.Prelude.{◌≡◌, ◌↔◌, All, IfOk, IfSome, IsTrue, find, map, option_copied};
ghost use Rattle.wac_lexer.specs.Reading.{Slices};
ghost use Rattle.wac_names.specs.Places.{touches};
ghost use Rattle.wac_lsp_names.specs.Occurrences.{
  AreOccurrences,
  AreUsesAt,
  IsAlike,
  IsBoundAt,
  IsFoundAt,
  IsFoundBy,
  IsKept,
  IsNamed,
  at_of,
  back,
  inner,
};
ghost use Rattle.wac_lsp_names.specs.Read.{read_of};

use crate::reading::{Reading, read};
use std::alloc::{AllocError, Global};
use wac_lexer::SourceSpan;
use wac_names::{name_in, touches};

/// A name that is at an offset: where it is there, where it is bound and where it is used.
#[derive(Drop)]
pub struct Occurrences {
    /// Where it is at the offset: the first use there, else where it is bound. A span has the name's `%` where it has one,
    /// and no quotes.
    pub at: SourceSpan,
    /// Where it is bound.
    pub bound: SourceSpan,
    /// Where it is used, in the order of the text, but those of the target last.
    pub used: Vec<SourceSpan>,
}

/// A span, so many bytes before.
pub(crate) fn back(by: usize, span: SourceSpan) -> SourceSpan
    ensures { result ≡ back by span }
{
    SourceSpan::new(span.offset().saturating_sub(by), span.len())
}

/// Spans, so many bytes before.
fn all_back(alloc: Global, by: usize, spans: &[SourceSpan]) -> Result<Vec<SourceSpan>, AllocError>
    ensures { IfOk result (λ all. all.items ≡ map (back by) spans.now) }
{
    spans.iter().map(|span| back(by, *span)).collect(alloc)
}

/// The first span that an offset touches.
fn first_at(offset: usize, spans: &[SourceSpan]) -> Option<&SourceSpan>
    ensures { option_copied result ≡ find (touches offset) spans.now }
{
    spans.iter().find(|span| touches(**span, offset))
}

/// Where a name is at an offset: the first use there, else where it is bound.
fn at_of(offset: usize, bound: SourceSpan, used: &[SourceSpan]) -> SourceSpan
    ensures { result ≡ at_of offset bound used.now }
{
    match first_at(offset, used) {
        Some(span) => *span,
        None => bound,
    }
}

/// Whether a source has a name in a span.
fn is_named(source: &str, span: SourceSpan) -> bool
    ensures { IsTrue result ↔ IsNamed source.now span }
{
    match name_in(source, span) {
        Some(name) => !name.is_empty(),
        None => false,
    }
}

/// Whether a source has a name in a span that is spelled like the one that it has in another span.
fn is_alike(source: &str, bound: SourceSpan, used: SourceSpan) -> bool
    requires { Slices source.now bound }
    ensures { IsTrue result ↔ IsAlike source.now bound used }
{
    match (name_in(source, bound), name_in(source, used)) {
        (Some(name), Some(other)) => name == other,
        _ => false,
    }
}

/// Whether a source has names in spans that are all spelled like the one that it has in another span.
fn are_alike(source: &str, bound: SourceSpan, spans: &[SourceSpan]) -> bool
    requires { Slices source.now bound }
    ensures { IsTrue result ↔ All (IsAlike source.now bound) spans.now }
{
    for span in spans {
        if !is_alike(source, bound, *span) {
            return false;
        }
    }
    true
}

/// The name that is bound and used in these spans, if it is at an offset, and is spelled in each of them as where it is
/// bound. Names that are found always are: that is tested here, so that it needs no proof.
fn tied(
    source: &str,
    offset: usize,
    bound: SourceSpan,
    used: Vec<SourceSpan>,
) -> Option<Occurrences>
    ensures places { IfSome result (AreOccurrences source.now offset) }
    ensures kept { IsKept source.now offset bound used.items result }
{
    let at = at_of(offset, bound, used.as_slice());
    if touches(at, offset) && is_named(source, bound) && are_alike(source, bound, used.as_slice()) {
        Some(Occurrences { at, bound, used })
    } else {
        None
    }
}

/// Where an offset of a source is in what was read of it.
pub(crate) fn inner(reading: &Reading, offset: usize) -> usize
    ensures { result ≡ inner (read_of reading.now).skip offset }
{
    offset.saturating_add(reading.skip)
}

/// The name at an offset of a source, by the names of what was read of it.
pub(crate) fn occurrences_in(
    alloc: Global,
    reading: &Reading,
    source: &str,
    offset: usize,
) -> Result<Option<Occurrences>, AllocError>
    ensures places { IfOk result (λ found. IfSome found (AreOccurrences source.now offset)) }
    ensures found { IfOk result (λ found. IsFoundBy source.now offset (read_of reading.now) found) }
{
    let within = inner(reading, offset);
    let Some(name) = reading.names.definition_at(within) else {
        return Ok(None);
    };
    let bound = back(reading.skip, name.span);
    let used = reading.names.references_at(alloc, within)?;
    let used = all_back(alloc, reading.skip, used.as_slice())?;
    Ok(tied(source, offset, bound, used))
}

/// The name at an offset, if a name that the document binds is there or ends there. Offsets and spans are in bytes. Names
/// in faulty statements are passed over, and there is none where more of these are than are blanked: 16 to 100, as the
/// text is long or short. The error is that memory ran out.
#[tactic(auto, using(crate::proofs::Finding::nothing_found))]
pub fn occurrences_at(
    alloc: Global,
    source: &str,
    offset: usize,
) -> Result<Option<Occurrences>, AllocError>
    // One of its places is at the offset. Each lies in the source, where it is spelled as where it is bound.
    ensures places { IfOk result (λ found. IfSome found (AreOccurrences source.now offset)) }
    // It is the name that `definition_at` and `references_at` of `wac_names` find in what is read of the source. None is
    // found only where these find none, where nothing is read, or where the places aren't as above.
    ensures found { IfOk result (λ found. IsFoundAt source.now offset found) }
{
    match read(alloc, source)? {
        Some(reading) => occurrences_in(alloc, &reading, source, offset),
        None => Ok(None),
    }
}

/// Where the name at an offset is bound, if there is one. The error is that memory ran out.
#[tactic(auto, using(crate::proofs::Spans::bound_at, crate::proofs::Spans::unbound))]
pub fn definition_at(
    alloc: Global,
    source: &str,
    offset: usize,
) -> Result<Option<SourceSpan>, AllocError>
    // It lies in the source.
    ensures slices { IfOk result (λ found. IfSome found (Slices source.now)) }
    // It is where `occurrences_at` finds the name bound: there is none only where that finds none.
    ensures bound { IfOk result (λ found. IsBoundAt source.now offset found) }
{
    match occurrences_at(alloc, source, offset)? {
        Some(found) => Ok(Some(found.bound)),
        None => Ok(None),
    }
}

/// Where the name at an offset is used: nowhere where there is none. The error is that memory ran out.
#[tactic(auto, using(crate::proofs::Spans::uses_lie_in, crate::proofs::Spans::used_at, crate::proofs::Spans::unused))]
pub fn references_at(
    alloc: Global,
    source: &str,
    offset: usize,
) -> Result<Vec<SourceSpan>, AllocError>
    // Each lies in the source.
    ensures slices { IfOk result (λ all. All (Slices source.now) all.items) }
    // They are those that `occurrences_at` finds: there are none where that finds no name.
    ensures used { IfOk result (λ all. AreUsesAt source.now offset all.items) }
{
    match occurrences_at(alloc, source, offset)? {
        Some(found) => Ok(found.used),
        None => Ok(Vec::new(alloc)),
    }
}
