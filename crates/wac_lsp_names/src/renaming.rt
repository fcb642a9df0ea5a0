//! Giving a name another one.
ghost use Rattle.std.specs.Prelude.{◌≡◌, IfOk, IsPermutation, Some};
ghost use Rattle.wac_ast_grammar.specs.Tree.{without_percent};
ghost use Rattle.wac_names.specs.Places.{name_in};
ghost use Rattle.wac_lsp_names.specs.Edits.{IsGiven, IsGivenAt, Renames, offsets};
ghost use Rattle.wac_lsp_names.specs.Read.{IsRead, read_of};

use crate::applied::test_edits;
use crate::edits::Edit;
use crate::entries::entries_of;
use crate::forms::Renaming;
use crate::occurrences::{Occurrences, inner, occurrences_in};
use crate::reading::{Reading, read};
use crate::refusals::{RenameError, Stopped};
use crate::sound::{Change, are_sound};
use crate::spelling::name_fault;
use crate::taken::{is_blanked_word, scope_fault};
use std::alloc::{AllocError, Global};
use wac_names::{name_in, without_percent};

/// Where a name is bound and used, in the order of the text.
fn offsets_of(alloc: Global, found: &Occurrences) -> Result<Vec<usize>, AllocError>
    ensures { IfOk result (λ all. IsPermutation (offsets found.now) all.items) }
{
    let mut all = Vec::new(alloc);
    all.push(found.bound.offset())?;
    for span in &found.used {
        all.push(span.offset())?;
    }
    all.sort_unstable();
    Ok(all)
}

/// Tests that no faulty statement has the old or the new name. Without its directive a document's own paths are unknown.
fn test_faulty(reading: &Reading, change: &Change<'_>) -> Result<(), RenameError> {
    let left = reading.text.as_str();
    if reading.skip != 0
        || is_blanked_word(change.source, left, change.old)
        || is_blanked_word(change.source, left, change.new)
    {
        return Err(RenameError::Faulty);
    }
    Ok(())
}

/// The edits that give the name of a number another one, which is bound and used at these offsets.
fn edits_of(
    alloc: Global,
    reading: &Reading,
    number: usize,
    change: &Change<'_>,
    occurrences: &[usize],
) -> Result<Vec<Edit>, Stopped> {
    let entries = entries_of(alloc, reading)?;
    if let Some(fault) = scope_fault(reading, entries.as_slice(), number, change.new) {
        return Err(Stopped::Refused(fault));
    }
    let renaming = Renaming {
        reading,
        number,
        old: change.old,
        new: change.new,
        occurrences,
    };
    let edits = renaming.edits(alloc)?;
    test_edits(alloc, reading, edits.as_slice(), number)?;
    Ok(edits)
}

/// The edits that give a name another one, where they do that and nothing else.
fn renamed(
    alloc: Global,
    reading: &Reading,
    number: usize,
    change: &Change<'_>,
    found: &Occurrences,
) -> Result<Vec<Edit>, Stopped>
    requires { name_in change.now.source.now found.now.bound ≡ change.now.old.now }
    ensures { IfOk result (λ edits. Renames change.now.source.now change.now.new.now found.now edits.items) }
{
    let offsets = offsets_of(alloc, found)?;
    let edits = edits_of(alloc, reading, number, change, offsets.as_slice())?;
    if are_sound(alloc, change, edits.as_slice(), offsets.as_slice())? {
        Ok(edits)
    } else {
        Err(Stopped::Refused(RenameError::Unsure))
    }
}

/// The edits that give a name another one: none where it has that already.
#[tactic(auto, using(wac_lexer::proofs::Texts::bytes_eq_is))]
fn given(
    alloc: Global,
    reading: &Reading,
    number: usize,
    change: &Change<'_>,
    found: &Occurrences,
) -> Result<Vec<Edit>, Stopped>
    requires { name_in change.now.source.now found.now.bound ≡ change.now.old.now }
    ensures { IfOk result (λ edits. IsGiven change.now.source.now change.now.new.now found.now edits.items) }
{
    if let Some(fault) = name_fault(change.new) {
        return Err(Stopped::Refused(fault));
    }
    if change.old == change.new {
        return Ok(Vec::new(alloc));
    }
    test_faulty(reading, change)?;
    renamed(alloc, reading, number, change, found)
}

/// The edits that give the name at an offset another one, without `%`.
fn given_at(
    alloc: Global,
    reading: &Reading,
    source: &str,
    offset: usize,
    new: &str,
) -> Result<Vec<Edit>, Stopped>
    requires { IsRead source.now (Some (read_of reading.now)) }
    ensures { IfOk result (λ edits. IsGivenAt source.now offset new.now edits.items) }
{
    let Some(found) = occurrences_in(alloc, reading, source, offset)? else {
        return Err(Stopped::Refused(RenameError::NoName));
    };
    let Some(number) = reading.names.binding_at(inner(reading, offset)) else {
        return Err(Stopped::Refused(RenameError::NoName));
    };
    let Some(old) = name_in(source, found.bound) else {
        return Err(Stopped::Refused(RenameError::NoName));
    };
    let change = Change { source, old, new };
    given(alloc, reading, number, &change, &found)
}

/// The edits that give the name at an offset another one, which may be written with `%`, or why there are none. What
/// others see keeps its name: an import gets `as`, an argument a name before a colon, a type of another package `as` in
/// `use`. Names of items of interfaces and worlds, of types and their parts are what others see: they change in this
/// document, with all their uses. Edits are in the order of the text and apart, so they may be made from the last to the
/// first.
pub fn rename(alloc: Global, source: &str, offset: usize, new: &str) -> Result<Vec<Edit>, Stopped>
    // They put the new name just where the one at the offset is bound and used, and change nothing but that name and what
    // is beside it.
    ensures { IfOk result (λ edits. IsGivenAt source.now offset (without_percent new.now) edits.items) }
{
    match read(alloc, source)? {
        Some(reading) => given_at(alloc, &reading, source, offset, without_percent(new)),
        None => Err(Stopped::Refused(RenameError::Faulty)),
    }
}
