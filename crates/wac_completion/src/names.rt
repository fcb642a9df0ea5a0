//! Which names can stand at an offset.
ghost use Rattle.std.specs.Prelude.{All, IfOk};
ghost use Rattle.wac_completion.specs.Names.{IsWritten};

use crate::begun::can_follow;
use crate::closed::{Closed, close};
use crate::copies::{Copies, last_statement};
use crate::front::{Recovered, before, recover};
use crate::word::begins_with;
use crate::written::written;
use indexmap::IndexSet;
use std::alloc::{AllocError, Global};
use wac_lexer::{Lexer, SourceSpan, Token};
use wac_names::{Kind, Name, Names};

/// A name that can stand at an offset.
#[derive(Clone, Copy)]
pub struct Candidate {
    /// Where it is bound, in bytes of the source.
    pub span: SourceSpan,
    /// What binds it.
    pub kind: Kind,
}

impl Candidate {
    /// The name as a text has it in its span.
    pub(crate) fn text_in<'t>(&self, text: &'t str) -> &'t str {
        text_of(text, self.span)
    }
}

/// Whether an identifier can stand for a name of a kind.
fn is_for_identifiers(kind: Kind) -> bool {
    !matches!(
        kind,
        Kind::Case | Kind::Field | Kind::Flag | Kind::Parameter | Kind::NamedResult
    )
}

/// Whether `use` can take a name of a kind from an interface.
fn is_type(kind: Kind) -> bool {
    matches!(
        kind,
        Kind::Alias
            | Kind::Resource
            | Kind::Variant
            | Kind::Record
            | Kind::Flags
            | Kind::Enum
            | Kind::UsedType
    )
}

/// What a text has in a span. It is empty where the span isn't one of the text.
pub(crate) fn text_of(text: &str, span: SourceSpan) -> &str {
    let end = span.offset().saturating_add(span.len());
    text.get(span.offset()..end).unwrap_or("")
}

/// Whether a text ends in the braces of a `use`.
fn ends_in_use(text: &str) -> bool {
    let Ok(mut lexer) = Lexer::new(text) else {
        return false;
    };
    let mut is_inside = false;
    let mut is_after_dot = false;
    while let Some((item, _)) = lexer.next() {
        match item {
            Ok(Token::OpenBrace) => is_inside = is_after_dot,
            Ok(Token::CloseBrace) => is_inside = false,
            _ => {}
        }
        is_after_dot = matches!(item, Ok(Token::Dot));
    }
    is_inside
}

/// Whether a name may be one that can stand at an offset: an identifier before it that begins with a word.
fn is_before(name: &Name, spelled: &str, at: usize, word: &str) -> bool {
    name.span.offset() < at && is_for_identifiers(name.kind) && begins_with(spelled, word)
}

/// Those of the names of a closed text that are bound before its identifier and begin with a word, each spelling once.
fn spelled_before(
    alloc: Global,
    closed: &Closed,
    names: &[Name],
    word: &str,
) -> Result<Vec<Candidate>, AllocError> {
    let text = closed.text.as_str();
    let mut spellings: IndexSet<&str> = IndexSet::new(alloc);
    let mut found = Vec::new(alloc);
    for name in names {
        let spelled = text_of(text, name.span);
        if is_before(name, spelled, closed.at, word) && spellings.insert(spelled)? {
            found.push(Candidate {
                span: name.span,
                kind: name.kind,
            })?;
        }
    }
    Ok(found)
}

/// The names that can stand at an offset.
#[derive(Drop)]
pub(crate) struct Found {
    /// The names, in the order of the text.
    pub all: Vec<Candidate>,
    /// Whether none was left out since there are too many.
    pub is_complete: bool,
}

/// How many bytes copies of a statement may have together.
const MOST_BYTES: usize = 2097152;

/// How many copies of a statement of so many bytes are made at most.
fn most_copies(length: usize) -> usize {
    match MOST_BYTES.checked_div(length) {
        Some(count) => count.max(1),
        None => MOST_BYTES,
    }
}

/// The last names of a list, so many at most.
fn last_names(names: &[Candidate], most: usize) -> &[Candidate] {
    names
        .get(names.len().saturating_sub(most)..)
        .unwrap_or(names)
}

/// Those of some names that can stand in the place of the identifier of a closed text: each is put there, in a copy of
/// the statement, and looked up by the rules of names.
fn standing(alloc: Global, closed: &Closed, names: &[Candidate]) -> Result<Found, AllocError> {
    let text = closed.text.as_str();
    let start = last_statement(text.get(..closed.at).unwrap_or(""));
    let tried = last_names(names, most_copies(text.len().saturating_sub(start)));
    let is_complete = tried.len() == names.len();
    let copies = Copies::new(alloc, closed, start, tried)?;
    let all = match Names::of_text(alloc, copies.text.as_str())? {
        Some(names) => copies.candidates(alloc, &names)?,
        None => Vec::new(alloc),
    };
    Ok(Found { all, is_complete })
}

/// Those of the names of a closed text that begin with a word and can stand in the place of its identifier.
fn candidates(
    alloc: Global,
    closed: &Closed,
    names: &[Name],
    word: &str,
) -> Result<Found, AllocError> {
    let spelled = spelled_before(alloc, closed, names, word)?;
    if spelled.is_empty() {
        return no_names(alloc);
    }
    standing(alloc, closed, &spelled)
}

/// No names.
fn no_names(alloc: Global) -> Result<Found, AllocError> {
    Ok(Found {
        all: Vec::new(alloc),
        is_complete: true,
    })
}

/// The names that begin with a word and can stand after a text, where an identifier can.
fn names_at_end(alloc: Global, text: &str, word: &str) -> Result<Found, AllocError> {
    let Some(closed) = close(alloc, text)? else {
        return no_names(alloc);
    };
    match Names::of_text(alloc, closed.text.as_str())? {
        Some(names) => {
            let mut found = candidates(alloc, &closed, &names.bindings, word)?;
            if ends_in_use(text) {
                found.all.retain(|candidate| is_type(candidate.kind));
            }
            Ok(found)
        }
        None => no_names(alloc),
    }
}

/// Names of a text that has so many bytes more in front than the source, with their places in the source.
fn moved_back(alloc: Global, names: &[Candidate], by: usize) -> Result<Vec<Candidate>, AllocError> {
    let mut all = Vec::new(alloc);
    for name in names {
        let start = name.span.offset().saturating_sub(by);
        all.push(Candidate {
            span: SourceSpan::new(start, name.span.len()),
            kind: name.kind,
        })?;
    }
    Ok(all)
}

/// The names that begin with a word and can stand after a recovered text, with their places in the source.
pub(crate) fn names_after(
    alloc: Global,
    recovered: &Recovered,
    source: &str,
    word: &str,
) -> Result<Found, AllocError>
    ensures { IfOk result (λ found. All (IsWritten source.now) found.all.items) }
{
    let text = recovered.text();
    let found = if can_follow(alloc, text, Token::Ident)? {
        names_at_end(alloc, text, word)?
    } else {
        no_names(alloc)?
    };
    let moved = moved_back(alloc, &found.all, recovered.skip())?;
    let all = written(alloc, source, &moved)?;
    let is_complete = found.is_complete;
    Ok(Found { all, is_complete })
}

/// The names that can stand at an offset: those that an identifier there would be looked up as, each once, in the order
/// of the text.
///
/// At root they are those that are bound before; in a body its own, and those of the root; after `x.` what `x` exports,
/// where the document declares it; and in the braces of a `use` the types of the interface. As for kinds, a word that
/// touches the offset is cut off, and statements with a fault before the offset are blanked; there are none in one that
/// has no end. Each name is looked up in a copy of the statement, and all copies are parsed at once: they have 2 MB
/// together at most, so where the statement is long, the names that are bound first are left out. The error is that
/// memory ran out.
pub fn names_at(alloc: Global, source: &str, offset: usize) -> Result<Vec<Candidate>, AllocError>
    ensures { IfOk result (λ found. All (IsWritten source.now) found.items) }
{
    let Some((text, _)) = before(source, offset) else {
        return Ok(Vec::new(alloc));
    };
    match recover(alloc, text)? {
        Some(recovered) => {
            let found = names_after(alloc, &recovered, source, "")?;
            Ok(found.all)
        }
        None => Ok(Vec::new(alloc)),
    }
}
