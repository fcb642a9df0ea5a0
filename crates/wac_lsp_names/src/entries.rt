//! What the scopes of a document have: which names can't be bound a second time.
use crate::bodies::owner_around;
use crate::exports::{Export, export_at, exported_expression, spread_expression, written_name};
use crate::includes::push_included;
use crate::lexed::{is_before, is_token, opener_of};
use crate::origins::{Origin, import_parts, is_written_out, origin_of};
use crate::reading::Reading;
use std::alloc::{AllocError, Global};
use wac_lexer::Token;
use wac_names::{Kind, Name};

/// A list of a scope: two names of one list can't be spelled alike.
#[derive(Clone, Copy, PartialEq, Eq)]
pub(crate) enum Side {
    /// What identifiers within the scope denote.
    Names,
    /// What a world imports.
    Imports,
    /// What a document, an interface or a world exports.
    Exports,
    /// Fields, cases and flags of a type, and methods of a resource.
    Parts,
    /// Parameters of a function.
    Parameters,
    /// Results of a function.
    Results,
}

/// The lists in which a name is: one or two.
#[derive(Clone, Copy)]
struct Sides {
    first: Side,
    second: Option<Side>,
}

impl Sides {
    /// One list.
    fn one(side: Side) -> Sides {
        Sides {
            first: side,
            second: None,
        }
    }

    /// Two lists.
    fn both(first: Side, second: Side) -> Sides {
        Sides {
            first,
            second: Some(second),
        }
    }
}

/// A name of a scope.
#[derive(Clone, Copy)]
pub(crate) struct Entry<'r> {
    /// The number of the name in whose declaration it is; none at root.
    pub(crate) scope: Option<usize>,
    /// In which list of the scope it is.
    pub(crate) side: Side,
    pub(crate) word: &'r str,
    /// The number of the name that it is, if it is one.
    pub(crate) number: Option<usize>,
}

/// In which lists a type is that is declared or used in the declaration of this kind.
fn sides_of_type(container: Option<Kind>) -> Sides {
    match container {
        Some(Kind::World) => Sides::both(Side::Names, Side::Imports),
        _ => Sides::both(Side::Names, Side::Exports),
    }
}

/// In which lists a name of this kind is in the declaration of that kind. The side of what is included isn't told.
fn sides_of(kind: Kind, container: Option<Kind>) -> Sides {
    match kind {
        Kind::Import | Kind::Let => Sides::one(Side::Names),
        Kind::Interface | Kind::World => Sides::both(Side::Names, Side::Exports),
        Kind::Alias
        | Kind::Resource
        | Kind::Variant
        | Kind::Record
        | Kind::Flags
        | Kind::Enum
        | Kind::UsedType => sides_of_type(container),
        Kind::Function | Kind::WorldExport => Sides::one(Side::Exports),
        Kind::WorldImport => Sides::one(Side::Imports),
        Kind::IncludedItem => Sides::both(Side::Imports, Side::Exports),
        Kind::Case | Kind::Field | Kind::Flag | Kind::Method => Sides::one(Side::Parts),
        Kind::Parameter => Sides::one(Side::Parameters),
        Kind::NamedResult => Sides::one(Side::Results),
    }
}

/// Adds a name of a scope.
pub(crate) fn push_entry<'r>(
    entries: &mut Vec<Entry<'r>>,
    entry: Entry<'r>,
) -> Result<(), AllocError> {
    match entries.push(entry) {
        Ok(()) => Ok(()),
        Err(_) => Err(AllocError),
    }
}

/// Adds a name to the lists in which it is: the entry is that in the first.
fn push_each<'r>(
    entries: &mut Vec<Entry<'r>>,
    entry: Entry<'r>,
    second: Option<Side>,
) -> Result<(), AllocError> {
    push_entry(entries, entry)?;
    match second {
        Some(side) => push_entry(entries, Entry { side, ..entry }),
        None => Ok(()),
    }
}

/// What binds the name in whose declaration another one is.
fn container_kind(reading: &Reading, scope: Option<usize>) -> Option<Kind> {
    reading.kind(scope?)
}

/// Adds a name where it is bound.
fn push_name<'r>(
    reading: &'r Reading,
    entries: &mut Vec<Entry<'r>>,
    number: usize,
    name: &Name,
) -> Result<(), AllocError> {
    let sides = sides_of(name.kind, container_kind(reading, name.container));
    let entry = Entry {
        scope: name.container,
        side: sides.first,
        word: reading.word(name.span),
        number: Some(number),
    };
    push_each(entries, entry, sides.second)
}

/// Adds the names where they are bound.
fn push_bound<'r>(reading: &'r Reading, entries: &mut Vec<Entry<'r>>) -> Result<(), AllocError> {
    for (number, name) in reading.names.bindings.iter().enumerate() {
        push_name(reading, entries, number, name)?;
    }
    Ok(())
}

/// Whether an identifier is that of a type in `use` which has the same name here.
fn is_used_itself(reading: &Reading, token: usize) -> bool {
    let tokens = reading.tokens.as_slice();
    let is_renamed = is_token(tokens, token.saturating_add(1), Token::AsKeyword);
    let is_new = is_before(tokens, token, Token::AsKeyword);
    match opener_of(tokens, token) {
        Some(opener) => !is_renamed && !is_new && is_before(tokens, opener, Token::Dot),
        None => false,
    }
}

/// The number of the type of the document that a token uses under its own name, if it is such a one.
fn used_at(reading: &Reading, token: usize) -> Option<usize> {
    if !is_token(reading.tokens.as_slice(), token, Token::Ident)
        || !is_used_itself(reading, token)
    {
        return None;
    }
    reading.mentioned_by(token)
}

/// The number of the name in whose body a `use` is that has a token in its braces.
fn user_of(reading: &Reading, token: usize) -> Option<usize> {
    owner_around(reading, opener_of(reading.tokens.as_slice(), token)?)
}

/// Adds a type of the document in the body that uses it, if a token is one.
fn push_used_at<'r>(
    reading: &'r Reading,
    entries: &mut Vec<Entry<'r>>,
    token: usize,
) -> Result<(), AllocError> {
    let Some(number) = used_at(reading, token) else {
        return Ok(());
    };
    let Some(scope) = user_of(reading, token) else {
        return Ok(());
    };
    let sides = sides_of_type(reading.kind(scope));
    let entry = Entry {
        scope: Some(scope),
        side: sides.first,
        word: reading.token_word(token),
        number: Some(number),
    };
    push_each(entries, entry, sides.second)
}

/// Adds the types of the document in the bodies that use them.
fn push_used<'r>(reading: &'r Reading, entries: &mut Vec<Entry<'r>>) -> Result<(), AllocError> {
    for token in 0..reading.tokens.len() {
        push_used_at(reading, entries, token)?;
    }
    Ok(())
}

/// The number of the name whose scope is after an import.
fn scope_of_import(reading: &Reading, number: usize) -> Option<usize> {
    let parts = import_parts(reading, number)?;
    if is_written_out(reading, parts.ty) {
        Some(number)
    } else {
        reading.mentioned_by(parts.ty)
    }
}

/// The number of the name whose scope is after a value.
pub(crate) fn scope_of(reading: &Reading, from: Origin) -> Option<usize> {
    match from {
        Origin::Bound(number) if reading.kind(number) == Some(Kind::Import) => {
            scope_of_import(reading, number)
        }
        _ => None,
    }
}

/// The name under which something is exported that has none after `as`, if the document says it.
fn inferred_name(reading: &Reading, from: Origin) -> Option<&str> {
    match from {
        Origin::Access(token) => Some(reading.token_word(token)),
        Origin::Bound(number) if reading.kind(number) == Some(Kind::Import) => {
            match import_parts(reading, number)?.named {
                Some(token) => Some(reading.token_word(token)),
                None => Some(reading.word(reading.name(number)?.span)),
            }
        }
        _ => None,
    }
}

/// The name of an export, if the document says it.
fn export_name(reading: &Reading, export: Export) -> Option<&str> {
    let tokens = reading.tokens.as_slice();
    match written_name(tokens, export) {
        Some(token) => Some(reading.token_word(token)),
        None => inferred_name(
            reading,
            origin_of(reading, exported_expression(tokens, export)?),
        ),
    }
}

/// Adds what an interface exports to the exports of the document.
fn push_spread<'r>(scope: usize, entries: &mut Vec<Entry<'r>>) -> Result<(), AllocError> {
    for at in 0..entries.len() {
        match entries.get(at).copied() {
            Some(entry) if entry.scope == Some(scope) && entry.side == Side::Exports => {
                push_entry(entries, exported(entry.word))?;
            }
            _ => {}
        }
    }
    Ok(())
}

/// An entry of an export of the document.
fn exported(word: &str) -> Entry<'_> {
    Entry {
        scope: None,
        side: Side::Exports,
        word,
        number: None,
    }
}

/// Adds what an export exports.
fn push_export<'r>(
    reading: &'r Reading,
    export: Export,
    entries: &mut Vec<Entry<'r>>,
) -> Result<(), AllocError> {
    if let Some(word) = export_name(reading, export) {
        return push_entry(entries, exported(word));
    }
    let Some(spread) = spread_expression(reading.tokens.as_slice(), export) else {
        return Ok(());
    };
    match scope_of(reading, origin_of(reading, spread)) {
        Some(scope) => push_spread(scope, entries),
        None => Ok(()),
    }
}

/// Adds what the document exports.
fn push_exports<'r>(reading: &'r Reading, entries: &mut Vec<Entry<'r>>) -> Result<(), AllocError> {
    let tokens = reading.tokens.as_slice();
    for (number, lexed) in tokens.iter().enumerate() {
        if lexed.token == Token::Semicolon {
            if let Some(export) = export_at(tokens, number) {
                push_export(reading, export, entries)?;
            }
        }
    }
    Ok(())
}

/// What the scopes of a document have.
pub(crate) fn entries_of(alloc: Global, reading: &Reading) -> Result<Vec<Entry<'_>>, AllocError> {
    let mut entries = Vec::new(alloc);
    push_bound(reading, &mut entries)?;
    push_used(reading, &mut entries)?;
    push_included(reading, &mut entries)?;
    push_exports(reading, &mut entries)?;
    Ok(entries)
}
