//! The edit that each token needs where a name gets another one.
use crate::edits::{Around, Edit, edit_at};
use crate::exports::{export_at, exported_expression};
use crate::lexed::{end_of, is_before, is_token, opener_of};
use crate::origins::{Origin, import_parts, is_written_out, origin_of, origin_of_token};
use crate::reading::Reading;
use crate::refusals::{RenameError, Stopped};
use crate::spelling::{identifier, short_name};
use std::alloc::{AllocError, Global};
use wac_lexer::{SourceSpan, Token};
use wac_names::Kind;

/// A name that is to get another one.
#[derive(Clone, Copy)]
pub(crate) struct Renaming<'r> {
    pub(crate) reading: &'r Reading,
    /// The number of the name.
    pub(crate) number: usize,
    pub(crate) old: &'r str,
    pub(crate) new: &'r str,
    /// Where it is bound and used, in the order of the text.
    pub(crate) occurrences: &'r [usize],
}

/// Nothing around a name.
const PLAIN: Around<'static> = Around {
    before: "",
    after: "",
};

/// Whether an identifier is an argument that stands alone.
fn is_lone_argument(reading: &Reading, token: usize) -> bool {
    let tokens = reading.tokens.as_slice();
    let next = token.saturating_add(1);
    let begins = is_before(tokens, token, Token::OpenBrace)
        || is_before(tokens, token, Token::Comma);
    let ends = is_token(tokens, next, Token::CloseBrace) || is_token(tokens, next, Token::Comma);
    match opener_of(tokens, token) {
        Some(opener) => begins && ends && is_before(tokens, opener, Token::PackageName),
        None => false,
    }
}

/// Adds an edit.
fn push_edit(edits: &mut Vec<Edit>, edit: Edit) -> Result<(), AllocError> {
    match edits.push(edit) {
        Ok(()) => Ok(()),
        Err(_) => Err(AllocError),
    }
}

impl Renaming<'_> {
    /// Whether the name is bound or used at an offset.
    fn is_at(&self, offset: usize) -> bool {
        self.occurrences.binary_search(&offset).is_ok()
    }

    /// Whether a token is the name, or has it between its quotes.
    fn is_token(&self, token: usize) -> bool {
        match self.reading.tokens.get(token) {
            Some(lexed) if lexed.token == Token::String => {
                self.is_at(lexed.span.offset().saturating_add(1))
            }
            Some(lexed) => self.is_at(lexed.span.offset()),
            None => false,
        }
    }

    /// Whether a value is an export that is accessed by the name.
    fn is_accessed(&self, origin: Origin) -> bool {
        match origin {
            Origin::Access(token) => self.is_token(token),
            _ => false,
        }
    }

    /// Whether what a lone argument stands for can be found by no other name than the old one.
    fn is_found_by_old(&self, origin: Origin) -> bool {
        match origin {
            Origin::New | Origin::Unknown => true,
            Origin::Access(token) => short_name(self.reading.token_word(token)) == self.old,
            Origin::Bound(number) => match self.reading.kind(number) {
                Some(Kind::Import) => self.is_import_found_by_old(number),
                _ => true,
            },
        }
    }

    /// The same of an import: what it is called by others, and the id that it may have.
    fn is_import_found_by_old(&self, number: usize) -> bool {
        let Some(parts) = import_parts(self.reading, number) else {
            return false;
        };
        let is_named_so = match parts.named {
            Some(token) => short_name(self.reading.token_word(token)) == self.old,
            None => true,
        };
        let has_other_id = !self.has_no_id(parts.ty)
            && short_name(self.reading.token_word(parts.ty)) != self.old;
        is_named_so && !has_other_id
    }

    /// Whether a type of an import is written out or an alias: then it has no id.
    fn has_no_id(&self, ty: usize) -> bool {
        if is_written_out(self.reading, ty) {
            return true;
        }
        let is_identifier = is_token(self.reading.tokens.as_slice(), ty, Token::Ident);
        match self.reading.mentioned_by(ty) {
            Some(number) => is_identifier && self.reading.kind(number) == Some(Kind::Alias),
            None => false,
        }
    }

    /// The edit of an argument that stands alone.
    fn lone_argument(&self, alloc: Global, token: usize) -> Result<Option<Edit>, Stopped> {
        let from = origin_of_token(self.reading, token);
        let is_own = self.is_token(token);
        if !is_own && !self.is_accessed(from) {
            return Ok(None);
        }
        let word = self.reading.token_word(token);
        if word != self.old || !self.is_found_by_old(from) {
            return Err(Stopped::Refused(RenameError::ArgumentName));
        }
        let old = identifier(alloc, self.old)?;
        let before = format!(in alloc; "{old}: ")?;
        let around = Around {
            before: before.as_str(),
            after: "",
        };
        self.put(alloc, token, is_own, around)
    }

    /// An edit that puts the new or the old name in the place of an identifier.
    fn put(
        &self,
        alloc: Global,
        token: usize,
        renames: bool,
        around: Around<'_>,
    ) -> Result<Option<Edit>, Stopped> {
        let Some(lexed) = self.reading.tokens.get(token) else {
            return Ok(None);
        };
        let name = identifier(alloc, if renames { self.new } else { self.old })?;
        Ok(Some(edit_at(alloc, lexed.span, name.as_str(), renames, around)?))
    }

    /// An edit that puts the new name in the place of an identifier, and keeps the old one after `as` after it.
    fn put_as_old(&self, alloc: Global, token: usize) -> Result<Option<Edit>, Stopped> {
        let old = identifier(alloc, self.old)?;
        let after = format!(in alloc; " as {old}")?;
        let around = Around {
            before: "",
            after: after.as_str(),
        };
        self.put(alloc, token, true, around)
    }

    /// Whether an import of what an identifier stands for has no other name than its own identifier. The import of an
    /// instance with an id is named by the id.
    fn is_named_by_itself(&self, ty: usize) -> Option<bool> {
        if is_written_out(self.reading, ty) {
            return Some(true);
        }
        if is_token(self.reading.tokens.as_slice(), ty, Token::PackagePath) {
            return Some(false);
        }
        match origin_of_token(self.reading, ty) {
            Origin::New | Origin::Unknown => Some(true),
            Origin::Access(_) => None,
            Origin::Bound(number) if self.reading.kind(number) == Some(Kind::Import) => {
                let parts = import_parts(self.reading, number)?;
                if is_written_out(self.reading, parts.ty) {
                    Some(true)
                } else {
                    None
                }
            }
            Origin::Bound(_) => Some(true),
        }
    }

    /// The edit of an import's identifier.
    fn import(&self, alloc: Global, token: usize) -> Result<Option<Edit>, Stopped> {
        let Some(parts) = import_parts(self.reading, self.number) else {
            return Ok(None);
        };
        if parts.named.is_some() {
            return self.put(alloc, token, true, PLAIN);
        }
        match self.is_named_by_itself(parts.ty) {
            Some(true) => self.put_as_old(alloc, token),
            Some(false) => self.put(alloc, token, true, PLAIN),
            None => Err(Stopped::Refused(RenameError::ImportName)),
        }
    }

    /// The edit of a type's name in `use` where it is bound: the name in the other package stays.
    fn used_type(&self, alloc: Global, token: usize) -> Result<Option<Edit>, Stopped> {
        if is_before(self.reading.tokens.as_slice(), token, Token::AsKeyword) {
            return self.put(alloc, token, true, PLAIN);
        }
        let old = identifier(alloc, self.old)?;
        let before = format!(in alloc; "{old} as ")?;
        let around = Around {
            before: before.as_str(),
            after: "",
        };
        self.put(alloc, token, true, around)
    }

    /// Whether a token is where the name is bound.
    fn is_binding(&self, token: usize) -> bool {
        self.reading.token_of(self.number) == Some(token)
    }

    /// The edit of an identifier, if it needs one.
    fn identifier(&self, alloc: Global, token: usize) -> Result<Option<Edit>, Stopped> {
        if is_lone_argument(self.reading, token) {
            return self.lone_argument(alloc, token);
        }
        if !self.is_token(token) {
            return Ok(None);
        }
        if !self.is_binding(token) {
            return self.put(alloc, token, true, PLAIN);
        }
        match self.reading.kind(self.number) {
            Some(Kind::Import) => self.import(alloc, token),
            Some(Kind::UsedType) => self.used_type(alloc, token),
            _ => self.put(alloc, token, true, PLAIN),
        }
    }

    /// The edit of a text in quotes, if it needs one.
    fn quoted(&self, alloc: Global, token: usize) -> Result<Option<Edit>, Stopped> {
        let Some(lexed) = self.reading.tokens.get(token) else {
            return Ok(None);
        };
        let start = lexed.span.offset().saturating_add(1);
        if !self.is_at(start) {
            return Ok(None);
        }
        let span = SourceSpan::new(start, lexed.span.len().saturating_sub(2));
        Ok(Some(edit_at(alloc, span, self.new, true, PLAIN)?))
    }

    /// The edit of the export that a semicolon ends, if it needs one: where it has the name of what is accessed by the
    /// old name, it keeps that name.
    fn export(&self, alloc: Global, semicolon: usize) -> Result<Option<Edit>, Stopped> {
        let tokens = self.reading.tokens.as_slice();
        let Some(export) = export_at(tokens, semicolon) else {
            return Ok(None);
        };
        let Some(expression) = exported_expression(tokens, export) else {
            return Ok(None);
        };
        if !self.is_accessed(origin_of(self.reading, expression)) {
            return Ok(None);
        }
        let Some(last) = tokens.get(semicolon.saturating_sub(1)) else {
            return Ok(None);
        };
        let old = identifier(alloc, self.old)?;
        let after = format!(in alloc; " as {old}")?;
        let span = SourceSpan::new(end_of(last.span), 0);
        let around = Around {
            before: "",
            after: after.as_str(),
        };
        Ok(Some(edit_at(alloc, span, "", false, around)?))
    }

    /// The edit of a token, if it needs one.
    fn token(&self, alloc: Global, token: usize) -> Result<Option<Edit>, Stopped> {
        match self.reading.tokens.get(token) {
            Some(lexed) => match lexed.token {
                Token::Ident => self.identifier(alloc, token),
                Token::String => self.quoted(alloc, token),
                Token::Semicolon => self.export(alloc, token),
                _ => Ok(None),
            },
            None => Ok(None),
        }
    }

    /// Adds the edits of the segments of a path.
    fn push_segments(
        &self,
        alloc: Global,
        path: SourceSpan,
        edits: &mut Vec<Edit>,
    ) -> Result<(), Stopped> {
        for offset in self.occurrences {
            if path.offset() <= *offset && *offset < end_of(path) {
                let span = SourceSpan::new(*offset, self.old.len());
                push_edit(edits, edit_at(alloc, span, self.new, true, PLAIN)?)?;
            }
        }
        Ok(())
    }

    /// Adds the edits of a token.
    fn push(&self, alloc: Global, token: usize, edits: &mut Vec<Edit>) -> Result<(), Stopped> {
        match self.reading.tokens.get(token) {
            Some(lexed) if lexed.token == Token::PackagePath => {
                return self.push_segments(alloc, lexed.span, edits);
            }
            _ => {}
        }
        if let Some(edit) = self.token(alloc, token)? {
            push_edit(edits, edit)?;
        }
        Ok(())
    }

    /// The edits, in the order of the text.
    pub(crate) fn edits(&self, alloc: Global) -> Result<Vec<Edit>, Stopped> {
        let mut edits = Vec::new(alloc);
        for token in 0..self.reading.tokens.len() {
            self.push(alloc, token, &mut edits)?;
        }
        Ok(edits)
    }
}
