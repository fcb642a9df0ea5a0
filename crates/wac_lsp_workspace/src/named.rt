//! What of a package a text names at an offset.
use crate::kinds::accepted;
use std::alloc::{AllocError, Global};
use wac_graph::PackageKey;
use wac_lexer::{Lexer, SourceSpan, Token};

/// What of a package a text names.
#[derive(Clone, Copy)]
pub(crate) struct Named<'t> {
    /// The package's name, without its version.
    pub(crate) package: &'t str,
    pub(crate) version: Option<&'t str>,
    /// The names that lead to what is named, with `/` between them: none where it is the package.
    pub(crate) segments: &'t str,
    /// What is named within that.
    pub(crate) item: Option<&'t str>,
}

/// The text of a span.
pub(crate) fn text_at(text: &str, span: SourceSpan) -> &str {
    let end = span.offset().saturating_add(span.len());
    text.get(span.offset()..end).unwrap_or("")
}

/// Whether an offset is at a span, or just after it.
pub(crate) fn is_at(span: SourceSpan, offset: usize) -> bool {
    span.offset() <= offset && offset <= span.offset().saturating_add(span.len())
}

/// Where the segment ends in which an offset is, of names with `/` between them.
fn segment_end(names: &str, offset: usize) -> usize {
    match names.get(offset..) {
        Some(rest) => match rest.find('/') {
            Some(more) => offset.saturating_add(more),
            None => names.len(),
        },
        None => names.len(),
    }
}

/// What a path names at an offset in it: what its segments up to there lead to, or its package.
pub(crate) fn named_in(path: &str, offset: usize) -> Named<'_> {
    let (names, version) = match path.split_once('@') {
        Some((names, version)) => (names, Some(version)),
        None => (path, None),
    };
    let (package, segments) = match names.split_once('/') {
        Some((package, segments)) => (package, segments),
        None => (names, ""),
    };
    let is_package = offset <= package.len() || names.len() < offset;
    let before = package.len().saturating_add(1);
    let end = segment_end(segments, offset.saturating_sub(before));
    Named {
        package,
        version,
        segments: if is_package {
            ""
        } else {
            segments.get(..end).unwrap_or("")
        },
        item: None,
    }
}

/// Goes over the tokens of a text up to an offset.
#[derive(Clone, Copy)]
struct Finder<'t> {
    text: &'t str,
    offset: usize,
    before: Token,
    /// The path of the `use` whose names come.
    used: Option<SourceSpan>,
}

impl<'t> Finder<'t> {
    /// What is named at a path or a package's name, if the offset is there.
    fn take_path(&mut self, span: SourceSpan) -> Option<Named<'t>> {
        if self.before == Token::UseKeyword {
            self.used = Some(span);
        }
        if !is_at(span, self.offset) {
            return None;
        }
        let within = self.offset.saturating_sub(span.offset());
        Some(named_in(text_at(self.text, span), within))
    }

    /// What is named at a name that is used of an interface, if the offset is there. The name that it gets is local.
    fn take_name(&self, span: SourceSpan) -> Option<Named<'t>> {
        if self.before == Token::AsKeyword || !is_at(span, self.offset) {
            return None;
        }
        let mut named = whole(text_at(self.text, self.used?));
        named.item = Some(text_at(self.text, span));
        Some(named)
    }

    /// Takes the next token.
    fn take(&mut self, token: Token, span: SourceSpan) -> Option<Named<'t>> {
        let found = match token {
            Token::PackageName | Token::PackagePath => self.take_path(span),
            Token::Ident => self.take_name(span),
            Token::CloseBrace | Token::Semicolon => {
                self.used = None;
                None
            }
            _ => None,
        };
        self.before = token;
        found
    }
}

/// All segments of a path.
pub(crate) fn segments_of(path: &str) -> &str {
    let names = match path.split_once('@') {
        Some((names, _)) => names,
        None => path,
    };
    match names.split_once('/') {
        Some((_, segments)) => segments,
        None => "",
    }
}

/// What a whole path names.
pub(crate) fn whole(path: &str) -> Named<'_> {
    let mut named = named_in(path, path.len());
    named.segments = segments_of(path);
    named
}

/// What of a package a text names at an offset, by its tokens up to its first rejected character.
pub(crate) fn named_at(text: &str, offset: usize) -> Option<Named<'_>> {
    let mut finder = Finder {
        text,
        offset,
        before: Token::Semicolon,
        used: None,
    };
    let Ok(mut lexer) = Lexer::new(accepted(text)) else {
        return None;
    };
    while let Some((item, span)) = lexer.next() {
        if let Ok(token) = item {
            let found = finder.take(token, span);
            if found.is_some() {
                return found;
            }
        }
    }
    None
}

impl Named<'_> {
    /// The key of the package.
    pub(crate) fn key(&self, alloc: Global) -> Result<PackageKey, AllocError> {
        let name = String::from_str(alloc, self.package)?;
        match self.version {
            Some(version) => Ok(PackageKey {
                name,
                version: Some(String::from_str(alloc, version)?),
            }),
            None => Ok(PackageKey {
                name,
                version: None,
            }),
        }
    }
}
