//! Where a document declares what is named of its package.
use crate::kinds::accepted;
use crate::named::{Named, text_at};
use wac_lexer::{Lexer, SourceSpan, Token};

/// Whether a token comes before the name of what is declared: a keyword, and before a function the end of what is before it.
fn declares(token: Token) -> bool {
    matches!(
        token,
        Token::OpenBrace
            | Token::CloseBrace
            | Token::Semicolon
            | Token::InterfaceKeyword
            | Token::WorldKeyword
            | Token::TypeKeyword
            | Token::ResourceKeyword
            | Token::VariantKeyword
            | Token::RecordKeyword
            | Token::FlagsKeyword
            | Token::EnumKeyword
    )
}

/// Goes over the tokens of a document.
#[derive(Clone, Copy)]
struct Search<'s> {
    text: &'s str,
    /// The name that is looked for: none where all are found.
    wanted: Option<&'s str>,
    /// The segments after it, with `/` between them.
    rest: &'s str,
    item: Option<&'s str>,
    braces: usize,
    /// How many braces are open around the name that is looked for.
    level: usize,
    is_declared: bool,
    found: Option<SourceSpan>,
}

/// A name without the mark of one that is a keyword too.
pub(crate) fn plain(name: &str) -> &str {
    name.strip_prefix('%').unwrap_or(name)
}

impl<'s> Search<'s> {
    /// Goes on to the next name.
    fn next(&mut self) {
        if self.rest.is_empty() {
            self.wanted = self.item;
            self.item = None;
            return;
        }
        match self.rest.split_once('/') {
            Some((first, rest)) => {
                self.wanted = Some(first);
                self.rest = rest;
            }
            None => {
                self.wanted = Some(self.rest);
                self.rest = "";
            }
        }
    }

    /// Takes a name: where it is the one that is looked for, the next one is within its braces.
    fn take_name(&mut self, span: SourceSpan) {
        if !self.is_declared || self.braces != self.level {
            return;
        }
        if let Some(wanted) = self.wanted {
            if plain(text_at(self.text, span)) == plain(wanted) {
                self.found = Some(span);
                self.level = self.level.saturating_add(1);
                self.next();
            }
        }
    }

    /// Takes the next token. Returns whether the search goes on.
    fn take(&mut self, token: Token, span: SourceSpan) -> bool {
        match token {
            Token::PackageName if self.found.is_none() && self.wanted.is_none() => {
                self.found = Some(span);
            }
            Token::OpenBrace => self.braces = self.braces.saturating_add(1),
            Token::CloseBrace => self.braces = self.braces.saturating_sub(1),
            Token::Ident => self.take_name(span),
            _ => {}
        }
        self.is_declared = declares(token);
        let has_left = token == Token::CloseBrace && self.braces < self.level;
        let has_all = self.found.is_some() && self.wanted.is_none();
        !has_left && !has_all
    }
}

/// Where a document has an item of a world of this name: the first one after a keyword, `import` or `export`.
pub(crate) fn item_after(text: &str, keyword: Token, name: &str) -> Option<SourceSpan> {
    let Ok(mut lexer) = Lexer::new(accepted(text)) else {
        return None;
    };
    let mut before = Token::Semicolon;
    while let Some((item, span)) = lexer.next() {
        if let Ok(token) = item {
            let is_item = token == Token::Ident && before == keyword;
            if is_item && plain(text_at(text, span)) == plain(name) {
                return Some(span);
            }
            before = token;
        }
    }
    None
}

/// Where a text declares a name in the first braces after a span.
pub(crate) fn declared_within<'s>(
    text: &'s str,
    outer: SourceSpan,
    name: &'s str,
) -> Option<SourceSpan> {
    let mut search = Search {
        text,
        wanted: Some(name),
        rest: "",
        item: None,
        braces: 0,
        level: 1,
        is_declared: false,
        found: None,
    };
    let Ok(mut lexer) = Lexer::new(accepted(text)) else {
        return None;
    };
    while let Some((item, span)) = lexer.next() {
        if let Ok(token) = item {
            if outer.offset() < span.offset() && !search.take(token, span) {
                return search.found;
            }
        }
    }
    search.found
}

/// Where a document declares what is named of its package: where it names the package, if that is named itself; where
/// something isn't found, that in which it is.
pub(crate) fn declared_at<'s>(text: &'s str, named: &Named<'s>) -> Option<SourceSpan> {
    let mut search = Search {
        text,
        wanted: None,
        rest: named.segments,
        item: named.item,
        braces: 0,
        level: 0,
        is_declared: false,
        found: None,
    };
    search.next();
    let Ok(mut lexer) = Lexer::new(accepted(text)) else {
        return None;
    };
    while let Some((item, span)) = lexer.next() {
        if let Ok(token) = item {
            if !search.take(token, span) {
                return search.found;
            }
        }
    }
    search.found
}
