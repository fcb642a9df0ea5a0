//! Going over the tokens of a text.
ghost use Rattle.std.specs.Prelude.{All, IfOk};
ghost use Rattle.wac_lsp_outline.specs.Within.{IsWithin};

use crate::item::{Body, Item, begins_item};
use crate::symbol::{Kind, Symbol, end_of};
use crate::within::within;
use std::alloc::{AllocError, Global};
use wac_lexer::{Lexer, SourceSpan, Token};

/// How many declarations are around another one, at most: one with more around it isn't told.
const MOST: usize = 32;

/// What is between two braces, or outside of all.
#[derive(Clone, Copy)]
struct Level {
    body: Body,
    /// How many declarations are around it.
    depth: usize,
    /// The statement or the item that is read.
    item: Option<Item>,
}

/// Goes over the tokens of a text.
#[derive(Drop)]
struct Outliner {
    found: Vec<Symbol>,
    /// The levels around the current one.
    outer: Vec<Level>,
    level: Level,
    /// The token before, and where it ends.
    last: Option<Token>,
    end: usize,
}

impl Outliner {
    /// Ends the current item at an offset, and writes down what was read of it.
    fn finish(&mut self, end: usize) {
        let Some(item) = self.level.item else {
            return;
        };
        self.level.item = None;
        let Some(index) = item.symbol else {
            return;
        };
        if let Some(symbol) = self.found.get_mut(index) {
            symbol.end = end;
            symbol.kind = item.kind;
            symbol.detail = item.detail(symbol.name);
        }
    }

    /// Ends what is read of the current level, and leaves that. Of the outermost one it does nothing.
    fn leave(&mut self) {
        let end = self.end;
        if let Some(level) = self.outer.pop() {
            self.finish(end);
            self.level = level;
        }
    }

    /// Begins a statement or an item with a keyword. Lists whose brace is missing end before it.
    fn begin(&mut self, keyword: Token, span: SourceSpan) {
        for _ in 0..self.outer.len() {
            if self.level.body.has_declarations() {
                break;
            }
            self.leave();
        }
        let end = self.end;
        self.finish(end);
        self.level.item = Some(Item::new(span.offset(), Some(keyword)));
    }

    /// Has an item declare a name.
    fn declare(&mut self, item: Item, name: SourceSpan, kind: Kind) -> Result<(), AllocError> {
        let mut item = item;
        item.kind = kind;
        if self.level.depth < MOST {
            item.symbol = Some(self.found.len());
            let symbol = Symbol {
                name,
                kind,
                start: item.start,
                end: end_of(name),
                depth: self.level.depth,
                detail: item.detail(name),
            };
            if self.found.push(symbol).is_err() {
                return Err(AllocError);
            }
        }
        self.level.item = Some(item);
        Ok(())
    }

    /// The kind of what a token at the beginning of an item declares, if it is a name.
    fn first_kind(&self, token: Token, next: Option<Token>) -> Option<Kind> {
        match token {
            Token::Ident => self.level.body.labelled(next),
            Token::ConstructorKeyword if self.level.body == Body::Resource => {
                Some(Kind::Constructor)
            }
            _ => None,
        }
    }

    /// The kind of what a token after the keyword of an item declares, if it is a name. A world has paths for names too.
    fn second_kind(&self, item: &Item, token: Token, next: Option<Token>) -> Option<Kind> {
        let keyword = item.keyword?;
        let is_name = token == Token::Ident
            || token == Token::PackagePath && self.level.body == Body::World;
        if is_name && item.symbol.is_none() && self.last == item.keyword {
            self.level.body.declared(keyword, next)
        } else {
            None
        }
    }

    /// Takes a token that neither begins nor ends an item by itself.
    fn take_part(
        &mut self,
        token: Token,
        span: SourceSpan,
        next: Option<Token>,
    ) -> Result<(), AllocError> {
        let Some(mut item) = self.level.item else {
            let item = Item::new(span.offset(), None);
            if let Some(kind) = self.first_kind(token, next) {
                return self.declare(item, span, kind);
            }
            self.level.item = Some(item);
            return Ok(());
        };
        if let Some(kind) = self.second_kind(&item, token, next) {
            return self.declare(item, span, kind);
        }
        item.take(token, span, self.level.body == Body::World);
        self.level.item = Some(item);
        Ok(())
    }

    /// Opens a brace.
    fn enter(&mut self) -> Result<(), AllocError> {
        let mut level = Level {
            body: Body::Other,
            depth: self.level.depth,
            item: None,
        };
        if let Some(mut item) = self.level.item {
            level.body = item.body;
            if item.symbol.is_some() {
                level.depth = level.depth.saturating_add(1);
            }
            item.enter();
            self.level.item = Some(item);
        }
        if self.outer.push(self.level).is_err() {
            return Err(AllocError);
        }
        self.level = level;
        Ok(())
    }

    /// Whether a brace that was closed ends the current item.
    fn is_closed(&self) -> bool {
        match self.level.item {
            Some(item) => item.ends_with_brace(),
            None => false,
        }
    }

    /// Closes a brace that ends at an offset.
    fn close(&mut self, end: usize) {
        self.leave();
        if self.is_closed() {
            self.finish(end);
        }
    }

    /// Whether a comma ends the current item.
    fn is_split(&self) -> bool {
        match self.level.item {
            Some(item) => self.level.body.has_commas() && item.brackets == 0,
            None => self.level.body.has_commas(),
        }
    }

    /// Takes the next token, with the one after it.
    fn take(
        &mut self,
        token: Token,
        span: SourceSpan,
        next: Option<Token>,
    ) -> Result<(), AllocError> {
        let before = self.end;
        if begins_item(token, self.last) {
            self.begin(token, span);
        } else {
            match token {
                Token::OpenBrace => self.enter()?,
                Token::CloseBrace => self.close(end_of(span)),
                Token::Semicolon => self.finish(end_of(span)),
                Token::Comma if self.is_split() => self.finish(before),
                _ => self.take_part(token, span, next)?,
            }
        }
        self.last = Some(token);
        self.end = end_of(span);
        Ok(())
    }

    /// Ends all levels. Returns what was found.
    fn found(self) -> Vec<Symbol> {
        let mut outliner = self;
        for _ in 0..outliner.outer.len() {
            outliner.leave();
        }
        let end = outliner.end;
        outliner.finish(end);
        let Outliner { found, .. } = outliner;
        found
    }
}

/// The token at which a lexer stands.
fn next_token(lexer: &Lexer<'_>) -> Option<Token> {
    match lexer.peek() {
        Some((Ok(token), _)) => Some(token),
        _ => None,
    }
}

/// What the tokens of a text declare.
fn symbols(alloc: Global, text: &str) -> Result<Vec<Symbol>, AllocError> {
    let mut outliner = Outliner {
        found: Vec::new(alloc),
        outer: Vec::new(alloc),
        level: Level {
            body: Body::Document,
            depth: 0,
            item: None,
        },
        last: None,
        end: 0,
    };
    if let Ok(mut lexer) = Lexer::new(text) {
        while let Some((item, span)) = lexer.next() {
            if let Ok(token) = item {
                outliner.take(token, span, next_token(&lexer))?;
            }
        }
    }
    Ok(outliner.found())
}

/// What the tokens of a text declare, in order: what is within a declaration comes right after it, with a depth of one
/// more. Nothing is found in a text with a rejected character. The error is that memory ran out.
pub fn outline(alloc: Global, text: &str) -> Result<Vec<Symbol>, AllocError>
    // The name of each lies in its declaration, and that in the text.
    ensures { IfOk result (λ all. All (IsWithin text.now) all.items) }
{
    let found = symbols(alloc, text)?;
    within(alloc, text, found.as_slice())
}
