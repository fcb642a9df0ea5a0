//! Copies of a statement, each with another name in the place of an identifier.

use crate::closed::Closed;
use crate::names::Candidate;
use std::alloc::{AllocError, Global};
use wac_lexer::{Lexer, SourceSpan, Token};
use wac_names::{Mention, Name, Names};
use wac_recovery::begins_declaration;

/// How the statement that was begun last goes on.
#[derive(Clone, Copy)]
struct Begun {
    /// Where it begins.
    start: usize,
    /// Whether it goes on: else the next token begins another one.
    goes_on: bool,
    /// Whether the brace that closes its first one ends it.
    declares: bool,
    /// How many of its braces are open.
    depth: usize,
}

impl Begun {
    /// The statement that a token at an offset begins, or belongs to.
    fn at(self, token: Token, offset: usize) -> Begun {
        if self.goes_on {
            return self;
        }
        Begun {
            start: offset,
            goes_on: true,
            declares: begins_declaration(Ok(token)),
            depth: 0,
        }
    }

    /// The same after a token of it.
    fn after(self, token: Token) -> Begun {
        let mut next = self;
        match token {
            Token::OpenBrace => next.depth = self.depth.saturating_add(1),
            Token::CloseBrace => {
                next.depth = self.depth.saturating_sub(1);
                next.goes_on = next.depth > 0 || !self.declares;
            }
            Token::Semicolon => next.goes_on = self.depth > 0,
            _ => {}
        }
        next
    }
}

/// Where the last statement of a text begins.
pub(crate) fn last_statement(text: &str) -> usize {
    let mut last = Begun {
        start: 0,
        goes_on: false,
        declares: false,
        depth: 0,
    };
    let Ok(mut lexer) = Lexer::new(text) else {
        return 0;
    };
    while let Some((item, span)) = lexer.next() {
        if let Ok(token) = item {
            last = last.at(token, span.offset()).after(token);
        }
    }
    last.start
}

/// A text with a copy of its last statement for each of some names, which stands in the place of the identifier.
#[derive(Drop)]
pub(crate) struct Copies {
    /// The whole text.
    pub text: String,
    /// Where the first copy begins.
    start: usize,
    /// Where the identifier is in a statement.
    within: usize,
    /// Where the name is in each copy, in order.
    places: Vec<usize>,
}

impl Copies {
    /// A copy for each name, of a statement of a closed text that begins at an offset.
    pub(crate) fn new(
        alloc: Global,
        closed: &Closed,
        start: usize,
        names: &[Candidate],
    ) -> Result<Copies, AllocError> {
        let text = closed.text.as_str();
        let front = text.get(start..closed.at).unwrap_or("");
        let back = text.get(closed.at.saturating_add(1)..).unwrap_or("");
        let mut all = String::from_str(alloc, text.get(..start).unwrap_or(""))?;
        let mut places = Vec::new(alloc);
        for name in names {
            all.push_str(front)?;
            places.push(all.len())?;
            all.push_str(name.text_in(text))?;
            all.push_str(back)?;
            all.push('\n')?;
        }
        Ok(Copies {
            text: all,
            start,
            within: front.len(),
            places,
        })
    }

    /// Where a name that a mention at a place stands for is bound in the closed text. `None` where another copy binds it.
    fn bound(&self, name: &Name, place: usize) -> Option<SourceSpan> {
        let offset = name.span.offset();
        if offset < self.start {
            return Some(name.span);
        }
        let begin = place.saturating_sub(self.within);
        if offset < begin || offset >= place {
            return None;
        }
        let moved = begin.saturating_sub(self.start);
        Some(SourceSpan::new(offset.saturating_sub(moved), name.span.len()))
    }

    /// What a mention stands for, if it is the name of a copy.
    fn found(&self, names: &Names, mention: &Mention) -> Option<Candidate> {
        let place = mention.span.offset();
        if self.places.binary_search(&place).is_err() {
            return None;
        }
        let name = names.bindings.get(mention.binding)?;
        let span = self.bound(name, place)?;
        let kind = name.kind;
        Some(Candidate { span, kind })
    }

    /// What the names of the copies stand for, in order. `names` are those of the text with the copies. A name that
    /// stands for nothing there is left out.
    pub(crate) fn candidates(
        &self,
        alloc: Global,
        names: &Names,
    ) -> Result<Vec<Candidate>, AllocError> {
        let mut all = Vec::new(alloc);
        for mention in &names.mentions {
            if let Some(found) = self.found(names, mention) {
                all.push(found)?;
            }
        }
        Ok(all)
    }
}
