//! Trying tokens at the next item.

ghost use Rattle.std.specs.Prelude.{◌≡◌, ◌<◌, ◌∷◌, [], if◌then◌else◌, length};
ghost use Rattle.wac_ast_base.specs.Lookahead.{looked, is_next, tried, told_of, kept_in, InFront};
ghost use Rattle.wac_ast_base.specs.Error.{told_by, expected as expected_of};

use crate::error::{Error, KEPT};
use std::marker::Model;
use wac_lexer::{Lexer, LexerResult, SourceSpan, Token};

/// Looks at the next item, and collects the tokens that were tried there.
///
/// The first ten tokens that were tried are kept, and all are counted, up to the greatest `usize`.
#[derive(Drop)]
pub struct Lookahead {
    next: Option<(LexerResult<Token>, SourceSpan)>,
    attempts: [Option<Token>; KEPT],
    span: SourceSpan,
    count: usize,
}

impl Model for Lookahead {
    ghost use Rattle.std.specs.Prelude.{◌≡◌, length, min};
    ghost use Rattle.wac_ast_base.specs.Lookahead.{Looked, kept_in, InFront};

    ghost Value = { Looked };

    ghost view = { λ l. record { next = l.next; span = l.span; kept = kept_in l.attempts; count = l.count } };

    ghost invariant = { λ l. InFront l.attempts × (length (kept_in l.attempts) ≡ min l.count 10) };
}

impl Lookahead {
    /// A look at the next item of a lexer, before any token was tried.
    pub fn new(lexer: &Lexer) -> Self
        ensures { result ≡ looked lexer.now }
    {
        Lookahead {
            next: lexer.peek(),
            attempts: [None; KEPT],
            span: lexer.span(),
            count: 0,
        }
    }

    /// Whether the next item is this token. If it is not, the token has been tried.
    pub fn peek(&mut self, expected: Token) -> bool
        ensures found { result ≡ is_next expected self.old.next }
        ensures kept { self.new ≡ (if result then self.old else tried (expected ∷ []) self.old) }
    {
        if let Some((Ok(token), _)) = self.next {
            if token == expected {
                return true;
            }
        }
        self.keep(expected);
        false
    }

    /// Keeps and counts a token that was tried.
    fn keep(&mut self, token: Token)
        ensures { self.new ≡ tried (token ∷ []) self.old }
    {
        if self.count < KEPT {
            self.attempts[self.count] = Some(token);
        }
        self.count = self.count.saturating_add(1);
    }

    /// How many tokens were tried.
    pub fn attempts(&self) -> usize
        ensures { result ≡ self.now.count }
    {
        self.count
    }

    /// The error that none of the tokens that were tried is next.
    ///
    /// A fault of the text is reported as such. At the end of the input the span is what the lexer's
    /// `span` was when the look began.
    pub fn error(self) -> Error
        requires { 0 < self.count }
        ensures { told_by result ≡ told_of self }
    {
        match self.next {
            Some((Ok(token), span)) => expected(self.attempts, self.count, Some(token), span),
            Some((Err(fault), span)) => (fault, span).into(),
            None => expected(self.attempts, self.count, None, self.span),
        }
    }
}

/// The error that other tokens were expected than the one that was found.
fn expected(
    attempts: [Option<Token>; KEPT],
    count: usize,
    found: Option<Token>,
    span: SourceSpan,
) -> Error
    requires some { 0 < length (kept_in attempts) }
    requires in_front { InFront attempts }
    ensures { told_by result ≡ expected_of (kept_in attempts) count found span }
{
    match attempts {
        [Some(expected), None, ..] => Error::Expected {
            expected,
            found,
            span,
        },
        [Some(first), Some(second), None, ..] => Error::ExpectedEither {
            first,
            second,
            found,
            span,
        },
        expected => Error::ExpectedMultiple {
            expected,
            count,
            found,
            span,
        },
    }
}
