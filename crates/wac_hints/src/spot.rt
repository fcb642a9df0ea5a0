//! The place of an error, and what is around it.
use crate::lexeme::Lexeme;
use std::alloc::{AllocError, Global};
use wac_lexer::{Lexer, SourceSpan, Token};

/// How many of the tokens that were expected are looked at.
pub(crate) const KEPT: usize = 10;

/// A bracket that was opened, and the two tokens before it.
#[derive(Clone, Copy, Debug)]
pub(crate) struct Bracket {
    pub(crate) token: Token,
    pub(crate) before: Option<Token>,
    pub(crate) earlier: Option<Token>,
}

impl Bracket {
    /// The token that closes it, as a text.
    pub(crate) fn closing(&self) -> &'static str {
        match self.token {
            Token::OpenBrace => "}",
            Token::OpenParen => ")",
            Token::OpenAngle => ">",
            _ => "]",
        }
    }

    /// Its own text.
    pub(crate) fn opening(&self) -> &'static str {
        match self.token {
            Token::OpenBrace => "{",
            Token::OpenParen => "(",
            Token::OpenAngle => "<",
            _ => "[",
        }
    }

    /// Whether it opens the body of a type, which has parts with commas between.
    pub(crate) fn has_parts(&self) -> bool {
        matches!(
            self.earlier,
            Some(
                Token::RecordKeyword
                    | Token::VariantKeyword
                    | Token::FlagsKeyword
                    | Token::EnumKeyword
            )
        )
    }
}

/// What was expected and found at a place.
#[derive(Clone, Copy, Debug)]
pub(crate) struct Clash {
    /// The first ten tokens that were expected.
    pub(crate) expected: [Option<Token>; KEPT],
    /// How many were.
    pub(crate) count: usize,
    /// The token that was found, or `None` at the end of the input.
    pub(crate) found: Option<Token>,
    /// Where it begins, and where it ends.
    pub(crate) start: usize,
    pub(crate) end: usize,
}

/// The place of an error.
#[derive(Clone, Copy, Debug)]
pub(crate) struct Spot<'a> {
    pub(crate) source: &'a str,
    pub(crate) clash: Clash,
    /// Where the token begins that was found, or where the source ends.
    pub(crate) place: usize,
    /// The source from there on.
    pub(crate) rest: &'a str,
    /// The text of the token that was found: empty at the end.
    pub(crate) text: &'a str,
    /// The token before it, and the one before that.
    pub(crate) before: Option<Lexeme>,
    pub(crate) earlier: Option<Lexeme>,
    /// The innermost bracket that is open.
    pub(crate) open: Option<Bracket>,
    /// The bracket that the token before closes.
    pub(crate) closed: Option<Bracket>,
}

/// What was met on the way to a place.
#[derive(Drop)]
struct Walk {
    before: Option<Lexeme>,
    earlier: Option<Lexeme>,
    open: Vec<Bracket>,
    closed: Option<Bracket>,
}

/// The token of a lexeme.
fn token_of(lexeme: Option<Lexeme>) -> Option<Token> {
    match lexeme {
        Some(lexeme) => Some(lexeme.token),
        None => None,
    }
}

impl Walk {
    /// Takes the next token.
    fn take(&mut self, lexeme: Lexeme) -> Result<(), AllocError> {
        self.closed = None;
        match lexeme.token {
            Token::OpenBrace | Token::OpenParen | Token::OpenBracket | Token::OpenAngle => {
                let bracket = Bracket {
                    token: lexeme.token,
                    before: token_of(self.before),
                    earlier: token_of(self.earlier),
                };
                if self.open.push(bracket).is_err() {
                    return Err(AllocError);
                }
            }
            Token::CloseBrace | Token::CloseParen | Token::CloseBracket | Token::CloseAngle => {
                self.closed = self.open.pop();
            }
            _ => {}
        }
        self.earlier = self.before;
        self.before = Some(lexeme);
        Ok(())
    }

    /// Takes the tokens of a source that are before a place.
    fn take_before(&mut self, mut lexer: Lexer<'_>, place: usize) -> Result<(), AllocError> {
        while let Some((item, span)) = lexer.next() {
            let Ok(token) = item else { return Ok(()) };
            if span.offset() >= place {
                return Ok(());
            }
            let start = span.offset();
            let end = start + span.len();
            self.take(Lexeme { token, start, end })?;
        }
        Ok(())
    }
}

/// The text of a span, where it lies in the source and cuts no character.
pub(crate) fn slice(source: &str, span: SourceSpan) -> Option<&str> {
    let end = span.offset().checked_add(span.len())?;
    source.get(span.offset()..end)
}

impl<'a> Spot<'a> {
    /// Looks at a place of a source: nothing is found where the source has a rejected character.
    pub(crate) fn find(
        alloc: Global,
        source: &'a str,
        clash: Clash,
    ) -> Result<Option<Spot<'a>>, AllocError> {
        let Ok(lexer) = Lexer::new(source) else {
            return Ok(None);
        };
        let place = match clash.found {
            Some(_) => clash.start,
            None => source.len(),
        };
        let Some(rest) = source.get(place..) else {
            return Ok(None);
        };
        let text = match clash.found {
            Some(_) => source.get(clash.start..clash.end).unwrap_or(""),
            None => "",
        };
        let mut walk = Walk {
            before: None,
            earlier: None,
            open: Vec::new(alloc),
            closed: None,
        };
        walk.take_before(lexer, place)?;
        Ok(Some(Spot {
            source,
            clash,
            place,
            rest,
            text,
            before: walk.before,
            earlier: walk.earlier,
            open: walk.open.last().copied(),
            closed: walk.closed,
        }))
    }

    /// The text of a token.
    pub(crate) fn text_of(&self, lexeme: Lexeme) -> &'a str {
        self.source.get(lexeme.start..lexeme.end).unwrap_or("")
    }

    /// The span of what was found.
    pub(crate) fn span(&self) -> SourceSpan {
        self.ahead(self.text.len())
    }

    /// Whether a token was expected.
    pub(crate) fn expects(&self, token: Token) -> bool {
        self.clash.expected.iter().any(|kept| *kept == Some(token))
    }

    /// Whether a token alone was expected.
    pub(crate) fn expects_only(&self, token: Token) -> bool {
        self.clash.count == 1 && self.expects(token)
    }

    /// Whether a statement of a document was expected.
    pub(crate) fn expects_statement(&self) -> bool {
        self.expects(Token::LetKeyword)
    }

    /// Whether this token was found.
    pub(crate) fn has(&self, token: Token) -> bool {
        self.clash.found == Some(token)
    }

    /// Whether the token before is this one.
    pub(crate) fn follows(&self, token: Token) -> bool {
        token_of(self.before) == Some(token)
    }

    /// The span of so many bytes from the place on.
    pub(crate) fn ahead(&self, len: usize) -> SourceSpan {
        SourceSpan::new(self.place, len)
    }

    /// Where the token before ends.
    pub(crate) fn end_before(&self) -> usize {
        match self.before {
            Some(lexeme) => lexeme.end,
            None => 0,
        }
    }

    /// Whether a line ends between the token before and the place.
    pub(crate) fn is_on_next_line(&self) -> bool {
        match self.source.get(self.end_before()..self.place) {
            Some(gap) => gap.as_bytes().contains(&b'\n'),
            None => false,
        }
    }
}
