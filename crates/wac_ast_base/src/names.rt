//! Names, strings and documentation comments.

ghost use Rattle.std.specs.Prelude.{◌≡◌, ◌<◌, ◌^◌};
ghost use Rattle.wac_lexer.specs.Span.{end_of};
ghost use Rattle.wac_ast_base.specs.Lookahead.{Peeks};
ghost use Rattle.wac_ast_grammar.specs.Reading.{begins};
ghost use Rattle.wac_ast_grammar.specs.Grammar.{identifier};
ghost use Rattle.wac_ast_grammar.specs.Grammar as symbols;
ghost use Rattle.wac_ast_grammar.specs.Tree.{between_quotes, without_percent};
ghost use Rattle.wac_ast_base.specs.Names.{extern_name_of};
ghost use Rattle.wac_ast_grammar.specs.Spans.{extern_name_text, extern_name_span};

use crate::error::ParseResult;
use crate::lookahead::Lookahead;
use crate::parse::{Parse, Peek, parse_token};
use std::alloc::Global;
use wac_lexer::{Lexer, SourceSpan, Token};

/// A name.
#[derive(Clone, Copy, Debug)]
pub struct Ident<'a> {
    /// The name, without a leading `%`.
    pub string: &'a str,
    /// Its span, with the `%`.
    pub span: SourceSpan,
}

impl<'a> Parse<'a> for Ident<'a> {
    ghost use Rattle.std.specs.Prelude.{◌≡◌, ◌≤◌, ◌<◌, ◌^◌, IfOk};
    ghost use Rattle.wac_ast_base.specs.Answer.{Gives};
    ghost use Rattle.wac_ast_base.specs.Names.{ident_of};
    ghost use Rattle.wac_ast_grammar.specs.Grammar.{identifier};
    ghost use Rattle.wac_ast_grammar.specs.Reading.{read};
    ghost use Rattle.wac_lexer.specs.Item.{next_token};
    ghost use Rattle.wac_lexer.specs.Reading.{left, Nexts};

    ghost symbol = { identifier };

    ghost tree = { ident_of };

    ghost fits = { λ x. end_of x.span < 2 ^ 64 };

    #[tactic(auto, using(wac_ast_grammar::proofs::Fixed::read_is))]
    fn parse(alloc: Global, lexer: &mut Lexer<'a>) -> ParseResult<Self>
        ensures gives { Gives ident_of result lexer.old lexer.new (read identifier (left lexer.old)) }
        ensures source { lexer.new.source ≡ lexer.old.source }
        ensures moves { lexer.old.place ≤ lexer.new.place }
        ensures fits { IfOk result (λ x. end_of x.span < 2 ^ 64) }
        // The next item alone is consumed, even where it is rejected.
        ensures nexts { Nexts lexer.old (next_token (left lexer.old)) lexer.new }
    {
        let span = parse_token(lexer, Token::Ident)?;
        let text = lexer.source(span);
        Ok(Ident {
            string: without_percent(text),
            span,
        })
    }
}

impl<'a> Peek for Ident<'a> {
    ghost firsts = { begins identifier };

    fn peek(lookahead: &mut Lookahead) -> bool
        ensures { Peeks (begins identifier) result lookahead.old lookahead.new }
    {
        lookahead.peek(Token::Ident)
    }
}

/// A text in quotes.
#[derive(Clone, Copy, Debug)]
pub struct String<'a> {
    /// The text, without the quotes.
    pub value: &'a str,
    /// Its span, with the quotes.
    pub span: SourceSpan,
}

impl<'a> Parse<'a> for String<'a> {
    ghost use Rattle.std.specs.Prelude.{◌≡◌, ◌≤◌, ◌<◌, ◌^◌, IfOk};
    ghost use Rattle.wac_ast_base.specs.Answer.{Gives};
    ghost use Rattle.wac_ast_base.specs.Names.{string_of};
    ghost use Rattle.wac_ast_grammar.specs.Reading.{read};
    ghost use Rattle.wac_lexer.specs.Item.{next_token};
    ghost use Rattle.wac_lexer.specs.Reading.{left, Nexts};

    ghost symbol = { symbols.string };

    ghost tree = { string_of };

    ghost fits = { λ x. end_of x.span < 2 ^ 64 };

    #[tactic(auto, using(wac_ast_grammar::proofs::Fixed::read_is))]
    fn parse(alloc: Global, lexer: &mut Lexer<'a>) -> ParseResult<Self>
        ensures gives { Gives string_of result lexer.old lexer.new (read symbols.string (left lexer.old)) }
        ensures source { lexer.new.source ≡ lexer.old.source }
        ensures moves { lexer.old.place ≤ lexer.new.place }
        ensures fits { IfOk result (λ x. end_of x.span < 2 ^ 64) }
        // The next item alone is consumed, even where it is rejected.
        ensures nexts { Nexts lexer.old (next_token (left lexer.old)) lexer.new }
    {
        let span = parse_token(lexer, Token::String)?;
        Ok(String {
            value: between_quotes(lexer.source(span)),
            span,
        })
    }
}

impl<'a> Peek for String<'a> {
    ghost firsts = { begins symbols.string };

    fn peek(lookahead: &mut Lookahead) -> bool
        ensures { Peeks (begins symbols.string) result lookahead.old lookahead.new }
    {
        lookahead.peek(Token::String)
    }
}

/// The text between two quotes.
fn between_quotes(text: &str) -> &str
    ensures { result.now ≡ between_quotes text.now }
{
    let after = text.strip_prefix('"').unwrap_or(text);
    after.strip_suffix('"').unwrap_or(after)
}

/// A documentation comment.
#[derive(Clone, Copy, Debug)]
pub struct DocComment<'a> {
    /// Its text, trimmed.
    pub comment: &'a str,
    /// The span of the whole comment.
    pub span: SourceSpan,
}

/// The text without a leading `%`.
fn without_percent(text: &str) -> &str
    ensures { result.now ≡ without_percent text.now }
{
    text.strip_prefix('%').unwrap_or(text)
}

/// A name under which an item is imported or exported.
#[derive(Debug, Drop)]
pub enum ExternName<'a> {
    /// An identifier.
    Ident(Ident<'a>),
    /// A text in quotes.
    String(String<'a>),
}

impl<'a> ExternName<'a> {
    /// The name, without quotes or a leading `%`.
    pub fn as_str(&self) -> &'a str
        ensures { result.now ≡ extern_name_text (extern_name_of self.now) }
    {
        match self {
            ExternName::Ident(ident) => ident.string,
            ExternName::String(string) => string.value,
        }
    }

    /// The span of the name, with its quotes or `%`.
    pub fn span(&self) -> SourceSpan
        ensures { result ≡ extern_name_span (extern_name_of self.now) }
    {
        match self {
            ExternName::Ident(ident) => ident.span,
            ExternName::String(string) => string.span,
        }
    }
}

impl<'a> Parse<'a> for ExternName<'a> {
    ghost symbol = { symbols.extern_name };

    ghost tree = { extern_name_of };

    fn parse(alloc: Global, lexer: &mut Lexer<'a>) -> ParseResult<Self> {
        let mut lookahead = Lookahead::new(lexer);
        if Ident::peek(&mut lookahead) {
            Ok(ExternName::Ident(Parse::parse(alloc, lexer)?))
        } else if String::peek(&mut lookahead) {
            Ok(ExternName::String(Parse::parse(alloc, lexer)?))
        } else {
            Err(lookahead.error())
        }
    }
}

impl<'a> Peek for ExternName<'a> {
    ghost firsts = { begins symbols.extern_name };

    fn peek(lookahead: &mut Lookahead) -> bool
        ensures { Peeks (begins symbols.extern_name) result lookahead.old lookahead.new }
    {
        Ident::peek(lookahead) || String::peek(lookahead)
    }
}
