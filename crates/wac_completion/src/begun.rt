//! Whether some document begins with a text.
ghost use Rattle.std.specs.Prelude.{◌≡◌, ◌≢◌, ◌&&◌, IfOk, MatchBool, None, string_bytes, alloc_error, true, false};
ghost use Rattle.wac_lexer.specs.Characters.{refused};
ghost use Rattle.wac_lexer.specs.Items.{items};
ghost use Rattle.wac_lexer.specs.Reading.{left};
ghost use Rattle.wac_ast_grammar.specs.Arguments.{EndsArgued};
ghost use Rattle.wac_ast_grammar.specs.Grammar.{document};
ghost use Rattle.wac_ast_grammar.specs.Tokens.{is_token};
ghost use Rattle.wac_ast_grammar.specs.Viable.{Viable};
ghost use Rattle.wac_ast_base.specs.Error.{told_by};
ghost use Rattle.wac_ast_base.specs.declared.error.Error.TheVariants.{Memory};
ghost use Rattle.wac_lexer.specs.declared.token.Token.TheVariants as the_tokens;
ghost use Rattle.wac_completion.specs.Standing.{CanFollow, IsBegun, Reads, are_rest, reads_from, tried};
ghost use Rattle.wac_completion.specs.Faults.{ends_early, last_is_string};

use crate::kind::{is_string, text_of};
use std::alloc::{AllocError, Global};
use wac_ast::Document;
use wac_ast_base::{Error, at, has_more};
use wac_lexer::{Lexer, LexerResult, Token};

/// A text, a blank, a token and perhaps another one.
fn tried(alloc: Global, text: &str, kind: Token, next: Option<Token>) -> Result<String, AllocError>
    ensures { IfOk result (λ all. string_bytes all ≡ tried text.now kind next) }
{
    let mut all = String::from_str(alloc, text)?;
    all.push(' ')?;
    all.push_str(text_of(kind))?;
    if let Some(next) = next {
        all.push_str(text_of(next))?;
    }
    Ok(all)
}

/// Whether an item is a token.
fn is_token(item: LexerResult<Token>, token: Token) -> bool
    ensures { result ≡ is_token token item }
{
    match item {
        Ok(found) => found == token,
        Err(_) => false,
    }
}

/// Whether nothing but perhaps this token is left.
fn are_rest(lexer: &Lexer<'_>, next: Option<Token>) -> bool
    ensures { result ≡ are_rest next (left lexer.now) }
{
    match next {
        Some(token) => at(lexer, token) && lexer.peek2().is_none(),
        None => !has_more(lexer),
    }
}

/// Whether a token and perhaps another one are all that is left after an item and with it.
fn are_last(item: LexerResult<Token>, lexer: &Lexer<'_>, kind: Token, next: Option<Token>) -> bool
    ensures { result ≡ is_token kind item && are_rest next (left lexer.now) }
{
    is_token(item, kind) && are_rest(lexer, next)
}

/// Whether from a place on, a token and perhaps another one are all that is left.
fn reads_from(mut lexer: Lexer<'_>, place: usize, kind: Token, next: Option<Token>) -> bool
    ensures { result ≡ reads_from place kind next (left lexer.entry) }
{
    while let Some((item, span)) = lexer.next() {
        let start = span.offset();
        if start >= place {
            return are_last(item, &lexer, kind, next);
        }
    }
    false
}

/// Whether a text has these tokens from a place on, and nothing else.
pub(crate) fn reads(text: &str, place: usize, kind: Token, next: Option<Token>) -> bool
    ensures { MatchBool result (Reads text.now place kind next) (¬ (Reads text.now place kind next)) }
{
    match Lexer::new(text) {
        Ok(lexer) => reads_from(lexer, place, kind, next),
        Err(_) => false,
    }
}

/// Whether an error says that the text ends too early.
fn ends_early(error: &Error) -> bool
    ensures { result ≡ ends_early (told_by error.now) }
{
    match error {
        Error::Expected { found, .. }
        | Error::ExpectedEither { found, .. }
        | Error::ExpectedMultiple { found, .. } => found.is_none(),
        _ => false,
    }
}

/// The same, but of memory that ran out.
fn at_end(error: Error) -> Result<bool, AllocError>
    ensures { IfOk result (λ b. (error ≢ Memory alloc_error) × (b ≡ ends_early (told_by error))) }
{
    match error {
        Error::Memory(_) => Err(AllocError),
        error => Ok(ends_early(&error)),
    }
}

/// Whether some document begins with the items of a text, which don't end with a string.
fn is_viable(alloc: Global, text: &str) -> Result<bool, AllocError>
    ensures yes { IfOk result (λ b. b ≡ true → Viable document (items text.now)) }
    ensures no { IfOk result (λ b. b ≡ false → refused text.now ≡ None → Viable document (items text.now)
        → EndsArgued document (items text.now)) }
{
    match Document::parse(alloc, text) {
        Ok(_document) => Ok(true),
        Err(error) => at_end(error),
    }
}

/// Whether some document begins with a text, a blank and these tokens, of which the last is no string.
fn is_begun(alloc: Global, text: &str, kind: Token, next: Option<Token>) -> Result<bool, AllocError>
    requires { last_is_string kind next ≡ false }
    ensures { IfOk result (λ b. MatchBool b (IsBegun text.now kind next) (¬ (IsBegun text.now kind next))) }
{
    let all = tried(alloc, text, kind, next)?;
    let is_read = reads(all.as_str(), text.len() + 1, kind, next);
    if !is_read {
        return Ok(false);
    }
    let found = is_viable(alloc, all.as_str())?;
    Ok(found)
}

/// Whether a string can stand after a text.
fn string_can_follow(alloc: Global, text: &str) -> Result<bool, AllocError>
    ensures { IfOk result (λ b. MatchBool b (CanFollow text.now the_tokens.String)
        (¬ (CanFollow text.now the_tokens.String))) }
{
    let before_colon = is_begun(alloc, text, Token::String, Some(Token::Colon))?;
    if before_colon {
        return Ok(true);
    }
    let before_semicolon = is_begun(alloc, text, Token::String, Some(Token::Semicolon))?;
    if before_semicolon {
        return Ok(true);
    }
    let before_bracket = is_begun(alloc, text, Token::String, Some(Token::CloseBracket))?;
    Ok(before_bracket)
}

/// Whether a token of a kind can stand after a text. The error is that memory ran out.
pub(crate) fn can_follow(alloc: Global, text: &str, kind: Token) -> Result<bool, AllocError>
    ensures { IfOk result (λ b. MatchBool b (CanFollow text.now kind) (¬ (CanFollow text.now kind))) }
{
    if is_string(kind) {
        let found = string_can_follow(alloc, text)?;
        return Ok(found);
    }
    let found = is_begun(alloc, text, kind, None)?;
    Ok(found)
}
