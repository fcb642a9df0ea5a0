//! Lists up to a closing token.

ghost use Rattle.std.specs.Prelude.{◌≡◌, ◌≤◌, ◌<◌, ◌^◌, ◌∷◌, true, false, length, Some, IfOk, OnOk};
ghost use Rattle.wac_lexer.specs.Span.{end_of};
ghost use Rattle.wac_lexer.specs.Reading.{left};
ghost use Rattle.wac_ast_grammar.specs.Tokens.{at};
ghost use Rattle.wac_ast_grammar.specs.Reading.{at_one_of, begins};
ghost use Rattle.wac_ast_base.specs.Error.{told_by};
ghost use Rattle.wac_ast_base.specs.Lookahead.{looked, tried, told_of};
ghost use Rattle.wac_ast_base.specs.Lists.{TakesItems, GivesItems, GivesBy, ListsGoOn, read_item, list_of, closes, body_of, repeats};
ghost use Rattle.wac_lexer.specs.declared.token.Token.TheVariants as tokens;

use crate::error::{Error, ParseResult};
use crate::lookahead::Lookahead;
use crate::parse::{Parse, Peek, at, has_more, push, take_token};
use std::alloc::Global;
use wac_lexer::{Lexer, SourceSpan, Token};

/// Whether the next item may begin this part.
pub fn begins<T: Peek>(lexer: &Lexer) -> bool
    ensures { result ≡ at_one_of T.firsts (left lexer.now) }
{
    let mut lookahead = Lookahead::new(lexer);
    T::peek(&mut lookahead)
}

/// The error that neither the closing token nor an item is next.
pub fn no_item<T: Peek>(lexer: &Lexer, close: Token) -> Error
    requires open { at close (left lexer.now) ≡ false }
    requires none { at_one_of T.firsts (left lexer.now) ≡ false }
    ensures { told_by result ≡ told_of (tried (close ∷ T.firsts) (looked lexer.now)) }
{
    let mut lookahead = Lookahead::new(lexer);
    lookahead.peek(close);
    T::peek(&mut lookahead);
    lookahead.error()
}

/// An item of a list, in the place of its closing token.
fn parse_item<'a, T: Parse<'a> + Peek + Drop, E: From<Error>>(
    alloc: Global,
    lexer: &mut Lexer<'a>,
    close: Token,
) -> Result<T, E>
    requires open { at close (left lexer.old) ≡ false }
    requires begins { T.firsts ≡ begins T.symbol }
    ensures gives { GivesBy E.from_gives T.tree result lexer.old lexer.new (read_item T.symbol close (left lexer.old)) }
    ensures source { lexer.new.source ≡ lexer.old.source }
    ensures moves { lexer.old.place ≤ lexer.new.place }
{
    if !begins::<T>(lexer) {
        return Err(E::from(no_item::<T>(lexer, close)));
    }
    Ok(T::parse(alloc, lexer)?)
}

/// What follows an item of a comma list: the closing token, which stays, or a comma.
pub fn take_comma<T: Peek>(lexer: &mut Lexer, close: Token) -> ParseResult<()>
    // Each list of such items that ends with this token continues this way.
    ensures gives { ListsGoOn T.firsts close result lexer.old lexer.new }
    ensures source { lexer.new.source ≡ lexer.old.source }
    ensures moves { lexer.old.place ≤ lexer.new.place }
    ensures rest { IfOk result (λ _. length (left lexer.new) ≤ length (left lexer.old)) }
{
    if at(lexer, close) {
        return Ok(());
    }
    if !has_more(lexer) {
        return Err(no_item::<T>(lexer, close));
    }
    take_token(lexer, Token::Comma)?;
    Ok(())
}

/// The items of a comma list, up to its closing token, which stays.
fn parse_items<'a, T: Parse<'a> + Peek + Drop, E: From<Error>>(
    alloc: Global,
    lexer: &mut Lexer<'a>,
    until: Token,
) -> Result<Vec<T>, E>
    requires listed { closes T.symbol ≡ Some until }
    requires begins { T.firsts ≡ begins T.symbol }
    ensures gives { GivesItems E.from_gives T.tree (list_of T.symbol) result lexer.old lexer.new }
    ensures closed { OnOk result (at until (left lexer.new) ≡ true) }
    ensures source { lexer.new.source ≡ lexer.old.source }
    ensures moves { lexer.old.place ≤ lexer.new.place }
{
    let mut items = Vec::new(alloc);
    while !at(lexer, until) {
        push(&mut items, parse_item::<T, Error>(alloc, lexer, until)?)?;
        take_comma::<T>(lexer, until)?;
    }
    Ok(items)
}

/// The items of a comma list, and the span of the token that closes it.
pub fn parse_list<'a, T: Parse<'a> + Peek + Drop, E: From<Error>>(
    alloc: Global,
    lexer: &mut Lexer<'a>,
    until: Token,
) -> Result<(Vec<T>, SourceSpan), E>
    requires listed { closes T.symbol ≡ Some until }
    requires begins { T.firsts ≡ begins T.symbol }
    ensures takes { TakesItems E.from_gives T.tree (list_of T.symbol) result lexer.old lexer.new }
    ensures source { lexer.new.source ≡ lexer.old.source }
    ensures moves { lexer.old.place ≤ lexer.new.place }
    ensures fits { IfOk result (λ x. end_of x.1 < 2 ^ 64) }
{
    let items = parse_items::<T, Error>(alloc, lexer, until)?;
    let last = take_token(lexer, until)?;
    Ok((items, last))
}

/// The items of a body, up to its closing brace, which stays.
fn parse_each<'a, T: Parse<'a> + Peek + Drop, E: From<Error>>(
    alloc: Global,
    lexer: &mut Lexer<'a>,
) -> Result<Vec<T>, E>
    requires repeated { repeats T.symbol ≡ true }
    requires begins { T.firsts ≡ begins T.symbol }
    ensures gives { GivesItems E.from_gives T.tree (body_of T.symbol) result lexer.old lexer.new }
    ensures closed { OnOk result (at tokens.CloseBrace (left lexer.new) ≡ true) }
    ensures source { lexer.new.source ≡ lexer.old.source }
    ensures moves { lexer.old.place ≤ lexer.new.place }
{
    let mut items = Vec::new(alloc);
    while !at(lexer, Token::CloseBrace) {
        push(
            &mut items,
            parse_item::<T, Error>(alloc, lexer, Token::CloseBrace)?,
        )?;
    }
    Ok(items)
}

/// The items of a body, and the span of the brace that closes it.
pub fn parse_body<'a, T: Parse<'a> + Peek + Drop, E: From<Error>>(
    alloc: Global,
    lexer: &mut Lexer<'a>,
) -> Result<(Vec<T>, SourceSpan), E>
    requires repeated { repeats T.symbol ≡ true }
    requires begins { T.firsts ≡ begins T.symbol }
    ensures takes { TakesItems E.from_gives T.tree (body_of T.symbol) result lexer.old lexer.new }
    ensures source { lexer.new.source ≡ lexer.old.source }
    ensures moves { lexer.old.place ≤ lexer.new.place }
    ensures fits { IfOk result (λ x. end_of x.1 < 2 ^ 64) }
{
    let items = parse_each::<T, Error>(alloc, lexer)?;
    let last = take_token(lexer, Token::CloseBrace)?;
    Ok((items, last))
}
