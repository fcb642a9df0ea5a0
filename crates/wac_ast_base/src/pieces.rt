//! Some of the parts of a production.

ghost use Rattle.std.specs.Prelude.{◌≡◌, ◌≤◌, true, false, Some, IfOk, IfErr};
ghost use Rattle.wac_lexer.specs.Reading.{left};
ghost use Rattle.wac_lexer.specs.declared.token.Token.TheVariants as tokens;
ghost use Rattle.wac_ast_grammar.specs.Tokens.{at};
ghost use Rattle.wac_ast_base.specs.Answer.{plain, body_name, part_name, RefusesEmpty};
ghost use Rattle.wac_ast_grammar.specs.Grammar.{token, perhaps, is_there};
ghost use Rattle.wac_ast_grammar.specs.Reading.{begins};
ghost use Rattle.wac_ast_base.specs.Pieces.{GivesPart, GivesAfter, GivesFilled, Same, part_before, body_of, body_of_items};

use crate::delimited::parse_list;
use crate::error::{Error, ParseResult};
use crate::parse::{Parse, Peek, at, refuse_empty, take_optional, take_token};
use std::alloc::Global;
use wac_lexer::{Lexer, Token};

/// A part, and the token after it.
pub fn parse_before<'a, T: Parse<'a> + Drop, E: From<Error>>(
    alloc: Global,
    lexer: &mut Lexer<'a>,
    close: Token,
) -> Result<T, E>
    requires { plain close ≡ true }
    ensures gives { GivesPart (part_before T.symbol close) (λ p. p.0) E.from_gives T.tree result lexer.old lexer.new }
    ensures source { lexer.new.source ≡ lexer.old.source }
    ensures moves { lexer.old.place ≤ lexer.new.place }
{
    let part = T::parse(alloc, lexer)?;
    take_token(lexer, close)?;
    Ok(part)
}

/// The part after a token, where the token is next.
pub fn parse_after<'a, T: Parse<'a> + Drop, E: From<Error>>(
    alloc: Global,
    lexer: &mut Lexer<'a>,
    word: Token,
) -> Result<Option<T>, E>
    requires { plain word ≡ true }
    ensures gives { GivesAfter word T.symbol E.from_gives T.tree result lexer.old lexer.new }
    ensures source { lexer.new.source ≡ lexer.old.source }
    ensures moves { lexer.old.place ≤ lexer.new.place }
{
    if take_optional(lexer, word)? {
        return Ok(Some(T::parse(alloc, lexer)?));
    }
    Ok(None)
}

/// Takes the next item where it is this token, and returns whether it was.
///
/// Whatever else is next, even a fault of the text, stays.
pub fn take_word(lexer: &mut Lexer, word: Token) -> ParseResult<bool>
    requires { plain word ≡ true }
    ensures gives { GivesPart (perhaps (token word)) is_there Same (λ b. b) result lexer.old lexer.new }
    ensures source { lexer.new.source ≡ lexer.old.source }
    ensures moves { lexer.old.place ≤ lexer.new.place }
{
    if at(lexer, word) {
        take_token(lexer, word)?;
        return Ok(true);
    }
    Ok(false)
}

/// A declaration whose body may not be empty.
#[derive(Clone, Copy)]
pub enum BodyKind {
    /// A variant, of cases.
    Variant,
    /// A record, of fields.
    Record,
    /// Flags.
    Flags,
    /// An enum, of cases.
    Enum,
}

/// The parts of a body that may not be empty, from its opening brace to its closing one.
pub fn parse_filled<'a, T: Parse<'a> + Peek + Drop, E: From<Error>>(
    alloc: Global,
    lexer: &mut Lexer<'a>,
    kind: BodyKind,
) -> Result<Vec<T>, E>
    requires filled { body_of_items T.symbol ≡ Some (body_of kind) }
    requires begins { T.firsts ≡ begins T.symbol }
    ensures gives { GivesFilled T.symbol E.from_gives T.tree result lexer.old lexer.new }
    ensures source { lexer.new.source ≡ lexer.old.source }
    ensures moves { lexer.old.place ≤ lexer.new.place }
{
    take_token(lexer, Token::OpenBrace)?;
    refuse_no_part(lexer, kind)?;
    let (items, _) = parse_list::<T, Error>(alloc, lexer, Token::CloseBrace)?;
    Ok(items)
}

/// Rejects a closing brace in the next item's place, naming the body and its parts.
fn refuse_no_part(lexer: &Lexer, kind: BodyKind) -> ParseResult<()>
    ensures filled { IfOk result (λ _. at tokens.CloseBrace (left lexer.now) ≡ false) }
    ensures refused { IfErr result (RefusesEmpty (body_name (body_of kind)) (part_name (body_of kind)) lexer.now) }
{
    match kind {
        BodyKind::Variant => refuse_empty(lexer, "variant", "case"),
        BodyKind::Record => refuse_empty(lexer, "record", "field"),
        BodyKind::Flags => refuse_empty(lexer, "flags", "flag"),
        BodyKind::Enum => refuse_empty(lexer, "enum", "case"),
    }
}
