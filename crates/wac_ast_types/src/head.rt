//! What declarations begin with.

ghost use Rattle.std.specs.Prelude.{◌≡◌, ◌≤◌, true};
ghost use Rattle.wac_ast_base.specs.Answer.{plain};
ghost use Rattle.wac_ast_base.specs.Pieces.{GivesPart, Same};
ghost use Rattle.wac_ast_types.specs.Declarations.{head, head_parts, head_of};

use std::alloc::Global;
use wac_ast_base::{DocComment, Ident, Parse, ParseResult, parse_docs, take_token};
use wac_lexer::{Lexer, Token};

/// The docs before a declaration, its keyword, and the name that it declares: the docs and the name.
pub(crate) fn parse_head<'a>(
    alloc: Global,
    lexer: &mut Lexer<'a>,
    keyword: Token,
) -> ParseResult<(Vec<DocComment<'a>>, Ident<'a>)>
    requires { plain keyword ≡ true }
    ensures gives { GivesPart (head keyword) head_parts Same head_of result lexer.old lexer.new }
    ensures source { lexer.new.source ≡ lexer.old.source }
    ensures moves { lexer.old.place ≤ lexer.new.place }
{
    let comments = parse_docs(alloc, lexer)?;
    take_token(lexer, keyword)?;
    let id = Parse::parse(alloc, lexer)?;
    Ok((comments, id))
}
