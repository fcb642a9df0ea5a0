//! Taking tokens, and what every parser returns.

ghost use Rattle.std.specs.Prelude.{◌≡◌, ◌≤◌, ◌<◌, ◌^◌, true, false, IfOk, IfErr, Some, Ok, map, [], List, OnOk, ◌++◌, ◌∷◌, alloc_error, IfSome, None, MatchResult};
ghost use Rattle.wac_lexer.specs.Span.{span, end_of};
ghost use Rattle.wac_lexer.specs.Item.{next_token, after_first_item, OnFirst};
ghost use Rattle.wac_lexer.specs.Reading.{left, slice, Slices, Nexts};
ghost use Rattle.wac_ast_grammar.specs.Tokens.{at};
ghost use Rattle.wac_ast_grammar.specs.Tree.{join as joined};
ghost use Rattle.wac_ast_grammar.specs.Grammar.{Sym, TreeOf};
ghost use Rattle.wac_ast_grammar.specs.Reading.{read};
ghost use Rattle.wac_ast_base.specs.Error.{told_by, no_memory};
ghost use Rattle.wac_ast_base.specs.Lookahead.{Peeks, next_fault};
ghost use Rattle.wac_ast_base.specs.Answer.{Gives, Takes, plain, end_of_input, first_item, has_more, TakesOptional, RefusesNext, RefusesFound, RefusesEmpty};
ghost use Rattle.wac_ast_base.specs.Names.{doc_comment_of};
ghost use Rattle.wac_lexer.specs.declared.token.Token as the_token;
ghost use Rattle.wac_ast_base.specs.declared.error.Error.TheVariants.{Memory};
ghost use Rattle.std.specs.Fn.{FnOnceReturnsAtMut};
ghost use Rattle.wac_ast_base.specs.Optional.{PassesOn, DerivesAfter, GivesNone, FailsBy, ReportsFault};
ghost use Rattle.wac_lexer.specs.declared.token.Token.TheVariants as tokens;

use crate::error::{Error, ParseResult};
use crate::lookahead::Lookahead;
use crate::names::DocComment;
use std::alloc::{AllocError, Global};
use wac_lexer::{Lexer, LexerResult, SourceSpan, Token};

/// A part of a document that can be parsed.
///
/// A parser that fails leaves the lexer between two items, at its old place or after it. What else its result says, of
/// the item after a tree and of the place of an error, is the law `parsers_stop_at_first_faults`.
pub trait Parse<'a>: Sized {
    /// The production of the grammar.
    ghost symbol: { Sym };

    /// The tree of a value.
    ghost tree: { Self → TreeOf symbol };

    /// What is known of where a value ends.
    ghost fits: { Self → Type 0 } = { λ _. Unit {0} };

    /// Parses the items from the lexer's place on, as far as they belong to this part.
    fn parse(alloc: Global, lexer: &mut Lexer<'a>) -> ParseResult<Self>
        ensures gives { Gives tree result lexer.old lexer.new (read symbol (left lexer.old)) }
        ensures source { lexer.new.source ≡ lexer.old.source }
        ensures moves { lexer.old.place ≤ lexer.new.place }
        ensures fits { IfOk result (λ x. fits x) };
}

/// A part of a document that is known by its first token.
pub trait Peek {
    /// The part's first tokens, in the order in which they are tried.
    ghost firsts: { List the_token.Token };

    /// Whether the next item is one of those tokens. Those before it have been tried, or all if it isn't.
    fn peek(lookahead: &mut Lookahead) -> bool
        ensures { Peeks firsts result lookahead.old lookahead.new };
}

/// Takes the next item, which must be this token, and returns its span.
///
/// The item is taken even where it is rejected. At the end of the input the error has the lexer's `span` there.
#[tactic(auto, unfolding(crate::specs::Answer::told, crate::specs::Answer::end_of_input))]
pub fn parse_token(lexer: &mut Lexer, expected: Token) -> ParseResult<SourceSpan>
    ensures ok { IfOk result (λ s. next_token (left lexer.old) ≡ Some (Ok expected, s)) }
    ensures refused { IfErr result (RefusesNext expected lexer.old) }
    // The item is consumed, whether it is the token or not.
    ensures nexts { Nexts lexer.old (next_token (left lexer.old)) lexer.new }
    ensures rest { left lexer.new ≡ after_first_item (left lexer.old) }
    ensures source { lexer.new.source ≡ lexer.old.source }
    ensures moves { lexer.old.place ≤ lexer.new.place }
    ensures slices { IfOk result (λ s. Slices lexer.new.source s) }
    ensures fits { IfOk result (λ s. end_of s < 2 ^ 64) }
    ensures text { IfOk result (λ s. (first_item (left lexer.old)).text ≡ slice lexer.new.source s) }
    ensures end { IfOk result (λ _. end_of_input lexer.new ≡ end_of_input lexer.old) }
    ensures takes { plain expected ≡ true → Takes expected result lexer.old lexer.new }
{
    match lexer.next() {
        Some((found, span)) => {
            test_token(found, span, expected)?;
            Ok(span)
        }
        None => Err(Error::Expected {
            expected,
            found: None,
            span: lexer.span(),
        }),
    }
}

/// Takes the next item, which must be this token, whose text is always right.
pub fn take_token(lexer: &mut Lexer, expected: Token) -> ParseResult<SourceSpan>
    requires { plain expected ≡ true }
    ensures takes { Takes expected result lexer.old lexer.new }
    ensures source { lexer.new.source ≡ lexer.old.source }
    ensures moves { lexer.old.place ≤ lexer.new.place }
    ensures fits { IfOk result (λ s. end_of s < 2 ^ 64) }
{
    parse_token(lexer, expected)
}

/// Tests that an item is this token.
fn test_token(found: LexerResult<Token>, span: SourceSpan, expected: Token) -> ParseResult<()>
    ensures ok { IfOk result (λ _. found ≡ Ok expected) }
    ensures refused { IfErr result (RefusesFound expected (found, span)) }
{
    match found {
        Ok(found) => {
            if found == expected {
                Ok(())
            } else {
                Err(Error::Expected {
                    expected,
                    found: Some(found),
                    span,
                })
            }
        }
        Err(fault) => Err((fault, span).into()),
    }
}

/// From the first byte of a span to the last of another.
pub fn join(first: SourceSpan, last: SourceSpan) -> SourceSpan
    requires { end_of last < 2 ^ 64 }
    ensures { result ≡ joined first last }
{
    let end = last.offset() + last.len();
    SourceSpan::new(first.offset(), end.saturating_sub(first.offset()))
}

/// The documentation comments before the next item.
pub fn parse_docs<'a>(alloc: Global, lexer: &Lexer<'a>) -> ParseResult<Vec<DocComment<'a>>>
    ensures docs { IfOk result (λ v. OnFirst (left lexer.now) (λ x. x.docs ≡ map doc_comment_of v.items)) }
    ensures refused { IfErr result (λ e. told_by e ≡ no_memory) }
{
    let comments = lexer.comments(alloc)?;
    let mut docs = Vec::new(alloc);
    for (comment, span) in comments {
        push(&mut docs, DocComment { comment, span })?;
    }
    Ok(docs)
}

/// Whether the next item is this token.
pub fn at(lexer: &Lexer, token: Token) -> bool
    ensures { result ≡ at token (left lexer.now) }
{
    match lexer.peek() {
        Some((Ok(found), _)) => found == token,
        _ => false,
    }
}

/// Whether the item after the next is this token.
pub fn at_second(lexer: &Lexer, token: Token) -> bool
    ensures { result ≡ at token (after_first_item (left lexer.now)) }
{
    match lexer.peek2() {
        Some((Ok(found), _)) => found == token,
        _ => false,
    }
}

/// Adds an item at the end.
pub fn push<T: Drop>(items: &mut Vec<T>, item: T) -> ParseResult<()>
    ensures items { OnOk result (items.new.items ≡ items.old.items ++ item ∷ []) }
    ensures memory { IfErr result (λ e. e ≡ Memory alloc_error) }
{
    match items.push(item) {
        Ok(()) => Ok(()),
        Err(_) => Err(Error::Memory(AllocError)),
    }
}

/// Whether there is a next item.
pub fn has_more(lexer: &Lexer) -> bool
    ensures { result ≡ has_more (left lexer.now) }
{
    match lexer.peek() {
        Some(_) => true,
        None => false,
    }
}

/// A value in a box.
pub fn boxed<T: Drop>(alloc: Global, value: T) -> ParseResult<Box<T>>
    ensures value { IfOk result (λ b. b.value ≡ value) }
    ensures memory { IfErr result (λ e. e ≡ Memory alloc_error) }
{
    match Box::new(alloc, value) {
        Ok(boxed) => Ok(boxed),
        Err(_) => Err(Error::Memory(AllocError)),
    }
}

/// Takes the next item where it is this token, and returns whether it was.
///
/// A fault of the text is rejected, and not taken.
pub fn take_optional(lexer: &mut Lexer, expected: Token) -> ParseResult<bool>
    requires { plain expected ≡ true }
    ensures takes { TakesOptional expected result lexer.old lexer.new }
    // Only a fault is rejected, and nothing is taken there.
    ensures refused { IfErr result (ReportsFault lexer.old lexer.new) }
    ensures source { lexer.new.source ≡ lexer.old.source }
    ensures moves { lexer.old.place ≤ lexer.new.place }
{
    if at(lexer, expected) {
        let _ = parse_token(lexer, expected)?;
        return Ok(true);
    }
    refuse_fault(lexer)?;
    Ok(false)
}

/// Rejects a fault of the text in the next item's place.
fn refuse_fault(lexer: &Lexer) -> ParseResult<()>
    ensures { MatchResult result (λ _. next_fault lexer.now ≡ None) (λ e. next_fault lexer.now ≡ Some (told_by e)) }
{
    match lexer.peek() {
        Some((found, span)) => match found {
            Ok(_) => Ok(()),
            Err(fault) => Err((fault, span).into()),
        },
        None => Ok(()),
    }
}

/// Takes the next item where it is this token, and then returns what the callback gives.
///
/// Another token and the end give `None`. A fault of the text is rejected. Neither is taken.
pub fn parse_optional<'a, R, E: From<Error>, F: FnOnce(&mut Lexer<'a>) -> Result<R, E>>(
    lexer: &mut Lexer<'a>,
    expected: Token,
    cb: F,
) -> Result<Option<R>, E>
    requires { F.IsAlwaysCallable cb }
    // Where the token is next it is taken, and the callback's result is passed on.
    ensures called { PassesOn expected (FnOnceReturnsAtMut F.FnOnce cb) result lexer.old lexer.new }
    // Where each tree that the callback gives derives from the items that it took, so does what is given here.
    ensures derives { DerivesAfter (FnOnceReturnsAtMut F.FnOnce cb) result lexer.old lexer.new }
    // Another token and the end give nothing.
    ensures none { GivesNone expected result lexer.old lexer.new }
    // A fault is rejected, and not taken.
    ensures refused { IfSome (next_fault lexer.old) (FailsBy E.from_gives result lexer.old lexer.new) }
{
    if at(lexer, expected) {
        lexer.next();
        return match cb(lexer) {
            Ok(value) => Ok(Some(value)),
            Err(error) => Err(error),
        };
    }
    refuse_fault(lexer)?;
    Ok(None)
}

/// Rejects a closing brace in the next item's place, where a body of this type would have no such part.
pub fn refuse_empty(lexer: &Lexer, ty: &'static str, kind: &'static str) -> ParseResult<()>
    ensures filled { IfOk result (λ _. at tokens.CloseBrace (left lexer.now) ≡ false) }
    ensures refused { IfErr result (RefusesEmpty ty.now kind.now lexer.now) }
{
    match lexer.peek() {
        Some((found, span)) => {
            if at(lexer, Token::CloseBrace) {
                return Err(Error::EmptyType { ty, kind, span });
            }
            Ok(())
        }
        None => Ok(()),
    }
}
