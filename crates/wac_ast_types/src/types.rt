//! Types.

ghost use Rattle.std.specs.Prelude.{◌≡◌, ◌<◌, ◌≤◌, ◌∷◌, true, false, IfOk, IfErr, OnOk};
ghost use Rattle.std.specs.Option.{option_map};
ghost use Rattle.wac_lexer.specs.Item.{next_token, after_first_item};
ghost use Rattle.wac_lexer.specs.Reading.{left};
ghost use Rattle.wac_lexer.specs.declared.token.Token.TheVariants as tokens;
ghost use Rattle.wac_ast_grammar.specs.Grammar as symbols;
ghost use Rattle.wac_ast_grammar.specs.Tokens.{at};
ghost use Rattle.wac_ast_grammar.specs.Reading.{read, begins, at_one_of};
ghost use Rattle.wac_ast_base.specs.Error.{told_by};
ghost use Rattle.wac_ast_base.specs.Lookahead.{Peeks, looked, tried, told_of};
ghost use Rattle.wac_ast_base.specs.Answer.{Gives, Fails, FailsAs, plain, has_more, first_item, end_of_input};
ghost use Rattle.wac_ast_base.specs.Lists.{GivesItem, each, items_of};
ghost use Rattle.wac_ast_base.specs.Pieces.{GivesPart, Same};
ghost use Rattle.wac_ast_types.specs.Types.{ty_of, optional_of, compound, word_type, word_at, angled, angled_parts, angled_of, with_payload, second_rule, second_of, MadeOf};
ghost use Rattle.wac_ast_grammar.specs.Spans.{ty_span};

use std::alloc::Global;
use std::fmt;
use wac_ast_base::{
    Error, Ident, Lookahead, Parse, ParseResult, Peek, at, begins, boxed, join, no_item, push,
    take_comma, take_optional, take_token,
};
use wac_lexer::{Lexer, SourceSpan, Token};

/// A type.
#[derive(Drop)]
#[cycle(types)]
pub enum Type<'a> {
    /// `u8`
    U8(SourceSpan),
    /// `s8`
    S8(SourceSpan),
    /// `u16`
    U16(SourceSpan),
    /// `s16`
    S16(SourceSpan),
    /// `u32`
    U32(SourceSpan),
    /// `s32`
    S32(SourceSpan),
    /// `u64`
    U64(SourceSpan),
    /// `s64`
    S64(SourceSpan),
    /// `f32`
    F32(SourceSpan),
    /// `f64`
    F64(SourceSpan),
    /// `char`
    Char(SourceSpan),
    /// `bool`
    Bool(SourceSpan),
    /// `string`
    String(SourceSpan),
    /// `tuple<..>`, of at least one type
    Tuple(Vec<Type<'a>>, SourceSpan),
    /// `list<..>`
    List(Box<Type<'a>>, SourceSpan),
    /// `option<..>`
    Option(Box<Type<'a>>, SourceSpan),
    /// `result<.., ..>`
    Result {
        /// What is given on success.
        ok: Option<Box<Type<'a>>>,
        /// What is given on failure.
        err: Option<Box<Type<'a>>>,
        /// From the keyword to the closing angle.
        span: SourceSpan,
    },
    /// `borrow<..>`
    Borrow(Ident<'a>, SourceSpan),
    /// `stream` or `stream<..>`
    Stream(Option<Box<Type<'a>>>, SourceSpan),
    /// `future` or `future<..>`
    Future(Option<Box<Type<'a>>>, SourceSpan),
    /// `error-context`
    ErrorContext(SourceSpan),
    /// A name.
    Ident(Ident<'a>),
}

impl fmt::Debug for Type<'_> {
    // Its parts, which may be types again, are left out.
    fn fmt<W: fmt::Write>(&self, f: &mut fmt::Formatter<W>) -> fmt::Result {
        let span = self.span();
        write!(f, "Type {{ span: {span:?} }}")
    }
}

impl<'a> Type<'a> {
    /// The span of the type.
    pub fn span(&self) -> SourceSpan
        ensures { result ≡ ty_span (ty_of self.now) }
    {
        match self {
            Type::U8(span)
            | Type::S8(span)
            | Type::U16(span)
            | Type::S16(span)
            | Type::U32(span)
            | Type::S32(span)
            | Type::U64(span)
            | Type::S64(span)
            | Type::F32(span)
            | Type::F64(span)
            | Type::Char(span)
            | Type::Bool(span)
            | Type::String(span)
            | Type::Tuple(_, span)
            | Type::List(_, span)
            | Type::Option(_, span)
            | Type::Result { span, .. }
            | Type::Borrow(_, span)
            | Type::Stream(_, span)
            | Type::Future(_, span)
            | Type::ErrorContext(span) => *span,
            Type::Ident(ident) => ident.span,
        }
    }
}

impl<'a> Parse<'a> for Type<'a> {
    ghost symbol = { symbols.ty };

    ghost tree = { ty_of };

    #[cycle(types)]
    fn parse(alloc: Global, lexer: &mut Lexer<'a>) -> ParseResult<Self> {
        if at(lexer, Token::TupleKeyword) {
            parse_tuple(alloc, lexer)
        } else if at(lexer, Token::ListKeyword) {
            let (inner, span) = parse_angled(alloc, lexer, Token::ListKeyword)?;
            Ok(Type::List(inner, span))
        } else if at(lexer, Token::OptionKeyword) {
            let (inner, span) = parse_angled(alloc, lexer, Token::OptionKeyword)?;
            Ok(Type::Option(inner, span))
        } else if at(lexer, Token::ResultKeyword) {
            parse_result(alloc, lexer)
        } else if at(lexer, Token::BorrowKeyword) {
            parse_borrow(alloc, lexer)
        } else if at(lexer, Token::StreamKeyword) {
            let (inner, span) = parse_held(alloc, lexer)?;
            Ok(Type::Stream(inner, span))
        } else if at(lexer, Token::FutureKeyword) {
            let (inner, span) = parse_held(alloc, lexer)?;
            Ok(Type::Future(inner, span))
        } else {
            parse_simple(alloc, lexer)
        }
    }
}

impl<'a> Peek for Type<'a> {
    ghost firsts = { begins symbols.ty };

    fn peek(lookahead: &mut Lookahead) -> bool
        ensures { Peeks (begins symbols.ty) result lookahead.old lookahead.new }
    {
        peek_all(lookahead, &FIRSTS)
    }
}

/// The tokens that a type may begin with, in the order in which they are tried.
const FIRSTS: [Token; 22] = [
    Token::U8Keyword,
    Token::S8Keyword,
    Token::U16Keyword,
    Token::S16Keyword,
    Token::U32Keyword,
    Token::S32Keyword,
    Token::U64Keyword,
    Token::S64Keyword,
    Token::F32Keyword,
    Token::F64Keyword,
    Token::CharKeyword,
    Token::BoolKeyword,
    Token::StringKeyword,
    Token::TupleKeyword,
    Token::ListKeyword,
    Token::OptionKeyword,
    Token::ResultKeyword,
    Token::BorrowKeyword,
    Token::StreamKeyword,
    Token::FutureKeyword,
    Token::ErrorContextKeyword,
    Token::Ident,
];

/// Whether the next item is one of these tokens. Those before it have been tried, or all if it isn't.
fn peek_all(lookahead: &mut Lookahead, tokens: &[Token]) -> bool
    ensures { Peeks tokens.now result lookahead.old lookahead.new }
{
    for token in tokens {
        if lookahead.peek(*token) {
            return true;
        }
    }
    false
}

/// Whether the next item may begin a type.
fn at_type(lexer: &Lexer) -> bool
    ensures { result ≡ at_one_of (begins symbols.ty) (left lexer.now) }
{
    begins::<Type>(lexer)
}

/// The error that neither this token nor a type is next.
fn no_type_beside(lexer: &Lexer, other: Token) -> Error
    requires open { at other (left lexer.now) ≡ false }
    requires none { at_one_of (begins symbols.ty) (left lexer.now) ≡ false }
    ensures { told_by result ≡ told_of (tried (other ∷ begins symbols.ty) (looked lexer.now)) }
{
    no_item::<Type>(lexer, other)
}

/// The error that no type is next.
fn no_type(lexer: &Lexer) -> Error
    requires { at_one_of (begins symbols.ty) (left lexer.now) ≡ false }
    ensures { Fails result (end_of_input lexer.now) (read symbols.ty (left lexer.now)) }
{
    let mut lookahead = Lookahead::new(lexer);
    Type::peek(&mut lookahead);
    lookahead.error()
}

/// A type that is one token, or none at all.
fn parse_simple<'a>(alloc: Global, lexer: &mut Lexer<'a>) -> ParseResult<Type<'a>>
    requires { at_one_of compound (left lexer.now) ≡ false }
    ensures gives { Gives ty_of result lexer.old lexer.new (read symbols.ty (left lexer.old)) }
    ensures source { lexer.new.source ≡ lexer.old.source }
    ensures moves { lexer.old.place ≤ lexer.new.place }
{
    if at(lexer, Token::Ident) {
        return Ok(Type::Ident(Parse::parse(alloc, lexer)?));
    }
    match next_word(lexer) {
        Some(ty) => {
            take_item(lexer);
            Ok(ty)
        }
        None => Err(no_type(lexer)),
    }
}

/// The type that the next item is alone.
fn next_word<'a>(lexer: &Lexer) -> Option<Type<'a>>
    ensures { option_map ty_of result ≡ word_at (next_token (left lexer.now)) }
{
    match lexer.peek() {
        Some((Ok(token), span)) => type_of_word(token, span),
        _ => None,
    }
}

/// The type that a token is alone.
fn type_of_word<'a>(token: Token, span: SourceSpan) -> Option<Type<'a>>
    ensures { option_map ty_of result ≡ word_type token span }
{
    match token {
        Token::U8Keyword => Some(Type::U8(span)),
        Token::S8Keyword => Some(Type::S8(span)),
        Token::U16Keyword => Some(Type::U16(span)),
        Token::S16Keyword => Some(Type::S16(span)),
        Token::U32Keyword => Some(Type::U32(span)),
        Token::S32Keyword => Some(Type::S32(span)),
        Token::U64Keyword => Some(Type::U64(span)),
        Token::S64Keyword => Some(Type::S64(span)),
        Token::F32Keyword => Some(Type::F32(span)),
        Token::F64Keyword => Some(Type::F64(span)),
        Token::CharKeyword => Some(Type::Char(span)),
        Token::BoolKeyword => Some(Type::Bool(span)),
        Token::StringKeyword => Some(Type::String(span)),
        Token::ErrorContextKeyword => Some(Type::ErrorContext(span)),
        _ => None,
    }
}

/// Takes the next item, whatever it is, and returns its span.
#[tactic(auto, unfolding(wac_ast_base::specs::Answer::end_of_input))]
fn take_item(lexer: &mut Lexer) -> SourceSpan
    requires { has_more (left lexer.now) ≡ true }
    ensures span { result ≡ (first_item (left lexer.old)).span }
    ensures rest { left lexer.new ≡ after_first_item (left lexer.old) }
    ensures end { end_of_input lexer.new ≡ end_of_input lexer.old }
    ensures source { lexer.new.source ≡ lexer.old.source }
    ensures moves { lexer.old.place ≤ lexer.new.place }
{
    match lexer.next() {
        Some((_, span)) => span,
        None => lexer.span(),
    }
}

/// `borrow<..>`
fn parse_borrow<'a>(alloc: Global, lexer: &mut Lexer<'a>) -> ParseResult<Type<'a>>
    ensures gives { Gives ty_of result lexer.old lexer.new (read symbols.borrow_type (left lexer.old)) }
    ensures source { lexer.new.source ≡ lexer.old.source }
    ensures moves { lexer.old.place ≤ lexer.new.place }
{
    let first = take_token(lexer, Token::BorrowKeyword)?;
    take_token(lexer, Token::OpenAngle)?;
    let id = Parse::parse(alloc, lexer)?;
    let last = take_token(lexer, Token::CloseAngle)?;
    Ok(Type::Borrow(id, join(first, last)))
}

/// `tuple<..>`
#[cycle(types)]
fn parse_tuple<'a>(alloc: Global, lexer: &mut Lexer<'a>) -> ParseResult<Type<'a>>
    ensures gives { Gives ty_of result lexer.old lexer.new (read symbols.tuple_type (left lexer.old)) }
    ensures source { lexer.new.source ≡ lexer.old.source }
    ensures moves { lexer.old.place ≤ lexer.new.place }
{
    let first = take_token(lexer, Token::TupleKeyword)?;
    take_token(lexer, Token::OpenAngle)?;
    if !at_type(lexer) {
        return Err(no_type(lexer));
    }
    let types = parse_types(alloc, lexer)?;
    let last = take_token(lexer, Token::CloseAngle)?;
    Ok(Type::Tuple(types, join(first, last)))
}

/// The types up to a closing angle, which stays.
#[cycle(types)]
fn parse_types<'a>(alloc: Global, lexer: &mut Lexer<'a>) -> ParseResult<Vec<Type<'a>>>
    ensures gives { Gives (each ty_of) result lexer.old lexer.new (items_of symbols.ty (left lexer.old)) }
    ensures closed { OnOk result (at tokens.CloseAngle (left lexer.new) ≡ true) }
    ensures source { lexer.new.source ≡ lexer.old.source }
    ensures moves { lexer.old.place ≤ lexer.new.place }
{
    let mut types = Vec::new(alloc);
    while !at(lexer, Token::CloseAngle) {
        push(&mut types, parse_listed(alloc, lexer)?)?;
        take_comma::<Type>(lexer, Token::CloseAngle)?;
    }
    Ok(types)
}

/// A type in the place of a closing angle.
#[cycle(types)]
fn parse_listed<'a>(alloc: Global, lexer: &mut Lexer<'a>) -> ParseResult<Type<'a>>
    requires { at tokens.CloseAngle (left lexer.old) ≡ false }
    ensures gives { GivesItem symbols.ty tokens.CloseAngle ty_of result lexer.old lexer.new }
    ensures source { lexer.new.source ≡ lexer.old.source }
    ensures moves { lexer.old.place ≤ lexer.new.place }
{
    if !at_type(lexer) {
        return Err(no_type_beside(lexer, Token::CloseAngle));
    }
    Parse::parse(alloc, lexer)
}

/// A keyword and a type in angle brackets, with the span of all.
#[cycle(types)]
fn parse_angled<'a>(
    alloc: Global,
    lexer: &mut Lexer<'a>,
    keyword: Token,
) -> ParseResult<(Box<Type<'a>>, SourceSpan)>
    requires { plain keyword ≡ true }
    ensures gives { GivesPart (angled keyword) angled_parts Same angled_of result lexer.old lexer.new }
    ensures source { lexer.new.source ≡ lexer.old.source }
    ensures moves { lexer.old.place ≤ lexer.new.place }
{
    let first = take_token(lexer, keyword)?;
    take_token(lexer, Token::OpenAngle)?;
    let inner = boxed(alloc, Type::parse(alloc, lexer)?)?;
    let last = take_token(lexer, Token::CloseAngle)?;
    Ok((inner, join(first, last)))
}

/// `result`, and perhaps its parts.
#[cycle(types)]
fn parse_result<'a>(alloc: Global, lexer: &mut Lexer<'a>) -> ParseResult<Type<'a>>
    ensures gives { Gives ty_of result lexer.old lexer.new (read symbols.result_type (left lexer.old)) }
    ensures source { lexer.new.source ≡ lexer.old.source }
    ensures moves { lexer.old.place ≤ lexer.new.place }
{
    let first = take_token(lexer, Token::ResultKeyword)?;
    if !take_optional(lexer, Token::OpenAngle)? {
        return Ok(Type::Result {
            ok: None,
            err: None,
            span: first,
        });
    }
    let ok = parse_result_part(alloc, lexer)?;
    let err = parse_second_part(alloc, lexer)?;
    let last = take_token(lexer, Token::CloseAngle)?;
    Ok(Type::Result {
        ok,
        err,
        span: join(first, last),
    })
}

/// `_`, or a type.
#[cycle(types)]
fn parse_result_part<'a>(alloc: Global, lexer: &mut Lexer<'a>) -> ParseResult<Option<Box<Type<'a>>>>
    ensures gives { Gives optional_of result lexer.old lexer.new (read symbols.result_part (left lexer.old)) }
    ensures source { lexer.new.source ≡ lexer.old.source }
    ensures moves { lexer.old.place ≤ lexer.new.place }
{
    if at(lexer, Token::Underscore) {
        take_token(lexer, Token::Underscore)?;
        return Ok(None);
    }
    if !at_type(lexer) {
        return Err(no_type_beside(lexer, Token::Underscore));
    }
    let ty = boxed(alloc, Type::parse(alloc, lexer)?)?;
    Ok(Some(ty))
}

/// The part of a result after a comma, where a comma is next.
#[cycle(types)]
fn parse_second_part<'a>(alloc: Global, lexer: &mut Lexer<'a>) -> ParseResult<Option<Box<Type<'a>>>>
    ensures gives { GivesPart second_rule second_of Same optional_of result lexer.old lexer.new }
    ensures source { lexer.new.source ≡ lexer.old.source }
    ensures moves { lexer.old.place ≤ lexer.new.place }
{
    if take_optional(lexer, Token::Comma)? {
        return parse_result_part(alloc, lexer);
    }
    Ok(None)
}

/// The next item, whatever it is, and perhaps a type in angle brackets after it, with the span of all.
#[cycle(types)]
fn parse_held<'a>(
    alloc: Global,
    lexer: &mut Lexer<'a>,
) -> ParseResult<(Option<Box<Type<'a>>>, SourceSpan)>
    requires { has_more (left lexer.now) ≡ true }
    ensures gives { Gives (λ x. (optional_of x.0, x.1)) result lexer.old lexer.new (with_payload (left lexer.old)) }
    ensures source { lexer.new.source ≡ lexer.old.source }
    ensures moves { lexer.old.place ≤ lexer.new.place }
{
    let first = take_item(lexer);
    if take_optional(lexer, Token::OpenAngle)? {
        let inner = boxed(alloc, Type::parse(alloc, lexer)?)?;
        let last = take_token(lexer, Token::CloseAngle)?;
        return Ok((Some(inner), join(first, last)));
    }
    Ok((None, first))
}

/// Takes the next item, whatever it is, and perhaps a type in angle brackets after it, and makes a type of them.
///
/// The constructor is given the type in the brackets, and the span of all.
pub fn parse_optional_payload<
    'a,
    E: From<Error>,
    F: FnOnce(Option<Box<Type<'a>>>, SourceSpan) -> Type<'a>,
>(alloc: Global, lexer: &mut Lexer<'a>, ctor: F) -> Result<Type<'a>, E>
    requires next { has_more (left lexer.now) ≡ true }
    requires callable { F.IsAlwaysCallable ctor }
    // What was taken is what the constructor was given.
    ensures made { IfOk result (λ x. MadeOf (λ inner s y. F.post ctor inner s y) x (left lexer.old) (left lexer.new)) }
    // Nothing is read after it: at the end of the input the lexer reports the span of the last item.
    ensures end { IfOk result (λ _. end_of_input lexer.new ≡ end_of_input lexer.old) }
    // An error reports the place where no such type continues.
    ensures refused { IfErr result (FailsAs E.from_gives (end_of_input lexer.old) (with_payload (left lexer.old))) }
    ensures source { lexer.new.source ≡ lexer.old.source }
    ensures moves { lexer.old.place ≤ lexer.new.place }
{
    let (inner, span) = parse_held(alloc, lexer)?;
    Ok(ctor(inner, span))
}
