//! Expressions.

ghost use Rattle.std.specs.Prelude.{◌≡◌, ◌<◌, ◌≤◌, ◌^◌, ◌||◌, map, true, false, IfOk, OnOk};
ghost use Rattle.wac_lexer.specs.Span.{end_of};
ghost use Rattle.wac_lexer.specs.Item.{after_first_item};
ghost use Rattle.wac_lexer.specs.Reading.{left};
ghost use Rattle.wac_lexer.specs.declared.token.Token.TheVariants as tokens;
ghost use Rattle.wac_ast_grammar.specs.Tokens.{at};
ghost use Rattle.wac_ast_grammar.specs.Grammar as symbols;
ghost use Rattle.wac_ast_grammar.specs.Grammar.{primary_span, postfix_span, last_span};
ghost use Rattle.wac_ast_grammar.specs.Reading.{read, begins, at_one_of};
ghost use Rattle.wac_ast_base.specs.Error.{told_by};
ghost use Rattle.wac_ast_base.specs.Lookahead.{Peeks, looked, tried, told_of};
ghost use Rattle.wac_ast_base.specs.Lists.{GivesItem, each, items_of};
ghost use Rattle.wac_ast_base.specs.Answer.{Gives};
ghost use Rattle.wac_ast_statements.specs.Expressions.{access_expr_of, named_access_expr_of, postfix_expr_of, primary_expr_of, expr_of, new_expr_of, nested_expr_of, argument_of, argument_name_of, named_argument_of, after_first, EndFits};
ghost use Rattle.wac_ast_grammar.specs.Spans.{argument_name_span, argument_name_text};

use std::alloc::Global;
use std::fmt;
use wac_ast_base::{
    Error, Ident, Lookahead, PackageName, Parse, ParseResult, Peek, String, at, at_second, begins,
    boxed, join, no_item, push, take_comma, take_token, write_variant,
};
use wac_lexer::{Lexer, SourceSpan, Token};

/// An expression: a primary one, and accesses after it.
#[derive(Drop)]
#[cycle(expr)]
pub struct Expr<'a> {
    /// From the primary expression's start to the last access's end.
    pub span: SourceSpan,
    /// What it begins with.
    pub primary: PrimaryExpr<'a>,
    /// The accesses, in order.
    pub postfix: Vec<PostfixExpr<'a>>,
}

impl fmt::Debug for Expr<'_> {
    // Its parts, which may hold expressions again, are left out.
    fn fmt<W: fmt::Write>(&self, f: &mut fmt::Formatter<W>) -> fmt::Result {
        let span = self.span;
        write!(f, "Expr {{ span: {span:?} }}")
    }
}

/// What an expression begins with.
#[derive(Drop)]
#[cycle(expr)]
pub enum PrimaryExpr<'a> {
    /// `new a:b { .. }`
    New(NewExpr<'a>),
    /// `(x)`
    Nested(NestedExpr<'a>),
    /// `x`
    Ident(Ident<'a>),
}

impl fmt::Debug for PrimaryExpr<'_> {
    fn fmt<W: fmt::Write>(&self, f: &mut fmt::Formatter<W>) -> fmt::Result {
        match self {
            PrimaryExpr::New(part) => write_variant(f, "New", part),
            PrimaryExpr::Nested(part) => write_variant(f, "Nested", part),
            PrimaryExpr::Ident(part) => write_variant(f, "Ident", part),
        }
    }
}

/// An instantiation of a package: `new a:b { x, y: z, ...i, ... }`.
#[derive(Drop)]
#[cycle(expr)]
pub struct NewExpr<'a> {
    /// From `new` to the closing brace.
    pub span: SourceSpan,
    /// The package that is instantiated.
    pub package: PackageName<'a>,
    /// Its arguments, in order.
    pub arguments: Vec<InstantiationArgument<'a>>,
}

impl fmt::Debug for NewExpr<'_> {
    fn fmt<W: fmt::Write>(&self, f: &mut fmt::Formatter<W>) -> fmt::Result {
        let NewExpr {
            span,
            package,
            arguments,
        } = self;
        write!(
            f,
            "NewExpr {{ span: {span:?}, package: {package:?}, arguments: {arguments:?} }}"
        )
    }
}

/// An argument of an instantiation.
#[derive(Drop)]
#[cycle(expr)]
pub enum InstantiationArgument<'a> {
    /// `x`: for the import whose name is found from the identifier.
    Inferred(Ident<'a>),
    /// `...x`: the exports of an instance, for the imports of their names.
    Spread(Ident<'a>),
    /// `x: y`: for the import of that name.
    Named(NamedInstantiationArgument<'a>),
    /// `...`: the imports that are left over are imported. It holds the span of the three dots.
    Fill(SourceSpan),
}

impl fmt::Debug for InstantiationArgument<'_> {
    fn fmt<W: fmt::Write>(&self, f: &mut fmt::Formatter<W>) -> fmt::Result {
        match self {
            InstantiationArgument::Inferred(part) => write_variant(f, "Inferred", part),
            InstantiationArgument::Spread(part) => write_variant(f, "Spread", part),
            InstantiationArgument::Named(part) => write_variant(f, "Named", part),
            InstantiationArgument::Fill(part) => write_variant(f, "Fill", part),
        }
    }
}

/// `x: y` among the arguments of an instantiation.
#[derive(Drop)]
#[cycle(expr)]
pub struct NamedInstantiationArgument<'a> {
    /// The name of the import.
    pub name: InstantiationArgumentName<'a>,
    /// What it is given.
    pub expr: Expr<'a>,
}

impl fmt::Debug for NamedInstantiationArgument<'_> {
    fn fmt<W: fmt::Write>(&self, f: &mut fmt::Formatter<W>) -> fmt::Result {
        let NamedInstantiationArgument { name, expr } = self;
        write!(
            f,
            "NamedInstantiationArgument {{ name: {name:?}, expr: {expr:?} }}"
        )
    }
}

/// An expression in parentheses.
#[derive(Drop)]
#[cycle(expr)]
pub struct NestedExpr<'a> {
    /// From the first parenthesis to the last.
    pub span: SourceSpan,
    /// What is between them.
    pub inner: Box<Expr<'a>>,
}

impl fmt::Debug for NestedExpr<'_> {
    fn fmt<W: fmt::Write>(&self, f: &mut fmt::Formatter<W>) -> fmt::Result {
        let NestedExpr { span, inner } = self;
        write!(f, "NestedExpr {{ span: {span:?}, inner: {inner:?} }}")
    }
}

/// The name of an argument of an instantiation.
#[derive(Clone, Copy)]
pub enum InstantiationArgumentName<'a> {
    /// An identifier.
    Ident(Ident<'a>),
    /// A string.
    String(String<'a>),
}

impl fmt::Debug for InstantiationArgumentName<'_> {
    fn fmt<W: fmt::Write>(&self, f: &mut fmt::Formatter<W>) -> fmt::Result {
        match self {
            InstantiationArgumentName::Ident(part) => write_variant(f, "Ident", part),
            InstantiationArgumentName::String(part) => write_variant(f, "String", part),
        }
    }
}

/// What may follow an expression.
#[derive(Clone, Copy)]
pub enum PostfixExpr<'a> {
    /// `.x`
    Access(AccessExpr<'a>),
    /// `["x"]`
    NamedAccess(NamedAccessExpr<'a>),
}

impl fmt::Debug for PostfixExpr<'_> {
    fn fmt<W: fmt::Write>(&self, f: &mut fmt::Formatter<W>) -> fmt::Result {
        match self {
            PostfixExpr::Access(part) => write_variant(f, "Access", part),
            PostfixExpr::NamedAccess(part) => write_variant(f, "NamedAccess", part),
        }
    }
}

/// An access to an export of an instance, as `.x`.
#[derive(Clone, Copy)]
pub struct AccessExpr<'a> {
    /// From the dot to the end of the identifier.
    pub span: SourceSpan,
    /// The name of the export.
    pub id: Ident<'a>,
}

impl fmt::Debug for AccessExpr<'_> {
    fn fmt<W: fmt::Write>(&self, f: &mut fmt::Formatter<W>) -> fmt::Result {
        let AccessExpr { span, id } = self;
        write!(f, "AccessExpr {{ span: {span:?}, id: {id:?} }}")
    }
}

/// An access to an export of an instance, as `["x"]`.
#[derive(Clone, Copy)]
pub struct NamedAccessExpr<'a> {
    /// From the first bracket to the last.
    pub span: SourceSpan,
    /// The name of the export.
    pub string: String<'a>,
}

impl fmt::Debug for NamedAccessExpr<'_> {
    fn fmt<W: fmt::Write>(&self, f: &mut fmt::Formatter<W>) -> fmt::Result {
        let NamedAccessExpr { span, string } = self;
        write!(
            f,
            "NamedAccessExpr {{ span: {span:?}, string: {string:?} }}"
        )
    }
}

impl<'a> PrimaryExpr<'a> {
    /// The span of the expression.
    pub fn span(&self) -> SourceSpan
        ensures { result ≡ primary_span (primary_expr_of self.now) }
    {
        match self {
            PrimaryExpr::New(new) => new.span,
            PrimaryExpr::Nested(nested) => nested.span,
            PrimaryExpr::Ident(ident) => ident.span,
        }
    }
}

impl<'a> PostfixExpr<'a> {
    /// The span of the expression.
    pub fn span(&self) -> SourceSpan
        ensures { result ≡ postfix_span (postfix_expr_of self.now) }
    {
        match self {
            PostfixExpr::Access(access) => access.span,
            PostfixExpr::NamedAccess(access) => access.span,
        }
    }
}

impl<'a> InstantiationArgumentName<'a> {
    /// The span of the name.
    pub fn span(&self) -> SourceSpan
        ensures { result ≡ argument_name_span (argument_name_of self.now) }
    {
        match self {
            InstantiationArgumentName::Ident(ident) => ident.span,
            InstantiationArgumentName::String(string) => string.span,
        }
    }

    /// The name: the identifier without a leading `%`, or the string without its quotes.
    pub fn as_str(&self) -> &'a str
        ensures { result.now ≡ argument_name_text (argument_name_of self.now) }
    {
        match self {
            InstantiationArgumentName::Ident(ident) => ident.string,
            InstantiationArgumentName::String(string) => string.value,
        }
    }
}

impl<'a> Parse<'a> for Expr<'a> {
    ghost symbol = { symbols.expr };

    ghost tree = { expr_of };

    #[cycle(parser)]
    fn parse(alloc: Global, lexer: &mut Lexer<'a>) -> ParseResult<Self> {
        let primary = Parse::parse(alloc, lexer)?;
        parse_accesses_after(alloc, lexer, primary)
    }
}

/// The expression that begins with this one, and continues with the accesses after it.
fn parse_accesses_after<'a>(
    alloc: Global,
    lexer: &mut Lexer<'a>,
    primary: PrimaryExpr<'a>,
) -> ParseResult<Expr<'a>>
    requires { end_of (primary_span (primary_expr_of primary)) < 2 ^ 64 }
    ensures gives { Gives expr_of result lexer.old lexer.new (after_first primary.entry (left lexer.old)) }
    ensures source { lexer.new.source ≡ lexer.old.source }
    ensures moves { lexer.old.place ≤ lexer.new.place }
{
    let postfix = parse_postfixes(alloc, lexer)?;
    let first = primary.span();
    Ok(Expr {
        span: join(first, last_span(first, &postfix)),
        primary,
        postfix,
    })
}

/// The span of the last of these expressions, or where there is none the span before them.
fn last_span(before: SourceSpan, postfix: &[PostfixExpr]) -> SourceSpan
    ensures { result ≡ last_span before (map postfix_expr_of postfix.now) }
{
    match postfix.last() {
        Some(last) => last.span(),
        None => before,
    }
}

impl<'a> Parse<'a> for PrimaryExpr<'a> {
    ghost symbol = { symbols.primary_expr };

    ghost tree = { primary_expr_of };

    ghost fits = { λ x. end_of (primary_span (primary_expr_of x)) < 2 ^ 64 };

    #[cycle(parser)]
    fn parse(alloc: Global, lexer: &mut Lexer<'a>) -> ParseResult<Self> {
        let mut lookahead = Lookahead::new(lexer);
        if NewExpr::peek(&mut lookahead) {
            Ok(PrimaryExpr::New(Parse::parse(alloc, lexer)?))
        } else if NestedExpr::peek(&mut lookahead) {
            Ok(PrimaryExpr::Nested(Parse::parse(alloc, lexer)?))
        } else if Ident::peek(&mut lookahead) {
            Ok(PrimaryExpr::Ident(Parse::parse(alloc, lexer)?))
        } else {
            Err(lookahead.error())
        }
    }
}

impl<'a> Parse<'a> for NewExpr<'a> {
    ghost symbol = { symbols.new_expr };

    ghost tree = { new_expr_of };

    ghost fits = { λ x. end_of (primary_span (new_expr_of x)) < 2 ^ 64 };

    #[cycle(parser)]
    fn parse(alloc: Global, lexer: &mut Lexer<'a>) -> ParseResult<Self> {
        let first = take_token(lexer, Token::NewKeyword)?;
        let package = Parse::parse(alloc, lexer)?;
        take_token(lexer, Token::OpenBrace)?;
        let arguments = parse_arguments(alloc, lexer)?;
        let last = take_token(lexer, Token::CloseBrace)?;
        Ok(NewExpr {
            span: join(first, last),
            package,
            arguments,
        })
    }
}

impl<'a> Peek for NewExpr<'a> {
    ghost firsts = { begins symbols.new_expr };

    fn peek(lookahead: &mut Lookahead) -> bool
        ensures { Peeks (begins symbols.new_expr) result lookahead.old lookahead.new }
    {
        lookahead.peek(Token::NewKeyword)
    }
}

/// The arguments before the closing brace, which stays.
#[cycle(parser)]
fn parse_arguments<'a>(
    alloc: Global,
    lexer: &mut Lexer<'a>,
) -> ParseResult<Vec<InstantiationArgument<'a>>>
    ensures gives { Gives (each argument_of) result lexer.old lexer.new (items_of symbols.argument (left lexer.old)) }
    ensures closed { OnOk result (at tokens.CloseBrace (left lexer.new) ≡ true) }
    ensures source { lexer.new.source ≡ lexer.old.source }
    ensures moves { lexer.old.place ≤ lexer.new.place }
{
    let mut arguments = Vec::new(alloc);
    while !at(lexer, Token::CloseBrace) {
        push(&mut arguments, parse_listed(alloc, lexer)?)?;
        take_comma::<InstantiationArgument>(lexer, Token::CloseBrace)?;
    }
    Ok(arguments)
}

/// An argument in the place of a closing brace.
#[cycle(parser)]
fn parse_listed<'a>(alloc: Global, lexer: &mut Lexer<'a>) -> ParseResult<InstantiationArgument<'a>>
    requires { at tokens.CloseBrace (left lexer.old) ≡ false }
    ensures gives { GivesItem symbols.argument tokens.CloseBrace argument_of result lexer.old lexer.new }
    ensures source { lexer.new.source ≡ lexer.old.source }
    ensures moves { lexer.old.place ≤ lexer.new.place }
{
    if !begins::<InstantiationArgument>(lexer) {
        return Err(no_item::<InstantiationArgument>(lexer, Token::CloseBrace));
    }
    Parse::parse(alloc, lexer)
}

impl<'a> Parse<'a> for InstantiationArgument<'a> {
    ghost symbol = { symbols.argument };

    ghost tree = { argument_of };

    #[cycle(parser)]
    fn parse(alloc: Global, lexer: &mut Lexer<'a>) -> ParseResult<Self> {
        if at(lexer, Token::Ellipsis) {
            return parse_dots(alloc, lexer);
        }
        if !begins::<InstantiationArgumentName>(lexer) {
            return Err(no_argument(lexer));
        }
        if at_second(lexer, Token::Colon) {
            return Ok(InstantiationArgument::Named(Parse::parse(alloc, lexer)?));
        }
        parse_inferred(alloc, lexer)
    }
}

impl<'a> Peek for InstantiationArgument<'a> {
    ghost firsts = { begins symbols.argument };

    fn peek(lookahead: &mut Lookahead) -> bool
        ensures { Peeks (begins symbols.argument) result lookahead.old lookahead.new }
    {
        lookahead.peek(Token::Ellipsis) || InstantiationArgumentName::peek(lookahead)
    }
}

/// An argument that begins with three dots.
fn parse_dots<'a>(alloc: Global, lexer: &mut Lexer<'a>) -> ParseResult<InstantiationArgument<'a>>
    requires { at tokens.Ellipsis (left lexer.old) ≡ true }
    ensures gives { Gives argument_of result lexer.old lexer.new (read symbols.argument (left lexer.old)) }
    ensures source { lexer.new.source ≡ lexer.old.source }
    ensures moves { lexer.old.place ≤ lexer.new.place }
{
    let dots = take_token(lexer, Token::Ellipsis)?;
    if argument_ends(lexer) {
        return Ok(InstantiationArgument::Fill(dots));
    }
    Ok(InstantiationArgument::Spread(Parse::parse(alloc, lexer)?))
}

/// The error that no argument begins with the next item.
fn no_argument(lexer: &Lexer) -> Error
    requires { at_one_of (begins symbols.argument) (left lexer.now) ≡ false }
    ensures { told_by result ≡ told_of (tried (begins symbols.argument) (looked lexer.now)) }
{
    let mut lookahead = Lookahead::new(lexer);
    InstantiationArgument::peek(&mut lookahead);
    lookahead.error()
}

/// Whether the next item is a comma or a closing brace.
fn argument_ends(lexer: &Lexer) -> bool
    ensures { result ≡ (at tokens.Comma (left lexer.now) || at tokens.CloseBrace (left lexer.now)) }
{
    at(lexer, Token::Comma) || at(lexer, Token::CloseBrace)
}

/// An argument without a name of its own.
///
/// A string here is rejected, for it is no identifier.
fn parse_inferred<'a>(
    alloc: Global,
    lexer: &mut Lexer<'a>,
) -> ParseResult<InstantiationArgument<'a>>
    requires no_dots { at tokens.Ellipsis (left lexer.old) ≡ false }
    requires name { at_one_of (begins symbols.argument_name) (left lexer.old) ≡ true }
    requires alone { at tokens.Colon (after_first_item (left lexer.old)) ≡ false }
    ensures gives { Gives argument_of result lexer.old lexer.new (read symbols.argument (left lexer.old)) }
    ensures source { lexer.new.source ≡ lexer.old.source }
    ensures moves { lexer.old.place ≤ lexer.new.place }
{
    Ok(InstantiationArgument::Inferred(Parse::parse(alloc, lexer)?))
}

impl<'a> Parse<'a> for NamedInstantiationArgument<'a> {
    ghost symbol = { symbols.named_argument };

    ghost tree = { named_argument_of };

    #[cycle(parser)]
    fn parse(alloc: Global, lexer: &mut Lexer<'a>) -> ParseResult<Self> {
        let name = Parse::parse(alloc, lexer)?;
        take_token(lexer, Token::Colon)?;
        let expr = Parse::parse(alloc, lexer)?;
        Ok(NamedInstantiationArgument { name, expr })
    }
}

impl<'a> Peek for NamedInstantiationArgument<'a> {
    ghost firsts = { begins symbols.named_argument };

    fn peek(lookahead: &mut Lookahead) -> bool
        ensures { Peeks (begins symbols.named_argument) result lookahead.old lookahead.new }
    {
        InstantiationArgumentName::peek(lookahead)
    }
}

impl<'a> Parse<'a> for InstantiationArgumentName<'a> {
    ghost symbol = { symbols.argument_name };

    ghost tree = { argument_name_of };

    fn parse(alloc: Global, lexer: &mut Lexer<'a>) -> ParseResult<Self> {
        let mut lookahead = Lookahead::new(lexer);
        if Ident::peek(&mut lookahead) {
            Ok(InstantiationArgumentName::Ident(Parse::parse(alloc, lexer)?))
        } else if String::peek(&mut lookahead) {
            Ok(InstantiationArgumentName::String(Parse::parse(alloc, lexer)?))
        } else {
            Err(lookahead.error())
        }
    }
}

impl<'a> Peek for InstantiationArgumentName<'a> {
    ghost firsts = { begins symbols.argument_name };

    fn peek(lookahead: &mut Lookahead) -> bool
        ensures { Peeks (begins symbols.argument_name) result lookahead.old lookahead.new }
    {
        Ident::peek(lookahead) || String::peek(lookahead)
    }
}

impl<'a> Parse<'a> for NestedExpr<'a> {
    ghost symbol = { symbols.nested_expr };

    ghost tree = { nested_expr_of };

    ghost fits = { λ x. end_of (primary_span (nested_expr_of x)) < 2 ^ 64 };

    #[cycle(parser)]
    fn parse(alloc: Global, lexer: &mut Lexer<'a>) -> ParseResult<Self> {
        let first = take_token(lexer, Token::OpenParen)?;
        let inner = boxed(alloc, Parse::parse(alloc, lexer)?)?;
        let last = take_token(lexer, Token::CloseParen)?;
        Ok(NestedExpr {
            span: join(first, last),
            inner,
        })
    }
}

impl<'a> Peek for NestedExpr<'a> {
    ghost firsts = { begins symbols.nested_expr };

    fn peek(lookahead: &mut Lookahead) -> bool
        ensures { Peeks (begins symbols.nested_expr) result lookahead.old lookahead.new }
    {
        lookahead.peek(Token::OpenParen)
    }
}

/// The accesses that follow a primary expression.
fn parse_postfixes<'a>(alloc: Global, lexer: &mut Lexer<'a>) -> ParseResult<Vec<PostfixExpr<'a>>>
    ensures gives { Gives (each postfix_expr_of) result lexer.old lexer.new (read symbols.postfixes (left lexer.old)) }
    ensures source { lexer.new.source ≡ lexer.old.source }
    ensures moves { lexer.old.place ≤ lexer.new.place }
    ensures fits { IfOk result (λ v. EndFits (map postfix_expr_of v.items)) }
{
    let mut postfixes = Vec::new(alloc);
    while begins::<PostfixExpr>(lexer) {
        push(&mut postfixes, Parse::parse(alloc, lexer)?)?;
    }
    Ok(postfixes)
}

impl<'a> Parse<'a> for PostfixExpr<'a> {
    ghost symbol = { symbols.postfix_expr };

    ghost tree = { postfix_expr_of };

    ghost fits = { λ x. end_of (postfix_span (postfix_expr_of x)) < 2 ^ 64 };

    fn parse(alloc: Global, lexer: &mut Lexer<'a>) -> ParseResult<Self> {
        let mut lookahead = Lookahead::new(lexer);
        if AccessExpr::peek(&mut lookahead) {
            Ok(PostfixExpr::Access(Parse::parse(alloc, lexer)?))
        } else if NamedAccessExpr::peek(&mut lookahead) {
            Ok(PostfixExpr::NamedAccess(Parse::parse(alloc, lexer)?))
        } else {
            Err(lookahead.error())
        }
    }
}

impl<'a> Peek for PostfixExpr<'a> {
    ghost firsts = { begins symbols.postfix_expr };

    fn peek(lookahead: &mut Lookahead) -> bool
        ensures { Peeks (begins symbols.postfix_expr) result lookahead.old lookahead.new }
    {
        AccessExpr::peek(lookahead) || NamedAccessExpr::peek(lookahead)
    }
}

impl<'a> Parse<'a> for AccessExpr<'a> {
    ghost symbol = { symbols.access_expr };

    ghost tree = { access_expr_of };

    ghost fits = { λ x. end_of x.span < 2 ^ 64 };

    fn parse(alloc: Global, lexer: &mut Lexer<'a>) -> ParseResult<Self> {
        let first = take_token(lexer, Token::Dot)?;
        let id: Ident = Parse::parse(alloc, lexer)?;
        Ok(AccessExpr {
            span: join(first, id.span),
            id,
        })
    }
}

impl<'a> Peek for AccessExpr<'a> {
    ghost firsts = { begins symbols.access_expr };

    fn peek(lookahead: &mut Lookahead) -> bool
        ensures { Peeks (begins symbols.access_expr) result lookahead.old lookahead.new }
    {
        lookahead.peek(Token::Dot)
    }
}

impl<'a> Parse<'a> for NamedAccessExpr<'a> {
    ghost symbol = { symbols.named_access_expr };

    ghost tree = { named_access_expr_of };

    ghost fits = { λ x. end_of x.span < 2 ^ 64 };

    fn parse(alloc: Global, lexer: &mut Lexer<'a>) -> ParseResult<Self> {
        let first = take_token(lexer, Token::OpenBracket)?;
        let string = Parse::parse(alloc, lexer)?;
        let last = take_token(lexer, Token::CloseBracket)?;
        Ok(NamedAccessExpr {
            span: join(first, last),
            string,
        })
    }
}

impl<'a> Peek for NamedAccessExpr<'a> {
    ghost firsts = { begins symbols.named_access_expr };

    fn peek(lookahead: &mut Lookahead) -> bool
        ensures { Peeks (begins symbols.named_access_expr) result lookahead.old lookahead.new }
    {
        lookahead.peek(Token::OpenBracket)
    }
}
