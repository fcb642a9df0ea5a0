//! Where the statements of a text are.
//!
//! A statement ends at the first `;` outside braces; a declaration ends at the brace that closes its first one. Of the
//! brackets only braces are counted: no others can have a `;` between them, so one that isn't closed costs no more than
//! its statement.
ghost use Rattle.std.specs.Prelude.{◌≡◌, ◌+◌, ◌<◌, ◌^◌, IfSome, length, None};
ghost use Rattle.std.specs.Option.{option_map};
ghost use Rattle.wac_lexer.specs.Reading.{left, Slices};
ghost use Rattle.wac_lexer.specs.declared.token.Token.TheVariants.{Semicolon};
ghost use Rattle.wac_ast_grammar.specs.Tokens.{is_token};
ghost use Rattle.wac_ast_base.specs.Lookahead.{is_next};
ghost use Rattle.wac_recovery.specs.Statements.{
  begins_at,
  begins_declaration,
  begins_plain,
  depth_after,
  leads,
  part_at,
  statement_among,
  with_item,
};

use wac_lexer::{Lexer, LexerResult, SourceSpan, Token, refused_characters_are_first};

/// An item as a lexer gives it.
type NextToken = Option<(LexerResult<Token>, SourceSpan)>;

/// What may end a statement.
#[derive(Clone, Copy)]
pub(crate) enum Sort {
    /// It begins with `package`, `import`, `let`, `export` or `type`: only `;` ends it.
    Plain,
    /// It is a declaration: the brace that closes its first one ends it.
    Declaration,
    /// It begins with something else, as with a misspelled keyword: that brace ends it where no `;` follows.
    Unknown,
}

/// A statement that was begun.
#[derive(Clone, Copy)]
pub(crate) struct Begun {
    /// Where its first item begins.
    start: usize,
    /// What may end it.
    sort: Sort,
    /// How many of its braces are open.
    depth: usize,
}

/// What is blanked for a fault.
#[derive(Clone, Copy)]
pub(crate) struct Part {
    /// Where it lies.
    pub(crate) span: SourceSpan,
    /// Whether it is where the text's directive belongs.
    pub(crate) leads: bool,
}

/// Whether an item is a token.
fn is_token(item: LexerResult<Token>, token: Token) -> bool
    ensures { result ≡ is_token token item }
{
    match item {
        Ok(found) => found == token,
        Err(_) => false,
    }
}

/// Whether an item begins a statement that `;` alone ends.
fn begins_plain(item: LexerResult<Token>) -> bool
    ensures { result ≡ begins_plain item }
{
    matches!(
        item,
        Ok(
            Token::PackageKeyword
                | Token::ImportKeyword
                | Token::LetKeyword
                | Token::ExportKeyword
                | Token::TypeKeyword
        )
    )
}

/// Whether an item begins a declaration: a statement that ends with the brace that closes its first one.
///
/// ```text
/// begins_declaration(Ok(Token::InterfaceKeyword))      // true
/// begins_declaration(Ok(Token::TypeKeyword))           // false: `;` ends it
/// ```
pub fn begins_declaration(item: LexerResult<Token>) -> bool
    ensures { result ≡ begins_declaration item }
{
    matches!(
        item,
        Ok(
            Token::InterfaceKeyword
                | Token::WorldKeyword
                | Token::VariantKeyword
                | Token::RecordKeyword
                | Token::FlagsKeyword
                | Token::EnumKeyword
        )
    )
}

/// Whether the next item is `;`.
fn is_semicolon(next: NextToken) -> bool
    ensures { result ≡ is_next Semicolon next }
{
    match next {
        Some((item, _)) => is_token(item, Token::Semicolon),
        None => false,
    }
}

/// Whether the next item is at an offset.
fn begins_at(next: NextToken, offset: usize) -> bool
    ensures { result ≡ begins_at next offset }
{
    match next {
        Some((_, span)) => span.offset() == offset,
        None => false,
    }
}

/// How many braces are open after an item.
fn depth_after(depth: usize, item: LexerResult<Token>) -> usize
    requires { depth + 1 < 2 ^ 64 }
    ensures { result ≡ depth_after depth item }
{
    if is_token(item, Token::OpenBrace) {
        depth + 1
    } else if is_token(item, Token::CloseBrace) {
        depth.saturating_sub(1)
    } else {
        depth
    }
}

impl Sort {
    ghost use Rattle.std.specs.Prelude.{◌≡◌};
    ghost use Rattle.wac_recovery.specs.Statements.{ends_with_brace, sort_of};

    /// The sort of statement that begins with an item.
    fn of(item: LexerResult<Token>) -> Sort
        ensures { result ≡ sort_of item }
    {
        if begins_plain(item) {
            Sort::Plain
        } else if begins_declaration(item) {
            Sort::Declaration
        } else {
            Sort::Unknown
        }
    }

    /// Whether a closing brace may end such a statement, before the next item.
    fn ends_with_brace(self, next: NextToken) -> bool
        ensures { result ≡ ends_with_brace self next }
    {
        match self {
            Sort::Plain => false,
            Sort::Declaration => true,
            Sort::Unknown => !is_semicolon(next),
        }
    }
}

impl Begun {
    ghost use Rattle.std.specs.Prelude.{◌≡◌, ◌+◌, ◌<◌, ◌^◌};
    ghost use Rattle.wac_recovery.specs.Statements.{after_item, begun_at, ends, up_to};

    /// A statement that begins with an item at a place.
    fn at(item: LexerResult<Token>, start: usize) -> Begun
        ensures { result ≡ begun_at item start }
    {
        Begun {
            start,
            sort: Sort::of(item),
            depth: 0,
        }
    }

    /// Whether an item ends it, before the next one.
    fn ends(self, item: LexerResult<Token>, next: NextToken) -> bool
        ensures { result ≡ ends self item next }
    {
        if is_token(item, Token::Semicolon) {
            self.depth == 0
        } else {
            is_token(item, Token::CloseBrace) && self.depth <= 1 && self.sort.ends_with_brace(next)
        }
    }

    /// The statement after an item that doesn't end it.
    fn after(self, item: LexerResult<Token>) -> Begun
        requires { self.depth + 1 < 2 ^ 64 }
        ensures { result ≡ after_item self item }
    {
        Begun {
            start: self.start,
            sort: self.sort,
            depth: depth_after(self.depth, item),
        }
    }

    /// From where it begins to an end.
    fn up_to(self, end: usize) -> SourceSpan
        ensures { result ≡ up_to end self }
    {
        SourceSpan::new(self.start, end.saturating_sub(self.start))
    }
}

/// The statement that an item at a place belongs to.
fn with_item(begun: Option<Begun>, item: LexerResult<Token>, start: usize) -> Begun
    ensures { result ≡ with_item begun item start }
{
    match begun {
        Some(statement) => statement,
        None => Begun::at(item, start),
    }
}

/// The first statement that ends after a place, among the items that a lexer has left of a source. The last one goes to
/// the source's end where nothing ends it.
fn statement_among(mut lexer: Lexer<'_>, source: &str, place: usize) -> Option<SourceSpan>
    requires source { lexer.source ≡ source.now }
    requires place { lexer.place ≡ 0 }
    ensures found { result ≡ statement_among (length source.now) place None (left lexer.entry) }
    ensures slices { IfSome result (λ span. Slices source.now span) }
{
    let mut begun: Option<Begun> = None;
    while let Some((item, span)) = lexer.next() {
        let start = span.offset();
        let end = start + span.len();
        let statement = with_item(begun, item, start);
        if statement.ends(item, lexer.peek()) {
            if place < end {
                return Some(statement.up_to(end));
            }
            begun = None;
        } else {
            begun = Some(statement.after(item));
        }
    }
    match begun {
        Some(statement) => Some(statement.up_to(source.len())),
        None => None,
    }
}

/// What is blanked for a fault at a place: the text's first rejected character, or else the statement. There is nothing
/// to blank where no statement ends after the place.
pub(crate) fn part_at(source: &str, place: usize) -> Option<Part>
    ensures found { option_map (λ part. part.span) result ≡ part_at source.now place }
    ensures leads { IfSome result (λ part. part.leads ≡ leads source.now part.span) }
    ensures slices { IfSome result (λ part. Slices source.now part.span) }
{
    refused_characters_are_first();
    match Lexer::new(source) {
        Ok(lexer) => {
            let first = lexer.peek();
            match statement_among(lexer, source, place) {
                Some(span) => Some(Part {
                    span,
                    leads: begins_at(first, span.offset()),
                }),
                None => None,
            }
        }
        Err((_, span)) => Some(Part { span, leads: false }),
    }
}
