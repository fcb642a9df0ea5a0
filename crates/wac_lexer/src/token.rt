// The kinds of tokens.
ghost use Rattle.std.specs.Prelude.{◌≡◌};
ghost use Rattle.wac_lexer.specs.Messages.{name_of};

use std::fmt;

/// A kind of token. Its `Display` is what messages call it, as "identifier" or "`import` keyword".
#[derive(Clone, Copy, Debug, PartialEq, Eq)]
pub enum Token {
    /// A line comment. A lexer never returns it.
    Comment,
    /// A block comment. A lexer never returns it.
    BlockComment,
    /// An identifier: words joined by `-`, perhaps after `%`.
    Ident,
    /// A text between two quotes, without escapes.
    String,
    /// A package name: identifiers joined by `:`, perhaps with `@` and a version.
    PackageName,
    /// A package path: a package name and `/` and identifiers, perhaps with `@` and a version.
    PackagePath,
    /// `import`
    ImportKeyword,
    /// `with`
    WithKeyword,
    /// `type`
    TypeKeyword,
    /// `tuple`
    TupleKeyword,
    /// `list`
    ListKeyword,
    /// `option`
    OptionKeyword,
    /// `result`
    ResultKeyword,
    /// `borrow`
    BorrowKeyword,
    /// `resource`
    ResourceKeyword,
    /// `variant`
    VariantKeyword,
    /// `record`
    RecordKeyword,
    /// `flags`
    FlagsKeyword,
    /// `enum`
    EnumKeyword,
    /// `func`
    FuncKeyword,
    /// `static`
    StaticKeyword,
    /// `constructor`
    ConstructorKeyword,
    /// `u8`
    U8Keyword,
    /// `s8`
    S8Keyword,
    /// `u16`
    U16Keyword,
    /// `s16`
    S16Keyword,
    /// `u32`
    U32Keyword,
    /// `s32`
    S32Keyword,
    /// `u64`
    U64Keyword,
    /// `s64`
    S64Keyword,
    /// `f32`
    F32Keyword,
    /// `f64`
    F64Keyword,
    /// `char`
    CharKeyword,
    /// `bool`
    BoolKeyword,
    /// `string`
    StringKeyword,
    /// `interface`
    InterfaceKeyword,
    /// `world`
    WorldKeyword,
    /// `export`
    ExportKeyword,
    /// `new`
    NewKeyword,
    /// `let`
    LetKeyword,
    /// `use`
    UseKeyword,
    /// `include`
    IncludeKeyword,
    /// `as`
    AsKeyword,
    /// `package`
    PackageKeyword,
    /// `targets`
    TargetsKeyword,
    /// `async`
    AsyncKeyword,
    /// `stream`
    StreamKeyword,
    /// `future`
    FutureKeyword,
    /// `error-context`
    ErrorContextKeyword,
    /// `;`
    Semicolon,
    /// `{`
    OpenBrace,
    /// `}`
    CloseBrace,
    /// `:`
    Colon,
    /// `=`
    Equals,
    /// `(`
    OpenParen,
    /// `)`
    CloseParen,
    /// `->`
    Arrow,
    /// `<`
    OpenAngle,
    /// `>`
    CloseAngle,
    /// `_`
    Underscore,
    /// `[`
    OpenBracket,
    /// `]`
    CloseBracket,
    /// `.`
    Dot,
    /// `...`
    Ellipsis,
    /// `,`
    Comma,
    /// `/`
    Slash,
    /// `@`
    At,
}

/// What a message calls the token.
fn name_of(token: Token) -> &'static str
    ensures { result.now ≡ name_of token }
{
    match token {
        Token::Comment => "comment",
        Token::BlockComment => "comment",
        Token::Ident => "identifier",
        Token::String => "string literal",
        Token::PackageName => "package name",
        Token::PackagePath => "package path",
        Token::ImportKeyword => "`import` keyword",
        Token::WithKeyword => "`with` keyword",
        Token::TypeKeyword => "`type` keyword",
        Token::TupleKeyword => "`tuple` keyword",
        Token::ListKeyword => "`list` keyword",
        Token::OptionKeyword => "`option` keyword",
        Token::ResultKeyword => "`result` keyword",
        Token::BorrowKeyword => "`borrow` keyword",
        Token::ResourceKeyword => "`resource` keyword",
        Token::VariantKeyword => "`variant` keyword",
        Token::RecordKeyword => "`record` keyword",
        Token::FlagsKeyword => "`flags` keyword",
        Token::EnumKeyword => "`enum` keyword",
        Token::FuncKeyword => "`func` keyword",
        Token::StaticKeyword => "`static` keyword",
        Token::ConstructorKeyword => "`constructor` keyword",
        Token::U8Keyword => "`u8` keyword",
        Token::S8Keyword => "`s8` keyword",
        Token::U16Keyword => "`u16` keyword",
        Token::S16Keyword => "`s16` keyword",
        Token::U32Keyword => "`u32` keyword",
        Token::S32Keyword => "`s32` keyword",
        Token::U64Keyword => "`u64` keyword",
        Token::S64Keyword => "`s64` keyword",
        Token::F32Keyword => "`f32` keyword",
        Token::F64Keyword => "`f64` keyword",
        Token::CharKeyword => "`char` keyword",
        Token::BoolKeyword => "`bool` keyword",
        Token::StringKeyword => "`string` keyword",
        Token::InterfaceKeyword => "`interface` keyword",
        Token::WorldKeyword => "`world` keyword",
        Token::ExportKeyword => "`export` keyword",
        Token::NewKeyword => "`new` keyword",
        Token::LetKeyword => "`let` keyword",
        Token::UseKeyword => "`use` keyword",
        Token::IncludeKeyword => "`include` keyword",
        Token::AsKeyword => "`as` keyword",
        Token::PackageKeyword => "`package` keyword",
        Token::TargetsKeyword => "`targets` keyword",
        Token::AsyncKeyword => "`async` keyword",
        Token::StreamKeyword => "`stream` keyword",
        Token::FutureKeyword => "`future` keyword",
        Token::ErrorContextKeyword => "`error-context` keyword",
        Token::Semicolon => "`;`",
        Token::OpenBrace => "`{`",
        Token::CloseBrace => "`}`",
        Token::Colon => "`:`",
        Token::Equals => "`=`",
        Token::OpenParen => "`(`",
        Token::CloseParen => "`)`",
        Token::Arrow => "`->`",
        Token::OpenAngle => "`<`",
        Token::CloseAngle => "`>`",
        Token::Underscore => "`_`",
        Token::OpenBracket => "`[`",
        Token::CloseBracket => "`]`",
        Token::Dot => "`.`",
        Token::Ellipsis => "`...`",
        Token::Comma => "`,`",
        Token::Slash => "`/`",
        Token::At => "`@`",
    }
}

impl Token {
    ghost use Rattle.std.specs.Prelude.{◌≡◌};
    ghost use Rattle.wac_lexer.specs.Messages.{name_of};

    /// What messages call the token: the text that its `Display` writes.
    pub fn name(self) -> &'static str
        ensures { result.now ≡ name_of self }
    {
        name_of(self)
    }
}

impl fmt::Display for Token {
    ghost use Rattle.std.specs.Prelude.{Some};
    ghost use Rattle.wac_lexer.specs.Messages.{name_of};

    ghost output = { λ token. Some (name_of token) };

    fn fmt<W: fmt::Write>(&self, f: &mut fmt::Formatter<W>) -> fmt::Result {
        f.write_str(name_of(*self))
    }
}
