//! Tokens with their places.
ghost use Rattle.std.specs.Prelude.{◌≡◌};
ghost use Rattle.wac_hints.specs.Types.{begins_type};

use wac_lexer::{SourceSpan, Token};

/// A token of a text.
#[derive(Clone, Copy, Debug)]
pub(crate) struct Lexeme {
    pub(crate) token: Token,
    /// Where it begins.
    pub(crate) start: usize,
    /// Where it ends.
    pub(crate) end: usize,
}

impl Lexeme {
    /// Its span.
    pub(crate) fn span(&self) -> SourceSpan {
        SourceSpan::new(self.start, self.end.saturating_sub(self.start))
    }
}

/// The keywords that may be expected, and their texts.
static KEYWORDS: [(Token, &str); 24] = [
    (Token::PackageKeyword, "package"),
    (Token::TargetsKeyword, "targets"),
    (Token::ImportKeyword, "import"),
    (Token::LetKeyword, "let"),
    (Token::ExportKeyword, "export"),
    (Token::InterfaceKeyword, "interface"),
    (Token::WorldKeyword, "world"),
    (Token::TypeKeyword, "type"),
    (Token::ResourceKeyword, "resource"),
    (Token::VariantKeyword, "variant"),
    (Token::RecordKeyword, "record"),
    (Token::FlagsKeyword, "flags"),
    (Token::EnumKeyword, "enum"),
    (Token::UseKeyword, "use"),
    (Token::IncludeKeyword, "include"),
    (Token::WithKeyword, "with"),
    (Token::AsKeyword, "as"),
    (Token::NewKeyword, "new"),
    (Token::FuncKeyword, "func"),
    (Token::AsyncKeyword, "async"),
    (Token::StaticKeyword, "static"),
    (Token::ConstructorKeyword, "constructor"),
    (Token::ListKeyword, "list"),
    (Token::OptionKeyword, "option"),
];

/// The text of a keyword that may be expected.
pub(crate) fn keyword(token: Token) -> Option<&'static str> {
    for (keyword, text) in &KEYWORDS {
        if *keyword == token {
            return Some(*text);
        }
    }
    None
}

/// Whether a token begins a statement of a document.
pub(crate) fn begins_statement(token: Token) -> bool {
    matches!(
        token,
        Token::ImportKeyword
            | Token::LetKeyword
            | Token::ExportKeyword
            | Token::InterfaceKeyword
            | Token::WorldKeyword
            | Token::TypeKeyword
            | Token::VariantKeyword
            | Token::RecordKeyword
            | Token::FlagsKeyword
            | Token::EnumKeyword
    )
}

/// Whether a token begins a type, and is no name.
pub fn begins_type(token: Token) -> bool
    ensures { result ≡ begins_type token }
{
    matches!(
        token,
        Token::U8Keyword
            | Token::S8Keyword
            | Token::U16Keyword
            | Token::S16Keyword
            | Token::U32Keyword
            | Token::S32Keyword
            | Token::U64Keyword
            | Token::S64Keyword
            | Token::F32Keyword
            | Token::F64Keyword
            | Token::CharKeyword
            | Token::BoolKeyword
            | Token::StringKeyword
            | Token::TupleKeyword
            | Token::ListKeyword
            | Token::OptionKeyword
            | Token::ResultKeyword
            | Token::BorrowKeyword
            | Token::StreamKeyword
            | Token::FutureKeyword
            | Token::ErrorContextKeyword
    )
}
