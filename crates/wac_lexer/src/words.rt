// Finds the keyword that a text is, by how many bytes it has.
ghost use Rattle.std.specs.Prelude.{◌≡◌};
ghost use Rattle.wac_lexer.specs.Words.{find, keywords, with_lengths};

use crate::token::Token;

/// The keywords of two bytes.
fn of_two(text: &str) -> Option<Token>
    ensures { result ≡ find text.now (with_lengths 2 2 keywords) }
{
    match text {
        "as" => Some(Token::AsKeyword),
        "u8" => Some(Token::U8Keyword),
        "s8" => Some(Token::S8Keyword),
        _ => None,
    }
}

/// The keywords of three bytes.
fn of_three(text: &str) -> Option<Token>
    ensures { result ≡ find text.now (with_lengths 3 3 keywords) }
{
    match text {
        "let" => Some(Token::LetKeyword),
        "new" => Some(Token::NewKeyword),
        "use" => Some(Token::UseKeyword),
        "u16" => Some(Token::U16Keyword),
        "s16" => Some(Token::S16Keyword),
        "u32" => Some(Token::U32Keyword),
        "s32" => Some(Token::S32Keyword),
        "u64" => Some(Token::U64Keyword),
        "s64" => Some(Token::S64Keyword),
        "f32" => Some(Token::F32Keyword),
        "f64" => Some(Token::F64Keyword),
        _ => None,
    }
}

/// The keywords of four bytes.
fn of_four(text: &str) -> Option<Token>
    ensures { result ≡ find text.now (with_lengths 4 4 keywords) }
{
    match text {
        "with" => Some(Token::WithKeyword),
        "type" => Some(Token::TypeKeyword),
        "enum" => Some(Token::EnumKeyword),
        "func" => Some(Token::FuncKeyword),
        "char" => Some(Token::CharKeyword),
        "bool" => Some(Token::BoolKeyword),
        "list" => Some(Token::ListKeyword),
        _ => None,
    }
}

/// The keywords of five bytes.
fn of_five(text: &str) -> Option<Token>
    ensures { result ≡ find text.now (with_lengths 5 5 keywords) }
{
    match text {
        "world" => Some(Token::WorldKeyword),
        "flags" => Some(Token::FlagsKeyword),
        "async" => Some(Token::AsyncKeyword),
        "tuple" => Some(Token::TupleKeyword),
        _ => None,
    }
}

/// The keywords of six bytes.
fn of_six(text: &str) -> Option<Token>
    ensures { result ≡ find text.now (with_lengths 6 6 keywords) }
{
    match text {
        "import" => Some(Token::ImportKeyword),
        "export" => Some(Token::ExportKeyword),
        "record" => Some(Token::RecordKeyword),
        "static" => Some(Token::StaticKeyword),
        "string" => Some(Token::StringKeyword),
        "option" => Some(Token::OptionKeyword),
        "result" => Some(Token::ResultKeyword),
        "borrow" => Some(Token::BorrowKeyword),
        "stream" => Some(Token::StreamKeyword),
        "future" => Some(Token::FutureKeyword),
        _ => None,
    }
}

/// The keywords of seven bytes.
fn of_seven(text: &str) -> Option<Token>
    ensures { result ≡ find text.now (with_lengths 7 7 keywords) }
{
    match text {
        "package" => Some(Token::PackageKeyword),
        "targets" => Some(Token::TargetsKeyword),
        "include" => Some(Token::IncludeKeyword),
        "variant" => Some(Token::VariantKeyword),
        _ => None,
    }
}

/// The keywords of eight or more bytes.
fn longer(text: &str) -> Option<Token>
    ensures { result ≡ find text.now (with_lengths 8 13 keywords) }
{
    match text {
        "interface" => Some(Token::InterfaceKeyword),
        "resource" => Some(Token::ResourceKeyword),
        "constructor" => Some(Token::ConstructorKeyword),
        "error-context" => Some(Token::ErrorContextKeyword),
        _ => None,
    }
}

/// The keyword that a text is. A text is compared with those of its length alone.
pub(crate) fn keyword(text: &str) -> Option<Token>
    ensures { result ≡ find text.now keywords }
{
    match text.len() {
        2 => of_two(text),
        3 => of_three(text),
        4 => of_four(text),
        5 => of_five(text),
        6 => of_six(text),
        7 => of_seven(text),
        8..=13 => longer(text),
        _ => None,
    }
}
