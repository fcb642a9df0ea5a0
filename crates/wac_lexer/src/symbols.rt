// Finds the symbol that a text is.
ghost use Rattle.std.specs.Prelude.{◌≡◌, ◌++◌, ◌∷◌, []};
ghost use Rattle.wac_lexer.specs.Words.{find, symbols, brackets, separators, long_symbols};

use crate::token::Token;

/// The brackets.
fn bracket(byte: u8) -> Option<Token>
    ensures { result ≡ find (byte ∷ []) brackets }
{
    match byte {
        b'{' => Some(Token::OpenBrace),
        b'}' => Some(Token::CloseBrace),
        b'(' => Some(Token::OpenParen),
        b')' => Some(Token::CloseParen),
        b'<' => Some(Token::OpenAngle),
        b'>' => Some(Token::CloseAngle),
        b'[' => Some(Token::OpenBracket),
        b']' => Some(Token::CloseBracket),
        _ => None,
    }
}

/// The other symbols of one byte.
fn separator(byte: u8) -> Option<Token>
    ensures { result ≡ find (byte ∷ []) separators }
{
    match byte {
        b';' => Some(Token::Semicolon),
        b':' => Some(Token::Colon),
        b'=' => Some(Token::Equals),
        b'_' => Some(Token::Underscore),
        b'.' => Some(Token::Dot),
        b',' => Some(Token::Comma),
        b'/' => Some(Token::Slash),
        b'@' => Some(Token::At),
        _ => None,
    }
}

/// The symbols of more than one byte.
fn long_symbol(text: &str) -> Option<Token>
    ensures { result ≡ find text.now long_symbols }
{
    match text {
        "->" => Some(Token::Arrow),
        "..." => Some(Token::Ellipsis),
        _ => None,
    }
}

/// The symbol of one byte.
fn of_one(byte: u8) -> Option<Token>
    ensures { result ≡ find (byte ∷ []) (brackets ++ separators) }
{
    match bracket(byte) {
        Some(token) => Some(token),
        None => separator(byte),
    }
}

/// The symbol that a text is.
pub(crate) fn symbol(text: &str) -> Option<Token>
    ensures { result ≡ find text.now symbols }
{
    if text.len() == 1 {
        of_one(text.as_bytes()[0])
    } else {
        long_symbol(text)
    }
}
