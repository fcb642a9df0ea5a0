//! Which texts declare packages.
use wac_lexer::{Lexer, Token};

/// A text up to its first rejected character.
pub(crate) fn accepted(text: &str) -> &str {
    match Lexer::new(text) {
        Ok(_) => text,
        Err((_, span)) => text.get(..span.offset()).unwrap_or(""),
    }
}

/// Whether a token begins a statement that composes, or a target.
fn composes(token: Token) -> bool {
    matches!(
        token,
        Token::ImportKeyword | Token::LetKeyword | Token::ExportKeyword | Token::TargetsKeyword
    )
}

/// Whether a text declares a package, or is to: it begins with a package's directive, and has no target and no statement
/// but those of types. Its tokens alone say so, up to its first rejected character: it need not be a document.
///
/// ```text
/// is_declaration("package a:b; interface i { f: func(); }")      // true
/// is_declaration("package a:b; interface i {")                   // true
/// is_declaration("package a:b; import f: func();")               // false
/// ```
pub fn is_declaration(text: &str) -> bool {
    let Ok(mut lexer) = Lexer::new(accepted(text)) else {
        return false;
    };
    let Some((Ok(Token::PackageKeyword), _)) = lexer.next() else {
        return false;
    };
    let mut braces = 0usize;
    while let Some((item, _)) = lexer.next() {
        match item {
            Ok(Token::OpenBrace) => braces = braces.saturating_add(1),
            Ok(Token::CloseBrace) => braces = braces.saturating_sub(1),
            Ok(token) if braces == 0 && composes(token) => return false,
            _ => {}
        }
    }
    true
}
