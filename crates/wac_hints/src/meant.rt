//! Words that stand for others: keywords that are misspelled, and words of other languages.
use crate::hints::{Found, replace, say};
use crate::lexeme::{Lexeme, keyword};
use crate::similar::nearest;
use crate::spot::Spot;
use std::alloc::{AllocError, Global};
use wac_lexer::Token;

/// Words of other languages, and the keyword that means the same.
static WORDS: [(&str, Token, &str); 34] = [
    ("fn", Token::FuncKeyword, "func"),
    ("fun", Token::FuncKeyword, "func"),
    ("function", Token::FuncKeyword, "func"),
    ("def", Token::FuncKeyword, "func"),
    ("struct", Token::RecordKeyword, "record"),
    ("message", Token::RecordKeyword, "record"),
    ("object", Token::RecordKeyword, "record"),
    ("union", Token::VariantKeyword, "variant"),
    ("oneof", Token::VariantKeyword, "variant"),
    ("bitflags", Token::FlagsKeyword, "flags"),
    ("class", Token::ResourceKeyword, "resource"),
    ("trait", Token::InterfaceKeyword, "interface"),
    ("protocol", Token::InterfaceKeyword, "interface"),
    ("service", Token::InterfaceKeyword, "interface"),
    ("component", Token::WorldKeyword, "world"),
    ("typedef", Token::TypeKeyword, "type"),
    ("alias", Token::TypeKeyword, "type"),
    ("const", Token::LetKeyword, "let"),
    ("var", Token::LetKeyword, "let"),
    ("val", Token::LetKeyword, "let"),
    ("require", Token::ImportKeyword, "import"),
    ("pub", Token::ExportKeyword, "export"),
    ("public", Token::ExportKeyword, "export"),
    ("return", Token::ExportKeyword, "export"),
    ("module", Token::PackageKeyword, "package"),
    ("namespace", Token::PackageKeyword, "package"),
    ("implements", Token::TargetsKeyword, "targets"),
    ("extends", Token::IncludeKeyword, "include"),
    ("instantiate", Token::NewKeyword, "new"),
    ("vec", Token::ListKeyword, "list"),
    ("array", Token::ListKeyword, "list"),
    ("seq", Token::ListKeyword, "list"),
    ("optional", Token::OptionKeyword, "option"),
    ("maybe", Token::OptionKeyword, "option"),
];

/// The keyword that a word of other languages means.
fn meaning(word: &str) -> Option<(Token, &'static str)> {
    for (other, token, text) in &WORDS {
        if *other == word {
            return Some((*token, *text));
        }
    }
    None
}

/// What is said of words.
pub(crate) fn meant_hint(alloc: Global, spot: &Spot<'_>) -> Found {
    if let Some(hint) = used_hint(alloc, spot)? {
        return Ok(Some(hint));
    }
    if let Some(hint) = found_hint(alloc, spot)? {
        return Ok(Some(hint));
    }
    before_hint(alloc, spot)
}

/// `use` at the top of a document.
fn used_hint(alloc: Global, spot: &Spot<'_>) -> Found {
    if !spot.expects_statement() {
        return Ok(None);
    }
    match spot.clash.found {
        Some(Token::UseKeyword) => say(
            alloc,
            "`use` is an item of interfaces and worlds; a document has `import`",
        ),
        Some(Token::IncludeKeyword) => say(alloc, "`include` is an item of worlds"),
        Some(Token::ResourceKeyword) => {
            say(alloc, "a `resource` is an item of interfaces and worlds")
        }
        Some(Token::PackageKeyword) => say(alloc, "a document has one `package`, at its beginning"),
        _ => Ok(None),
    }
}

/// A name in the place of a keyword.
fn found_hint(alloc: Global, spot: &Spot<'_>) -> Found {
    if !spot.has(Token::Ident) {
        return Ok(None);
    }
    let word = spot.text;
    if let Some((token, text)) = meaning(word) {
        if spot.expects(token) {
            let message = format!(in alloc; "`{word}` is `{text}` here")?;
            return replace(alloc, message.as_str(), spot.span(), text);
        }
    }
    match nearest_expected(alloc, spot)? {
        Some(text) => {
            let message = format!(in alloc; "did you mean `{text}`?")?;
            replace(alloc, message.as_str(), spot.span(), text)
        }
        None => Ok(None),
    }
}

/// The keyword that was expected and is most like the word that was found.
fn nearest_expected(alloc: Global, spot: &Spot<'_>) -> Result<Option<&'static str>, AllocError> {
    let mut words = Vec::new(alloc);
    for token in &spot.clash.expected {
        if let Some(token) = token {
            if let Some(text) = keyword(*token) {
                words.push(text)?;
            }
        }
    }
    nearest(alloc, spot.text, words.as_slice())
}

/// A name before what was found, which should be a keyword: `fn (` and `vec <`.
fn before_hint(alloc: Global, spot: &Spot<'_>) -> Found {
    let Some(before) = spot.before else {
        return Ok(None);
    };
    if before.token != Token::Ident {
        return Ok(None);
    }
    match spot.clash.found {
        Some(Token::OpenParen) => called_hint(alloc, spot, before),
        Some(Token::OpenAngle) => generic_hint(alloc, spot, before),
        _ => Ok(None),
    }
}

/// A name before parentheses.
fn called_hint(alloc: Global, spot: &Spot<'_>, before: Lexeme) -> Found {
    let word = spot.text_of(before);
    if let Some((Token::FuncKeyword, text)) = meaning(word) {
        let message = format!(in alloc; "`{word}` is `{text}` here")?;
        return replace(alloc, message.as_str(), before.span(), text);
    }
    match nearest(alloc, word, &["func"])? {
        Some(text) => {
            let message = format!(in alloc; "did you mean `{text}`?")?;
            replace(alloc, message.as_str(), before.span(), text)
        }
        None => Ok(None),
    }
}

/// A name before angle brackets.
fn generic_hint(alloc: Global, spot: &Spot<'_>, before: Lexeme) -> Found {
    let word = spot.text_of(before);
    if word == "own" {
        return say(
            alloc,
            "a handle that is owned is the name of its resource alone",
        );
    }
    if let Some((Token::ListKeyword | Token::OptionKeyword, text)) = meaning(word) {
        let message = format!(in alloc; "`{word}` is `{text}` here")?;
        return replace(alloc, message.as_str(), before.span(), text);
    }
    let words = [
        "list", "option", "result", "tuple", "borrow", "stream", "future",
    ];
    match nearest(alloc, word, &words)? {
        Some(text) => {
            let message = format!(in alloc; "did you mean `{text}`?")?;
            replace(alloc, message.as_str(), before.span(), text)
        }
        None => say(
            alloc,
            "the types with `<` are `list`, `option`, `result`, `tuple`, `borrow`, `stream` and `future`",
        ),
    }
}
