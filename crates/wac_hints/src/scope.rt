//! Names that denote nothing.
ghost use Rattle.std.specs.Prelude.{IfOk, IfSome};
ghost use Rattle.wac_hints.specs.Within.{EditsWithin};

use crate::advice::within;
use crate::hints::{Found, Hint, replace, say};
use crate::similar::nearest;
use std::alloc::{AllocError, Global};
use wac_lexer::{Lexer, SourceSpan, Token};

/// Types of other languages, and those that are the same here.
static TYPES: [(&str, &str); 22] = [
    ("i8", "s8"),
    ("i16", "s16"),
    ("i32", "s32"),
    ("i64", "s64"),
    ("int", "s32"),
    ("int8", "s8"),
    ("int16", "s16"),
    ("int32", "s32"),
    ("int64", "s64"),
    ("long", "s64"),
    ("uint", "u32"),
    ("uint8", "u8"),
    ("uint16", "u16"),
    ("uint32", "u32"),
    ("uint64", "u64"),
    ("usize", "u64"),
    ("byte", "u8"),
    ("float32", "f32"),
    ("float", "f32"),
    ("float64", "f64"),
    ("double", "f64"),
    ("boolean", "bool"),
];

/// The type here that is one of another language.
fn type_of(name: &str) -> Option<&'static str> {
    match name {
        "str" | "text" => return Some("string"),
        "rune" => return Some("char"),
        _ => {}
    }
    for (other, ty) in &TYPES {
        if *other == name {
            return Some(*ty);
        }
    }
    None
}

/// A name that a text binds, and how many braces are open there.
#[derive(Clone, Copy, Debug)]
struct Bound<'a> {
    name: &'a str,
    depth: usize,
}

/// What was probably meant by a name that denotes nothing at a place: a type under its name in another language, or the
/// most similar of the names that are bound before it, in bodies that are still open there. The edit's span lies in the
/// text. The error is that memory ran out.
pub fn undefined_name_hint(
    alloc: Global,
    source: &str,
    name: &str,
    span: SourceSpan,
) -> Result<Option<Hint>, AllocError>
    ensures { IfOk result (λ found. IfSome found (λ hint. EditsWithin source.now hint)) }
{
    match name_hint(alloc, source, name, span) {
        Ok(Some(hint)) => Ok(Some(within(source, hint))),
        Ok(None) => Ok(None),
        Err(_) => Err(AllocError),
    }
}

/// The same, where the edit's span isn't tested.
fn name_hint(alloc: Global, source: &str, name: &str, span: SourceSpan) -> Found {
    if let Some(ty) = type_of(name) {
        let message = format!(in alloc; "the type is called `{ty}` here")?;
        return replace(alloc, message.as_str(), span, ty);
    }
    match name {
        "void" | "unit" | "none" => {
            return say(alloc, "a function that returns nothing has no `->`");
        }
        "any" | "object" => return say(alloc, "there is no type of all values"),
        "map" | "dict" => return say(alloc, "a map is `list<tuple<k, v>>`"),
        _ => {}
    }
    let names = names_before(alloc, source, span.offset())?;
    match nearest(alloc, name, names.as_slice())? {
        Some(near) => {
            let message = format!(in alloc; "did you mean `{near}`?")?;
            replace(alloc, message.as_str(), span, near)
        }
        None => Ok(None),
    }
}

/// Whether a name that a statement or an item binds comes after a token.
fn binds(token: Token) -> bool {
    matches!(
        token,
        Token::ImportKeyword
            | Token::InterfaceKeyword
            | Token::WorldKeyword
            | Token::TypeKeyword
            | Token::ResourceKeyword
            | Token::VariantKeyword
            | Token::RecordKeyword
            | Token::FlagsKeyword
            | Token::EnumKeyword
    )
}

/// Collects the names that are bound in bodies that are open.
#[derive(Drop)]
struct Scope<'a> {
    bound: Vec<Bound<'a>>,
    depth: usize,
    // The token before.
    before: Option<Token>,
    // The name of a `let` statement, which is bound where the statement ends.
    later: Option<&'a str>,
}

impl<'a> Scope<'a> {
    /// Takes the next token.
    fn take(&mut self, token: Token, text: &'a str) -> Result<(), AllocError> {
        if token == Token::Ident {
            match self.before {
                Some(Token::LetKeyword) => self.later = Some(text),
                Some(before) if binds(before) => self.bind(text)?,
                _ => {}
            }
        }
        self.before = Some(token);
        match token {
            Token::OpenBrace => self.depth = self.depth.saturating_add(1),
            Token::CloseBrace => self.close(),
            Token::Semicolon if self.depth == 0 => {
                if let Some(name) = self.later {
                    self.bind(name)?;
                }
                self.later = None;
            }
            _ => {}
        }
        Ok(())
    }

    /// Binds a name.
    fn bind(&mut self, name: &'a str) -> Result<(), AllocError> {
        let depth = self.depth;
        match self.bound.push(Bound { name, depth }) {
            Ok(()) => Ok(()),
            Err(_) => Err(AllocError),
        }
    }

    /// Leaves a body, and forgets its names.
    fn close(&mut self) {
        self.depth = self.depth.saturating_sub(1);
        let depth = self.depth;
        self.bound.retain(|bound| bound.depth <= depth);
    }
}

/// The names that are bound before a place, in bodies that are open there.
fn names_before<'a>(
    alloc: Global,
    source: &'a str,
    place: usize,
) -> Result<Vec<&'a str>, AllocError> {
    let mut scope = Scope {
        bound: Vec::new(alloc),
        depth: 0,
        before: None,
        later: None,
    };
    if let Ok(mut lexer) = Lexer::new(source) {
        while let Some((item, span)) = lexer.next() {
            if span.offset() >= place {
                break;
            }
            if let Ok(token) = item {
                scope.take(token, lexer.source(span))?;
            }
        }
    }
    let mut names = Vec::new(alloc);
    for bound in scope.bound.as_slice() {
        names.push(bound.name)?;
    }
    Ok(names)
}
