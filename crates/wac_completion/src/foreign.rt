//! Which names of foreign packages an offset asks for.

use crate::begun::can_follow;
use crate::front::{before, recover};
use crate::names::text_of;
use std::alloc::{AllocError, Global};
use wac_lexer::{Error, Lexer, Token};

/// Where an instance comes from that isn't of the text itself.
#[derive(Clone, Copy, Debug)]
pub enum Origin<'t> {
    /// It is an instance of a package, whose name is this, with its version.
    Package(&'t str),
    /// It is imported, and this is the path of its interface.
    Interface(&'t str),
}

/// What of a foreign package can stand at an offset.
#[derive(Drop)]
pub enum Foreign<'t> {
    /// The name of an argument of an instance of the package: an import of it.
    Argument {
        /// The package, with its version.
        package: &'t str,
        /// The names that have an argument already, as they are written there, without quotes.
        given: Vec<&'t str>,
    },
    /// An export of an instance.
    Export {
        /// Where the instance comes from, or the one that has it.
        origin: Origin<'t>,
        /// The exports that lead from there to the instance, as they are written, without quotes.
        along: Vec<&'t str>,
    },
    /// A type of an interface.
    UsedType {
        /// The path of the interface.
        path: &'t str,
        /// The types that are used already.
        given: Vec<&'t str>,
    },
}

/// What is asked for at an offset.
#[derive(Drop)]
pub struct Asked<'t> {
    /// What can stand there.
    pub foreign: Foreign<'t>,
    /// Where the quote is with which it begins, if it is to be a string.
    pub quote: Option<usize>,
}

/// What an open brace encloses.
#[derive(Clone, Copy)]
enum Opened<'t> {
    /// The arguments of an instance of a package.
    Arguments(&'t str),
    /// The types that are used of an interface.
    Uses(&'t str),
    /// Something else.
    Other,
}

/// A brace that is open.
#[derive(Drop)]
struct Brace<'t> {
    opened: Opened<'t>,
    /// The names in it so far: the first token of each part between commas.
    names: Vec<&'t str>,
    /// Whether a part begins next.
    begins: bool,
}

/// What an expression denotes: an instance, or what one exports.
#[derive(Clone, Copy)]
enum Value<'t> {
    Origin(Origin<'t>),
    Export {
        /// The number of the value that exports it.
        of: usize,
        name: &'t str,
    },
}

/// A name that `let` or `import` binds to a value.
#[derive(Clone, Copy)]
struct Binding<'t> {
    name: &'t str,
    /// The number of the value.
    value: usize,
}

/// A token with its text.
#[derive(Clone, Copy)]
pub(crate) struct Lexeme<'t> {
    pub(crate) token: Token,
    pub(crate) text: &'t str,
}

/// The text of a token, if it is of this kind.
fn text_if(lexeme: Option<Lexeme<'_>>, token: Token) -> Option<&str> {
    match lexeme {
        Some(found) if found.token == token => Some(found.text),
        _ => None,
    }
}

/// The last three tokens.
#[derive(Clone, Copy)]
struct Recent<'t> {
    first: Option<Lexeme<'t>>,
    second: Option<Lexeme<'t>>,
    last: Option<Lexeme<'t>>,
}

impl<'t> Recent<'t> {
    /// The last three with one more.
    fn with(self, lexeme: Lexeme<'t>) -> Recent<'t> {
        Recent {
            first: self.second,
            second: self.last,
            last: Some(lexeme),
        }
    }

    /// What a brace after them encloses.
    fn opened(self) -> Opened<'t> {
        if text_if(self.second, Token::NewKeyword).is_some() {
            return match text_if(self.last, Token::PackageName) {
                Some(package) => Opened::Arguments(package),
                None => Opened::Other,
            };
        }
        let is_use = text_if(self.first, Token::UseKeyword).is_some();
        match text_if(self.second, Token::PackagePath) {
            Some(path) if is_use => Opened::Uses(path),
            _ => Opened::Other,
        }
    }

    /// Whether a name that is bound comes next.
    fn binds(self) -> bool {
        self.ends_with(Token::LetKeyword) || self.ends_with(Token::ImportKeyword)
    }

    /// Whether the name of an export of a value comes next.
    fn takes_export(self) -> bool {
        self.ends_with(Token::Dot) || self.ends_with(Token::OpenBracket)
    }

    /// Whether the last one is of this kind.
    fn ends_with(self, token: Token) -> bool {
        text_if(self.last, token).is_some()
    }
}

/// The text of a string without its quotes.
pub(crate) fn unquoted(text: &str) -> &str {
    match text.strip_prefix('"') {
        Some(rest) => rest.strip_suffix('"').unwrap_or(rest),
        None => text,
    }
}

/// What was read of a text.
#[derive(Drop)]
pub(crate) struct Reader<'t> {
    alloc: Global,
    recent: Recent<'t>,
    braces: Vec<Brace<'t>>,
    /// All values that were met.
    values: Vec<Value<'t>>,
    /// The number of the value that the tokens end with, if they end with one.
    value: Option<usize>,
    /// The name of the `let` or `import` that goes on.
    bound: Option<&'t str>,
    bindings: Vec<Binding<'t>>,
}

/// The number of the value that the last binding of a name has.
fn value_of(bindings: &[Binding<'_>], name: &str) -> Option<usize> {
    let found = bindings.iter().rev().find(|binding| binding.name == name)?;
    Some(found.value)
}

impl<'t> Reader<'t> {
    pub(crate) fn new(alloc: Global) -> Reader<'t> {
        Reader {
            alloc,
            recent: Recent {
                first: None,
                second: None,
                last: None,
            },
            braces: Vec::new(alloc),
            values: Vec::new(alloc),
            value: None,
            bound: None,
            bindings: Vec::new(alloc),
        }
    }

    /// Takes a brace that opens something.
    fn open(&mut self) -> Result<(), AllocError> {
        let recent = self.recent;
        let brace = Brace {
            opened: recent.opened(),
            names: Vec::new(self.alloc),
            begins: true,
        };
        self.braces.push(brace)?;
        Ok(())
    }

    /// Keeps a value, and returns its number.
    fn keep(&mut self, value: Value<'t>) -> Result<Option<usize>, AllocError> {
        let number = self.values.len();
        self.values.push(value)?;
        Ok(Some(number))
    }

    /// What the last value exports under a name.
    fn exported(&mut self, name: &'t str) -> Result<Option<usize>, AllocError> {
        match self.value {
            Some(of) => self.keep(Value::Export { of, name }),
            None => Ok(None),
        }
    }

    /// Takes a brace that closes something: after arguments there is an instance.
    fn close(&mut self) -> Result<Option<usize>, AllocError> {
        match self.braces.pop() {
            Some(brace) => match brace.opened {
                Opened::Arguments(package) => self.keep(Value::Origin(Origin::Package(package))),
                _ => Ok(None),
            },
            None => Ok(None),
        }
    }

    /// Takes a token of what the last brace encloses.
    fn part(&mut self, lexeme: Lexeme<'t>) -> Result<(), AllocError> {
        let Some(brace) = self.braces.last_mut() else {
            return Ok(());
        };
        if lexeme.token == Token::Comma {
            brace.begins = true;
        } else if brace.begins {
            brace.begins = false;
            if matches!(lexeme.token, Token::Ident | Token::String) {
                brace.names.push(unquoted(lexeme.text))?;
            }
        }
        Ok(())
    }

    /// Takes the end of a statement: the name that it binds is kept with its value.
    fn end(&mut self) -> Result<(), AllocError> {
        let bound = self.bound;
        let value = self.value;
        self.bound = None;
        if let (Some(name), Some(value)) = (bound, value) {
            self.bindings.push(Binding { name, value })?;
        }
        Ok(())
    }

    /// Takes an identifier, which after `let` or `import` is bound, unless that is in braces, and after a dot names an
    /// export.
    fn name(&mut self, text: &'t str) -> Result<Option<usize>, AllocError> {
        let recent = self.recent;
        if recent.ends_with(Token::Dot) {
            return self.exported(text);
        }
        if recent.binds() && self.braces.is_empty() {
            self.bound = Some(text);
        }
        Ok(value_of(self.bindings.as_slice(), text))
    }

    /// The number of the value that the tokens end with, with one more.
    fn value_with(&mut self, lexeme: Lexeme<'t>) -> Result<Option<usize>, AllocError> {
        let recent = self.recent;
        let text = lexeme.text;
        match lexeme.token {
            Token::CloseBrace => self.close(),
            Token::Ident => self.name(text),
            Token::String if recent.ends_with(Token::OpenBracket) => self.exported(unquoted(text)),
            Token::PackagePath if recent.ends_with(Token::Colon) => {
                self.keep(Value::Origin(Origin::Interface(text)))
            }
            Token::Dot | Token::OpenBracket | Token::CloseBracket | Token::CloseParen => {
                Ok(self.value)
            }
            _ => Ok(None),
        }
    }

    /// Takes a token.
    pub(crate) fn take(&mut self, lexeme: Lexeme<'t>) -> Result<(), AllocError> {
        match lexeme.token {
            Token::OpenBrace => self.open()?,
            Token::Semicolon => self.end()?,
            _ => {}
        }
        let value = self.value_with(lexeme)?;
        self.value = value;
        if !matches!(lexeme.token, Token::OpenBrace | Token::CloseBrace) {
            self.part(lexeme)?;
        }
        let recent = self.recent;
        self.recent = recent.with(lexeme);
        Ok(())
    }
}

/// The exports of the value of a number.
fn exports_of<'t>(
    alloc: Global,
    values: &[Value<'t>],
    number: usize,
) -> Result<Option<Foreign<'t>>, AllocError> {
    let mut along = Vec::new(alloc);
    let mut wanted = number;
    for _ in values {
        match values.get(wanted) {
            Some(Value::Export { of, name }) => {
                along.push(*name)?;
                wanted = *of;
            }
            Some(Value::Origin(origin)) => {
                along.reverse();
                let origin = *origin;
                return Ok(Some(Foreign::Export { origin, along }));
            }
            None => return Ok(None),
        }
    }
    Ok(None)
}

/// What can stand in a brace, where a part of it begins.
fn within(brace: Brace<'_>) -> Option<Foreign<'_>> {
    let Brace {
        opened,
        names: given,
        begins,
    } = brace;
    if !begins {
        return None;
    }
    match opened {
        Opened::Arguments(package) => Some(Foreign::Argument { package, given }),
        Opened::Uses(path) => Some(Foreign::UsedType { path, given }),
        Opened::Other => None,
    }
}

/// What of a foreign package can stand after what was read.
pub(crate) fn foreign_after<'t>(
    alloc: Global,
    reader: Reader<'t>,
) -> Result<Option<Foreign<'t>>, AllocError> {
    let Reader {
        recent,
        mut braces,
        values,
        value,
        ..
    } = reader;
    if recent.takes_export() {
        return match value {
            Some(number) => exports_of(alloc, values.as_slice(), number),
            None => Ok(None),
        };
    }
    match braces.pop() {
        Some(brace) => Ok(within(brace)),
        None => Ok(None),
    }
}

/// Whether a token of a kind can stand after a text, of which faulty statements are blanked.
fn takes(alloc: Global, text: &str, kind: Token) -> Result<bool, AllocError> {
    match recover(alloc, text)? {
        Some(recovered) => can_follow(alloc, recovered.text(), kind),
        None => Ok(false),
    }
}

/// Where the quote of a string is that the end of a text is in.
fn open_quote(text: &str) -> Option<usize> {
    let Ok(mut lexer) = Lexer::new(text) else {
        return None;
    };
    while let Some((item, span)) = lexer.next() {
        if matches!(item, Err(Error::UnterminatedString)) {
            return Some(span.offset());
        }
    }
    None
}

/// What is asked for after a text where a token of a kind can stand, by the text's tokens.
fn foreign_at_end<'t>(
    alloc: Global,
    text: &'t str,
    kind: Token,
) -> Result<Option<Foreign<'t>>, AllocError> {
    if !takes(alloc, text, kind)? {
        return Ok(None);
    }
    foreign_after(alloc, read(alloc, text)?)
}

/// What is asked for, with where the quote is.
fn with_quote<'t>(
    foreign: Result<Option<Foreign<'t>>, AllocError>,
    quote: Option<usize>,
) -> Result<Option<Asked<'t>>, AllocError> {
    match foreign {
        Ok(Some(foreign)) => Ok(Some(Asked { foreign, quote })),
        Ok(None) => Ok(None),
        Err(error) => Err(error),
    }
}

/// What was read of a text up to its end.
fn read(alloc: Global, text: &str) -> Result<Reader<'_>, AllocError> {
    let mut reader = Reader::new(alloc);
    let Ok(mut lexer) = Lexer::new(text) else {
        return Ok(reader);
    };
    while let Some((item, span)) = lexer.next() {
        if let Ok(token) = item {
            let text = text_of(text, span);
            reader.take(Lexeme { token, text })?;
        }
    }
    Ok(reader)
}

/// Which names of a foreign package can stand at an offset in bytes, as the tokens before it say: arguments and types in
/// braces, and exports after a dot or a bracket, of an instance or of a name that `let` or `import` binds to one. A word
/// that touches the offset from the left is cut off first, and so is a string that is open there.
///
/// `None` where no name of a foreign package is asked for, where no such name can stand, as in a comment, and where the
/// offset isn't between two characters. Faulty statements before it are blanked for that. Whether there is such a package
/// isn't known here. The error is that memory ran out.
///
/// ```text
/// foreign_at(alloc, "package a:b; let x = new c:d { log, s", 37)?;       // an argument of c:d, where `log` is given
/// foreign_at(alloc, "package a:b; let x = new c:d {}; export x.", 42)?;   // an export of c:d
/// foreign_at(alloc, "package a:b; import x: c:d/e; export x[\"", 40)?;    // an export of c:d/e, from the quote on
/// foreign_at(alloc, "package a:b; interface i { use c:d/e.{", 38)?;       // a type of c:d/e
/// ```
pub fn foreign_at<'t>(
    alloc: Global,
    source: &'t str,
    offset: usize,
) -> Result<Option<Asked<'t>>, AllocError> {
    let Some((text, _)) = before(source, offset) else {
        return Ok(None);
    };
    match open_quote(text) {
        Some(at) => {
            let front = text.get(..at).unwrap_or("");
            with_quote(foreign_at_end(alloc, front, Token::String), Some(at))
        }
        None => with_quote(foreign_at_end(alloc, text, Token::Ident), None),
    }
}
