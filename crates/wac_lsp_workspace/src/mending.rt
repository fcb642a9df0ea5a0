//! Edits that mend what is wrong with a document of the folders.
use crate::hovering::name_at;
use crate::kinds::accepted;
use crate::named::text_at;
use crate::offering::Offers;
use crate::roots::Seen;
use crate::workspace::Workspace;
use std::alloc::{AllocError, Global};
use wac_diagnostics::Diagnostic;
use wac_hints::nearest;
use wac_lexer::{Lexer, SourceSpan, Token};

/// What is wrong with a document, and an edit that probably mends it.
#[derive(Drop)]
pub struct Mended {
    /// What is wrong.
    pub diagnostic: Diagnostic,
    /// What the edit does, for people.
    pub title: String,
    /// The part of the text that is replaced, in bytes.
    pub span: SourceSpan,
    /// What comes in its place.
    pub text: String,
}

/// An edit, without what it mends.
#[derive(Drop)]
struct Cure {
    title: String,
    span: SourceSpan,
    text: String,
}

/// Whether a code is of a name that a package doesn't have, or of a package that there isn't.
fn is_of_name(code: &str) -> bool {
    matches!(
        code,
        "wac::unknown-package"
            | "wac::package-missing-export"
            | "wac::missing-component-import"
            | "wac::missing-instance-export"
    )
}

/// The offset at which it is asked what can stand in place of a name: in that of a package, or in a path, after the first
/// colon, and in a string after its quote.
fn asked_in(text: &str, name: SourceSpan) -> usize {
    let written = text_at(text, name);
    if written.starts_with('"') {
        return name.offset().saturating_add(1);
    }
    match written.find(':') {
        Some(colon) => name.offset().saturating_add(colon).saturating_add(1),
        None => name.offset(),
    }
}

/// The name among some that is most like one that is written, if one is like it.
fn most_alike<'o>(
    alloc: Global,
    written: &str,
    offers: &'o Offers,
) -> Result<Option<&'o str>, AllocError> {
    let mut names = Vec::with_capacity(alloc, offers.all.len())?;
    for offer in &offers.all {
        names.push(offer.written.as_str())?;
    }
    nearest(alloc, written, names.as_slice())
}

/// The edit that writes a name in the place of another one.
fn written_there(alloc: Global, name: &str, span: SourceSpan) -> Result<Cure, AllocError> {
    Ok(Cure {
        title: format!(in alloc; "write `{name}`")?,
        span,
        text: String::from_str(alloc, name)?,
    })
}

/// Goes over the tokens after the name of a package, up to the brace that closes the arguments of its instance.
#[derive(Clone, Copy)]
struct Arguments {
    /// How many braces are open.
    braces: usize,
    /// Where the last token ends.
    end: usize,
    /// What is written there before `...`.
    front: &'static str,
}

/// What is written before `...` after a token, within so many braces.
fn before_fill(token: Token, braces: usize) -> &'static str {
    match token {
        Token::Comma => " ",
        Token::OpenBrace if braces <= 1 => " ",
        _ => ", ",
    }
}

impl Arguments {
    /// Takes the next token. Returns whether the arguments go on.
    fn take(&mut self, token: Token, span: SourceSpan) -> bool {
        match token {
            Token::CloseBrace if self.braces <= 1 => return false,
            Token::CloseBrace => self.braces = self.braces.saturating_sub(1),
            Token::OpenBrace => self.braces = self.braces.saturating_add(1),
            _ => {}
        }
        self.end = span.offset().saturating_add(span.len());
        self.front = before_fill(token, self.braces);
        true
    }
}

/// The arguments of an instance whose package is named in a span, up to their last token.
fn arguments_of(text: &str, package: SourceSpan) -> Option<Arguments> {
    let Ok(mut lexer) = Lexer::new(accepted(text)) else {
        return None;
    };
    let mut arguments = Arguments {
        braces: 0,
        end: package.offset(),
        front: "",
    };
    while let Some((item, span)) = lexer.next() {
        if let Ok(token) = item {
            if package.offset() < span.offset() && !arguments.take(token, span) {
                return Some(arguments);
            }
        }
    }
    None
}

/// The edit that has an instance import what it isn't given.
fn filled(alloc: Global, text: &str, package: SourceSpan) -> Result<Option<Cure>, AllocError> {
    let Some(arguments) = arguments_of(text, package) else {
        return Ok(None);
    };
    let front = arguments.front;
    Ok(Some(Cure {
        title: String::from_str(alloc, "end with `...` to import it")?,
        span: SourceSpan::new(arguments.end, 0),
        text: format!(in alloc; "{front}...")?,
    }))
}

impl<'w> Seen<'w> {
    /// The edit that writes the name that was probably meant in the place of the one that a span ends with.
    fn renamed(
        self,
        alloc: Global,
        text: &str,
        span: SourceSpan,
    ) -> Result<Option<Cure>, AllocError> {
        let last = span.offset().saturating_add(span.len()).saturating_sub(1);
        let Some(name) = name_at(text, last) else {
            return Ok(None);
        };
        let offers = self.names_at(alloc, text, asked_in(text, name))?;
        match most_alike(alloc, text_at(text, name), &offers) {
            Ok(Some(meant)) => Ok(Some(written_there(alloc, meant, name)?)),
            Ok(None) => Ok(None),
            Err(error) => Err(error),
        }
    }

    /// The edit that probably mends what a diagnostic tells of a text.
    fn cure(
        self,
        alloc: Global,
        text: &str,
        diagnostic: &Diagnostic,
    ) -> Result<Option<Cure>, AllocError> {
        let Some(span) = diagnostic.span else {
            return Ok(None);
        };
        if is_of_name(diagnostic.code) {
            self.renamed(alloc, text, span)
        } else if diagnostic.code == "wac::missing-instantiation-arg" {
            filled(alloc, text, span)
        } else {
            Ok(None)
        }
    }
}

impl Workspace {
    /// What is wrong with a document of the folders, as `diagnose` says it, each with the edit that probably mends it, where
    /// there is one: the name most like one that a package doesn't have, and `...` after arguments of which one is missing.
    ///
    /// ```text
    /// workspace.mended(alloc, path, "package a:b; export new c:d { ... }.lgo;")?;     // write `log`, if c:d exports it
    /// ```
    pub fn mended(&self, alloc: Global, path: &str, text: &str) -> Result<Vec<Mended>, AllocError> {
        let mut mends = Vec::new(alloc);
        for diagnostic in self.diagnose(alloc, path, text)? {
            if let Some(cure) = self.at(path).cure(alloc, text, &diagnostic)? {
                let Cure { title, span, text } = cure;
                mends.push(Mended {
                    diagnostic,
                    title,
                    span,
                    text,
                })?;
            }
        }
        Ok(mends)
    }
}
