//! Of what a text names of packages which text says something.
use crate::kinds::accepted;
use crate::named::is_at;
use crate::roots::Seen;
use std::alloc::{AllocError, Global};
use wac_lexer::{Lexer, SourceSpan, Token};

/// A name of a package in a text, and where a text declares it.
#[derive(Clone, Copy)]
pub struct Described<'x> {
    /// Where the name is in the text that was asked about.
    pub at: SourceSpan,
    /// The text that declares it: that of a document, or what `wacx package` shows of a component.
    pub text: &'x str,
    /// The place in that text.
    pub span: SourceSpan,
}

/// Whether a token can name something of a package.
fn names(token: Token) -> bool {
    matches!(
        token,
        Token::Ident | Token::String | Token::PackageName | Token::PackagePath
    )
}

/// Where the name at an offset is, or just before it.
pub(crate) fn name_at(text: &str, offset: usize) -> Option<SourceSpan> {
    let Ok(mut lexer) = Lexer::new(accepted(text)) else {
        return None;
    };
    while let Some((item, span)) = lexer.next() {
        if let Ok(token) = item {
            if names(token) && is_at(span, offset) {
                return Some(span);
            }
        }
    }
    None
}

impl<'w> Seen<'w> {
    /// Which text declares what a text names of a package at an offset, and where: as `declaration_at` says it, and of the
    /// package of a component in the text that `wacx package` shows of it.
    ///
    /// ```text
    /// workspace.described_at(alloc, "package a:b; import x: c:d/e; export x.f;", 40)?;     // `f`, at 39+1, in the text of c:d
    /// ```
    pub fn described_at(
        self,
        alloc: Global,
        text: &'w str,
        offset: usize,
    ) -> Result<Option<Described<'w>>, AllocError> {
        let Some(at) = name_at(text, offset) else {
            return Ok(None);
        };
        match self.found_at(alloc, text, offset) {
            Ok(Some(found)) => Ok(Some(Described {
                at,
                text: found.declaring.text,
                span: found.span,
            })),
            Ok(None) => Ok(None),
            Err(error) => Err(error),
        }
    }
}
