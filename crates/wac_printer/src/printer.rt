//! The printer: how it is made, and what it writes with.
ghost use Rattle.std.specs.Prelude.{◌≡◌, ℕ, List, [], ◌∷◌, ◌++◌, Option, codes};
ghost use Rattle.wac_lexer.specs.Reading.{slice, Slices};
ghost use Rattle.wac_ast_base.specs.Names.{ident_of, string_of, package_name_of, package_path_of};
ghost use Rattle.wac_printer_layout.specs.TypeLayout.{package_path_layout};
ghost use Rattle.wac_printer.specs.Sliced.{IdentSliced, StringSliced, PackageNameSliced, PackagePathSliced};
ghost use Rattle.wac_printer_layout.specs.Printed.{token, blank, line, deeper};
ghost use Rattle.wac_printer_pieces.specs.Printed.{Printer, Prints};
ghost use Rattle.wac_printer.specs.Forms.{IsNew, IsSinkOf, PrintsBare, walk_path};

use std::marker::Model;
use wac_ast::{Ident, PackageName, PackagePath, String};
use wac_lexer::{Sink, SourceSpan};
use wac_printer_pieces::{Pieces, PrintResult};

/// Prints documents.
#[derive(Drop)]
pub struct DocumentPrinter<'a, S: Sink> {
    pub(crate) pieces: Pieces<'a, S>,
}

impl<'a, S: Sink> Model for DocumentPrinter<'a, S> {
    ghost Value = { Printer };

    ghost view = { λ p. p.pieces };

    ghost invariant = { λ p. Unit {0} };
}

impl<'a, S: Sink> DocumentPrinter<'a, S> {
    /// A printer into `writer` of trees of the text `source`, at depth 0 and at the beginning of a line.
    ///
    /// `space` is written once for each depth where a line begins: four spaces where it is `None`.
    pub fn new(writer: S, source: &'a str, space: Option<&'a str>) -> Self
        ensures { IsNew result (S.bytes writer) (S.failures writer) (S.borrow writer) source.entry.now space.entry }
    {
        DocumentPrinter {
            pieces: Pieces::new(writer, source, space),
        }
    }

    /// What was written into.
    pub fn into_writer(self) -> S
        ensures { IsSinkOf self.entry (S.bytes result) (S.failures result) (S.borrow result) }
    {
        self.pieces.into_writer()
    }

    // Delegated to what writes pieces.

    pub(crate) fn blank(&mut self, text: &str) -> PrintResult
        ensures { Prints self.old result self.new (blank text.now ∷ []) }
    {
        self.pieces.blank(text)
    }

    pub(crate) fn token(&mut self, text: &str) -> PrintResult
        ensures { Prints self.old result self.new (token text.now ∷ []) }
    {
        self.pieces.token(text)
    }

    pub(crate) fn ready(&self) -> PrintResult
        ensures { Prints self.now result self.now [] }
    {
        self.pieces.ready()
    }

    pub(crate) fn line(&mut self) -> PrintResult
        ensures { Prints self.old result self.new (line self.old.depth ∷ []) }
    {
        self.pieces.line()
    }

    pub(crate) fn spelled(&mut self, span: SourceSpan) -> PrintResult
        requires { Slices self.old.source span }
        ensures { Prints self.old result self.new (token (slice self.old.source span) ∷ []) }
    {
        self.pieces.spelled(span)
    }

    pub(crate) fn indent(&mut self) -> usize
        ensures { (result ≡ self.old.depth) × (self.new ≡ record self.old { depth = deeper self.old.depth }) }
    {
        self.pieces.indent()
    }

    pub(crate) fn dedent(&mut self, depth: usize)
        ensures { self.new ≡ record self.old { depth = depth } }
    {
        self.pieces.dedent(depth)
    }

    /// Prints an identifier.
    pub(crate) fn ident(&mut self, id: &Ident<'_>) -> PrintResult
        requires { IdentSliced self.old.source (ident_of id.now) }
        ensures { Prints self.old result self.new (token (slice self.old.source id.now.span) ∷ []) }
    {
        self.spelled(id.span)
    }

    /// Prints a string.
    pub(crate) fn string(&mut self, string: &String<'_>) -> PrintResult
        requires { StringSliced self.old.source (string_of string.now) }
        ensures { Prints self.old result self.new (token (slice self.old.source string.now.span) ∷ []) }
    {
        self.spelled(string.span)
    }

    /// Prints a package name.
    pub(crate) fn package_name(&mut self, name: &PackageName<'_>) -> PrintResult
        requires { PackageNameSliced self.old.source (package_name_of name.now) }
        ensures { Prints self.old result self.new (token (slice self.old.source name.now.span) ∷ []) }
    {
        self.spelled(name.span)
    }

    /// Prints a package path as it is spelled.
    pub fn package_path(&mut self, path: &PackagePath<'_>) -> PrintResult
        requires { PackagePathSliced self.old.source (package_path_of path.now) }
        ensures { PrintsBare self.old result self.new package_path_layout walk_path (package_path_of path.now) }
    {
        self.spelled(path.span)
    }
}
