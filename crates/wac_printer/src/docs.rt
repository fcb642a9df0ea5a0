//! Printing docs.
ghost use Rattle.std.specs.Prelude.{◌≡◌, ℕ, List, [], ◌∷◌, ◌++◌, map};
ghost use Rattle.std.specs.List.{flat_map};
ghost use Rattle.std.specs.Str.Lines.{lines};
ghost use Rattle.wac_ast_base.specs.Names.{doc_comment_of};
ghost use Rattle.wac_printer_pieces.specs.Printed.{Prints};
ghost use Rattle.wac_printer_layout.specs.Bare.{doc_line};
ghost use Rattle.wac_printer_layout.specs.Parts.{docs_layout};
ghost use Rattle.wac_printer.specs.Nodes.{PrintsDocs};

use crate::lists::Node;
use crate::printer::DocumentPrinter;
use wac_ast::DocComment;
use wac_lexer::Sink;
use wac_printer_pieces::PrintResult;

impl Node for DocComment<'_> {
    ghost layout = { λ source depth x. docs_layout depth (map doc_line (lines x.comment.now)) };

    ghost sliced = { λ source x. Unit {0} };

    fn print<S: Sink>(&self, printer: &mut DocumentPrinter<'_, S>) -> PrintResult {
        printer.doc_lines(self.comment)
    }
}

#[tactic(auto, using(crate::proofs::Steps::steps))]
impl<'a, S: Sink> DocumentPrinter<'a, S> {
    /// Prints docs: for each line of each a line `/// ` with its text, trimmed. An empty one prints nothing.
    pub fn docs(&mut self, docs: &[DocComment<'_>]) -> PrintResult
        ensures { PrintsDocs self.old result self.new (map doc_comment_of docs.now) }
    {
        self.each(docs)
    }

    fn doc_lines(&mut self, text: &str) -> PrintResult
        ensures { Prints self.old result self.new (docs_layout self.old.depth (map doc_line (lines text.now))) }
    {
        self.pieces.doc_lines(text)
    }
}
