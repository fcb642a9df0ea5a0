//! Lines of docs.
ghost use Rattle.std.specs.Prelude.{◌≡◌, ℕ, List, [], ◌∷◌, ◌++◌, map};
ghost use Rattle.std.specs.List.{flat_map};
ghost use Rattle.std.specs.Str.{trim};
ghost use Rattle.std.specs.Str.Lines.{lines};
ghost use Rattle.wac_printer_layout.specs.Printed.{doc};
ghost use Rattle.wac_printer_layout.specs.Bare.{doc_line};
ghost use Rattle.wac_printer_layout.specs.Parts.{doc_layout, docs_layout};
ghost use Rattle.wac_printer_pieces.specs.Printed.{Prints};

use crate::error::PrintResult;
use crate::pieces::Pieces;
use wac_lexer::Sink;

#[tactic(auto, using(crate::proofs::Printing::seq))]
impl<'a, S: Sink> Pieces<'a, S> {
    /// Writes a doc: for each of its lines a line `/// ` with its text, trimmed. An empty one writes nothing.
    pub fn doc_lines(&mut self, text: &str) -> PrintResult
        ensures { Prints self.old result self.new (docs_layout self.old.depth (map doc_line (lines text.now))) }
    {
        self.ready()?;
        for line in text.lines() {
            self.doc_line(line)?;
        }
        Ok(())
    }

    fn doc_line(&mut self, text: &str) -> PrintResult
        ensures { Prints self.old result self.new (doc_layout self.old.depth (doc_line text.now)) }
    {
        self.line().and(self.doc(text.trim())).and(self.blank("\n"))
    }

    #[tactic(auto, using(crate::proofs::Printing::doc_is))]
    fn doc(&mut self, text: &str) -> PrintResult
        ensures { Prints self.old result self.new (doc text.now ∷ []) }
    {
        self.blank("/// ")?;
        self.blank(text)
    }
}
