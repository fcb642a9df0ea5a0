//! Printing the lists of a tree.
ghost use Rattle.std.specs.Prelude.{◌≡◌, ℕ, List, [], ◌∷◌, ◌++◌};
ghost use Rattle.std.specs.List.{flat_map, All};
ghost use Rattle.wac_printer_layout.specs.Printed.{Piece};
ghost use Rattle.wac_printer_pieces.specs.Printed.{Prints};
ghost use Rattle.wac_printer_layout.specs.Parts.{newline, joined, spaced, body, rows, open_body, close_body};
ghost use Rattle.wac_printer.specs.Layouts.{at_depth, after_comma, after_newline, one_deeper, row};

use crate::printer::DocumentPrinter;
use wac_lexer::Sink;
use wac_printer_pieces::PrintResult;

/// What a list of a tree holds.
pub(crate) trait Node {
    ghost layout: { List ℕ → ℕ → Self → List Piece };

    ghost sliced: { List ℕ → Self → Type 0 };

    /// Prints it.
    fn print<S: Sink>(&self, printer: &mut DocumentPrinter<'_, S>) -> PrintResult
        requires { sliced printer.old.source self.now }
        ensures { Prints printer.old result printer.new (layout printer.old.source printer.old.depth self.now) };
}

#[tactic(auto, using(crate::proofs::Steps::steps))]
impl<'a, S: Sink> DocumentPrinter<'a, S> {
    /// Prints nodes in order.
    pub(crate) fn each<T: Node>(&mut self, items: &[T]) -> PrintResult
        requires { All (T.sliced self.old.source) items.now }
        ensures { Prints self.old result self.new (flat_map (T.layout self.old.source self.old.depth) items.now) }
    {
        self.ready()?;
        for item in items {
            item.print(self)?;
        }
        Ok(())
    }

    /// Prints nodes joined by a comma and a blank.
    pub(crate) fn joined<T: Node>(&mut self, items: &[T]) -> PrintResult
        requires { All (T.sliced self.old.source) items.now }
        ensures { Prints self.old result self.new (joined (T.layout self.old.source self.old.depth) items.now) }
    {
        match items.split_first() {
            None => self.ready(),
            Some((first, rest)) => {
                first.print(self)?;
                self.after_commas(rest)
            }
        }
    }

    fn after_commas<T: Node>(&mut self, items: &[T]) -> PrintResult
        requires { All (T.sliced self.old.source) items.now }
        ensures { Prints self.old result self.new (flat_map (after_comma (at_depth T.layout self.old)) items.now) }
    {
        self.ready()?;
        for item in items {
            self.after_comma(item)?;
        }
        Ok(())
    }

    fn after_comma<T: Node>(&mut self, item: &T) -> PrintResult
        requires { T.sliced self.old.source item.now }
        ensures { Prints self.old result self.new (after_comma (at_depth T.layout self.old) item.now) }
    {
        self.token(",").and(self.blank(" ")).and(item.print(self))
    }

    /// Prints nodes, each ended by a newline, with an empty line between two.
    pub(crate) fn spaced<T: Node>(&mut self, items: &[T]) -> PrintResult
        requires { All (T.sliced self.old.source) items.now }
        ensures { Prints self.old result self.new (spaced (T.layout self.old.source self.old.depth) items.now) }
    {
        match items.split_first() {
            None => self.ready(),
            Some((first, rest)) => {
                self.ended(first)?;
                self.after_empty_lines(rest)
            }
        }
    }

    fn after_empty_lines<T: Node>(&mut self, items: &[T]) -> PrintResult
        requires { All (T.sliced self.old.source) items.now }
        ensures { Prints self.old result self.new (flat_map (after_newline (at_depth T.layout self.old)) items.now) }
    {
        self.ready()?;
        for item in items {
            self.after_empty_line(item)?;
        }
        Ok(())
    }

    fn after_empty_line<T: Node>(&mut self, item: &T) -> PrintResult
        requires { T.sliced self.old.source item.now }
        ensures { Prints self.old result self.new (after_newline (at_depth T.layout self.old) item.now) }
    {
        self.blank("\n").and(self.ended(item))
    }

    fn ended<T: Node>(&mut self, item: &T) -> PrintResult
        requires { T.sliced self.old.source item.now }
        ensures { Prints self.old result self.new (T.layout self.old.source self.old.depth item.now ++ newline ∷ []) }
    {
        item.print(self).and(self.blank("\n"))
    }

    /// Prints nodes in braces, one deeper, with an empty line between two.
    #[tactic(auto, using(crate::proofs::Steps::bodies))]
    pub(crate) fn body<T: Node>(&mut self, items: &[T]) -> PrintResult
        requires { All (T.sliced self.old.source) items.now }
        ensures { Prints self.old result self.new (body (T.layout self.old.source) self.old.depth items.now) }
    {
        self.open_body()
            .and(self.deeper_spaced(items))
            .and(self.close_body())
    }

    fn deeper_spaced<T: Node>(&mut self, items: &[T]) -> PrintResult
        requires { All (T.sliced self.old.source) items.now }
        ensures { Prints self.old result self.new (spaced (one_deeper T.layout self.old) items.now) }
    {
        let depth = self.indent();
        let printed = self.spaced(items);
        self.dedent(depth);
        printed
    }

    /// Prints nodes in braces, one deeper, each ended by a comma and a newline.
    #[tactic(auto, using(crate::proofs::Steps::bodies))]
    pub(crate) fn rows<T: Node>(&mut self, items: &[T]) -> PrintResult
        requires { All (T.sliced self.old.source) items.now }
        ensures { Prints self.old result self.new (rows (T.layout self.old.source) self.old.depth items.now) }
    {
        self.open_body()
            .and(self.deeper_rows(items))
            .and(self.close_body())
    }

    fn deeper_rows<T: Node>(&mut self, items: &[T]) -> PrintResult
        requires { All (T.sliced self.old.source) items.now }
        ensures { Prints self.old result self.new (flat_map (row (one_deeper T.layout self.old)) items.now) }
    {
        let depth = self.indent();
        let printed = self.each_row(items);
        self.dedent(depth);
        printed
    }

    fn each_row<T: Node>(&mut self, items: &[T]) -> PrintResult
        requires { All (T.sliced self.old.source) items.now }
        ensures { Prints self.old result self.new (flat_map (row (at_depth T.layout self.old)) items.now) }
    {
        self.ready()?;
        for item in items {
            self.row(item)?;
        }
        Ok(())
    }

    fn row<T: Node>(&mut self, item: &T) -> PrintResult
        requires { T.sliced self.old.source item.now }
        ensures { Prints self.old result self.new (row (at_depth T.layout self.old) item.now) }
    {
        item.print(self).and(self.token(",")).and(self.blank("\n"))
    }

    fn open_body(&mut self) -> PrintResult
        ensures { Prints self.old result self.new open_body }
    {
        self.blank(" ").and(self.token("{")).and(self.blank("\n"))
    }

    fn close_body(&mut self) -> PrintResult
        ensures { Prints self.old result self.new (close_body self.old.depth) }
    {
        self.line().and(self.token("}"))
    }
}
