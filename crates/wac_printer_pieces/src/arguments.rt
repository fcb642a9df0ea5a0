//! What ends the line of an argument.
ghost use Rattle.std.specs.Prelude.{◌≡◌, ℕ, List, [], ◌∷◌, ◌++◌, codes};
ghost use Rattle.wac_printer_layout.specs.Printed.{Piece, token};
ghost use Rattle.wac_ast_statements.specs.Expressions.{argument_of};
ghost use Rattle.wac_printer_pieces.specs.Arguments.{ending_layout};
ghost use Rattle.wac_printer_pieces.specs.Printed.{Prints};

use crate::error::PrintResult;
use crate::pieces::Pieces;
use wac_ast_statements::InstantiationArgument;
use wac_lexer::Sink;

#[tactic(auto, using(crate::proofs::Printing::seq))]
impl<'a, S: Sink> Pieces<'a, S> {
    /// Ends the line of an argument of an instantiation: by a comma, unless it is a fill and the last.
    pub fn ending(&mut self, argument: &InstantiationArgument<'_>, is_last: bool) -> PrintResult
        ensures { Prints self.old result self.new (ending_layout is_last (argument_of argument.now)) }
    {
        match argument {
            InstantiationArgument::Fill(_) if is_last => self.blank("\n"),
            _ => {
                self.token(",")?;
                self.blank("\n")
            }
        }
    }
}
