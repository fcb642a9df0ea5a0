// Laws of the errors. Each function does nothing: its contract is the law.
ghost use Rattle.std.specs.Prelude.{◌≡◌, ◌↔◌, IsTrue};
ghost use Rattle.wac_printer_pieces.specs.declared.error.PrintError.{PrintError as Failure};

use crate::error::PrintError;

/// Errors are equal where they are the same.
pub fn equality_reads_errors()
    ensures { (a b : Failure) → IsTrue (⟦<PrintError as PartialEq>⟧.eq a b) ↔ a ≡ b }
{}
