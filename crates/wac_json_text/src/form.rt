//! What has a JSON form.
ghost use Rattle.std.specs.Prelude.{List};
ghost use Rattle.serde_json.specs.Data.{Data};
ghost use Rattle.wac_printer_layout.specs.Printed.{Piece};
ghost use Rattle.wac_printer_pieces.specs.Printed.{Prints};
ghost use Rattle.wac_json_text.specs.Pieces.{pieces};

use wac_lexer::Sink;
use wac_printer_pieces::{Pieces, PrintResult};

/// What is written as JSON: each node of a tree, its spans and texts, and lists of them.
pub(crate) trait Json {
    ghost form: { Self → Data };

    /// Writes the form.
    fn write<S: Sink>(&self, out: &mut Pieces<'_, S>) -> PrintResult
        ensures { Prints out.old result out.new (pieces (form self.now)) };
}

/// A form that begins with the same text for each value, and ends with the same text.
///
/// These are `{"length":` and `}` of a span, `{"span":{"length":` and `"}` of an identifier or a string, two quotes of
/// a text, and two brackets of a list. The caller joins them to constants of its own, which saves calls of the sink.
pub(crate) trait Enclosed {
    ghost inside: { Self → List Piece };

    /// Writes what stands between the two.
    fn write_inside<S: Sink>(&self, out: &mut Pieces<'_, S>) -> PrintResult
        ensures { Prints out.old result out.new (inside self.now) };
}
