// What ends the lines of a text.
ghost use Rattle.wac_cli.specs.Tidying.{EndsLinesAs};

use crate::options::LineEnds;
use wac_comments::LineEnd;
use wac_line_ends::line_end_of;

/// What ends the lines of a text when it is printed.
pub(crate) fn chosen(line_ends: LineEnds, text: &str) -> LineEnd
    ensures { EndsLinesAs line_ends result }
{
    match line_ends {
        LineEnds::Auto => line_end_of(text),
        LineEnds::Lf => LineEnd::Lf,
        LineEnds::CrLf => LineEnd::CrLf,
    }
}
