//! Putting lines into a sink, in parts.
ghost use Rattle.std.specs.Prelude.{flat_map};
ghost use Rattle.wac_tool_graphs.specs.Lines.{name_line};
ghost use Rattle.wac_tool_graphs.specs.Puts.{Puts};

use itoa::Buffer;
use wac_graph::Names;
use wac_lexer::{Sink, put_all};

/// The sink failed, after a prefix of the text.
#[derive(Clone, Copy, Debug, PartialEq, Eq)]
pub struct OutputFailed;

/// Puts parts of a text in order, until the sink fails.
pub(crate) fn put_each<S: Sink>(parts: &[&str], out: &mut S) -> Result<(), OutputFailed>
    ensures { Puts result (S.bytes out.old) (S.failures out.old) (S.bytes out.new) (S.failures out.new)
        (flat_map (λ part. part.now) parts.now) }
{
    for part in parts {
        if !put_all(out, part.as_bytes()) {
            return Err(OutputFailed);
        }
    }
    Ok(())
}

/// Writes a line for each name: what comes before it, the name, and its node's number.
pub(crate) fn write_names<S: Sink>(
    before: &str,
    names: Names<'_>,
    out: &mut S,
) -> Result<(), OutputFailed>
    ensures { Puts result (S.bytes out.old) (S.failures out.old) (S.bytes out.new) (S.failures out.new)
        (flat_map (name_line before.now) names.entry) }
{
    for (name, node) in names {
        let mut number = Buffer::new();
        put_each(&[before, name, " = ", number.format(node.0), "\n"], out)?;
    }
    Ok(())
}
