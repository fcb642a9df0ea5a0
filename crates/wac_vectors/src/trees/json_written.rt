//! The JSON of trees: as a text, and written part by part, into writers that take a few bytes a call and into ones that fail.

use crate::expecting::Expecting;
use crate::trees::json_texts::{TEXTS, has_json};
use std::alloc::{AllocError, Global};
use std::io::Write;
use std::test::Fail;
use wac_examples::put_json;
use wac_lexer::Out;
use wac_parser::{Error, PrintError, PrintResult};

/// Writes the tree of a text. A text that has none counts as one that can't be printed.
///
/// It has no contract, so that the proofs of the tests read nothing of that of the sink.
fn put<W: Write + Drop>(alloc: Global, source: &str, writer: W) -> Result<PrintResult, AllocError> {
    match put_json(alloc, source, &mut Out::new(writer)) {
        Ok(result) => Ok(result),
        Err(Error::Memory(_)) => Err(AllocError),
        Err(_) => Ok(Err(PrintError::Failed)),
    }
}

/// Whether a writer that takes so many bytes a call is given all of the JSON of a text. Where memory runs out, it has to
/// be given nothing.
fn is_written(
    alloc: Global,
    source: &str,
    json: &'static str,
    width: usize,
) -> Result<bool, AllocError> {
    let mut writer = Expecting::new(json, width, usize::MAX);
    match put(alloc, source, &mut writer) {
        Ok(result) => Ok(result == Ok(()) && writer.took(json.len())),
        Err(error) => {
            if writer.took(0) {
                Err(error)
            } else {
                Ok(false)
            }
        }
    }
}

/// The first text whose JSON is another one, or isn't written to a writer that takes so many bytes a call.
fn first_other(alloc: Global, width: usize) -> Result<Option<&'static str>, AllocError> {
    for (source, json) in &TEXTS {
        if !has_json(alloc, source, json)? || !is_written(alloc, source, json, width)? {
            return Ok(Some(*source));
        }
    }
    Ok(None)
}

/// Also passes where a request for memory fails, each in turn: it then asks once more.
#[test]
fn trees_are_written(rt: HostRuntime) -> Result<(), Fail> {
    for width in [usize::MAX, 1, 3] {
        let wrong = match first_other(rt.alloc(), width) {
            Ok(wrong) => wrong,
            Err(AllocError) => first_other(rt.alloc(), width)?,
        };
        assert!(rt; wrong == None, "{width} bytes a call: {wrong:?}");
    }
    Ok(())
}

/// Whether a writer that fails after so many bytes is reported, and is given no more.
fn stops_at(alloc: Global, source: &str, json: &'static str, room: usize) -> bool {
    let mut writer = Expecting::new(json, usize::MAX, room);
    match put(alloc, source, &mut writer) {
        Ok(result) => result == Err(PrintError::Writer) && writer.took(room),
        Err(_) => false,
    }
}

/// Whether it does after each byte of the JSON.
fn stops_at_each(alloc: Global, source: &str, json: &'static str) -> bool {
    for room in 0..json.len() {
        if !stops_at(alloc, source, json, room) {
            return false;
        }
    }
    true
}

/// How many bytes the JSON of a text has at most that is cut at each byte.
const SHORT: usize = 512;

#[test]
fn a_failing_writer_holds_a_beginning(rt: HostRuntime) {
    for (source, json) in &TEXTS {
        let stops = json.len() > SHORT || stops_at_each(rt.alloc(), source, json);
        assert!(rt; stops, "of {source}");
    }
}
