//! Runs: one of each word, and what is reported of errors. Rows of whole runs are in .ci/runs/.

use crate::failing::Row;
use crate::narrow::Narrow;
use std::alloc::{AllocError, Global};
use std::io::{Read, Write};
use std::test::Fail;
use wac_lexer::{In, Out};
use wac_tool::{Command, RunError, report, run};

/// Runs with a reader and a writer. It has no contract, so that the proofs of the tests read nothing of that of `run`.
fn ran<R: Read + Drop, W: Write + Drop>(
    alloc: Global,
    command: Command,
    reader: R,
    writer: W,
) -> Result<(), RunError> {
    run(alloc, command, &mut In::new(reader), &mut Out::new(writer))
}

/// How a run ends.
#[derive(Clone, Copy)]
pub enum End {
    Well,
    Rejected,
    Input,
    Output,
    Memory,
    Bytes,
}

impl End {
    /// How it ends, in a word. What is generic returns no such text, for the prover's sake.
    pub fn word(self) -> &'static str {
        match self {
            End::Well => "well",
            End::Rejected => "rejected",
            End::Input => "input",
            End::Output => "output",
            End::Memory => "memory",
            End::Bytes => "bytes",
        }
    }
}

/// How a run ends, without its error.
pub fn end_of<R: Read + Drop, W: Write + Drop>(
    alloc: Global,
    command: Command,
    reader: R,
    writer: W,
) -> End {
    match ran(alloc, command, reader, writer) {
        Ok(()) => End::Well,
        Err(RunError::Refused { .. }) => End::Rejected,
        Err(RunError::Input) => End::Input,
        Err(RunError::Output) => End::Output,
        Err(RunError::Memory(_)) => End::Memory,
        Err(RunError::NotUtf8) => End::Bytes,
    }
}

pub const FIRST: &str = "package a:b; let x = y; export x.z;";

pub const FIRST_PRINTED: &str = "package a:b;\n\nlet x = y;\n\nexport x.z;\n";

pub const SECOND: &str = "package a:b;";

pub const SECOND_AS_JSON: &str =
    "{\"directive\":{\"package\":{\"name\":\"a:b\",\"span\":{\"length\":3,\"offset\":8},\"string\":\"a:b\",\"version\":null}},\"docs\":[],\"statements\":[]}\n";

/// Words, texts, and what is written of them.
static RUNS: [(&str, &str, &str); 6] = [
    ("tokens", "x:string", "0+8 package name\n"),
    ("fmt", FIRST, FIRST_PRINTED),
    ("json", SECOND, SECOND_AS_JSON),
    (
        "resolve",
        "package a:b; type t = u32;",
        "0 definition: value type [t]\nexport t = 0\n",
    ),
    ("packages", "package a:b; import x: c:d/e;", "c:d\n"),
    ("check", FIRST_PRINTED, ""),
];

/// Whether the command of a word writes a text of an input.
fn writes(alloc: Global, word: &str, input: &str, text: &str) -> bool {
    match Command::named(word) {
        Some(command) => {
            let row = Row {
                command,
                input,
                text,
            };
            row.is_taken(alloc, usize::MAX, usize::from(text != ""))
        }
        None => false,
    }
}

#[test]
fn each_word_writes_what_it_is_asked_for(rt: HostRuntime) {
    for (word, input, text) in &RUNS {
        assert!(rt; writes(rt.alloc(), word, input, text), "of {input}");
    }
}

#[test]
fn bytes_that_are_no_text_are_rejected(rt: HostRuntime) {
    let mut writer = Narrow::new("", usize::MAX, usize::MAX);
    let end = end_of(rt.alloc(), Command::Json, b"a\xff".as_slice(), &mut writer);
    assert!(rt; end.word() == "bytes" && writer.calls() == 0);
}

/// Whether a line is said of an error.
fn is_reported(error: &RunError, line: &str, status: u8) -> bool {
    let mut errors = Narrow::new(line, 1, usize::MAX);
    let found = report(Some(error), &mut Out::new(&mut errors));
    found == status && errors.holds(line.len())
}

#[test]
fn other_errors_are_reported(rt: HostRuntime) -> Result<(), Fail> {
    assert!(rt; is_reported(&RunError::Input, "input failed\n", 3));
    assert!(rt; is_reported(&RunError::Output, "output failed\n", 3));
    assert!(rt; is_reported(&RunError::NotUtf8, "input is not UTF-8\n", 3));
    assert!(rt; is_reported(&RunError::Memory(AllocError), "out of memory\n", 4));
    let without_place = RunError::Refused {
        span: None,
        text: String::from_str(rt.alloc(), "not printed yet")?,
    };
    assert!(rt; is_reported(&without_place, "error: not printed yet\n", 1));
    Ok(())
}
