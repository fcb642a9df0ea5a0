//! Readers, writers and memory that fail, and writers that take few bytes a call.

use crate::narrow::{Narrow, Stop};
use crate::runs::{End, FIRST, FIRST_PRINTED, SECOND, SECOND_AS_JSON, end_of};
use std::alloc::{AllocError, Global};
use std::test::Fail;
use wac_tool::Command;

/// A command, an input, and what is written of it.
#[derive(Clone, Copy)]
pub struct Row<'a> {
    pub command: Command,
    pub input: &'a str,
    pub text: &'a str,
}

static ROWS: [Row<'static>; 7] = [
    Row {
        command: Command::Fmt,
        input: FIRST,
        text: FIRST_PRINTED,
    },
    Row {
        command: Command::Tokens,
        input: "package a:b",
        text: "0+7 `package` keyword\n8+3 package name\n",
    },
    Row {
        command: Command::Json,
        input: SECOND,
        text: SECOND_AS_JSON,
    },
    Row {
        command: Command::Resolve,
        input: "package a:b; import x: interface { f: func(); }; export x.f;",
        text: "0 import x: instance [x]\n1 alias 0 f: function\nexport f = 1\n",
    },
    Row {
        command: Command::Packages,
        input: "package a:b; import x: c:d/e@1.0.0; let y = new f:g { ... };",
        text: "c:d@1.0.0\nf:g\n",
    },
    Row {
        command: Command::Check,
        input: FIRST_PRINTED,
        text: "",
    },
    Row {
        command: Command::Tokens,
        input: "",
        text: "",
    },
];

impl Row<'_> {
    /// How a run with this writer ends.
    fn end(&self, alloc: Global, writer: &mut Narrow<'_>) -> End {
        end_of(alloc, self.command, self.input.as_bytes(), writer)
    }

    /// Whether a writer that fails is reported, and holds the bytes that it had room for.
    fn fails_at(&self, alloc: Global, width: usize, room: usize) -> bool {
        let mut writer = Narrow::new(self.text, width, room);
        self.end(alloc, &mut writer).word() == "output" && writer.holds(room)
    }

    /// Whether this is so at each byte of the text.
    fn fails_at_each(&self, alloc: Global, width: usize) -> bool {
        for room in 0..self.text.len() {
            if !self.fails_at(alloc, width, room) {
                return false;
            }
        }
        true
    }

    /// Whether a writer that stops after this many bytes is reported, and was called so often.
    fn stops_after(
        &self,
        alloc: Global,
        mut writer: Narrow<'_>,
        room: usize,
        calls: usize,
    ) -> bool {
        self.end(alloc, &mut writer).word() == "output"
            && writer.holds(room)
            && writer.calls() == calls
    }

    /// Whether a writer takes all of the text, and in this many calls.
    pub fn is_taken(&self, alloc: Global, width: usize, calls: usize) -> bool {
        let mut writer = Narrow::new(self.text, width, usize::MAX);
        let end = self.end(alloc, &mut writer);
        end.word() == "well" && writer.holds(self.text.len()) && writer.calls() == calls
    }

    /// Whether a writer takes all of the text in this many calls, and fails at each byte where it has no more room.
    fn is_taken_or_fails(&self, alloc: Global, width: usize, calls: usize) -> bool {
        self.is_taken(alloc, width, calls) && self.fails_at_each(alloc, width)
    }

    /// Whether the text is written, or requests for memory fail. What is rejected is written as nothing.
    fn is_written_or_memory_runs_out(&self, alloc: Global) -> bool {
        let mut writer = Narrow::new(self.text, 1, usize::MAX);
        let end = self.end(alloc, &mut writer);
        let is_end = match end.word() {
            "well" => writer.moved() == self.text.len(),
            "rejected" => self.text == "",
            word => word == "memory",
        };
        is_end && writer.holds(writer.moved())
    }
}

/// A writer that takes a byte, three bytes or all bytes a call.
#[test]
fn narrow_writers(rt: HostRuntime) {
    for row in &ROWS {
        let len = row.text.len();
        let all = usize::from(len > 0);
        assert!(rt;
            row.is_taken_or_fails(rt.alloc(), 1, len),
            "of {}",
            row.text
        );
        assert!(rt;
            row.is_taken_or_fails(rt.alloc(), 3, len.div_ceil(3)),
            "of {}",
            row.text
        );
        assert!(rt;
            row.is_taken_or_fails(rt.alloc(), usize::MAX, all),
            "of {}",
            row.text
        );
    }
}

/// Whether at each byte of a row's text a writer that stops there isn't called again, though it would continue.
fn writers_stop_once(alloc: Global, row: &Row, stop: Stop) -> bool {
    for room in 0..row.text.len() {
        let narrow = Narrow::new(row.text, 1, room).stopping(stop);
        let wide = Narrow::new(row.text, usize::MAX, room).stopping(stop);
        let calls = usize::from(room > 0).wrapping_add(1);
        if !row.stops_after(alloc, narrow, room, room.wrapping_add(1))
            || !row.stops_after(alloc, wide, room, calls)
        {
            return false;
        }
    }
    true
}

/// A writer that fails, or takes nothing, at one call alone.
#[test]
fn writers_are_not_tried_again(rt: HostRuntime) {
    for row in &ROWS {
        assert!(rt;
            writers_stop_once(rt.alloc(), row, Stop::FailsOnce),
            "of {}",
            row.text
        );
        assert!(rt;
            writers_stop_once(rt.alloc(), row, Stop::EndsOnce),
            "of {}",
            row.text
        );
    }
}

/// How many items have lines that fill a block of 8 KB twice, and more.
const ITEMS: usize = 430;

/// That many items.
fn items(alloc: Global) -> Result<String, AllocError> {
    let mut text = String::new(alloc);
    for _ in 0..ITEMS {
        text.push('#')?;
    }
    Ok(text)
}

/// Their lines.
fn lines(alloc: Global) -> Result<String, AllocError> {
    let mut text = String::new(alloc);
    for at in 0..ITEMS {
        writeln!(text, "{at}+1 unexpected token was encountered")?;
    }
    Ok(text)
}

/// Lists the items of a text.
fn listed<'a>(input: &'a str, text: &'a str) -> Row<'a> {
    Row {
        command: Command::Tokens,
        input,
        text,
    }
}

/// A text of three blocks.
#[test]
fn long_texts_are_written(rt: HostRuntime) -> Result<(), Fail> {
    let input = items(rt.alloc())?;
    let text = lines(rt.alloc())?;
    let row = listed(&input, &text);
    assert!(rt; text.len() > 16_384);
    assert!(rt; row.is_taken(rt.alloc(), 1, text.len()) && row.is_taken(rt.alloc(), usize::MAX, 3));
    Ok(())
}

/// The proved test takes seconds; by `rt try` it takes minutes.
#[test]
fn long_texts_are_cut_at_each_byte(rt: HostRuntime) -> Result<(), Fail> {
    let input = items(rt.alloc())?;
    let text = lines(rt.alloc())?;
    assert!(rt; listed(&input, &text).fails_at_each(rt.alloc(), usize::MAX));
    Ok(())
}

const COMMANDS: [Command; 6] = [
    Command::Fmt,
    Command::Tokens,
    Command::Json,
    Command::Resolve,
    Command::Packages,
    Command::Check,
];

/// Whether a reader that fails is reported, nothing was written, and the reader isn't called again.
fn reading_fails_at(alloc: Global, command: Command, stop: Stop, room: usize) -> bool {
    let mut reader = Narrow::new(FIRST, 1, room).stopping(stop);
    let mut writer = Narrow::new("", usize::MAX, usize::MAX);
    let end = end_of(alloc, command, &mut reader, &mut writer);
    end.word() == "input"
        && writer.calls() == 0
        && reader.moved() == room
        && reader.calls() == room.wrapping_add(1)
}

/// Whether this is so at each byte of a text.
fn reading_fails_at_each(alloc: Global, command: Command, stop: Stop) -> bool {
    for room in 0..FIRST.len() + 1 {
        if !reading_fails_at(alloc, command, stop, room) {
            return false;
        }
    }
    true
}

/// A reader that fails at each call from one on, or at one call alone.
#[test]
fn readers(rt: HostRuntime) {
    for command in COMMANDS {
        assert!(rt;
            reading_fails_at_each(rt.alloc(), command, Stop::Fails),
            "{command:?}"
        );
        assert!(rt;
            reading_fails_at_each(rt.alloc(), command, Stop::FailsOnce),
            "{command:?}"
        );
    }
}

/// A text whose first line is a document of its own, and another.
const LINES: &str = "package a:b;\nlet x = y;\n";

/// The bytes of the first.
const LINE: usize = 13;

/// What the commands write of the first line.
static OF_A_LINE: [Row<'static>; 5] = [
    Row {
        command: Command::Fmt,
        input: LINES,
        text: "package a:b;\n\n",
    },
    Row {
        command: Command::Tokens,
        input: LINES,
        text: "0+7 `package` keyword\n8+3 package name\n11+1 `;`\n",
    },
    Row {
        command: Command::Json,
        input: LINES,
        text: SECOND_AS_JSON,
    },
    Row {
        command: Command::Resolve,
        input: LINES,
        text: "",
    },
    Row {
        command: Command::Packages,
        input: LINES,
        text: "",
    },
];

impl Row<'_> {
    /// Whether the text is written of a reader that ends after a line and would give another, after so many calls.
    fn ends_with_a_line(&self, alloc: Global, width: usize, calls: usize) -> bool {
        let mut reader = Narrow::new(self.input, width, LINE).stopping(Stop::EndsOnce);
        let mut writer = Narrow::new(self.text, usize::MAX, usize::MAX);
        let end = end_of(alloc, self.command, &mut reader, &mut writer);
        end.word() == "well"
            && writer.holds(self.text.len())
            && reader.moved() == LINE
            && reader.calls() == calls
    }
}

/// A reader isn't called again once it has reported its end, as a terminal requires.
#[test]
fn readers_end_once(rt: HostRuntime) {
    for row in &OF_A_LINE {
        assert!(rt;
            row.ends_with_a_line(rt.alloc(), 1, LINE + 1),
            "of {}",
            row.text
        );
        assert!(rt;
            row.ends_with_a_line(rt.alloc(), usize::MAX, 2),
            "of {}",
            row.text
        );
    }
}

static REJECTED: [Row<'static>; 8] = [
    Row {
        command: Command::Fmt,
        input: "package a:b; let",
        text: "",
    },
    Row {
        command: Command::Json,
        input: "package a:b; let",
        text: "",
    },
    Row {
        command: Command::Resolve,
        input: "package a:b; let",
        text: "",
    },
    Row {
        command: Command::Resolve,
        input: "package a:b targets a:b/w; world w { export run: func(); }",
        text: "",
    },
    Row {
        command: Command::Packages,
        input: "package a:b; let",
        text: "",
    },
    Row {
        command: Command::Check,
        input: "package a:b; let",
        text: "",
    },
    Row {
        command: Command::Check,
        input: "package a:b;",
        text: "",
    },
    Row {
        command: Command::Tokens,
        input: "\u{c}",
        text: "",
    },
];

/// Passes also where a request for memory fails, each in turn.
#[test]
fn memory_that_is_refused(rt: HostRuntime) {
    for row in &ROWS {
        assert!(rt;
            row.is_written_or_memory_runs_out(rt.alloc()),
            "of {}",
            row.input
        );
    }
    for row in &REJECTED {
        assert!(rt;
            row.is_written_or_memory_runs_out(rt.alloc()),
            "of {}",
            row.input
        );
    }
}
