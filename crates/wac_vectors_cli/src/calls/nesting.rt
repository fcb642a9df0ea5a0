// Nesting.
use crate::calls::rooms::{line, push_difference, room};
use std::alloc::{AllocError, Global};
use std::test::Fail;
use wac_calls::{Command, DEFAULT_LIMIT, Task, Word, call};

/// What opens and what closes brackets of a text, how many there are, the limit, and what the call leaves.
struct Row {
    opens: &'static str,
    closes: &'static str,
    depth: usize,
    limit: usize,
    left: &'static str,
}

/// The bracket at fault is the one after the limit. Those in the text before the first, at 37, don't count.
static ROWS: [Row; 7] = [
    Row {
        opens: "(",
        closes: ")",
        depth: 256,
        limit: DEFAULT_LIMIT,
        left: "well",
    },
    Row {
        opens: "(",
        closes: ")",
        depth: 257,
        limit: DEFAULT_LIMIT,
        left: "nested too deep 293+1 | brackets are nested deeper than the limit",
    },
    // A brace counts as two.
    Row {
        opens: "new c:d { e: ",
        closes: " }",
        depth: 128,
        limit: DEFAULT_LIMIT,
        left: "well |  of 4",
    },
    Row {
        opens: "new c:d { e: ",
        closes: " }",
        depth: 129,
        limit: DEFAULT_LIMIT,
        left: "nested too deep 1709+1 | brackets are nested deeper than the limit",
    },
    Row {
        opens: "(",
        closes: ")",
        depth: 0,
        limit: 0,
        left: "well",
    },
    Row {
        opens: "(",
        closes: ")",
        depth: 1,
        limit: 0,
        left: "nested too deep 37+1 | brackets are nested deeper than the limit",
    },
    Row {
        opens: "(",
        closes: ")",
        depth: 5_000,
        limit: 3,
        left: "nested too deep 40+1 | brackets are nested deeper than the limit",
    },
];

/// Appends a text so often.
fn push_each(out: &mut String, text: &str, count: usize) -> Result<(), AllocError> {
    for _ in 0..count {
        out.push_str(text)?;
    }
    Ok(())
}

/// A document whose brackets are nested so deep.
fn nested(alloc: Global, row: &Row) -> Result<String, AllocError> {
    let mut text = String::from_str(alloc, "package a:b; /* ((\" */ // ({\nlet x = ")?;
    push_each(&mut text, row.opens, row.depth)?;
    text.push('y')?;
    push_each(&mut text, row.closes, row.depth)?;
    text.push(';')?;
    Ok(text)
}

/// What listing the packages leaves, with no room for them.
fn left(alloc: Global, row: &Row) -> Result<String, AllocError> {
    let text = nested(alloc, row)?;
    let mut out = room(alloc, 0)?;
    let mut message = room(alloc, 99)?;
    let task = Task {
        word: Word::Wac(Command::Packages),
        limit: row.limit,
    };
    let answer = call(
        alloc,
        task,
        text.as_bytes(),
        out.as_mut_slice(),
        message.as_mut_slice(),
    );
    line(alloc, answer, out.as_slice(), message.as_slice())
}

/// What calls leave that is not what their rows say.
fn differences(alloc: Global, rows: &[Row]) -> Result<String, AllocError> {
    let mut all = String::new(alloc);
    for row in rows {
        let found = left(alloc, row)?;
        push_difference(&mut all, found.as_str(), row.left)?;
    }
    Ok(all)
}

#[test]
fn nesting_is_limited(rt: HostRuntime) -> Result<(), Fail> {
    let found = differences(rt.alloc(), &ROWS)?;
    assert!(rt; found.is_empty(), "{found}");
    Ok(())
}
