// Calls of words, with ample room and with too little.
use crate::calls::rooms::{line, push_difference, room};
use std::alloc::{AllocError, Global};
use std::test::Fail;
use wac_calls::{Command, DEFAULT_LIMIT, Task, Word, call};

/// A word, the bytes of a text, how much room there is for what is written and for a message, and what the call leaves.
struct Row {
    word: Word,
    text: &'static [u8],
    rooms: (usize, usize),
    left: &'static str,
}

const FIRST: &[u8] = b"package a:b; let x = y; export x.z;";

const FMT: Word = Word::Wac(Command::Fmt);

/// A document with a character of two bytes, and a comment.
const ACCENTED: &[u8] = b"/// \xC3\xA9\npackage a:b; // c";

/// Texts fit, or are cut after a character.
static WRITTEN: [Row; 12] = [
    Row {
        word: FMT,
        text: FIRST,
        rooms: (100, 9),
        left: "well | package a:b;\n\nlet x = y;\n\nexport x.z;\n",
    },
    Row {
        word: FMT,
        text: FIRST,
        rooms: (38, 0),
        left: "well | package a:b;\n\nlet x = y;\n\nexport x.z;\n",
    },
    Row {
        word: FMT,
        text: FIRST,
        rooms: (12, 9),
        left: "well | package a:b; of 38",
    },
    Row {
        word: FMT,
        text: FIRST,
        rooms: (0, 9),
        left: "well |  of 38",
    },
    Row {
        word: FMT,
        text: ACCENTED,
        rooms: (6, 9),
        left: "well | /// \u{e9} of 21",
    },
    Row {
        word: FMT,
        text: ACCENTED,
        rooms: (5, 9),
        left: "well | ///  of 21",
    },
    Row {
        word: Word::Tidy,
        text: ACCENTED,
        rooms: (99, 9),
        left: "well | /// \u{e9}\npackage a:b; // c\n",
    },
    Row {
        word: Word::Wac(Command::Tokens),
        text: b"x:string",
        rooms: (99, 9),
        left: "well | 0+8 package name\n",
    },
    Row {
        word: Word::Wac(Command::Packages),
        text: b"package a:b; let x = new c:d {};",
        rooms: (9, 9),
        left: "well | c:d\n",
    },
    Row {
        word: Word::Wac(Command::Resolve),
        text: b"package a:b; import y: func();",
        rooms: (99, 9),
        left: "well | 0 import y: function [y]\n",
    },
    Row {
        word: Word::Wac(Command::Check),
        text: b"package a:b;\n\nlet x = y;\n\nexport x.z;\n",
        rooms: (9, 9),
        left: "well",
    },
    Row {
        word: Word::Wac(Command::Tokens),
        text: b"",
        rooms: (9, 9),
        left: "well",
    },
];

/// Rejections have a place and a message.
static REJECTED: [Row; 10] = [
    Row {
        word: FMT,
        text: b"package a:b; let x y;",
        rooms: (99, 99),
        left: "rejected 19+1 | expected `=`, found identifier",
    },
    Row {
        word: Word::Wac(Command::Json),
        text: b"package a:b; let x y;",
        rooms: (99, 8),
        left: "rejected 19+1 | expected of 30",
    },
    Row {
        word: Word::Wac(Command::Check),
        text: FIRST,
        rooms: (99, 99),
        left: "rejected | not formatted",
    },
    Row {
        word: Word::Wac(Command::Resolve),
        text: b"package a:b; export x;",
        rooms: (99, 99),
        left: "rejected 20+1 | undefined name `x`",
    },
    Row {
        word: Word::Tidy,
        text: b"package a:b; let x y;",
        rooms: (99, 99),
        left: "rejected 19+1 | expected `=`, found identifier",
    },
    Row {
        word: Word::Tidy,
        text: b"package a:b; /* \x01",
        rooms: (99, 99),
        left: "rejected 16+1 | disallowed control code '\\u{1}'",
    },
    Row {
        word: FMT,
        text: b"a\xC3",
        rooms: (20, 20),
        left: "not utf-8 | input is not UTF-8",
    },
    Row {
        word: Word::Tidy,
        text: b"\xFF",
        rooms: (20, 5),
        left: "not utf-8 | input of 18",
    },
    Row {
        word: Word::Wac(Command::Tokens),
        text: b"\xFF",
        rooms: (20, 0),
        left: "not utf-8 |  of 18",
    },
    Row {
        word: Word::Wac(Command::Packages),
        text: b"",
        rooms: (20, 99),
        left: "rejected 0+1 | expected `package` keyword, found end of input",
    },
];

/// First errors are lines of JSON.
static ERRORS: [Row; 5] = [
    // A document that breaks no rule, and one that mentions a foreign package.
    Row {
        word: Word::Errors,
        text: b"package a:b; import y: func();",
        rooms: (99, 9),
        left: "well",
    },
    Row {
        word: Word::Errors,
        text: b"package a:b; let x = new c:d { ... };",
        rooms: (99, 9),
        left: "well",
    },
    Row {
        word: Word::Errors,
        text: b"package a:b;\nexport x;",
        rooms: (999, 9),
        left: "well | {\"file\":\"<text>\",\"offset\":20,\"length\":1,\"line\":2,\"column\":8,\"end\":{\"line\":2,\"column\":9},\"severity\":\"error\",\"code\":\"wac::undefined-name\",\"message\":\"undefined name `x`\",\"help\":null,\"notes\":[]}\n",
    },
    Row {
        word: Word::Errors,
        text: b"\xFF",
        rooms: (999, 9),
        left: "well | {\"file\":\"<text>\",\"offset\":0,\"length\":1,\"line\":1,\"column\":1,\"end\":{\"line\":1,\"column\":2},\"severity\":\"error\",\"code\":\"wac::not-utf-8\",\"message\":\"not UTF-8, the first bad byte is at offset 0\",\"help\":\"save the file as UTF-8\",\"notes\":[]}\n",
    },
    Row {
        word: Word::Errors,
        text: b"package a:b;\nexport x;",
        rooms: (7, 9),
        left: "well | {\"file\" of 191",
    },
];

/// What a call leaves.
fn left(alloc: Global, row: &Row) -> Result<String, AllocError> {
    let (size, message_size) = row.rooms;
    let mut out = room(alloc, size)?;
    let mut message = room(alloc, message_size)?;
    let task = Task {
        word: row.word,
        limit: DEFAULT_LIMIT,
    };
    let answer = call(
        alloc,
        task,
        row.text,
        out.as_mut_slice(),
        message.as_mut_slice(),
    );
    line(alloc, answer, out.as_slice(), message.as_slice())
}

/// What calls leave that is not what their rows say.
fn differences(alloc: Global, rows: &[Row]) -> Result<String, AllocError> {
    let mut all = String::new(alloc);
    for row in rows {
        let found = left(alloc, row)?;
        push_difference(&mut all, found.as_str(), row.left)?;
    }
    Ok(all)
}

#[test]
fn words_leave_what_fits(rt: HostRuntime) -> Result<(), Fail> {
    for rows in [WRITTEN.as_slice(), REJECTED.as_slice(), ERRORS.as_slice()] {
        let found = differences(rt.alloc(), rows)?;
        assert!(rt; found.is_empty(), "{found}");
    }
    Ok(())
}
