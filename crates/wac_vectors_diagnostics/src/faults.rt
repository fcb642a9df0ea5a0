//! Texts with several faults: each fault by hand, with its place in bytes; and what is left of texts.

use std::alloc::{AllocError, Global};
use std::process::Abort;
use std::test::Fail;
use wac_recovery::{Fault, fault_at, recover};

/// What is asked about a text.
#[derive(Clone, Copy)]
enum Asked {
    /// So many faults of it at most, a line `OFFSET+LEN MESSAGE` for each.
    Faults(usize),
    /// The fault that the statement at a place has there. Nothing where it has none.
    Alone(usize),
    /// What is left of it, after the number of bytes of that it doesn't have.
    Left,
}

/// A text, what is asked about it, and the answer.
type Row = (&'static str, Asked, &'static str);

static ROWS: [Row; 48] = [
    // Texts with none or few faults, and limits.
    ("package a:b;", Asked::Faults(9), ""),
    ("package a:b;\nlet x = y;\n// ;\n", Asked::Faults(9), ""),
    (
        "",
        Asked::Faults(9),
        "0+1 expected `package` keyword, found end of input",
    ),
    (
        "// nothing\n",
        Asked::Faults(9),
        "10+1 expected `package` keyword, found end of input",
    ),
    ("package a:b;\nlet = x;\nlet = y;\n", Asked::Faults(0), ""),
    (
        "package a:b;\nlet = x;\nlet = y;\n",
        Asked::Faults(1),
        "17+1 expected identifier, found `=`",
    ),
    (
        "package a:b;\nlet = x;\nlet = y;\n",
        Asked::Faults(2),
        "17+1 expected identifier, found `=`\n26+1 expected identifier, found `=`",
    ),
    // Faults of statements that `;` ends, and of the last one.
    (
        "package a:b;\nlet = x;\nlet y = ;\nexport y;\n",
        Asked::Faults(9),
        "17+1 expected identifier, found `=`\n30+1 expected either `new` keyword, `(`, or identifier, found `;`",
    ),
    (
        "package a:b;\nlet = x;\nlet y = ;\nimport i: ;\n",
        Asked::Faults(9),
        "17+1 expected identifier, found `=`\n30+1 expected either `new` keyword, `(`, or identifier, found `;`\n42+1 expected either `async` keyword, `func` keyword, `interface` keyword, package path, or identifier, found `;`",
    ),
    (
        "package a:b;\nlet x = y\nlet z = ;\nlet = w;\n",
        Asked::Faults(9),
        "23+3 expected `;`, found `let` keyword\n37+1 expected identifier, found `=`",
    ),
    (
        "package a:b;\nimport f: func(a: u8;\nlet = x;\n",
        Asked::Faults(9),
        "33+1 expected `,`, found `;`\n39+1 expected identifier, found `=`",
    ),
    (
        "package a:b;\nlet x = y",
        Asked::Faults(9),
        "21+1 expected `;`, found end of input",
    ),
    (
        "package a:b;\nlet = x;\nlet x = y\n",
        Asked::Faults(9),
        "17+1 expected identifier, found `=`\n31+1 expected `;`, found end of input",
    ),
    (
        "package a:b;\nlte x = new c:d { };\nlet = x;\n",
        Asked::Faults(9),
        "13+3 expected either `import` keyword, `let` keyword, `export` keyword, `interface` keyword, `world` keyword, `variant` keyword, `record` keyword, `flags` keyword, `enum` keyword, or `type` keyword, found identifier\n38+1 expected identifier, found `=`",
    ),
    // Directives that are faulty, cut or missing.
    (
        "package a;\nlet = x;\nimport i: ;\n",
        Asked::Faults(9),
        "8+1 expected package name, found identifier\n15+1 expected identifier, found `=`\n30+1 expected either `async` keyword, `func` keyword, `interface` keyword, package path, or identifier, found `;`",
    ),
    (
        "let x = y;\nlet = z;\n",
        Asked::Faults(9),
        "0+3 expected `package` keyword, found `let` keyword\n15+1 expected identifier, found `=`",
    ),
    (
        "// c\npakage a:b;\nexport;\n",
        Asked::Faults(9),
        "5+6 expected `package` keyword, found identifier\n23+1 expected either `new` keyword, `(`, or identifier, found `;`",
    ),
    (
        "package a:b@1.0;\nlet = x;\n",
        Asked::Faults(9),
        "12+3 `1.0` is not a valid semantic version\n21+1 expected identifier, found `=`",
    ),
    (
        "package a:b\nlet x = y;\nlet = z;\n",
        Asked::Faults(9),
        "12+3 expected `;`, found `let` keyword\n27+1 expected identifier, found `=`",
    ),
    (
        "package a:b",
        Asked::Faults(9),
        "10+1 expected `;`, found end of input",
    ),
    // Declarations and braces.
    (
        "package a:b;\ninterface i {\n  f: func();\nlet x = y;\n",
        Asked::Faults(9),
        "40+3 expected either `}`, `use` keyword, identifier, `resource` keyword, `variant` keyword, `record` keyword, `flags` keyword, `enum` keyword, or `type` keyword, found `let` keyword",
    ),
    (
        "package a:b;\nrecord r { a: u8 }\n}\nlet = x;\n",
        Asked::Faults(9),
        "32+1 expected either `import` keyword, `let` keyword, `export` keyword, `interface` keyword, `world` keyword, `variant` keyword, `record` keyword, `flags` keyword, `enum` keyword, or `type` keyword, found `}`\n38+1 expected identifier, found `=`",
    ),
    (
        "package a:b;\nrecord r { a u8 }\nenum e {}\nlet = x;\n",
        Asked::Faults(9),
        "26+2 expected `:`, found `u8` keyword\n39+1 enum must contain at least one case\n45+1 expected identifier, found `=`",
    ),
    (
        "package a:b;\nworld w {\n  import i: interface { f: func() };\n  import j: u8;\n}\nlet = x;\n",
        Asked::Faults(9),
        "57+1 expected `;`, found `}`\n82+1 expected identifier, found `=`",
    ),
    (
        "package a:b;\nrecrod r { a: u8 }\nlet = x;\n",
        Asked::Faults(9),
        "13+6 expected either `import` keyword, `let` keyword, `export` keyword, `interface` keyword, `world` keyword, `variant` keyword, `record` keyword, `flags` keyword, `enum` keyword, or `type` keyword, found identifier\n36+1 expected identifier, found `=`",
    ),
    (
        "package a:b;\nrecord r { a: u8 };\nlet = x;\n",
        Asked::Faults(9),
        "31+1 expected either `import` keyword, `let` keyword, `export` keyword, `interface` keyword, `world` keyword, `variant` keyword, `record` keyword, `flags` keyword, `enum` keyword, or `type` keyword, found `;`\n37+1 expected identifier, found `=`",
    ),
    // Faults in strings and comments, and characters that no text may have.
    (
        "package a:b;\nlet x = y[\"abc];\nlet = z;\n",
        Asked::Faults(9),
        "23+1 an unterminated string was encountered\n34+1 expected identifier, found `=`",
    ),
    (
        "package a:b; // \u{c}\nlet = z;\n",
        Asked::Faults(9),
        "16+1 disallowed control code '\\u{c}'\n22+1 expected identifier, found `=`",
    ),
    (
        "package a:b;\nlet x = y[\"\u{149}\"];\nlet = z;\n",
        Asked::Faults(9),
        "24+2 codepoint `\\u{149}` is discouraged by Unicode\n34+1 expected identifier, found `=`",
    ),
    (
        "package a:b;\nlet = x;\n/* let = y;",
        Asked::Faults(9),
        "17+1 expected identifier, found `=`\n22+11 an unterminated comment was encountered",
    ),
    (
        "package a:b;\nlet = \"{;\n}\";\n// {\nlet = x;\n",
        Asked::Faults(9),
        "17+1 expected identifier, found `=`\n36+1 expected identifier, found `=`",
    ),
    // Faults of statements, be there others before them or not.
    (
        "package a:b;\nlet = x;\nlet y = ;\n",
        Asked::Alone(17),
        "17+1 expected identifier, found `=`",
    ),
    (
        "package a:b;\nlet = x;\nlet y = ;\n",
        Asked::Alone(30),
        "30+1 expected either `new` keyword, `(`, or identifier, found `;`",
    ),
    (
        "package a:b;\nlet x = y",
        Asked::Alone(21),
        "21+1 expected `;`, found end of input",
    ),
    (
        "package a:b; // \u{c}\nlet = z;\n",
        Asked::Alone(16),
        "16+1 disallowed control code '\\u{c}'",
    ),
    // The statement there has its fault elsewhere, or none.
    ("package a:b;\nlet = x;\n", Asked::Alone(15), ""),
    ("package a:b;\nlet x = y;\n", Asked::Alone(17), ""),
    // The directive is no statement after another one.
    ("package a;\nlet = x;\n", Asked::Alone(8), ""),
    ("", Asked::Alone(0), ""),
    // What is left of texts, after how many bytes of that they don't have.
    ("package a:b;\n", Asked::Left, "0 package a:b;\n"),
    ("", Asked::Left, "0 "),
    (
        "package a:b;\r\n// c\r\nlet =\r\n  x; // d\nlet y = z;",
        Asked::Left,
        "0 package a:b;\r\n// c\r\n     \r\n     // d\nlet y = z;",
    ),
    (
        "package a:b;\nlet \"\u{e9}\n\u{20ac}\" = x;\nlet y = z;",
        Asked::Left,
        "0 package a:b;\n       \n         \nlet y = z;",
    ),
    (
        "package a;\nlet = x;\nlet y = z;",
        Asked::Left,
        "12 package a:b;          \n        \nlet y = z;",
    ),
    (
        "// c\nlet x = y;\nlet y = z;",
        Asked::Left,
        "12 package a:b;// c\n          \nlet y = z;",
    ),
    (
        "package a:b;\nrecord r { a: u8 };\nlet y = z;",
        Asked::Left,
        "0 package a:b;\nrecord r { a: u8 } \nlet y = z;",
    ),
    (
        "package a:b;\nlte x = new c:d { };\nlet y = z;",
        Asked::Left,
        "0 package a:b;\n                    \nlet y = z;",
    ),
    (
        "package a:b;\nrecrod r { a: u8 }\nlet y = z;",
        Asked::Left,
        "0 package a:b;\n                  \nlet y = z;",
    ),
];

/// A fault as a line, without its end.
fn line(alloc: Global, fault: &Fault) -> Result<String, AllocError> {
    let span = fault.span();
    let offset = span.offset();
    let len = span.len();
    match fault {
        Fault::Parse(error) => format!(in alloc; "{offset}+{len} {error}"),
        Fault::TooDeep(_) => format!(in alloc; "{offset}+{len} nested too deep"),
    }
}

/// Faults, a line each.
fn lines(alloc: Global, faults: &[Fault]) -> Result<String, AllocError> {
    let mut found = String::new(alloc);
    for fault in faults {
        if !found.is_empty() {
            found.push('\n')?;
        }
        let told = line(alloc, fault)?;
        found.push_str(told.as_str())?;
    }
    Ok(found)
}

/// The faults of a text, a line each.
fn faults_of(alloc: Global, text: &str, limit: usize) -> Result<String, AllocError> {
    match recover(alloc, text, limit) {
        Ok(recovery) => lines(alloc, recovery.faults.as_slice()),
        Err(error) => Err(error),
    }
}

/// The fault at a place of a text as a line: empty where there is none.
fn line_at(alloc: Global, text: &str, place: usize) -> Result<String, AllocError> {
    match fault_at(alloc, text, place) {
        Ok(Some(fault)) => line(alloc, &fault),
        Ok(None) => Ok(String::new(alloc)),
        Err(error) => Err(error),
    }
}

/// What is left of a text, after the number of bytes of that it doesn't have.
fn left_of(alloc: Global, text: &str) -> Result<String, AllocError> {
    match recover(alloc, text, 9) {
        Ok(recovery) => {
            let skip = recovery.skip;
            let left = recovery.text.as_str();
            format!(in alloc; "{skip} {left}")
        }
        Err(error) => Err(error),
    }
}

/// The answer about a text.
fn answer(alloc: Global, text: &str, asked: Asked) -> Result<String, AllocError> {
    match asked {
        Asked::Faults(limit) => faults_of(alloc, text, limit),
        Asked::Alone(place) => line_at(alloc, text, place),
        Asked::Left => left_of(alloc, text),
    }
}

/// The answer about the first text about which there is another one than its row says.
fn first_other(alloc: Global) -> Result<Option<String>, AllocError> {
    for (text, asked, expected) in &ROWS {
        let found = answer(alloc, text, *asked)?;
        if found.as_str() != *expected {
            return Ok(Some(found));
        }
    }
    Ok(None)
}

#[test]
fn faults_are_found(rt: HostRuntime) -> Result<(), Fail> {
    if let Some(found) = first_other(rt.alloc())? {
        panic!(rt; "{found}");
    }
    Ok(())
}

/// A statement with too many brackets open, and one with another fault.
#[test]
fn depth_is_a_fault(rt: HostRuntime) -> Result<(), Fail> {
    let brackets = "(".repeat(rt.alloc(), 1001)?;
    let text = format!(in rt.alloc(); "package a:b;\nlet x = {brackets};\nlet = y;\n")?;
    let found = faults_of(rt.alloc(), text.as_str(), 9)?;
    let expected = "1021+1 nested too deep\n1028+1 expected identifier, found `=`";
    assert!(rt; found.as_str() == expected, "{found}");
    Ok(())
}
