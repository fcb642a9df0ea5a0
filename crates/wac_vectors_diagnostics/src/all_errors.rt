//! Which errors a text has, and where.

use std::alloc::{AllocError, Global};
use std::process::Abort;
use std::test::Fail;
use wac_all_errors::{Finding, all_errors};
use wac_diagnostics::Diagnostic;

/// A text, whether it is to be resolved, how many errors are asked for, and its errors: a line `OFFSET+LEN CODE` for
/// each.
type Row = (&'static [u8], bool, usize, &'static str);

static ROWS: [Row; 21] = [
    (b"package a:b;\nlet x = new c:d {};\n", true, 100, ""),
    (
        b"package a:b;\nimport f: func();\nlet x = f;\n",
        true,
        100,
        "",
    ),
    (
        b"package a:b;\n// \xff\nlet = y;\n",
        true,
        100,
        "16+1 wac::not-utf-8\n",
    ),
    (
        b"\xef\xbb\xbfpackage a:b;\nlet = y;\n",
        true,
        100,
        "0+3 wac::byte-order-mark\n",
    ),
    (
        b"package a:b;\nlet x = y;\n",
        true,
        100,
        "21+1 wac::undefined-name\n",
    ),
    // What is left is resolved.
    (
        b"package a:b;\nlet = y;\nlet x = z;\n",
        true,
        100,
        "17+1 wac::expected\n30+1 wac::undefined-name\n",
    ),
    (
        b"package a:b;\nlet x = z;\nlet = y;\n",
        true,
        100,
        "28+1 wac::expected\n21+1 wac::undefined-name\n",
    ),
    // A blanked statement declares the name, under a keyword that isn't one too.
    (
        b"package a:b;\nlte x = y;\nlet z = x;\n",
        true,
        100,
        "13+3 wac::expected-multiple\n",
    ),
    (
        b"package a:b;\nimport x f: func();\nlet z = x;\n",
        true,
        100,
        "22+1 wac::expected\n",
    ),
    (
        b"package a:b;\ninterface i {\n  f: fnc();\n}\nimport j: i;\n",
        true,
        100,
        "35+1 wac::expected\n",
    ),
    // In a text with a rejected character no name is told as unknown.
    (
        b"package a:b; // \x0c\nlet x = y;\n",
        true,
        100,
        "16+1 wac::disallowed-control-code\n",
    ),
    // It uses the name alone, so that what follows uses it too.
    (
        b"package a:b;\nexport x y;\nlet z = x;\n",
        true,
        100,
        "22+1 wac::expected\n33+1 wac::undefined-name\n",
    ),
    // An export that is blanked isn't missing.
    (
        b"package a:b targets a:b/w;\nworld w { export f: func(); }\nexport f as;\n",
        true,
        100,
        "68+1 wac::expected-either\n",
    ),
    // A directive that isn't the source's moves no place.
    (
        b"import f: func();\nlet x = y;\nlet z = f;\n",
        true,
        100,
        "0+6 wac::expected\n26+1 wac::undefined-name\n",
    ),
    // Only the `;` is blanked, and the record is known.
    (
        b"package a:b;\nrecord r { a: u8 };\nimport f: func(x: r);\nlet x = y;\n",
        true,
        100,
        "31+1 wac::expected-multiple\n63+1 wac::undefined-name\n",
    ),
    // Where there is nothing to blank, the fault is told once.
    (b"", true, 100, "0+1 wac::expected\n"),
    (b"// c\n", true, 100, "4+1 wac::expected\n"),
    (
        b"package a:b;\nlet = 1;\nlet = 2;\nlet = 3;\n",
        true,
        100,
        "17+1 wac::expected\n26+1 wac::expected\n35+1 wac::expected\n",
    ),
    // Texts that aren't resolved, or of which few errors are asked for.
    (
        b"package a:b;\nlet = y;\nlet x = z;\n",
        false,
        100,
        "17+1 wac::expected\n",
    ),
    (
        b"package a:b;\nlet = 1;\nlet = 2;\nlet x = z;\n",
        true,
        2,
        "17+1 wac::expected\n26+1 wac::expected\n",
    ),
    (
        b"package a:b;\nlet = 1;\nlet = 2;\nlet x = z;\n",
        true,
        0,
        "",
    ),
];

/// The line of an error.
fn push_line(told: &mut String, alloc: Global, diagnostic: &Diagnostic) -> Result<(), AllocError> {
    let code = diagnostic.code;
    let line = match diagnostic.span {
        Some(span) => {
            let offset = span.offset();
            let len = span.len();
            format!(in alloc; "{offset}+{len} {code}\n")?
        }
        None => format!(in alloc; "{code}\n")?,
    };
    told.push_str(line.as_str())
}

/// The lines of errors.
fn lines(alloc: Global, found: &[Finding]) -> Result<String, AllocError> {
    let mut told = String::new(alloc);
    for finding in found {
        push_line(&mut told, alloc, &finding.diagnostic)?;
    }
    Ok(told)
}

/// The errors of a text, a line each.
fn told(alloc: Global, text: &[u8], resolve: bool, limit: usize) -> Result<String, AllocError> {
    match all_errors(alloc, text, resolve, limit) {
        Ok(found) => lines(alloc, found.as_slice()),
        Err(error) => Err(error),
    }
}

/// What is told of the first text that has other errors than its row says.
fn first_other(alloc: Global) -> Result<Option<String>, AllocError> {
    for (text, resolve, limit, wanted) in &ROWS {
        let found = told(alloc, text, *resolve, *limit)?;
        if found.as_str() != *wanted {
            return Ok(Some(found));
        }
    }
    Ok(None)
}

#[test]
fn texts_have_these_errors(rt: HostRuntime) -> Result<(), Fail> {
    if let Some(found) = first_other(rt.alloc())? {
        panic!(rt; "{found}");
    }
    Ok(())
}
