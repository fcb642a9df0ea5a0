//! What the examples return for the texts that the documents show, and for others, where a request for memory fails too:
//! most are then asked once more.

use std::alloc::{AllocError, Global};
use std::test::Fail;
use wac_examples::{
    error_with_cache, first_error, formatted, imported_packages, is_formatted, list_tokens,
    missing_beside_cache, position,
};
use wac_parser::{Error, ParseResult};

const SOURCE: &str = r#"/* Built every night. */
/** Puts a cache in front of a service. */
package example:gateway@1.2.0 targets example:edge/proxy;
import log: func(line: string);
let cache = new example:cache { log, ... }; // holds 100 entries
export cache["example:cache/metrics@0.2.0"] as "metrics";
"#;

const FORMATTED: &str = r#"/// Puts a cache in front of a service.
package example:gateway@1.2.0 targets example:edge/proxy;

import log: func(line: string);

let cache = new example:cache {
    log,
    ...
};

export cache["example:cache/metrics@0.2.0"] as "metrics";
"#;

const FAULTY: &str = r#"package example:gateway;
let cache = new example:cache { log ... };
"#;

/// What is asked of a text.
enum Call {
    /// A line for each package that a document mentions, but for the cache: each place where a package can be mentioned,
    /// and places that don't count.
    Missing,
    /// A line for each token, after a line for each of its docs.
    Tokens,
    /// Where it is no document, and why.
    Error,
    /// Where the cache can't be composed so, and why.
    ErrorWithCache,
    /// The document, with two blanks for each depth.
    Formatted,
}

/// What is asked of a text, the text, and what is answered.
static CALLS: [(Call, &str, &str); 24] = [
    (
        Call::Missing,
        "package a:b targets c:d/e@1.0.0; import x: f:g/h; let y = new c:d@1.0.0 { ... }; let z = new example:cache { ... };",
        "c:d@1.0.0 at 20+3\nf:g at 43+3\n",
    ),
    (
        Call::Missing,
        "package a:b targets c:d/e@1.0.0; let x = new c:d@1.0.0 { y: new f:g {} };",
        "c:d@1.0.0 at 20+3\nf:g at 64+3\n",
    ),
    (
        Call::Missing,
        "package a:b targets c:d/e@1.0.0; import x: f:g/h; let y = new c:d@1.0.0 { ... };",
        "c:d@1.0.0 at 20+3\nf:g at 43+3\n",
    ),
    (Call::Missing, "package a:b; let x = new a:b {};", ""),
    (Call::Missing, "package a:b;", ""),
    // The document's own package is its own in any version, and `%` is a part of a name.
    (
        Call::Missing,
        "package a:b@1.0.0; import x: a:b/i@2.0.0; let y = new a:b@3.0.0 {}; export y;",
        "",
    ),
    (
        Call::Missing,
        "package a:b; import x: %a:b/i;",
        "%a:b at 23+4\n",
    ),
    // With a version and without one they are two packages.
    (
        Call::Missing,
        "package a:b; let x = new c:d {}; let y = new c:d@1.0.0 {}; let z = new c:d {};",
        "c:d at 25+3\nc:d@1.0.0 at 45+9\n",
    ),
    (
        Call::Missing,
        "package a:b; interface i { use c:d/e.{t}; }",
        "c:d at 31+3\n",
    ),
    (
        Call::Missing,
        "package a:b; world w { include c:d/e; use f:g/h.{t}; import i:j/k; export l:m/n@0.2.0; }",
        "c:d at 31+3\nf:g at 42+3\ni:j at 60+3\nl:m@0.2.0 at 74+3\n",
    ),
    (
        Call::Missing,
        "package a:b; world w { import i: interface { use c:d/e.{t}; }; }",
        "c:d at 49+3\n",
    ),
    (
        Call::Missing,
        "package a:b; world w { export i: interface { use c:d/e.{t}; }; }",
        "c:d at 49+3\n",
    ),
    (
        Call::Missing,
        "package a:b; import i: interface { use c:d/e@0.1.0.{t}; };",
        "c:d@0.1.0 at 39+3\n",
    ),
    (
        Call::Missing,
        "package a:b; let x = new c:d { y: (new e:f { z: new g:h {} }).k, ... };",
        "c:d at 25+3\ne:f at 39+3\ng:h at 52+3\n",
    ),
    (
        Call::Missing,
        "package a:b; export new c:d { ... } as \"x\";",
        "c:d at 24+3\n",
    ),
    (
        Call::Tokens,
        "/// A name.\npackage a:b",
        "0+11 doc: A name.\n12+7 `package` keyword: package\n20+3 package name: a:b\n",
    ),
    (Call::Tokens, "....", "0+3 `...`: ...\n3+1 `.`: .\n"),
    (
        Call::Tokens,
        "/* /* unterminated */",
        "0+21 an unterminated comment was encountered\n",
    ),
    (Call::Error, SOURCE, ""),
    (Call::Error, FAULTY, "61+3: expected `,`, found `...`"),
    (
        Call::ErrorWithCache,
        "package example:app;\nimport log: func();\nlet cache = new example:cache { log };\nexport cache.get;\n",
        "",
    ),
    (
        Call::ErrorWithCache,
        FAULTY,
        "61+3: expected `,`, found `...`",
    ),
    (
        Call::ErrorWithCache,
        "package example:app;\nimport log: func(line: string);\nlet cache = new example:cache { log };\nexport cache.get;\n",
        "85+3: mismatched instantiation argument `log`",
    ),
    (
        Call::Formatted,
        "package a:b; let x = new c:d { ..., y };",
        "package a:b;\n\nlet x = new c:d {\n  ...,\n  y,\n};\n",
    ),
];

/// Where a text is no document, and why. Nothing where it is one.
fn told(alloc: Global, source: &str) -> Result<String, AllocError> {
    match first_error(alloc, source)? {
        Some((span, words)) => format!(in alloc; "{}+{}: {words}", span.offset(), span.len()),
        None => Ok(String::new(alloc)),
    }
}

/// Where the cache can't be composed as a text says, and why. Nothing where it can.
fn told_with_cache(alloc: Global, source: &str) -> Result<String, AllocError> {
    match error_with_cache(alloc, source)? {
        Some((Some(span), words)) => format!(in alloc; "{}+{}: {words}", span.offset(), span.len()),
        Some((None, words)) => Ok(words),
        None => Ok(String::new(alloc)),
    }
}

/// A text, or what is said of one that is no document.
fn text_of(alloc: Global, made: ParseResult<String>) -> Result<String, AllocError> {
    match made {
        Ok(text) => Ok(text),
        Err(Error::Memory(_)) => Err(AllocError),
        Err(error) => error.to_string(alloc),
    }
}

/// What a call returns for a text.
fn answer(alloc: Global, call: &Call, source: &str) -> Result<String, AllocError> {
    match call {
        Call::Missing => text_of(alloc, missing_beside_cache(alloc, source)),
        Call::Tokens => list_tokens(alloc, source),
        Call::Error => told(alloc, source),
        Call::ErrorWithCache => told_with_cache(alloc, source),
        Call::Formatted => text_of(alloc, formatted(alloc, source)),
    }
}

/// The number of the first row of whose text something else is answered.
fn first_other(alloc: Global) -> Result<Option<usize>, AllocError> {
    for (at, (call, source, wanted)) in CALLS.iter().enumerate() {
        let text = answer(alloc, call, source)?;
        if text.as_str() != *wanted {
            return Ok(Some(at));
        }
    }
    Ok(None)
}

#[test]
fn calls_answer_as_rows_say(rt: HostRuntime) -> Result<(), Fail> {
    let wrong = match first_other(rt.alloc()) {
        Ok(wrong) => wrong,
        Err(AllocError) => first_other(rt.alloc())?,
    };
    assert!(rt; wrong.is_none(), "row {wrong:?}");
    Ok(())
}

/// Whether a text is formatted just where it should be.
fn is_known(alloc: Global, source: &str, wanted: bool) -> bool {
    match is_formatted(alloc, source) {
        Ok(found) => found == wanted,
        Err(_) => false,
    }
}

/// Whether the imports of a document name these packages.
fn are_imported(alloc: Global, source: &str, wanted: &[&str]) -> bool {
    match imported_packages(alloc, source) {
        Ok(names) => names.as_slice() == wanted,
        Err(_) => false,
    }
}

#[test]
fn documents_are_known(rt: HostRuntime) {
    assert!(rt; is_known(rt.alloc(), SOURCE, false));
    assert!(rt; is_known(rt.alloc(), FORMATTED, true));
    let source = "package a:b; import c: d:e/f@1.0.0; import g: func(); import h: i:j/k;";
    assert!(rt; are_imported(rt.alloc(), source, ["d:e", "i:j"].as_slice()));
}

/// Texts, an offset in each, and its line and column.
static POSITIONS: [(&str, usize, (usize, usize)); 6] = [
    ("", 0, (0, 0)),
    ("a\nb", 1, (0, 1)),
    ("a\nb", 2, (1, 0)),
    ("a\n\nbc", 4, (2, 1)),
    ("a\nb", 9, (1, 1)),
    (FAULTY, 61, (1, 36)),
];

#[test]
fn offsets_have_lines_and_columns(rt: HostRuntime) {
    for (source, offset, wanted) in &POSITIONS {
        assert!(rt; position(source, *offset) == *wanted, "of {source}");
    }
}
