//! Which texts declare packages.

use std::test::Fail;
use wac_lsp_workspace::is_declaration;

/// Texts, and whether they declare a package.
static TEXTS: [(&str, bool); 18] = [
    ("package a:b;", true),
    ("/// Docs.\npackage a:b@1.0.0;\n// behind", true),
    ("package a:b; interface i { f: func(); }", true),
    (
        "package a:b; world w { import f: func(); export g: func(); use i.{t}; }",
        true,
    ),
    ("package a:b; type t = u8; enum e { a, b }", true),
    ("package a:b; interface %let { }", true),
    // Such texts are no documents, but are going to be.
    ("package a:b; interface i {", true),
    ("package a:b; interface i { } }", true),
    ("package", true),
    ("package a:b; interface i { # }", true),
    // Compositions.
    ("package a:b targets c:d/e;", false),
    ("package a:b; import f: func();", false),
    ("package a:b; let x = new c:d { };", false),
    ("package a:b; interface i { } export x;", false),
    ("package a:b; world w { } import", false),
    ("package a:b; interface let { }", false),
    // Nothing of both.
    ("", false),
    ("interface i { }", false),
];

#[test]
fn texts_of_type_statements_declare_packages(rt: HostRuntime) -> Result<(), Fail> {
    for (text, wanted) in TEXTS.as_slice() {
        let found = is_declaration(text);
        assert!(rt; found == *wanted, "{text}: {found}");
    }
    Ok(())
}
