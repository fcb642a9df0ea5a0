//! Names of imports and exports.

use std::process::Abort;
use std::test::Fail;
use wac_component_rules::{ComponentRules, NO_NAME};
use wac_graph_types::Rules;

/// A name, and whether an import or export may have it.
type Row = (&'static str, bool);

static WORDS: &[Row] = &[
    ("a", true),
    ("a1", true),
    ("get-url", true),
    ("HTTP2", true),
    ("GET-url-A", true),
    ("a0-b1-c2", true),
    ("", false),
    ("-", false),
    ("a-", false),
    ("-a", false),
    ("a--b", false),
    ("getUrl", false),
    ("Url", false),
    ("uRL", false),
    ("a-bC", false),
    ("1a", false),
    ("a-1", false),
    ("a_b", false),
    ("a b", false),
    ("\u{e9}", false),
    ("%a", false),
];

static INTERFACES: &[Row] = &[
    ("wasi:http/types", true),
    ("wasi-p2:http/types", true),
    ("a:B/C-d", true),
    ("a:b/c@1.2.3", true),
    ("A:b/c", false),
    ("a-B:c/d", false),
    ("wasi-2:http/types", false),
    (":b/c", false),
    ("a:/c", false),
    ("a:b/", false),
    ("a:b", false),
    ("a/b", false),
    ("a:b:c/d", false),
    ("a:b/c/d", false),
    ("a:b/c:d", false),
    ("a:bC/d", false),
    ("a:b@1.2.3/c", false),
    ("a@1.2.3", false),
    ("a:b/c@", false),
    ("a:b/c@@1.2.3", false),
    ("a:b/c@1.2.3@1.2.3", false),
];

static FUNCTIONS: &[Row] = &[
    ("[constructor]file", true),
    ("[method]file.read-all", true),
    ("[static]FILE.open", true),
    ("[constructor]", false),
    ("[constructor]file.new", false),
    ("[method]file", false),
    ("[method]file.", false),
    ("[method].read", false),
    ("[method]a.b.c", false),
    ("[method]file.readAll", false),
    ("[static]a:b/c", false),
    ("[other]file.read", false),
    ("[]file", false),
    ("method]file.read", false),
    ("[method]]file.read", false),
    ("[[method]file.read", false),
    (" [method]file.read", false),
    ("file.read", false),
];

fn hold(rt: &impl Abort, rules: ComponentRules, rows: &[Row]) {
    for (name, expected) in rows {
        let found = rules.extern_name(name);
        let wanted = if *expected { Ok(()) } else { Err(NO_NAME) };
        assert!(rt; found == wanted, "of {name}");
    }
}

#[test]
fn names_have_a_syntax(rt: HostRuntime) -> Result<(), Fail> {
    let rules = ComponentRules::new(rt.alloc());
    hold(&rt, rules, WORDS);
    hold(&rt, rules, INTERFACES);
    hold(&rt, rules, FUNCTIONS);
    Ok(())
}
