//! How many scans a lexer has made: each item is scanned once.

use std::alloc::Global;
use std::process::Abort;
use wac_lexer::Lexer;

/// A document with each kind of statement, and docs before each.
const DOCUMENT: &str = r#"/* ignore me */
/// Doc comment for the package!
package test:foo:bar@1.0.0;
/// Doc comment #1!
import foo: foo:bar/baz;
/// Doc comment #2!
type a = u32;
/// Doc comment #3!
record r {
    x: string
}
/// Doc comment #4!
interface i {
    /// Doc comment #5!
    f: func() -> r;
}
/// Doc comment #6!
world w {
    /// Doc comment #7!
    import i;
    /// Doc comment #8!
    export f: func() -> a;
}
/// Doc comment #9!
let x = new foo:bar { };
/// Doc comment #10!
export x as "foo";
"#;

/// How many items the document has.
const ITEMS: usize = 61;

/// Short sources, and how many items each has: none, tokens, faults, and a fault that takes all that is left.
static SHORT: [(&str, usize); 6] = [
    ("", 0),
    (" // blank\n", 0),
    ("a", 1),
    ("a;", 2),
    ("é a #", 3),
    ("a b c /* d", 4),
];

/// Whether there were so many scans, of a clone too.
fn has_scans(lexer: &Lexer, scans: usize) -> bool {
    let of_clone = match lexer.clone() {
        Ok(copy) => copy.scans(),
        Err(_) => scans,
    };
    lexer.scans() == scans && of_clone == scans
}

/// Whether there were so many scans, and peeking, reading docs and cloning are none.
fn has_scanned(alloc: Global, lexer: &Lexer, scans: usize) -> bool {
    let before = has_scans(lexer, scans);
    lexer.peek();
    lexer.peek2();
    let _ = lexer.comments(alloc).is_ok();
    before && has_scans(lexer, scans)
}

/// Whether a lexer of so many items is at their end, where each was scanned once, and the end once.
fn ends(alloc: Global, lexer: &mut Lexer, items: usize) -> bool {
    lexer.next() == None && has_scanned(alloc, lexer, items.saturating_add(1))
}

/// Whether each item of a source of so many is scanned once: two ahead, and the end once.
fn is_scanned_once(alloc: Global, source: &str, items: usize) -> bool {
    let Ok(mut lexer) = Lexer::new(source) else {
        return false;
    };
    if !has_scanned(alloc, &lexer, items.saturating_add(1).min(2)) {
        return false;
    }
    for answered in 0..items {
        let scans = answered.saturating_add(3).min(items.saturating_add(1));
        if lexer.next().is_none() || !has_scanned(alloc, &lexer, scans) {
            return false;
        }
    }
    ends(alloc, &mut lexer, items) && ends(alloc, &mut lexer, items)
}

/// Asserts it of each source.
fn are_scanned_once(rt: &impl Abort, alloc: Global, rows: &[(&str, usize)]) {
    for (source, items) in rows {
        assert!(rt; is_scanned_once(alloc, source, *items), "of {source}");
    }
}

#[test]
fn each_item_is_scanned_once(rt: HostRuntime) {
    assert!(rt; is_scanned_once(rt.alloc(), DOCUMENT, ITEMS), "a document");
    are_scanned_once(&rt, rt.alloc(), &SHORT);
}
