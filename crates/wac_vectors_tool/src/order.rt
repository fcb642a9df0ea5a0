//! In which order a graph has its packages: each is copied into the graph when it is first used, and the target is met last.

use crate::documents::{Row, With, hold};
use crate::readings::Asked;
use std::test::Fail;

/// Documents, and the keys of the packages of their graphs.
static KEYS: &[Row] = &[
    (With::Packages, "package a:b;", ""),
    (
        With::Packages,
        "package a:b; let i = new c:d { ... };",
        "c:d\n",
    ),
    (
        With::Packages,
        "package a:b; let i = new c:d { ... }; let j = new c:d@1.0.0 { ... };",
        "c:d\nc:d@1.0.0\n",
    ),
    (
        With::Packages,
        "package a:b; let i = new c:d@1.0.0 { ... }; let j = new c:d { ... };",
        "c:d@1.0.0\nc:d\n",
    ),
    (
        With::Packages,
        "package a:b; import x: c:d/z@1.0.0; let i = new c:d { ... }; let j = new c:d@1.0.0 { ... };",
        "c:d@1.0.0\nc:d\n",
    ),
    (
        With::Packages,
        "package a:b; world w { include c:d/w@1.0.0; } import x: c:d/z;",
        "c:d@1.0.0\nc:d\n",
    ),
    (
        With::Packages,
        "package a:b; let i = new c:d { log: new c:d@1.0.0 { ... }.run, ... };",
        "c:d\nc:d@1.0.0\n",
    ),
    (
        With::Packages,
        "package a:b targets c:d/w; let i = new c:d@1.0.0 { ... }; export i.run;",
        "c:d@1.0.0\nc:d\n",
    ),
];

#[test]
fn packages_come_in_the_order_of_their_first_use(rt: HostRuntime) -> Result<(), Fail> {
    Ok(hold(&rt, rt.alloc(), Asked::Packages, KEYS)?)
}
