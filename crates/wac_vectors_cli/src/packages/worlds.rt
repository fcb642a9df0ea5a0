//! What the last of some texts declares.

use crate::packages::rows::Row;

pub(crate) static WORLDS: [Row; 7] = [
    (
        &[
            "package a:b@1.0.0; interface i { f: func(); } world w { import log: func(); export i; }",
        ],
        &[],
        "defines i:interface w:world; imports log:function; exports a:b/i@1.0.0:instance",
    ),
    (
        &["package a:b; interface i { }"],
        &[],
        "defines i:interface; imports; exports",
    ),
    (
        &["package a:b; world v { export f: func(); } world w { export g: func(); }"],
        &[],
        "defines v:world w:world; imports; exports",
    ),
    (
        &["package a:b; world v { export f: func(); } world w { export g: func(); }"],
        &[("a:b", "w")],
        "defines v:world w:world; imports; exports g:function",
    ),
    (
        &["package a:b@1.0.0; world v { export f: func(); } world w { export g: func(); }"],
        &[("a:b", "w"), ("a:b@1.0.0", "v")],
        "defines v:world w:world; imports; exports f:function",
    ),
    // A world that is chosen for another version isn't chosen.
    (
        &["package a:b@1.0.0; world v { export f: func(); } world w { export g: func(); }"],
        &[("a:b", "w"), ("a:b@2.0.0", "v")],
        "defines v:world w:world; imports; exports",
    ),
    // The only world may be chosen too.
    (
        &["package a:b; interface i { } world w { import x: func(); }"],
        &[("a:b", "w")],
        "defines i:interface w:world; imports x:function; exports",
    ),
];

pub(crate) static MENTIONS: [Row; 6] = [
    (
        &[
            "package a:b; interface i { type t = u8; resource r; }",
            "package c:d; world w { use a:b/i.{t, r}; export f: func(x: borrow<r>) -> t; }",
        ],
        &[],
        "defines w:world; imports t:value type r:resource; exports f:function",
    ),
    (
        &[
            "package a:b@1.0.0; interface i { f: func(); }",
            "package a:b@2.0.0; interface i { f: func() -> u8; }",
            "package c:d; world w { import a:b/i@1.0.0; export a:b/i@2.0.0; }",
        ],
        &[],
        "defines w:world; imports a:b/i@1.0.0:instance; exports a:b/i@2.0.0:instance",
    ),
    // Nothing is added: `j` uses a type of `i`, and `i` isn't imported.
    (
        &[
            "package a:b; interface i { type t = u8; } interface j { use i.{t}; f: func() -> t; } world w { import j; }",
        ],
        &[],
        "defines i:interface j:interface w:world; imports a:b/j:instance; exports",
    ),
    // A path of the document's own name is local, whatever its version.
    (
        &["package a:b@1.0.0; interface i { } world w { export a:b/i@2.0.0; }"],
        &[],
        "defines i:interface w:world; imports; exports a:b/i@1.0.0:instance",
    ),
    // What a world includes comes after its other items.
    (
        &[
            "package a:b; world v { import x: func(); export y: func(); }",
            "package c:d; world w { include a:b/v; export z: func(); }",
        ],
        &[],
        "defines w:world; imports x:function; exports z:function y:function",
    ),
    (
        &["package a:b; record point { x: s32, y: s32 } enum side { left, right }"],
        &[],
        "defines point:value type side:value type; imports; exports",
    ),
];
