//! Interfaces and worlds.

use crate::completion::kinds::STATEMENT;
use crate::marked::Row;

/// Texts with a mark, and the kinds that can stand there.
pub(crate) static WORLDS: [Row; 50] = [
    // Interfaces.
    ("package a:b; interface |", "id"),
    ("package a:b; interface i |", "{"),
    (
        "package a:b; interface i { |",
        "id type resource variant record flags enum use }",
    ),
    ("package a:b; interface i { f |", ":"),
    ("package a:b; interface i { f: |", "id func async"),
    ("package a:b; interface i { f: g |", ";"),
    (
        "package a:b; interface i { f: g; |",
        "id type resource variant record flags enum use }",
    ),
    ("package a:b; interface i { } |", STATEMENT),
    // `use`.
    ("package a:b; interface i { use |", "id path"),
    ("package a:b; interface i { use a |", "."),
    ("package a:b; interface i { use c:d/e |", "."),
    ("package a:b; interface i { use a. |", "{"),
    ("package a:b; interface i { use a.{ |", "id }"),
    ("package a:b; interface i { use a.{b |", "as } ,"),
    ("package a:b; interface i { use a.{b, |", "id }"),
    ("package a:b; interface i { use a.{b as |", "id"),
    ("package a:b; interface i { use a.{b as c |", "} ,"),
    ("package a:b; interface i { use a.{ b } |", ";"),
    // Resources.
    ("package a:b; interface i { resource |", "id"),
    ("package a:b; interface i { resource r |", "; {"),
    (
        "package a:b; interface i { resource r { |",
        "id constructor }",
    ),
    ("package a:b; interface i { resource r { constructor |", "("),
    (
        "package a:b; interface i { resource r { constructor( |",
        "id )",
    ),
    (
        "package a:b; interface i { resource r { constructor() |",
        ";",
    ),
    ("package a:b; interface i { resource r { m |", ":"),
    (
        "package a:b; interface i { resource r { m: |",
        "func static async",
    ),
    (
        "package a:b; interface i { resource r { m: static |",
        "func async",
    ),
    (
        "package a:b; interface i { resource r { m: func(); |",
        "id constructor }",
    ),
    (
        "package a:b; interface i { resource r; |",
        "id type resource variant record flags enum use }",
    ),
    // Worlds.
    ("package a:b; world |", "id"),
    ("package a:b; world w |", "{"),
    (
        "package a:b; world w { |",
        "import type resource variant record flags enum export use include }",
    ),
    ("package a:b; world w { import |", "id path"),
    ("package a:b; world w { import a |", "; :"),
    (
        "package a:b; world w { import a: |",
        "id func interface async",
    ),
    (
        "package a:b; world w { import a: interface { |",
        "id type resource variant record flags enum use }",
    ),
    ("package a:b; world w { import a: interface { } |", ";"),
    ("package a:b; world w { export |", "id path"),
    ("package a:b; world w { export c:d/e |", ";"),
    ("package a:b; world w { } |", STATEMENT),
    // `include`.
    ("package a:b; world w { include |", "id path"),
    ("package a:b; world w { include v |", "with ;"),
    ("package a:b; world w { include c:d/e |", "with ;"),
    ("package a:b; world w { include v with |", "{"),
    ("package a:b; world w { include v with { |", "id }"),
    ("package a:b; world w { include v with { a |", "as"),
    ("package a:b; world w { include v with { a as |", "id"),
    ("package a:b; world w { include v with { a as b |", "} ,"),
    ("package a:b; world w { include v with { a as b, |", "id }"),
    ("package a:b; world w { include v with { a as b } |", ";"),
];
