// Graphs, with packages that are handed over.
use crate::calls::rooms::{line, push_difference, room};
use std::alloc::{AllocError, Global};
use std::test::Fail;
use wac_calls::{Composition, DEFAULT_LIMIT, graph};

/// A document, the texts of packages, how much is cut from the end of their frames, and what the call leaves.
struct Row {
    text: &'static [u8],
    packages: &'static [&'static [u8]],
    cut: usize,
    left: &'static str,
}

const APP: &[u8] = b"package a:b; let x = new c:d { ... }; export x.f as \"g\";";

const ONE: &[u8] = b"package c:d; world w { import y: func(); export f: func(); }";

/// A component that imports a function `y` and exports it as `f`, as [`ONE`] does, made by hand: a type section with
/// `func()`, an import section and an export section.
const COMPONENT: &[u8] =
    b"\0asm\x0D\0\x01\0\x07\x05\x01\x40\0\x01\0\x0A\x06\x01\0\x01y\x01\0\x0B\x07\x01\0\x01f\x01\0\0";

/// A package whose world has an interface of another one, which is handed over after it.
const TWO: &[u8] = b"package c:d; world w { import e:f/i; export f: func(); }";

const THREE: &[u8] = b"package e:f; interface i { h: func(); }";

static GRAPHS: [Row; 6] = [
    Row {
        text: b"package a:b;\nimport y: func();\nexport y as \"z\";",
        packages: &[],
        cut: 0,
        left: "well | {\"nodes\":[{\"id\":0,\"kind\":\"import\",\"name\":\"y\",\"package\":null,\"item\":\"function\",\"span\":{\"offset\":20,\"length\":1},\"import\":\"y\",\"source\":null,\"arguments\":[]}],\"exports\":[{\"name\":\"z\",\"node\":0}],\"imports\":[{\"name\":\"y\",\"kind\":\"function\",\"by\":[0]}]}\n",
    },
    Row {
        text: APP,
        packages: &[ONE],
        cut: 0,
        left: "well | {\"nodes\":[{\"id\":0,\"kind\":\"instantiation\",\"name\":\"x\",\"package\":\"c:d\",\"item\":\"instance\",\"span\":{\"offset\":17,\"length\":1},\"import\":null,\"source\":null,\"arguments\":[]},{\"id\":1,\"kind\":\"alias\",\"name\":null,\"package\":null,\"item\":\"function\",\"span\":null,\"import\":null,\"source\":{\"node\":0,\"export\":\"f\"},\"arguments\":[]}],\"exports\":[{\"name\":\"g\",\"node\":1}],\"imports\":[{\"name\":\"y\",\"kind\":\"function\",\"by\":[0]}]}\n",
    },
    // The same by a component.
    Row {
        text: APP,
        packages: &[b"c:d", COMPONENT],
        cut: 0,
        left: "well | {\"nodes\":[{\"id\":0,\"kind\":\"instantiation\",\"name\":\"x\",\"package\":\"c:d\",\"item\":\"instance\",\"span\":{\"offset\":17,\"length\":1},\"import\":null,\"source\":null,\"arguments\":[]},{\"id\":1,\"kind\":\"alias\",\"name\":null,\"package\":null,\"item\":\"function\",\"span\":null,\"import\":null,\"source\":{\"node\":0,\"export\":\"f\"},\"arguments\":[]}],\"exports\":[{\"name\":\"g\",\"node\":1}],\"imports\":[{\"name\":\"y\",\"kind\":\"function\",\"by\":[0]}]}\n",
    },
    Row {
        text: APP,
        packages: &[THREE, b"c:d", COMPONENT, b"c:d@1.0.0", COMPONENT],
        cut: 0,
        left: "well | {\"nodes\":[{\"id\":0,\"kind\":\"instantiation\",\"name\":\"x\",\"package\":\"c:d\",\"item\":\"instance\",\"span\":{\"offset\":17,\"length\":1},\"import\":null,\"source\":null,\"arguments\":[]},{\"id\":1,\"kind\":\"alias\",\"name\":null,\"package\":null,\"item\":\"function\",\"span\":null,\"import\":null,\"source\":{\"node\":0,\"export\":\"f\"},\"arguments\":[]}],\"exports\":[{\"name\":\"g\",\"node\":1}],\"imports\":[{\"name\":\"y\",\"kind\":\"function\",\"by\":[0]}]}\n",
    },
    Row {
        text: APP,
        packages: &[TWO, THREE],
        cut: 0,
        left: "well | {\"nodes\":[{\"id\":0,\"kind\":\"instantiation\",\"name\":\"x\",\"package\":\"c:d\",\"item\":\"instance\",\"span\":{\"offset\":17,\"length\":1},\"import\":null,\"source\":null,\"arguments\":[]},{\"id\":1,\"kind\":\"alias\",\"name\":null,\"package\":null,\"item\":\"function\",\"span\":null,\"import\":null,\"source\":{\"node\":0,\"export\":\"f\"},\"arguments\":[]}],\"exports\":[{\"name\":\"g\",\"node\":1}],\"imports\":[{\"name\":\"e:f/i\",\"kind\":\"instance\",\"by\":[0]}]}\n",
    },
    Row {
        text: b"package a:b;",
        packages: &[ONE, THREE],
        cut: 0,
        left: "well | {\"nodes\":[],\"exports\":[],\"imports\":[]}\n",
    },
];

static REJECTED: [Row; 15] = [
    Row {
        text: b"\xFF",
        packages: &[],
        cut: 0,
        left: "not utf-8 | input is not UTF-8",
    },
    Row {
        text: b"package a:b; let x y;",
        packages: &[ONE],
        cut: 0,
        left: "rejected 19+1 | expected `=`, found identifier",
    },
    Row {
        text: APP,
        packages: &[],
        cut: 0,
        left: "rejected 25+3 | unknown package `c:d`",
    },
    Row {
        text: b"package a:b; export x;",
        packages: &[],
        cut: 0,
        left: "rejected 20+1 | undefined name `x`",
    },
    // A frame that is cut. The second begins at 68, after the 60 bytes of the first and their length.
    Row {
        text: APP,
        packages: &[ONE, THREE],
        cut: 1,
        left: "bad package 68+46 | the frame of a package is cut",
    },
    Row {
        text: APP,
        packages: &[ONE, THREE],
        cut: 40,
        left: "bad package 68+7 | the frame of a package is cut",
    },
    Row {
        text: APP,
        packages: &[ONE, b"a\xFF"],
        cut: 0,
        left: "bad package 77+1 | a package is not UTF-8",
    },
    // The frame before a component isn't the name of a package, there is none, or another component has it.
    Row {
        text: APP,
        packages: &[ONE, COMPONENT],
        cut: 0,
        left: "bad package 76+32 | the frame before a component is the name of its package, as `a:b@1.0.0`",
    },
    Row {
        text: APP,
        packages: &[COMPONENT],
        cut: 0,
        left: "bad package 8+32 | the frame before a component is the name of its package, as `a:b@1.0.0`",
    },
    Row {
        text: APP,
        packages: &[b"c:d", COMPONENT, COMPONENT],
        cut: 0,
        left: "bad package 59+32 | the frame before a component is the name of its package, as `a:b@1.0.0`",
    },
    // A name without a component is a text that declares nothing.
    Row {
        text: APP,
        packages: &[b"c:d"],
        cut: 0,
        left: "bad package 8+3 | expected `package` keyword, found package name",
    },
    // Packages that are there already, and a core module.
    Row {
        text: APP,
        packages: &[ONE, b"c:d", COMPONENT],
        cut: 0,
        left: "bad package 87+32 | there is another package `c:d`",
    },
    Row {
        text: APP,
        packages: &[b"c:d", b"\0asm\x01\0\0\0"],
        cut: 0,
        left: "bad package 19+8 | at byte 4: a core module, and no component",
    },
    Row {
        text: APP,
        packages: &[ONE, b"package e:f; import x: func();"],
        cut: 0,
        left: "bad package 96+1 | a document that declares a package has type statements alone",
    },
    Row {
        text: APP,
        packages: &[b"package", ONE],
        cut: 0,
        left: "bad package 14+1 | expected package name, found end of input",
    },
];

/// The frames of texts.
fn frames(alloc: Global, texts: &[&[u8]], cut: usize) -> Result<Vec<u8>, AllocError> {
    let mut frames = Vec::new(alloc);
    for text in texts {
        let length = text.len().to_le_bytes();
        frames.extend_from_slice(&length)?;
        frames.extend_from_slice(text)?;
    }
    let kept = frames.len().saturating_sub(cut);
    frames.truncate(kept);
    Ok(frames)
}

/// What a call leaves.
fn left(alloc: Global, row: &Row) -> Result<String, AllocError> {
    let packages = frames(alloc, row.packages, row.cut)?;
    let mut out = room(alloc, 2000)?;
    let mut message = room(alloc, 200)?;
    let composition = Composition {
        text: row.text,
        packages: packages.as_slice(),
    };
    let answer = graph(
        alloc,
        DEFAULT_LIMIT,
        composition,
        out.as_mut_slice(),
        message.as_mut_slice(),
    );
    line(alloc, answer, out.as_slice(), message.as_slice())
}

/// What calls leave that is not what their rows say.
fn differences(alloc: Global, rows: &[Row]) -> Result<String, AllocError> {
    let mut all = String::new(alloc);
    for row in rows {
        let found = left(alloc, row)?;
        push_difference(&mut all, found.as_str(), row.left)?;
    }
    Ok(all)
}

#[test]
fn compositions_have_graphs_or_are_rejected(rt: HostRuntime) -> Result<(), Fail> {
    for rows in [GRAPHS.as_slice(), REJECTED.as_slice()] {
        let found = differences(rt.alloc(), rows)?;
        assert!(rt; found.is_empty(), "{found}");
    }
    Ok(())
}
