// What is said of the packages of components, beside declared ones.
use indexmap::IndexMap;
use std::alloc::{AllocError, Global};
use std::io::Write;
use std::test::Fail;
use wac_cli_console::{Console, Report, SourceFile};
use wac_component_packages::{
    ComponentFault, Components, Fault, Precedence, Sought, Supplied, read_components,
    supply_components,
};
use wac_declared_packages::{Declared, declare_all};
use wac_files::MemoryFiles;

/// `log: func(line: string)` is imported, and exported again as `run`.
static PLAIN: &[u8] =
    b"\0asm\x0d\0\x01\0\x07\x0b\x01@\x01\x04lines\x01\0\x0a\x08\x01\0\x03log\x01\0\x0b\x09\x01\0\x03run\x01\0\0";

/// The package `shop:logging@0.3.0` as a tool encodes its WIT: an interface `sink` with a type and a function.
static ENCODED: &[u8] =
    b"\0asm\x0d\0\x01\0\0\x19\x16wit-component-encoding\x04\0\x07Y\x01A\x02\x01B\x04\x01m\x02\x04info\x07warning\x04\0\x05level\x03\0\0\x01@\x02\x05level\x01\x04lines\x01\0\x04\0\x05write\x01\x02\x04\0\x17shop:logging/sink@0.3.0\x05\0\x0b\x0a\x01\0\x04sink\x03\0\0";

/// The paths of `--packages`, the keys with their paths, the document `a.wac`, whether they may agree, and what is
/// expected: the packages that are known, how many components are well, and the errors.
struct Row {
    paths: &'static str,
    keyed: Option<(&'static str, &'static str)>,
    text: &'static str,
    may_agree: bool,
    known: usize,
    well: usize,
    errors: &'static str,
}

static ROWS: [Row; 11] = [
    Row {
        paths: "deps",
        keyed: None,
        text: "package c:d;\n",
        may_agree: false,
        known: 3,
        well: 2,
        errors: "deps/a/bad.wasm: error[wac::component-unexpected-end]: at byte 3: unexpected end\n",
    },
    Row {
        paths: "deps/a/b.wasm",
        keyed: Some(("x:y@1.0.0", "deps/a/b.wasm")),
        text: "package c:d;\n",
        may_agree: false,
        known: 3,
        well: 2,
        errors: "",
    },
    Row {
        paths: "app.wasm",
        keyed: None,
        text: "package c:d;\n",
        may_agree: false,
        known: 1,
        well: 0,
        errors: "app.wasm: error[wac::unnamed-component]: no package's name follows from the path\n\
            help: name it: --package a:b=app.wasm\n",
    },
    Row {
        paths: "deps/a/b.wasm",
        keyed: Some(("a:b", "app.wasm")),
        text: "package c:d;\n",
        may_agree: true,
        known: 2,
        well: 2,
        errors: "",
    },
    Row {
        paths: "deps/a/b.wasm",
        keyed: Some(("a:b", "app.wasm")),
        text: "package c:d;\n",
        may_agree: false,
        known: 2,
        well: 1,
        errors: "app.wasm: error[wac::decoded-twice]: `a:b` is the package of deps/a/b.wasm too\n",
    },
    Row {
        paths: "deps/a/b.wasm",
        keyed: None,
        text: "package a:b;\nworld w { import log: func(line: string); export run: func(line: string); }\n",
        may_agree: false,
        known: 1,
        well: 0,
        errors: "deps/a/b.wasm: error[wac::declared-and-decoded]: `a:b` is declared by a.wac too\n\
            help: leave out one of the two, or compare them: --agree\n",
    },
    Row {
        paths: "deps/a/b.wasm",
        keyed: None,
        text: "package a:b;\nworld w { import log: func(line: string); export run: func(line: string); }\n",
        may_agree: true,
        known: 1,
        well: 1,
        errors: "",
    },
    Row {
        paths: "deps/a/b.wasm",
        keyed: None,
        text: "package a:b;\nworld w { import log: func(line: string); export run: func(line: u8); }\n",
        may_agree: true,
        known: 1,
        well: 0,
        errors: "deps/a/b.wasm: error[wac::package-disagreement]: `a:b` isn't what a.wac declares: \
            at export `run`, parameter `line`: expected u8, found string\n",
    },
    Row {
        paths: "wit",
        keyed: None,
        text: "package shop:logging@0.3.0;\ninterface sink { enum level { info, warning } write: func(level: level, line: string); }\n",
        may_agree: true,
        known: 1,
        well: 1,
        errors: "",
    },
    Row {
        paths: "wit",
        keyed: None,
        text: "package shop:logging@0.3.0;\ninterface sink { write: func(line: string); }\n",
        may_agree: true,
        known: 1,
        well: 0,
        errors: "wit/shop/logging/0.3.0.wasm: error[wac::package-disagreement]: `shop:logging@0.3.0` isn't what a.wac declares: \
            at export `sink`, export `write`: expected parameter `line`, found parameter `level`\n",
    },
    Row {
        paths: "deps/a/b.wasm",
        keyed: None,
        text: "package a:b;\nworld w { import log: fun; }\n",
        may_agree: true,
        known: 0,
        well: 1,
        errors: "",
    },
];

/// Components of three packages, one of them broken, one without a place, and an encoded package.
fn tree(alloc: Global) -> Result<MemoryFiles, AllocError> {
    let mut files = MemoryFiles::new(alloc);
    files.folder(alloc, "deps")?;
    files.folder(alloc, "deps/a")?;
    files.file(alloc, "deps/a/b.wasm", PLAIN)?;
    files.file(alloc, "deps/a/bad.wasm", b"\0as")?;
    files.folder(alloc, "deps/a/c")?;
    files.file(alloc, "deps/a/c/1.0.0.wasm", PLAIN)?;
    files.file(alloc, "app.wasm", PLAIN)?;
    for folder in ["wit", "wit/shop", "wit/shop/logging"] {
        files.folder(alloc, folder)?;
    }
    files.file(alloc, "wit/shop/logging/0.3.0.wasm", ENCODED)?;
    Ok(files)
}

/// Writes what is wrong with a file.
fn tell<O: Write + Drop, E: Write + Drop>(
    alloc: Global,
    console: &mut Console<O, E>,
    fault: &ComponentFault,
) -> Result<(), AllocError> {
    let path = fault.source.path.as_str();
    match &fault.fault {
        Fault::Unread(error) => {
            let _ = console.failed(alloc, Report::Human, path, *error);
            Ok(())
        }
        Fault::Rejected(diagnostic) | Fault::Conflict(diagnostic) => {
            let file = SourceFile { path, text: b"" };
            console.report(alloc, Report::Human, &file, diagnostic)
        }
    }
}

/// How many packages are known where components are supplied beside a row's document, and how many components are well.
fn beside<O: Write + Drop, E: Write + Drop>(
    alloc: Global,
    console: &mut Console<O, E>,
    row: &Row,
    components: Components,
) -> Result<(usize, usize), AllocError> {
    let mut names = Vec::new(alloc);
    names.push(String::from_str(alloc, "a.wac")?)?;
    let none = IndexMap::new(alloc);
    let Declared {
        mut packages,
        mut texts,
        faults: _,
    } = declare_all(alloc, &[row.text], &none)?;
    let rule = if row.may_agree {
        Precedence::Agree
    } else {
        Precedence::Conflict
    };
    let added = {
        let mut known = Supplied {
            packages: &mut packages,
            files: &mut texts,
            names: &mut names,
            rule,
        };
        supply_components(alloc, components, &mut known)?
    };
    for fault in added.faults.as_slice() {
        tell(alloc, console, fault)?;
    }
    Ok((packages.len(), added.good.len()))
}

/// The names of packages with the paths of their components, of a row.
fn keyed(alloc: Global, row: &Row) -> Result<Vec<(&'static str, &'static str)>, AllocError> {
    let mut keyed = Vec::new(alloc);
    if let Some(pair) = row.keyed {
        keyed.push(pair)?;
    }
    Ok(keyed)
}

/// How many packages are known, how many components are well, and the errors.
fn supplied(alloc: Global, row: &Row) -> Result<(usize, usize, Vec<u8>), AllocError> {
    let mut files = tree(alloc)?;
    let mut output = Vec::new(alloc);
    let mut errors = Vec::new(alloc);
    let keyed = keyed(alloc, row)?;
    let sought = Sought {
        paths: &[row.paths],
        named: keyed.as_slice(),
        worlds: &[],
        may_agree: row.may_agree,
    };
    let (known, well) = {
        let mut console = Console::new(&mut output, &mut errors, false, false);
        let components = read_components(alloc, &mut files, sought)?;
        beside(alloc, &mut console, row, components)?
    };
    Ok((known, well, errors))
}

/// What was found in place of what a row expects, or nothing.
fn difference(alloc: Global, row: &Row) -> Result<String, AllocError> {
    let (known, well, errors) = supplied(alloc, row)?;
    let errors = str::from_utf8(errors.as_slice()).unwrap_or("?");
    if known == row.known && well == row.well && errors == row.errors {
        return Ok(String::new(alloc));
    }
    format!(in alloc; "{known} {well}\n{errors}\n")
}

#[test]
fn components_are_supplied(rt: HostRuntime) -> Result<(), Fail> {
    for row in &ROWS {
        let found = difference(rt.alloc(), row)?;
        assert!(rt; found.is_empty(), "{found}");
    }
    Ok(())
}
