//! Each command over files in memory, and while a call fails. Rows of whole runs are in .ci/runs/.

use std::alloc::{AllocError, Global};
use std::io::Write;
use std::test::Fail;
use wac_cli::check_paths;
use wac_cli_console::{Console, Report, Status};
use wac_cli_packages::{
    Form, Given, GraphRequest, PackageForm, PackageRequest, TargetRequest, check_target,
    check_with_packages, list_packages, show_graph, show_package,
};
use wac_files::MemoryFiles;

/// A command, with packages and without.
#[derive(Clone, Copy)]
enum Command {
    Check,
    CheckWithPackages,
    Graph,
    GraphWithPackages,
    Packages,
    Package,
    Targets,
}

/// A command, and what its run writes to its output and its errors.
struct Row {
    command: Command,
    output: &'static str,
    errors: &'static str,
}

/// A document without packages, a composition, its package, and a world.
static TEXTS: [(&str, &str); 4] = [
    (
        "plain.wac",
        "package a:b;\nimport f: func();\nexport f as g;\n",
    ),
    (
        "app.wac",
        "package a:b;\nimport log: func();\nlet c = new d:cache@1.0.0 { log };\nexport c.get;\n",
    ),
    (
        "p/cache.wac",
        "package d:cache@1.0.0;\nworld cache { import log: func(); export get: func(); }\n",
    ),
    (
        "world.wac",
        "package a:b;\nworld w { import log: func(line: string); export run: func(line: string); }\n",
    ),
];

/// A component: `log: func(line: string)` is imported, and exported again as `run`.
static COMPONENT: &[u8] =
    b"\0asm\x0d\0\x01\0\x07\x0b\x01@\x01\x04lines\x01\0\x0a\x08\x01\0\x03log\x01\0\x0b\x09\x01\0\x03run\x01\0\0";

static ROWS: [Row; 7] = [
    Row {
        command: Command::Check,
        output: "",
        errors: "1 file, 0 with errors\n",
    },
    Row {
        command: Command::CheckWithPackages,
        output: "",
        errors: "2 files, 0 with errors\n",
    },
    Row {
        command: Command::Graph,
        output: "0 import f: function [f]\nexport g = 0\n",
        errors: "",
    },
    Row {
        command: Command::GraphWithPackages,
        output: "0 import log: function [log]\n1 new d:cache@1.0.0: instance [c]\n  log = 0\n\
            2 alias 1 get: function\nexport get = 2\n",
        errors: "",
    },
    Row {
        command: Command::Packages,
        output: "d:cache@1.0.0 found p/cache.wac\n",
        errors: "",
    },
    Row {
        command: Command::Package,
        output: "package root:component;\n\nworld root {\n    import log: func(line: string);\n\n    \
            export run: func(line: string);\n}\n",
        errors: "",
    },
    Row {
        command: Command::Targets,
        output: "",
        errors: "",
    },
];

/// The files.
fn tree(alloc: Global) -> Result<MemoryFiles, AllocError> {
    let mut files = MemoryFiles::new(alloc);
    files.folder(alloc, ".")?;
    files.folder(alloc, "p")?;
    for (path, text) in TEXTS.as_slice() {
        files.file(alloc, path, text.as_bytes())?;
    }
    files.file(alloc, "app.wasm", COMPONENT)?;
    Ok(files)
}

/// Packages in `p`.
fn given() -> Given<'static> {
    Given {
        packages: &["p"],
        with_defaults: true,
        components: &[],
        may_agree: false,
        worlds: &[],
        report: Report::Human,
    }
}

/// Runs a command with a console.
fn run_with<O: Write + Drop, E: Write + Drop>(
    alloc: Global,
    files: &mut MemoryFiles,
    console: &mut Console<O, E>,
    command: Command,
) -> Status {
    match command {
        Command::Check => check_paths(alloc, files, console, Report::Human, &["plain.wac"]),
        Command::CheckWithPackages => {
            check_with_packages(alloc, files, console, given(), &["app.wac"])
        }
        Command::Graph => {
            let request = GraphRequest {
                path: "plain.wac",
                form: Form::Text,
            };
            show_graph(alloc, files, console, given(), request)
        }
        Command::GraphWithPackages => {
            let request = GraphRequest {
                path: "app.wac",
                form: Form::Text,
            };
            show_graph(alloc, files, console, given(), request)
        }
        Command::Packages => list_packages(alloc, files, console, given(), "app.wac"),
        Command::Package => {
            let request = PackageRequest {
                path: "app.wasm",
                name: None,
                form: PackageForm::Wac,
            };
            show_package(alloc, files, console, request)
        }
        Command::Targets => {
            let request = TargetRequest {
                component: "app.wasm",
                document: "world.wac",
                world: None,
            };
            check_target(alloc, files, console, given(), request)
        }
    }
}

/// The status of a run of a command, and what it writes to its output and its errors.
fn run(alloc: Global, files: &mut MemoryFiles, command: Command) -> (u8, Vec<u8>, Vec<u8>) {
    let mut output = Vec::new(alloc);
    let mut errors = Vec::new(alloc);
    let status = {
        let mut console = Console::new(&mut output, &mut errors, false, false);
        run_with(alloc, files, &mut console, command)
    };
    (status.code(), output, errors)
}

/// Whether a run writes what a row says.
fn is_as(row: &Row, status: u8, output: &[u8], errors: &[u8]) -> bool {
    status == 0 && output == row.output.as_bytes() && errors == row.errors.as_bytes()
}

/// What a run came to in place of what a row says, or nothing.
fn difference(alloc: Global, row: &Row) -> Result<String, AllocError> {
    let mut files = tree(alloc)?;
    let (status, output, errors) = run(alloc, &mut files, row.command);
    if is_as(row, status, output.as_slice(), errors.as_slice()) {
        return Ok(String::new(alloc));
    }
    let output = str::from_utf8(output.as_slice()).unwrap_or("?");
    let errors = str::from_utf8(errors.as_slice()).unwrap_or("?");
    format!(in alloc; "{status}\n{output}\n{errors}\n")
}

#[test]
fn each_command_writes_what_it_is_asked_for(rt: HostRuntime) -> Result<(), Fail> {
    for row in &ROWS {
        let found = difference(rt.alloc(), row)?;
        assert!(rt; found.is_empty(), "{found}");
    }
    Ok(())
}

/// What a run came to while a call failed.
#[derive(Clone, Copy)]
enum After {
    /// There was no such call.
    NotMade,
    /// The status says that a file couldn't be read.
    Told,
    /// The run is as it is without the failure.
    Same,
    Other,
}

/// Runs the command of a row, where a call fails.
fn run_failing(alloc: Global, row: &Row, failing: usize) -> Result<After, AllocError> {
    let mut files = tree(alloc)?;
    files.fail_at(failing);
    let (status, output, errors) = run(alloc, &mut files, row.command);
    if files.calls() <= failing {
        return Ok(After::NotMade);
    }
    if status == 3 {
        return Ok(After::Told);
    }
    let is_same = is_as(row, status, output.as_slice(), errors.as_slice());
    Ok(if is_same { After::Same } else { After::Other })
}

/// How many calls are told where they fail. `None` where a run comes to something else than that, or than it is without
/// the failure: whether two paths lead to one file need not be known.
fn calls_told(alloc: Global, row: &Row) -> Result<Option<usize>, AllocError> {
    let mut told = 0usize;
    for failing in 0..100 {
        match run_failing(alloc, row, failing)? {
            After::NotMade => return Ok(Some(told)),
            After::Told => told = told.saturating_add(1),
            After::Same => {}
            After::Other => return Ok(None),
        }
    }
    Ok(None)
}

#[test]
fn calls_that_fail_are_told(rt: HostRuntime) -> Result<(), Fail> {
    for row in &ROWS {
        let told = calls_told(rt.alloc(), row)?;
        assert!(rt; told.unwrap_or(0) > 0, "of {}", row.errors);
    }
    Ok(())
}
