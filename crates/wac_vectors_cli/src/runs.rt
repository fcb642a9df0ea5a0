// Runs of the commands over files in memory.
use std::alloc::Global;
use std::process::Abort;
use std::test::Fail;
use wac_cli::{FormatOptions, LineEnds, format_input, format_paths};
use wac_cli_console::{Action, Console, InputOptions};
use wac_comments::Indent;
use wac_files::{MOST_BYTES, MemoryFiles};

/// What a run returned and wrote.
#[derive(Drop)]
pub(crate) struct Run {
    pub(crate) status: u8,
    pub(crate) output: Vec<u8>,
    pub(crate) errors: Vec<u8>,
}

/// The default layout.
pub(crate) fn options(action: Action) -> FormatOptions {
    FormatOptions {
        action,
        indent: Indent::Blanks(4),
        line_ends: LineEnds::Auto,
    }
}

/// Runs `fmt`.
pub(crate) fn format(
    alloc: Global,
    files: &mut MemoryFiles,
    options: FormatOptions,
    paths: &[&str],
) -> Run {
    let mut output = Vec::new(alloc);
    let mut errors = Vec::new(alloc);
    let status = {
        let mut console = Console::new(&mut output, &mut errors, false, false);
        format_paths(alloc, files, &mut console, options, paths).code()
    };
    Run {
        status,
        output,
        errors,
    }
}

/// Runs `fmt -`.
pub(crate) fn format_text(
    alloc: Global,
    text: &str,
    options: FormatOptions,
    name: Option<&str>,
) -> Run {
    let mut output = Vec::new(alloc);
    let mut errors = Vec::new(alloc);
    let mut input = text.as_bytes();
    let reading = InputOptions {
        name,
        most: MOST_BYTES,
    };
    let status = {
        let mut console = Console::new(&mut output, &mut errors, false, false);
        format_input(alloc, &mut input, &mut console, options, reading).code()
    };
    Run {
        status,
        output,
        errors,
    }
}

/// Tests what a run returned and wrote.
pub(crate) fn expect(
    rt: &impl Abort,
    run: &Run,
    status: u8,
    output: &str,
    errors: &str,
) -> Result<(), Fail> {
    assert_eq!(rt;
        str::from_utf8(run.output.as_slice()).unwrap_or("?"),
        output
    );
    assert_eq!(rt;
        str::from_utf8(run.errors.as_slice()).unwrap_or("?"),
        errors
    );
    assert_eq!(rt; run.status, status);
    Ok(())
}
