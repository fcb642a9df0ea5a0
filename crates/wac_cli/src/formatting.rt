// `wacx fmt`.
ghost use Rattle.std.specs.Prelude.{◌≡◌, ◌≢◌, IfErr};
ghost use Rattle.wac_cli.specs.Formatted.{ComesTo, FoundComesTo, ReturnsOutcome, ReturnsOutcomes};
ghost use Rattle.wac_cli.specs.Replacing.{OnlyFormats};
ghost use Rattle.wac_cli_console.specs.declared.options.Action.TheVariants.{Write};

use crate::options::FormatOptions;
use crate::planning::Plan;
use std::alloc::{AllocError, Global};
use std::io::{Read, Write};
use wac_cli_console::{
    Action, Console, InputOptions, Outcome, Report, STDIN, SourceFile, Status, Task, finish,
    finish_input, read_all,
};
use wac_diff::unified;
use wac_files::{FileError, FileSystem, Found, Listing, find_all};

/// Formats the files that paths lead to, or names those that are not tidy.
///
/// Written are: for each file that is not tidy its path or how it differs, to the output; its errors, and a last line
/// that counts the files, to the errors.
pub fn format_paths<F: FileSystem, O: Write + Drop, E: Write + Drop>(
    alloc: Global,
    files: &mut F,
    console: &mut Console<O, E>,
    options: FormatOptions,
    paths: &[&str],
) -> Status
    // A file holds what it held or its tidy text, which only a text without an error has.
    ensures formats { OnlyFormats options (F.replaced files.old) (F.replaced files.new) }
    // Without `Write` nothing is replaced.
    ensures looks { options.action ≢ Write → F.replaced files.new ≡ F.replaced files.old }
{
    let task = Task::Format(options.action);
    match format_all(alloc, files, console, options, paths) {
        Ok(outcomes) => finish(alloc, console, task, outcomes.as_slice()),
        Err(AllocError) => console.out_of_memory(),
    }
}

fn format_all<F: FileSystem, O: Write + Drop, E: Write + Drop>(
    alloc: Global,
    files: &mut F,
    console: &mut Console<O, E>,
    options: FormatOptions,
    paths: &[&str],
) -> Result<Vec<Outcome>, AllocError>
    ensures { OnlyFormats options (F.replaced files.old) (F.replaced files.new) }
{
    let Listing {
        files: mut found,
        others,
    } = find_all(alloc, files, paths)?;
    // A link that wasn't named may lead to a file that wasn't meant.
    found.retain(|found| !found.is_link);
    console.passed_over(alloc, others.as_slice())?;
    format_each(alloc, files, console, options, found.as_slice())
}

/// Formats each of the files that were found, one after another. Returns what became of them: an outcome for each, in
/// order, whatever became of those before.
///
/// The error is that memory ran out: then files were formatted up to one of them.
///
/// ```text
/// let found = find_files(alloc, files, paths)?;
/// let outcomes = format_each(alloc, files, console, options, found.as_slice())?;
/// ```
pub fn format_each<F: FileSystem, O: Write + Drop, E: Write + Drop>(
    alloc: Global,
    files: &mut F,
    console: &mut Console<O, E>,
    options: FormatOptions,
    found: &[Found],
) -> Result<Vec<Outcome>, AllocError>
    // A file holds what it held or its tidy text, which only a text without an error has.
    ensures formats { OnlyFormats options (F.replaced files.old) (F.replaced files.new) }
    // Each path has its outcome, once, in order.
    ensures each { ReturnsOutcomes options found.now result (F.replaced files.old) (F.replaced files.new) }
{
    let mut outcomes = Vec::with_capacity(alloc, found.len())?;
    for found in found {
        let outcome = format_found(alloc, files, console, options, found);
        outcomes.push(outcome)?;
    }
    Ok(outcomes)
}

/// Formats what was found. Returns what became of it.
fn format_found<F: FileSystem, O: Write + Drop, E: Write + Drop>(
    alloc: Global,
    files: &mut F,
    console: &mut Console<O, E>,
    options: FormatOptions,
    found: &Found,
) -> Outcome
    ensures { FoundComesTo options found.now result (F.replaced files.old) (F.replaced files.new) }
{
    let path = found.path.as_str();
    match found.failure {
        Some(error) => console.failed(alloc, Report::Human, path, error),
        None => format_path(alloc, files, console, options, path),
    }
}

/// Formats the file at a path, or writes why it could not. Returns what became of it.
fn format_path<F: FileSystem, O: Write + Drop, E: Write + Drop>(
    alloc: Global,
    files: &mut F,
    console: &mut Console<O, E>,
    options: FormatOptions,
    path: &str,
) -> Outcome
    ensures { ComesTo options path.now result (F.replaced files.old) (F.replaced files.new) }
{
    match format_file(alloc, files, console, options, path) {
        Ok(outcome) => outcome,
        Err(error) => console.failed(alloc, Report::Human, path, error),
    }
}

/// Reads the file at a path. Before it is written, what runs that ended left beside it is removed.
fn read_to_format<F: FileSystem>(
    alloc: Global,
    files: &mut F,
    action: Action,
    path: &str,
) -> Result<Vec<u8>, FileError>
    ensures { F.replaced files.new ≡ F.replaced files.old }
{
    if action == Action::Write {
        files.sweep(alloc, path)?;
    }
    files.read(alloc, path)
}

/// Formats the file at a path. Returns what became of it, or why it could not be read or written.
fn format_file<F: FileSystem, O: Write + Drop, E: Write + Drop>(
    alloc: Global,
    files: &mut F,
    console: &mut Console<O, E>,
    options: FormatOptions,
    path: &str,
) -> Result<Outcome, FileError>
    ensures { ReturnsOutcome options path.now result (F.replaced files.old) (F.replaced files.new) }
{
    let bytes = read_to_format(alloc, files, options.action, path)?;
    match Plan::of(alloc, bytes.as_slice(), options)? {
        Plan::Tidy => Ok(Outcome::Good),
        Plan::Untidy(text) => {
            match options.action {
                Action::Write => {
                    files.replace(alloc, path, bytes.as_slice(), text.as_bytes())?;
                    named(alloc, console, path)?;
                }
                Action::Check => console.name(alloc, path)?,
                Action::Diff => show_diff(alloc, console, path, bytes.as_slice(), &text)?,
            }
            Ok(Outcome::Untidy)
        }
        Plan::Rejected(diagnostic) => {
            let file = SourceFile {
                path,
                text: bytes.as_slice(),
            };
            console.report(alloc, Report::Human, &file, &diagnostic)?;
            Ok(Outcome::Rejected)
        }
    }
}

/// Writes the path of a file that was replaced.
fn named<O: Write + Drop, E: Write + Drop>(
    alloc: Global,
    console: &mut Console<O, E>,
    path: &str,
) -> Result<(), FileError>
    ensures { IfErr result (λ error. error ≡ FileError.OutOfMemory) }
{
    match console.name(alloc, path) {
        Ok(()) => Ok(()),
        Err(AllocError) => Err(FileError::OutOfMemory),
    }
}

/// Writes how a text differs from its tidy one.
fn show_diff<O: Write + Drop, E: Write + Drop>(
    alloc: Global,
    console: &mut Console<O, E>,
    path: &str,
    bytes: &[u8],
    tidy_text: &str,
) -> Result<(), AllocError> {
    let text = str::from_utf8(bytes).unwrap_or("");
    let mut name = String::new(alloc);
    wac_excerpts::push_shown(&mut name, path)?;
    let diff = unified(alloc, name.as_str(), text, tidy_text)?;
    console.write_text(alloc, diff.as_str())
}

/// Formats a reader's text, and writes it to the output; or names it, or shows how it differs, where it isn't tidy. Nothing else is written where all is well.
pub fn format_input<I: Read, O: Write + Drop, E: Write + Drop>(
    alloc: Global,
    input: &mut I,
    console: &mut Console<O, E>,
    options: FormatOptions,
    reading: InputOptions<'_>,
) -> Status {
    let name = reading.name.unwrap_or(STDIN);
    let outcome = match format_read(alloc, input, console, options, reading) {
        Ok(outcome) => outcome,
        Err(error) => console.failed(alloc, Report::Human, name, error),
    };
    finish_input(alloc, console, Task::Format(options.action), outcome)
}

fn format_read<I: Read, O: Write + Drop, E: Write + Drop>(
    alloc: Global,
    input: &mut I,
    console: &mut Console<O, E>,
    options: FormatOptions,
    reading: InputOptions<'_>,
) -> Result<Outcome, FileError> {
    let name = reading.name.unwrap_or(STDIN);
    let bytes = read_all(alloc, input, reading.most)?;
    match Plan::of(alloc, bytes.as_slice(), options)? {
        Plan::Tidy => {
            if options.action == Action::Write {
                console.write(bytes.as_slice());
            }
            Ok(Outcome::Good)
        }
        Plan::Untidy(text) => {
            match options.action {
                Action::Write => console.write(text.as_bytes()),
                Action::Check => console.name(alloc, name)?,
                Action::Diff => show_diff(alloc, console, name, bytes.as_slice(), &text)?,
            }
            Ok(Outcome::Untidy)
        }
        Plan::Rejected(diagnostic) => {
            let file = SourceFile {
                path: name,
                text: bytes.as_slice(),
            };
            console.report(alloc, Report::Human, &file, &diagnostic)?;
            Ok(Outcome::Rejected)
        }
    }
}
