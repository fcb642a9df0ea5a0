// `wacx check`.
ghost use Rattle.std.specs.Prelude.{◌≡◌, IfOk};
ghost use Rattle.wac_cli.specs.Checked.{AreChecks, IsCheckOf, IsFoundCheck, IsReadCheck};

use std::alloc::{AllocError, Global};
use std::io::{Read, Write};
use wac_all_errors::all_errors;
use wac_cli_console::{
    Console, InputOptions, Outcome, Report, STDIN, SourceFile, Status, Task, finish, finish_input,
    read_all,
};
use wac_files::{FileError, FileSystem, Found, Listing, find_all};
use wac_first_error::{Verdict, first_error};

/// How many errors of a file are told.
const MOST: usize = 100;

/// Reports the errors of each file that paths lead to, at most a hundred of each: all those of parsing, and where no
/// foreign package is mentioned, the first of resolving. A last line counts the files.
pub fn check_paths<F: FileSystem, O: Write + Drop, E: Write + Drop>(
    alloc: Global,
    files: &mut F,
    console: &mut Console<O, E>,
    report: Report,
    paths: &[&str],
) -> Status
    // No file is replaced.
    ensures { F.replaced files.new ≡ F.replaced files.old }
{
    match check_all(alloc, files, console, report, paths) {
        Ok(outcomes) => finish(alloc, console, Task::Check, outcomes.as_slice()),
        Err(AllocError) => console.out_of_memory(),
    }
}

fn check_all<F: FileSystem, O: Write + Drop, E: Write + Drop>(
    alloc: Global,
    files: &mut F,
    console: &mut Console<O, E>,
    report: Report,
    paths: &[&str],
) -> Result<Vec<Outcome>, AllocError>
    ensures { F.replaced files.new ≡ F.replaced files.old }
{
    let Listing {
        files: found,
        others,
    } = find_all(alloc, files, paths)?;
    console.passed_over(alloc, others.as_slice())?;
    check_each(alloc, files, console, report, found.as_slice())
}

/// Reports the errors of each of the files that were found. Returns what became of them: an outcome for each, in
/// order, whatever became of those before. None is `Untidy`.
///
/// The error is that memory ran out: then files were checked up to one of them.
///
/// ```text
/// let found = find_files(alloc, files, paths)?;
/// let outcomes = check_each(alloc, files, console, Report::Human, found.as_slice())?;
/// ```
pub fn check_each<F: FileSystem, O: Write + Drop, E: Write + Drop>(
    alloc: Global,
    files: &mut F,
    console: &mut Console<O, E>,
    report: Report,
    found: &[Found],
) -> Result<Vec<Outcome>, AllocError>
    // No file is replaced.
    ensures looks { F.replaced files.new ≡ F.replaced files.old }
    // Each path has its outcome, once, in order.
    ensures each { IfOk result (λ outcomes. AreChecks found.now outcomes.items) }
{
    let mut outcomes = Vec::with_capacity(alloc, found.len())?;
    for found in found {
        let outcome = check_found(alloc, files, console, report, found);
        outcomes.push(outcome)?;
    }
    Ok(outcomes)
}

fn check_found<F: FileSystem, O: Write + Drop, E: Write + Drop>(
    alloc: Global,
    files: &mut F,
    console: &mut Console<O, E>,
    report: Report,
    found: &Found,
) -> Outcome
    ensures looks { F.replaced files.new ≡ F.replaced files.old }
    ensures outcome { IsFoundCheck found.now result }
{
    let path = found.path.as_str();
    match found.failure {
        Some(error) => console.failed(alloc, report, path, error),
        None => {
            let read = files.read(alloc, path);
            checked(alloc, console, report, path, read)
        }
    }
}

/// Reports the errors of what was read. Returns what became of it.
fn checked<O: Write + Drop, E: Write + Drop>(
    alloc: Global,
    console: &mut Console<O, E>,
    report: Report,
    path: &str,
    read: Result<Vec<u8>, FileError>,
) -> Outcome
    ensures { IsReadCheck read result }
{
    match read {
        Ok(bytes) => check_bytes(alloc, console, report, path, bytes.as_slice()),
        Err(error) => console.failed(alloc, report, path, error),
    }
}

/// Reports the errors of bytes. Returns what became of them.
fn check_bytes<O: Write + Drop, E: Write + Drop>(
    alloc: Global,
    console: &mut Console<O, E>,
    report: Report,
    path: &str,
    bytes: &[u8],
) -> Outcome
    ensures { IsCheckOf bytes.now result }
{
    match judge(alloc, console, report, path, bytes) {
        Ok(outcome) => outcome,
        Err(AllocError) => console.failed(alloc, report, path, FileError::OutOfMemory),
    }
}

/// Writes the errors of bytes. Returns what they are.
fn judge<O: Write + Drop, E: Write + Drop>(
    alloc: Global,
    console: &mut Console<O, E>,
    report: Report,
    path: &str,
    bytes: &[u8],
) -> Result<Outcome, AllocError>
    ensures { IfOk result (λ outcome. IsCheckOf bytes.now outcome) }
{
    match first_error(alloc, bytes, true) {
        Ok(Verdict::Document(_)) => Ok(Outcome::Good),
        Ok(Verdict::Unresolved(_)) => Ok(Outcome::Unresolved),
        Ok(Verdict::Rejected(_diagnostic)) => {
            report_all(alloc, console, report, path, bytes)?;
            Ok(Outcome::Rejected)
        }
        Err(error) => Err(error),
    }
}

/// Writes the errors of bytes.
fn report_all<O: Write + Drop, E: Write + Drop>(
    alloc: Global,
    console: &mut Console<O, E>,
    report: Report,
    path: &str,
    bytes: &[u8],
) -> Result<(), AllocError> {
    let found = all_errors(alloc, bytes, true, MOST)?;
    let file = SourceFile { path, text: bytes };
    for finding in found.as_slice() {
        console.report(alloc, report, &file, &finding.diagnostic)?;
    }
    Ok(())
}

/// Reports the errors of a reader's text. Nothing is written where all is well.
pub fn check_input<I: Read, O: Write + Drop, E: Write + Drop>(
    alloc: Global,
    input: &mut I,
    console: &mut Console<O, E>,
    report: Report,
    reading: InputOptions<'_>,
) -> Status {
    let name = reading.name.unwrap_or(STDIN);
    let read = read_all(alloc, input, reading.most);
    let outcome = checked(alloc, console, report, name, read);
    finish_input(alloc, console, Task::Check, outcome)
}
