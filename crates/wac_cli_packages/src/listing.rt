// `wacx packages`.
ghost use Rattle.std.specs.Prelude.{◌≡◌};

use crate::options::{Context, Given};
use crate::supply::{Supply, supply_for};
use crate::tally::Tally;
use crate::telling::reject;
use indexmap::IndexMap;
use std::alloc::{AllocError, Global};
use std::io::Write;
use wac_ast::Document;
use wac_cli_console::{Action, Console, SourceFile, Status};
use wac_diagnostics::Diagnostic;
use wac_excerpts::push_shown;
use wac_files::{FileError, FileSystem};
use wac_first_error::Reading;
use wac_graph::PackageKey;
use wac_lexer::SourceSpan;
use wac_package_errors::{KnownPackages, flat_text, packages, syntax_diagnostic};
use wac_package_names::push_key;
use wac_printer::Page;

/// The lines of a document's packages, and whether all are there; or what is wrong with it.
#[derive(Drop)]
enum Listed {
    Lines(String, bool),
    Rejected(Diagnostic),
}

/// Writes a line `KEY found FILE` or `KEY missing` for each foreign package that the file at a path mentions, in order.
/// A status says whether one is missing.
pub fn list_packages<F: FileSystem, O: Write + Drop, E: Write + Drop>(
    alloc: Global,
    files: &mut F,
    console: &mut Console<O, E>,
    given: Given<'_>,
    path: &str,
) -> Status
    // No file is replaced.
    ensures { F.replaced files.new ≡ F.replaced files.old }
{
    match list_all(alloc, files, console, given, path) {
        Ok(status) => console.end(alloc, status),
        Err(AllocError) => console.out_of_memory(),
    }
}

fn list_all<F: FileSystem, O: Write + Drop, E: Write + Drop>(
    alloc: Global,
    files: &mut F,
    console: &mut Console<O, E>,
    given: Given<'_>,
    path: &str,
) -> Result<Status, AllocError>
    ensures { F.replaced files.new ≡ F.replaced files.old }
{
    let supply = supply_for(alloc, files, given, path)?;
    let read = files.read(alloc, path);
    let context = supply.context(alloc, given.report);
    list_supplied(console, &supply, context, path, read)
}

/// The same of what was read, with the packages.
fn list_supplied<O: Write + Drop, E: Write + Drop>(
    console: &mut Console<O, E>,
    supply: &Supply,
    context: Context<'_>,
    path: &str,
    read: Result<Vec<u8>, FileError>,
) -> Result<Status, AllocError> {
    let mut tally = Tally::new(context.alloc);
    supply.begin(console, context, &mut tally)?;
    let status = match read {
        Ok(bytes) => {
            supply.tell_mentioned(console, context, &mut tally, bytes.as_slice())?;
            let status = list_bytes(console, context, path, bytes.as_slice())?;
            if status != Status::Well {
                supply.tell_unread(console, context, &mut tally)?;
            }
            status
        }
        Err(error) => {
            let outcome = console.failed(context.alloc, context.report, path, error);
            outcome.status(Action::Check)
        }
    };
    Ok(status.or(tally.status()))
}

/// Writes the lines of the document of bytes, or reports what is wrong with them.
fn list_bytes<O: Write + Drop, E: Write + Drop>(
    console: &mut Console<O, E>,
    context: Context<'_>,
    path: &str,
    bytes: &[u8],
) -> Result<Status, AllocError> {
    match list_of(context, bytes) {
        Ok(Listed::Lines(lines, all_found)) => {
            console.write(lines.as_bytes());
            Ok(if all_found {
                Status::Well
            } else {
                Status::Wrong
            })
        }
        Ok(Listed::Rejected(diagnostic)) => {
            let file = SourceFile { path, text: bytes };
            let outcome = reject(console, context, &file, &diagnostic)?;
            Ok(outcome.status(Action::Check))
        }
        Err(_) => Err(AllocError),
    }
}

fn list_of(context: Context<'_>, bytes: &[u8]) -> Result<Listed, AllocError> {
    match flat_text(context.alloc, bytes) {
        Ok(Reading::Text(text)) => listed_text(context, text),
        Ok(Reading::Rejected(diagnostic)) => Ok(Listed::Rejected(diagnostic)),
        Err(_) => Err(AllocError),
    }
}

fn listed_text(context: Context<'_>, text: &str) -> Result<Listed, AllocError> {
    match Document::parse(context.alloc, text) {
        Ok(document) => listed_document(
            Page {
                document: &document,
            },
            context,
        ),
        Err(error) => Ok(Listed::Rejected(syntax_diagnostic(context.alloc, text, &error)?)),
    }
}

/// A line for each package that a document mentions.
fn listed_document(page: Page<'_, '_>, context: Context<'_>) -> Result<Listed, AllocError> {
    let Page { document } = page;
    let mentioned = packages(context.alloc, document)?;
    lines_of(context, &mentioned)
}

/// A line for each of these packages.
fn lines_of(
    context: Context<'_>,
    mentioned: &IndexMap<PackageKey, SourceSpan>,
) -> Result<Listed, AllocError> {
    let mut lines = String::new(context.alloc);
    let mut all_found = true;
    for (key, _) in mentioned.iter() {
        let found = push_line(&mut lines, context.known, key)?;
        all_found = all_found && found;
    }
    Ok(Listed::Lines(lines, all_found))
}

/// Appends the line of a package. Returns whether a file declares it.
fn push_line(
    out: &mut String,
    known: KnownPackages<'_>,
    key: &PackageKey,
) -> Result<bool, AllocError> {
    push_key(out, key)?;
    match known.document_of(key) {
        Some(file) => {
            out.push_str(" found ")?;
            push_shown(out, file)?;
            out.push('\n')?;
            Ok(true)
        }
        None => {
            out.push_str(" missing\n")?;
            Ok(false)
        }
    }
}
