// `wacx graph`.
ghost use Rattle.std.specs.Prelude.{◌≡◌};

use crate::graphs::drawn_of;
use crate::options::{Context, Given};
use crate::requests::GraphRequest;
use crate::supply::{Supply, supply_for};
use crate::tally::Tally;
use crate::telling::reject;
use crate::verdicts::first_error_of;
use std::alloc::{AllocError, Global};
use std::io::Write;
use wac_cli_console::{Action, Console, SourceFile, Status};
use wac_files::{FileError, FileSystem};
use wac_graph::CompositionGraph;
use wac_package_errors::Composed;

/// Writes the graph of a document, which is resolved with the packages that other files declare; or reports its first
/// error, and those of these files.
pub fn show_graph<F: FileSystem, O: Write + Drop, E: Write + Drop>(
    alloc: Global,
    files: &mut F,
    console: &mut Console<O, E>,
    given: Given<'_>,
    request: GraphRequest<'_>,
) -> Status
    // No file is replaced.
    ensures { F.replaced files.new ≡ F.replaced files.old }
{
    match show_all(alloc, files, console, given, request) {
        Ok(status) => console.end(alloc, status),
        Err(AllocError) => console.out_of_memory(),
    }
}

fn show_all<F: FileSystem, O: Write + Drop, E: Write + Drop>(
    alloc: Global,
    files: &mut F,
    console: &mut Console<O, E>,
    given: Given<'_>,
    request: GraphRequest<'_>,
) -> Result<Status, AllocError>
    ensures { F.replaced files.new ≡ F.replaced files.old }
{
    let supply = supply_for(alloc, files, given, request.path)?;
    let read = files.read(alloc, request.path);
    let context = supply.context(alloc, given.report);
    show_supplied(console, &supply, context, request, read)
}

/// The same of what was read, with the packages.
fn show_supplied<O: Write + Drop, E: Write + Drop>(
    console: &mut Console<O, E>,
    supply: &Supply,
    context: Context<'_>,
    request: GraphRequest<'_>,
    read: Result<Vec<u8>, FileError>,
) -> Result<Status, AllocError> {
    let mut tally = Tally::new(context.alloc);
    supply.begin(console, context, &mut tally)?;
    let status = match read {
        Ok(bytes) => {
            let file = SourceFile {
                path: request.path,
                text: bytes.as_slice(),
            };
            show_file(console, supply, context, &mut tally, (request, &file))?
        }
        Err(error) => {
            let outcome = console.failed(context.alloc, context.report, request.path, error);
            outcome.status(Action::Check)
        }
    };
    Ok(status.or(tally.status()))
}

/// Writes the graph of a file, or reports its first error.
fn show_file<O: Write + Drop, E: Write + Drop>(
    console: &mut Console<O, E>,
    supply: &Supply,
    context: Context<'_>,
    tally: &mut Tally,
    shown: (GraphRequest<'_>, &SourceFile<'_>),
) -> Result<Status, AllocError> {
    let (request, file) = shown;
    match first_error_of(console, supply, context, tally, file.text) {
        Ok(Composed::Resolved(graph)) => write_graph(console, context, request, file, &graph),
        Ok(Composed::Unresolved) => Ok(Status::Wrong),
        Ok(Composed::Rejected(diagnostic)) => {
            let outcome = reject(console, context, file, &diagnostic)?;
            Ok(outcome.status(Action::Check))
        }
        Err(_) => Err(AllocError),
    }
}

/// Writes the graph of the document of a file.
fn write_graph<O: Write + Drop, E: Write + Drop>(
    console: &mut Console<O, E>,
    context: Context<'_>,
    request: GraphRequest<'_>,
    file: &SourceFile<'_>,
    graph: &CompositionGraph,
) -> Result<Status, AllocError> {
    let shown = drawn_of(context.alloc, file.text, graph, request.form)?;
    console.write(shown.as_slice());
    Ok(Status::Well)
}
