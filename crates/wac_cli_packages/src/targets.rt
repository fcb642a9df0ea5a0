// `wacx targets`.
ghost use Rattle.std.specs.Prelude.{◌≡◌};

use crate::options::{Context, Given};
use crate::requests::TargetRequest;
use crate::supply::{Supply, supply_for};
use crate::tally::Tally;
use crate::telling::reject;
use crate::verdicts::first_error_of;
use crate::worlds::{Wanted, wanted_of};
use std::alloc::{AllocError, Global};
use std::io::Write;
use wac_cli_console::{Action, Console, SourceFile, Status};
use wac_component_reading::{Converted, component_package, misfit};
use wac_diagnostics::Diagnostic;
use wac_files::{FileError, FileSystem};
use wac_graph::Package;

/// What was read of the two files.
#[derive(Drop)]
struct Read {
    component: Result<Vec<u8>, FileError>,
    document: Result<Vec<u8>, FileError>,
}

/// A document, and the world that is wanted of it.
#[derive(Drop)]
struct World {
    document: Vec<u8>,
    wanted: Wanted,
}

/// Reports whether a component fits a world: nothing is written where it does, and else the first place where it
/// doesn't. `given` has the packages that the world's document may mention.
///
/// The component may import what the world imports and the interfaces whose types the world's items use, and has to
/// export what the world exports; each fits by the component model's rules.
pub fn check_target<F: FileSystem, O: Write + Drop, E: Write + Drop>(
    alloc: Global,
    files: &mut F,
    console: &mut Console<O, E>,
    given: Given<'_>,
    request: TargetRequest<'_>,
) -> Status
    // No file is replaced.
    ensures { F.replaced files.new ≡ F.replaced files.old }
{
    match check_all(alloc, files, console, given, request) {
        Ok(status) => console.end(alloc, status),
        Err(AllocError) => console.out_of_memory(),
    }
}

fn check_all<F: FileSystem, O: Write + Drop, E: Write + Drop>(
    alloc: Global,
    files: &mut F,
    console: &mut Console<O, E>,
    given: Given<'_>,
    request: TargetRequest<'_>,
) -> Result<Status, AllocError>
    ensures { F.replaced files.new ≡ F.replaced files.old }
{
    let supply = supply_for(alloc, files, given, request.document)?;
    let component = files.read(alloc, request.component);
    let document = files.read(alloc, request.document);
    let read = Read {
        component,
        document,
    };
    let context = supply.context(alloc, given.report);
    check_supplied(console, &supply, context, request, read)
}

/// The same of what was read, with the packages.
fn check_supplied<O: Write + Drop, E: Write + Drop>(
    console: &mut Console<O, E>,
    supply: &Supply,
    context: Context<'_>,
    request: TargetRequest<'_>,
    read: Read,
) -> Result<Status, AllocError> {
    let Read {
        component,
        document,
    } = read;
    let mut tally = Tally::new(context.alloc);
    supply.begin(console, context, &mut tally)?;
    let status = match document {
        Ok(document) => {
            let found = first_error_of(console, supply, context, &mut tally, document.as_slice());
            let wanted = wanted_of(context.alloc, found?, request.world)?;
            let world = World { document, wanted };
            check_world(console, context, request, component, world)?
        }
        Err(error) => check_alone(console, context, request, component, error),
    };
    Ok(status.or(tally.status()))
}

/// Reports what can't be read, which the document is.
fn check_alone<O: Write + Drop, E: Write + Drop>(
    console: &mut Console<O, E>,
    context: Context<'_>,
    request: TargetRequest<'_>,
    component: Result<Vec<u8>, FileError>,
    error: FileError,
) -> Status {
    let status = match component {
        Ok(_) => Status::Well,
        Err(error) => fail(console, context, request.component, error),
    };
    status.or(fail(console, context, request.document, error))
}

/// Compares the component that was read with a world.
fn check_world<O: Write + Drop, E: Write + Drop>(
    console: &mut Console<O, E>,
    context: Context<'_>,
    request: TargetRequest<'_>,
    component: Result<Vec<u8>, FileError>,
    world: World,
) -> Result<Status, AllocError> {
    match component {
        Ok(component) => check_bytes(console, context, request, component.as_slice(), &world),
        Err(error) => Ok(fail(console, context, request.component, error)),
    }
}

/// Reports that a file can't be read.
fn fail<O: Write + Drop, E: Write + Drop>(
    console: &mut Console<O, E>,
    context: Context<'_>,
    path: &str,
    error: FileError,
) -> Status {
    let outcome = console.failed(context.alloc, context.report, path, error);
    outcome.status(Action::Check)
}

/// Compares the component that bytes are with a world.
fn check_bytes<O: Write + Drop, E: Write + Drop>(
    console: &mut Console<O, E>,
    context: Context<'_>,
    request: TargetRequest<'_>,
    component: &[u8],
    world: &World,
) -> Result<Status, AllocError> {
    match component_package(context.alloc, component, None) {
        Ok(Converted::Package(component)) => {
            check_component(console, context, request, &component, world)
        }
        Ok(Converted::Rejected(diagnostic)) => {
            reject_component(console, context, request, &diagnostic)?;
            reject_world(console, context, request, world)
        }
        Err(_) => Err(AllocError),
    }
}

/// Reports what is wrong with the component.
fn reject_component<O: Write + Drop, E: Write + Drop>(
    console: &mut Console<O, E>,
    context: Context<'_>,
    request: TargetRequest<'_>,
    diagnostic: &Diagnostic,
) -> Result<Status, AllocError> {
    let file = SourceFile {
        path: request.component,
        text: b"",
    };
    let outcome = reject(console, context, &file, diagnostic)?;
    Ok(outcome.status(Action::Check))
}

/// Compares a component with a world.
fn check_component<O: Write + Drop, E: Write + Drop>(
    console: &mut Console<O, E>,
    context: Context<'_>,
    request: TargetRequest<'_>,
    component: &Package,
    world: &World,
) -> Result<Status, AllocError> {
    let Wanted::World(expected, name) = &world.wanted else {
        return reject_world(console, context, request, world);
    };
    match misfit_of(context.alloc, component, expected, name.as_str())? {
        None => Ok(Status::Well),
        Some(found) => reject_component(console, context, request, &found),
    }
}

/// Reports what is wrong with the document of a world, if something is. Returns the status where none of it is compared.
fn reject_world<O: Write + Drop, E: Write + Drop>(
    console: &mut Console<O, E>,
    context: Context<'_>,
    request: TargetRequest<'_>,
    world: &World,
) -> Result<Status, AllocError> {
    if let Wanted::Rejected(diagnostic) = &world.wanted {
        let file = SourceFile {
            path: request.document,
            text: world.document.as_slice(),
        };
        reject(console, context, &file, diagnostic)?;
    }
    Ok(Status::Wrong)
}

/// Where a component doesn't fit a world, if it doesn't.
fn misfit_of(
    alloc: Global,
    component: &Package,
    expected: &Package,
    name: &str,
) -> Result<Option<Diagnostic>, AllocError> {
    match misfit(alloc, component, expected)? {
        None => Ok(None),
        Some(place) => {
            let message = format!(in alloc;
                "the component doesn't fit the world `{name}`: {place}"
            )?;
            Ok(Some(Diagnostic::without_place("wac::component-misfit", message)))
        }
    }
}
