// What is said of the file that a command has to do.
use crate::options::Context;
use crate::supply::Supply;
use crate::tally::Tally;
use std::alloc::AllocError;
use std::io::Write;
use wac_cli_console::Console;
use wac_first_error::Reading;
use wac_package_errors::{Composed, first_error_with, flat_text};

/// The code of a mentioned package that is nowhere.
const UNKNOWN_PACKAGE: &str = "wac::unknown-package";

/// The first error of bytes, which are resolved with known packages. What is wrong with the files of packages that they
/// mention is told before, and where one is nowhere, what couldn't be read.
pub(crate) fn first_error_of<O: Write + Drop, E: Write + Drop>(
    console: &mut Console<O, E>,
    supply: &Supply,
    context: Context<'_>,
    tally: &mut Tally,
    bytes: &[u8],
) -> Result<Composed, AllocError> {
    if supply.has_conflicts() {
        supply.tell_mentioned(console, context, tally, bytes)?;
    }
    match first_error_in(context, bytes) {
        Ok(found) => {
            match telling_of(&found) {
                Telling::Mentioned => supply.tell_mentioned(console, context, tally, bytes)?,
                Telling::Unread => supply.tell_unread(console, context, tally)?,
                Telling::Nothing => {}
            }
            Ok(found)
        }
        Err(_) => Err(AllocError),
    }
}

/// What is told beside the first error of a document.
#[derive(Clone, Copy)]
enum Telling {
    /// What is wrong with the files of packages that it mentions.
    Mentioned,
    /// What couldn't be read.
    Unread,
    Nothing,
}

/// What is told beside what a document comes to.
fn telling_of(found: &Composed) -> Telling {
    match found {
        Composed::Unresolved => Telling::Mentioned,
        Composed::Rejected(diagnostic) => telling_of_code(diagnostic.code),
        Composed::Resolved(_) => Telling::Nothing,
    }
}

/// What is told beside an error, by its code.
fn telling_of_code(code: &str) -> Telling {
    if code == UNKNOWN_PACKAGE {
        Telling::Unread
    } else {
        Telling::Nothing
    }
}

/// The first error of bytes.
fn first_error_in(context: Context<'_>, bytes: &[u8]) -> Result<Composed, AllocError> {
    match flat_text(context.alloc, bytes) {
        Ok(Reading::Text(text)) => first_error_with(context.alloc, text, context.known),
        Ok(Reading::Rejected(diagnostic)) => Ok(Composed::Rejected(diagnostic)),
        Err(_) => Err(AllocError),
    }
}
