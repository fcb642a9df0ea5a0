//! The program `wac_fmt`: the command `fmt` of `wac` alone, built on the formatter's crates and none of the resolver's.
#![tactic(auto)]

use std::io::{self, ErrorKind, Write};
use std::process::ExitCode;
use wac_ast::Error;
use wac_lexer::SourceSpan;
use wac_printer::format;

/// Why no formatted text was written.
#[derive(Debug, Drop)]
enum Failure {
    /// The text is no document.
    Rejected(Error),
    /// Standard input failed.
    Input,
    /// Standard input is not UTF-8.
    NotUtf8,
    /// Standard output failed.
    Output,
    /// A request for memory failed.
    Memory,
}

fn main(rt: HostRuntime) -> ExitCode {
    match work(&rt) {
        Ok(()) => ExitCode::SUCCESS,
        Err(failure) => {
            // Where standard error fails too, the status alone is left.
            let _ = report(&rt, &failure);
            ExitCode::from(status_of(&failure))
        }
    }
}

/// Writes the document of standard input to standard output, in the one layout.
fn work(rt: &HostRuntime) -> Result<(), Failure> {
    let source = read(rt)?;
    let text = match format(rt.alloc(), &source, None) {
        Ok(text) => text,
        Err(Error::Memory(_)) => return Err(Failure::Memory),
        Err(error) => return Err(Failure::Rejected(error)),
    };
    match rt.stdout().write_all(text.as_bytes()) {
        Ok(()) => Ok(()),
        Err(_) => Err(Failure::Output),
    }
}

/// The text of standard input.
fn read(rt: &HostRuntime) -> Result<String, Failure> {
    match io::read_to_string(rt.alloc(), rt.stdin()) {
        Ok(source) => Ok(source),
        Err(error) if error.kind() == ErrorKind::OutOfMemory => Err(Failure::Memory),
        Err(error) if error.kind() == ErrorKind::InvalidData => Err(Failure::NotUtf8),
        Err(_) => Err(Failure::Input),
    }
}

/// The program's status after a failure.
fn status_of(failure: &Failure) -> u8 {
    match failure {
        Failure::Rejected(_) => 1,
        Failure::Input | Failure::NotUtf8 | Failure::Output => 3,
        Failure::Memory => 4,
    }
}

/// Writes a line on a failure to standard error.
fn report(rt: &HostRuntime, failure: &Failure) -> io::Result<()> {
    match failure {
        Failure::Rejected(error) => report_rejected(rt, error),
        Failure::Input => eprintln!(rt; "input failed"),
        Failure::NotUtf8 => eprintln!(rt; "input is not UTF-8"),
        Failure::Output => eprintln!(rt; "output failed"),
        Failure::Memory => eprintln!(rt; "out of memory"),
    }
}

/// Writes where a text is rejected, and why.
fn report_rejected(rt: &HostRuntime, error: &Error) -> io::Result<()> {
    match place_of(error) {
        Some(span) => {
            let offset = span.offset();
            let len = span.len();
            eprintln!(rt; "error at {offset}+{len}: {error}")
        }
        None => eprintln!(rt; "error: {error}"),
    }
}

/// Where an error lies.
fn place_of(error: &Error) -> Option<SourceSpan> {
    match error {
        Error::Lexer { span, .. }
        | Error::Expected { span, .. }
        | Error::ExpectedEither { span, .. }
        | Error::ExpectedMultiple { span, .. }
        | Error::EmptyType { span, .. }
        | Error::InvalidVersion { span, .. } => Some(*span),
        Error::Memory(_) => None,
    }
}
