//! The program `wac`: one word says what it does with standard input.
#![tactic(auto)]

use std::alloc::AllocError;
use std::env;
use std::io::ErrorKind;
use std::process::ExitCode;
use wac_lexer::{In, Out};
use wac_tool::{Command, RunError, report, run};

fn main(rt: HostRuntime) -> ExitCode {
    match work(&rt) {
        Ok(()) => ExitCode::SUCCESS,
        Err(rejection) => ExitCode::from(report(rejection.as_ref(), &mut Out::new(rt.stderr()))),
    }
}

/// Does what the word says. The error is `None` where there is not just one word, or no command of that name.
fn work(rt: &HostRuntime) -> Result<(), Option<RunError>> {
    match command(rt) {
        Ok(Some(command)) => perform(rt, command).map_err(Some),
        Ok(None) => Err(None),
        Err(error) => Err(Some(error.into())),
    }
}

/// The command that the program's only word names.
fn command(rt: &HostRuntime) -> Result<Option<Command>, AllocError> {
    let mut words = match env::args(rt) {
        Ok(words) => words.skip(1),
        Err(error) if error.kind() == ErrorKind::OutOfMemory => return Err(AllocError),
        Err(_) => return Ok(None),
    };
    match (words.next(), words.next()) {
        (Some(word), None) => Ok(Command::named(&word)),
        _ => Ok(None),
    }
}

/// Reads standard input, and writes what the command makes of it to standard output.
fn perform(rt: &HostRuntime, command: Command) -> Result<(), RunError> {
    let mut reader = In::new(rt.stdin());
    let mut writer = Out::new(rt.stdout());
    run(rt.alloc(), command, &mut reader, &mut writer)
}
