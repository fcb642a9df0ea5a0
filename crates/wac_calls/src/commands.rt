// Commands of `wac`.
ghost use Rattle.std.specs.Prelude.{IfOk, IfErr};
ghost use Rattle.wac_tool.specs.Running.{Writes};
ghost use Rattle.wac_calls.specs.Commands.{Fails, SaysCommand, SaysFailed};

use crate::feed::Text;
use crate::outcome::Outcome;
use std::alloc::Global;
use wac_lexer::Bytes;
use wac_tool::{Command, RunError, run};

/// What a command comes to for a text.
pub(crate) fn commanded(alloc: Global, command: Command, source: &str) -> Outcome
    ensures { SaysCommand command source.now result }
{
    match written_by(alloc, command, source) {
        Ok(text) => Outcome::Written(text),
        Err(error) => failed(error),
    }
}

/// What a command writes.
fn written_by(alloc: Global, command: Command, source: &str) -> Result<Vec<u8>, RunError>
    ensures ok { IfOk result (λ written. Writes command source.now written.items) }
    ensures err { IfErr result (λ error. Fails command source.now error) }
{
    let mut reader = Text::new(source.as_bytes());
    let mut writer = Bytes::new(alloc);
    match run(alloc, command, &mut reader, &mut writer) {
        Ok(()) => Ok(writer.into_vec()),
        Err(error) => Err(error),
    }
}

/// What a command comes to that fails. What is written is kept in memory, so a writer that fails is out of it.
fn failed(why: RunError) -> Outcome
    ensures { SaysFailed why result }
{
    match why {
        RunError::Refused { span, text } => Outcome::Rejected {
            span,
            message: text,
        },
        RunError::NotUtf8 => Outcome::NotUtf8,
        RunError::Input | RunError::Output | RunError::Memory(_) => Outcome::OutOfMemory,
    }
}
