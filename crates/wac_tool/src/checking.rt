//! Testing whether a document has the one layout.
ghost use Rattle.std.specs.Prelude.{◌≡◌, ℕ, List, IsUtf8};
ghost use Rattle.wac_tool.specs.Running.{Answers, IsUnformatted, input_failures, output_failures};
ghost use Rattle.wac_tool.specs.declared.command.Command.TheVariants as commands;

use crate::error::RunError;
use crate::refusing::refusal;
use std::alloc::{AllocError, Global};
use wac_printer::format;

/// Rejects a source that isn't the text that its own document is printed as. Nothing is written.
pub(crate) fn check(alloc: Global, source: &str) -> Result<(), RunError>
    requires { IsUtf8 source.now }
    ensures answers { (written : List ℕ) → Answers commands.Check result source.now written written }
    ensures input { input_failures result ≡ 0 }
    ensures output { output_failures result ≡ 0 }
{
    let text = match format(alloc, source, None) {
        Ok(text) => text,
        Err(error) => return Err(refusal(alloc, error)),
    };
    if text.as_str() == source {
        Ok(())
    } else {
        Err(unformatted(alloc))
    }
}

/// What is returned for a document that has another layout.
fn unformatted(alloc: Global) -> RunError
    ensures { IsUnformatted result }
{
    match String::from_str(alloc, "not formatted") {
        Ok(text) => RunError::Refused { span: None, text },
        Err(_) => RunError::Memory(AllocError),
    }
}
