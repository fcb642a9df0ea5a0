// Tidying.
ghost use Rattle.wac_calls.specs.Tidying.{IsNotKept, SaysTidy, SaysUntidied};

use crate::diagnostics::unparsed;
use crate::outcome::Outcome;
use std::alloc::Global;
use wac_comments::{Options, TidyError, tidy};

/// What tidying comes to for a text, with four blanks for a level, and LF.
pub(crate) fn tidied(alloc: Global, source: &str) -> Outcome
    ensures { SaysTidy source.now result }
{
    match tidy(alloc, source, Options::default()) {
        Ok(text) => Outcome::Written(text.into_bytes()),
        Err(error) => untidied(alloc, error),
    }
}

/// What tidying comes to that fails.
fn untidied(alloc: Global, why: TidyError) -> Outcome
    ensures { SaysUntidied why result }
{
    match why {
        TidyError::Parse(error) => unparsed(alloc, &error),
        TidyError::NestedTooDeep { span } => Outcome::NestedTooDeep { span },
        TidyError::NotKept => not_kept(alloc),
        TidyError::Memory(_) => Outcome::OutOfMemory,
    }
}

/// What is said where the comments could not be kept. No text is known that leads here.
fn not_kept(alloc: Global) -> Outcome
    ensures { IsNotKept result }
{
    match String::from_str(alloc, "the comments could not be kept") {
        Ok(message) => Outcome::Rejected {
            span: None,
            message,
        },
        Err(_) => Outcome::OutOfMemory,
    }
}
