// Calls of words.
ghost use Rattle.std.specs.Prelude.{IsUtf8};
ghost use Rattle.wac_calls.specs.Calls.{Answered, Comes, Says};

use crate::answer::{Answer, tell};
use crate::commands::commanded;
use crate::first_errors::first_errors;
use crate::nesting::first_deeper;
use crate::outcome::Outcome;
use crate::tidying::tidied;
use crate::word::Word;
use std::alloc::Global;

/// The limit of nested brackets for callers who have no reason for another one. A thread with a stack of 512 KB
/// suffices for it.
pub const DEFAULT_LIMIT: usize = 256;

/// What is to be done with a text.
#[derive(Clone, Copy, Debug)]
pub struct Task {
    /// What is done with it.
    pub word: Word,
    /// How deep brackets may be nested, a brace counting as two levels and each other bracket as one.
    pub limit: usize,
}

/// Puts into a room what a word makes of a text, or else into the room for a message why it makes nothing of it.
///
/// Each room gets as much as fits, in whole characters, and keeps the bytes after that. A text whose brackets are
/// nested deeper than the limit is rejected before anything recurses. Memory is taken for the text, its document and
/// what is written, and given back; nothing is kept between calls.
///
/// ```text
/// let task = Task { word: Word::Wac(Command::Fmt), limit: DEFAULT_LIMIT };
/// call(alloc, task, b"package a:b; ", &mut out, &mut message)     // written: 14, needed: 14, out: "package a:b;\n\n"
/// call(alloc, task, b"package a:b", &mut out, &mut message)       // message: "expected `;`, found end of input"
/// ```
pub fn call(alloc: Global, task: Task, text: &[u8], out: &mut [u8], message: &mut [u8]) -> Answer
    ensures { Answered task text.now result out.old out.new message.old message.new }
{
    let outcome = outcome_of(alloc, task, text);
    tell(&outcome, out, message)
}

/// What a word comes to for bytes.
fn outcome_of(alloc: Global, task: Task, text: &[u8]) -> Outcome
    ensures { Comes task text.now result }
{
    match str::from_utf8(text) {
        Ok(source) => outcome_of_text(alloc, task, source),
        Err(_) => said_of_bytes(alloc, task.word, text),
    }
}

/// What a word comes to for a text.
fn outcome_of_text(alloc: Global, task: Task, source: &str) -> Outcome
    requires { IsUtf8 source.now }
    ensures { Comes task source.now result }
{
    match first_deeper(source, task.limit) {
        Some(span) => Outcome::NestedTooDeep { span },
        None => said_of_text(alloc, task.word, source),
    }
}

/// What a word comes to for a text whose brackets are nested no deeper than the limit.
fn said_of_text(alloc: Global, word: Word, source: &str) -> Outcome
    requires { IsUtf8 source.now }
    ensures { Says word source.now result }
{
    match word {
        Word::Wac(command) => commanded(alloc, command, source),
        Word::Tidy => tidied(alloc, source),
        Word::Errors => first_errors(alloc, source.as_bytes()),
    }
}

/// What a word comes to for bytes that are no text.
fn said_of_bytes(alloc: Global, word: Word, bytes: &[u8]) -> Outcome
    requires { ¬ (IsUtf8 bytes.now) }
    ensures { Says word bytes.now result }
{
    match word {
        Word::Wac(_) | Word::Tidy => Outcome::NotUtf8,
        Word::Errors => first_errors(alloc, bytes),
    }
}
