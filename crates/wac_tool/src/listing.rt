//! Listing the items of a source.
ghost use Rattle.std.specs.Prelude.{◌≡◌, ◌≤◌, ◌<◌, ◌+◌, ◌++◌, ◌∷◌, [], true, false, length, OnOk, IsUtf8, decimal, string_bytes};
ghost use Rattle.wac_ast_base.specs.declared.error.Error.TheVariants as errors;
ghost use Rattle.wac_tool.specs.Front.{AreJoined, Began};
ghost use Rattle.wac_tool.specs.Running.{Answers, IsRefusal, input_failures, output_failures, item_line, place_text};
ghost use Rattle.wac_tool.specs.declared.command.Command.TheVariants.{Tokens};

use crate::error::RunError;
use crate::refusing::refusal;
use itoa::Buffer;
use std::alloc::{AllocError, Global};
use wac_lexer::{Lexer, LexerResult, Sink, SourceSpan, Token, put_all};

/// How many bytes of lines are held before they are put into the sink.
const PART: usize = 4096;

/// Writes a line for each item of a source.
pub(crate) fn write_items<S: Sink>(
    alloc: Global,
    source: &str,
    writer: &mut S,
) -> Result<(), RunError>
    requires { IsUtf8 source.now }
    ensures answers { Answers Tokens result source.now (S.bytes writer.old) (S.bytes writer.new) }
    ensures input { input_failures result ≡ 0 }
    ensures output { S.failures writer.new ≡ S.failures writer.old + output_failures result }
{
    let lexer = match Lexer::new(source) {
        Ok(lexer) => lexer,
        Err(fault) => return Err(faulty(alloc, fault)),
    };
    // Many lines are put at once, and one text serves all of them, so that most lines take neither a call nor memory.
    let mut lines = String::new(alloc);
    for (item, span) in lexer {
        push_line(&mut lines, item, span)?;
        if !put_part(writer, &mut lines) {
            return Err(RunError::Output);
        }
    }
    if put_all(writer, lines.as_bytes()) {
        Ok(())
    } else {
        Err(RunError::Output)
    }
}

/// Puts the lines that are held into a sink, where they are many, and returns whether it took them.
#[inline(always)]
fn put_part<S: Sink>(writer: &mut S, lines: &mut String) -> bool
    ensures put { result ≡ true → AreJoined S.bytes writer.old lines.old writer.new lines.new }
    ensures grows { length (S.bytes writer.old) ≤ length (S.bytes writer.new) }
    ensures works { result ≡ true → S.failures writer.new ≡ S.failures writer.old }
    ensures began { result ≡ false → Began (S.bytes writer.old) (S.bytes writer.new) (string_bytes lines.old) }
    ensures failed { result ≡ false → S.failures writer.new ≡ S.failures writer.old + 1 }
{
    if lines.len() < PART {
        return true;
    }
    if !put_all(writer, lines.as_bytes()) {
        return false;
    }
    lines.clear();
    true
}

/// What is returned for a source with a character that no text may have.
fn faulty(alloc: Global, fault: (wac_lexer::Error, SourceSpan)) -> RunError
    ensures { IsRefusal (errors.Lexer fault.0 fault.1) result }
{
    let (error, span) = fault;
    refusal(alloc, wac_ast::Error::Lexer { error, span })
}

/// Appends the line of an item.
#[inline(always)]
fn push_line(
    lines: &mut String,
    item: LexerResult<Token>,
    span: SourceSpan,
) -> Result<(), AllocError>
    ensures { OnOk result (string_bytes lines.new ≡ string_bytes lines.old ++ item_line item span) }
{
    push_place(lines, span)?;
    match item {
        Ok(token) => lines.push_str(token.name())?,
        Err(fault) => write!(lines, "{fault}")?,
    }
    lines.push('\n')
}

/// Appends the place of an item: `OFFSET+LEN` and a blank.
#[inline(always)]
fn push_place(lines: &mut String, span: SourceSpan) -> Result<(), AllocError>
    ensures { OnOk result (string_bytes lines.new ≡ string_bytes lines.old ++ place_text span) }
{
    let mut number = Buffer::new();
    lines.push_str(number.format(span.offset()))?;
    lines.push('+')?;
    push_len(lines, span.len())?;
    lines.push(' ')
}

/// Appends the digits of a length. Most have one digit, which is appended as it is.
#[inline(always)]
fn push_len(lines: &mut String, len: usize) -> Result<(), AllocError>
    ensures { OnOk result (string_bytes lines.new ≡ string_bytes lines.old ++ decimal len) }
{
    if len < 10 {
        return push_digit(lines, len);
    }
    let mut number = Buffer::new();
    lines.push_str(number.format(len))
}

/// Appends the digit of a number that has one.
#[inline(always)]
fn push_digit(lines: &mut String, number: usize) -> Result<(), AllocError>
    requires { number < 10 }
    ensures { OnOk result (string_bytes lines.new ≡ string_bytes lines.old ++ (48 + number) ∷ []) }
{
    lines.push(char::from(b'0' + number as u8))
}
