// Words, and their numbers.
ghost use Rattle.std.specs.Prelude.{◌≡◌, ◌≢◌, IfSome, IfNone};
ghost use Rattle.wac_calls.specs.declared.word.Word.{Word};
ghost use Rattle.wac_calls.specs.Numbers.{word_number};

use wac_tool::Command;

/// What is done with a text.
#[derive(Clone, Copy, Debug)]
pub enum Word {
    /// What a command of `wac` does.
    Wac(Command),
    /// Prints the document in the one layout with every comment in its place, as `wacx fmt` does.
    Tidy,
    /// Writes the first error as a line of JSON, as `wacx check --output json` does, or nothing where there is none.
    Errors,
}

/// The word of a number: from 0 on `tokens`, `fmt`, `json`, `resolve`, `packages`, `check`, tidying and errors.
pub fn word_of(number: u32) -> Option<Word>
    ensures numbered { IfSome result (λ word. number ≡ word_number word) }
    ensures unnumbered { IfNone result ((word : Word) → number ≢ word_number word) }
{
    match number {
        0 => Some(Word::Wac(Command::Tokens)),
        1 => Some(Word::Wac(Command::Fmt)),
        2 => Some(Word::Wac(Command::Json)),
        3 => Some(Word::Wac(Command::Resolve)),
        4 => Some(Word::Wac(Command::Packages)),
        5 => Some(Word::Wac(Command::Check)),
        6 => Some(Word::Tidy),
        7 => Some(Word::Errors),
        _ => None,
    }
}
