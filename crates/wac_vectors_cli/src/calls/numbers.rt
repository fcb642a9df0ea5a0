// Numbers of words and statuses.
use std::test::Fail;
use wac_calls::{Command, Status, Word, word_of};

/// A letter for the word of a number.
fn letter(number: u32) -> char {
    match word_of(number) {
        Some(Word::Wac(Command::Tokens)) => 't',
        Some(Word::Wac(Command::Fmt)) => 'f',
        Some(Word::Wac(Command::Json)) => 'j',
        Some(Word::Wac(Command::Resolve)) => 'r',
        Some(Word::Wac(Command::Packages)) => 'p',
        Some(Word::Wac(Command::Check)) => 'c',
        Some(Word::Tidy) => 'T',
        Some(Word::Errors) => 'E',
        None => '-',
    }
}

#[test]
fn words_have_numbers(rt: HostRuntime) -> Result<(), Fail> {
    let mut letters = String::new(rt.alloc());
    for number in 0..9 {
        letters.push(letter(number))?;
    }
    letters.push(letter(u32::MAX))?;
    assert!(rt; letters.as_str() == "tfjrpcTE--", "{letters}");
    Ok(())
}

static STATUSES: [Status; 7] = [
    Status::Well,
    Status::Rejected,
    Status::Unknown,
    Status::NotUtf8,
    Status::OutOfMemory,
    Status::NestedTooDeep,
    Status::BadPackage,
];

#[test]
fn statuses_have_numbers(rt: HostRuntime) -> Result<(), Fail> {
    let are_in_order = STATUSES
        .iter()
        .enumerate()
        .all(|(place, status)| status.number() as usize == place);
    assert!(rt; are_in_order);
    Ok(())
}
