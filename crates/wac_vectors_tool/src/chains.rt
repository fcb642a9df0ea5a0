//! A chain of types, each of which names the one before it. Chains of other forms are in .ci/programs/large.

use crate::runs::end_of;
use std::alloc::{AllocError, Global};
use std::test::Fail;
use wac_tool::Command;

/// How many types a chain has after its first.
const LINKS: usize = 20_000;

/// Appends a chain of types, whose names begin with a letter.
fn push_chain(text: &mut String, letter: &str, first: &str) -> Result<(), AllocError> {
    write!(text, "type {letter}0 = {first};\n")?;
    for at in 0..LINKS {
        let next = at + 1;
        write!(text, "type {letter}{next} = list<{letter}{at}>;\n")?;
    }
    Ok(())
}

/// A document whose target imports a function of a chain, and which imports one of a chain that begins otherwise.
fn document(alloc: Global) -> Result<String, AllocError> {
    let mut text = String::from_str(alloc, "package a:b targets a:b/w;\nworld w {\n")?;
    push_chain(&mut text, "a", "u8")?;
    write!(text, "import x: func(y: a{LINKS});\n}}\n")?;
    push_chain(&mut text, "b", "u16")?;
    write!(text, "import x: func(y: b{LINKS});")?;
    Ok(text)
}

#[test]
fn chains_that_begin_otherwise_are_rejected(rt: HostRuntime) -> Result<(), Fail> {
    let text = document(rt.alloc())?;
    let mut written = Vec::new(rt.alloc());
    let end = end_of(rt.alloc(), Command::Resolve, text.as_bytes(), &mut written);
    assert!(rt;
        end.word() == "rejected" && written.is_empty(),
        "{}",
        end.word()
    );
    Ok(())
}
