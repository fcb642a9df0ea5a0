//! The program `wac_vectors_component_rows`: of each component that its arguments name a line, with what it is decoded to as
//! JSON, or with what is wrong with it and where. An argument `KEY=FILE` names the component's package too: then the
//! documents follow that declare it, with an empty line before each. An argument `mutants:SEED:COUNT` makes so many mutants
//! of the components that are named before it, and reads each as far as it goes.
#![tactic(auto)]

mod mutants;

use crate::mutants::Mutants;
use std::{env, fs, io};
use wac_components::{DecodeError, Decoded, ErrorKind, Limits, decode};
use wac_components_documents::{DocumentsError, documents_of};
use wac_components_json::{JsonError, to_json};

/// How many steps the printing of a component may take.
const STEPS: u64 = 10_000_000;

fn main(rt: HostRuntime) -> io::Result<()> {
    let mut read = Vec::new(rt.alloc());
    for argument in env::args(&rt)?.skip(1) {
        let argument = argument;
        if let Some(asked) = argument.as_str().strip_prefix("mutants:") {
            print_mutants(&rt, &read, asked)?;
        } else {
            let (key, name) = split_argument(argument.as_str());
            let bytes = fs::read(&rt, name)?;
            print_row(&rt, name, key, bytes.as_slice())?;
            read.push(bytes)?;
        }
    }
    Ok(())
}

/// The key and the name of a component.
fn split_argument(argument: &str) -> (Option<&str>, &str) {
    match argument.split_once('=') {
        Some((key, name)) => (Some(key), name),
        None => (None, argument),
    }
}

/// Reads mutants: `SEED:COUNT` of them.
fn print_mutants(rt: &HostRuntime, read: &Vec<Vec<u8>>, asked: &str) -> io::Result<()> {
    let (seed, count) = match asked.split_once(':') {
        Some((seed, count)) => (number_of(seed), number_of(count)),
        None => (0, 0),
    };
    let mut mutants = Mutants::new(rt.alloc(), seed);
    let mut ended = 0u64;
    for _ in 0..count {
        if reads_mutant(rt, read, &mut mutants)? {
            ended = ended.saturating_add(1);
        }
    }
    println!(rt; "{ended} of {count} mutants ended within their bytes")
}

fn number_of(text: &str) -> u64 {
    match text.parse::<u64>() {
        Ok(number) => number,
        Err(_) => 0,
    }
}

/// Reads a mutant as far as it goes. Whether its error, if it has one, lies within its bytes.
fn reads_mutant(rt: &HostRuntime, read: &Vec<Vec<u8>>, mutants: &mut Mutants) -> io::Result<bool> {
    let first = mutants.below(read.len());
    let second = mutants.below(read.len());
    let (Some(bytes), Some(other)) = (read.get(first), read.get(second)) else {
        return Ok(false);
    };
    let mutant = mutants.mutant(bytes.as_slice(), other.as_slice())?;
    let limits = Limits::for_length(mutant.len());
    match decode(rt.alloc(), mutant.as_slice(), limits) {
        Ok(decoded) => Ok(is_printed(rt, &decoded)),
        Err(error) => Ok(error.offset <= mutant.len() && error.kind != ErrorKind::Memory),
    }
}

/// Whether what is decoded can be printed, or is too large for that.
fn is_printed(rt: &HostRuntime, decoded: &Decoded) -> bool {
    let json = match to_json(rt.alloc(), decoded, STEPS) {
        Ok(_) | Err(JsonError::TooLarge) => true,
        Err(_) => false,
    };
    let documents = match documents_of(rt.alloc(), decoded, None, STEPS) {
        Ok(_) | Err(DocumentsError::TooLarge) => true,
        Err(_) => false,
    };
    json && documents
}

/// The line of a component, and its documents where its package is named.
fn print_row(rt: &HostRuntime, name: &str, key: Option<&str>, bytes: &[u8]) -> io::Result<()> {
    let limits = Limits::for_length(bytes.len());
    match decode(rt.alloc(), bytes, limits) {
        Ok(decoded) => {
            print_json(rt, name, &decoded)?;
            match key {
                Some(key) => print_documents(rt, key, &decoded),
                None => Ok(()),
            }
        }
        Err(error) => print_error(rt, name, error),
    }
}

fn print_json(rt: &HostRuntime, name: &str, decoded: &Decoded) -> io::Result<()> {
    match to_json(rt.alloc(), decoded, STEPS) {
        Ok(text) => println!(rt; "{name} {text}"),
        Err(error) => println!(rt; "{name} {error}"),
    }
}

fn print_documents(rt: &HostRuntime, key: &str, decoded: &Decoded) -> io::Result<()> {
    match documents_of(rt.alloc(), decoded, Some(key), STEPS) {
        Ok(all) => {
            for document in &all.documents {
                let text = document.text.as_str();
                print!(rt; "\n{text}")?;
            }
            Ok(())
        }
        Err(error) => println!(rt; "{key} {error}"),
    }
}

fn print_error(rt: &HostRuntime, name: &str, error: DecodeError) -> io::Result<()> {
    let offset = error.offset;
    let word = word_of(error.kind);
    println!(rt; "{name} error at {offset}: {word}")
}

/// The kind of an error in one word.
fn word_of(kind: ErrorKind) -> &'static str {
    match kind {
        ErrorKind::UnexpectedEnd => "end",
        ErrorKind::Magic => "magic",
        ErrorKind::CoreModule => "core-module",
        ErrorKind::Version => "version",
        ErrorKind::LongNumber => "leb",
        ErrorKind::Count => "count",
        ErrorKind::SectionSize => "size",
        ErrorKind::Section => "section",
        ErrorKind::Opcode => "opcode",
        other => word_of_item(other),
    }
}

fn word_of_item(kind: ErrorKind) -> &'static str {
    match kind {
        ErrorKind::Index => "index",
        ErrorKind::OtherKind => "kind",
        ErrorKind::UnknownName => "name",
        ErrorKind::DuplicateName => "duplicate",
        ErrorKind::Utf8 => "utf8",
        ErrorKind::Depth => "depth",
        ErrorKind::Work => "work",
        ErrorKind::Unsupported => "unsupported",
        _ => "memory",
    }
}
