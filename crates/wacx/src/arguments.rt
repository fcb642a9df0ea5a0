// The words of the command line.
use std::alloc::{AllocError, Global};
use std::env::{Env, FillError};
use wac_excerpts::push_shown;

/// The words of the command line.
///
/// A word that is not UTF-8 has U+FFFD in the place of what isn't, and is listed a second time: files can't be opened by
/// such a name.
#[derive(Drop)]
pub(crate) struct Words {
    texts: Vec<String>,
    not_utf8: Vec<String>,
}

impl Words {
    /// The words that the process was started with, its name first.
    pub(crate) fn of_process<R: Env + Alloc<A = Global>>(rt: &R) -> Result<Words, AllocError> {
        let alloc = rt.alloc();
        let mut words = Words {
            texts: Vec::new(alloc),
            not_utf8: Vec::new(alloc),
        };
        for at in 0..usize::MAX {
            match read_word(rt, alloc, at)? {
                Some(bytes) => words.add(alloc, bytes.as_slice())?,
                None => break,
            }
        }
        Ok(words)
    }

    fn add(&mut self, alloc: Global, bytes: &[u8]) -> Result<(), AllocError> {
        match str::from_utf8(bytes) {
            Ok(text) => self.texts.push(String::from_str(alloc, text)?)?,
            Err(_) => {
                let shown = String::from_utf8_lossy(alloc, bytes)?;
                self.texts.push(String::from_str(alloc, shown.as_str())?)?;
                self.not_utf8
                    .push(String::from_str(alloc, shown.as_str())?)?;
            }
        }
        Ok(())
    }

    /// The words, the program's name first.
    pub(crate) fn texts(&self) -> &[String] {
        self.texts.as_slice()
    }

    /// The words as they are shown: with U+FFFD for what a terminal could take for a command.
    pub(crate) fn shown(&self, alloc: Global) -> Result<Vec<String>, AllocError> {
        let mut all = Vec::with_capacity(alloc, self.texts.len())?;
        for text in self.texts.as_slice() {
            let mut shown = String::new(alloc);
            push_shown(&mut shown, text.as_str())?;
            all.push(shown)?;
        }
        Ok(all)
    }

    /// Whether a word may stand for one that is not UTF-8.
    pub(crate) fn is_lossy(&self, word: &str) -> bool {
        self.not_utf8
            .as_slice()
            .iter()
            .any(|lossy| lossy.as_str() == word)
    }
}

/// A word of the process, if there are so many.
fn read_word<R: Env>(rt: &R, alloc: Global, at: usize) -> Result<Option<Vec<u8>>, AllocError> {
    let mut len = 256usize;
    let mut bytes = Vec::new(alloc);
    for _ in 0..usize::BITS {
        bytes.resize(len, 0u8)?;
        match rt.arg(at, bytes.as_mut_slice()) {
            Ok(filled) => {
                bytes.truncate(filled);
                return Ok(Some(bytes));
            }
            Err(FillError::NotPresent) => return Ok(None),
            Err(FillError::TooLong) => len = len.saturating_mul(2),
        }
    }
    Err(AllocError)
}
