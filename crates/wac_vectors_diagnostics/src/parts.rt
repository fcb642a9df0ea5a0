//! Texts of which a part comes many times.

use std::alloc::{AllocError, Global};

/// Parts of a text, each so many times.
pub(crate) type Parts = &'static [(&'static str, usize)];

/// The text of its parts.
pub(crate) fn joined(alloc: Global, parts: &[(&str, usize)]) -> Result<String, AllocError> {
    let mut text = String::new(alloc);
    for (part, times) in parts {
        text.push_str(part.repeat(alloc, *times)?.as_str())?;
    }
    Ok(text)
}
