//! Bytes as a text.
use std::alloc::{AllocError, Global};
use std::borrow::CowStr;

/// The text that bytes are, or where they are not UTF-8, that of the bytes before the first bad one, and U+FFFD for that
/// one.
pub(crate) fn readable(alloc: Global, bytes: &[u8]) -> Result<CowStr<'_, Global>, AllocError> {
    match str::from_utf8(bytes) {
        Ok(text) => Ok(CowStr::Borrowed(text)),
        Err(error) => {
            let (before, _) = bytes.split_at(error.valid_up_to());
            let mut text = String::new(alloc);
            if let Ok(before) = str::from_utf8(before) {
                text.push_str(before)?;
            }
            text.push('\u{fffd}')?;
            Ok(CowStr::Owned(text))
        }
    }
}
