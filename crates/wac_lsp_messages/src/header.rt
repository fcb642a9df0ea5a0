//! The header of a message.
use thiserror::Error;

/// Why bytes are no header.
#[derive(Clone, Copy, Debug, Drop, PartialEq, Eq, Error)]
pub enum HeaderError {
    /// A line of the header has no colon, or the header isn't ASCII.
    #[error("a line of the header has no colon")]
    NoField,
    /// No field of the header is the length.
    #[error("the header has no Content-Length")]
    NoLength,
    /// The length is no number, or there are two.
    #[error("the Content-Length is no number")]
    BadLength,
    /// The length has more digits than a number of bytes.
    #[error("the Content-Length is more than 64 MB")]
    TooLong,
    /// The header doesn't end within 8 KB.
    #[error("the header is longer than 8 KB")]
    Endless,
}

/// Whether a character is blank space around the value of a field.
fn is_blank(character: char) -> bool {
    character == ' ' || character == '\t'
}

/// A length in decimal digits.
fn length_of(value: &str) -> Result<usize, HeaderError> {
    let digits = value.trim_matches(is_blank);
    if digits.is_empty() || !digits.as_bytes().iter().all(|byte| byte.is_ascii_digit()) {
        return Err(HeaderError::BadLength);
    }
    match digits.parse::<usize>() {
        Ok(len) => Ok(len),
        Err(_) => Err(HeaderError::TooLong),
    }
}

/// The length that a line gives, if it is that field.
fn length_in_line(line: &str) -> Result<Option<usize>, HeaderError> {
    let Some((name, value)) = line.split_once(':') else {
        return Err(HeaderError::NoField);
    };
    if name.eq_ignore_ascii_case("content-length") {
        Ok(Some(length_of(value)?))
    } else {
        Ok(None)
    }
}

/// The length of the body that a header announces: fields are in any order, and others than the length are passed over.
pub(crate) fn body_len(header: &str) -> Result<usize, HeaderError> {
    let mut found: Option<usize> = None;
    for line in header.split("\r\n") {
        if let Some(len) = length_in_line(line)? {
            if found.is_some() {
                return Err(HeaderError::BadLength);
            }
            found = Some(len);
        }
    }
    match found {
        Some(len) => Ok(len),
        None => Err(HeaderError::NoLength),
    }
}
