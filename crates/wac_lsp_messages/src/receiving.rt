//! Receiving messages of a reader, and sending them to a writer.
use crate::frame::{Frame, frame_in};
use crate::header::HeaderError;
use std::alloc::{AllocError, Global};
use std::io::{self, ErrorKind, Read, Write};
use thiserror::Error;

/// Why no message was received.
#[derive(Debug, Drop, Error)]
pub enum ReceiveError {
    /// What came is no header.
    #[error("{0}")]
    Header(HeaderError),
    /// The input ended within a message.
    #[error("the input ended within a message")]
    Cut,
    /// The reader failed.
    #[error("the input failed")]
    Input,
    /// A request for memory failed.
    #[error("out of memory")]
    Memory(AllocError),
}

impl From<AllocError> for ReceiveError {
    fn from(error: AllocError) -> Self {
        ReceiveError::Memory(error)
    }
}

/// What was received.
#[derive(Debug, Drop, PartialEq)]
pub enum Received {
    /// The body of a message.
    Body(Vec<u8>),
    /// A message whose body has more than 64 MB, which was read and not kept.
    TooLong,
}

/// Receives messages. It keeps the bytes that came, and no others take memory, whatever length a header announces; of a
/// body that is too long it keeps none.
#[derive(Debug, Drop)]
pub struct Receiver {
    bytes: Vec<u8>,
}

impl Receiver {
    /// With nothing received.
    pub fn new(alloc: Global) -> Self {
        Receiver {
            bytes: Vec::new(alloc),
        }
    }

    /// The next message, or `None` where the input ended after the last. After an error nothing more can be received.
    pub fn receive<R: Read>(
        &mut self,
        alloc: Global,
        reader: &mut R,
    ) -> Result<Option<Received>, ReceiveError> {
        for _ in 0..u64::MAX {
            match frame_in(self.bytes.as_slice()) {
                Frame::Whole { start, end } => {
                    return Ok(Some(Received::Body(self.take(alloc, start, end)?)));
                }
                Frame::TooLong { end } => {
                    self.skip(alloc, reader, end)?;
                    return Ok(Some(Received::TooLong));
                }
                Frame::Broken(error) => return Err(ReceiveError::Header(error)),
                Frame::Partial => {}
            }
            if !self.read_more(reader)? {
                return self.end();
            }
        }
        Ok(None)
    }

    /// Reads what the reader has: whether there was something.
    fn read_more<R: Read>(&mut self, reader: &mut R) -> Result<bool, ReceiveError> {
        let mut part = [0u8; 65536];
        match reader.read(&mut part) {
            Ok(len) => {
                self.bytes.extend_from_slice(&part[..len])?;
                Ok(len > 0)
            }
            Err(error) if error.kind() == ErrorKind::Interrupted => Ok(true),
            Err(_) => Err(ReceiveError::Input),
        }
    }

    /// Reads so many bytes away, counted from the first that is kept, and keeps what came after them.
    fn skip<R: Read>(
        &mut self,
        alloc: Global,
        reader: &mut R,
        end: usize,
    ) -> Result<(), ReceiveError> {
        let mut left = end;
        for _ in 0..u64::MAX {
            let came = self.bytes.len();
            if left <= came {
                break;
            }
            left -= came;
            self.bytes.clear();
            if !self.read_more(reader)? {
                return Err(ReceiveError::Cut);
            }
        }
        self.bytes = Vec::from_slice(alloc, self.bytes.as_slice().get(left..).unwrap_or(&[]))?;
        Ok(())
    }

    /// What the end of the input is: that of a message, or within one.
    fn end(&self) -> Result<Option<Received>, ReceiveError> {
        if self.bytes.is_empty() {
            Ok(None)
        } else {
            Err(ReceiveError::Cut)
        }
    }

    /// Takes a message out, and keeps what came after it.
    fn take(&mut self, alloc: Global, start: usize, end: usize) -> Result<Vec<u8>, AllocError> {
        let all = self.bytes.as_slice();
        let body = Vec::from_slice(alloc, all.get(start..end).unwrap_or(&[]))?;
        let rest = Vec::from_slice(alloc, all.get(end..).unwrap_or(&[]))?;
        self.bytes = rest;
        Ok(body)
    }
}

/// Sends a message with this body, and flushes the writer.
pub fn send<W: Write>(alloc: Global, writer: &mut W, body: &str) -> io::Result<()> {
    let len = body.len();
    let header = format!(in alloc; "Content-Length: {len}\r\n\r\n")?;
    writer.write_all(header.as_bytes())?;
    writer.write_all(body.as_bytes())?;
    writer.flush()
}
