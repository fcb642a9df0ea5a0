//! The loop of a session over a reader, a writer and files.
use crate::session::{Reads, Session, Stepped};
use std::alloc::{AllocError, Global};
use std::io::{Read, Write};
use thiserror::Error;
use wac_files::FileSystem;
use wac_lsp::Sent;
use wac_lsp_messages::{Code, ReceiveError, Received, Receiver, Refusal, refused, send};
use wac_lsp_texts::ChangeError;
use wac_lsp_workspace::{read_files, read_folders};

/// Why a server ended without being asked to.
#[derive(Debug, Drop, Error)]
pub enum ServeError {
    /// No message could be received.
    #[error("{0}")]
    Receive(ReceiveError),
    /// The input ended before the client asked the server to end.
    #[error("the input ended")]
    Ended,
    /// A change has a place without an offset, so that the text of its document isn't known.
    #[error("a change has no place in its document")]
    NoPlace,
    /// The writer failed.
    #[error("the output failed")]
    Output,
    /// A request for memory failed.
    #[error("out of memory")]
    Memory(AllocError),
}

impl From<AllocError> for ServeError {
    fn from(error: AllocError) -> Self {
        ServeError::Memory(error)
    }
}

impl From<ChangeError> for ServeError {
    fn from(error: ChangeError) -> Self {
        match error {
            ChangeError::NoPlace => ServeError::NoPlace,
            ChangeError::Memory => ServeError::Memory(AllocError),
        }
    }
}

impl From<ReceiveError> for ServeError {
    fn from(error: ReceiveError) -> Self {
        ServeError::Receive(error)
    }
}

/// A message whose body has too many bytes.
const TOO_LONG: Refusal = Refusal {
    code: Code::InvalidRequest,
    message: "the body is longer than 64 MB",
};

/// Sends messages, in order.
fn send_all<W: Write>(alloc: Global, output: &mut W, messages: &[Sent]) -> Result<(), ServeError> {
    for message in messages {
        if send(alloc, output, message.body()).is_err() {
            return Err(ServeError::Output);
        }
    }
    Ok(())
}

/// Reads the folders of a session: what is told then.
fn read_all<F: FileSystem>(
    alloc: Global,
    session: &mut Session,
    files: &mut F,
) -> Result<Vec<Sent>, AllocError> {
    let contents = read_folders(alloc, files, session.workspace())?;
    session.take(alloc, contents)
}

/// Reads files of the folders, or the folders where that doesn't do: what is told then.
fn read_some<F: FileSystem>(
    alloc: Global,
    session: &mut Session,
    files: &mut F,
    paths: &[String],
) -> Result<Vec<Sent>, AllocError> {
    match read_files(alloc, files, session.workspace(), paths)? {
        Some(contents) => session.take_files(alloc, contents),
        None => read_all(alloc, session, files),
    }
}

/// Reads what is to be read for a session, and sends what is told then. The session goes on where memory runs out for it.
fn read<W: Write, F: FileSystem>(
    alloc: Global,
    session: &mut Session,
    output: &mut W,
    files: &mut F,
    reads: &Reads,
) -> Result<(), ServeError> {
    let told = match reads {
        Reads::Nothing => return Ok(()),
        Reads::Folders => read_all(alloc, session, files),
        Reads::Files(paths) => read_some(alloc, session, files, paths.as_slice()),
    };
    let messages = match told {
        Ok(messages) => messages,
        Err(_) => session.take_nothing(alloc)?,
    };
    send_all(alloc, output, messages.as_slice())
}

/// Answers one message: the status with which the server ends, where it does.
fn serve_one<W: Write, F: FileSystem>(
    alloc: Global,
    session: &mut Session,
    output: &mut W,
    files: &mut F,
    body: &[u8],
) -> Result<Option<u8>, ServeError> {
    let Stepped { outcome, reads } = session.step(alloc, body)?;
    send_all(alloc, output, outcome.messages.as_slice())?;
    read(alloc, session, output, files, &reads)?;
    Ok(outcome.status)
}

/// Says that a message was too long, and skipped.
fn refuse_long<W: Write>(alloc: Global, output: &mut W) -> Result<(), ServeError> {
    let body = refused(alloc, None, TOO_LONG)?;
    match send(alloc, output, body.as_str()) {
        Ok(()) => Ok(()),
        Err(_) => Err(ServeError::Output),
    }
}

/// Answers the messages of a reader until the client asks the server to end: the status that it is to end with. No file
/// is read but those of the client's folders. `version` is that of the program, for the client to show.
pub fn serve<R: Read, W: Write, F: FileSystem>(
    alloc: Global,
    input: &mut R,
    output: &mut W,
    files: &mut F,
    version: &'static str,
) -> Result<u8, ServeError> {
    let mut session = Session::new(alloc, version);
    let mut receiver = Receiver::new(alloc);
    for _ in 0..u64::MAX {
        let status = match receiver.receive(alloc, input)? {
            Some(Received::Body(body)) => {
                serve_one(alloc, &mut session, output, files, body.as_slice())?
            }
            Some(Received::TooLong) => {
                refuse_long(alloc, output)?;
                None
            }
            None => return Err(ServeError::Ended),
        };
        if let Some(status) = status {
            return Ok(status);
        }
    }
    Err(ServeError::Ended)
}
