// Serving an editor.
use crate::command::version;
use std::process;
use std::process::ExitCode;
use wac_files::Disk;
use wac_lsp_sessions::{ServeError, serve};

/// Answers the messages on standard input until the editor ends it. No file of more bytes than `most` is read.
pub(crate) fn serve_editor(rt: &HostRuntime, most: u64) -> ExitCode {
    let mut input = rt.stdin();
    let mut output = rt.stdout();
    let mut files = Disk::new(*rt, process::id(rt.process()), most);
    match serve(rt.alloc(), &mut input, &mut output, &mut files, version()) {
        Ok(status) => ExitCode::from(status),
        Err(error) => {
            let _ = eprintln!(rt; "error: {error}");
            ExitCode::from(status_of(&error))
        }
    }
}

/// The status after an error.
fn status_of(error: &ServeError) -> u8 {
    match error {
        ServeError::Ended => 1,
        ServeError::Receive(_) | ServeError::NoPlace | ServeError::Output => 3,
        ServeError::Memory(_) => 4,
    }
}
