//! What is told of open documents, with what is known of folders.
ghost use Rattle.std.specs.Prelude.{◌≡◌, [], IfOk};
ghost use Rattle.wac_lsp.specs.Replies.{AreReplies, replies};

use serde_json::json;
use std::alloc::{AllocError, Global};
use wac_diagnostics::Diagnostic;
use wac_excerpts::push_shown;
use wac_lsp::{Document, Sent, Server};
use wac_lsp_folders::path_of_uri;
use wac_lsp_messages::notification;
use wac_lsp_workspace::{Concerned, Workspace};

/// The number of a warning among the messages of a log.
const WARNING: u8 = 2;

/// What the workspace says of a document: nothing of one whose text isn't known, or has an error by itself.
pub(crate) fn said_of(
    alloc: Global,
    workspace: &Workspace,
    document: &Document,
) -> Result<Vec<Diagnostic>, AllocError> {
    if document.is_lost() || document.is_faulty() {
        return Ok(Vec::new(alloc));
    }
    match path_of_uri(alloc, document.uri())? {
        Some(path) => workspace.diagnose(alloc, path.as_str(), document.text()),
        None => Ok(Vec::new(alloc)),
    }
}

/// What is told of a document: what is wrong with its text alone, or else what the workspace says.
fn published(
    alloc: Global,
    server: &Server,
    workspace: &Workspace,
    document: &Document,
) -> Result<String, AllocError> {
    let said = said_of(alloc, workspace, document)?;
    server.publication(alloc, document, said.as_slice())
}

/// Whether some packages concern what is told of a document.
fn is_concerned(
    document: &Document,
    alloc: Global,
    concerned: &Concerned,
) -> Result<bool, AllocError> {
    concerned.concern(alloc, document.text())
}

/// What is told of each open document that some packages concern.
#[tactic(auto, using(wac_lsp::proofs::Sending::notified, wac_lsp::proofs::Sending::still_replies))]
pub(crate) fn all_published(
    alloc: Global,
    server: &Server,
    workspace: &Workspace,
    concerned: &Concerned,
) -> Result<Vec<Sent>, AllocError>
    ensures ids { IfOk result (λ messages. replies messages.items ≡ []) }
    ensures written { IfOk result (λ messages. AreReplies messages.items) }
{
    let mut messages = Vec::new(alloc);
    for document in server.documents() {
        if is_concerned(document, alloc, concerned)? {
            let body = published(alloc, server, workspace, document)?;
            messages.push(Sent::Notification { body })?;
        }
    }
    Ok(messages)
}

/// A line for the log of a client, as it is shown: a terminal may be where the client writes it.
pub(crate) fn logged(alloc: Global, line: &str) -> Result<String, AllocError> {
    let mut shown = String::new(alloc);
    push_shown(&mut shown, line)?;
    let params = json!(in alloc; {"type": WARNING, "message": shown.as_str()})?;
    notification(alloc, "window/logMessage", params)
}
