//! A session: a server, and what is known of the folders that its client has open.
ghost use Rattle.std.specs.Prelude.{◌≡◌, [], ◌∷◌, IfOk, IfSome, Ok, Some};
ghost use Rattle.wac_lsp.specs.Answers.{AnswersAbout, AnswersCall, AnswersRequest, ServerAnswers};
ghost use Rattle.wac_lsp.specs.Opened.{ServerHolds, document_in};
ghost use Rattle.wac_lsp.specs.Replies.{AreReplies, replied_to, replies};
ghost use Rattle.wac_lsp.specs.Steps.{Steps};
ghost use Rattle.wac_lsp_messages.specs.declared.message.Message.TheVariants.{Notification, Request};

use crate::completions::completed_at;
use crate::definitions::declared_at;
use crate::hovering::hovered_at;
use crate::mending::mended_at;
use crate::refreshing::{all_published, logged, said_of};
use crate::symbols::symbols_named;
use crate::watching::{Touched, touched_by, watch_request, watches_files};
use serde_json::Value;
use std::alloc::{AllocError, Global};
use wac_lsp::{Document, Outcome, Sent, Server, answer, sends_reply};
use wac_lsp_folders::{client_folders, path_of_uri};
use wac_lsp_messages::{Call, Id, Message, Notice, Question, Refusal, read_message, reply};
use wac_lsp_texts::ChangeError;
use wac_lsp_workspace::{Concerned, FileContents, FolderContents, Seen, Taken, Workspace};

/// A server, and what is known of the folders that its client has open.
pub struct Session {
    server: Server,
    workspace: Workspace,
    /// Whether the client takes that it is asked to watch files, and wasn't asked.
    watches_files: bool,
}

// Written out, so that those who drop one need not follow its parts.
impl Drop for Session {
    fn drop(self) {
        let Session {
            server: _,
            workspace: _,
            watches_files: _,
        } = self;
    }
}

/// What a caller is to read after a message.
#[derive(Drop)]
pub enum Reads {
    /// Nothing.
    Nothing,
    /// The folders, to be given to `take`.
    Folders,
    /// The files at these paths, to be given to `take_files`.
    Files(Vec<String>),
}

/// What a session does after a message.
#[derive(Drop)]
pub struct Stepped {
    /// What the server does.
    pub outcome: Outcome,
    /// What is to be read then.
    pub reads: Reads,
}

/// What is told where memory runs out while folders are read, or packages are made of them.
const NO_MEMORY: &str =
    "the folders need more memory than there is: they are as if they were not open";

/// Whether a request is one with which a client begins.
fn initializes(call: &Call) -> bool {
    match call {
        Call::Initialize(client) => client.is_some(),
        _ => false,
    }
}

/// Whether a message is one with which a client begins.
fn begins(message: &Message) -> bool {
    match message {
        Message::Request { call, .. } => match call {
            Ok(call) => initializes(call),
            Err(_) => false,
        },
        _ => false,
    }
}

/// An outcome after which no folder is read.
fn stays(outcome: Outcome) -> Stepped
    ensures { result.outcome ≡ outcome }
{
    Stepped {
        outcome,
        reads: Reads::Nothing,
    }
}

/// What is to be read where files were changed: the folders, where it isn't known which files.
fn reads_of(paths: Option<Vec<String>>) -> Reads {
    match paths {
        Some(paths) => Reads::Files(paths),
        None => Reads::Folders,
    }
}

/// An outcome that has these messages, which are no replies, in place of its own.
fn with_messages(outcome: Outcome, messages: Vec<Sent>) -> Outcome
    ensures { result.messages ≡ messages }
{
    let Outcome { status, .. } = outcome;
    Outcome { messages, status }
}

/// Has a workspace take the text of an open document, if that is known.
fn put_text(
    alloc: Global,
    workspace: &mut Workspace,
    document: &Document,
) -> Result<(), AllocError> {
    if document.is_lost() {
        return Ok(());
    }
    if let Some(path) = path_of_uri(alloc, document.uri())? {
        workspace.put(alloc, path.as_str(), document.uri(), document.text())?;
    }
    Ok(())
}

/// Has a workspace take the texts of open documents.
fn put_all(
    alloc: Global,
    workspace: &mut Workspace,
    documents: &[Document],
) -> Result<(), AllocError> {
    for document in documents {
        put_text(alloc, workspace, document)?;
    }
    Ok(())
}

/// A message that replies to nothing.
fn sends_one(alloc: Global, body: String) -> Result<Vec<Sent>, AllocError>
    ensures ids { IfOk result (λ messages. replies messages.items ≡ []) }
    ensures written { IfOk result (λ messages. AreReplies messages.items) }
{
    let mut messages = Vec::new(alloc);
    messages.push(Sent::Notification { body })?;
    Ok(messages)
}

impl Session {
    /// A session that wasn't initialized, of a program of this version.
    pub fn new(alloc: Global, version: &'static str) -> Session {
        Session {
            server: Server::new(alloc, version),
            workspace: Workspace::new(alloc, Vec::new(alloc)),
            watches_files: false,
        }
    }

    /// The paths of the client's folders.
    pub fn folders(&self) -> &[String] {
        self.workspace.folders()
    }

    /// What is known of the folders.
    pub fn workspace(&self) -> &Workspace {
        &self.workspace
    }

    /// What is known for a document.
    fn seen(&self, alloc: Global, document: &Document) -> Result<Seen<'_>, AllocError> {
        match path_of_uri(alloc, document.uri())? {
            Some(path) => Ok(self.workspace.at(path.as_str())),
            None => Ok(self.workspace.at("")),
        }
    }

    /// What the session does after the message with this body. No file is read.
    ///
    /// The errors are those of `answer` of `wac_lsp`: that memory ran out, or that a change has a place without an offset.
    pub fn step(&mut self, alloc: Global, body: &[u8]) -> Result<Stepped, ChangeError>
        // What is promised of `step` of `wac_lsp` holds of the server within.
        ensures { IfOk result (λ stepped.
            Steps self.old.server self.new.server body.now stepped.outcome.messages.items) }
    {
        let message = read_message(alloc, body)?;
        self.prepared(alloc, body, message)
    }

    /// What the session does after a message, whose folders it takes where the client begins with it.
    fn prepared(
        &mut self,
        alloc: Global,
        body: &[u8],
        message: Message,
    ) -> Result<Stepped, ChangeError>
        ensures ids { IfOk result (λ stepped. replies stepped.outcome.messages.items ≡ replied_to message) }
        ensures written { IfOk result (λ stepped. AreReplies stepped.outcome.messages.items) }
        ensures answers { IfOk result (λ stepped.
            ServerAnswers self.old.server message stepped.outcome.messages.items) }
        ensures holds { IfOk result (λ _. ServerHolds self.old.server self.new.server message) }
    {
        self.prepare(alloc, body, &message)?;
        self.answer(alloc, message)
    }

    /// Takes what a client says of its folders, if this is the message with which it begins.
    fn prepare(&mut self, alloc: Global, body: &[u8], message: &Message) -> Result<(), AllocError>
        ensures { self.new.server ≡ self.old.server }
    {
        if begins(message) && self.server.is_new() {
            self.begin(alloc, body)?;
        }
        Ok(())
    }

    /// Takes what a client says of its folders.
    fn begin(&mut self, alloc: Global, body: &[u8]) -> Result<(), AllocError>
        ensures { self.new.server ≡ self.old.server }
    {
        let folders = client_folders(alloc, body)?;
        self.workspace = Workspace::new(alloc, folders);
        self.watches_files = watches_files(alloc, body)?;
        Ok(())
    }

    /// What the session does after a message.
    pub fn answer(&mut self, alloc: Global, message: Message) -> Result<Stepped, ChangeError>
        // A request gets one reply, with its id; what is no message gets one without; all else gets none.
        ensures ids { IfOk result (λ stepped. replies stepped.outcome.messages.items ≡ replied_to message) }
        // The text of each reply has its id.
        ensures written { IfOk result (λ stepped. AreReplies stepped.outcome.messages.items) }
        // It has what `answer` of `wac_lsp` replies: a request is refused just where that refuses it.
        ensures answers { IfOk result (λ stepped.
            ServerAnswers self.old.server message stepped.outcome.messages.items) }
        // The text of a document is that with which it was opened, after all changes that came since.
        ensures holds { IfOk result (λ _. ServerHolds self.old.server self.new.server message) }
    {
        match message {
            Message::Notification(notice) => self.after_notification(alloc, notice),
            Message::Request { id, call } => self.requested(alloc, id, call),
            other => Ok(stays(answer(alloc, &mut self.server, other)?)),
        }
    }

    /// What a question gets about where something is declared, what is said of it, what can stand at a place, or what mends
    /// a range, if a package of the folders has the answer.
    #[tactic(auto, using(wac_lsp::proofs::Open::about_asked))]
    fn answer_about(
        &self,
        alloc: Global,
        uri: &str,
        question: &Question,
    ) -> Result<Option<Value>, AllocError>
        ensures { IfOk result (λ found. IfSome found (λ value. AnswersAbout self.now.server.unit
            (document_in uri.now self.now.server.documents.items) question.now (Ok value))) }
    {
        let Some(document) = self.server.document(uri) else {
            return Ok(None);
        };
        match question {
            Question::Definition(place) => {
                declared_at(
                    alloc,
                    &self.server,
                    self.seen(alloc, document)?,
                    document,
                    *place,
                )
            }
            Question::Hover(place) => {
                hovered_at(
                    alloc,
                    &self.server,
                    self.seen(alloc, document)?,
                    document,
                    *place,
                )
            }
            Question::Completions(place) => {
                completed_at(
                    alloc,
                    &self.server,
                    self.seen(alloc, document)?,
                    document,
                    *place,
                )
            }
            Question::CodeActions(range) => {
                mended_at(alloc, &self.server, &self.workspace, document, *range)
            }
            _ => Ok(None),
        }
    }

    /// What a call gets that asks what the folders have, if they have the answer.
    fn answer_of_folders(&self, alloc: Global, call: &Call) -> Result<Option<Value>, AllocError>
        ensures { IfOk result (λ found. IfSome found (λ value.
            AnswersCall self.now.server.unit self.now.server.documents.items call.now (Ok value))) }
    {
        match call {
            Call::Document { uri, question } => self.answer_about(alloc, uri.as_str(), question),
            Call::WorkspaceSymbols { query } => Ok(Some(symbols_named(
                alloc,
                &self.server,
                &self.workspace,
                query.as_str(),
            )?)),
            Call::Initialize(_) | Call::Shutdown => Ok(None),
        }
    }

    /// What a request gets for which the folders have the answer.
    fn declared(
        &self,
        alloc: Global,
        call: &Result<Call, Refusal>,
    ) -> Result<Option<Value>, AllocError>
        ensures { IfOk result (λ found. IfSome found (λ value. AnswersRequest self.now.server.phase
            self.now.server.unit self.now.server.documents.items call.now (Ok value))) }
    {
        if !self.server.is_running() {
            return Ok(None);
        }
        match call {
            Ok(call) => self.answer_of_folders(alloc, call),
            Err(_) => Ok(None),
        }
    }

    /// What the session does after a request.
    fn requested(
        &mut self,
        alloc: Global,
        id: Id,
        call: Result<Call, Refusal>,
    ) -> Result<Stepped, ChangeError>
        ensures ids { IfOk result (λ stepped. replies stepped.outcome.messages.items ≡ Some id ∷ []) }
        ensures written { IfOk result (λ stepped. AreReplies stepped.outcome.messages.items) }
        ensures answers { IfOk result (λ stepped.
            ServerAnswers self.old.server (Request id call) stepped.outcome.messages.items) }
        ensures holds { IfOk result (λ _. ServerHolds self.old.server self.new.server (Request id call)) }
    {
        match self.declared(alloc, &call) {
            Ok(Some(value)) => {
                let body = reply(alloc, &id, value)?;
                Ok(stays(sends_reply(alloc, Some(id), body)?))
            }
            // Where memory runs out for what the folders have, the server answers by itself.
            Ok(None) | Err(_) => {
                let message = Message::Request { id, call };
                Ok(stays(answer(alloc, &mut self.server, message)?))
            }
        }
    }

    /// What the session does after a notification.
    fn after_notification(&mut self, alloc: Global, notice: Notice) -> Result<Stepped, ChangeError>
        ensures ids { IfOk result (λ stepped. replies stepped.outcome.messages.items ≡ []) }
        ensures written { IfOk result (λ stepped. AreReplies stepped.outcome.messages.items) }
        ensures holds { IfOk result (λ _. ServerHolds self.old.server self.new.server (Notification notice)) }
    {
        let touched = touched_by(alloc, &notice)?;
        let outcome = answer(alloc, &mut self.server, Message::Notification(notice))?;
        if !self.server.is_running() || !self.concerns(&touched) {
            return Ok(stays(outcome));
        }
        match self.touched(alloc, touched, outcome) {
            Ok(stepped) => Ok(stepped),
            Err(_) => Ok(stays(self.without_folders(alloc)?)),
        }
    }

    /// What the session does where memory runs out for what the folders have.
    fn without_folders(&mut self, alloc: Global) -> Result<Outcome, AllocError>
        ensures ids { IfOk result (λ outcome. replies outcome.messages.items ≡ []) }
        ensures written { IfOk result (λ outcome. AreReplies outcome.messages.items) }
        ensures keeps { self.new.server ≡ self.old.server }
    {
        Ok(Outcome {
            messages: self.take_nothing(alloc)?,
            status: None,
        })
    }

    /// Whether there are folders for which a notification changes something, or it changes which there are.
    fn concerns(&self, touched: &Touched) -> bool {
        !self.folders().is_empty() || matches!(touched, Touched::Folders { .. })
    }

    /// What the session does after a notification of a client with folders.
    fn touched(
        &mut self,
        alloc: Global,
        touched: Touched,
        outcome: Outcome,
    ) -> Result<Stepped, AllocError>
        requires ids { replies outcome.messages.items ≡ [] }
        requires written { AreReplies outcome.messages.items }
        ensures ids { IfOk result (λ stepped. replies stepped.outcome.messages.items ≡ []) }
        ensures written { IfOk result (λ stepped. AreReplies stepped.outcome.messages.items) }
        ensures keeps { self.new.server ≡ self.old.server }
    {
        match touched {
            Touched::Nothing => Ok(stays(outcome)),
            Touched::Text(uri) => self.text_touched(alloc, uri.as_str(), outcome),
            Touched::Closed(uri) => self.closed(alloc, uri.as_str(), outcome),
            Touched::Begun => Ok(Stepped {
                outcome: self.begun(alloc, outcome)?,
                reads: Reads::Folders,
            }),
            Touched::Files(paths) => Ok(Stepped {
                outcome: with_messages(outcome, Vec::new(alloc)),
                reads: reads_of(paths),
            }),
            Touched::Folders { added, removed } => {
                self.change_folders(alloc, added, removed.as_slice())?;
                Ok(Stepped {
                    outcome: self.begun(alloc, outcome)?,
                    reads: Reads::Folders,
                })
            }
        }
    }

    /// Takes that a client has other folders open. The documents in them that are open stand before their files.
    fn change_folders(
        &mut self,
        alloc: Global,
        added: Vec<String>,
        removed: &[String],
    ) -> Result<(), AllocError>
        ensures { self.new.server ≡ self.old.server }
    {
        self.workspace.change_folders(alloc, added, removed)?;
        put_all(alloc, &mut self.workspace, self.server.documents())
    }

    /// Asks a client to watch files, if it has folders, takes that and wasn't asked.
    fn begun(&mut self, alloc: Global, outcome: Outcome) -> Result<Outcome, AllocError>
        requires ids { replies outcome.messages.items ≡ [] }
        requires written { AreReplies outcome.messages.items }
        ensures ids { IfOk result (λ outcome. replies outcome.messages.items ≡ []) }
        ensures written { IfOk result (λ outcome. AreReplies outcome.messages.items) }
        ensures keeps { self.new.server ≡ self.old.server }
    {
        if !self.watches_files || self.folders().is_empty() {
            return Ok(outcome);
        }
        self.watches_files = false;
        let body = watch_request(alloc)?;
        Ok(with_messages(outcome, sends_one(alloc, body)?))
    }

    /// What the session does after a document was opened or changed: the folders are read, where it isn't known which packages
    /// it can mention.
    fn text_touched(
        &mut self,
        alloc: Global,
        uri: &str,
        outcome: Outcome,
    ) -> Result<Stepped, AllocError>
        requires ids { replies outcome.messages.items ≡ [] }
        requires written { AreReplies outcome.messages.items }
        ensures ids { IfOk result (λ stepped. replies stepped.outcome.messages.items ≡ []) }
        ensures written { IfOk result (λ stepped. AreReplies stepped.outcome.messages.items) }
        ensures keeps { self.new.server ≡ self.old.server }
    {
        if !self.is_strange(alloc, uri)? {
            return Ok(stays(self.text_taken(alloc, uri, outcome)?));
        }
        let _ = self.take_text(alloc, uri)?;
        Ok(Stepped {
            outcome: with_messages(outcome, Vec::new(alloc)),
            reads: Reads::Folders,
        })
    }

    /// Whether it isn't known which packages a document can mention, whose text is known.
    fn is_strange(&self, alloc: Global, uri: &str) -> Result<bool, AllocError> {
        if self.server.document(uri).is_none() {
            return Ok(false);
        }
        match path_of_uri(alloc, uri)? {
            Some(path) => Ok(self.workspace.is_strange(path.as_str())),
            None => Ok(false),
        }
    }

    /// Takes the text of a document that was opened or changed. Returns which packages were made anew.
    fn take_text(&mut self, alloc: Global, uri: &str) -> Result<Option<Concerned>, AllocError>
        ensures { self.new.server ≡ self.old.server }
    {
        let Some(document) = self.server.document(uri) else {
            return Ok(None);
        };
        match path_of_uri(alloc, uri)? {
            Some(path) => {
                let text = document.text();
                let concerned = self.workspace.open(alloc, path.as_str(), uri, text)?;
                Ok(Some(concerned))
            }
            None => Ok(None),
        }
    }

    /// What is told after a document was opened or changed: what is wrong with it, and where packages were made anew what is
    /// wrong with each that they concern.
    fn text_taken(
        &mut self,
        alloc: Global,
        uri: &str,
        outcome: Outcome,
    ) -> Result<Outcome, AllocError>
        requires ids { replies outcome.messages.items ≡ [] }
        requires written { AreReplies outcome.messages.items }
        ensures ids { IfOk result (λ outcome. replies outcome.messages.items ≡ []) }
        ensures written { IfOk result (λ outcome. AreReplies outcome.messages.items) }
        ensures keeps { self.new.server ≡ self.old.server }
    {
        match self.take_text(alloc, uri)? {
            Some(concerned) if !concerned.is_empty() => {
                let messages = self.refreshed(alloc, &concerned)?;
                Ok(with_messages(outcome, messages))
            }
            _ => self.told_anew(alloc, uri, outcome),
        }
    }

    /// What is told of a document alone: what the workspace says of it, or else what the server does.
    fn told_anew(&self, alloc: Global, uri: &str, outcome: Outcome) -> Result<Outcome, AllocError>
        requires ids { replies outcome.messages.items ≡ [] }
        requires written { AreReplies outcome.messages.items }
        ensures ids { IfOk result (λ outcome. replies outcome.messages.items ≡ []) }
        ensures written { IfOk result (λ outcome. AreReplies outcome.messages.items) }
    {
        match self.said(alloc, uri)? {
            Some(body) => Ok(with_messages(outcome, sends_one(alloc, body)?)),
            None => Ok(outcome),
        }
    }

    /// What is told of a document of which the workspace says something.
    fn said(&self, alloc: Global, uri: &str) -> Result<Option<String>, AllocError> {
        let Some(document) = self.server.document(uri) else {
            return Ok(None);
        };
        let said = said_of(alloc, &self.workspace, document)?;
        if said.is_empty() {
            return Ok(None);
        }
        Ok(Some(self.server.publication(alloc, document, said.as_slice())?))
    }

    /// What is told of each open document that some packages concern.
    fn refreshed(&self, alloc: Global, concerned: &Concerned) -> Result<Vec<Sent>, AllocError>
        ensures ids { IfOk result (λ messages. replies messages.items ≡ []) }
        ensures written { IfOk result (λ messages. AreReplies messages.items) }
    {
        all_published(alloc, &self.server, &self.workspace, concerned)
    }

    /// What the session does after a document was closed, or a change of it was lost: its file stands for itself again, and
    /// is read.
    fn closed(&mut self, alloc: Global, uri: &str, outcome: Outcome) -> Result<Stepped, AllocError>
        requires ids { replies outcome.messages.items ≡ [] }
        requires written { AreReplies outcome.messages.items }
        ensures ids { IfOk result (λ stepped. replies stepped.outcome.messages.items ≡ []) }
        ensures written { IfOk result (λ stepped. AreReplies stepped.outcome.messages.items) }
        ensures keeps { self.new.server ≡ self.old.server }
    {
        let Some(path) = path_of_uri(alloc, uri)? else {
            return Ok(stays(outcome));
        };
        if !self.workspace.holds(path.as_str()) {
            return Ok(stays(outcome));
        }
        self.workspace.close(alloc, path.as_str())?;
        // One of another name that is open with this path stands in its place.
        put_all(alloc, &mut self.workspace, self.server.documents())?;
        let mut paths = Vec::new(alloc);
        paths.push(path)?;
        Ok(Stepped {
            outcome,
            reads: Reads::Files(paths),
        })
    }

    /// The messages that are sent after something was read: the files that were passed over, and what is wrong with each open
    /// document that the packages concern that were made anew.
    #[tactic(auto, using(wac_lsp::proofs::Sending::notified, wac_lsp::proofs::Sending::still_replies))]
    fn told(&self, alloc: Global, taken: &Taken) -> Result<Vec<Sent>, AllocError>
        ensures ids { IfOk result (λ messages. replies messages.items ≡ []) }
        ensures written { IfOk result (λ messages. AreReplies messages.items) }
    {
        let mut messages = self.refreshed(alloc, &taken.concerned)?;
        for line in taken.passed_over.as_slice() {
            let body = logged(alloc, line.as_str())?;
            messages.push(Sent::Notification { body })?;
        }
        Ok(messages)
    }

    /// Takes what was read of the folders. Returns the messages that are sent then: the files that were passed over, and
    /// what is wrong with each open document.
    pub fn take(&mut self, alloc: Global, contents: FolderContents) -> Result<Vec<Sent>, AllocError>
        ensures ids { IfOk result (λ messages. replies messages.items ≡ []) }
        ensures written { IfOk result (λ messages. AreReplies messages.items) }
        ensures keeps { self.new.server ≡ self.old.server }
    {
        let taken = self.workspace.take(alloc, contents)?;
        self.told(alloc, &taken)
    }

    /// Takes what was read of files that were changed. Returns the messages that are sent then: the files that were passed
    /// over, and what is wrong with each open document that is concerned.
    pub fn take_files(
        &mut self,
        alloc: Global,
        contents: FileContents,
    ) -> Result<Vec<Sent>, AllocError>
        ensures ids { IfOk result (λ messages. replies messages.items ≡ []) }
        ensures written { IfOk result (λ messages. AreReplies messages.items) }
        ensures keeps { self.new.server ≡ self.old.server }
    {
        let taken = self.workspace.take_files(alloc, contents)?;
        self.told(alloc, &taken)
    }

    /// Takes that memory ran out while the folders were read, or for what is known of them: nothing is known of them then.
    /// Returns the messages that are sent: that it is so, and what is wrong with each open document by itself.
    #[tactic(auto, using(wac_lsp::proofs::Sending::notified, wac_lsp::proofs::Sending::still_replies))]
    pub fn take_nothing(&mut self, alloc: Global) -> Result<Vec<Sent>, AllocError>
        ensures ids { IfOk result (λ messages. replies messages.items ≡ []) }
        ensures written { IfOk result (λ messages. AreReplies messages.items) }
        ensures keeps { self.new.server ≡ self.old.server }
    {
        self.workspace.forget(alloc);
        put_all(alloc, &mut self.workspace, self.server.documents())?;
        let mut messages = self.refreshed(alloc, &Concerned::all(alloc))?;
        let body = logged(alloc, NO_MEMORY)?;
        messages.push(Sent::Notification { body })?;
        Ok(messages)
    }
}
