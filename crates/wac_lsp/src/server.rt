//! The state of a server, and what it answers.
ghost use Rattle.std.specs.Prelude.{◌≡◌, [], ◌∷◌, IfOk, Some, string_bytes};
ghost use Rattle.wac_lsp_messages.specs.Replying.{IsReplyTo};
ghost use Rattle.wac_lsp.specs.Answers.{ServerAnswers};
ghost use Rattle.wac_lsp.specs.Opened.{LeavesIn, ServerHolds};
ghost use Rattle.wac_lsp.specs.Replies.{AreReplies, replied_to, replies};
ghost use Rattle.wac_lsp.specs.Steps.{Steps};
ghost use Rattle.wac_lsp.specs.declared.server.Sent.TheVariants.{Reply};

use crate::capabilities::capabilities;
use crate::diagnostics::{Publication, current_publication, published, withdrawn};
use crate::documents::{Document, close, document_of, put, text_of};
use crate::questions::{Answered, Subject, answer_question};
use crate::symbols::{SavedText, workspace_symbols};
use serde_json::{Value, json};
use std::alloc::{AllocError, Global};
use wac_lsp_messages::{
    Call, Change, Code, Features, Id, Initialize, Message, Notice, Question, Refusal, read_message,
    refused, reply,
};
use wac_lsp_texts::{ChangeError, changed};
use wac_positions::ColumnUnit;

/// How far a server has come.
#[derive(Clone, Copy)]
enum Phase {
    /// It wasn't initialized.
    New,
    /// It answers.
    Running,
    /// It was asked to prepare for the end.
    ShutDown,
}

/// The state of a server.
pub struct Server {
    phase: Phase,
    version: &'static str,
    unit: ColumnUnit,
    /// What the client takes of answers.
    features: Features,
    /// The URI of the page that explains the codes of errors, if the client named one.
    errors_page: Option<String>,
    documents: Vec<Document>,
}

// Written out, so that those who drop one need not follow its parts.
impl Drop for Server {
    fn drop(self) {
        let Server {
            phase: _,
            version: _,
            unit: _,
            features: _,
            errors_page: _,
            documents: _,
        } = self;
    }
}

/// A message of a server.
#[derive(Drop)]
pub enum Sent {
    /// The reply to the request with this id, or to what is no message.
    Reply {
        /// The id.
        id: Option<Id>,
        /// The message as JSON.
        body: String,
    },
    /// What replies to nothing: a notification, or a request of the server's own.
    Notification {
        /// The message as JSON.
        body: String,
    },
}

impl Sent {
    /// The message as JSON.
    pub fn body(&self) -> &str {
        match self {
            Sent::Reply { body, .. } => body.as_str(),
            Sent::Notification { body } => body.as_str(),
        }
    }
}

/// What a server does after a message.
#[derive(Drop)]
pub struct Outcome {
    /// The messages that it sends, in order.
    pub messages: Vec<Sent>,
    /// The status with which it ends, where it does.
    pub status: Option<u8>,
}

/// A request after shutdown, or a second initialize.
const NOT_NOW: Refusal = Refusal {
    code: Code::InvalidRequest,
    message: "the server doesn't take this request now",
};

/// A request before initialize.
const NOT_INITIALIZED: Refusal = Refusal {
    code: Code::NotInitialized,
    message: "the server is not initialized",
};

/// An initialize request without what it needs.
const NO_CAPABILITIES: Refusal = Refusal {
    code: Code::InvalidParams,
    message: "initialize lacks the capabilities of the client",
};

/// Whether one of some changes brings a whole text.
fn has_whole_text(changes: &[Change]) -> bool {
    changes.iter().any(|change| change.range.is_none())
}

/// A document that isn't open.
const NOT_OPEN: Refusal = Refusal {
    code: Code::InvalidParams,
    message: "the document is not open",
};

/// A document whose text isn't known.
const LOST: Refusal = Refusal {
    code: Code::RequestFailed,
    message: "a change of the document couldn't be read; open it anew",
};

impl Server {
    ghost use Rattle.std.specs.Prelude.{◌≡◌, ◌↔◌, [], Err, IfOk, IsTrue, MatchOption, None, Ok, OnOk, Some, string_bytes};
    ghost use Rattle.wac_lsp_messages.specs.Replying.{IsReplyTo};
    ghost use Rattle.wac_lsp.specs.Answers.{AnswersAbout, AnswersCall, AnswersFirst, AnswersRequest, RepliesTo};
    ghost use Rattle.wac_lsp.specs.Opened.{Leaves, Makes, Puts, Remakes, document_in, text_in};
    ghost use Rattle.wac_lsp.specs.Replies.{AreReplies, replies};
    ghost use Rattle.wac_lsp.specs.declared.server.Phase.TheVariants.{Running};

    /// A server that wasn't initialized, of a program of this version.
    pub fn new(alloc: Global, version: &'static str) -> Server {
        Server {
            phase: Phase::New,
            version,
            unit: ColumnUnit::Utf16,
            features: Features::none(),
            errors_page: None,
            documents: Vec::new(alloc),
        }
    }

    /// Whether it wasn't initialized.
    pub fn is_new(&self) -> bool {
        matches!(self.phase, Phase::New)
    }

    /// Whether it was initialized, and wasn't asked to prepare for the end.
    pub fn is_running(&self) -> bool
        ensures { IsTrue result ↔ (self.now.phase ≡ Running) }
    {
        matches!(self.phase, Phase::Running)
    }

    /// The documents that the client has open.
    pub fn documents(&self) -> &[Document]
        ensures { result.now ≡ self.now.documents.items }
    {
        self.documents.as_slice()
    }

    /// The units of columns.
    pub(crate) fn unit(&self) -> ColumnUnit
        ensures { result ≡ self.now.unit }
    {
        self.unit
    }

    /// A document, for what is told of it.
    pub(crate) fn about<'d>(&'d self, document: &'d Document) -> Subject<'d>
        ensures unit { result.unit ≡ self.now.unit }
        ensures text { result.text.now ≡ string_bytes document.now.text }
    {
        Subject {
            uri: document.uri(),
            version: document.version,
            text: document.text.as_str(),
            unit: self.unit,
            features: self.features,
            errors_page: match &self.errors_page {
                Some(page) => Some(page.as_str()),
                None => None,
            },
        }
    }

    /// Takes what the client says of itself, and tells what the server can do.
    fn initialize(&mut self, alloc: Global, client: &Initialize) -> Result<Value, AllocError>
        ensures { self.new.documents.items ≡ self.old.documents.items }
    {
        self.phase = Phase::Running;
        self.features = client.features;
        if let Some(page) = &client.errors_page {
            self.errors_page = Some(String::from_str(alloc, page.as_str())?);
        }
        self.unit = if client.counts_bytes {
            ColumnUnit::Bytes
        } else {
            ColumnUnit::Utf16
        };
        let version = self.version;
        let capabilities = capabilities(alloc, client.counts_bytes, client.features)?;
        json!(in alloc; {
            "capabilities": capabilities,
            "serverInfo": {"name": "wacx", "version": version}
        })
    }

    /// What a question about a document gets.
    #[tactic(auto, using(crate::proofs::Open::about_none, crate::proofs::Open::about_lost, crate::proofs::Open::about_known))]
    fn answer_about(
        &self,
        alloc: Global,
        uri: &str,
        question: &Question,
    ) -> Result<Answered, AllocError>
        ensures { IfOk result
            (AnswersAbout self.now.unit (document_in uri.now self.now.documents.items) question.now) }
    {
        match document_of(self.documents.as_slice(), uri) {
            Some(document) if document.is_lost() => Ok(Err(LOST)),
            Some(document) => answer_question(alloc, &self.about(document), question),
            None => Ok(Err(NOT_OPEN)),
        }
    }

    /// What open documents declare under names that have a text in them, and these documents, which aren't open: symbols as
    /// the protocol has them, each with its kind and its place.
    pub fn symbols(
        &self,
        alloc: Global,
        query: &str,
        saved: &[SavedText<'_>],
    ) -> Result<Value, AllocError> {
        workspace_symbols(alloc, self.documents.as_slice(), saved, query, self.unit)
    }

    /// What a call gets before initialize.
    fn answer_new(&mut self, alloc: Global, call: &Call) -> Result<Answered, AllocError>
        ensures keeps { self.new.documents.items ≡ self.old.documents.items }
        ensures answers { IfOk result (AnswersFirst call.now) }
    {
        match call {
            Call::Initialize(Some(client)) => match self.initialize(alloc, client) {
                Ok(value) => Ok(Ok(value)),
                Err(_) => Err(AllocError),
            },
            Call::Initialize(None) => Ok(Err(NO_CAPABILITIES)),
            Call::Shutdown | Call::Document { .. } | Call::WorkspaceSymbols { .. } => {
                Ok(Err(NOT_INITIALIZED))
            }
        }
    }

    /// What a call gets between initialize and shutdown.
    fn answer_running(&mut self, alloc: Global, call: &Call) -> Result<Answered, AllocError>
        ensures keeps { self.new.documents.items ≡ self.old.documents.items }
        ensures answers { IfOk result (AnswersCall self.old.unit self.old.documents.items call.now) }
    {
        match call {
            Call::Initialize(_) => Ok(Err(NOT_NOW)),
            Call::Shutdown => {
                self.phase = Phase::ShutDown;
                Ok(Ok(Value::Null))
            }
            Call::Document { uri, question } => { self.answer_about(alloc, uri.as_str(), question) }
            Call::WorkspaceSymbols { query } => Ok(Ok(self.symbols(alloc, query.as_str(), &[])?)),
        }
    }

    /// What a call gets.
    fn answer(&mut self, alloc: Global, call: &Call) -> Result<Answered, AllocError>
        ensures keeps { self.new.documents.items ≡ self.old.documents.items }
        ensures answers { IfOk result
            (AnswersRequest self.old.phase self.old.unit self.old.documents.items (Ok call.now)) }
    {
        let phase = self.phase;
        match phase {
            Phase::New => self.answer_new(alloc, call),
            Phase::Running => self.answer_running(alloc, call),
            Phase::ShutDown => Ok(Err(NOT_NOW)),
        }
    }

    /// What a request gets that can't be read for this reason.
    fn unread(&self, why: Refusal) -> Answered
        ensures { AnswersRequest self.now.phase self.now.unit self.now.documents.items (Err why) result }
    {
        match self.phase {
            Phase::New => Err(NOT_INITIALIZED),
            Phase::Running => Err(why),
            Phase::ShutDown => Err(NOT_NOW),
        }
    }

    /// What a request gets.
    fn answered(
        &mut self,
        alloc: Global,
        call: Result<Call, Refusal>,
    ) -> Result<Answered, AllocError>
        ensures keeps { self.new.documents.items ≡ self.old.documents.items }
        ensures answers { IfOk result
            (AnswersRequest self.old.phase self.old.unit self.old.documents.items call) }
    {
        match call {
            Ok(call) => self.answer(alloc, &call),
            Err(why) => Ok(self.unread(why)),
        }
    }

    /// The one reply to a request.
    fn replied(
        &mut self,
        alloc: Global,
        id: &Id,
        call: Result<Call, Refusal>,
    ) -> Result<String, AllocError>
        ensures written { IfOk result (λ body. IsReplyTo (Some id.now) (string_bytes body)) }
        ensures replies { IfOk result (λ body.
            RepliesTo self.old.phase self.old.unit self.old.documents.items call (string_bytes body)) }
        ensures keeps { self.new.documents.items ≡ self.old.documents.items }
    {
        match self.answered(alloc, call)? {
            Ok(value) => reply(alloc, id, value),
            Err(why) => refused(alloc, Some(id), why),
        }
    }

    /// Takes a document that was opened or changed, and tells what is wrong with it.
    #[tactic(auto, using(crate::proofs::Remade::put_last))]
    fn opened(
        &mut self,
        alloc: Global,
        uri: String,
        version: Option<i64>,
        text: String,
    ) -> Result<String, AllocError>
        ensures unit { self.new.unit ≡ self.old.unit }
        ensures puts { OnOk result
            (Puts (string_bytes uri) (string_bytes text) self.old.documents.items self.new.documents.items) }
    {
        let mut document = Document {
            uri,
            version,
            text,
            is_faulty: false,
        };
        let Publication { body, is_faulty } = current_publication(alloc, &self.about(&document))?;
        document.is_faulty = is_faulty;
        put(&mut self.documents, document)?;
        Ok(body)
    }

    /// The text of a document after changes: none where it isn't open.
    #[tactic(auto, using(crate::proofs::Remade::makes_of))]
    fn text_after(
        &self,
        alloc: Global,
        uri: &str,
        changes: &[Change],
    ) -> Result<Option<String>, ChangeError>
        ensures { IfOk result (λ found. MatchOption found (text_in uri.now self.now.documents.items ≡ None)
            (λ text. Makes self.now.unit uri.now changes.now self.now.documents.items (string_bytes text))) }
    {
        match text_of(self.documents.as_slice(), uri) {
            Some(text) => match changed(alloc, text, changes, self.unit) {
                Ok(text) => Ok(Some(text)),
                Err(error) => Err(error),
            },
            None => Ok(None),
        }
    }

    /// The version of a document after changes that lead to this one: none where a change before them was lost and none of
    /// them brings a whole text.
    fn version_after(&self, uri: &str, version: i64, changes: &[Change]) -> Option<i64> {
        if has_whole_text(changes) || self.document(uri).is_some() {
            Some(version)
        } else {
            None
        }
    }

    /// Changes a document, and tells what is wrong with it. Changes of one that isn't open are passed over.
    #[tactic(auto, using(crate::proofs::Remade::remade, crate::proofs::Remade::none_remade))]
    fn changed(
        &mut self,
        alloc: Global,
        uri: String,
        version: Option<i64>,
        changes: &[Change],
    ) -> Result<Option<String>, ChangeError>
        ensures { IfOk result (λ _.
            Remakes self.old.unit (string_bytes uri) changes.now self.old.documents.items self.new.documents.items) }
    {
        match self.text_after(alloc, uri.as_str(), changes)? {
            Some(text) => Ok(Some(self.opened(alloc, uri, version, text)?)),
            None => Ok(None),
        }
    }

    /// Tells again what is wrong with each document.
    #[tactic(auto, using(crate::proofs::Sending::notified, crate::proofs::Sending::still_replies))]
    fn refreshed(&self, alloc: Global) -> Result<Outcome, AllocError>
        ensures ids { IfOk result (λ outcome. replies outcome.messages.items ≡ []) }
        ensures written { IfOk result (λ outcome. AreReplies outcome.messages.items) }
    {
        let mut messages = Vec::new(alloc);
        for document in self.documents.as_slice() {
            let body = published(alloc, &self.about(document))?;
            messages.push(Sent::Notification { body })?;
        }
        Ok(Outcome {
            messages,
            status: None,
        })
    }

    /// What the server does after a notification while it runs.
    fn after_notification(&mut self, alloc: Global, notice: Notice) -> Result<Outcome, ChangeError>
        ensures ids { IfOk result (λ outcome. replies outcome.messages.items ≡ []) }
        ensures written { IfOk result (λ outcome. AreReplies outcome.messages.items) }
        ensures leaves { IfOk result (λ _.
            Leaves self.old.unit notice self.old.documents.items self.new.documents.items) }
    {
        match notice {
            Notice::Opened { uri, version, text } => {
                let body = self.opened(alloc, uri, Some(version), text)?;
                Ok(sends_notification(alloc, body)?)
            }
            Notice::Changed {
                uri,
                version,
                changes,
            } => {
                let version = self.version_after(uri.as_str(), version, changes.as_slice());
                let body = self.changed(alloc, uri, version, changes.as_slice())?;
                Ok(sends_if_any(alloc, body)?)
            }
            Notice::Lost { uri } => {
                let body = self.changed(alloc, uri, None, &[])?;
                Ok(sends_if_any(alloc, body)?)
            }
            Notice::Closed { uri } => {
                close(&mut self.documents, uri.as_str());
                let body = withdrawn(alloc, uri.as_str())?;
                Ok(sends_notification(alloc, body)?)
            }
            Notice::FilesChanged { .. } => Ok(self.refreshed(alloc)?),
            Notice::Exit => Ok(sends_nothing(alloc, Some(1))),
            // A server by itself knows no folders.
            Notice::Initialized | Notice::FoldersChanged { .. } | Notice::Other => {
                Ok(sends_nothing(alloc, None))
            }
        }
    }
}

/// An outcome in which a reply is sent, and the server goes on.
pub fn sends_reply(alloc: Global, id: Option<Id>, body: String) -> Result<Outcome, AllocError>
    requires { IsReplyTo id (string_bytes body) }
    ensures sends { IfOk result (λ outcome. outcome.messages.items ≡ Reply id body ∷ []) }
    ensures ids { IfOk result (λ outcome. replies outcome.messages.items ≡ id ∷ []) }
    ensures written { IfOk result (λ outcome. AreReplies outcome.messages.items) }
{
    let mut messages = Vec::new(alloc);
    messages.push(Sent::Reply { id, body })?;
    Ok(Outcome {
        messages,
        status: None,
    })
}

/// An outcome in which a notification is sent, and the server goes on.
fn sends_notification(alloc: Global, body: String) -> Result<Outcome, AllocError>
    ensures ids { IfOk result (λ outcome. replies outcome.messages.items ≡ []) }
    ensures written { IfOk result (λ outcome. AreReplies outcome.messages.items) }
{
    let mut messages = Vec::new(alloc);
    messages.push(Sent::Notification { body })?;
    Ok(Outcome {
        messages,
        status: None,
    })
}

/// An outcome in which the body, if there is one, is sent as a notification, and the server goes on.
fn sends_if_any(alloc: Global, body: Option<String>) -> Result<Outcome, AllocError>
    ensures ids { IfOk result (λ outcome. replies outcome.messages.items ≡ []) }
    ensures written { IfOk result (λ outcome. AreReplies outcome.messages.items) }
{
    match body {
        Some(body) => sends_notification(alloc, body),
        None => Ok(sends_nothing(alloc, None)),
    }
}

/// An outcome in which no message is sent.
fn sends_nothing(alloc: Global, status: Option<u8>) -> Outcome
    ensures ids { replies result.messages.items ≡ [] }
    ensures written { AreReplies result.messages.items }
{
    Outcome {
        messages: Vec::new(alloc),
        status,
    }
}

/// Whether a notification asks the server to end.
fn is_exit(notice: &Notice) -> bool {
    matches!(notice, Notice::Exit)
}

/// What a server does after a notification: it ends when it is asked to, with 0 after shutdown, and drops all other
/// notifications before initialize and after shutdown.
fn answer_notice(alloc: Global, server: &mut Server, notice: Notice) -> Result<Outcome, ChangeError>
    ensures ids { IfOk result (λ outcome. replies outcome.messages.items ≡ []) }
    ensures written { IfOk result (λ outcome. AreReplies outcome.messages.items) }
    ensures leaves { IfOk result (λ _.
        LeavesIn server.old.phase server.old.unit notice server.old.documents.items server.new.documents.items) }
{
    let phase = server.phase;
    let ends = is_exit(&notice);
    match phase {
        Phase::New => Ok(sends_nothing(alloc, if ends { Some(1) } else { None })),
        Phase::Running => server.after_notification(alloc, notice),
        Phase::ShutDown => Ok(sends_nothing(alloc, if ends { Some(0) } else { None })),
    }
}

/// What a server does after a message. The error is that memory ran out, or that a change has a place without an offset:
/// the text can't be followed then.
pub fn answer(alloc: Global, server: &mut Server, message: Message) -> Result<Outcome, ChangeError>
    // A request gets one reply, with its id; what is no message gets one without; all else gets none.
    ensures ids { IfOk result (λ outcome. replies outcome.messages.items ≡ replied_to message) }
    // The text of each reply has its id.
    ensures written { IfOk result (λ outcome. AreReplies outcome.messages.items) }
    // A request is refused, with the code that says so, just where it can't be read, comes before initialize or after
    // shutdown, or is about a document that isn't open or whose change was lost; but edits may be refused too. Else it gets a
    // value: one for a document's layout the edits that lay out its text.
    ensures answers { IfOk result (λ outcome. ServerAnswers server.old message outcome.messages.items) }
    // The text of a document is that with which it was opened, after all changes that came since.
    ensures holds { IfOk result (λ _. ServerHolds server.old server.new message) }
{
    match message {
        Message::Request { id, call } => {
            let body = server.replied(alloc, &id, call)?;
            Ok(sends_reply(alloc, Some(id), body)?)
        }
        Message::Notification(notice) => answer_notice(alloc, server, notice),
        Message::Reply => Ok(sends_nothing(alloc, None)),
        Message::Wrong(why) => {
            let body = refused(alloc, None, why)?;
            Ok(sends_reply(alloc, None, body)?)
        }
    }
}

/// What a server does after the message with this body. The errors are those of `answer`.
#[tactic(auto, using(crate::proofs::Stepping::stepped))]
pub fn step(alloc: Global, server: &mut Server, body: &[u8]) -> Result<Outcome, ChangeError>
    // It is what `answer` does after the message that the body is.
    ensures { IfOk result (λ outcome. Steps server.old server.new body.now outcome.messages.items) }
{
    let message = read_message(alloc, body)?;
    answer(alloc, server, message)
}
