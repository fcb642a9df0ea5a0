//! What a caller that knows more than the open documents tells of them.
ghost use Rattle.std.specs.Prelude.{◌≡◌, option_map};
ghost use Rattle.wac_lsp.specs.Opened.{document_in, known};

use crate::actions::{Mend, actions};
use crate::completing::{Suggestion, completed};
use crate::diagnostics::{published, published_all, published_lost};
use crate::documents::{Document, document_of};
use crate::navigation::location;
use crate::places::View;
use crate::server::Server;
use serde_json::Value;
use std::alloc::{AllocError, Global};
use wac_diagnostics::Diagnostic;
use wac_lexer::SourceSpan;
use wac_lsp_messages::Range;
use wac_lsp_texts::offset_at;
use wac_positions::{Lines, Place};

impl Server {
    ghost use Rattle.std.specs.Prelude.{◌≡◌, option_map};
    ghost use Rattle.wac_lsp.specs.Opened.{document_in, known};

    /// The open document of a name, unless a change of it was lost.
    #[tactic(auto, using(crate::proofs::Open::known_is, crate::proofs::Open::lost_is_unknown))]
    pub fn document(&self, uri: &str) -> Option<&Document>
        ensures { option_map (λ document. document.now) result ≡ known (document_in uri.now self.now.documents.items) }
    {
        let document = document_of(self.documents(), uri)?;
        if document.is_lost() {
            None
        } else {
            Some(document)
        }
    }

    /// The notification that has the diagnostics of an open document: those of its text alone, or where it has none of
    /// these, others; or that a change of it was lost.
    pub fn publication(
        &self,
        alloc: Global,
        document: &Document,
        others: &[Diagnostic],
    ) -> Result<String, AllocError> {
        if document.is_lost() {
            return published_lost(alloc, document.uri());
        }
        let about = self.about(document);
        if document.is_faulty {
            published(alloc, &about)
        } else {
            published_all(alloc, &about, others)
        }
    }

    /// A span of a text as a place of the document of a name, as the answer to the question where something is declared.
    pub fn location(
        &self,
        alloc: Global,
        uri: &str,
        text: &str,
        span: SourceSpan,
    ) -> Result<Value, AllocError> {
        let view = View::new(alloc, text, self.unit())?;
        location(alloc, &view, uri, span)
    }

    /// The offset of a place of a text: 0 where it has none.
    pub fn offset_in(&self, alloc: Global, text: &str, place: Place) -> Result<usize, AllocError> {
        let lines = Lines::new(alloc, text)?;
        Ok(offset_at(&lines, text.len(), place, self.unit()).unwrap_or(0))
    }

    /// The answer to the question what can stand at a place of an open document: suggestions, and then what the text
    /// says.
    pub fn completions(
        &self,
        alloc: Global,
        document: &Document,
        place: Place,
        suggestions: &[Suggestion<'_>],
    ) -> Result<Value, AllocError> {
        completed(alloc, document.text(), place, self.unit(), suggestions)
    }
    /// The answer to the question what mends a range of an open document: what the errors of its text say, or where it has
    /// none what a caller found.
    pub fn actions(
        &self,
        alloc: Global,
        document: &Document,
        range: Range,
        mends: &[Mend],
    ) -> Result<Value, AllocError> {
        actions(alloc, &self.about(document), range, mends)
    }
}
