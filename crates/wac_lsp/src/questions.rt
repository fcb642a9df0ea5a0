//! What is asked of an open document, and what that gets.
ghost use Rattle.std.specs.Prelude.{IfOk, IsOk};
ghost use Rattle.wac_lsp.specs.Answers.{AnswersQuestion};

use crate::actions::actions;
use crate::completing::completed;
use crate::folding::folding_ranges;
use crate::formatting::formatted;
use crate::hovering::hovered;
use crate::navigation::{definition, highlights, prepared, references, renamed};
use crate::ranging::formatted_range;
use crate::selecting::selections;
use crate::symbols::symbols;
use crate::tokens::tokens;
use serde_json::Value;
use std::alloc::{AllocError, Global};
use wac_lsp_messages::{Features, Question, Refusal};
use wac_positions::ColumnUnit;

/// What a request gets.
pub(crate) type Answered = Result<Value, Refusal>;

/// The document that a question is about, and what the client takes.
#[derive(Clone, Copy)]
pub(crate) struct Subject<'d> {
    pub(crate) uri: &'d str,
    /// The version of its text: none where it isn't known.
    pub(crate) version: Option<i64>,
    pub(crate) text: &'d str,
    pub(crate) unit: ColumnUnit,
    /// What the client takes of answers.
    pub(crate) features: Features,
    /// The URI of the page that explains the codes of errors, if the client named one.
    pub(crate) errors_page: Option<&'d str>,
}

/// What is asked, where it isn't refused.
fn found(value: Result<Value, AllocError>) -> Result<Answered, AllocError>
    ensures { IfOk result (λ answered. IsOk answered) }
{
    match value {
        Ok(value) => Ok(Ok(value)),
        Err(_) => Err(AllocError),
    }
}

/// What a question about a document gets, in a line for each question.
pub(crate) fn answer_question(
    alloc: Global,
    about: &Subject<'_>,
    question: &Question,
) -> Result<Answered, AllocError>
    ensures { IfOk result (AnswersQuestion about.now.unit about.now.text.now question.now) }
{
    let text = about.text;
    let unit = about.unit;
    match question {
        Question::Formatting(options) => formatted(alloc, text, *options, unit),
        Question::RangeFormatting(range, options) => {
            formatted_range(alloc, text, *range, *options, unit)
        }
        Question::Symbols => found(symbols(alloc, about)),
        Question::SemanticTokens => found(tokens(alloc, text, unit)),
        Question::FoldingRanges => found(folding_ranges(alloc, about)),
        Question::SelectionRanges(places) => {
            found(selections(alloc, text, places.as_slice(), unit))
        }
        Question::CodeActions(range) => found(actions(alloc, about, *range, &[])),
        Question::Completions(place) => found(completed(alloc, text, *place, unit, &[])),
        Question::Definition(place) => found(definition(alloc, about, *place)),
        Question::References(place, with) => found(references(alloc, about, *place, *with)),
        Question::Highlights(place) => found(highlights(alloc, about, *place)),
        Question::Hover(place) => found(hovered(alloc, about, *place)),
        Question::PrepareRename(place) => found(prepared(alloc, about, *place)),
        Question::Rename(place, new) => renamed(alloc, about, *place, new.as_str()),
    }
}
