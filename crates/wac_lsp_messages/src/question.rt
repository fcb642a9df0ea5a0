//! What a client asks of a document.
ghost use Rattle.std.specs.Prelude.{◌≡◌, IfOk, codes, option_map};
ghost use Rattle.serde_json.specs.View.{items_view, view};
ghost use Rattle.wac_lsp_messages.specs.Calls.{IsPlaceRead, IsTopicRead, options_in, positions_in};
ghost use Rattle.wac_lsp_messages.specs.Reading.{each, place_of, range_in};

use crate::fields::{count, field, flag};
use crate::navigation::{
    read_completions, read_definition, read_highlights, read_hover, read_prepare_rename,
    read_references, read_rename,
};
use crate::notice::{Range, read_place, read_range};
use crate::refusal::{Code, Refusal};
use serde_json::Value;
use std::alloc::{AllocError, Global};
use wac_positions::Place;

/// How a document is to be laid out.
#[derive(Clone, Copy, Debug, PartialEq, Eq)]
pub struct FormattingOptions {
    /// How many blanks a tab is worth.
    pub tab_size: usize,
    /// Whether lines begin with blanks, and not with tabs.
    pub insert_spaces: bool,
}

/// What a client asks of a document.
#[derive(Debug, Drop)]
pub enum Question {
    /// The edits that lay it out.
    Formatting(FormattingOptions),
    /// The edits that lay out a part of it.
    RangeFormatting(Range, FormattingOptions),
    /// What it declares.
    Symbols,
    /// The kinds of its tokens.
    SemanticTokens,
    /// Which parts of it can be folded.
    FoldingRanges,
    /// What is around places of it.
    SelectionRanges(Vec<Place>),
    /// What mends a part of it.
    CodeActions(Range),
    /// What can stand at a place of it.
    Completions(Place),
    /// Where the name at a place is bound.
    Definition(Place),
    /// Where the name at a place is used, and where it is bound, if that is asked for.
    References(Place, bool),
    /// Where the name at a place is bound and used, to be marked.
    Highlights(Place),
    /// What is said of the name at a place.
    Hover(Place),
    /// Which name can be renamed at a place.
    PrepareRename(Place),
    /// The edits that give the name at a place another one.
    Rename(Place, String),
}

/// What reading the parameters of a question gives: it, or why not.
pub(crate) type QuestionResult = Result<Question, Refusal>;

/// Parameters that lack something, or have another type.
pub(crate) const INVALID_PARAMS: Refusal = Refusal {
    code: Code::InvalidParams,
    message: "the parameters are not those of this method",
};

/// A method that there isn't.
const NO_METHOD: Refusal = Refusal {
    code: Code::MethodNotFound,
    message: "there is no such method",
};

/// How a document is to be laid out.
fn read_options(params: &Value) -> Option<FormattingOptions>
    ensures { result ≡ options_in (view params.now) }
{
    let options = field(params, "options")?;
    Some(FormattingOptions {
        tab_size: count(options, "tabSize")?,
        insert_spaces: flag(options, "insertSpaces")?,
    })
}

/// The part of a document that a question is about.
fn read_part(params: &Value) -> Option<Range>
    ensures { result ≡ range_in (codes "range") (view params.now) }
{
    read_range(field(params, "range")?)
}

/// The edits that lay out a document.
#[tactic(auto, using(crate::proofs::Refusing::formatting_anyhow))]
fn read_formatting(params: &Value) -> QuestionResult
    ensures { IsTopicRead (codes "textDocument/formatting") (view params.now) result }
{
    match read_options(params) {
        Some(options) => Ok(Question::Formatting(options)),
        None => Err(INVALID_PARAMS),
    }
}

/// The edits that lay out a part of a document.
#[tactic(auto, using(crate::proofs::Refusing::range_formatting_anyhow, crate::proofs::Refusing::range_formatting_nowhere))]
fn read_range_formatting(params: &Value) -> QuestionResult
    ensures { IsTopicRead (codes "textDocument/rangeFormatting") (view params.now) result }
{
    let Some(options) = read_options(params) else {
        return Err(INVALID_PARAMS);
    };
    match read_part(params) {
        Some(range) => Ok(Question::RangeFormatting(range, options)),
        None => Err(INVALID_PARAMS),
    }
}

/// What mends a part of a document.
#[tactic(auto, using(crate::proofs::Refusing::code_actions_nowhere))]
fn read_actions(params: &Value) -> QuestionResult
    ensures { IsTopicRead (codes "textDocument/codeAction") (view params.now) result }
{
    match read_part(params) {
        Some(range) => Ok(Question::CodeActions(range)),
        None => Err(INVALID_PARAMS),
    }
}

/// The places that values are, if each is one.
fn read_each_place(alloc: Global, values: &[Value]) -> Result<Option<Vec<Place>>, AllocError>
    ensures { IfOk result (λ found. option_map (λ all. all.items) found ≡ each place_of (items_view values.now)) }
{
    let mut all = Vec::new(alloc);
    for value in values {
        match read_place(value) {
            Some(place) => all.push(place)?,
            None => return Ok(None),
        }
    }
    Ok(Some(all))
}

/// The places of a question, if each value is one.
fn read_places(alloc: Global, params: &Value) -> Result<Option<Vec<Place>>, AllocError>
    ensures { IfOk result (λ found. option_map (λ all. all.items) found ≡ positions_in (view params.now)) }
{
    match field(params, "positions") {
        Some(Value::Array(values)) => read_each_place(alloc, values),
        _ => Ok(None),
    }
}

/// What is around places of a document.
#[tactic(auto, using(crate::proofs::Refusing::selections_nowhere))]
fn read_selections(alloc: Global, params: &Value) -> Result<QuestionResult, AllocError>
    ensures { IfOk result (IsPlaceRead (codes "textDocument/selectionRange") (view params.now)) }
{
    match read_places(alloc, params)? {
        Some(places) => Ok(Ok(Question::SelectionRanges(places))),
        None => Ok(Err(INVALID_PARAMS)),
    }
}

/// What a request of this method asks of a document, in a line for each method.
pub(crate) fn read_question(
    alloc: Global,
    method: &str,
    params: &Value,
) -> Result<QuestionResult, AllocError>
    ensures { IfOk result (IsTopicRead method.now (view params.now)) }
{
    match method {
        "textDocument/formatting" => Ok(read_formatting(params)),
        "textDocument/rangeFormatting" => Ok(read_range_formatting(params)),
        "textDocument/documentSymbol" => Ok(Ok(Question::Symbols)),
        "textDocument/semanticTokens/full" => Ok(Ok(Question::SemanticTokens)),
        "textDocument/foldingRange" => Ok(Ok(Question::FoldingRanges)),
        "textDocument/codeAction" => Ok(read_actions(params)),
        _ => read_question_at(alloc, method, params),
    }
}

/// What a request of this method asks of places of a document, in a line for each method.
fn read_question_at(
    alloc: Global,
    method: &str,
    params: &Value,
) -> Result<QuestionResult, AllocError>
    ensures { IfOk result (IsPlaceRead method.now (view params.now)) }
{
    match method {
        "textDocument/selectionRange" => read_selections(alloc, params),
        "textDocument/completion" => Ok(read_completions(params)),
        "textDocument/definition" => Ok(read_definition(params)),
        "textDocument/references" => Ok(read_references(params)),
        "textDocument/documentHighlight" => Ok(read_highlights(params)),
        "textDocument/hover" => Ok(read_hover(params)),
        "textDocument/prepareRename" => Ok(read_prepare_rename(params)),
        "textDocument/rename" => read_rename(alloc, params),
        _ => Ok(Err(NO_METHOD)),
    }
}
