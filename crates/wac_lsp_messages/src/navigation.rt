//! What a client asks about the name at a place of a document.
ghost use Rattle.std.specs.Prelude.{◌≡◌, IfOk, codes};
ghost use Rattle.serde_json.specs.View.{view};
ghost use Rattle.wac_lsp_messages.specs.Calls.{IsPlaceRead, declaration_in, position_in};

use crate::fields::{field, flag, owned_text};
use crate::notice::read_place;
use crate::question::{INVALID_PARAMS, Question, QuestionResult};
use serde_json::Value;
use std::alloc::{AllocError, Global};
use wac_positions::Place;

/// The place of a question.
fn read_position(params: &Value) -> Option<Place>
    ensures { result ≡ position_in (view params.now) }
{
    read_place(field(params, "position")?)
}

/// What can stand at a place.
#[tactic(auto, using(crate::proofs::Refusing::completions_nowhere))]
pub(crate) fn read_completions(params: &Value) -> QuestionResult
    ensures { IsPlaceRead (codes "textDocument/completion") (view params.now) result }
{
    match read_position(params) {
        Some(place) => Ok(Question::Completions(place)),
        None => Err(INVALID_PARAMS),
    }
}

/// Where a name is bound.
#[tactic(auto, using(crate::proofs::Refusing::definition_nowhere))]
pub(crate) fn read_definition(params: &Value) -> QuestionResult
    ensures { IsPlaceRead (codes "textDocument/definition") (view params.now) result }
{
    match read_position(params) {
        Some(place) => Ok(Question::Definition(place)),
        None => Err(INVALID_PARAMS),
    }
}

/// Whether the place where a name is bound is asked for too.
fn read_declaration(params: &Value) -> Option<bool>
    ensures { result ≡ declaration_in (view params.now) }
{
    flag(field(params, "context")?, "includeDeclaration")
}

/// Where a name is used, perhaps with where it is bound.
#[tactic(auto, using(crate::proofs::Refusing::references_nowhere, crate::proofs::Refusing::references_undecided))]
pub(crate) fn read_references(params: &Value) -> QuestionResult
    ensures { IsPlaceRead (codes "textDocument/references") (view params.now) result }
{
    let Some(place) = read_position(params) else {
        return Err(INVALID_PARAMS);
    };
    match read_declaration(params) {
        Some(declaration) => Ok(Question::References(place, declaration)),
        None => Err(INVALID_PARAMS),
    }
}

/// Where a name is bound and used, to be marked.
#[tactic(auto, using(crate::proofs::Refusing::highlights_nowhere))]
pub(crate) fn read_highlights(params: &Value) -> QuestionResult
    ensures { IsPlaceRead (codes "textDocument/documentHighlight") (view params.now) result }
{
    match read_position(params) {
        Some(place) => Ok(Question::Highlights(place)),
        None => Err(INVALID_PARAMS),
    }
}

/// What is said of a name.
#[tactic(auto, using(crate::proofs::Refusing::hover_nowhere))]
pub(crate) fn read_hover(params: &Value) -> QuestionResult
    ensures { IsPlaceRead (codes "textDocument/hover") (view params.now) result }
{
    match read_position(params) {
        Some(place) => Ok(Question::Hover(place)),
        None => Err(INVALID_PARAMS),
    }
}

/// Which name is to be renamed.
#[tactic(auto, using(crate::proofs::Refusing::prepare_rename_nowhere))]
pub(crate) fn read_prepare_rename(params: &Value) -> QuestionResult
    ensures { IsPlaceRead (codes "textDocument/prepareRename") (view params.now) result }
{
    match read_position(params) {
        Some(place) => Ok(Question::PrepareRename(place)),
        None => Err(INVALID_PARAMS),
    }
}

/// The edits that give a name another one.
#[tactic(auto, using(crate::proofs::Refusing::rename_nowhere, crate::proofs::Refusing::rename_unnamed))]
pub(crate) fn read_rename(alloc: Global, params: &Value) -> Result<QuestionResult, AllocError>
    ensures { IfOk result (IsPlaceRead (codes "textDocument/rename") (view params.now)) }
{
    let Some(place) = read_position(params) else {
        return Ok(Err(INVALID_PARAMS));
    };
    match owned_text(alloc, params, "newName")? {
        Some(new_name) => Ok(Ok(Question::Rename(place, new_name))),
        None => Ok(Err(INVALID_PARAMS)),
    }
}
