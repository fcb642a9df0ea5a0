//! What the identifiers of a document find.
ghost use Rattle.std.specs.Prelude.{◌≡◌, IfOk, OnOk, option_and_then, option_map};
ghost use Rattle.wac_names.specs.LookUps.{all_found, finds, if_spelled, look_ups, looked_up};
ghost use Rattle.wac_names.specs.Traced.{step_of, traced, with_last};

use crate::scopes::Scopes;
use crate::steps::{Level, StepTaken};
use crate::tied::is_same_name;
use std::alloc::{AllocError, Global};
use wac_lexer::SourceSpan;

/// Where an identifier is, and where the name is bound that it finds.
#[derive(Clone, Copy)]
pub struct Found {
    /// Where the identifier is.
    pub at: SourceSpan,
    /// Where the name is bound.
    pub bound: SourceSpan,
}

/// What an identifier at a place finds, where something is bound.
fn found_at(at: SourceSpan, bound: Option<SourceSpan>) -> Option<Found>
    ensures { result ≡ option_map (λ s. record { at = at; bound = s }) bound }
{
    match bound {
        Some(bound) => Some(Found { at, bound }),
        None => None,
    }
}

/// What a step looks up and finds.
fn found_by(own: &str, scopes: &Scopes<'_>, step: &StepTaken<'_>) -> Option<Found>
    ensures { result ≡ option_and_then finds (looked_up own.now scopes.now (step_of step.now)) }
{
    match step {
        StepTaken::LooksUp(level, id) => found_at(id.span, scopes.find(*level, id.string)),
        StepTaken::LooksOutwards(level, id) => found_at(
            id.span,
            scopes.find_outwards(*level, id.string),
        ),
        StepTaken::Enters(name, id) => {
            if *name == own {
                found_at(id.span, scopes.find(Level::Root, id.string))
            } else {
                None
            }
        }
        StepTaken::Begins(_) | StepTaken::Binds(_, _) => None,
    }
}

/// The same, if the name is spelled alike in the source, as all names of a text's document are.
fn spelled(source: &str, found: Option<Found>) -> Option<Found>
    ensures { result ≡ option_and_then (if_spelled source.now) found }
{
    match found {
        Some(found) => {
            if is_same_name(source, found.at, found.bound) {
                Some(found)
            } else {
                None
            }
        }
        None => None,
    }
}

/// Adds what was found, if something was.
fn add(all: &mut Vec<Found>, found: Option<Found>) -> Result<(), AllocError>
    ensures { OnOk result (all.new.items ≡ with_last all.old.items found) }
{
    if let Some(found) = found {
        all.push(found)?;
    }
    Ok(())
}

/// What steps look up and find, in a document of the package of a name.
pub(crate) fn found_in(
    alloc: Global,
    source: &str,
    own: &str,
    steps: &[StepTaken<'_>],
) -> Result<Vec<Found>, AllocError>
    ensures { IfOk result (λ all. all.items ≡ all_found source.now (look_ups own.now (traced steps.now))) }
{
    let mut scopes = Scopes::new(alloc);
    let mut all = Vec::new(alloc);
    for step in steps {
        let found = spelled(source, found_by(own, &scopes, step));
        add(&mut all, found)?;
        scopes.take(step)?;
    }
    Ok(all)
}
