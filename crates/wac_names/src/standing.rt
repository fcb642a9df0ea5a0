//! Names whose mentions are those which looking up finds.
ghost use Rattle.std.specs.Prelude.{◌≡◌, All, IfOk, IfSome, IsTrue, map, option_copied, slice_get, true};
ghost use Rattle.std.specs.List.{cons_option, filter_map};
ghost use Rattle.wac_names.specs.LookedUp.{AreLookedUp, IsBoundAt, IsMember, IsMemberAt, StandsAt, mentions_found, name_found, said};
ghost use Rattle.wac_names.specs.LookUps.{look_ups};
ghost use Rattle.wac_names.specs.Places.{AreTied, IsTied, same_name};
ghost use Rattle.wac_names.specs.Traced.{traced};

use crate::found::{Found, found_in};
use crate::names::{Kind, Mention, Name, Names, numbered};
use crate::steps::StepTaken;
use crate::tied::tied_names;
use indexmap::IndexMap;
use std::alloc::{AllocError, Global};
use wac_lexer::SourceSpan;

/// Whether two spans are the same.
fn is_same_span(first: SourceSpan, second: SourceSpan) -> bool
    ensures { IsTrue result → first ≡ second }
{
    first.offset() == second.offset() && first.len() == second.len()
}

/// Whether this was found at a place, and is bound there.
fn is_found(found: &Found, at: SourceSpan, bound: SourceSpan) -> bool
    ensures { IsTrue result → found.now ≡ record { at = at; bound = bound } }
{
    is_same_span(found.at, at) && is_same_span(found.bound, bound)
}

/// What is left of what was found after a mention, if that found the first of it; all where it is of a member.
fn left_after<'f>(mention: &Mention, all: &'f [Found]) -> Option<&'f [Found]>
    ensures { IfSome result (λ rest. all.now ≡ cons_option (said mention.now) rest.now) }
{
    match (mention.bound, all.split_first()) {
        (None, _) => Some(all),
        (Some(bound), Some((found, rest))) if is_found(found, mention.span, bound) => Some(rest),
        (Some(_), _) => None,
    }
}

/// Whether mentions found this in scopes, in order.
fn are_found(mentions: &[Mention], all: &[Found]) -> bool
    ensures { IsTrue result → filter_map said mentions.now ≡ all.now }
{
    let mut rest = all;
    for mention in mentions {
        match left_after(mention, rest) {
            Some(left) => rest = left,
            None => return false,
        }
    }
    rest.is_empty()
}

/// Whether the name of a number is bound at a place.
fn is_bound_at(bindings: &[Name], number: usize, place: SourceSpan) -> bool
    ensures { IsTrue result → IsBoundAt bindings.now number place }
{
    match numbered(bindings, number) {
        Some(name) => is_same_span(name.span, place),
        None => false,
    }
}

/// Whether a mention is of a member, is at a place, and stands for the name of a number.
fn is_member(mention: &Mention, number: usize, place: SourceSpan) -> bool
    ensures { IsTrue result → IsMember number place mention.now }
{
    match mention.bound {
        Some(_) => false,
        None => mention.binding == number && is_same_span(mention.span, place),
    }
}

/// The mention of a number.
fn mention_numbered(mentions: &[Mention], number: usize) -> Option<&Mention>
    ensures { option_copied result ≡ slice_get mentions.now number }
{
    mentions.get(number)
}

/// Whether the mention of a number is such.
fn is_member_at(mentions: &[Mention], at: usize, number: usize, place: SourceSpan) -> bool
    ensures { IsTrue result → IsMemberAt mentions.now number place }
{
    match mention_numbered(mentions, at) {
        Some(mention) => is_member(mention, number, place),
        None => false,
    }
}

/// The numbers of the mentions of members, by their offsets.
fn members(alloc: Global, mentions: &[Mention]) -> Result<IndexMap<usize, usize>, AllocError> {
    let mut all = IndexMap::new(alloc);
    for (number, mention) in mentions.iter().enumerate() {
        if mention.bound.is_none() {
            all.insert(mention.span.offset(), number)?;
        }
    }
    Ok(all)
}

/// Whether the name of a number stands at a place.
fn stands_at(
    names: &Names,
    members: &IndexMap<usize, usize>,
    number: usize,
    place: SourceSpan,
) -> bool
    ensures { IsTrue result → StandsAt names.now number place }
{
    if is_bound_at(&names.bindings, number, place) {
        return true;
    }
    match members.get(&place.offset()) {
        Some(at) => is_member_at(&names.mentions, *at, number, place),
        None => false,
    }
}

/// Whether a mention stands for the name that stands where its scope binds it.
fn is_standing(names: &Names, members: &IndexMap<usize, usize>, mention: &Mention) -> bool
    ensures { IsTrue result → IfSome mention.now.bound (StandsAt names.now mention.now.binding) }
{
    match mention.bound {
        Some(bound) => stands_at(names, members, mention.binding, bound),
        None => true,
    }
}

/// Whether all mentions do.
fn are_standing(names: &Names, members: &IndexMap<usize, usize>) -> bool
    ensures { IsTrue result → All (λ m. IfSome m.bound (StandsAt names.now m.binding)) names.now.mentions.items }
{
    for mention in &names.mentions {
        if !is_standing(names, members, mention) {
            return false;
        }
    }
    true
}

/// The name at each place where something was found to be bound, one for each.
fn names_found(alloc: Global, all: &[Found]) -> Result<Vec<Name>, AllocError>
    ensures { IfOk result (λ names. names.items ≡ map name_found all.now) }
{
    let mut names = Vec::new(alloc);
    for found in all {
        names.push(Name {
            span: found.bound,
            kind: Kind::Let,
            container: None,
        })?;
    }
    Ok(names)
}

/// The mentions of what was found, each of a name of its own.
fn mentions_found(alloc: Global, all: &[Found]) -> Result<Vec<Mention>, AllocError>
    ensures { IfOk result (λ mentions. mentions.items ≡ mentions_found 0 all.now) }
{
    let mut mentions = Vec::new(alloc);
    for found in all {
        mentions.push(Mention {
            span: found.at,
            binding: mentions.len(),
            bound: Some(found.bound),
        })?;
    }
    Ok(mentions)
}

/// Names of what was found, and of nothing else. No document is known of which a finder finds something else: this is
/// there so that a finder needs no proof.
fn plain_names(alloc: Global, source: &str, all: &[Found]) -> Result<Names, AllocError>
    requires { All (λ f. same_name source.now f.at f.bound ≡ true) all.now }
    ensures tied { IfOk result (AreTied source.now) }
    ensures found { IfOk result (λ names. filter_map said names.mentions.items ≡ all.now) }
    ensures stand { IfOk result (λ names. All (λ m. IfSome m.bound (StandsAt names m.binding)) names.mentions.items) }
{
    let bindings = names_found(alloc, all)?;
    let mentions = mentions_found(alloc, all)?;
    Ok(Names { bindings, mentions })
}

/// Whether a finder found what was looked up.
fn is_right(alloc: Global, names: &Names, all: &[Found]) -> Result<bool, AllocError>
    ensures found { IfOk result (λ is. IsTrue is → filter_map said names.now.mentions.items ≡ all.now) }
    ensures stand { IfOk result (λ is. IsTrue is
        → All (λ m. IfSome m.bound (StandsAt names.now m.binding)) names.now.mentions.items) }
{
    let members = members(alloc, &names.mentions)?;
    Ok(are_found(&names.mentions, all) && are_standing(names, &members))
}

/// What a finder found, if that is what the steps look up, in a document of the package of a name; else names of that.
pub(crate) fn standing_names(
    alloc: Global,
    source: &str,
    own: &str,
    found: Names,
    steps: &[StepTaken<'_>],
) -> Result<Names, AllocError>
    ensures tied { IfOk result (AreTied source.now) }
    ensures looked_up { IfOk result (AreLookedUp source.now (look_ups own.now (traced steps.now))) }
{
    let all = found_in(alloc, source, own, steps)?;
    let names = tied_names(alloc, source, found)?;
    if is_right(alloc, &names, &all)? {
        Ok(names)
    } else {
        plain_names(alloc, source, &all)
    }
}
