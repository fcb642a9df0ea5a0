//! Where two kinds differ first.
ghost use Rattle.std.specs.Prelude.{ℕ, IfOk, IfSome};
ghost use Rattle.wac_graph_types.specs.Table.{IsTable, Names};
ghost use Rattle.wac_component_rules.specs.Found.{AllFit};
ghost use Rattle.wac_component_rules.specs.Told.{IsThereUnlessFits, LeadsInBoth};

use crate::differences::{Difference, Pair, first_difference};
use crate::internals::{Found, fits_after};
use crate::mismatch_words::{Mismatch, Step};
use crate::places::{Topic, place};
use std::alloc::{AllocError, Global};
use wac_graph_types::{Entry, ItemKind, Types};

/// Where the first kind of a table differs from the second one, if it may not stand where the second is expected.
///
/// Parts are compared in this order: `async`; parameters pair by pair, name, then type, then their number; results
/// the same way; a component's imports in its own order, then its exports in the expected one's. Types are compared
/// both ways, this way first. The path takes
/// memory, and so do long chains of types: for each pair of types at most 200 bytes, and no stack.
///
/// ```text
/// match mismatch(alloc, types, given, expected)? {
///     None => ..,           // `given` fits
///     Some(found) => ..,    // `found` reads: at parameter `x`: expected s8, found u8
/// }
/// ```
pub fn mismatch<'a>(
    alloc: Global,
    types: &'a Types,
    a: ItemKind,
    b: ItemKind,
) -> Result<Option<Mismatch<'a>>, AllocError>
    requires table { IsTable types.now }
    requires first { Names types.now a }
    requires second { Names types.now b }
    ensures there { (o : ℕ → ℕ) → IfOk result (λ m. IsThereUnlessFits o types.now a b m) }
    ensures leads { IfOk result (λ m. IfSome m (LeadsInBoth types.now a b)) }
{
    let mut found = Found::new(alloc);
    if fits_after(types.entries(), &mut found, a, b) {
        return Ok(None);
    }
    let pair = Pair {
        given: a,
        expected: b,
    };
    match located(alloc, types.entries(), &mut found, pair) {
        Err(e) => Err(e),
        Ok(mismatch) => Ok(Some(mismatch)),
    }
}

/// The first place where a pair differs.
fn located<'a>(
    alloc: Global,
    entries: &'a [Entry],
    found: &mut Found,
    pair: Pair,
) -> Result<Mismatch<'a>, AllocError>
    requires table { IsTable entries.now }
    requires found { AllFit entries.now found.old }
    ensures { IfOk result (LeadsInBoth entries.now pair.given pair.expected) }
{
    let mut path = Vec::new(alloc);
    let mut at = pair;
    // Each step leads to earlier entries, and a pair is turned at most once before the next.
    for _ in 0..(entries.len() as u128 * 2 + 2) {
        match first_difference(entries, found, at) {
            Difference::Here(step, topic) => {
                push(&mut path, step)?;
                return Ok(told(entries, path, pair, topic));
            }
            Difference::At(step, part) => {
                push(&mut path, step)?;
                at = part;
            }
        }
    }
    Ok(told(entries, path, pair, Topic::Kind))
}

fn push<'a>(path: &mut Vec<Step<'a>>, step: Option<Step<'a>>) -> Result<(), AllocError> {
    match step {
        None => Ok(()),
        Some(step) => {
            path.push(step)?;
            Ok(())
        }
    }
}

/// What is at the end of the path in each of the two kinds.
fn told<'a>(entries: &'a [Entry], path: Vec<Step<'a>>, pair: Pair, topic: Topic) -> Mismatch<'a>
    requires table { IsTable entries.now }
    ensures { LeadsInBoth entries.now pair.given pair.expected result }
{
    let expected = place(entries, pair.expected, path.as_slice(), topic);
    let found = place(entries, pair.given, path.as_slice(), topic);
    Mismatch {
        path,
        expected,
        found,
    }
}
