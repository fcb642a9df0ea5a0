//! Kinds that a seed determines, as the definition takes them.

use crate::choices::Choices;
use crate::definition::{Kind, Known, Part, Shape, may_stand};
use std::alloc::{AllocError, Global};

/// How many kinds a table has.
pub const COUNT: usize = 12;

const SHAPES: [Shape; 14] = [
    Shape::List,
    Shape::Tuple,
    Shape::Record,
    Shape::Record,
    Shape::Own,
    Shape::Borrow,
    Shape::Resource,
    Shape::Func,
    Shape::AsyncFunc,
    Shape::Instance,
    Shape::Instance,
    Shape::Component,
    Shape::Component,
    Shape::Type,
];

fn is_value(shape: Shape) -> bool {
    match shape {
        Shape::Byte => true,
        Shape::Char => true,
        Shape::List => true,
        Shape::Tuple => true,
        Shape::Record => true,
        Shape::Own => true,
        Shape::Borrow => true,
        _ => false,
    }
}

/// The number of one of the kinds so far which is that of a value: the first is one.
fn value(kinds: &[Kind], choices: &mut Choices) -> usize {
    let start = choices.below(kinds.len());
    for back in 0..start {
        let at = start - back;
        match kinds.get(at) {
            Some(kind) if is_value(kind.shape) => return at,
            _ => (),
        }
    }
    0
}

/// Two parts under names: none of them, the first, both, or both the other way round.
fn chosen(
    alloc: Global,
    choice: usize,
    first: usize,
    second: usize,
) -> Result<Vec<Part>, AllocError> {
    match choice {
        0 => Ok(Vec::new(alloc)),
        1 => Ok(vec![in alloc; ("a", first)]?),
        2 => Ok(vec![in alloc; ("a", first), ("b", second)]?),
        _ => Ok(vec![in alloc; ("b", second), ("a", first)]?),
    }
}

/// The parts of a kind of some shape: of an instance and a component its exports, which may be of any kind.
fn parts(
    alloc: Global,
    kinds: &[Kind],
    choices: &mut Choices,
    shape: Shape,
) -> Result<Vec<Part>, AllocError> {
    let first = value(kinds, choices);
    let second = value(kinds, choices);
    let choice = choices.below(4);
    match shape {
        Shape::List => Ok(vec![in alloc; ("", first)]?),
        Shape::Type => Ok(vec![in alloc; ("", first)]?),
        Shape::Tuple => Ok(vec![in alloc; ("", first), ("", second)]?),
        Shape::Record => chosen(alloc, choice, first, second),
        Shape::Func => chosen(alloc, choice, first, second),
        Shape::AsyncFunc => chosen(alloc, choice, first, second),
        Shape::Instance => items(alloc, kinds, choices),
        Shape::Component => items(alloc, kinds, choices),
        _ => Ok(Vec::new(alloc)),
    }
}

fn items(alloc: Global, kinds: &[Kind], choices: &mut Choices) -> Result<Vec<Part>, AllocError> {
    let first = choices.below(kinds.len());
    let second = choices.below(kinds.len());
    let choice = choices.below(4);
    chosen(alloc, choice, first, second)
}

/// A kind over those so far.
fn kind(
    alloc: Global,
    kinds: &[Kind],
    choices: &mut Choices,
    shape: Shape,
) -> Result<Kind, AllocError> {
    let parts = parts(alloc, kinds, choices, shape)?;
    let name = match (shape, choices.below(2)) {
        (Shape::Own, 0) => "r",
        (Shape::Own, _) => "s",
        (Shape::Borrow, 0) => "r",
        (Shape::Borrow, _) => "s",
        (Shape::Resource, 0) => "r",
        (Shape::Resource, _) => "s",
        _ => "",
    };
    let imports = match shape {
        Shape::Component => items(alloc, kinds, choices)?,
        _ => Vec::new(alloc),
    };
    Ok(Kind {
        shape,
        name,
        imports,
        parts,
    })
}

/// The kinds of a seed, each over earlier ones.
pub fn generate(alloc: Global, choices: &mut Choices) -> Result<Vec<Kind>, AllocError> {
    let mut all = Vec::new(alloc);
    all.push(kind(alloc, &[], choices, Shape::Byte)?)?;
    all.push(kind(alloc, &[], choices, Shape::Char)?)?;
    for _ in 2..COUNT {
        let shape = SHAPES[choices.below(SHAPES.len()) % SHAPES.len()];
        let next = kind(alloc, all.as_slice(), choices, shape)?;
        all.push(next)?;
    }
    Ok(all)
}

/// Adds a pair of kinds, if it fits.
fn add_pair(
    known: &mut Known,
    kinds: &[Kind],
    given: usize,
    expected: usize,
) -> Result<(), AllocError> {
    match (kinds.get(given), kinds.get(expected)) {
        (Some(a), Some(b)) if may_stand(known, a, b) => known.add(given, expected),
        _ => Ok(()),
    }
}

/// Adds the pairs of a kind and each earlier one that fit, and the kind's own.
fn add_pairs(known: &mut Known, kinds: &[Kind], number: usize) -> Result<(), AllocError> {
    for other in 0..number {
        add_pair(known, kinds, other, number)?;
        add_pair(known, kinds, number, other)?;
    }
    add_pair(known, kinds, number, number)
}

/// The pairs of kinds that fit, by the definition.
pub fn known_pairs(alloc: Global, kinds: &[Kind]) -> Result<Known, AllocError> {
    let mut known = Known::new(alloc);
    for number in 0..kinds.len() {
        add_pairs(&mut known, kinds, number)?;
    }
    Ok(known)
}
