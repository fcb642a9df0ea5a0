//! What may stand where what is expected, computed kind by kind from what is known of their parts.

use std::alloc::AllocError;

/// What a kind is apart from its parts.
#[derive(Clone, Copy, PartialEq, Eq)]
pub enum Shape {
    Byte,
    Char,
    List,
    Tuple,
    Record,
    Own,
    Borrow,
    Resource,
    Func,
    AsyncFunc,
    Instance,
    Component,
    Type,
}

/// A part: its name, and which kind it is of.
pub type Part = (&'static str, usize);

/// A kind over earlier ones. Own, borrow and resources have the source's name.
#[derive(Drop)]
pub struct Kind {
    pub shape: Shape,
    pub name: &'static str,
    pub imports: Vec<Part>,
    pub parts: Vec<Part>,
}

/// The pairs of kinds that are known to fit.
#[derive(Drop)]
pub struct Known {
    pairs: Vec<(usize, usize)>,
}

impl Known {
    pub fn new(alloc: std::alloc::Global) -> Self {
        Known {
            pairs: Vec::new(alloc),
        }
    }

    pub fn add(&mut self, given: usize, expected: usize) -> Result<(), AllocError> {
        self.pairs.push((given, expected))?;
        Ok(())
    }

    pub fn count(&self) -> usize {
        self.pairs.len()
    }

    pub fn has(&self, given: usize, expected: usize) -> bool {
        for (a, b) in &self.pairs {
            if *a == given && *b == expected {
                return true;
            }
        }
        false
    }
}

fn in_order(known: &Known, given: &[Part], expected: &[Part]) -> bool {
    if given.len() != expected.len() {
        return false;
    }
    for at in 0..given.len() {
        let (one, first) = given[at];
        let (other, second) = expected[at];
        if one != other || !known.has(first, second) {
            return false;
        }
    }
    true
}

fn is_there(known: &Known, given: &[Part], expected: Part) -> bool {
    for (name, kind) in given {
        if *name == expected.0 && known.has(*kind, expected.1) {
            return true;
        }
    }
    false
}

fn each_is_there(known: &Known, given: &[Part], expected: &[Part]) -> bool {
    for part in expected {
        if !is_there(known, given, *part) {
            return false;
        }
    }
    true
}

/// Whether a kind may stand where another one is expected.
pub fn may_stand(known: &Known, given: &Kind, expected: &Kind) -> bool {
    if given.shape != expected.shape || given.name != expected.name {
        return false;
    }
    match given.shape {
        Shape::Instance => each_is_there(known, &given.parts, &expected.parts),
        Shape::Component => {
            each_is_there(known, &expected.imports, &given.imports)
                && each_is_there(known, &given.parts, &expected.parts)
        }
        Shape::Type => {
            in_order(known, &given.parts, &expected.parts)
                && in_order(known, &expected.parts, &given.parts)
        }
        _ => in_order(known, &given.parts, &expected.parts),
    }
}
