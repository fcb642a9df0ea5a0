//! Mutants of components, which a seed determines: bytes are changed, left out, doubled, cut off, or taken from another
//! component. Half of them are made within a section, whose size is put right.

use rand_core::Rng;
use rand_pcg::Pcg32;
use std::alloc::{AllocError, Global};

/// Bytes that begin or end something in a component, and the longest numbers.
static SPECIAL: [&[u8]; 12] = [
    b"\0",
    b"\x01",
    b"\x02",
    b"\x03",
    b"\x05",
    b"\x40",
    b"\x42",
    b"\x69",
    b"\x7f",
    b"\xff\xff\xff\xff\x0f",
    b"\x80\x80\x80\x80\x10",
    b"\x80\x80\x80\x80\x80\0",
];

/// A change: so many bytes from a place on are replaced.
struct Change {
    first: usize,
    count: usize,
    bytes: Vec<u8>,
}

impl Drop for Change {
    fn drop(self) {
        let Change {
            first: _,
            count: _,
            bytes: _,
        } = self;
    }
}

/// The bytes of a section: from the byte after its size to its end.
#[derive(Clone, Copy)]
struct Section {
    first: usize,
    start: usize,
    end: usize,
}

/// Makes mutants of the components that it is given.
pub(crate) struct Mutants {
    alloc: Global,
    words: Pcg32,
}

impl Drop for Mutants {
    fn drop(self) {
        let Mutants { alloc: _, words: _ } = self;
    }
}

/// Bytes with a change made.
fn changed(alloc: Global, bytes: &[u8], change: &Change) -> Result<Vec<u8>, AllocError> {
    let first = change.first.min(bytes.len());
    let after = first.saturating_add(change.count).min(bytes.len());
    let mut made = Vec::from_slice(alloc, &bytes[..first])?;
    made.extend_from_slice(change.bytes.as_slice())?;
    made.extend_from_slice(&bytes[after..])?;
    Ok(made)
}

/// The bytes from a place on, at most so many.
fn part(bytes: &[u8], first: usize, count: usize) -> &[u8] {
    let first = first.min(bytes.len());
    let end = first.saturating_add(count).min(bytes.len());
    &bytes[first..end]
}

/// The section that begins at an offset.
fn section_at(bytes: &[u8], first: usize) -> Option<Section> {
    let mut size = 0usize;
    for place in 0..5usize {
        let at = first.saturating_add(1).saturating_add(place);
        let byte = *bytes.get(at)?;
        size = size.saturating_add(((byte & 0x7f) as usize) << (7 * place));
        if byte < 0x80 {
            let start = at.saturating_add(1);
            return Some(Section {
                first,
                start,
                end: start.saturating_add(size).min(bytes.len()),
            });
        }
    }
    None
}

/// A number below 2^28 in LEB128.
fn leb(alloc: Global, number: usize) -> Result<Vec<u8>, AllocError> {
    let mut bytes = Vec::new(alloc);
    let mut rest = number & 0x0fff_ffff;
    for _ in 0..4 {
        let group = (rest & 0x7f) as u8;
        rest >>= 7;
        if rest == 0 {
            bytes.push(group)?;
            return Ok(bytes);
        }
        bytes.push(group | 0x80)?;
    }
    Ok(bytes)
}

impl Mutants {
    pub(crate) fn new(alloc: Global, seed: u64) -> Self {
        Mutants {
            alloc,
            words: Pcg32::new(seed, 0),
        }
    }

    /// A number below another one, or 0.
    pub(crate) fn below(&mut self, end: usize) -> usize {
        match (self.words.next_u32() as usize).checked_rem(end) {
            Some(number) => number,
            None => 0,
        }
    }

    fn random(&mut self, count: usize) -> Result<Vec<u8>, AllocError> {
        let mut bytes = Vec::new(self.alloc);
        for _ in 0..count {
            bytes.push((self.words.next_u32() & 0xff) as u8)?;
        }
        Ok(bytes)
    }

    /// What bytes are replaced by, at a place: of their own, of another component, or any.
    fn replacement(
        &mut self,
        bytes: &[u8],
        other: &[u8],
        first: usize,
    ) -> Result<Change, AllocError> {
        let count = self.below(8);
        let (taken, new) = match self.below(8) {
            0 => (count, Vec::new(self.alloc)),
            1 => (0, self.random(count)?),
            2 => (
                0,
                Vec::from_slice(self.alloc, part(bytes, first, count.saturating_mul(5)))?,
            ),
            3 => {
                let place = self.below(other.len());
                (
                    count,
                    Vec::from_slice(self.alloc, part(other, place, count))?,
                )
            }
            4 => (1, self.random(1)?),
            5 => (usize::MAX, Vec::new(self.alloc)),
            _ => {
                let number = self.below(SPECIAL.len());
                let special: &[u8] = match SPECIAL.get(number) {
                    Some(found) => *found,
                    None => b"",
                };
                (1, Vec::from_slice(self.alloc, special)?)
            }
        };
        Ok(Change {
            first,
            count: taken,
            bytes: new,
        })
    }

    /// Bytes with one to four changes.
    fn changed_often(&mut self, bytes: &[u8], other: &[u8]) -> Result<Vec<u8>, AllocError> {
        let mut made = Vec::from_slice(self.alloc, bytes)?;
        for _ in 0..self.below(4).saturating_add(1) {
            let first = self.below(made.len());
            let change = self.replacement(made.as_slice(), other, first)?;
            made = changed(self.alloc, made.as_slice(), &change)?;
        }
        Ok(made)
    }

    /// One of the sections of a component.
    fn section(&mut self, bytes: &[u8]) -> Option<Section> {
        let mut found = section_at(bytes, 8)?;
        for _ in 0..self.below(16) {
            match section_at(bytes, found.end) {
                Some(next) => found = next,
                None => return Some(found),
            }
        }
        Some(found)
    }

    /// A component of which a section is changed, with its size put right.
    fn changed_inside(
        &mut self,
        bytes: &[u8],
        other: &[u8],
        section: Section,
    ) -> Result<Vec<u8>, AllocError> {
        let inner = part(
            bytes,
            section.start,
            section.end.saturating_sub(section.start),
        );
        let body = self.changed_often(inner, other)?;
        let mut made = Vec::from_slice(
            self.alloc,
            part(bytes, 0, section.first.saturating_add(1)),
        )?;
        let size = leb(self.alloc, body.len())?;
        made.extend_from_slice(size.as_slice())?;
        made.extend_from_slice(body.as_slice())?;
        made.extend_from_slice(part(bytes, section.end, usize::MAX))?;
        Ok(made)
    }

    /// A mutant of a component, with bytes of another one in it.
    pub(crate) fn mutant(&mut self, bytes: &[u8], other: &[u8]) -> Result<Vec<u8>, AllocError> {
        if self.below(2) == 0 {
            return self.changed_often(bytes, other);
        }
        match self.section(bytes) {
            Some(section) => self.changed_inside(bytes, other, section),
            None => self.changed_often(bytes, other),
        }
    }
}
