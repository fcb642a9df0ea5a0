// One gap: how each of its comments, and the token after them, follows what comes before it.
use crate::brackets::Brackets;
use crate::pieces::Piece;
use crate::places::Place;
use std::alloc::{AllocError, Global};

/// How a comment or a token follows what comes before it.
#[derive(Clone, Copy, Debug, PartialEq, Eq)]
pub(crate) enum Joint {
    /// On the same line.
    Joined,
    /// On the next line, in the same column.
    Below,
    /// On a line of its own.
    Line,
    /// On a line of its own, after an empty line.
    Paragraph,
}

/// A gap with comments, and what is around it.
#[derive(Clone, Copy)]
pub(crate) struct Seam<'a> {
    pub(crate) place: Place<'a>,
    /// The comments, and the token after them.
    pub(crate) pieces: &'a [Piece<'a>],
    pub(crate) brackets: Brackets,
}

impl<'a> Seam<'a> {
    /// The gap at a place of pieces.
    pub(crate) fn new(brackets: Brackets, place: Place<'a>, pieces: &'a [Piece<'a>]) -> Seam<'a> {
        let end = place.last.saturating_add(1).min(pieces.len());
        let (front, _) = pieces.split_at(end);
        let (_, pieces) = front.split_at(place.first.min(end));
        Seam {
            place,
            pieces,
            brackets,
        }
    }

    fn is_token(&self, index: usize) -> bool {
        index.saturating_add(1) == self.pieces.len()
    }

    /// Whether the parser reads docs here.
    fn has_docs(&self) -> bool {
        self.place.is_break()
            && (self.brackets == Brackets::Body || self.brackets == Brackets::Rows)
            && !self.place.is_last()
    }

    fn is_after_item(&self) -> bool {
        self.place.is_break() && self.brackets == Brackets::Body && !self.place.is_first()
    }

    /// Whether lines may end in this gap.
    fn may_break(&self) -> bool {
        self.place.is_break() || self.pieces.iter().any(|piece| piece.breaks > 0)
    }

    /// How each comment, and the token after them, follows what comes before it.
    pub(crate) fn joints(&self, alloc: Global) -> Result<Vec<Joint>, AllocError> {
        let mut joints = Vec::new(alloc);
        let may_break = self.may_break();
        for index in 0..self.pieces.len() {
            let joint = if may_break && self.begins_line(index) {
                Joint::Line
            } else {
                Joint::Joined
            };
            if joints.push(joint).is_err() {
                return Err(AllocError);
            }
        }
        self.go_below(joints.as_mut_slice());
        self.part(joints.as_mut_slice());
        Ok(joints)
    }

    /// Whether the comment at an index begins a line, or the token after them.
    fn begins_line(&self, index: usize) -> bool {
        self.is_asked_to(index)
            || index == 0 && (self.place.at_start() || self.goes_with_token())
            || self.is_token(index) && self.place.is_last()
    }

    /// Whether the piece at an index comes after a line end or a doc, or is a doc.
    fn is_asked_to(&self, index: usize) -> bool {
        let breaks = match self.pieces.get(index) {
            Some(piece) => piece.breaks > 0,
            None => false,
        };
        breaks || self.has_doc(index) || index > 0 && self.has_doc(index - 1)
    }

    fn is_doc(&self, index: usize) -> bool {
        match self.pieces.get(index) {
            Some(piece) => piece.is_comment() && piece.is_doc(),
            None => false,
        }
    }

    /// Whether comments on the line of both tokens go with the one after them.
    fn goes_with_token(&self) -> bool {
        if self.place.is_last() && !self.place.is_first() {
            return false;
        }
        for index in 0..self.pieces.len() {
            if self.is_asked_to(index) {
                return false;
            }
        }
        true
    }

    /// Marks the comments that continue a line comment at the end of a line: those directly below in the same column.
    fn go_below(&self, joints: &mut [Joint]) {
        for (index, joint) in joints.iter_mut().enumerate() {
            if *joint == Joint::Line {
                if index == 0 || !self.goes_on(index - 1, index) {
                    return;
                }
                *joint = Joint::Below;
            }
        }
    }

    /// Whether the piece at an index is a line comment that continues the one at an index before it.
    fn goes_on(&self, before: usize, index: usize) -> bool {
        match (self.pieces.get(before), self.pieces.get(index)) {
            (Some(before), Some(piece)) => {
                piece.breaks <= 1
                    && before.column == piece.column
                    && before.is_line()
                    && piece.is_line()
                    && !self.has_doc(index)
            }
            _ => false,
        }
    }

    /// Whether the parser reads the comment at an index as a doc.
    fn has_doc(&self, index: usize) -> bool {
        self.has_docs() && self.is_doc(index)
    }

    /// Puts an empty line before the pieces that need one.
    fn part(&self, joints: &mut [Joint]) {
        let mut only_trailing = true;
        let mut has_line = false;
        for (index, joint) in joints.iter_mut().enumerate() {
            let was = *joint;
            if was == Joint::Line && self.has_empty_line(index, only_trailing, has_line) {
                *joint = Joint::Paragraph;
            }
            only_trailing = only_trailing && was == Joint::Joined;
            has_line = has_line || was == Joint::Line;
        }
    }

    /// Whether an empty line comes before a piece that begins a line: `only_trailing` says that those before it are at
    /// the end of a line, and `has_line` that one of them begins a line.
    fn has_empty_line(&self, index: usize, only_trailing: bool, has_line: bool) -> bool {
        let is_token = self.is_token(index);
        if !self.place.is_break()
            || only_trailing && self.place.is_first()
            || is_token && self.place.is_last()
        {
            return false;
        }
        if self.is_after_item() && !has_line {
            return true;
        }
        let breaks = match self.pieces.get(index) {
            Some(piece) => piece.breaks,
            None => 0,
        };
        breaks > 1 && !(only_trailing && is_token)
    }
}
