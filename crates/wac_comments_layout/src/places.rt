// The places of a printed text: its gaps, each between two tokens.
use crate::brackets::{Brackets, closes, is_mark, opened_by, opens};
use crate::pieces::Piece;
use crate::separators::Separator;
use std::alloc::{AllocError, Global};

/// Brackets and what is in them.
#[derive(Clone, Copy, Debug)]
pub(crate) struct Group {
    pub(crate) brackets: Brackets,
    /// The group around it.
    pub(crate) around: Option<usize>,
    /// Each element is on lines of its own.
    pub(crate) is_broken: bool,
    /// How deep the line is that the opening bracket is on.
    pub(crate) depth: usize,
}

/// A gap of the printed text: the comments between two tokens.
#[derive(Clone, Copy, Debug)]
pub(crate) struct Place<'a> {
    /// The index of the first comment, or of the token after the gap.
    pub(crate) first: usize,
    /// The index of the token after the gap.
    pub(crate) last: usize,
    /// The token before it, which is empty at the start of the text.
    pub(crate) before: &'a str,
    /// The token after it, which is empty at the end of the text.
    pub(crate) after: &'a str,
    /// What is in it where there are no comments.
    pub(crate) separator: Separator,
    /// The brackets around it.
    pub(crate) group: Option<usize>,
}

impl Place<'_> {
    pub(crate) fn has_comments(&self) -> bool {
        self.first < self.last
    }

    pub(crate) fn at_start(&self) -> bool {
        self.before.is_empty()
    }

    pub(crate) fn at_end(&self) -> bool {
        self.after.is_empty()
    }

    /// Whether it is the first of a body, a list or the text.
    pub(crate) fn is_first(&self) -> bool {
        self.at_start() || opens(self.before)
    }

    pub(crate) fn is_last(&self) -> bool {
        self.at_end() || closes(self.after)
    }

    /// Whether it lies at one end of an element of a list.
    pub(crate) fn is_edge(&self) -> bool {
        self.is_first() || self.is_last() || is_mark(self.before, b',')
    }

    /// Whether a line ends in it.
    pub(crate) fn is_break(&self) -> bool {
        self.separator.lines > 0
    }

    /// Whether its comments ask for a line end that is not printed without them.
    pub(crate) fn breaks_line(&self, pieces: &[Piece<'_>]) -> bool {
        self.has_comments() && !self.is_break() && has_line_end(pieces, self.first, self.last)
    }
}

/// Whether a line ends before one of the pieces from one index to another.
fn has_line_end(pieces: &[Piece<'_>], first: usize, last: usize) -> bool {
    for index in first..last.saturating_add(1) {
        if let Some(piece) = pieces.get(index) {
            if piece.breaks > 0 {
                return true;
            }
        }
    }
    false
}

/// The group at an index.
pub(crate) fn group_at(groups: &[Group], index: Option<usize>) -> Option<Group> {
    match index {
        Some(index) => groups.get(index).copied(),
        None => None,
    }
}

/// What is in the brackets of the group at an index. A text is a body.
pub(crate) fn brackets_at(groups: &[Group], index: Option<usize>) -> Brackets {
    match group_at(groups, index) {
        Some(group) => group.brackets,
        None => Brackets::Body,
    }
}

/// The places of a printed text, and the groups of its brackets.
#[derive(Drop)]
pub(crate) struct Plan<'a> {
    pub(crate) places: Vec<Place<'a>>,
    pub(crate) groups: Vec<Group>,
}

impl<'a> Plan<'a> {
    /// The places of the pieces of a printed text, and where its lines end.
    pub(crate) fn new(
        alloc: Global,
        pieces: &[Piece<'a>],
        separators: &[Separator],
    ) -> Result<Plan<'a>, AllocError> {
        let mut planner = Planner::new(alloc, separators.len())?;
        for (index, piece) in pieces.iter().enumerate() {
            if !piece.is_comment() {
                planner.add(piece.text, index, separators)?;
            }
        }
        let Planner { mut plan, .. } = planner;
        // Else each line ends where it does without comments.
        if plan.break_groups(pieces) {
            plan.break_elements();
        }
        Ok(plan)
    }

    /// Breaks each group in which a comment asks for a line end, and those around it up to one that is broken anyway:
    /// whether one asks.
    fn break_groups(&mut self, pieces: &[Piece<'_>]) -> bool {
        let mut asks = false;
        for place in self.places.as_slice() {
            if place.breaks_line(pieces) {
                break_from(self.groups.as_mut_slice(), place.group);
                asks = true;
            }
        }
        asks
    }

    /// Begins a line with each element of a broken group.
    fn break_elements(&mut self) {
        let groups = self.groups.as_slice();
        for place in self.places.as_mut_slice() {
            if !place.is_break() && is_broken(groups, place.group) && place.is_edge() {
                place.separator = Separator {
                    lines: 1,
                    blanks: 0,
                };
            }
        }
    }
}

/// Whether the group at an index is broken.
fn is_broken(groups: &[Group], index: Option<usize>) -> bool {
    match index {
        Some(index) => match groups.get(index) {
            Some(group) => group.is_broken,
            None => false,
        },
        None => false,
    }
}

/// Breaks the group at an index and those around it, up to one that is broken.
fn break_from(groups: &mut [Group], index: Option<usize>) {
    let mut next = index;
    // A group has fewer than all groups around it.
    for _ in 0..groups.len() {
        let Some(index) = next else { return };
        let Some(group) = groups.get_mut(index) else {
            return;
        };
        if group.is_broken {
            return;
        }
        group.is_broken = true;
        next = group.around;
    }
}

/// Makes a plan, token by token.
#[derive(Drop)]
struct Planner<'a> {
    plan: Plan<'a>,
    group: Option<usize>,
    // The last three tokens.
    before: &'a str,
    earlier: &'a str,
    earliest: &'a str,
    first: usize,
}

impl<'a> Planner<'a> {
    /// A plan of this many places.
    fn new(alloc: Global, places: usize) -> Result<Self, AllocError> {
        let places = Vec::with_capacity(alloc, places)?;
        Ok(Planner {
            plan: Plan {
                places,
                groups: Vec::new(alloc),
            },
            group: None,
            before: "",
            earlier: "",
            earliest: "",
            first: 0,
        })
    }

    /// Adds the gap before the token at an index.
    fn add(
        &mut self,
        token: &'a str,
        index: usize,
        separators: &[Separator],
    ) -> Result<(), AllocError> {
        let separator = match separators.get(self.plan.places.len()) {
            Some(separator) => *separator,
            None => Separator {
                lines: 0,
                blanks: 1,
            },
        };
        if opens(self.before) {
            self.open(separator.lines > 0)?;
        }
        let place = Place {
            first: self.first,
            last: index,
            before: self.before,
            after: token,
            separator,
            group: self.group,
        };
        if closes(token) {
            self.close();
        }
        self.earliest = self.earlier;
        self.earlier = self.before;
        self.before = token;
        self.first = index.saturating_add(1);
        match self.plan.places.push(place) {
            Ok(()) => Ok(()),
            Err(_) => Err(AllocError),
        }
    }

    /// Enters the brackets that the last token opens.
    fn open(&mut self, is_broken: bool) -> Result<(), AllocError> {
        let group = Group {
            brackets: opened_by(self.before, self.earlier, self.earliest),
            around: self.group,
            is_broken,
            depth: 0,
        };
        self.group = Some(self.plan.groups.len());
        match self.plan.groups.push(group) {
            Ok(()) => Ok(()),
            Err(_) => Err(AllocError),
        }
    }

    /// Leaves the innermost brackets.
    fn close(&mut self) {
        self.group = match group_at(self.plan.groups.as_slice(), self.group) {
            Some(group) => group.around,
            None => None,
        };
    }
}
