// The layout of a text with its comments.
use crate::brackets::{closes, is_mark, opens};
use crate::joints::{Joint, Seam};
use crate::pieces::Piece;
use crate::places::{Group, Place, Plan, brackets_at, group_at};
use crate::separators::separators;
use crate::writer::{Style, Writer};
use std::alloc::{AllocError, Global};

/// Lays out the pieces of a text as they are printed: its lines end where those of the printed text without comments
/// end, which is given too, and where comments ask for it.
pub fn lay_out<'a>(
    alloc: Global,
    pieces: &'a [Piece<'a>],
    printed: &str,
    style: Style<'_>,
) -> Result<String, AllocError> {
    let separators = separators(alloc, pieces, printed)?;
    let Plan { places, mut groups } = Plan::new(alloc, pieces, separators.as_slice())?;
    let mut writer = Writer::new(alloc, style);
    for (index, place) in places.iter().enumerate() {
        write_gap(alloc, &mut writer, groups.as_slice(), place, pieces)?;
        writer.write(place.after)?;
        if opens(place.after) {
            let next = places.get(index.saturating_add(1));
            set_depth(groups.as_mut_slice(), next, writer.depth());
        }
    }
    Ok(writer.into_text())
}

/// Keeps how deep the line is on which the brackets around a place open.
fn set_depth(groups: &mut [Group], place: Option<&Place<'_>>, depth: usize) {
    let group = match place {
        Some(place) => place.group,
        None => None,
    };
    if let Some(group) = group {
        if let Some(group) = groups.get_mut(group) {
            group.depth = depth;
        }
    }
}

/// Writes a gap.
fn write_gap<'a>(
    alloc: Global,
    writer: &mut Writer<'_>,
    groups: &[Group],
    place: &Place<'a>,
    pieces: &'a [Piece<'a>],
) -> Result<(), AllocError> {
    if !place.has_comments() {
        return write_separator(writer, groups, place);
    }
    let seam = Seam::new(brackets_at(groups, place.group), *place, pieces);
    let joints = seam.joints(alloc)?;
    write_comments(writer, groups, &seam, joints.as_slice())
}

/// Writes a gap without comments.
fn write_separator(
    writer: &mut Writer<'_>,
    groups: &[Group],
    place: &Place<'_>,
) -> Result<(), AllocError> {
    if place.at_end() {
        writer.end_lines(1)
    } else if !place.is_break() {
        writer.blanks(place.separator.blanks)
    } else if place.at_start() {
        Ok(())
    } else {
        writer.begin_line(token_depth(groups, place), place.separator.lines)
    }
}

/// How deep what is in the brackets around a place is.
fn inner_depth(groups: &[Group], place: &Place<'_>) -> usize {
    match group_at(groups, place.group) {
        Some(group) => group.depth.saturating_add(1),
        None => 0,
    }
}

/// How deep a line is that begins with a comment.
fn comment_depth(groups: &[Group], place: &Place<'_>) -> usize {
    let inner = inner_depth(groups, place);
    if place.is_break() {
        inner
    } else {
        inner.saturating_add(1)
    }
}

/// How deep a line is that begins with the token after the gap.
fn token_depth(groups: &[Group], place: &Place<'_>) -> usize {
    let inner = inner_depth(groups, place);
    if place.is_break() {
        if closes(place.after) {
            inner.saturating_sub(1)
        } else {
            inner
        }
    } else if is_mark(place.after, b'{')
        || is_mark(place.after, b',')
        || is_mark(place.after, b';')
    {
        inner
    } else {
        inner.saturating_add(1)
    }
}

/// Writes the comments of a gap.
fn write_comments(
    writer: &mut Writer<'_>,
    groups: &[Group],
    seam: &Seam<'_>,
    joints: &[Joint],
) -> Result<(), AllocError> {
    let last_line = last_line(joints);
    let mut column = 0;
    for (index, (piece, joint)) in seam.pieces.iter().zip(joints.iter()).enumerate() {
        match *joint {
            Joint::Joined => {
                if !hugs(seam, index, last_line.is_none()) {
                    writer.write(" ")?;
                }
            }
            Joint::Below => writer.begin_below(column)?,
            Joint::Line => begin(writer, groups, seam, (index, 1, last_line))?,
            Joint::Paragraph => begin(writer, groups, seam, (index, 2, last_line))?,
        }
        column = writer.column();
        if piece.is_comment() {
            writer.write(piece.text)?;
        }
    }
    Ok(())
}

/// The last piece that begins a line.
fn last_line(joints: &[Joint]) -> Option<usize> {
    let mut last = None;
    for (index, joint) in joints.iter().enumerate() {
        if *joint != Joint::Joined {
            last = Some(index);
        }
    }
    last
}

/// Whether no blank comes before the piece at an index, which doesn't begin a line.
fn hugs(seam: &Seam<'_>, index: usize, is_inline: bool) -> bool {
    let before = seam.place.before;
    let after = seam.place.after;
    let is_token = index.saturating_add(1) == seam.pieces.len();
    if is_token && (closes_line(after) || after == "," || after == ";" || after == ":") {
        return true;
    }
    index == 0 && is_inline && (before == "(" || before == "[" || before == "<")
}

/// Whether no comment has a blank before this bracket.
fn closes_line(token: &str) -> bool {
    token == ")" || token == "]" || token == ">"
}

/// Begins the line of the piece at an index, after so many line ends. A line with the token on it is as deep as that.
fn begin(
    writer: &mut Writer<'_>,
    groups: &[Group],
    seam: &Seam<'_>,
    (index, line_ends, last_line): (usize, usize, Option<usize>),
) -> Result<(), AllocError> {
    let is_token = index.saturating_add(1) == seam.pieces.len();
    if is_token && seam.place.at_end() {
        return writer.end_lines(1);
    }
    if index == 0 && seam.place.at_start() {
        return Ok(());
    }
    let depth = if last_line == Some(index) {
        token_depth(groups, &seam.place)
    } else {
        comment_depth(groups, &seam.place)
    };
    writer.begin_line(depth, line_ends)
}
