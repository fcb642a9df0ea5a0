//! What ends the lines of a document, which it keeps when it is laid out: one choice for the commands and for editors.
#![tactic(auto)]

use wac_comments::LineEnd;

/// Where a byte of a text is.
#[derive(Clone, Copy, PartialEq, Eq)]
enum Place {
    Plain,
    /// Within a string.
    Text,
    /// Within a line comment.
    Line,
    /// Within so many block comments.
    Block(usize),
}

/// What the byte before leads to, together with the next.
#[derive(Clone, Copy)]
struct Scan {
    place: Place,
    // The byte before, or 0 where it belongs to a mark that is complete.
    before: u8,
}

impl Scan {
    fn at(place: Place, before: u8) -> Scan {
        Scan { place, before }
    }

    /// The scan after one byte more.
    fn after(self, byte: u8) -> Scan {
        match (self.place, self.before, byte) {
            (Place::Plain, b'/', b'/') => Scan::at(Place::Line, 0),
            (Place::Plain, b'/', b'*') => Scan::at(Place::Block(1), 0),
            (Place::Plain, _, b'"') => Scan::at(Place::Text, 0),
            (Place::Text, _, b'"') => Scan::at(Place::Plain, 0),
            (Place::Block(depth), b'/', b'*') => Scan::at(Place::Block(depth.saturating_add(1)), 0),
            (Place::Block(depth), b'*', b'/') => Scan::at(outside(depth), 0),
            (place, _, byte) => Scan::at(place, byte),
        }
    }
}

/// Where the text goes on after the end of a block comment.
fn outside(depth: usize) -> Place {
    if depth < 2 {
        Place::Plain
    } else {
        Place::Block(depth - 1)
    }
}

/// What ends the first line of a document that ends outside strings and block comments. It is LF where there is none.
///
/// Line ends within strings and block comments stay as they are, so it is this one that a text keeps when it is printed.
pub fn line_end_of(text: &str) -> LineEnd {
    let mut scan = Scan::at(Place::Plain, 0);
    for byte in text.as_bytes() {
        if *byte == b'\n' && matches!(scan.place, Place::Plain | Place::Line) {
            return if scan.before == b'\r' {
                LineEnd::CrLf
            } else {
                LineEnd::Lf
            };
        }
        scan = scan.after(*byte);
    }
    LineEnd::Lf
}
