// Finds the longest prefix of a text that has a shape, in one walk over its bytes by two tables.
ghost use Rattle.std.specs.Prelude.{◌≡◌, ◌<◌, length, true, Some};
ghost use Rattle.wac_lexer.specs.Automaton.{class_of, class_at, class_count, step_of, state_at, state_count, end_count, shape_at};
ghost use Rattle.wac_lexer.specs.Front.{found_at, longest};
ghost use Rattle.wac_lexer.specs.declared.shape.Shape.TheVariants.{Symbol};

use crate::shape::Shape;

/// The number of the state at the start of a text.
const START: usize = 13;

/// The number of the state in which no text of any shape begins.
const DEAD: usize = 26;

/// A token may end in the states with smaller numbers.
const ENDS: usize = 13;

/// The number of the state at the end of a symbol that no byte continues.
const ENDED: usize = 12;

/// How many columns `STEPS` has: one for each class, and two that are never read, so that a row's place is a shift.
const CLASS_COUNT: usize = 16;

/// The class of each byte, by its number in `classes`: 0 a small letter, 1 a capital one, 2 a digit, 3 `%`, 4 `-`, 5 `+`, 6 `:`, 7 `/`, 8 `@`, 9 `.`, 10 `"`,
/// 11 `>`, 12 another symbol, 13 any other byte.
static CLASSES: [u8; 256] = [
    // 0x00: control codes, and TAB, LF, CR
    13, 13, 13, 13, 13, 13, 13, 13, 13, 13, 13, 13, 13, 13, 13, 13,
    // 0x10: control codes
    13, 13, 13, 13, 13, 13, 13, 13, 13, 13, 13, 13, 13, 13, 13, 13,
    // 0x20: space ! " # $ % & ' ( ) * + , - . /
    13, 13, 10, 13, 13, 3, 13, 13, 12, 12, 13, 5, 12, 4, 9, 7,
    // 0x30: digits : ; < = > ?
    2, 2, 2, 2, 2, 2, 2, 2, 2, 2, 6, 12, 12, 12, 11, 13,
    // 0x40: @, A to O
    8, 1, 1, 1, 1, 1, 1, 1, 1, 1, 1, 1, 1, 1, 1, 1,
    // 0x50: P to Z, [ \ ] ^ _
    1, 1, 1, 1, 1, 1, 1, 1, 1, 1, 1, 12, 13, 12, 13, 12,
    // 0x60: `, a to o
    13, 0, 0, 0, 0, 0, 0, 0, 0, 0, 0, 0, 0, 0, 0, 0,
    // 0x70: p to z, { | } ~ DEL
    0, 0, 0, 0, 0, 0, 0, 0, 0, 0, 0, 12, 13, 12, 13, 13,
    // 0x80: a part of another character
    13, 13, 13, 13, 13, 13, 13, 13, 13, 13, 13, 13, 13, 13, 13, 13,
    // 0x90: a part of another character
    13, 13, 13, 13, 13, 13, 13, 13, 13, 13, 13, 13, 13, 13, 13, 13,
    // 0xa0: a part of another character
    13, 13, 13, 13, 13, 13, 13, 13, 13, 13, 13, 13, 13, 13, 13, 13,
    // 0xb0: a part of another character
    13, 13, 13, 13, 13, 13, 13, 13, 13, 13, 13, 13, 13, 13, 13, 13,
    // 0xc0: a part of another character
    13, 13, 13, 13, 13, 13, 13, 13, 13, 13, 13, 13, 13, 13, 13, 13,
    // 0xd0: a part of another character
    13, 13, 13, 13, 13, 13, 13, 13, 13, 13, 13, 13, 13, 13, 13, 13,
    // 0xe0: a part of another character
    13, 13, 13, 13, 13, 13, 13, 13, 13, 13, 13, 13, 13, 13, 13, 13,
    // 0xf0: a part of another character
    13, 13, 13, 13, 13, 13, 13, 13, 13, 13, 13, 13, 13, 13, 13, 13,
];

/// The state after one more byte: a row for each state, by its number in `states`, and in it a column for each class.
static STEPS: [u8; 432] = [
    // 0: Small First
    0, 26, 0, 26, 14, 26, 17, 26, 26, 26, 26, 26, 26, 26, 26, 26,
    // 1: Capital First
    26, 1, 1, 26, 14, 26, 17, 26, 26, 26, 26, 26, 26, 26, 26, 26,
    // 2: Small (Later Name)
    2, 26, 2, 26, 15, 26, 17, 18, 19, 26, 26, 26, 26, 26, 26, 26,
    // 3: Capital (Later Name)
    26, 3, 3, 26, 15, 26, 17, 18, 19, 26, 26, 26, 26, 26, 26, 26,
    // 4: Digits Name
    26, 26, 4, 26, 26, 26, 26, 26, 26, 21, 26, 26, 26, 26, 26, 26,
    // 5: Tail Name
    5, 5, 5, 26, 5, 5, 26, 26, 26, 21, 26, 26, 26, 26, 26, 26,
    // 6: Small (Later Path)
    6, 26, 6, 26, 16, 26, 26, 18, 20, 26, 26, 26, 26, 26, 26, 26,
    // 7: Capital (Later Path)
    26, 7, 7, 26, 16, 26, 26, 18, 20, 26, 26, 26, 26, 26, 26, 26,
    // 8: Digits Path
    26, 26, 8, 26, 26, 26, 26, 26, 26, 22, 26, 26, 26, 26, 26, 26,
    // 9: Tail Path
    9, 9, 9, 26, 9, 9, 26, 26, 26, 22, 26, 26, 26, 26, 26, 26,
    // 10: Closed
    26, 26, 26, 26, 26, 26, 26, 26, 26, 26, 26, 26, 26, 26, 26, 26,
    // 11: OneDot
    26, 26, 26, 26, 26, 26, 26, 26, 26, 25, 26, 26, 26, 26, 26, 26,
    // 12: Ended
    26, 26, 26, 26, 26, 26, 26, 26, 26, 26, 26, 26, 26, 26, 26, 26,
    // 13: Start
    0, 1, 26, 14, 24, 26, 12, 12, 12, 11, 23, 12, 12, 26, 26, 26,
    // 14: Joined First
    0, 1, 26, 26, 26, 26, 26, 26, 26, 26, 26, 26, 26, 26, 26, 26,
    // 15: Joined (Later Name)
    2, 3, 26, 26, 26, 26, 26, 26, 26, 26, 26, 26, 26, 26, 26, 26,
    // 16: Joined (Later Path)
    6, 7, 26, 26, 26, 26, 26, 26, 26, 26, 26, 26, 26, 26, 26, 26,
    // 17: After Name
    2, 3, 26, 15, 26, 26, 26, 26, 26, 26, 26, 26, 26, 26, 26, 26,
    // 18: After Path
    6, 7, 26, 16, 26, 26, 26, 26, 26, 26, 26, 26, 26, 26, 26, 26,
    // 19: Version Name
    26, 26, 4, 26, 26, 26, 26, 26, 26, 26, 26, 26, 26, 26, 26, 26,
    // 20: Version Path
    26, 26, 8, 26, 26, 26, 26, 26, 26, 26, 26, 26, 26, 26, 26, 26,
    // 21: Point Name
    5, 5, 5, 26, 5, 5, 26, 26, 26, 26, 26, 26, 26, 26, 26, 26,
    // 22: Point Path
    9, 9, 9, 26, 9, 9, 26, 26, 26, 26, 26, 26, 26, 26, 26, 26,
    // 23: Inside
    23, 23, 23, 23, 23, 23, 23, 23, 23, 23, 10, 23, 23, 23, 23, 23,
    // 24: Minus
    26, 26, 26, 26, 26, 26, 26, 26, 26, 26, 26, 12, 26, 26, 26, 26,
    // 25: TwoDots
    26, 26, 26, 26, 26, 26, 26, 26, 26, 12, 26, 26, 26, 26, 26, 26,
    // 26: Dead
    26, 26, 26, 26, 26, 26, 26, 26, 26, 26, 26, 26, 26, 26, 26, 26,
];

/// What a byte is to a state.
fn class_of(byte: u8) -> u8
    ensures class { class_at result ≡ class_of byte }
    ensures within { result < class_count }
{
    CLASSES[usize::from(byte)]
}

/// The state after one more byte.
fn step(state: usize, byte: u8) -> usize
    requires { state < state_count }
    ensures state { state_at result ≡ step_of (state_at state) (class_of byte) }
    ensures within { result < state_count }
{
    usize::from(STEPS[state * CLASS_COUNT + usize::from(class_of(byte))])
}

/// The shape of the whole text that was read, if it has one.
fn shape_at(state: usize) -> Option<Shape>
    ensures { result ≡ shape_at (state_at state) }
{
    match state {
        0 | 1 => Some(Shape::Word),
        2..=5 => Some(Shape::Name),
        6..=9 => Some(Shape::Path),
        10 => Some(Shape::Quoted),
        11 | 12 => Some(Shape::Symbol),
        _ => None,
    }
}

/// A prefix of this length, with the shape of the texts that end in this state.
fn front(len: usize, state: usize) -> Option<(usize, Shape)>
    ensures { result ≡ found_at len state }
{
    match shape_at(state) {
        Some(shape) => Some((len, shape)),
        None => None,
    }
}

/// How many bytes come before the one that no text of any shape continues with, and the state after them.
fn walk(bytes: &[u8]) -> (usize, usize)
    ensures { result.1 < end_count → found_at result.0 result.1 ≡ longest bytes.now (length bytes.now) }
{
    let mut state = START;
    for (i, byte) in bytes.iter().enumerate() {
        let next = step(state, *byte);
        if next == DEAD {
            return (i, state);
        }
        state = next;
    }
    (bytes.len(), state)
}

/// The longest prefix that has a shape, where the walk goes on after it, as in `a:b/` or in `"` without an end.
fn longest_ended(bytes: &[u8]) -> Option<(usize, Shape)>
    ensures { result ≡ longest bytes.now (length bytes.now) }
{
    let mut state = START;
    let mut len = 0;
    let mut last = START;
    for (i, byte) in bytes.iter().enumerate() {
        state = step(state, *byte);
        if state == DEAD {
            return front(len, last);
        }
        if state < ENDS {
            len = i + 1;
            last = state;
        }
    }
    front(len, last)
}

/// Whether the first byte is a symbol that no byte continues, as `;` is.
fn begins_alone(bytes: &[u8]) -> bool
    ensures { result ≡ true → longest bytes.now (length bytes.now) ≡ Some (1, Symbol) }
{
    if bytes.is_empty() {
        return false;
    }
    step(START, bytes[0]) == ENDED
}

/// The longest prefix that has a shape. Half of all tokens are a symbol alone, for which nothing is walked over.
pub(crate) fn longest_front(bytes: &[u8]) -> Option<(usize, Shape)>
    ensures { result ≡ longest bytes.now (length bytes.now) }
{
    if begins_alone(bytes) {
        return Some((1, Shape::Symbol));
    }
    let (len, state) = walk(bytes);
    if state < ENDS {
        front(len, state)
    } else {
        longest_ended(bytes)
    }
}
