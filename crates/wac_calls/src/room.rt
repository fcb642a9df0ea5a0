// Room that a caller brings.
ghost use Rattle.std.specs.Prelude.{◌≡◌, ◌++◌, ◌≤◌, ◌<◌, length, take, drop};
ghost use Rattle.wac_calls.specs.Room.{continues, IsFitting, IsPut};

/// Whether a byte goes on with the character of the byte before it.
fn continues(byte: u8) -> bool
    ensures { result ≡ continues byte }
{
    byte >= 0x80 && byte < 0xC0
}

/// How many bytes of a text fit into so much room, in whole characters.
fn fitting(text: &[u8], room: usize) -> usize
    ensures { IsFitting text.now room result }
{
    if text.len() <= room {
        return text.len();
    }
    let mut end = room;
    'back: while end > 0 && continues(text[end]) {
        end -= 1;
    }
    end
}

/// Puts as much of a text into a room as fits, in whole characters. Returns how many bytes that is.
pub(crate) fn put(text: &[u8], room: &mut [u8]) -> usize
    ensures { IsPut text.now result (length text.now) room.old room.new }
{
    let end = fitting(text, room.len());
    let (front, _) = text.split_at(end);
    let (start, _) = room.split_at_mut(end);
    start.copy_from_slice(front);
    end
}
