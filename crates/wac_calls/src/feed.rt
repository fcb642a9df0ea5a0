// A feed over a text in memory.
ghost use Rattle.std.specs.Prelude.{◌≡◌, ◌+◌, [], Some, take, drop};

use std::marker::Model;
use wac_lexer::Feed;

/// A feed over a text in memory, which never fails.
#[derive(Drop)]
pub(crate) struct Text<'a> {
    bytes: &'a [u8],
    taken: usize,
}

impl<'a> Model for Text<'a> {
    ghost use Rattle.std.specs.Prelude.{◌≤◌, length, take, drop};
    ghost use Rattle.wac_calls.specs.Feed.{Reading};

    ghost Value = { Reading };

    ghost view = { λ t. record { taken = take t.taken t.bytes.now; left = drop t.taken t.bytes.now } };

    ghost invariant = { λ t. t.taken ≤ length t.bytes.now };
}

impl<'a> Text<'a> {
    /// Over the bytes of a text.
    pub(crate) fn new(bytes: &'a [u8]) -> Self
        ensures { result ≡ record { taken = []; left = bytes.now } }
    {
        Text { bytes, taken: 0 }
    }
}

impl<'a> Feed for Text<'a> {
    ghost taken = { λ t. t.taken };

    ghost failures = { λ t. 0 };

    ghost left = { λ t. Some t.left };

    fn take(&mut self, part: &mut [u8]) -> Option<usize> {
        let (_, rest) = self.bytes.split_at(self.taken);
        let count = rest.len().min(part.len());
        let (next, _) = rest.split_at(count);
        let (start, _) = part.split_at_mut(count);
        start.copy_from_slice(next);
        self.taken += count;
        Some(count)
    }
}
