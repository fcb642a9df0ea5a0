// Copies of what files held, which are beside them while they are written.
use std::fmt;

/// A copy of what a file held. It is beside the file while that is written.
///
/// Its name has the number of the run that made it, the file's number in its file system, and how many names were tried
/// before.
#[derive(Clone, Copy, Debug, PartialEq, Eq)]
pub struct KeptCopy {
    pub(crate) run: u32,
    pub(crate) inode: u64,
    pub(crate) count: u32,
}

impl fmt::Display for KeptCopy {
    fn fmt<W: fmt::Write>(&self, f: &mut fmt::Formatter<W>) -> fmt::Result {
        let KeptCopy { run, inode, count } = *self;
        write!(f, ".wacx-{run}-{inode}-{count}.tmp")
    }
}

/// What a temporary file is by its name.
#[derive(Clone, Copy)]
pub(crate) enum Temporary {
    Copy(KeptCopy),
    /// A text that a run was to rename over a file, as runs of version 0.11 and before did.
    Text { run: u32 },
}

impl Temporary {
    /// What the file of this name is.
    pub(crate) fn of_name(name: &[u8]) -> Option<Temporary> {
        let name = str::from_utf8(name).ok()?;
        let numbers = name.strip_prefix(".wacx-")?.strip_suffix(".tmp")?;
        let (run, rest) = numbers.split_once('-')?;
        let run = u32::try_from(number(run)?).ok()?;
        match rest.split_once('-') {
            Some((inode, count)) => Some(Temporary::Copy(KeptCopy {
                run,
                inode: number(inode)?,
                count: u32::try_from(number(count)?).ok()?,
            })),
            None => {
                number(rest)?;
                Some(Temporary::Text { run })
            }
        }
    }

    /// The run that made it.
    pub(crate) fn run(self) -> u32 {
        match self {
            Temporary::Copy(copy) => copy.run,
            Temporary::Text { run } => run,
        }
    }
}

/// The number that digits stand for, as they are written for it.
fn number(digits: &str) -> Option<u64> {
    if digits.starts_with('+') || (digits.starts_with('0') && digits != "0") {
        return None;
    }
    digits.parse::<u64>().ok()
}

/// The size of a page of memory, or a divisor of it.
const PAGE: usize = 4096;

/// Whether a file may have been cut off while it was written, of which there is a copy of what it held.
///
/// Such a file is as long as the new text or the old, whichever is longer, the shorter one with line ends after it, and
/// is written from its start in one call. Where the system ends a run within a call, whole pages are written, and the
/// others are as they were. Where the copy isn't whole, nothing was written yet.
pub(crate) fn may_be_cut_off(copy: &[u8], file: &[u8]) -> bool {
    let Some((begin, rest)) = file.split_at_checked(copy.len()) else {
        return false;
    };
    let differing = match rest.iter().rposition(|byte| *byte != b'\n') {
        Some(at) => copy.len().saturating_add(at).saturating_add(1),
        None => differing_len(copy, begin),
    };
    begin != copy && differing.div_ceil(PAGE).saturating_mul(PAGE) < file.len()
}

/// How many bytes of two are up to the last that differ.
fn differing_len(left: &[u8], right: &[u8]) -> usize {
    let mut len = 0usize;
    for (at, (left, right)) in left.iter().zip(right).enumerate() {
        if left != right {
            len = at.saturating_add(1);
        }
    }
    len
}
