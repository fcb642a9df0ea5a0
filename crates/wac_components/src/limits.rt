//! How much decoding may take.
ghost use Rattle.std.specs.Prelude.{◌↔◌, IsTrue};
ghost use Rattle.wac_components.specs.Within.{IsWithin};

/// What a type counts as work, beside the bytes that are read: it takes memory, however few these are.
pub(crate) const TYPE_WORK: u64 = 8;

/// What a body that is evaluated counts as work, and an instance made of items: it has spaces and names of its own.
pub(crate) const BODY_WORK: u64 = 32;

/// How much decoding may take. What needs more is an error of the kind `Depth` or `Work`.
#[derive(Clone, Copy, Debug, PartialEq, Eq)]
pub struct Limits {
    /// How deep bodies may be nested that are evaluated at once, and types in types, names of types counted too.
    pub depth: u64,
    /// How many nodes a type, or all that is imported and exported, may have. What is named twice counts twice.
    pub size: u64,
    /// How many bytes are read at most, where each is counted as often as it is read. Each type counts as 8 bytes more,
    /// and each body that is evaluated as 32.
    pub work: u64,
}

impl Limits {
    /// The limits for so many bytes: 100 levels, 200,000 nodes, and work of 24 for each byte and 200,000 more. What tools
    /// make of components needs 2 for each byte, and what they make of WIT packages 12.
    pub fn for_length(length: usize) -> Limits {
        Limits {
            depth: 100,
            size: 200_000,
            work: (length as u64).saturating_mul(24).saturating_add(200_000),
        }
    }

    /// Whether these are no more than the limits allow.
    pub fn is_within(self, limits: Limits) -> bool
        ensures { IsTrue result ↔ IsWithin self limits }
    {
        self.depth <= limits.depth && self.size <= limits.size && self.work <= limits.work
    }
}
