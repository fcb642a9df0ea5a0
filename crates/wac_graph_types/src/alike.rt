//! Whether two kinds mean the same.
ghost use Rattle.std.specs.Prelude.{option_map, string_bytes, ◌≡◌, ℕ, ◌<◌, length, IsTrue, ◌↔◌, IfSome};
ghost use Rattle.wac_graph_types.specs.Entry.{label, defined_label};
ghost use Rattle.wac_graph_types.specs.Meaning.{Apart, IsEarlier, NamesBefore, UnderOrigins, of_child, of_kind};
ghost use Rattle.wac_graph_types.specs.Pairs.{AreAlike, Holds};

use crate::entry::{DefinedType, Entry};
use crate::kind::ItemKind;
use crate::pairs::Pairs;

fn same_id(first: &Option<String>, second: &Option<String>) -> bool
    ensures { IsTrue result ↔ (option_map string_bytes first.now ≡ option_map string_bytes second.now) }
{
    match (first, second) {
        (None, None) => true,
        (Some(a), Some(b)) => a.as_str() == b.as_str(),
        _ => false,
    }
}

impl DefinedType {
    /// Whether both are made in the same way, whatever their parts, names and numbers of parts are: two records are,
    /// and so are two tuples, but not a record and a tuple.
    pub fn same_shape(&self, other: &DefinedType) -> bool
        ensures { IsTrue result ↔ (defined_label self.now ≡ defined_label other.now) }
    {
        match (self, other) {
            (DefinedType::Tuple(_), DefinedType::Tuple(_)) => true,
            (DefinedType::List(_), DefinedType::List(_)) => true,
            (DefinedType::Option(_), DefinedType::Option(_)) => true,
            (DefinedType::Result { .. }, DefinedType::Result { .. }) => true,
            (DefinedType::Variant { .. }, DefinedType::Variant { .. }) => true,
            (DefinedType::Record { .. }, DefinedType::Record { .. }) => true,
            (DefinedType::Flags(_), DefinedType::Flags(_)) => true,
            (DefinedType::Enum(_), DefinedType::Enum(_)) => true,
            (DefinedType::Alias(_), DefinedType::Alias(_)) => true,
            (DefinedType::Stream(_), DefinedType::Stream(_)) => true,
            (DefinedType::Future(_), DefinedType::Future(_)) => true,
            _ => false,
        }
    }
}

/// Whether two entries are alike apart from the kinds in them. No two resources are.
pub fn same_label(first: &Entry, second: &Entry) -> bool
    ensures { (p q : ℕ) → Apart p q first.now second.now → (IsTrue result ↔ (label p first.now ≡ label q second.now)) }
{
    match (first, second) {
        (Entry::Defined(a), Entry::Defined(b)) => a.same_shape(b),
        (Entry::Resource(_), Entry::Resource(_)) => false,
        (Entry::Func(a), Entry::Func(b)) => a.is_async == b.is_async,
        (Entry::Interface(a), Entry::Interface(b)) => same_id(&a.id, &b.id),
        (Entry::World(a), Entry::World(b)) => same_id(&a.id, &b.id),
        _ => false,
    }
}

/// Whether two kinds in entries mean the same. Pairs that do are added to `found`.
#[cycle(same)]
fn same_kind(entries: &[Entry], found: &mut Pairs, a: Option<ItemKind>, b: Option<ItemKind>) -> bool
    requires earlier { IsEarlier entries.now }
    requires first { IfSome a (NamesBefore (length entries.now)) }
    requires second { IfSome b (NamesBefore (length entries.now)) }
    requires found { AreAlike entries.now found.old }
    ensures same { UnderOrigins entries.now (λ mean. IsTrue result ↔ (of_child mean a ≡ of_child mean b)) }
    ensures found { AreAlike entries.now found.new }
{
    match (a, b) {
        (None, None) => true,
        (Some(x), Some(y)) => {
            if !x.same_form(y) {
                return false;
            }
            match (x.id(), y.id()) {
                (None, None) => true,
                (Some(i), Some(j)) => same_at(entries, found, i, j),
                _ => false,
            }
        }
        _ => false,
    }
}

/// Whether two entries mean the same. A pair in `found` isn't compared again, and a pair that means the same is added,
/// so that types that name others twice aren't traversed twice.
#[cycle(same)]
fn same_at(entries: &[Entry], found: &mut Pairs, i: usize, j: usize) -> bool
    requires earlier { IsEarlier entries.now }
    requires first { i < length entries.now }
    requires second { j < length entries.now }
    requires found { AreAlike entries.now found.old }
    ensures same { UnderOrigins entries.now (λ mean. IsTrue result ↔ (mean i ≡ mean j)) }
    ensures found { AreAlike entries.now found.new }
    ensures added { IsTrue result → (i ≡ j → ⊥) → Holds found.new i j }
    ensures known { Holds found.old i j → found.new ≡ found.old }
{
    // Types that name others twice, which do so themselves, would otherwise be traversed twice as often at each level.
    if i == j {
        return true;
    }
    if found.has(i, j) {
        return true;
    }
    let first = &entries[i];
    let second = &entries[j];
    if !same_label(first, second) {
        return false;
    }
    let count = first.len();
    if second.len() != count {
        return false;
    }
    for at in 0..count {
        match (first.child(at), second.child(at)) {
            (Some(c), Some(d)) => {
                if !c.place.same(d.place) {
                    return false;
                }
                if !same_kind(entries, found, c.kind, d.kind) {
                    return false;
                }
            }
            _ => return false,
        }
    }
    found.add(i, j);
    true
}

/// Whether two kinds in entries mean the same.
pub(crate) fn same_child(entries: &[Entry], a: Option<ItemKind>, b: Option<ItemKind>) -> bool
    requires earlier { IsEarlier entries.now }
    requires first { IfSome a (NamesBefore (length entries.now)) }
    requires second { IfSome b (NamesBefore (length entries.now)) }
    ensures { UnderOrigins entries.now (λ mean. IsTrue result ↔ (of_child mean a ≡ of_child mean b)) }
{
    let mut found = Pairs::new();
    same_kind(entries, &mut found, a, b)
}

/// Whether two kinds of one table mean the same.
pub fn same(entries: &[Entry], a: ItemKind, b: ItemKind) -> bool
    requires earlier { IsEarlier entries.now }
    requires first { NamesBefore (length entries.now) a }
    requires second { NamesBefore (length entries.now) b }
    ensures { UnderOrigins entries.now (λ mean. IsTrue result ↔ (of_kind mean a ≡ of_kind mean b)) }
{
    same_child(entries, Some(a), Some(b))
}
