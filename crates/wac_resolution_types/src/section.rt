//! The imports or the exports of an interface or a world.

use crate::owner::Owner;
use wac_graph::ExternKind;

/// The imports or the exports of an interface or a world.
#[derive(Clone, Copy, Debug)]
pub struct Section<'o> {
    /// Whose they are.
    pub owner: Owner<'o>,
    /// Whether they are its imports or its exports.
    pub side: ExternKind,
}
