//! What is being evaluated, from the outside in.

use wac_components_types::{
    BodyKind, ComponentId, InstanceId, Item, Lengths, NameId, Named, Owner, Sort,
};
use wac_graph_types::ExternKind;

/// The body of a component, or of the type of a component or an instance, which is read when it is evaluated.
#[derive(Clone, Copy)]
pub(crate) struct Body {
    pub kind: BodyKind,
    pub start: usize,
    pub end: usize,
    /// The scope around it, and how long its spaces were where the body begins.
    pub parent: Option<(usize, Lengths)>,
}

/// What an item is of which the body is evaluated.
#[derive(Clone, Copy)]
pub(crate) enum Shape {
    Instance,
    Component,
    /// A named type, and the offset at which it is declared.
    Type(Named, usize),
}

/// An item as it is declared.
#[derive(Clone, Copy)]
pub(crate) enum Described {
    Item(Item),
    /// It has a body to be evaluated, of that number.
    Body(usize, Shape),
}

impl Described {
    pub(crate) fn sort(self) -> Sort {
        match self {
            Described::Item(item) => item.sort(),
            Described::Body(_, Shape::Instance) => Sort::Instance,
            Described::Body(_, Shape::Component) => Sort::Component,
            Described::Body(_, Shape::Type(_, _)) => Sort::Type,
        }
    }
}

/// A name for an item, and the offset of the name.
#[derive(Clone, Copy)]
pub(crate) struct Binding {
    pub kind: ExternKind,
    pub name: NameId,
    pub offset: usize,
}

/// What is done with an instance or a component once it is evaluated.
#[derive(Clone, Copy)]
pub(crate) enum Next {
    /// It is the component that is decoded.
    End,
    /// A body was read over, to find its end: its type is defined.
    Define(usize),
    Bind(Binding, Shape),
    /// The instance gets an index.
    Instantiate,
}

/// What follows once a body, or an instance made of items, is evaluated.
#[derive(Clone, Copy)]
pub(crate) struct Sequel {
    /// What is done with it.
    pub next: Next,
    /// Where reading goes on, and its end there.
    pub resume: Option<(usize, usize)>,
}

/// What is read next.
#[derive(Clone, Copy)]
pub(crate) enum Task {
    /// The next section.
    Sections,
    /// The items of a section.
    Items(u8),
    /// The declarators of a type.
    Declarators,
    /// The exports of an instance that is made of items.
    Exports,
    /// The exports of another instance, from that place on, for a copy that is declared at an offset.
    Copies(InstanceId, usize, usize),
}

/// A body, or an instance made of items, that is being evaluated.
#[derive(Clone, Copy)]
pub(crate) struct Frame {
    pub task: Task,
    /// How many items or declarators are left.
    pub left: u32,
    pub kind: BodyKind,
    pub scope: usize,
    pub component: ComponentId,
    pub instance: InstanceId,
    /// Where the body ends.
    pub end: usize,
    /// The number of the arguments that stand for the imports.
    pub arguments: Option<usize>,
    /// Whether instances that it imports or exports are named for it.
    pub marks: bool,
    /// Whether it is a body with index spaces, and no instance made of items.
    pub is_body: bool,
    pub sequel: Sequel,
}

impl Frame {
    /// To whom what is imported or exported belongs.
    pub(crate) fn owner(self, kind: ExternKind) -> Owner {
        match kind {
            ExternKind::Import => Owner::Component(self.component),
            ExternKind::Export => Owner::Instance(self.instance),
        }
    }
}
