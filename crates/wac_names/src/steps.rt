//! What a document does with names, step by step.

use wac_ast_base::Ident;

/// Where a step is taken. No more scopes are open at once.
#[derive(Clone, Copy)]
pub(crate) enum Level {
    /// In the root scope.
    Root,
    /// In the body of an interface or a world.
    Body,
    /// In an interface within a world's body.
    Inner,
}

/// What is done with a name.
#[derive(Drop)]
pub(crate) enum StepTaken<'a> {
    /// A body begins.
    Begins(Level),
    /// A name is bound.
    Binds(Level, Ident<'a>),
    /// An identifier is looked up in the scope.
    LooksUp(Level, Ident<'a>),
    /// An identifier is looked up in the scope, else at root.
    LooksOutwards(Level, Ident<'a>),
    /// The first segment of a path into the package of a name is looked up at root, if that is the document's own.
    Enters(&'a str, Ident<'a>),
}
