//! Names of a scope.
ghost use Rattle.std.specs.Prelude.{◌≡◌, [], OnOk, OnErr, option_map};
ghost use Rattle.wac_graph_types.specs.Scope.{look_up, with_named, IsFresh};
ghost use Rattle.wac_resolution_state.specs.Bindings.{places_of, values_of};

use indexmap::IndexMap;
use std::alloc::{AllocError, Global};
use std::marker::Model;
use wac_ast_base::Ident;
use wac_lexer::SourceSpan;

/// The names of a scope, each bound once, with where it was bound and what it denotes. A contract sees them in the
/// order in which they were bound.
#[derive(Drop)]
pub struct Names<'a, X> {
    bound: IndexMap<&'a str, (SourceSpan, X)>,
}

impl<'a, X> Model for Names<'a, X> {
    ghost use Rattle.std.specs.Prelude.{List, ℕ};
    ghost use Rattle.wac_lexer.specs.Span.{Span};
    ghost use Rattle.wac_resolution_state.specs.Bindings.{by_text};

    ghost Value = { List (List ℕ × (Span × X)) };

    ghost view = { λ n. by_text n.bound.entries };
}

impl<'a, X: Copy> Names<'a, X> {
    /// No names.
    pub fn new(alloc: Global) -> Self
        ensures { result ≡ [] }
    {
        Names {
            bound: IndexMap::new(alloc),
        }
    }

    /// Where a name was bound, and what it denotes.
    fn binding(&self, name: &str) -> Option<(SourceSpan, X)>
        ensures { result ≡ look_up name.now self.now }
    {
        self.bound.get(name).copied()
    }

    /// What a name denotes.
    pub fn find(&self, name: &str) -> Option<X>
        ensures { result ≡ look_up name.now (values_of self.now) }
    {
        let (_, value) = self.binding(name)?;
        Some(value)
    }

    /// Where a name was bound.
    pub fn place(&self, name: &str) -> Option<SourceSpan>
        ensures { result ≡ look_up name.now (places_of self.now) }
    {
        let (span, _) = self.binding(name)?;
        Some(span)
    }

    /// Binds a name that is not bound yet.
    pub fn bind(&mut self, id: &Ident<'a>, value: X) -> Result<(), AllocError>
        requires { IsFresh id.now.string.now self.old }
        ensures ok { OnOk result (self.new ≡ with_named self.old id.now.string.now (id.now.span, value)) }
        ensures err { OnErr result (self.new ≡ self.old) }
    {
        self.bound.insert(id.string, (id.span, value))?;
        Ok(())
    }
}
