//! Bodies of interfaces and worlds.
ghost use Rattle.std.specs.Prelude.{◌≡◌, [], OnOk};
ghost use Rattle.wac_graph_types.specs.Scope.{look_up, IsFresh};
ghost use Rattle.wac_resolution_state.specs.Bindings.{values_of};
ghost use Rattle.wac_resolution_types.specs.Lists.{lists_of, kinds_of, with_kind, with_bound, with_used};

use indexmap::IndexMap;
use std::alloc::{AllocError, Global};
use wac_ast_base::Ident;
use wac_graph::names::{find, push};
use wac_graph::{ExternKind, ItemKind, UsedType};
use wac_resolution_state::Names;

/// The body of an interface or a world so far.
#[derive(Drop)]
pub struct Body<'a> {
    /// What its identifiers denote, and where each was bound.
    pub names: Names<'a, ItemKind>,
    /// The types that it uses.
    pub uses: IndexMap<String, UsedType>,
    /// What it imports.
    pub imports: IndexMap<String, ItemKind>,
    /// What it exports.
    pub exports: IndexMap<String, ItemKind>,
}

impl<'a> Body<'a> {
    /// An empty body.
    pub fn new(alloc: Global) -> Self
        ensures { lists_of result ≡ record { names = []; uses = []; imports = []; exports = [] } }
    {
        Body {
            names: Names::new(alloc),
            uses: IndexMap::new(alloc),
            imports: IndexMap::new(alloc),
            exports: IndexMap::new(alloc),
        }
    }

    /// What is imported, or exported, under a name.
    pub fn find(&self, side: ExternKind, name: &str) -> Option<ItemKind>
        ensures { result ≡ look_up name.now (kinds_of side (lists_of self.now)) }
    {
        match side {
            ExternKind::Import => find(&self.imports, name),
            ExternKind::Export => find(&self.exports, name),
        }
    }

    /// Adds an import or an export of a new name.
    pub fn add(
        &mut self,
        alloc: Global,
        side: ExternKind,
        name: &str,
        kind: ItemKind,
    ) -> Result<(), AllocError>
        requires { IsFresh name.now (kinds_of side (lists_of self.old)) }
        ensures { OnOk result (lists_of self.new ≡ with_kind side (lists_of self.old) name.now kind) }
    {
        match side {
            ExternKind::Import => push(alloc, &mut self.imports, name, kind)?,
            ExternKind::Export => push(alloc, &mut self.exports, name, kind)?,
        }
        Ok(())
    }

    /// Binds a new name to a type, and adds it to the imports or the exports.
    pub fn bind(
        &mut self,
        alloc: Global,
        side: ExternKind,
        id: &Ident<'a>,
        kind: ItemKind,
    ) -> Result<(), AllocError>
        requires bound { IsFresh id.now.string.now (values_of self.old.names) }
        requires fresh { IsFresh id.now.string.now (kinds_of side (lists_of self.old)) }
        ensures { OnOk result (lists_of self.new
            ≡ with_bound side (lists_of self.old) id.now.string.now id.now.span kind) }
    {
        self.names.bind(id, kind)?;
        self.add(alloc, side, id.string, kind)?;
        Ok(())
    }

    /// Adds a used type of a new name.
    pub fn add_use(&mut self, alloc: Global, name: &str, used: UsedType) -> Result<(), AllocError>
        requires { IsFresh name.now (lists_of self.old).uses }
        ensures { OnOk result (lists_of self.new ≡ with_used (lists_of self.old) name.now used) }
    {
        push(alloc, &mut self.uses, name, used)?;
        Ok(())
    }
}
