//! Where names were imported and exported.
ghost use Rattle.std.specs.Prelude.{◌≡◌, [], OnOk};
ghost use Rattle.wac_graph_types.specs.Scope.{IsFresh, with_named};
ghost use Rattle.wac_resolution_statements.specs.Externs.{imported_in, exported_in};

use indexmap::IndexMap;
use std::alloc::{AllocError, Global};
use wac_graph::names::push;
use wac_lexer::SourceSpan;

/// Where each name was imported or exported so far, in order.
#[derive(Drop)]
pub struct Externs {
    /// The places of the imports.
    pub imported: IndexMap<String, SourceSpan>,
    /// The places of the exports.
    pub exported: IndexMap<String, SourceSpan>,
}

impl Externs {
    /// No places.
    pub fn new(alloc: Global) -> Self
        ensures imported { imported_in result ≡ [] }
        ensures exported { exported_in result ≡ [] }
    {
        Externs {
            imported: IndexMap::new(alloc),
            exported: IndexMap::new(alloc),
        }
    }

    /// Adds the place of an export of a new name.
    pub fn add_export(
        &mut self,
        alloc: Global,
        name: &str,
        span: SourceSpan,
    ) -> Result<(), AllocError>
        requires { IsFresh name.now (exported_in self.old) }
        ensures exported { OnOk result (exported_in self.new ≡ with_named (exported_in self.old) name.now span) }
        ensures imported { OnOk result (imported_in self.new ≡ imported_in self.old) }
    {
        push(alloc, &mut self.exported, name, span)?;
        Ok(())
    }

    /// Adds the place of an import of a new name.
    pub fn add_import(
        &mut self,
        alloc: Global,
        name: &str,
        span: SourceSpan,
    ) -> Result<(), AllocError>
        requires { IsFresh name.now (imported_in self.old) }
        ensures imported { OnOk result (imported_in self.new ≡ with_named (imported_in self.old) name.now span) }
        ensures exported { OnOk result (exported_in self.new ≡ exported_in self.old) }
    {
        push(alloc, &mut self.imported, name, span)?;
        Ok(())
    }
}
