//! Testing what documents compose.

use indexmap::IndexMap;
use std::alloc::{AllocError, Global};
use wac_parser::Page;
use wac_parser::lexer::SourceSpan;
use wac_parser::resolution::{Error, ItemKind, Package, PackageKey, Reason, Rules, Types, resolve};

/// What an import of a package asks for is met by what means the same, and by nothing else. Each name may be used.
pub struct SameTypes;

impl Rules for SameTypes {
    ghost use Rattle.std.specs.Prelude.{None};
    ghost use Rattle.wac_graph_types.specs.Equality.{equal_or, meaning_discrete, equal_or-renamed};

    ghost passes = { λ _ a b. equal_or (record { 0 = 1 }) (meaning_discrete a b) };

    ghost named = { λ _ _. None };

    ghost alike_renamed = { λ _ f a b apart. equal_or-renamed (record { 0 = 1 }) f a b apart };

    fn subtype(&self, types: &Types, a: ItemKind, b: ItemKind) -> Result<(), Reason> {
        if types.same(a, b) {
            Ok(())
        } else {
            Err(Reason(1))
        }
    }

    fn extern_name(&self, _name: &str) -> Result<(), Reason> {
        Ok(())
    }
}

/// Why these packages can't be composed as a document says, and where it says so. `None` where they can.
pub fn composition_error(
    alloc: Global,
    page: Page<'_, '_>,
    packages: IndexMap<PackageKey, Package>,
) -> Result<Option<(Option<SourceSpan>, String)>, AllocError> {
    let Page { document } = page;
    match resolve(alloc, document, packages, &SameTypes) {
        Ok(_) => Ok(None),
        Err(error) => reported(alloc, &error),
    }
}

/// Where an error lies, and what it says, unless memory ran out.
fn reported(
    alloc: Global,
    error: &Error,
) -> Result<Option<(Option<SourceSpan>, String)>, AllocError> {
    match error {
        Error::Memory(_) => Err(AllocError),
        _ => Ok(Some((error.span(), error.to_string(alloc)?))),
    }
}
