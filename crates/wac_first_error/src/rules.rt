//! Resolving a document for its errors alone.
ghost use Rattle.std.specs.Prelude.{◌≡◌, ◌⊎◌, IfErr, IfOk, alloc_error};
ghost use Rattle.wac_ast.specs.Statements.{document_of};
ghost use Rattle.wac_resolution_errors.specs.ErrorModel.{error_model};
ghost use Rattle.wac_resolution_errors.specs.declared.error.Error.TheVariants.{Memory};
ghost use Rattle.wac_tool_graphs.specs.Alone.{BreaksRule, IsComposition};
ghost use Rattle.wac_first_error.specs.Mentioned.{mentions_foreign};

use indexmap::IndexMap;
use std::alloc::{AllocError, Global};
use wac_printer::Page;
use wac_resolution::{ResolutionResult, packages, resolve};
use wac_tool_graphs::SameRules;

/// Whether a document mentions foreign packages. The error is that memory ran out.
pub(crate) fn mentions_packages(alloc: Global, page: Page<'_, '_>) -> Result<bool, AllocError>
    ensures { IfOk result (λ mentioned. mentioned ≡ mentions_foreign (document_of page.entry)) }
{
    let Page { document } = page;
    let mentioned = packages(alloc, document)?;
    Ok(!mentioned.is_empty())
}

/// Which rule a document breaks first where no foreign package is there: its error, or that memory ran out.
pub(crate) fn broken_rule(alloc: Global, page: Page<'_, '_>) -> ResolutionResult<()>
    // It describes a composition.
    ensures composes { IfOk result (λ _. IsComposition (document_of page.entry)) }
    // The error names the first rule that it breaks.
    ensures breaks { IfErr result (λ e. (e ≡ Memory alloc_error)
        ⊎ BreaksRule (document_of page.entry) (error_model e)) }
{
    let Page { document } = page;
    match resolve(
        alloc,
        document,
        IndexMap::new(alloc),
        &SameRules::new(alloc),
    ) {
        Ok(_) => Ok(()),
        Err(error) => Err(error),
    }
}
