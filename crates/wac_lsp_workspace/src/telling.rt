//! What is wrong with the documents of folders.
use std::alloc::{AllocError, Global};
use wac_diagnostics::Diagnostic;
use wac_first_error::Reading;
use wac_package_errors::{
    Composed, DeclarationFault, KnownPackages, declaration_diagnostic, first_error_with, flat_text,
    warnings_of,
};

/// The code of an instantiation of a package of which no world is chosen.
const NO_WORLD: &str = "wac::no-world";

/// What of some faults is wrong with the document of this number, which declares a package or is to.
pub(crate) fn declaration_fault(
    alloc: Global,
    faults: &[DeclarationFault],
    known: KnownPackages<'_>,
    document: usize,
    text: &str,
) -> Result<Vec<Diagnostic>, AllocError> {
    for fault in faults {
        if fault.text == document {
            let diagnostic = declaration_diagnostic(alloc, text, &fault.error, known)?;
            return shown_in_editor(alloc, diagnostic);
        }
    }
    Ok(Vec::new(alloc))
}

/// What is wrong with a composition first, or what of it may not be meant.
pub(crate) fn composition_fault(
    alloc: Global,
    known: KnownPackages<'_>,
    text: &str,
) -> Result<Vec<Diagnostic>, AllocError> {
    match flat_text(alloc, text.as_bytes()) {
        Ok(Reading::Text(text)) => judged(alloc, known, text),
        Ok(Reading::Rejected(diagnostic)) => shown_in_editor(alloc, diagnostic),
        Err(_) => Err(AllocError),
    }
}

/// The same of a text whose brackets aren't nested too deeply.
fn judged(
    alloc: Global,
    known: KnownPackages<'_>,
    text: &str,
) -> Result<Vec<Diagnostic>, AllocError> {
    match first_error_with(alloc, text, known) {
        Ok(Composed::Resolved(graph)) => warnings_of(alloc, text, &graph),
        Ok(Composed::Unresolved) => Ok(Vec::new(alloc)),
        Ok(Composed::Rejected(diagnostic)) => shown_in_editor(alloc, diagnostic),
        Err(_) => Err(AllocError),
    }
}

/// Whether a diagnostic asks for an option of the command: which world of several is meant.
fn asks_for_option(diagnostic: &Diagnostic) -> bool {
    diagnostic.code == NO_WORLD && diagnostic.help.is_some()
}

/// What an editor shows of a diagnostic. That no world of several is chosen is no error there, since none can be.
fn shown_in_editor(alloc: Global, diagnostic: Diagnostic) -> Result<Vec<Diagnostic>, AllocError> {
    let mut all = Vec::new(alloc);
    if !asks_for_option(&diagnostic) {
        all.push(diagnostic)?;
    }
    Ok(all)
}
