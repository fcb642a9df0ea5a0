//! What a client takes of answers.
use crate::markup::{Markup, hover_markup};
use serde_json::Value;

/// What a client takes of answers, by its capabilities. What they don't name it doesn't take.
#[derive(Clone, Copy, Debug, PartialEq, Eq)]
pub struct Features {
    /// Symbols within symbols: `documentSymbol.hierarchicalDocumentSymbolSupport`.
    pub nested_symbols: bool,
    /// Edits of a version of a document: `workspaceEdit.documentChanges`.
    pub versioned_edits: bool,
    /// Actions that are no commands: `codeAction.codeActionLiteralSupport`.
    pub action_literals: bool,
    /// Whole lines alone as folds: `foldingRange.lineFoldingOnly`.
    pub folds_lines: bool,
    /// Other places of diagnostics: `publishDiagnostics.relatedInformation`.
    pub related_information: bool,
    /// Where the codes of diagnostics are explained: `publishDiagnostics.codeDescriptionSupport`.
    pub code_descriptions: bool,
    /// That it is asked which name is renamed before that is: `rename.prepareSupport`.
    pub prepared_renames: bool,
    /// The format of what is said of a name: the first of `hover.contentFormat` that the protocol has.
    pub hover_markup: Markup,
}

impl Features {
    /// Those of a client that names none.
    pub fn none() -> Features {
        Features {
            nested_symbols: false,
            versioned_edits: false,
            action_literals: false,
            folds_lines: false,
            related_information: false,
            code_descriptions: false,
            prepared_renames: false,
            hover_markup: Markup::PlainText,
        }
    }
}

/// Whether a client says that it has the capability at this path.
fn has(capabilities: &Value, path: &str) -> bool {
    match capabilities.pointer(path) {
        Some(value) => value.as_bool().unwrap_or(false),
        None => false,
    }
}

/// Whether a client describes which actions it takes that are no commands.
fn takes_action_literals(capabilities: &Value) -> bool {
    match capabilities.pointer("/textDocument/codeAction/codeActionLiteralSupport") {
        Some(value) => value.is_object(),
        None => false,
    }
}

/// What a client takes of answers, by its capabilities.
pub(crate) fn read_features(capabilities: &Value) -> Features {
    Features {
        nested_symbols: has(
            capabilities,
            "/textDocument/documentSymbol/hierarchicalDocumentSymbolSupport",
        ),
        versioned_edits: has(capabilities, "/workspace/workspaceEdit/documentChanges"),
        action_literals: takes_action_literals(capabilities),
        folds_lines: has(capabilities, "/textDocument/foldingRange/lineFoldingOnly"),
        related_information: has(
            capabilities,
            "/textDocument/publishDiagnostics/relatedInformation",
        ),
        code_descriptions: has(
            capabilities,
            "/textDocument/publishDiagnostics/codeDescriptionSupport",
        ),
        prepared_renames: has(capabilities, "/textDocument/rename/prepareSupport"),
        hover_markup: hover_markup(capabilities),
    }
}
