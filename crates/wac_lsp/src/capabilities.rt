//! What the server can do.
use crate::tokens::legend;
use serde_json::{Map, Value, json, put};
use std::alloc::{AllocError, Global};
use wac_lsp_messages::Features;

/// The number of the way in which a client tells changes: by ranges.
const INCREMENTAL: u8 = 2;

/// What the server does for any client, in a line for each method.
static PROVIDERS: [&'static str; 10] = [
    "documentFormattingProvider",
    "documentRangeFormattingProvider",
    "documentSymbolProvider",
    "workspaceSymbolProvider",
    "foldingRangeProvider",
    "selectionRangeProvider",
    "definitionProvider",
    "referencesProvider",
    "documentHighlightProvider",
    "hoverProvider",
];

/// What the server can do for a client of these features, with columns in bytes or in units of UTF-16.
pub(crate) fn capabilities(
    alloc: Global,
    counts_bytes: bool,
    features: Features,
) -> Result<Value, AllocError> {
    let encoding = if counts_bytes { "utf-8" } else { "utf-16" };
    let mut all = Map::new(alloc);
    put_text(alloc, &mut all, "positionEncoding", encoding)?;
    put_providers(alloc, &mut all)?;
    put_options(alloc, &mut all)?;
    put_features(alloc, &mut all, features)?;
    Ok(Value::Object(all))
}

/// Puts a text into an object.
fn put_text(
    alloc: Global,
    all: &mut Map<String, Value>,
    name: &str,
    text: &str,
) -> Result<(), AllocError> {
    put(all, alloc, name, Value::try_from_str(alloc, text)?)
}

/// Puts in what the server does without further ado.
fn put_providers(alloc: Global, all: &mut Map<String, Value>) -> Result<(), AllocError> {
    for name in &PROVIDERS {
        put(all, alloc, *name, Value::Bool(true))?;
    }
    Ok(())
}

/// Puts in what the server does in ways that are told.
fn put_options(alloc: Global, all: &mut Map<String, Value>) -> Result<(), AllocError> {
    put(all, alloc, "textDocumentSync", sync_options(alloc)?)?;
    put(all, alloc, "workspace", workspace_capabilities(alloc)?)?;
    put(
        all,
        alloc,
        "completionProvider",
        completion_provider(alloc)?,
    )?;
    put(
        all,
        alloc,
        "semanticTokensProvider",
        tokens_provider(alloc)?,
    )
}

/// Puts in what depends on the features of the client.
fn put_features(
    alloc: Global,
    all: &mut Map<String, Value>,
    features: Features,
) -> Result<(), AllocError> {
    put(
        all,
        alloc,
        "renameProvider",
        renames_provider(alloc, features)?,
    )?;
    put(
        all,
        alloc,
        "codeActionProvider",
        actions_provider(alloc, features)?,
    )
}

/// How a client tells that documents are opened, closed and changed.
fn sync_options(alloc: Global) -> Result<Value, AllocError> {
    json!(in alloc; {"openClose": true, "change": INCREMENTAL})
}

/// What the server takes of folders: that the client opens and closes them.
fn workspace_capabilities(alloc: Global) -> Result<Value, AllocError> {
    json!(in alloc; {"workspaceFolders": {"supported": true, "changeNotifications": true}})
}

/// What mends a document is told by actions that are no commands, and by nothing to a client that takes none.
fn actions_provider(alloc: Global, features: Features) -> Result<Value, AllocError> {
    if features.action_literals {
        json!(in alloc; {"codeActionKinds": ["quickfix"]})
    } else {
        Ok(Value::Bool(false))
    }
}

/// Names are renamed; a client that asks before which is renamed, is told so.
fn renames_provider(alloc: Global, features: Features) -> Result<Value, AllocError> {
    if features.prepared_renames {
        json!(in alloc; {"prepareProvider": true})
    } else {
        Ok(Value::Bool(true))
    }
}

/// How the kinds of tokens are told: of a whole document at once.
fn tokens_provider(alloc: Global) -> Result<Value, AllocError> {
    let legend = legend(alloc)?;
    json!(in alloc; {"legend": legend, "full": true})
}

/// What a client types for completions to come, beside letters.
fn completion_provider(alloc: Global) -> Result<Value, AllocError> {
    json!(in alloc; {"triggerCharacters": [".", "{", ":", "/", "\""]})
}
