//! Sessions of a server without folders: what it sends after each message. Other rows of sessions are in .ci/sessions/.

use std::alloc::{AllocError, Global};
use std::process::Abort;
use std::test::Fail;
use wac_lsp::{Outcome, Server, step};
use wac_lsp_texts::ChangeError;

/// The body of a message, and those that are sent after it, a line each, or the status with which the server ends.
type Row = (&'static str, &'static str);

/// A client that counts columns in bytes and takes Markdown asks about names, symbols, a layout and tokens.
static NAMES: [Row; 13] = [
    (
        "{\"id\":1,\"jsonrpc\":\"2.0\",\"method\":\"initialize\",\"params\":{\"capabilities\":{\"general\":{\"positionEncodings\":[\"utf-8\"]},\"textDocument\":{\"hover\":{\"contentFormat\":[\"markdown\",\"plaintext\"]}}},\"processId\":null}}",
        "{\"id\":1,\"jsonrpc\":\"2.0\",\"result\":{\"capabilities\":{\"codeActionProvider\":false,\"completionProvider\":{\"triggerCharacters\":[\".\",\"{\",\":\",\"/\",\"\\\"\"]},\"definitionProvider\":true,\"documentFormattingProvider\":true,\"documentHighlightProvider\":true,\"documentRangeFormattingProvider\":true,\"documentSymbolProvider\":true,\"foldingRangeProvider\":true,\"hoverProvider\":true,\"positionEncoding\":\"utf-8\",\"referencesProvider\":true,\"renameProvider\":true,\"selectionRangeProvider\":true,\"semanticTokensProvider\":{\"full\":true,\"legend\":{\"tokenModifiers\":[],\"tokenTypes\":[\"keyword\",\"type\",\"string\",\"comment\",\"operator\",\"variable\",\"namespace\"]}},\"textDocumentSync\":{\"change\":2,\"openClose\":true},\"workspace\":{\"workspaceFolders\":{\"changeNotifications\":true,\"supported\":true}},\"workspaceSymbolProvider\":true},\"serverInfo\":{\"name\":\"wacx\",\"version\":\"1.2.3\"}}}",
    ),
    (
        "{\"jsonrpc\":\"2.0\",\"method\":\"textDocument/didOpen\",\"params\":{\"textDocument\":{\"languageId\":\"wac\",\"text\":\"package a:b; /* \u{1f600} */ import log: func();\\nexport log;\\n\",\"uri\":\"file:///project/a%20b.wac\",\"version\":1}}}",
        "{\"jsonrpc\":\"2.0\",\"method\":\"textDocument/publishDiagnostics\",\"params\":{\"diagnostics\":[],\"uri\":\"file:///project/a%20b.wac\",\"version\":1}}",
    ),
    (
        "{\"id\":2,\"jsonrpc\":\"2.0\",\"method\":\"textDocument/definition\",\"params\":{\"position\":{\"character\":8,\"line\":1},\"textDocument\":{\"uri\":\"file:///project/a%20b.wac\"}}}",
        "{\"id\":2,\"jsonrpc\":\"2.0\",\"result\":{\"range\":{\"end\":{\"character\":34,\"line\":0},\"start\":{\"character\":31,\"line\":0}},\"uri\":\"file:///project/a%20b.wac\"}}",
    ),
    (
        "{\"id\":5,\"jsonrpc\":\"2.0\",\"method\":\"textDocument/documentHighlight\",\"params\":{\"position\":{\"character\":10,\"line\":1},\"textDocument\":{\"uri\":\"file:///project/a%20b.wac\"}}}",
        "{\"id\":5,\"jsonrpc\":\"2.0\",\"result\":[{\"kind\":3,\"range\":{\"end\":{\"character\":34,\"line\":0},\"start\":{\"character\":31,\"line\":0}}},{\"kind\":2,\"range\":{\"end\":{\"character\":10,\"line\":1},\"start\":{\"character\":7,\"line\":1}}}]}",
    ),
    (
        "{\"id\":11,\"jsonrpc\":\"2.0\",\"method\":\"textDocument/rename\",\"params\":{\"newName\":\"log_line\",\"position\":{\"character\":9,\"line\":1},\"textDocument\":{\"uri\":\"file:///project/a%20b.wac\"}}}",
        "{\"error\":{\"code\":-32803,\"message\":\"a name has no other characters than letters, digits and `-`\"},\"id\":11,\"jsonrpc\":\"2.0\"}",
    ),
    (
        "{\"jsonrpc\":\"2.0\",\"method\":\"textDocument/didChange\",\"params\":{\"contentChanges\":[{\"text\":\"package a:b;\\ninterface i {\\n  record r { a: u8 }\\n  f: func();\\n}\\n\"}],\"textDocument\":{\"uri\":\"file:///project/a%20b.wac\",\"version\":4}}}",
        "{\"jsonrpc\":\"2.0\",\"method\":\"textDocument/publishDiagnostics\",\"params\":{\"diagnostics\":[],\"uri\":\"file:///project/a%20b.wac\",\"version\":4}}",
    ),
    (
        "{\"id\":25,\"jsonrpc\":\"2.0\",\"method\":\"workspace/symbol\",\"params\":{\"query\":\"f\"}}",
        "{\"id\":25,\"jsonrpc\":\"2.0\",\"result\":[{\"kind\":12,\"location\":{\"range\":{\"end\":{\"character\":12,\"line\":3},\"start\":{\"character\":2,\"line\":3}},\"uri\":\"file:///project/a%20b.wac\"},\"name\":\"f\"}]}",
    ),
    (
        "{\"jsonrpc\":\"2.0\",\"method\":\"textDocument/didChange\",\"params\":{\"contentChanges\":[{\"text\":\"package a:b;\\nenum e { /* ````` */ x }\"}],\"textDocument\":{\"uri\":\"file:///project/a%20b.wac\",\"version\":5}}}",
        "{\"jsonrpc\":\"2.0\",\"method\":\"textDocument/publishDiagnostics\",\"params\":{\"diagnostics\":[],\"uri\":\"file:///project/a%20b.wac\",\"version\":5}}",
    ),
    (
        "{\"id\":6,\"jsonrpc\":\"2.0\",\"method\":\"textDocument/hover\",\"params\":{\"position\":{\"character\":5,\"line\":1},\"textDocument\":{\"uri\":\"file:///project/a%20b.wac\"}}}",
        "{\"id\":6,\"jsonrpc\":\"2.0\",\"result\":{\"contents\":{\"kind\":\"markdown\",\"value\":\"``````wac\\nenum e { /* ````` */ x }\\n``````\"},\"range\":{\"end\":{\"character\":6,\"line\":1},\"start\":{\"character\":5,\"line\":1}}}}",
    ),
    (
        "{\"jsonrpc\":\"2.0\",\"method\":\"textDocument/didChange\",\"params\":{\"contentChanges\":[{\"text\":\"package a:b;\\nimport y:  func();\\nlet  x = y; // c\\n\"}],\"textDocument\":{\"uri\":\"file:///project/a%20b.wac\",\"version\":9}}}",
        "{\"jsonrpc\":\"2.0\",\"method\":\"textDocument/publishDiagnostics\",\"params\":{\"diagnostics\":[],\"uri\":\"file:///project/a%20b.wac\",\"version\":9}}",
    ),
    (
        "{\"id\":6,\"jsonrpc\":\"2.0\",\"method\":\"textDocument/rangeFormatting\",\"params\":{\"options\":{\"insertSpaces\":true,\"tabSize\":4},\"range\":{\"end\":{\"character\":5,\"line\":2},\"start\":{\"character\":0,\"line\":2}},\"textDocument\":{\"uri\":\"file:///project/a%20b.wac\"}}}",
        "{\"id\":6,\"jsonrpc\":\"2.0\",\"result\":[{\"newText\":\"\\n\\nlet x = y;\",\"range\":{\"end\":{\"character\":11,\"line\":2},\"start\":{\"character\":18,\"line\":1}}}]}",
    ),
    (
        "{\"jsonrpc\":\"2.0\",\"method\":\"textDocument/didChange\",\"params\":{\"contentChanges\":[{\"text\":\"package a:b;\\nlet x\u{202e} = y;\\n\"}],\"textDocument\":{\"uri\":\"file:///project/a%20b.wac\",\"version\":10}}}",
        "{\"jsonrpc\":\"2.0\",\"method\":\"textDocument/publishDiagnostics\",\"params\":{\"diagnostics\":[{\"code\":\"wac::disallowed-bidirectional-override\",\"message\":\"disallowed bidirectional override codepoint `\\\\u{202e}`\\nremove it: it makes a text look other than it is\",\"range\":{\"end\":{\"character\":8,\"line\":1},\"start\":{\"character\":5,\"line\":1}},\"severity\":1,\"source\":\"wac\"}],\"uri\":\"file:///project/a%20b.wac\",\"version\":10}}",
    ),
    (
        "{\"id\":7,\"jsonrpc\":\"2.0\",\"method\":\"textDocument/semanticTokens/full\",\"params\":{\"textDocument\":{\"uri\":\"file:///project/a%20b.wac\"}}}",
        "{\"id\":7,\"jsonrpc\":\"2.0\",\"result\":{\"data\":[0,0,7,0,0,0,8,3,6,0,0,3,1,4,0,1,0,3,0,0,0,4,1,5,0]}}",
    ),
];

/// A document is laid out by edits of the lines that differ, from the last to the first.
static LAYOUT: [Row; 9] = [
    (
        "{\"id\":1,\"jsonrpc\":\"2.0\",\"method\":\"initialize\",\"params\":{\"capabilities\":{\"textDocument\":{\"codeAction\":{\"codeActionLiteralSupport\":{\"codeActionKind\":{\"valueSet\":[\"quickfix\"]}}},\"documentSymbol\":{\"hierarchicalDocumentSymbolSupport\":true},\"foldingRange\":{\"lineFoldingOnly\":true},\"publishDiagnostics\":{\"codeDescriptionSupport\":true,\"relatedInformation\":true},\"rename\":{\"prepareSupport\":true}}},\"processId\":null}}",
        "{\"id\":1,\"jsonrpc\":\"2.0\",\"result\":{\"capabilities\":{\"codeActionProvider\":{\"codeActionKinds\":[\"quickfix\"]},\"completionProvider\":{\"triggerCharacters\":[\".\",\"{\",\":\",\"/\",\"\\\"\"]},\"definitionProvider\":true,\"documentFormattingProvider\":true,\"documentHighlightProvider\":true,\"documentRangeFormattingProvider\":true,\"documentSymbolProvider\":true,\"foldingRangeProvider\":true,\"hoverProvider\":true,\"positionEncoding\":\"utf-16\",\"referencesProvider\":true,\"renameProvider\":{\"prepareProvider\":true},\"selectionRangeProvider\":true,\"semanticTokensProvider\":{\"full\":true,\"legend\":{\"tokenModifiers\":[],\"tokenTypes\":[\"keyword\",\"type\",\"string\",\"comment\",\"operator\",\"variable\",\"namespace\"]}},\"textDocumentSync\":{\"change\":2,\"openClose\":true},\"workspace\":{\"workspaceFolders\":{\"changeNotifications\":true,\"supported\":true}},\"workspaceSymbolProvider\":true},\"serverInfo\":{\"name\":\"wacx\",\"version\":\"1.2.3\"}}}",
    ),
    (
        "{\"jsonrpc\":\"2.0\",\"method\":\"textDocument/didOpen\",\"params\":{\"textDocument\":{\"languageId\":\"wac\",\"text\":\"package a:b;\\n\\nimport y:  func();\\n\\ninterface i {\\n    f: func();\\n}\\n\\nlet  x = y;\\n\",\"uri\":\"file:///project/a%20b.wac\",\"version\":1}}}",
        "{\"jsonrpc\":\"2.0\",\"method\":\"textDocument/publishDiagnostics\",\"params\":{\"diagnostics\":[],\"uri\":\"file:///project/a%20b.wac\",\"version\":1}}",
    ),
    (
        "{\"id\":2,\"jsonrpc\":\"2.0\",\"method\":\"textDocument/formatting\",\"params\":{\"options\":{\"insertSpaces\":true,\"tabSize\":4},\"textDocument\":{\"uri\":\"file:///project/a%20b.wac\"}}}",
        "{\"id\":2,\"jsonrpc\":\"2.0\",\"result\":[{\"newText\":\"let x = y;\\n\",\"range\":{\"end\":{\"character\":0,\"line\":9},\"start\":{\"character\":0,\"line\":8}}},{\"newText\":\"import y: func();\\n\",\"range\":{\"end\":{\"character\":0,\"line\":3},\"start\":{\"character\":0,\"line\":2}}}]}",
    ),
    (
        "{\"jsonrpc\":\"2.0\",\"method\":\"textDocument/didChange\",\"params\":{\"contentChanges\":[{\"text\":\"package a:b;\\nimport y: func();\\n\\n\\n\\nlet x = y;\\n\"}],\"textDocument\":{\"uri\":\"file:///project/a%20b.wac\",\"version\":2}}}",
        "{\"jsonrpc\":\"2.0\",\"method\":\"textDocument/publishDiagnostics\",\"params\":{\"diagnostics\":[],\"uri\":\"file:///project/a%20b.wac\",\"version\":2}}",
    ),
    (
        "{\"id\":3,\"jsonrpc\":\"2.0\",\"method\":\"textDocument/formatting\",\"params\":{\"options\":{\"insertSpaces\":true,\"tabSize\":4},\"textDocument\":{\"uri\":\"file:///project/a%20b.wac\"}}}",
        "{\"id\":3,\"jsonrpc\":\"2.0\",\"result\":[{\"newText\":\"\",\"range\":{\"end\":{\"character\":0,\"line\":5},\"start\":{\"character\":0,\"line\":3}}},{\"newText\":\"\\n\",\"range\":{\"end\":{\"character\":0,\"line\":1},\"start\":{\"character\":0,\"line\":1}}}]}",
    ),
    (
        "{\"jsonrpc\":\"2.0\",\"method\":\"textDocument/didChange\",\"params\":{\"contentChanges\":[{\"text\":\"package a:b;\\n\\ninterface i {\\n    record r { a: u8 }\\n}\\n\\nimport y: func();\"}],\"textDocument\":{\"uri\":\"file:///project/a%20b.wac\",\"version\":3}}}",
        "{\"jsonrpc\":\"2.0\",\"method\":\"textDocument/publishDiagnostics\",\"params\":{\"diagnostics\":[],\"uri\":\"file:///project/a%20b.wac\",\"version\":3}}",
    ),
    (
        "{\"id\":4,\"jsonrpc\":\"2.0\",\"method\":\"textDocument/formatting\",\"params\":{\"options\":{\"insertSpaces\":true,\"tabSize\":4},\"textDocument\":{\"uri\":\"file:///project/a%20b.wac\"}}}",
        "{\"id\":4,\"jsonrpc\":\"2.0\",\"result\":[{\"newText\":\"import y: func();\\n\",\"range\":{\"end\":{\"character\":17,\"line\":6},\"start\":{\"character\":0,\"line\":6}}},{\"newText\":\"    record r {\\n        a: u8,\\n    }\\n\",\"range\":{\"end\":{\"character\":0,\"line\":4},\"start\":{\"character\":0,\"line\":3}}}]}",
    ),
    (
        "{\"jsonrpc\":\"2.0\",\"method\":\"textDocument/didChange\",\"params\":{\"contentChanges\":[{\"text\":\"package a:b;\\n\\n\\nimport y: func();\\n\\nlet x = y;\\n\"}],\"textDocument\":{\"uri\":\"file:///project/a%20b.wac\",\"version\":4}}}",
        "{\"jsonrpc\":\"2.0\",\"method\":\"textDocument/publishDiagnostics\",\"params\":{\"diagnostics\":[],\"uri\":\"file:///project/a%20b.wac\",\"version\":4}}",
    ),
    (
        "{\"id\":5,\"jsonrpc\":\"2.0\",\"method\":\"textDocument/formatting\",\"params\":{\"options\":{\"insertSpaces\":true,\"tabSize\":4},\"textDocument\":{\"uri\":\"file:///project/a%20b.wac\"}}}",
        "{\"id\":5,\"jsonrpc\":\"2.0\",\"result\":[{\"newText\":\"\",\"range\":{\"end\":{\"character\":0,\"line\":3},\"start\":{\"character\":0,\"line\":2}}}]}",
    ),
];

/// A change of a document can't be read: its text isn't known until a whole text comes.
static LOST: [Row; 9] = [
    (
        "{\"id\":1,\"jsonrpc\":\"2.0\",\"method\":\"initialize\",\"params\":{\"capabilities\":{},\"processId\":null}}",
        "{\"id\":1,\"jsonrpc\":\"2.0\",\"result\":{\"capabilities\":{\"codeActionProvider\":false,\"completionProvider\":{\"triggerCharacters\":[\".\",\"{\",\":\",\"/\",\"\\\"\"]},\"definitionProvider\":true,\"documentFormattingProvider\":true,\"documentHighlightProvider\":true,\"documentRangeFormattingProvider\":true,\"documentSymbolProvider\":true,\"foldingRangeProvider\":true,\"hoverProvider\":true,\"positionEncoding\":\"utf-16\",\"referencesProvider\":true,\"renameProvider\":true,\"selectionRangeProvider\":true,\"semanticTokensProvider\":{\"full\":true,\"legend\":{\"tokenModifiers\":[],\"tokenTypes\":[\"keyword\",\"type\",\"string\",\"comment\",\"operator\",\"variable\",\"namespace\"]}},\"textDocumentSync\":{\"change\":2,\"openClose\":true},\"workspace\":{\"workspaceFolders\":{\"changeNotifications\":true,\"supported\":true}},\"workspaceSymbolProvider\":true},\"serverInfo\":{\"name\":\"wacx\",\"version\":\"1.2.3\"}}}",
    ),
    (
        "{\"jsonrpc\":\"2.0\",\"method\":\"textDocument/didOpen\",\"params\":{\"textDocument\":{\"languageId\":\"wac\",\"text\":\"package a:b;\\nimport y: func();\\nlet x = y;\\n\",\"uri\":\"file:///project/a%20b.wac\",\"version\":1}}}",
        "{\"jsonrpc\":\"2.0\",\"method\":\"textDocument/publishDiagnostics\",\"params\":{\"diagnostics\":[],\"uri\":\"file:///project/a%20b.wac\",\"version\":1}}",
    ),
    (
        "{\"jsonrpc\":\"2.0\",\"method\":\"textDocument/didChange\",\"params\":{\"contentChanges\":[{\"range\":{\"end\":{\"character\":0,\"line\":1},\"start\":{\"character\":0,\"line\":-1}},\"text\":\"z\"}],\"textDocument\":{\"uri\":\"file:///project/a%20b.wac\",\"version\":2}}}",
        "{\"jsonrpc\":\"2.0\",\"method\":\"textDocument/publishDiagnostics\",\"params\":{\"diagnostics\":[{\"message\":\"a change of this document couldn't be read, so its text isn't known here; close it and open it anew\",\"range\":{\"end\":{\"character\":0,\"line\":0},\"start\":{\"character\":0,\"line\":0}},\"severity\":1,\"source\":\"wac\"}],\"uri\":\"file:///project/a%20b.wac\"}}",
    ),
    (
        "{\"id\":2,\"jsonrpc\":\"2.0\",\"method\":\"textDocument/documentSymbol\",\"params\":{\"textDocument\":{\"uri\":\"file:///project/a%20b.wac\"}}}",
        "{\"error\":{\"code\":-32803,\"message\":\"a change of the document couldn't be read; open it anew\"},\"id\":2,\"jsonrpc\":\"2.0\"}",
    ),
    (
        "{\"id\":3,\"jsonrpc\":\"2.0\",\"method\":\"textDocument/definition\",\"params\":{\"position\":{\"character\":8,\"line\":2},\"textDocument\":{\"uri\":\"file:///project/a%20b.wac\"}}}",
        "{\"error\":{\"code\":-32803,\"message\":\"a change of the document couldn't be read; open it anew\"},\"id\":3,\"jsonrpc\":\"2.0\"}",
    ),
    (
        "{\"id\":4,\"jsonrpc\":\"2.0\",\"method\":\"workspace/symbol\",\"params\":{\"query\":\"\"}}",
        "{\"id\":4,\"jsonrpc\":\"2.0\",\"result\":[]}",
    ),
    (
        "{\"jsonrpc\":\"2.0\",\"method\":\"textDocument/didChange\",\"params\":{\"contentChanges\":[{\"range\":{\"end\":{\"character\":0,\"line\":0},\"start\":{\"character\":0,\"line\":0}},\"text\":\"/**/\"}],\"textDocument\":{\"uri\":\"file:///project/a%20b.wac\",\"version\":3}}}",
        "{\"jsonrpc\":\"2.0\",\"method\":\"textDocument/publishDiagnostics\",\"params\":{\"diagnostics\":[{\"message\":\"a change of this document couldn't be read, so its text isn't known here; close it and open it anew\",\"range\":{\"end\":{\"character\":0,\"line\":0},\"start\":{\"character\":0,\"line\":0}},\"severity\":1,\"source\":\"wac\"}],\"uri\":\"file:///project/a%20b.wac\"}}",
    ),
    (
        "{\"jsonrpc\":\"2.0\",\"method\":\"workspace/didChangeWatchedFiles\",\"params\":{\"changes\":[]}}",
        "{\"jsonrpc\":\"2.0\",\"method\":\"textDocument/publishDiagnostics\",\"params\":{\"diagnostics\":[{\"message\":\"a change of this document couldn't be read, so its text isn't known here; close it and open it anew\",\"range\":{\"end\":{\"character\":0,\"line\":0},\"start\":{\"character\":0,\"line\":0}},\"severity\":1,\"source\":\"wac\"}],\"uri\":\"file:///project/a%20b.wac\"}}",
    ),
    (
        "{\"jsonrpc\":\"2.0\",\"method\":\"textDocument/didChange\",\"params\":{\"contentChanges\":[{\"range\":{\"end\":{\"character\":0,\"line\":0},\"start\":{\"character\":0,\"line\":0}},\"text\":\"/**/\"},{\"text\":\"package a:b;\\nimport y: func();\\nlet x = y;\\n\"},{\"range\":{\"end\":{\"character\":5,\"line\":2},\"start\":{\"character\":4,\"line\":2}},\"text\":\"z\"}],\"textDocument\":{\"uri\":\"file:///project/a%20b.wac\",\"version\":4}}}",
        "{\"jsonrpc\":\"2.0\",\"method\":\"textDocument/publishDiagnostics\",\"params\":{\"diagnostics\":[],\"uri\":\"file:///project/a%20b.wac\",\"version\":4}}",
    ),
];

/// A client that takes no actions and folds parts of lines.
static PLAIN: [Row; 5] = [
    (
        "{\"id\":1,\"jsonrpc\":\"2.0\",\"method\":\"initialize\",\"params\":{\"capabilities\":{},\"processId\":null}}",
        "{\"id\":1,\"jsonrpc\":\"2.0\",\"result\":{\"capabilities\":{\"codeActionProvider\":false,\"completionProvider\":{\"triggerCharacters\":[\".\",\"{\",\":\",\"/\",\"\\\"\"]},\"definitionProvider\":true,\"documentFormattingProvider\":true,\"documentHighlightProvider\":true,\"documentRangeFormattingProvider\":true,\"documentSymbolProvider\":true,\"foldingRangeProvider\":true,\"hoverProvider\":true,\"positionEncoding\":\"utf-16\",\"referencesProvider\":true,\"renameProvider\":true,\"selectionRangeProvider\":true,\"semanticTokensProvider\":{\"full\":true,\"legend\":{\"tokenModifiers\":[],\"tokenTypes\":[\"keyword\",\"type\",\"string\",\"comment\",\"operator\",\"variable\",\"namespace\"]}},\"textDocumentSync\":{\"change\":2,\"openClose\":true},\"workspace\":{\"workspaceFolders\":{\"changeNotifications\":true,\"supported\":true}},\"workspaceSymbolProvider\":true},\"serverInfo\":{\"name\":\"wacx\",\"version\":\"1.2.3\"}}}",
    ),
    (
        "{\"jsonrpc\":\"2.0\",\"method\":\"textDocument/didOpen\",\"params\":{\"textDocument\":{\"languageId\":\"wac\",\"text\":\"package a:b;\\nlte x = y;\\n\",\"uri\":\"file:///project/a%20b.wac\",\"version\":1}}}",
        "{\"jsonrpc\":\"2.0\",\"method\":\"textDocument/publishDiagnostics\",\"params\":{\"diagnostics\":[{\"code\":\"wac::expected-multiple\",\"message\":\"expected either `import` keyword, `let` keyword, `export` keyword, `interface` keyword, `world` keyword, `variant` keyword, `record` keyword, `flags` keyword, `enum` keyword, or `type` keyword, found identifier\\ndid you mean `let`?\",\"range\":{\"end\":{\"character\":3,\"line\":1},\"start\":{\"character\":0,\"line\":1}},\"severity\":1,\"source\":\"wac\"}],\"uri\":\"file:///project/a%20b.wac\",\"version\":1}}",
    ),
    (
        "{\"id\":2,\"jsonrpc\":\"2.0\",\"method\":\"textDocument/codeAction\",\"params\":{\"context\":{\"diagnostics\":[]},\"range\":{\"end\":{\"character\":1,\"line\":1},\"start\":{\"character\":1,\"line\":1}},\"textDocument\":{\"uri\":\"file:///project/a%20b.wac\"}}}",
        "{\"id\":2,\"jsonrpc\":\"2.0\",\"result\":[]}",
    ),
    (
        "{\"jsonrpc\":\"2.0\",\"method\":\"textDocument/didChange\",\"params\":{\"contentChanges\":[{\"text\":\"package a:b;\\n/* a\\n   b */\\ninterface i { // c\\n  f: func();\\n  record r { x: u8 }\\n}\\n\"}],\"textDocument\":{\"uri\":\"file:///project/a%20b.wac\",\"version\":2}}}",
        "{\"jsonrpc\":\"2.0\",\"method\":\"textDocument/publishDiagnostics\",\"params\":{\"diagnostics\":[],\"uri\":\"file:///project/a%20b.wac\",\"version\":2}}",
    ),
    (
        "{\"id\":3,\"jsonrpc\":\"2.0\",\"method\":\"textDocument/foldingRange\",\"params\":{\"textDocument\":{\"uri\":\"file:///project/a%20b.wac\"}}}",
        "{\"id\":3,\"jsonrpc\":\"2.0\",\"result\":[{\"endCharacter\":7,\"endLine\":2,\"kind\":\"comment\",\"startCharacter\":0,\"startLine\":1},{\"endCharacter\":0,\"endLine\":6,\"startCharacter\":13,\"startLine\":3}]}",
    ),
];

/// A client that takes edits of documents of a version; and a byte order mark. It ends without shutdown.
static VERSIONS: [Row; 8] = [
    (
        "{\"id\":1,\"jsonrpc\":\"2.0\",\"method\":\"initialize\",\"params\":{\"capabilities\":{\"textDocument\":{\"codeAction\":{\"codeActionLiteralSupport\":{\"codeActionKind\":{\"valueSet\":[]}}}},\"workspace\":{\"workspaceEdit\":{\"documentChanges\":true}}},\"processId\":null}}",
        "{\"id\":1,\"jsonrpc\":\"2.0\",\"result\":{\"capabilities\":{\"codeActionProvider\":{\"codeActionKinds\":[\"quickfix\"]},\"completionProvider\":{\"triggerCharacters\":[\".\",\"{\",\":\",\"/\",\"\\\"\"]},\"definitionProvider\":true,\"documentFormattingProvider\":true,\"documentHighlightProvider\":true,\"documentRangeFormattingProvider\":true,\"documentSymbolProvider\":true,\"foldingRangeProvider\":true,\"hoverProvider\":true,\"positionEncoding\":\"utf-16\",\"referencesProvider\":true,\"renameProvider\":true,\"selectionRangeProvider\":true,\"semanticTokensProvider\":{\"full\":true,\"legend\":{\"tokenModifiers\":[],\"tokenTypes\":[\"keyword\",\"type\",\"string\",\"comment\",\"operator\",\"variable\",\"namespace\"]}},\"textDocumentSync\":{\"change\":2,\"openClose\":true},\"workspace\":{\"workspaceFolders\":{\"changeNotifications\":true,\"supported\":true}},\"workspaceSymbolProvider\":true},\"serverInfo\":{\"name\":\"wacx\",\"version\":\"1.2.3\"}}}",
    ),
    (
        "{\"jsonrpc\":\"2.0\",\"method\":\"textDocument/didOpen\",\"params\":{\"textDocument\":{\"languageId\":\"wac\",\"text\":\"package a:b;\\nlte x = y;\\n\",\"uri\":\"file:///project/a%20b.wac\",\"version\":1}}}",
        "{\"jsonrpc\":\"2.0\",\"method\":\"textDocument/publishDiagnostics\",\"params\":{\"diagnostics\":[{\"code\":\"wac::expected-multiple\",\"message\":\"expected either `import` keyword, `let` keyword, `export` keyword, `interface` keyword, `world` keyword, `variant` keyword, `record` keyword, `flags` keyword, `enum` keyword, or `type` keyword, found identifier\\ndid you mean `let`?\",\"range\":{\"end\":{\"character\":3,\"line\":1},\"start\":{\"character\":0,\"line\":1}},\"severity\":1,\"source\":\"wac\"}],\"uri\":\"file:///project/a%20b.wac\",\"version\":1}}",
    ),
    (
        "{\"id\":2,\"jsonrpc\":\"2.0\",\"method\":\"textDocument/codeAction\",\"params\":{\"context\":{\"diagnostics\":[]},\"range\":{\"end\":{\"character\":1,\"line\":1},\"start\":{\"character\":1,\"line\":1}},\"textDocument\":{\"uri\":\"file:///project/a%20b.wac\"}}}",
        "{\"id\":2,\"jsonrpc\":\"2.0\",\"result\":[{\"diagnostics\":[{\"code\":\"wac::expected-multiple\",\"message\":\"expected either `import` keyword, `let` keyword, `export` keyword, `interface` keyword, `world` keyword, `variant` keyword, `record` keyword, `flags` keyword, `enum` keyword, or `type` keyword, found identifier\\ndid you mean `let`?\",\"range\":{\"end\":{\"character\":3,\"line\":1},\"start\":{\"character\":0,\"line\":1}},\"severity\":1,\"source\":\"wac\"}],\"edit\":{\"documentChanges\":[{\"edits\":[{\"newText\":\"let\",\"range\":{\"end\":{\"character\":3,\"line\":1},\"start\":{\"character\":0,\"line\":1}}}],\"textDocument\":{\"uri\":\"file:///project/a%20b.wac\",\"version\":1}}]},\"kind\":\"quickfix\",\"title\":\"did you mean `let`?\"}]}",
    ),
    (
        "{\"jsonrpc\":\"2.0\",\"method\":\"textDocument/didChange\",\"params\":{\"contentChanges\":[{\"text\":\"package a:b;\\nimport y: func();\\nlet x = y;\\n\"}],\"textDocument\":{\"uri\":\"file:///project/a%20b.wac\",\"version\":7}}}",
        "{\"jsonrpc\":\"2.0\",\"method\":\"textDocument/publishDiagnostics\",\"params\":{\"diagnostics\":[],\"uri\":\"file:///project/a%20b.wac\",\"version\":7}}",
    ),
    (
        "{\"id\":3,\"jsonrpc\":\"2.0\",\"method\":\"textDocument/rename\",\"params\":{\"newName\":\"z\",\"position\":{\"character\":8,\"line\":2},\"textDocument\":{\"uri\":\"file:///project/a%20b.wac\"}}}",
        "{\"id\":3,\"jsonrpc\":\"2.0\",\"result\":{\"documentChanges\":[{\"edits\":[{\"newText\":\"z as y\",\"range\":{\"end\":{\"character\":8,\"line\":1},\"start\":{\"character\":7,\"line\":1}}},{\"newText\":\"z\",\"range\":{\"end\":{\"character\":9,\"line\":2},\"start\":{\"character\":8,\"line\":2}}}],\"textDocument\":{\"uri\":\"file:///project/a%20b.wac\",\"version\":7}}]}}",
    ),
    (
        "{\"jsonrpc\":\"2.0\",\"method\":\"textDocument/didChange\",\"params\":{\"contentChanges\":[{\"text\":\"\u{feff}package a:b;\\n\"}],\"textDocument\":{\"uri\":\"file:///project/a%20b.wac\",\"version\":8}}}",
        "{\"jsonrpc\":\"2.0\",\"method\":\"textDocument/publishDiagnostics\",\"params\":{\"diagnostics\":[{\"code\":\"wac::byte-order-mark\",\"message\":\"the text begins with a byte order mark\\nsave the file as UTF-8 without a byte order mark\",\"range\":{\"end\":{\"character\":1,\"line\":0},\"start\":{\"character\":0,\"line\":0}},\"severity\":1,\"source\":\"wac\"}],\"uri\":\"file:///project/a%20b.wac\",\"version\":8}}",
    ),
    (
        "{\"id\":4,\"jsonrpc\":\"2.0\",\"method\":\"textDocument/codeAction\",\"params\":{\"context\":{\"diagnostics\":[]},\"range\":{\"end\":{\"character\":0,\"line\":0},\"start\":{\"character\":0,\"line\":0}},\"textDocument\":{\"uri\":\"file:///project/a%20b.wac\"}}}",
        "{\"id\":4,\"jsonrpc\":\"2.0\",\"result\":[{\"diagnostics\":[{\"code\":\"wac::byte-order-mark\",\"message\":\"the text begins with a byte order mark\\nsave the file as UTF-8 without a byte order mark\",\"range\":{\"end\":{\"character\":1,\"line\":0},\"start\":{\"character\":0,\"line\":0}},\"severity\":1,\"source\":\"wac\"}],\"edit\":{\"documentChanges\":[{\"edits\":[{\"newText\":\"\",\"range\":{\"end\":{\"character\":1,\"line\":0},\"start\":{\"character\":0,\"line\":0}}}],\"textDocument\":{\"uri\":\"file:///project/a%20b.wac\",\"version\":8}}]},\"kind\":\"quickfix\",\"title\":\"remove the byte order mark\"}]}",
    ),
    ("{\"jsonrpc\":\"2.0\",\"method\":\"exit\"}", "status 1"),
];

/// What a server does after a message, in words.
fn words(alloc: Global, outcome: &Outcome) -> Result<String, AllocError> {
    if let Some(status) = outcome.status {
        return format!(in alloc; "status {status}");
    }
    let mut told = String::new(alloc);
    for message in outcome.messages.as_slice() {
        if !told.is_empty() {
            told.push('\n')?;
        }
        told.push_str(message.body())?;
    }
    Ok(told)
}

/// The same, after the message with this body.
fn told(alloc: Global, server: &mut Server, body: &str) -> Result<String, ChangeError> {
    match step(alloc, server, body.as_bytes()) {
        Ok(outcome) => Ok(words(alloc, &outcome)?),
        Err(error) => Err(error),
    }
}

/// The first message after which a server does something else than its row says, with that. Nothing where there is none.
fn difference_in(alloc: Global, server: &mut Server, rows: &[Row]) -> Result<String, ChangeError> {
    for (body, expected) in rows {
        let found = told(alloc, server, body)?;
        if found.as_str() != *expected {
            return Ok(format!(in alloc; "{body}\n{found}")?);
        }
    }
    Ok(String::new(alloc))
}

/// The same of a session from its beginning.
fn difference(alloc: Global, rows: &[Row]) -> Result<String, ChangeError> {
    let mut server = Server::new(alloc, "1.2.3");
    difference_in(alloc, &mut server, rows)
}

#[test]
fn servers_answer_as_rows_say(rt: HostRuntime) -> Result<(), Fail> {
    for rows in [
        NAMES.as_slice(),
        LAYOUT.as_slice(),
        LOST.as_slice(),
        PLAIN.as_slice(),
        VERSIONS.as_slice(),
    ] {
        let found = difference(rt.alloc(), rows)?;
        assert!(rt; found.is_empty(), "{found}");
    }
    Ok(())
}
