//! Sessions of a client with folders, over files in memory: what is sent after each message. Other rows of sessions are
//! in .ci/sessions/.

use crate::devices::{Narrow, Pieces};
use std::alloc::{AllocError, Global};
use std::process::Abort;
use std::test::Fail;
use wac_files::MemoryFiles;
use wac_lsp::Sent;
use wac_lsp_sessions::{Reads, ServeError, Session, serve};
use wac_lsp_texts::ChangeError;
use wac_lsp_workspace::{read_files, read_folders};

/// The body of a message, and those that are sent after it, a line each.
type Row = (&'static str, &'static str);

/// A session.
#[derive(Clone, Copy)]
struct Story {
    folders: &'static [&'static str],
    /// The files, each with its text.
    files: &'static [(&'static str, &'static str)],
    /// The message with which the client begins. The reply is that of a server without folders.
    begins: &'static str,
    rows: &'static [Row],
}

/// The documents of `a:b` and `a:c` in a folder.
static PROJECT: [(&str, &str); 2] = [
    (
        "/my project/b.wac",
        "package a:b;\nworld w { export f: func(); }\n",
    ),
    (
        "/my project/c.wac",
        "package a:c;\ninterface i { type t = u8; }\n",
    ),
];

/// A client begins that can be asked to watch files, and takes actions.
const BEGINS: &str =
    "{\"id\":1,\"jsonrpc\":\"2.0\",\"method\":\"initialize\",\"params\":{\"capabilities\":{\"textDocument\":{\"codeAction\":{\"codeActionLiteralSupport\":{\"codeActionKind\":{\"valueSet\":[]}}},\"publishDiagnostics\":{\"relatedInformation\":true}},\"workspace\":{\"didChangeWatchedFiles\":{\"dynamicRegistration\":true}}},\"workspaceFolders\":[{\"name\":\"p\",\"uri\":\"file:///my%20project\"}]}}";

/// A composition with `a:b` is opened, and the document of `a:b` is opened, changed and closed.
static ROWS: [Row; 13] = [
    (
        "{\"jsonrpc\":\"2.0\",\"method\":\"initialized\",\"params\":{}}",
        "{\"id\":\"files\",\"jsonrpc\":\"2.0\",\"method\":\"client/registerCapability\",\"params\":{\"registrations\":[{\"id\":\"files\",\"method\":\"workspace/didChangeWatchedFiles\",\"registerOptions\":{\"watchers\":[{\"globPattern\":\"**/*.{wac,wasm}\"}]}}]}}\n",
    ),
    (
        "{\"jsonrpc\":\"2.0\",\"method\":\"textDocument/didOpen\",\"params\":{\"textDocument\":{\"languageId\":\"wac\",\"text\":\"package a:app;\\nlet x = new a:b { };\\nexport x.f;\\n\",\"uri\":\"file:///my%20project/app.wac\",\"version\":1}}}",
        "{\"jsonrpc\":\"2.0\",\"method\":\"textDocument/publishDiagnostics\",\"params\":{\"diagnostics\":[],\"uri\":\"file:///my%20project/app.wac\",\"version\":1}}\n",
    ),
    // The client's name of a document is another one than this server's of its path.
    (
        "{\"jsonrpc\":\"2.0\",\"method\":\"textDocument/didOpen\",\"params\":{\"textDocument\":{\"languageId\":\"wac\",\"text\":\"package a:b;\\nworld w { export f: func(); }\\n\",\"uri\":\"file:///my%20project/%62.wac\",\"version\":1}}}",
        "{\"jsonrpc\":\"2.0\",\"method\":\"textDocument/publishDiagnostics\",\"params\":{\"diagnostics\":[],\"uri\":\"file:///my%20project/%62.wac\",\"version\":1}}\n",
    ),
    (
        "{\"jsonrpc\":\"2.0\",\"method\":\"textDocument/didChange\",\"params\":{\"contentChanges\":[{\"text\":\"package a:b;\\nworld w { }\\n\"}],\"textDocument\":{\"uri\":\"file:///my%20project/%62.wac\",\"version\":2}}}",
        "{\"jsonrpc\":\"2.0\",\"method\":\"textDocument/publishDiagnostics\",\"params\":{\"diagnostics\":[{\"code\":\"wac::missing-instance-export\",\"message\":\"the instance has no export named `f`\\n`x` has nothing\",\"range\":{\"end\":{\"character\":10,\"line\":2},\"start\":{\"character\":8,\"line\":2}},\"relatedInformation\":[],\"severity\":1,\"source\":\"wac\"}],\"uri\":\"file:///my%20project/app.wac\",\"version\":1}}\n\
         {\"jsonrpc\":\"2.0\",\"method\":\"textDocument/publishDiagnostics\",\"params\":{\"diagnostics\":[],\"uri\":\"file:///my%20project/%62.wac\",\"version\":2}}\n",
    ),
    // What a change of the composition alone leaves wrong.
    (
        "{\"jsonrpc\":\"2.0\",\"method\":\"textDocument/didChange\",\"params\":{\"contentChanges\":[{\"text\":\"package a:app;\\nlet x = new a:b { };\\nexport x.f ;\\n\"}],\"textDocument\":{\"uri\":\"file:///my%20project/app.wac\",\"version\":2}}}",
        "{\"jsonrpc\":\"2.0\",\"method\":\"textDocument/publishDiagnostics\",\"params\":{\"diagnostics\":[{\"code\":\"wac::missing-instance-export\",\"message\":\"the instance has no export named `f`\\n`x` has nothing\",\"range\":{\"end\":{\"character\":10,\"line\":2},\"start\":{\"character\":8,\"line\":2}},\"relatedInformation\":[],\"severity\":1,\"source\":\"wac\"}],\"uri\":\"file:///my%20project/app.wac\",\"version\":2}}\n",
    ),
    (
        "{\"id\":2,\"jsonrpc\":\"2.0\",\"method\":\"textDocument/definition\",\"params\":{\"position\":{\"character\":13,\"line\":1},\"textDocument\":{\"uri\":\"file:///my%20project/app.wac\"}}}",
        "{\"id\":2,\"jsonrpc\":\"2.0\",\"result\":{\"range\":{\"end\":{\"character\":11,\"line\":0},\"start\":{\"character\":8,\"line\":0}},\"uri\":\"file:///my%20project/%62.wac\"}}\n",
    ),
    // After `new a:`, what is written of the name is replaced.
    (
        "{\"id\":5,\"jsonrpc\":\"2.0\",\"method\":\"textDocument/completion\",\"params\":{\"position\":{\"character\":14,\"line\":1},\"textDocument\":{\"uri\":\"file:///my%20project/app.wac\"}}}",
        "{\"id\":5,\"jsonrpc\":\"2.0\",\"result\":{\"isIncomplete\":false,\"items\":[{\"detail\":\"a:b\",\"kind\":9,\"label\":\"a:b\",\"textEdit\":{\"newText\":\"a:b\",\"range\":{\"end\":{\"character\":14,\"line\":1},\"start\":{\"character\":12,\"line\":1}}}},{\"detail\":\"a:c\",\"kind\":9,\"label\":\"a:c\",\"textEdit\":{\"newText\":\"a:c\",\"range\":{\"end\":{\"character\":14,\"line\":1},\"start\":{\"character\":12,\"line\":1}}}}]}}\n",
    ),
    // What open documents declare, the one that changed last at the end, and after it what the others of the folder do.
    (
        "{\"id\":11,\"jsonrpc\":\"2.0\",\"method\":\"workspace/symbol\",\"params\":{\"query\":\"\"}}",
        "{\"id\":11,\"jsonrpc\":\"2.0\",\"result\":[{\"kind\":2,\"location\":{\"range\":{\"end\":{\"character\":11,\"line\":1},\"start\":{\"character\":0,\"line\":1}},\"uri\":\"file:///my%20project/%62.wac\"},\"name\":\"w\"},{\"kind\":13,\"location\":{\"range\":{\"end\":{\"character\":20,\"line\":1},\"start\":{\"character\":0,\"line\":1}},\"uri\":\"file:///my%20project/app.wac\"},\"name\":\"x\"},{\"kind\":11,\"location\":{\"range\":{\"end\":{\"character\":28,\"line\":1},\"start\":{\"character\":0,\"line\":1}},\"uri\":\"file:///my%20project/c.wac\"},\"name\":\"i\"},{\"kind\":26,\"location\":{\"range\":{\"end\":{\"character\":26,\"line\":1},\"start\":{\"character\":14,\"line\":1}},\"uri\":\"file:///my%20project/c.wac\"},\"name\":\"t\"}]}\n",
    ),
    // Its file stands for itself again.
    (
        "{\"jsonrpc\":\"2.0\",\"method\":\"textDocument/didClose\",\"params\":{\"textDocument\":{\"uri\":\"file:///my%20project/%62.wac\"}}}",
        "{\"jsonrpc\":\"2.0\",\"method\":\"textDocument/publishDiagnostics\",\"params\":{\"diagnostics\":[],\"uri\":\"file:///my%20project/%62.wac\"}}\n\
         {\"jsonrpc\":\"2.0\",\"method\":\"textDocument/publishDiagnostics\",\"params\":{\"diagnostics\":[],\"uri\":\"file:///my%20project/app.wac\",\"version\":2}}\n",
    ),
    (
        "{\"id\":7,\"jsonrpc\":\"2.0\",\"method\":\"textDocument/hover\",\"params\":{\"position\":{\"character\":9,\"line\":2},\"textDocument\":{\"uri\":\"file:///my%20project/app.wac\"}}}",
        "{\"id\":7,\"jsonrpc\":\"2.0\",\"result\":{\"contents\":{\"kind\":\"plaintext\",\"value\":\"export f: func();\"},\"range\":{\"end\":{\"character\":10,\"line\":2},\"start\":{\"character\":9,\"line\":2}}}}\n",
    ),
    (
        "{\"jsonrpc\":\"2.0\",\"method\":\"workspace/didChangeWatchedFiles\",\"params\":{\"changes\":[]}}",
        "",
    ),
    // A package that there isn't: the edit that mends it, of a range that touches the name, and of one that doesn't.
    (
        "{\"jsonrpc\":\"2.0\",\"method\":\"textDocument/didChange\",\"params\":{\"contentChanges\":[{\"text\":\"package a:app;\\nlet x = new a:d { };\\n\"}],\"textDocument\":{\"uri\":\"file:///my%20project/app.wac\",\"version\":3}}}",
        "{\"jsonrpc\":\"2.0\",\"method\":\"textDocument/publishDiagnostics\",\"params\":{\"diagnostics\":[{\"code\":\"wac::unknown-package\",\"message\":\"unknown package `a:d`\\n`a:b` is declared by b.wac, `a:c` is declared by c.wac\",\"range\":{\"end\":{\"character\":15,\"line\":1},\"start\":{\"character\":12,\"line\":1}},\"relatedInformation\":[],\"severity\":1,\"source\":\"wac\"}],\"uri\":\"file:///my%20project/app.wac\",\"version\":3}}\n",
    ),
    (
        "{\"id\":9,\"jsonrpc\":\"2.0\",\"method\":\"textDocument/codeAction\",\"params\":{\"context\":{\"diagnostics\":[]},\"range\":{\"end\":{\"character\":13,\"line\":1},\"start\":{\"character\":13,\"line\":1}},\"textDocument\":{\"uri\":\"file:///my%20project/app.wac\"}}}",
        "{\"id\":9,\"jsonrpc\":\"2.0\",\"result\":[{\"diagnostics\":[{\"code\":\"wac::unknown-package\",\"message\":\"unknown package `a:d`\\n`a:b` is declared by b.wac, `a:c` is declared by c.wac\",\"range\":{\"end\":{\"character\":15,\"line\":1},\"start\":{\"character\":12,\"line\":1}},\"relatedInformation\":[],\"severity\":1,\"source\":\"wac\"}],\"edit\":{\"changes\":{\"file:///my%20project/app.wac\":[{\"newText\":\"a:b\",\"range\":{\"end\":{\"character\":15,\"line\":1},\"start\":{\"character\":12,\"line\":1}}}]}},\"kind\":\"quickfix\",\"title\":\"write `a:b`\"}]}\n",
    ),
];

/// A client begins that has no folder open, and can be asked to watch files.
const BEGINS_ALONE: &str =
    "{\"id\":1,\"jsonrpc\":\"2.0\",\"method\":\"initialize\",\"params\":{\"capabilities\":{\"textDocument\":{\"publishDiagnostics\":{\"relatedInformation\":true}},\"workspace\":{\"didChangeWatchedFiles\":{\"dynamicRegistration\":true}}},\"workspaceFolders\":null}}";

/// The composition and a document of `a:b` without its export are opened; then their folder is opened, and closed.
static FOLDERS: [Row; 5] = [
    (
        "{\"jsonrpc\":\"2.0\",\"method\":\"initialized\",\"params\":{}}",
        "",
    ),
    (
        "{\"jsonrpc\":\"2.0\",\"method\":\"textDocument/didOpen\",\"params\":{\"textDocument\":{\"languageId\":\"wac\",\"text\":\"package a:app;\\nlet x = new a:b { };\\nexport x.f;\\n\",\"uri\":\"file:///my%20project/app.wac\",\"version\":1}}}",
        "{\"jsonrpc\":\"2.0\",\"method\":\"textDocument/publishDiagnostics\",\"params\":{\"diagnostics\":[],\"uri\":\"file:///my%20project/app.wac\",\"version\":1}}\n",
    ),
    (
        "{\"jsonrpc\":\"2.0\",\"method\":\"textDocument/didOpen\",\"params\":{\"textDocument\":{\"languageId\":\"wac\",\"text\":\"package a:b;\\nworld w { }\\n\",\"uri\":\"file:///my%20project/%62.wac\",\"version\":1}}}",
        "{\"jsonrpc\":\"2.0\",\"method\":\"textDocument/publishDiagnostics\",\"params\":{\"diagnostics\":[],\"uri\":\"file:///my%20project/%62.wac\",\"version\":1}}\n",
    ),
    // The client is asked to watch files now, and what is open stands before its file.
    (
        "{\"jsonrpc\":\"2.0\",\"method\":\"workspace/didChangeWorkspaceFolders\",\"params\":{\"event\":{\"added\":[{\"name\":\"p\",\"uri\":\"file:///my%20project/\"},{\"name\":\"p\",\"uri\":\"file:///my%20project\"}],\"removed\":[]}}}",
        "{\"id\":\"files\",\"jsonrpc\":\"2.0\",\"method\":\"client/registerCapability\",\"params\":{\"registrations\":[{\"id\":\"files\",\"method\":\"workspace/didChangeWatchedFiles\",\"registerOptions\":{\"watchers\":[{\"globPattern\":\"**/*.{wac,wasm}\"}]}}]}}\n\
         {\"jsonrpc\":\"2.0\",\"method\":\"textDocument/publishDiagnostics\",\"params\":{\"diagnostics\":[{\"code\":\"wac::missing-instance-export\",\"message\":\"the instance has no export named `f`\\n`x` has nothing\",\"range\":{\"end\":{\"character\":10,\"line\":2},\"start\":{\"character\":8,\"line\":2}},\"relatedInformation\":[],\"severity\":1,\"source\":\"wac\"}],\"uri\":\"file:///my%20project/app.wac\",\"version\":1}}\n\
         {\"jsonrpc\":\"2.0\",\"method\":\"textDocument/publishDiagnostics\",\"params\":{\"diagnostics\":[],\"uri\":\"file:///my%20project/%62.wac\",\"version\":1}}\n",
    ),
    (
        "{\"jsonrpc\":\"2.0\",\"method\":\"workspace/didChangeWorkspaceFolders\",\"params\":{\"event\":{\"added\":[{\"name\":\"p\",\"uri\":\"https://example.org/p\"}],\"removed\":[{\"name\":\"p\",\"uri\":\"file:///my%20project\"}]}}}",
        "{\"jsonrpc\":\"2.0\",\"method\":\"textDocument/publishDiagnostics\",\"params\":{\"diagnostics\":[],\"uri\":\"file:///my%20project/app.wac\",\"version\":1}}\n\
         {\"jsonrpc\":\"2.0\",\"method\":\"textDocument/publishDiagnostics\",\"params\":{\"diagnostics\":[],\"uri\":\"file:///my%20project/%62.wac\",\"version\":1}}\n",
    ),
];

/// The document of `a:b` is open, and a change of it is lost.
static LOST: [Row; 5] = [
    (
        "{\"jsonrpc\":\"2.0\",\"method\":\"initialized\",\"params\":{}}",
        "{\"id\":\"files\",\"jsonrpc\":\"2.0\",\"method\":\"client/registerCapability\",\"params\":{\"registrations\":[{\"id\":\"files\",\"method\":\"workspace/didChangeWatchedFiles\",\"registerOptions\":{\"watchers\":[{\"globPattern\":\"**/*.{wac,wasm}\"}]}}]}}\n",
    ),
    (
        "{\"jsonrpc\":\"2.0\",\"method\":\"textDocument/didOpen\",\"params\":{\"textDocument\":{\"languageId\":\"wac\",\"text\":\"package a:app;\\nlet x = new a:b { };\\nexport x.f;\\n\",\"uri\":\"file:///my%20project/app.wac\",\"version\":1}}}",
        "{\"jsonrpc\":\"2.0\",\"method\":\"textDocument/publishDiagnostics\",\"params\":{\"diagnostics\":[],\"uri\":\"file:///my%20project/app.wac\",\"version\":1}}\n",
    ),
    (
        "{\"jsonrpc\":\"2.0\",\"method\":\"textDocument/didOpen\",\"params\":{\"textDocument\":{\"languageId\":\"wac\",\"text\":\"package a:b;\\nworld w { }\\n\",\"uri\":\"file:///my%20project/%62.wac\",\"version\":1}}}",
        "{\"jsonrpc\":\"2.0\",\"method\":\"textDocument/publishDiagnostics\",\"params\":{\"diagnostics\":[{\"code\":\"wac::missing-instance-export\",\"message\":\"the instance has no export named `f`\\n`x` has nothing\",\"range\":{\"end\":{\"character\":10,\"line\":2},\"start\":{\"character\":8,\"line\":2}},\"relatedInformation\":[],\"severity\":1,\"source\":\"wac\"}],\"uri\":\"file:///my%20project/app.wac\",\"version\":1}}\n\
         {\"jsonrpc\":\"2.0\",\"method\":\"textDocument/publishDiagnostics\",\"params\":{\"diagnostics\":[],\"uri\":\"file:///my%20project/%62.wac\",\"version\":1}}\n",
    ),
    // The file of the document stands for itself then.
    (
        "{\"jsonrpc\":\"2.0\",\"method\":\"textDocument/didChange\",\"params\":{\"contentChanges\":[{\"text\":3}],\"textDocument\":{\"uri\":\"file:///my%20project/%62.wac\",\"version\":2}}}",
        "{\"jsonrpc\":\"2.0\",\"method\":\"textDocument/publishDiagnostics\",\"params\":{\"diagnostics\":[{\"message\":\"a change of this document couldn't be read, so its text isn't known here; close it and open it anew\",\"range\":{\"end\":{\"character\":0,\"line\":0},\"start\":{\"character\":0,\"line\":0}},\"severity\":1,\"source\":\"wac\"}],\"uri\":\"file:///my%20project/%62.wac\"}}\n\
         {\"jsonrpc\":\"2.0\",\"method\":\"textDocument/publishDiagnostics\",\"params\":{\"diagnostics\":[],\"uri\":\"file:///my%20project/app.wac\",\"version\":1}}\n\
         {\"jsonrpc\":\"2.0\",\"method\":\"textDocument/publishDiagnostics\",\"params\":{\"diagnostics\":[{\"message\":\"a change of this document couldn't be read, so its text isn't known here; close it and open it anew\",\"range\":{\"end\":{\"character\":0,\"line\":0},\"start\":{\"character\":0,\"line\":0}},\"severity\":1,\"source\":\"wac\"}],\"uri\":\"file:///my%20project/%62.wac\"}}\n",
    ),
    // Folders are read anew, and its text isn't taken.
    (
        "{\"jsonrpc\":\"2.0\",\"method\":\"workspace/didChangeWorkspaceFolders\",\"params\":{\"event\":{\"added\":[],\"removed\":[]}}}",
        "{\"jsonrpc\":\"2.0\",\"method\":\"textDocument/publishDiagnostics\",\"params\":{\"diagnostics\":[],\"uri\":\"file:///my%20project/app.wac\",\"version\":1}}\n\
         {\"jsonrpc\":\"2.0\",\"method\":\"textDocument/publishDiagnostics\",\"params\":{\"diagnostics\":[{\"message\":\"a change of this document couldn't be read, so its text isn't known here; close it and open it anew\",\"range\":{\"end\":{\"character\":0,\"line\":0},\"start\":{\"character\":0,\"line\":0}},\"severity\":1,\"source\":\"wac\"}],\"uri\":\"file:///my%20project/%62.wac\"}}\n",
    ),
];

/// A component that imports a function `f` and exports it as `g`: the preamble, then the type, the import and the export.
const COMPONENT: &str = "\0asm\x0d\0\x01\0\
     \x07\x05\x01\x40\0\x01\0\
     \x0a\x06\x01\0\x01f\x01\0\
     \x0b\x07\x01\0\x01g\x01\0\0";

/// A package whose world has interfaces without a path, and a component of it; another component; a package of two worlds;
/// and a package in a folder that isn't entered.
static PACKAGES: [(&str, &str); 5] = [
    (
        "/p/d.wac",
        "package c:d;\n\ninterface f {\n    h: func();\n}\n\nworld w {\n    import e: interface {\n        f: func();\n    };\n    export e: interface {\n        /// Goes.\n        f: func(\n            x: u8,\n        );\n        type t = u8;\n    };\n    export f: func();\n}\n",
    ),
    ("/p/deps/c/d.wasm", COMPONENT),
    ("/p/deps/k/m.wasm", COMPONENT),
    (
        "/p/two.wac",
        "package t:w;\nworld v { }\nworld w { export f: func(); }\n",
    ),
    ("/p/target/x.wac", "package t:x;\nworld w { }\n"),
];

/// A client begins with their folder.
const BEGINS_WITH_PACKAGES: &str =
    "{\"id\":0,\"jsonrpc\":\"2.0\",\"method\":\"initialize\",\"params\":{\"capabilities\":{},\"workspaceFolders\":[{\"name\":\"p\",\"uri\":\"file:///p\"}]}}";

/// What is told of compositions of these.
static OF_PACKAGES: [Row; 11] = [
    (
        "{\"jsonrpc\":\"2.0\",\"method\":\"initialized\",\"params\":{}}",
        "",
    ),
    // A package with two worlds of which none is chosen is no error.
    (
        "{\"jsonrpc\":\"2.0\",\"method\":\"textDocument/didOpen\",\"params\":{\"textDocument\":{\"languageId\":\"wac\",\"text\":\"package a:app;\\nlet x = new t:w { };\\n\",\"uri\":\"file:///p/app.wac\",\"version\":1}}}",
        "{\"jsonrpc\":\"2.0\",\"method\":\"textDocument/publishDiagnostics\",\"params\":{\"diagnostics\":[],\"uri\":\"file:///p/app.wac\",\"version\":1}}\n",
    ),
    // A folder of what was built isn't entered.
    (
        "{\"jsonrpc\":\"2.0\",\"method\":\"textDocument/didChange\",\"params\":{\"contentChanges\":[{\"text\":\"package a:app;\\nlet x = new t:x { };\\n\"}],\"textDocument\":{\"uri\":\"file:///p/app.wac\",\"version\":2}}}",
        "{\"jsonrpc\":\"2.0\",\"method\":\"textDocument/publishDiagnostics\",\"params\":{\"diagnostics\":[{\"code\":\"wac::unknown-package\",\"message\":\"unknown package `t:x`\\n`t:w` is declared by two.wac\",\"range\":{\"end\":{\"character\":15,\"line\":1},\"start\":{\"character\":12,\"line\":1}},\"severity\":1,\"source\":\"wac\"}],\"uri\":\"file:///p/app.wac\",\"version\":2}}\n",
    ),
    // A component in `deps`.
    (
        "{\"jsonrpc\":\"2.0\",\"method\":\"textDocument/didChange\",\"params\":{\"contentChanges\":[{\"text\":\"package a:app;\\nlet x = new k:m { ... };\\nexport x.g;\\n\"}],\"textDocument\":{\"uri\":\"file:///p/app.wac\",\"version\":3}}}",
        "{\"jsonrpc\":\"2.0\",\"method\":\"textDocument/publishDiagnostics\",\"params\":{\"diagnostics\":[],\"uri\":\"file:///p/app.wac\",\"version\":3}}\n",
    ),
    (
        "{\"id\":1,\"jsonrpc\":\"2.0\",\"method\":\"textDocument/hover\",\"params\":{\"position\":{\"character\":9,\"line\":2},\"textDocument\":{\"uri\":\"file:///p/app.wac\"}}}",
        "{\"id\":1,\"jsonrpc\":\"2.0\",\"result\":{\"contents\":{\"kind\":\"plaintext\",\"value\":\"export g: func();\"},\"range\":{\"end\":{\"character\":10,\"line\":2},\"start\":{\"character\":9,\"line\":2}}}}\n",
    ),
    // The document of a package stands before its component.
    (
        "{\"jsonrpc\":\"2.0\",\"method\":\"textDocument/didChange\",\"params\":{\"contentChanges\":[{\"text\":\"package a:app;\\nlet x = new c:d { ... };\\nexport x.e.f;\\n\"}],\"textDocument\":{\"uri\":\"file:///p/app.wac\",\"version\":4}}}",
        "{\"jsonrpc\":\"2.0\",\"method\":\"textDocument/publishDiagnostics\",\"params\":{\"diagnostics\":[],\"uri\":\"file:///p/app.wac\",\"version\":4}}\n",
    ),
    (
        "{\"id\":2,\"jsonrpc\":\"2.0\",\"method\":\"textDocument/definition\",\"params\":{\"position\":{\"character\":11,\"line\":2},\"textDocument\":{\"uri\":\"file:///p/app.wac\"}}}",
        "{\"id\":2,\"jsonrpc\":\"2.0\",\"result\":{\"range\":{\"end\":{\"character\":9,\"line\":12},\"start\":{\"character\":8,\"line\":12}},\"uri\":\"file:///p/d.wac\"}}\n",
    ),
    (
        "{\"id\":3,\"jsonrpc\":\"2.0\",\"method\":\"textDocument/completion\",\"params\":{\"position\":{\"character\":11,\"line\":2},\"textDocument\":{\"uri\":\"file:///p/app.wac\"}}}",
        "{\"id\":3,\"jsonrpc\":\"2.0\",\"result\":{\"isIncomplete\":false,\"items\":[{\"detail\":\"func(x: u8)\",\"kind\":3,\"label\":\"f\",\"textEdit\":{\"newText\":\"f\",\"range\":{\"end\":{\"character\":11,\"line\":2},\"start\":{\"character\":11,\"line\":2}}}},{\"detail\":\"type\",\"kind\":22,\"label\":\"t\",\"textEdit\":{\"newText\":\"t\",\"range\":{\"end\":{\"character\":11,\"line\":2},\"start\":{\"character\":11,\"line\":2}}}}]}}\n",
    ),
    (
        "{\"jsonrpc\":\"2.0\",\"method\":\"textDocument/didChange\",\"params\":{\"contentChanges\":[{\"text\":\"package a:app;\\nimport x: c:d/f;\\n\"}],\"textDocument\":{\"uri\":\"file:///p/app.wac\",\"version\":5}}}",
        "{\"jsonrpc\":\"2.0\",\"method\":\"textDocument/publishDiagnostics\",\"params\":{\"diagnostics\":[],\"uri\":\"file:///p/app.wac\",\"version\":5}}\n",
    ),
    (
        "{\"id\":4,\"jsonrpc\":\"2.0\",\"method\":\"textDocument/completion\",\"params\":{\"position\":{\"character\":14,\"line\":1},\"textDocument\":{\"uri\":\"file:///p/app.wac\"}}}",
        "{\"id\":4,\"jsonrpc\":\"2.0\",\"result\":{\"isIncomplete\":false,\"items\":[{\"detail\":\"c:d/f\",\"kind\":8,\"label\":\"c:d/f\",\"textEdit\":{\"newText\":\"c:d/f\",\"range\":{\"end\":{\"character\":14,\"line\":1},\"start\":{\"character\":10,\"line\":1}}}},{\"detail\":\"c:d/w\",\"kind\":9,\"label\":\"c:d/w\",\"textEdit\":{\"newText\":\"c:d/w\",\"range\":{\"end\":{\"character\":14,\"line\":1},\"start\":{\"character\":10,\"line\":1}}}}]}}\n",
    ),
    // It is in no folder of the client.
    (
        "{\"jsonrpc\":\"2.0\",\"method\":\"textDocument/didOpen\",\"params\":{\"textDocument\":{\"languageId\":\"wac\",\"text\":\"package a:app;\\nlet x = new t:x { };\\n\",\"uri\":\"file:///p2/app.wac\",\"version\":1}}}",
        "{\"jsonrpc\":\"2.0\",\"method\":\"textDocument/publishDiagnostics\",\"params\":{\"diagnostics\":[],\"uri\":\"file:///p2/app.wac\",\"version\":1}}\n",
    ),
];

/// A client begins with a folder that is empty.
const BEGINS_WITHOUT: &str =
    "{\"id\":0,\"jsonrpc\":\"2.0\",\"method\":\"initialize\",\"params\":{\"capabilities\":{},\"workspaceFolders\":[{\"name\":\"e\",\"uri\":\"file:///e\"}]}}";

/// A composition in a folder without packages.
static ALONE: [Row; 2] = [
    (
        "{\"jsonrpc\":\"2.0\",\"method\":\"initialized\",\"params\":{}}",
        "",
    ),
    (
        "{\"jsonrpc\":\"2.0\",\"method\":\"textDocument/didOpen\",\"params\":{\"textDocument\":{\"languageId\":\"wac\",\"text\":\"package a:app;\\nlet x = new a:b { };\\n\",\"uri\":\"file:///e/app.wac\",\"version\":1}}}",
        "{\"jsonrpc\":\"2.0\",\"method\":\"textDocument/publishDiagnostics\",\"params\":{\"diagnostics\":[{\"code\":\"wac::unknown-package\",\"message\":\"unknown package `a:b`\\nput its component at `deps/a/b.wasm`, or a document that declares it into `deps`\",\"range\":{\"end\":{\"character\":15,\"line\":1},\"start\":{\"character\":12,\"line\":1}},\"severity\":1,\"source\":\"wac\"}],\"uri\":\"file:///e/app.wac\",\"version\":1}}\n",
    ),
];

static PROJECT_FOLDERS: [&str; 1] = ["/my project"];

static PACKAGE_FOLDERS: [&str; 5] = ["/p", "/p/deps", "/p/deps/c", "/p/deps/k", "/p/target"];

static EMPTY_FOLDERS: [&str; 1] = ["/e"];

/// All sessions.
fn stories() -> [Story; 5] {
    [
        in_project(BEGINS, ROWS.as_slice()),
        in_project(BEGINS_ALONE, FOLDERS.as_slice()),
        in_project(BEGINS, LOST.as_slice()),
        Story {
            folders: PACKAGE_FOLDERS.as_slice(),
            files: PACKAGES.as_slice(),
            begins: BEGINS_WITH_PACKAGES,
            rows: OF_PACKAGES.as_slice(),
        },
        Story {
            folders: EMPTY_FOLDERS.as_slice(),
            files: &[],
            begins: BEGINS_WITHOUT,
            rows: ALONE.as_slice(),
        },
    ]
}

/// A session with the documents of `a:b` and `a:c`.
fn in_project(begins: &'static str, rows: &'static [Row]) -> Story {
    Story {
        folders: PROJECT_FOLDERS.as_slice(),
        files: PROJECT.as_slice(),
        begins,
        rows,
    }
}

/// Folders, and files in them, each with its text.
pub(crate) fn files_of(
    alloc: Global,
    folders: &[&str],
    files: &[(&str, &str)],
) -> Result<MemoryFiles, AllocError> {
    let mut all = MemoryFiles::new(alloc);
    for folder in folders {
        all.folder(alloc, *folder)?;
    }
    for (path, text) in files {
        all.file(alloc, *path, text.as_bytes())?;
    }
    Ok(all)
}

/// Adds messages, a line each.
fn push_sent(lines: &mut String, messages: &[Sent]) -> Result<(), AllocError> {
    for message in messages {
        lines.push_str(message.body())?;
        lines.push('\n')?;
    }
    Ok(())
}

/// Adds what a session sends after a message. Returns what is to be read then.
fn push_answer(
    lines: &mut String,
    alloc: Global,
    session: &mut Session,
    body: &str,
) -> Result<Reads, ChangeError> {
    match session.step(alloc, body.as_bytes()) {
        Ok(stepped) => {
            push_sent(lines, stepped.outcome.messages.as_slice())?;
            Ok(stepped.reads)
        }
        Err(error) => Err(error),
    }
}

/// Reads the folders of a session, and adds what it sends then.
fn push_read(
    lines: &mut String,
    alloc: Global,
    session: &mut Session,
    files: &mut MemoryFiles,
) -> Result<(), AllocError> {
    let contents = read_folders(alloc, files, session.workspace())?;
    match session.take(alloc, contents) {
        Ok(messages) => push_sent(lines, messages.as_slice()),
        Err(error) => Err(error),
    }
}

/// Reads files of the folders, or the folders where that doesn't do, and adds what the session sends then.
fn push_read_files(
    lines: &mut String,
    alloc: Global,
    session: &mut Session,
    files: &mut MemoryFiles,
    paths: &[String],
) -> Result<(), AllocError> {
    match read_files(alloc, files, session.workspace(), paths)? {
        Some(contents) => match session.take_files(alloc, contents) {
            Ok(messages) => push_sent(lines, messages.as_slice()),
            Err(error) => Err(error),
        },
        None => push_read(lines, alloc, session, files),
    }
}

/// What is sent after a message, a line each. What the session says is read.
fn sent_after(
    alloc: Global,
    session: &mut Session,
    files: &mut MemoryFiles,
    body: &str,
) -> Result<String, ChangeError> {
    let mut lines = String::new(alloc);
    match push_answer(&mut lines, alloc, session, body)? {
        Reads::Nothing => {}
        Reads::Folders => push_read(&mut lines, alloc, session, files)?,
        Reads::Files(paths) => {
            push_read_files(&mut lines, alloc, session, files, paths.as_slice())?;
        }
    }
    Ok(lines)
}

/// The first message of rows after which something else is sent, with that. Nothing where there is none.
fn difference_in(
    alloc: Global,
    session: &mut Session,
    files: &mut MemoryFiles,
    rows: &[Row],
) -> Result<String, ChangeError> {
    for (body, wanted) in rows {
        let found = sent_after(alloc, session, files, body)?;
        if found.as_str() != *wanted {
            return Ok(format!(in alloc; "{body}\n{found}")?);
        }
    }
    Ok(String::new(alloc))
}

/// The same of a session from its beginning.
fn difference(alloc: Global, story: &Story) -> Result<String, ChangeError> {
    let mut files = files_of(alloc, story.folders, story.files)?;
    let mut session = Session::new(alloc, "1.2.3");
    let _ = sent_after(alloc, &mut session, &mut files, story.begins)?;
    difference_in(alloc, &mut session, &mut files, story.rows)
}

#[test]
fn sessions_follow_folders_and_their_packages(rt: HostRuntime) -> Result<(), Fail> {
    for story in stories() {
        let found = difference(rt.alloc(), &story)?;
        assert!(rt; found.is_empty(), "{found}");
    }
    Ok(())
}

/// Adds a message to a stream.
fn push_framed(stream: &mut String, alloc: Global, body: &str) -> Result<(), AllocError> {
    let len = body.len();
    stream.push_str(format!(in alloc; "Content-Length: {len}\r\n\r\n{body}")?.as_str())
}

/// A client begins, and opens and changes a document, in one stream.
fn beginning(alloc: Global) -> Result<String, AllocError> {
    let mut stream = String::new(alloc);
    for body in [BEGINS, ROWS[0].0, ROWS[1].0, ROWS[11].0] {
        push_framed(&mut stream, alloc, body)?;
    }
    Ok(stream)
}

/// How a server ends.
fn ending(alloc: Global, mut input: Pieces<'_>, output: &mut Narrow) -> Result<String, AllocError> {
    let mut files = files_of(alloc, PROJECT_FOLDERS.as_slice(), PROJECT.as_slice())?;
    match serve(alloc, &mut input, output, &mut files, "1.2.3") {
        Ok(status) => format!(in alloc; "status {status}"),
        Err(ServeError::Memory(error)) => Err(error),
        Err(error) => error.to_string(alloc),
    }
}

#[test]
fn a_stream_of_messages_is_served(rt: HostRuntime) -> Result<(), Fail> {
    let alloc = rt.alloc();
    let mut stream = beginning(alloc)?;
    push_framed(&mut stream, alloc, "{\"id\":9,\"method\":\"shutdown\"}")?;
    push_framed(&mut stream, alloc, "{\"method\":\"exit\"}")?;
    let mut output = Narrow::new(alloc, usize::MAX);
    let found = ending(alloc, Pieces::new(stream.as_bytes(), 1), &mut output)?;
    // The folder was looked at.
    let wanted = "`a:b` is declared by b.wac";
    let written = str::from_utf8(output.bytes()).unwrap_or("");
    assert!(rt;
        found.as_str() == "status 0" && written.contains(wanted),
        "{found} {written}"
    );
    Ok(())
}

#[test]
fn a_stream_that_breaks_off_is_told(rt: HostRuntime) -> Result<(), Fail> {
    let alloc = rt.alloc();
    let stream = beginning(alloc)?;
    for (fails, room, wanted) in [
        (false, usize::MAX, "the input ended"),
        (true, usize::MAX, "the input failed"),
        (false, 99, "the output failed"),
    ] {
        let input = Pieces::new(stream.as_bytes(), 7).failing(fails);
        let mut output = Narrow::new(alloc, room);
        let found = ending(alloc, input, &mut output)?;
        assert!(rt; found.as_str() == wanted, "{found}");
    }
    Ok(())
}
