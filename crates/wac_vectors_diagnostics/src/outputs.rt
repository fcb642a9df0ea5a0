//! Each output as golden texts, with lines and columns counted by hand.

use std::alloc::{AllocError, Global};
use std::process::Abort;
use std::test::Fail;
use wac_diagnostics::{Diagnostic, Note, Severity, github, human, json};
use wac_lexer::SourceSpan;

/// A form of output.
#[derive(Clone, Copy)]
enum Form {
    Plain,
    Coloured,
    Json,
    Github,
}

/// What is told.
#[derive(Clone, Copy)]
enum Told {
    /// An error with all that one can have, after a character of two bytes.
    Full,
    /// A warning without a place.
    Bare,
    /// A byte that ends what is text. It is shown as U+FFFD.
    Cut,
}

/// What is told, the form and the name of the file, and the output.
type Row = (Told, Form, &'static str, &'static str);

static ROWS: [Row; 13] = [
    (
        Told::Full,
        Form::Plain,
        "a\u{1b}.wac",
        "a\u{fffd}.wac:2:14: error[wac::duplicate-name]: `x` is \"100%\" defined\n\
        2 |     /* é */ let x = \"%\";\n  |                 ^\nhelp: rename\u{fffd}one\n\
        a\u{fffd}.wac:1:5: note: it is defined here\n1 | let x = 1;\n  |     ^\n",
    ),
    (
        Told::Bare,
        Form::Plain,
        "a.wac",
        "a.wac: warning[wac::odd]: odd\n",
    ),
    (
        Told::Cut,
        Form::Plain,
        "a.wac",
        "a.wac:2:3: error[wac::not-utf-8]: not UTF-8\n2 | éb\u{fffd}\n  |   ^\n",
    ),
    (
        Told::Full,
        Form::Coloured,
        "a.wac",
        "a.wac:2:14: \u{1b}[1;31merror[wac::duplicate-name]\u{1b}[0m: `x` is \"100%\" defined\n\
        \u{1b}[1;34m2 |\u{1b}[0m     /* é */ let x = \"%\";\n\
        \u{1b}[1;34m  |\u{1b}[0m                 \u{1b}[1;31m^\u{1b}[0m\n\
        \u{1b}[1;36mhelp\u{1b}[0m: rename\u{fffd}one\n\
        a.wac:1:5: \u{1b}[1;36mnote\u{1b}[0m: it is defined here\n\
        \u{1b}[1;34m1 |\u{1b}[0m let x = 1;\n\
        \u{1b}[1;34m  |\u{1b}[0m     \u{1b}[1;36m^\u{1b}[0m\n",
    ),
    (
        Told::Bare,
        Form::Coloured,
        "a.wac",
        "a.wac: \u{1b}[1;33mwarning[wac::odd]\u{1b}[0m: odd\n",
    ),
    (
        Told::Full,
        Form::Json,
        "a\"b\\\n.wac",
        "{\"file\":\"a\\\"b\\\\\\n.wac\",\"offset\":25,\"length\":1,\"line\":2,\"column\":14,\
        \"end\":{\"line\":2,\"column\":15},\"severity\":\"error\",\"code\":\"wac::duplicate-name\",\
        \"message\":\"`x` is \\\"100%\\\" defined\",\"help\":\"rename\\none\",\
        \"notes\":[{\"message\":\"it is defined here\",\"offset\":4,\"length\":1,\"line\":1,\"column\":5}]}",
    ),
    (
        Told::Bare,
        Form::Json,
        "a.wac",
        "{\"file\":\"a.wac\",\"offset\":null,\"length\":null,\"line\":null,\"column\":null,\"end\":null,\
        \"severity\":\"warning\",\"code\":\"wac::odd\",\"message\":\"odd\",\"help\":null,\"notes\":[]}",
    ),
    (
        Told::Cut,
        Form::Json,
        "a.wac",
        "{\"file\":\"a.wac\",\"offset\":5,\"length\":1,\"line\":2,\"column\":3,\
        \"end\":{\"line\":2,\"column\":4},\"severity\":\"error\",\"code\":\"wac::not-utf-8\",\
        \"message\":\"not UTF-8\",\"help\":null,\"notes\":[]}",
    ),
    (
        Told::Full,
        Form::Github,
        "a,b:c%\r\n.wac",
        "::error file=a%2Cb%3Ac%25%0D%0A.wac,line=2,col=14,endLine=2,endColumn=15,\
        title=wac%3A%3Aduplicate-name::`x` is \"100%25\" defined%0Ahelp: rename%0Aone\
        %0Anote: 1:5: it is defined here",
    ),
    // The library writes a name in JSON as it is; what shows it to people escapes it.
    (
        Told::Bare,
        Form::Json,
        "a\u{7f}\u{202e}.wac",
        "{\"file\":\"a\u{7f}\u{202e}.wac\",\"offset\":null,\"length\":null,\"line\":null,\"column\":null,\"end\":null,\
        \"severity\":\"warning\",\"code\":\"wac::odd\",\"message\":\"odd\",\"help\":null,\"notes\":[]}",
    ),
    (
        Told::Bare,
        Form::Github,
        "a\t\u{1b}\u{9b}\u{200f}.wac",
        "::warning file=a\u{fffd}\u{fffd}\u{fffd}\u{fffd}.wac,title=wac%3A%3Aodd::odd",
    ),
    (
        Told::Bare,
        Form::Github,
        "a.wac",
        "::warning file=a.wac,title=wac%3A%3Aodd::odd",
    ),
    (
        Told::Cut,
        Form::Github,
        "a.wac",
        "::error file=a.wac,line=2,col=3,endLine=2,endColumn=4,title=wac%3A%3Anot-utf-8::not UTF-8",
    ),
];

/// The bytes of the file.
fn bytes_of(told: Told) -> &'static [u8] {
    match told {
        Told::Full | Told::Bare => b"let x = 1;\n\t/* \xc3\xa9 */ let x = \"%\";\n",
        Told::Cut => b"a\n\xc3\xa9b\xffc\n",
    }
}

/// Another place, with what is said of it.
fn notes(alloc: Global) -> Result<Vec<Note>, AllocError> {
    let message = String::from_str(alloc, "it is defined here")?;
    let span = SourceSpan::new(4, 1);
    let mut notes = Vec::new(alloc);
    notes.push(Note { message, span })?;
    Ok(notes)
}

/// An error with all that one can have.
fn full(alloc: Global) -> Result<Diagnostic, AllocError> {
    let notes = notes(alloc)?;
    let help = String::from_str(alloc, "rename\none")?;
    let message = String::from_str(alloc, "`x` is \"100%\" defined")?;
    Ok(Diagnostic {
        severity: Severity::Error,
        code: "wac::duplicate-name",
        message,
        span: Some(SourceSpan::new(25, 1)),
        help: Some(help),
        notes,
    })
}

/// A warning without a place.
fn bare(alloc: Global) -> Result<Diagnostic, AllocError> {
    let message = String::from_str(alloc, "odd")?;
    let mut diagnostic = Diagnostic::without_place("wac::odd", message);
    diagnostic.severity = Severity::Warning;
    Ok(diagnostic)
}

/// A byte that is none of a text.
fn cut(alloc: Global) -> Result<Diagnostic, AllocError> {
    let message = String::from_str(alloc, "not UTF-8")?;
    let place = SourceSpan::new(5, 1);
    Ok(Diagnostic::at("wac::not-utf-8", message, place))
}

/// A diagnostic of bytes of a file in a form.
fn output(
    alloc: Global,
    form: Form,
    file: &str,
    bytes: &[u8],
    diagnostic: &Diagnostic,
) -> Result<String, AllocError> {
    match form {
        Form::Plain => human(alloc, file, bytes, diagnostic, false),
        Form::Coloured => human(alloc, file, bytes, diagnostic, true),
        Form::Json => json(alloc, file, bytes, diagnostic),
        Form::Github => github(alloc, file, bytes, diagnostic),
    }
}

/// The output of a row.
fn output_of(alloc: Global, row: &Row) -> Result<String, AllocError> {
    let (told, form, file, _) = *row;
    let made = match told {
        Told::Full => full(alloc),
        Told::Bare => bare(alloc),
        Told::Cut => cut(alloc),
    };
    match made {
        Ok(diagnostic) => output(alloc, form, file, bytes_of(told), &diagnostic),
        Err(error) => Err(error),
    }
}

/// The first output that is another one than its row says.
fn first_other(alloc: Global) -> Result<Option<String>, AllocError> {
    for row in &ROWS {
        let found = output_of(alloc, row)?;
        if found.as_str() != row.3 {
            return Ok(Some(found));
        }
    }
    Ok(None)
}

#[test]
fn diagnostics_are_written(rt: HostRuntime) -> Result<(), Fail> {
    if let Some(found) = first_other(rt.alloc())? {
        panic!(rt; "{found}");
    }
    Ok(())
}
