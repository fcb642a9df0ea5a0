//! The documents that a client has open.
ghost use Rattle.std.specs.Prelude.{◌≡◌, not, OnOk, option_map, string_bytes};
ghost use Rattle.wac_lsp.specs.Opened.{document_in, is_named, others, text_in, with_document};

use std::alloc::AllocError;

/// An open document.
#[derive(Drop)]
pub struct Document {
    pub(crate) uri: String,
    /// The version of its text: none once a change of it couldn't be read, since the text is another one than the client's
    /// then.
    pub(crate) version: Option<i64>,
    pub(crate) text: String,
    /// Whether the text alone has an error.
    pub(crate) is_faulty: bool,
}

impl Document {
    ghost use Rattle.std.specs.Prelude.{◌≡◌};
    ghost use Rattle.wac_lsp.specs.Opened.{is_lost};

    /// Its name, letter for letter as the client has it.
    pub fn uri(&self) -> &str {
        self.uri.as_str()
    }

    /// Its text.
    pub fn text(&self) -> &str {
        self.text.as_str()
    }

    /// Whether its text alone has an error, whatever the packages are that it mentions.
    pub fn is_faulty(&self) -> bool {
        self.is_faulty
    }

    /// Whether a change of it couldn't be read, so that its text isn't the client's.
    pub fn is_lost(&self) -> bool
        ensures { result ≡ is_lost self.now }
    {
        self.version.is_none()
    }
}

/// Whether a document has this name.
fn is_named(document: &Document, uri: &str) -> bool
    ensures { result ≡ is_named uri.now document.now }
{
    document.uri.as_str() == uri
}

/// The open document of a name.
pub(crate) fn document_of<'d>(documents: &'d [Document], uri: &str) -> Option<&'d Document>
    ensures { option_map (λ document. document.now) result ≡ document_in uri.now documents.now }
{
    documents.iter().find(|document| is_named(*document, uri))
}

/// The text of the open document of a name.
pub(crate) fn text_of<'d>(documents: &'d [Document], uri: &str) -> Option<&'d str>
    ensures { option_map (λ text. text.now) result ≡ text_in uri.now documents.now }
{
    match document_of(documents, uri) {
        Some(document) => Some(document.text.as_str()),
        None => None,
    }
}

/// Takes the document of a name away.
pub(crate) fn close(documents: &mut Vec<Document>, uri: &str)
    ensures { documents.new.items ≡ others uri.now documents.old.items }
{
    documents.retain(
        |document: &Document| -> bool
            ensures { result ≡ not (is_named uri.entry.now document.now) }
        { !is_named(document, uri) },
    );
}

/// Puts a document in the place of the one of its name, or adds it.
pub(crate) fn put(documents: &mut Vec<Document>, document: Document) -> Result<(), AllocError>
    ensures { OnOk result (documents.new.items ≡ with_document document documents.old.items) }
{
    close(documents, document.uri.as_str());
    match documents.push(document) {
        Ok(()) => Ok(()),
        Err(_) => Err(AllocError),
    }
}
