//! Names of imports and exports.

use wac_lexer::SourceSpan;

/// A name under which something is to be imported or exported.
#[derive(Clone, Copy, Debug)]
pub struct NewName<'x> {
    /// The name.
    pub text: &'x str,
    /// Where it is, or what it is inferred from.
    pub span: SourceSpan,
    /// What can be done where it may not be used, if it is inferred.
    pub help: Option<&'static str>,
}
