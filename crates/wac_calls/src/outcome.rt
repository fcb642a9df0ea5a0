// What a word comes to.
use wac_lexer::SourceSpan;

/// What a word comes to, before it is put into room.
#[derive(Debug, Drop)]
pub(crate) enum Outcome {
    /// What is written.
    Written(Vec<u8>),
    /// The text is rejected.
    Rejected {
        /// The place that is at fault, in bytes of the text, where there is one.
        span: Option<SourceSpan>,
        /// What is wrong.
        message: String,
    },
    /// The bytes are not UTF-8.
    NotUtf8,
    /// A request for memory failed.
    OutOfMemory,
    /// Brackets are nested deeper than the limit. The place is the first bracket that is.
    NestedTooDeep {
        /// That bracket.
        span: SourceSpan,
    },
    /// The buffer of packages has no frames, or a frame declares no package.
    BadPackage {
        /// The place that is at fault, in bytes of the buffer.
        span: SourceSpan,
        /// What is wrong.
        message: String,
    },
}
