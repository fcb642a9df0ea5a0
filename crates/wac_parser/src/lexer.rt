//! The lexer: the tokens and faults of a text, with their spans and the docs before each.

pub use wac_lexer::{
    Blocks, Bytes, Error, Feed, In, Lexer, LexerResult, Out, Sink, SourceSpan, Token, put_all,
};
