//! Codes of the lexer's errors.
ghost use Rattle.std.specs.Prelude.{◌≡◌};
ghost use Rattle.wac_diagnostics.specs.Codes.{lexer_code};

use wac_lexer::Error;

/// The code of an error of the lexer: the kebab form of its variant's name.
pub fn lexer_code(error: &Error) -> &'static str
    ensures { result.now ≡ lexer_code error.now }
{
    match error {
        Error::UnexpectedToken => "wac::unexpected-token",
        Error::UnterminatedString => "wac::unterminated-string",
        Error::UnterminatedComment => "wac::unterminated-comment",
        Error::DisallowedBidirectionalOverride(_) => "wac::disallowed-bidirectional-override",
        Error::DiscouragedUnicodeCodepoint(_) => "wac::discouraged-unicode-codepoint",
        Error::DisallowedControlCode(_) => "wac::disallowed-control-code",
    }
}
