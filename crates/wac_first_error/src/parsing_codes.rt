//! Codes of the errors of parsing.
ghost use Rattle.std.specs.Prelude.{◌≡◌};
ghost use Rattle.wac_ast_base.specs.Error.{told_by};
ghost use Rattle.wac_first_error.specs.Codes.{parse_code};

use wac_ast_base::Error;
use wac_diagnostics::lexer_code;

/// The code of an error of parsing: that of the lexer's error, or the kebab form of its variant's name.
pub fn parse_code(error: &Error) -> &'static str
    ensures { result.now ≡ parse_code (told_by error.now) }
{
    match error {
        Error::Lexer { error, .. } => lexer_code(error),
        Error::Expected { .. } => "wac::expected",
        Error::ExpectedEither { .. } => "wac::expected-either",
        Error::ExpectedMultiple { .. } => "wac::expected-multiple",
        Error::EmptyType { .. } => "wac::empty-type",
        Error::InvalidVersion { .. } => "wac::invalid-version",
        Error::Memory(_) => "wac::out-of-memory",
    }
}
