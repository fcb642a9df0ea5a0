//! Which codes are those of texts that are no documents.
//!
//! They are listed here, and not beside the codes in `wac_first_error`, on which many crates stand that don't ask. That
//! each error of parsing has one of them, and no error of resolving, is in specs/Codes.
ghost use Rattle.std.specs.Prelude.{◌≡◌};
ghost use Rattle.wac_all_errors.specs.Codes.{is_fault, is_of_characters, is_of_grammar};

/// Whether a code is that of a text with a rejected character, or with an item that isn't closed.
fn is_of_characters(code: &str) -> bool
    ensures { result ≡ is_of_characters code.now }
{
    code == "wac::unexpected-token"
        || code == "wac::unterminated-string"
        || code == "wac::unterminated-comment"
        || code == "wac::disallowed-bidirectional-override"
        || code == "wac::discouraged-unicode-codepoint"
        || code == "wac::disallowed-control-code"
}

/// Whether a code is that of a text that the grammar doesn't have, or whose brackets are nested too deeply.
fn is_of_grammar(code: &str) -> bool
    ensures { result ≡ is_of_grammar code.now }
{
    code == "wac::nested-too-deep"
        || code == "wac::expected"
        || code == "wac::expected-either"
        || code == "wac::expected-multiple"
        || code == "wac::empty-type"
        || code == "wac::invalid-version"
}

/// Whether a code is that of a text that is no document. All others are those of rules.
pub(crate) fn is_fault(code: &str) -> bool
    ensures { result ≡ is_fault code.now }
{
    is_of_characters(code) || is_of_grammar(code)
}
