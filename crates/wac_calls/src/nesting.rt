// How deep brackets are nested.
ghost use Rattle.std.specs.Prelude.{◌≡◌};
ghost use Rattle.wac_lexer.specs.Reading.{left};
ghost use Rattle.wac_comments_layout.specs.Brackets.{is_opening, is_closing};
ghost use Rattle.wac_calls.specs.Nesting.{first_beyond, first_deeper, levels};

use wac_lexer::{Lexer, SourceSpan};

/// The first bracket that is nested deeper than a limit, where a brace counts as two levels and each other bracket as
/// one. Brackets in strings and comments don't count. A text with a rejected character has none.
pub(crate) fn first_deeper(source: &str, limit: usize) -> Option<SourceSpan>
    ensures { result ≡ first_deeper limit source.now }
{
    match Lexer::new(source) {
        Ok(lexer) => first_beyond(lexer, limit),
        Err(_) => None,
    }
}

/// The first bracket among the items that a lexer has left.
fn first_beyond(mut lexer: Lexer<'_>, limit: usize) -> Option<SourceSpan>
    ensures { result ≡ first_beyond limit 0 (left lexer.entry) }
{
    let mut depth = 0usize;
    while let Some((_, span)) = lexer.next() {
        let token = lexer.source(span);
        if opens(token) {
            if limit - depth < levels(token) {
                return Some(span);
            }
            depth += levels(token);
        } else if closes(token) {
            depth = depth.saturating_sub(levels(token));
        }
    }
    None
}

fn opens(token: &str) -> bool
    ensures { result ≡ is_opening token.now }
{
    token == "(" || token == "[" || token == "<" || token == "{"
}

fn closes(token: &str) -> bool
    ensures { result ≡ is_closing token.now }
{
    token == ")" || token == "]" || token == ">" || token == "}"
}

/// How many levels a bracket counts as.
fn levels(bracket: &str) -> usize
    ensures { result ≡ levels bracket.now }
{
    if bracket == "{" || bracket == "}" {
        2
    } else {
        1
    }
}
