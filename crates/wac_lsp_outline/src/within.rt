//! Symbols whose names lie in their declarations.
ghost use Rattle.std.specs.Prelude.{All, IfOk, IsTrue};
ghost use Rattle.wac_lsp_outline.specs.Within.{IsWithin};

use crate::symbol::Symbol;
use std::alloc::{AllocError, Global};

/// Whether the name of a symbol is a part of a text and lies in its declaration, and that in the text.
fn is_within(text: &str, symbol: &Symbol) -> bool
    ensures { IsTrue result → IsWithin text.now symbol.now }
{
    let start = symbol.name.offset();
    let Some(end) = start.checked_add(symbol.name.len()) else {
        return false;
    };
    if !text.is_char_boundary(start) || !text.is_char_boundary(end) {
        return false;
    }
    symbol.start <= start && end <= symbol.end && symbol.end <= text.len()
}

/// Those of some symbols whose names lie in their declarations. That is all of them: it is tested here, so that it needs no
/// proof.
pub(crate) fn within(
    alloc: Global,
    text: &str,
    symbols: &[Symbol],
) -> Result<Vec<Symbol>, AllocError>
    ensures { IfOk result (λ all. All (IsWithin text.now) all.items) }
{
    let mut all = Vec::new(alloc);
    for symbol in symbols {
        if !is_within(text, symbol) {
            continue;
        }
        all.push(*symbol)?;
    }
    Ok(all)
}
