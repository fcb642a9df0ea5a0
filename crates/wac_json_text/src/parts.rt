//! Variants, lists, optional parts, numbers, truth values.
ghost use Rattle.std.specs.Prelude.{ℕ, List, [], ◌∷◌, ◌++◌, codes, decimal};
ghost use Rattle.std.specs.List.{flat_map};
ghost use Rattle.wac_printer_layout.specs.Printed.{blank};
ghost use Rattle.wac_printer_pieces.specs.Printed.{Prints};
ghost use Rattle.wac_json_text.specs.Contents.{variant_pieces};
ghost use Rattle.wac_json_forms.specs.Forms.{list_json};
ghost use Rattle.wac_json_text.specs.Pieces.{pieces, after_comma, joined_pieces};

use crate::form::{Enclosed, Json};
use itoa::Buffer;
use wac_lexer::{Sink, SourceSpan};
use wac_printer_pieces::{Pieces, PrintResult};

/// Writes a variant with content: `opening` is its brace, its name and the colon.
#[tactic(auto, using(crate::proofs::Steps::steps))]
pub(crate) fn variant<T: Json, S: Sink>(
    opening: &str,
    content: &T,
    out: &mut Pieces<'_, S>,
) -> PrintResult
    ensures { Prints out.old result out.new (variant_pieces opening.now (T.form content.now)) }
{
    out.blank(opening)
        .and(content.write(out))
        .and(out.blank("}"))
}

/// Writes an enclosed form: `opening` and `closing` are what it begins and ends with, and what stands around it.
#[tactic(auto, using(crate::proofs::Steps::steps))]
pub(crate) fn enclosed<T: Enclosed, S: Sink>(
    opening: &str,
    content: &T,
    closing: &str,
    out: &mut Pieces<'_, S>,
) -> PrintResult
    ensures { Prints out.old result out.new (blank opening.now ∷ (T.inside content.now ++ blank closing.now ∷ [])) }
{
    out.blank(opening)
        .and(content.write_inside(out))
        .and(out.blank(closing))
}

/// Writes a number in decimal.
fn number<S: Sink>(n: u64, out: &mut Pieces<'_, S>) -> PrintResult
    ensures { Prints out.old result out.new (blank (decimal n) ∷ []) }
{
    let mut digits = Buffer::new();
    out.blank(digits.format(n))
}

impl Json for SourceSpan {
    ghost use Rattle.wac_json_forms.specs.Forms.{span_json};

    ghost form = { span_json };

    fn write<S: Sink>(&self, out: &mut Pieces<'_, S>) -> PrintResult {
        enclosed("{\"length\":", self, "}", out)
    }
}

impl Enclosed for SourceSpan {
    ghost use Rattle.wac_json_text.specs.Contents.{span_inside};

    ghost inside = { span_inside };

    fn write_inside<S: Sink>(&self, out: &mut Pieces<'_, S>) -> PrintResult {
        number(self.len() as u64, out)
            .and(out.blank(",\"offset\":"))
            .and(number(self.offset() as u64, out))
    }
}

impl Json for bool {
    ghost use Rattle.serde_json.specs.Data.{boolean};

    ghost form = { boolean };

    fn write<S: Sink>(&self, out: &mut Pieces<'_, S>) -> PrintResult {
        if *self {
            out.blank("true")
        } else {
            out.blank("false")
        }
    }
}

impl<T: Json> Json for Option<T> {
    ghost use Rattle.wac_json_forms.specs.Forms.{optional};

    ghost form = { optional T.form };

    #[tactic(auto, unfolding(wac_json_forms::specs::Forms::optional))]
    fn write<S: Sink>(&self, out: &mut Pieces<'_, S>) -> PrintResult {
        match self {
            Some(part) => part.write(out),
            None => out.blank("null"),
        }
    }
}

impl<T: Json> Json for Vec<T> {
    ghost use Rattle.wac_json_forms.specs.Forms.{list_json};

    ghost form = { λ v. list_json T.form v.items };

    fn write<S: Sink>(&self, out: &mut Pieces<'_, S>) -> PrintResult {
        enclosed("[", self, "]", out)
    }
}

impl<T: Json> Enclosed for Vec<T> {
    ghost inside = { λ v. joined_pieces (λ x. pieces (T.form x)) v.items };

    fn write_inside<S: Sink>(&self, out: &mut Pieces<'_, S>) -> PrintResult {
        joined(self, out)
    }
}

/// Writes a list in brackets.
pub(crate) fn list<T: Json, S: Sink>(items: &[T], out: &mut Pieces<'_, S>) -> PrintResult
    ensures { Prints out.old result out.new (pieces (list_json T.form items.now)) }
{
    out.blank("[").and(joined(items, out)).and(out.blank("]"))
}

/// Writes items with a comma between two.
#[tactic(auto, using(crate::proofs::Steps::steps))]
fn joined<T: Json, S: Sink>(items: &[T], out: &mut Pieces<'_, S>) -> PrintResult
    ensures { Prints out.old result out.new (joined_pieces (λ x. pieces (T.form x)) items.now) }
{
    match items.split_first() {
        None => out.ready(),
        Some((first, rest)) => {
            first.write(out)?;
            after_commas(rest, out)
        }
    }
}

/// Writes items, each after a comma.
#[tactic(auto, using(crate::proofs::Steps::steps))]
fn after_commas<T: Json, S: Sink>(items: &[T], out: &mut Pieces<'_, S>) -> PrintResult
    ensures { Prints out.old result out.new (flat_map (λ x. after_comma (pieces (T.form x))) items.now) }
{
    out.ready()?;
    for item in items {
        after_comma(item, out)?;
    }
    Ok(())
}

#[tactic(auto, using(crate::proofs::Steps::steps))]
fn after_comma<T: Json, S: Sink>(item: &T, out: &mut Pieces<'_, S>) -> PrintResult
    ensures { Prints out.old result out.new (after_comma (pieces (T.form item.now))) }
{
    out.blank(",").and(item.write(out))
}
