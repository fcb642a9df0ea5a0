//! Texts and versions.
ghost use Rattle.std.specs.Prelude.{◌≡◌, ◌≤◌, ◌<◌, ℕ, List, [], ◌∷◌, ◌++◌, codes, decimal, length, false};
ghost use Rattle.std.specs.List.{prefix_len};
ghost use Rattle.json.specs.Print.{escape, escape_byte};
ghost use Rattle.semver.specs.Identifiers.{build_text, parts_of, parts_text, pre_text};
ghost use Rattle.wac_printer_layout.specs.Printed.{blank};
ghost use Rattle.wac_printer_pieces.specs.Printed.{Prints};
ghost use Rattle.wac_json_text.specs.Pieces.{FrontWritten, code_escape, is_plain, marked_pieces, marks_pieces, numbers_pieces, version_pieces};

use crate::form::{Enclosed, Json};
use crate::parts::enclosed;
use itoa::Buffer;
use semver::Version;
use wac_lexer::Sink;
use wac_printer_pieces::{Pieces, PrintError, PrintResult};

impl Json for &str {
    ghost use Rattle.serde_json.specs.Data.{string};

    ghost form = { λ text. string text.now };

    fn write<S: Sink>(&self, out: &mut Pieces<'_, S>) -> PrintResult {
        enclosed("\"", self, "\"", out)
    }
}

impl Enclosed for &str {
    ghost inside = { λ text. blank (escape text.now) ∷ [] };

    fn write_inside<S: Sink>(&self, out: &mut Pieces<'_, S>) -> PrintResult {
        escaped(self, out)
    }
}

/// The escapes of the control codes by their codes, six bytes each.
const CODES: &str = "\\u0000\\u0001\\u0002\\u0003\\u0004\\u0005\\u0006\\u0007\
    \\u0008\\u0009\\u000a\\u000b\\u000c\\u000d\\u000e\\u000f\
    \\u0010\\u0011\\u0012\\u0013\\u0014\\u0015\\u0016\\u0017\
    \\u0018\\u0019\\u001a\\u001b\\u001c\\u001d\\u001e\\u001f";

/// Whether a byte is written as it is.
fn is_plain(byte: u8) -> bool
    ensures { result ≡ is_plain byte }
{
    byte >= b' ' && byte != b'"' && byte != b'\\'
}

/// How many bytes come first that are written as they are.
fn plain_len(text: &str) -> usize
    ensures len { result ≡ prefix_len is_plain text.now }
    ensures within { result ≤ length text.now }
{
    text.as_bytes()
        .iter()
        .take_while(|byte| is_plain(**byte))
        .count()
}

/// Writes a text with the escapes that a JSON string asks for.
fn escaped<S: Sink>(text: &str, out: &mut Pieces<'_, S>) -> PrintResult
    ensures { Prints out.old result out.new (blank (escape text.now) ∷ []) }
{
    out.ready()?;
    let mut place = 0;
    while place < text.len() {
        let (_, rest) = text.split_at(place);
        place += escaped_front(rest, out)?;
    }
    Ok(())
}

/// Writes the bytes that come first and stand as they are, and the escape after them.
///
/// Returns how many bytes these are.
fn escaped_front<S: Sink>(text: &str, out: &mut Pieces<'_, S>) -> Result<usize, PrintError>
    requires { 0 < length text.now }
    ensures { FrontWritten out.old result out.new text.now }
{
    let len = plain_len(text);
    let (run, after) = text.split_at(len);
    out.blank(run)?;
    match after.as_bytes().first() {
        Some(byte) => {
            out.blank(escape_of(*byte))?;
            Ok(len + 1)
        }
        None => Ok(len),
    }
}

/// The escape of a byte that isn't plain.
fn escape_of(byte: u8) -> &'static str
    requires { is_plain byte ≡ false }
    ensures { result.now ≡ escape_byte byte }
{
    match byte {
        b'"' => "\\\"",
        b'\\' => "\\\\",
        b'\n' => "\\n",
        b'\r' => "\\r",
        b'\t' => "\\t",
        8 => "\\b",
        12 => "\\f",
        _ => code_escape(byte),
    }
}

/// The escape of a control code by its code.
fn code_escape(byte: u8) -> &'static str
    requires { byte < 32 }
    ensures { result.now ≡ code_escape byte }
{
    let (_, rest) = CODES.split_at(6 * usize::from(byte));
    let (code, _) = rest.split_at(6);
    code
}

/// A version is its text.
impl Json for Version {
    ghost use Rattle.semver.specs.Identifiers.{parts_of};
    ghost use Rattle.wac_json_forms.specs.Forms.{version_json};

    ghost form = { λ v. version_json (parts_of v) };

    #[tactic(auto, using(crate::proofs::Steps::steps), unfolding(wac_json_forms::specs::Forms::version_json))]
    fn write<S: Sink>(&self, out: &mut Pieces<'_, S>) -> PrintResult {
        out.blank("\"")
            .and(version_text(self, out))
            .and(out.blank("\""))
    }
}

/// Writes the text of a version.
fn version_text<S: Sink>(version: &Version, out: &mut Pieces<'_, S>) -> PrintResult
    ensures { Prints out.old result out.new (blank (escape (parts_text (parts_of version.now))) ∷ []) }
{
    version_parts(version, out)
}

/// Writes the numbers of a version, and what stands after them.
#[tactic(auto, using(crate::proofs::Steps::steps))]
fn version_parts<S: Sink>(version: &Version, out: &mut Pieces<'_, S>) -> PrintResult
    ensures { Prints out.old result out.new (version_pieces (parts_of version.now)) }
{
    numbers(version, out).and(marks(version, out))
}

/// Writes the three numbers of a version.
#[tactic(auto, using(crate::proofs::Steps::steps))]
fn numbers<S: Sink>(version: &Version, out: &mut Pieces<'_, S>) -> PrintResult
    ensures { Prints out.old result out.new (numbers_pieces version.now.major version.now.minor version.now.patch) }
{
    number(version.major, out)
        .and(out.blank("."))
        .and(number(version.minor, out))
        .and(out.blank("."))
        .and(number(version.patch, out))
}

/// Writes what stands after the numbers of a version.
#[tactic(auto, using(crate::proofs::Steps::steps))]
fn marks<S: Sink>(version: &Version, out: &mut Pieces<'_, S>) -> PrintResult
    ensures { Prints out.old result out.new (marks_pieces (pre_text version.now.pre) (build_text version.now.build)) }
{
    marked("-", version.pre.as_str(), out).and(marked("+", version.build.as_str(), out))
}

/// Writes a number in decimal, as a part of a text.
fn number<S: Sink>(n: u64, out: &mut Pieces<'_, S>) -> PrintResult
    ensures { Prints out.old result out.new (blank (escape (decimal n)) ∷ []) }
{
    let mut digits = Buffer::new();
    escaped(digits.format(n), out)
}

/// Writes a mark and a text, or nothing where the text is empty.
#[tactic(auto, using(crate::proofs::Steps::steps))]
fn marked<S: Sink>(mark: &str, text: &str, out: &mut Pieces<'_, S>) -> PrintResult
    ensures { Prints out.old result out.new (marked_pieces mark.now text.now) }
{
    if text.is_empty() {
        out.ready()
    } else {
        out.blank(mark).and(escaped(text, out))
    }
}
