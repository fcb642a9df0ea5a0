//! Characters as a terminal shows them.
ghost use Rattle.std.specs.Prelude.{◌≡◌, ◌<◌, ◌++◌, OnOk, flat_map, string_bytes};
ghost use Rattle.wac_excerpts.specs.Characters.{caret_byte, caret_character, caret_low, caret_text, columns, escaped_character, escaped_text, has_carets, is_command, shown, shown_on_lines, shown_lines, shown_text};

use std::alloc::AllocError;
use unicode_width::UnicodeWidthChar;

/// How many columns a tab takes.
const TAB: usize = 4;

/// Whether a terminal could take a character for a command, or show nothing of it: a control character, a separator of
/// lines, one that sets or overrides the direction of a text, or a byte order mark.
pub fn is_command(c: char) -> bool
    ensures { result ≡ is_command c }
{
    match c {
        '\0'..='\u{1f}' | '\u{7f}'..='\u{9f}' => true,
        '\u{2028}'..='\u{202e}' | '\u{2066}'..='\u{2069}' => true,
        '\u{61c}' | '\u{200e}'..='\u{200f}' | '\u{feff}' => true,
        _ => false,
    }
}

/// What is written for a character: U+FFFD for a command.
pub fn shown(c: char) -> char
    ensures { result ≡ shown c }
{
    if is_command(c) { '\u{fffd}' } else { c }
}

/// How many columns a character takes.
pub(crate) fn columns(c: char) -> usize
    ensures { result ≡ columns c }
{
    if c == '\t' {
        TAB
    } else {
        shown(c).width().unwrap_or(1)
    }
}

/// Appends a text, with U+FFFD in place of each command. So it stays on one line, and can't command a terminal.
pub fn push_shown(out: &mut String, text: &str) -> Result<(), AllocError>
    ensures { OnOk result (string_bytes out.new ≡ string_bytes out.old ++ shown_text text.now) }
{
    for c in text.chars() {
        out.push(shown(c))?;
    }
    Ok(())
}

/// Appends a text of several lines: as `push_shown`, but the ends of lines stay.
pub fn push_shown_lines(out: &mut String, text: &str) -> Result<(), AllocError>
    ensures { OnOk result (string_bytes out.new ≡ string_bytes out.old ++ shown_lines text.now) }
{
    for c in text.chars() {
        out.push(shown_on_lines(c))?;
    }
    Ok(())
}

/// What is written for a character of several lines.
fn shown_on_lines(c: char) -> char
    ensures { result ≡ shown_on_lines c }
{
    if c == '\n' { c } else { shown(c) }
}

/// Appends a text in JSON, with an escape in place of each command. They stand within strings alone, so what is read is
/// the same.
pub fn push_escaped(out: &mut String, text: &str) -> Result<(), AllocError>
    ensures { OnOk result (string_bytes out.new ≡ string_bytes out.old ++ escaped_text text.now) }
{
    for c in text.chars() {
        push_escape(out, c)?;
    }
    Ok(())
}

/// Appends what stands for a character in JSON.
fn push_escape(out: &mut String, c: char) -> Result<(), AllocError>
    ensures { OnOk result (string_bytes out.new ≡ string_bytes out.old ++ escaped_character c) }
{
    if is_command(c) {
        let code = u32::from(c);
        write!(out, "\\u{code:04x}")
    } else {
        out.push(c)
    }
}

/// Appends a text of several lines with its commands as `cat -v` shows them: `^[` for an escape, `M-bM-^@M-.` for an
/// override. Tabs and the ends of lines stay.
pub fn push_carets(out: &mut String, text: &str) -> Result<(), AllocError>
    ensures { OnOk result (string_bytes out.new ≡ string_bytes out.old ++ caret_text text.now) }
{
    for c in text.chars() {
        push_caret_character(out, c)?;
    }
    Ok(())
}

/// Whether a character is shown by its bytes.
fn has_carets(c: char) -> bool
    ensures { result ≡ has_carets c }
{
    is_command(c) && !(c == '\t' || c == '\n')
}

/// Appends a character as `cat -v` shows it, where it is a command.
fn push_caret_character(out: &mut String, c: char) -> Result<(), AllocError>
    ensures { OnOk result (string_bytes out.new ≡ string_bytes out.old ++ caret_character c) }
{
    if has_carets(c) {
        let mut room = [0u8; 4];
        push_caret_bytes(out, c.encode_utf8(&mut room).as_bytes())
    } else {
        out.push(c)
    }
}

/// Appends bytes as `cat -v` shows them.
fn push_caret_bytes(out: &mut String, bytes: &[u8]) -> Result<(), AllocError>
    ensures { OnOk result (string_bytes out.new ≡ string_bytes out.old ++ flat_map caret_byte bytes.now) }
{
    for byte in bytes {
        push_caret_byte(out, *byte)?;
    }
    Ok(())
}

/// Appends a byte as `cat -v` shows it: `M-` for its highest bit, and a caret for a control character.
fn push_caret_byte(out: &mut String, byte: u8) -> Result<(), AllocError>
    ensures { OnOk result (string_bytes out.new ≡ string_bytes out.old ++ caret_byte byte) }
{
    if byte >= 128 {
        out.push_str("M-")?;
    }
    push_caret_low(out, byte % 128)
}

/// The same of a byte below 128.
fn push_caret_low(out: &mut String, byte: u8) -> Result<(), AllocError>
    requires { byte < 128 }
    ensures { OnOk result (string_bytes out.new ≡ string_bytes out.old ++ caret_low byte) }
{
    match byte {
        0..=31 => {
            out.push('^')?;
            out.push(char::from(byte + 64))
        }
        127 => out.push_str("^?"),
        _ => out.push(char::from(byte)),
    }
}

/// Appends a character so many times.
pub(crate) fn push_times(out: &mut String, c: char, times: usize) -> Result<(), AllocError> {
    for _ in 0..times {
        out.push(c)?;
    }
    Ok(())
}
