//! Versions as SemVer has them, with numbers of any size.
ghost use Rattle.std.specs.Prelude.{◌≡◌};
ghost use Rattle.std.specs.List.{list_all};
ghost use Rattle.semver.specs.Order.{is_numeric};
ghost use Rattle.semver.specs.Grammar as grammar;
ghost use Rattle.wac_extern_names.specs.Names as names;

fn all_digits(text: &[u8]) -> bool
    ensures { result ≡ is_numeric text.now }
{
    text.iter().all(|b| b.is_ascii_digit())
}

fn has_leading_zero(text: &[u8]) -> bool
    ensures { result ≡ grammar.has_leading_zero text.now }
{
    match text.first() {
        None => false,
        Some(first) => *first == b'0' && text.len() > 1,
    }
}

fn is_number(text: &str) -> bool
    ensures { result ≡ names.is_number text.now }
{
    let bytes = text.as_bytes();
    !bytes.is_empty() && (all_digits(bytes) && !has_leading_zero(bytes))
}

fn is_core(text: &str) -> bool
    ensures { result ≡ names.is_core text.now }
{
    match text.split_once('.') {
        None => false,
        Some((major, rest)) => is_number(major) && are_last_two(rest),
    }
}

fn are_last_two(text: &str) -> bool
    ensures { result ≡ names.are_last_two text.now }
{
    match text.split_once('.') {
        None => false,
        Some((minor, patch)) => is_number(minor) && is_number(patch),
    }
}

fn is_identifier_byte(b: u8) -> bool
    ensures { result ≡ grammar.is_identifier_byte b }
{
    b.is_ascii_digit() || b.is_ascii_uppercase() || b.is_ascii_lowercase() || b == b'-'
}

fn all_of_identifiers(text: &[u8]) -> bool
    ensures { result ≡ list_all grammar.is_identifier_byte text.now }
{
    text.iter().all(|b| is_identifier_byte(*b))
}

fn is_build_identifier(text: &str) -> bool
    ensures { result ≡ grammar.is_build_identifier text.now }
{
    let bytes = text.as_bytes();
    !bytes.is_empty() && all_of_identifiers(bytes)
}

fn is_pre_identifier(text: &str) -> bool
    ensures { result ≡ grammar.is_pre_identifier text.now }
{
    let bytes = text.as_bytes();
    is_build_identifier(text) && !(all_digits(bytes) && has_leading_zero(bytes))
}

fn is_pre_release(text: &str) -> bool
    ensures { result ≡ names.is_pre_release text.now }
{
    text.split('.').all(|part| is_pre_identifier(part))
}

fn is_build(text: &str) -> bool
    ensures { result ≡ names.is_build text.now }
{
    text.split('.').all(|part| is_build_identifier(part))
}

fn is_release(text: &str) -> bool
    ensures { result ≡ names.is_release text.now }
{
    match text.split_once('-') {
        None => is_core(text),
        Some((core, pre)) => is_core(core) && is_pre_release(pre),
    }
}

/// Whether a text is a version.
pub(crate) fn is_version(text: &str) -> bool
    ensures { result ≡ names.is_version text.now }
{
    match text.split_once('+') {
        None => is_release(text),
        Some((release, build)) => is_release(release) && is_build(build),
    }
}
