//! Words, and names of words joined by hyphens.
ghost use Rattle.std.specs.Prelude.{◌≡◌};
ghost use Rattle.std.specs.Char.{is_ascii_lowercase, is_ascii_uppercase};
ghost use Rattle.std.specs.List.{list_all};
ghost use Rattle.wac_extern_names.specs.Names as names;

fn begins_lower(text: &[u8]) -> bool
    ensures { result ≡ names.begins is_ascii_lowercase text.now }
{
    match text.first() {
        None => false,
        Some(first) => first.is_ascii_lowercase(),
    }
}

fn begins_upper(text: &[u8]) -> bool
    ensures { result ≡ names.begins is_ascii_uppercase text.now }
{
    match text.first() {
        None => false,
        Some(first) => first.is_ascii_uppercase(),
    }
}

fn all_lower(text: &[u8]) -> bool
    ensures { result ≡ list_all names.is_lower text.now }
{
    text.iter()
        .all(|b| b.is_ascii_lowercase() || b.is_ascii_digit())
}

fn all_upper(text: &[u8]) -> bool
    ensures { result ≡ list_all names.is_upper text.now }
{
    text.iter()
        .all(|b| b.is_ascii_uppercase() || b.is_ascii_digit())
}

fn is_lower_word(text: &str) -> bool
    ensures { result ≡ names.is_lower_word text.now }
{
    begins_lower(text.as_bytes()) && all_lower(text.as_bytes())
}

fn is_word(text: &str) -> bool
    ensures { result ≡ names.is_word text.now }
{
    is_lower_word(text) || (begins_upper(text.as_bytes()) && all_upper(text.as_bytes()))
}

/// Whether a text is words of lower case or upper case, joined by single hyphens.
pub(crate) fn is_kebab(text: &str) -> bool
    ensures { result ≡ names.is_kebab text.now }
{
    text.split('-').all(|word| is_word(word))
}

/// The same of words of lower case alone.
pub(crate) fn is_lower_kebab(text: &str) -> bool
    ensures { result ≡ names.is_lower_kebab text.now }
{
    text.split('-').all(|word| is_lower_word(word))
}
