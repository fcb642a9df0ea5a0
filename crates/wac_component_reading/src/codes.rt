// Codes of the errors of components.
use wac_components::ErrorKind;

/// The code of a kind of error: the kebab form of its variant's name, after `component`.
pub(crate) fn component_code(kind: ErrorKind) -> &'static str {
    match kind {
        ErrorKind::UnexpectedEnd => "wac::component-unexpected-end",
        ErrorKind::Magic => "wac::component-magic",
        ErrorKind::CoreModule => "wac::component-core-module",
        ErrorKind::Version => "wac::component-version",
        ErrorKind::LongNumber => "wac::component-long-number",
        ErrorKind::Count => "wac::component-count",
        ErrorKind::SectionSize => "wac::component-section-size",
        ErrorKind::Section => "wac::component-section",
        ErrorKind::Opcode => "wac::component-opcode",
        other => item_code(other),
    }
}

fn item_code(kind: ErrorKind) -> &'static str {
    match kind {
        ErrorKind::Index => "wac::component-index",
        ErrorKind::OtherKind => "wac::component-other-kind",
        ErrorKind::UnknownName => "wac::component-unknown-name",
        ErrorKind::DuplicateName => "wac::component-duplicate-name",
        ErrorKind::Utf8 => "wac::component-utf-8",
        ErrorKind::Depth => "wac::component-depth",
        ErrorKind::Work => "wac::component-work",
        ErrorKind::Unsupported => "wac::component-unsupported",
        _ => "wac::out-of-memory",
    }
}
