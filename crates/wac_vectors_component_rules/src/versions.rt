//! Versions in the names of interfaces: those that SemVer has, as the crate `semver` reads them.

use semver::Version;
use std::alloc::{AllocError, Global};
use std::test::Fail;
use wac_component_rules::ComponentRules;
use wac_graph_types::Rules;

/// A text, and whether it is a version.
static VERSIONS: &[(&str, bool)] = &[
    ("0.0.0", true),
    ("1.2.3", true),
    ("10.20.30", true),
    ("1.0.0-alpha", true),
    ("1.0.0-alpha.1", true),
    ("1.0.0-0.3.7", true),
    ("1.0.0-x-y-z.--", true),
    ("1.0.0-0a", true),
    ("1.0.0+20130313144700", true),
    ("1.0.0+001", true),
    ("1.0.0-beta+exp.sha.5114f85", true),
    ("1.0.0+21AF26D3---117B344092BD", true),
    ("1.0.0+a-b", true),
    ("", false),
    ("1", false),
    ("1.2", false),
    ("1.2.3.4", false),
    ("01.2.3", false),
    ("1.02.3", false),
    ("1.2.03", false),
    ("1.2.", false),
    (".2.3", false),
    ("a.b.c", false),
    ("v1.2.3", false),
    ("1.2.3-", false),
    ("1.2.3-01", false),
    ("1.2.3-a..b", false),
    ("1.2.3-a.", false),
    ("1.2.3-a_b", false),
    ("1.2.3+", false),
    ("1.2.3+a..b", false),
    ("1.2.3+a+b", false),
    ("1.2.3-\u{e9}", false),
    (" 1.2.3", false),
];

/// Whether the interface `a:b/c` may have a version.
fn is_accepted(alloc: Global, version: &str) -> Result<bool, AllocError> {
    let name = format!(in alloc; "a:b/c@{version}")?;
    Ok(
        ComponentRules::new(alloc)
            .extern_name(name.as_str())
            .is_ok(),
    )
}

#[test]
fn interfaces_have_versions(rt: HostRuntime) -> Result<(), Fail> {
    for (version, expected) in VERSIONS {
        let found = is_accepted(rt.alloc(), version)?;
        let read = Version::parse(rt.alloc(), version).is_ok();
        assert!(rt; found == *expected && read == *expected, "of {version}");
    }
    Ok(())
}
