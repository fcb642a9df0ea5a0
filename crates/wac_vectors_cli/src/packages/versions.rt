// Which names tools that match compatible versions take for one another, as Cargo and the component tools have it.
use std::test::Fail;
use wac_package_names::are_compatible_names;

/// Two names, and whether they differ in their versions alone and these are compatible.
static PAIRS: [(&str, &str, bool); 13] = [
    ("a:b/i@1.0.0", "a:b/i@1.0.1", true),
    ("a:b/i@1.4.0", "a:b/i@1.0.1", true),
    ("a:b/i@1.0.0", "a:b/i@1.0.0", false),
    ("a:b/i@1.0.0", "a:b/j@1.0.1", false),
    ("a:b/i@1.0.0", "a:b/i@2.0.0", false),
    ("a:b/i@1.0.0", "a:b/i@10.0.0", false),
    ("a:b/i@0.2.0", "a:b/i@0.2.1", true),
    ("a:b/i@0.2.0", "a:b/i@0.3.0", false),
    ("a:b/i@0.0.1", "a:b/i@0.0.2", false),
    ("a:b/i@1.0.0-rc.1", "a:b/i@1.0.0", false),
    ("a:b/i@1.0.0+a-b", "a:b/i@1.0.1", true),
    ("a:b/i", "a:b/i@1.0.0", false),
    ("a:b/i", "a:b/i", false),
];

/// The first pair of which something else is said.
fn first_wrong() -> Option<usize> {
    for (at, (a, b, expected)) in PAIRS.iter().enumerate() {
        if are_compatible_names(a, b) != *expected || are_compatible_names(b, a) != *expected {
            return Some(at);
        }
    }
    None
}

#[test]
fn versions_are_compatible_as_elsewhere(rt: HostRuntime) -> Result<(), Fail> {
    assert!(rt; first_wrong().is_none());
    Ok(())
}
