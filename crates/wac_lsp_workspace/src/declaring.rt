//! Which text declares a package.
use crate::components::ShownPackage;
use crate::contents::ComponentPackage;
use crate::roots::Seen;
use crate::sources::Source;
use wac_graph::PackageKey;

/// A text that declares a package.
#[derive(Clone, Copy)]
pub(crate) struct Declaring<'w> {
    pub(crate) text: &'w str,
    /// The document that has it: none where a component is shown so.
    pub(crate) source: Option<&'w Source>,
}

/// The text of a package among those that are shown of a component.
fn shown_as<'w>(packages: &'w [ShownPackage], key: &PackageKey) -> Option<&'w str> {
    let found = packages.iter().find(|package| package.key == *key)?;
    Some(found.text.as_str())
}

/// What the component of a name has of a package.
fn shown_of<'w>(
    components: &'w [ComponentPackage],
    name: &str,
    key: &PackageKey,
) -> Option<&'w str> {
    let found = components
        .iter()
        .find(|component| component.key.as_str() == name)?;
    shown_as(found.shown.as_slice(), key)
}

/// What the component of a package has of it: its own package comes first among those that are shown.
fn shown_own<'w>(components: &'w [ComponentPackage], key: &PackageKey) -> Option<&'w str> {
    for component in components {
        if let Some(own) = component.shown.as_slice().first() {
            if own.key == *key {
                return Some(own.text.as_str());
            }
        }
    }
    None
}

impl<'w> Seen<'w> {
    /// The text that declares a package: that of its document, or what is shown of a component: of the one of this name,
    /// which mentions the package, and else of the package's own.
    pub(crate) fn declaring(self, key: &PackageKey, owner: Option<&str>) -> Option<Declaring<'w>> {
        if let Some(source) = self.source_of(key) {
            let text = source.text()?;
            let source = Some(source);
            return Some(Declaring { text, source });
        }
        let mentioned = match owner {
            Some(name) => shown_of(self.components(), name, key),
            None => None,
        };
        let text = match mentioned {
            Some(text) => text,
            None => shown_own(self.components(), key)?,
        };
        Some(Declaring { text, source: None })
    }
}
