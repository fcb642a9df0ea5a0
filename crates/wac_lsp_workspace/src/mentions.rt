//! Which packages a text mentions, by their names without versions.
use crate::kinds::accepted;
use crate::named::text_at;
use std::alloc::{AllocError, Global};
use std::collections::BTreeSet;
use wac_lexer::{Lexer, Token};

/// The package that a text declares, and those that it mentions, by their names without versions.
#[derive(Drop)]
pub(crate) struct Links {
    /// The first name in the text, which is that of its own package. It is empty where there is none.
    pub(crate) own: String,
    /// All names in the text.
    pub(crate) mentions: BTreeSet<String>,
}

/// The name of the package that a path, or a name with a version, begins with.
fn package_in(written: &str) -> &str {
    let end = written.find(|letter: char| -> bool { letter == '/' || letter == '@' });
    match end {
        Some(end) => written.get(..end).unwrap_or(written),
        None => written,
    }
}

impl Links {
    /// Those of no text.
    pub(crate) fn none(alloc: Global) -> Links {
        Links {
            own: String::new(alloc),
            mentions: BTreeSet::new(alloc),
        }
    }

    /// Adds a name.
    fn add(&mut self, alloc: Global, name: &str) -> Result<(), AllocError> {
        if self.own.is_empty() {
            self.own = String::from_str(alloc, name)?;
        }
        if !self.mentions.contains(name) {
            self.mentions.insert(String::from_str(alloc, name)?)?;
        }
        Ok(())
    }

    /// Those of a text, by its tokens alone, up to its first rejected character.
    pub(crate) fn of(alloc: Global, text: &str) -> Result<Links, AllocError> {
        let mut links = Links::none(alloc);
        let Ok(mut lexer) = Lexer::new(accepted(text)) else {
            return Ok(links);
        };
        while let Some((item, span)) = lexer.next() {
            if let Ok(Token::PackageName | Token::PackagePath) = item {
                links.add(alloc, package_in(text_at(text, span)))?;
            }
        }
        Ok(links)
    }

    /// Whether the text mentions one of these packages.
    fn mention(&self, names: &BTreeSet<String>) -> bool {
        for name in self.mentions.iter() {
            if names.contains(name.as_str()) {
                return true;
            }
        }
        false
    }
}

/// The packages that a change concerns: those that it declares otherwise than before, and those that mention them.
#[derive(Drop)]
pub struct Concerned {
    /// Whether it concerns all packages.
    is_all: bool,
    names: BTreeSet<String>,
}

impl Concerned {
    /// No package.
    pub(crate) fn none(alloc: Global) -> Concerned {
        Concerned {
            is_all: false,
            names: BTreeSet::new(alloc),
        }
    }

    /// All packages.
    pub fn all(alloc: Global) -> Concerned {
        Concerned {
            is_all: true,
            names: BTreeSet::new(alloc),
        }
    }

    /// The same packages.
    pub(crate) fn copied(&self, alloc: Global) -> Result<Concerned, AllocError> {
        let mut copy = Concerned {
            is_all: self.is_all,
            names: BTreeSet::new(alloc),
        };
        for name in self.names.iter() {
            copy.add(alloc, name.as_str())?;
        }
        Ok(copy)
    }

    /// Adds a package.
    pub(crate) fn add(&mut self, alloc: Global, name: &str) -> Result<(), AllocError> {
        if !self.names.contains(name) {
            self.names.insert(String::from_str(alloc, name)?)?;
        }
        Ok(())
    }

    /// Adds all packages that a text mentions.
    pub(crate) fn add_all(&mut self, alloc: Global, links: &Links) -> Result<(), AllocError> {
        for name in links.mentions.iter() {
            self.add(alloc, name.as_str())?;
        }
        Ok(())
    }

    /// Whether it is no package.
    pub fn is_empty(&self) -> bool {
        !self.is_all && self.names.is_empty()
    }

    /// Whether a package of this name, in any version, is among them.
    pub(crate) fn has(&self, name: &str) -> bool {
        self.is_all || self.names.contains(name)
    }

    /// Whether a text that has these names mentions one of them.
    pub(crate) fn are_mentioned(&self, links: &Links) -> bool {
        self.is_all || links.mention(&self.names)
    }

    /// Whether a text declares one of them, or mentions one.
    pub fn concern(&self, alloc: Global, text: &str) -> Result<bool, AllocError> {
        if self.is_all {
            return Ok(true);
        }
        let links = Links::of(alloc, text)?;
        Ok(self.are_mentioned(&links))
    }
}
