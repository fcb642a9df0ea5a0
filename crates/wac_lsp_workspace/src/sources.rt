//! Documents that declare packages: what their files hold, and what is open of them.
ghost use Rattle.std.specs.Prelude.{◌≡◌, None, Some, option_map};
ghost use Rattle.wac_lsp_workspace.specs.Open.{bytes_of, text_of};

use crate::mentions::{Concerned, Links};
use std::alloc::{AllocError, Global};

/// A document that is open.
#[derive(Drop)]
pub(crate) struct Opened {
    /// Its name, letter for letter.
    pub(crate) uri: String,
    /// Its text, if that declares a package.
    pub(crate) text: Option<String>,
}

/// A document whose file or open text declares a package, or did.
#[derive(Drop)]
pub(crate) struct Source {
    pub(crate) path: String,
    /// The text of its file, if that declares a package.
    pub(crate) saved: Option<String>,
    /// What is open of it.
    pub(crate) opened: Option<Opened>,
    /// The packages that the text mentions which declares one.
    pub(crate) links: Links,
}

/// The text that an option holds.
fn lent(text: &Option<String>) -> Option<&str>
    ensures { option_map (λ t. t.now) result ≡ bytes_of text.now }
{
    match text {
        Some(text) => Some(text.as_str()),
        None => None,
    }
}

impl Source {
    ghost use Rattle.std.specs.Prelude.{◌≡◌, None, Some, option_map};
    ghost use Rattle.wac_lsp_workspace.specs.Open.{text_of};

    /// The text that declares a package: the open one where the document is open, and else that of its file.
    pub(crate) fn text(&self) -> Option<&str>
        ensures { option_map (λ t. t.now) result ≡ text_of self.now }
    {
        match &self.opened {
            Some(opened) => lent(&opened.text),
            None => lent(&self.saved),
        }
    }

    /// Finds the packages that its text mentions.
    pub(crate) fn link(&mut self, alloc: Global) -> Result<(), AllocError>
        ensures opened { self.new.opened ≡ self.old.opened }
        ensures saved { self.new.saved ≡ self.old.saved }
    {
        let links = match self.text() {
            Some(text) => Links::of(alloc, text)?,
            None => Links::none(alloc),
        };
        self.links = links;
        Ok(())
    }

    /// Opens the document. Returns whether another text declares its package now.
    pub(crate) fn open(&mut self, opened: Opened) -> bool
        ensures open { self.new.opened ≡ Some opened }
        ensures saved { self.new.saved ≡ self.old.saved }
    {
        let changes = self.text() != lent(&opened.text);
        self.opened = Some(opened);
        changes
    }

    /// Takes the text of its file, if that declares a package. Returns whether another text declares its package now.
    pub(crate) fn save(&mut self, saved: Option<String>) -> bool
        ensures opened { self.new.opened ≡ self.old.opened }
        ensures saved { self.new.saved ≡ saved }
    {
        let changes = self.opened.is_none() && self.text() != lent(&saved);
        self.saved = saved;
        changes
    }

    /// Closes the document. Returns whether another text declares its package now.
    pub(crate) fn close(&mut self) -> bool
        ensures closed { self.new.opened ≡ None }
        ensures saved { self.new.saved ≡ self.old.saved }
    {
        let changes = self.text() != lent(&self.saved);
        self.opened = None;
        changes
    }
}

/// The number of the document of a path, counted from 0.
pub(crate) fn place_of(sources: &[Source], path: &str) -> Option<usize> {
    for number in 0..sources.len() {
        if sources[number].path.as_str() == path {
            return Some(number);
        }
    }
    None
}

/// Adds a document that is open. Returns whether it declares a package.
fn add_open(
    alloc: Global,
    sources: &mut Vec<Source>,
    path: &str,
    opened: Opened,
) -> Result<bool, AllocError> {
    let declares = opened.text.is_some();
    let mut source = Source {
        path: String::from_str(alloc, path)?,
        saved: None,
        opened: Some(opened),
        links: Links::none(alloc),
    };
    source.link(alloc)?;
    sources.push(source)?;
    Ok(declares)
}

/// Puts an open text before the file of its path. Returns whether other texts declare packages now.
pub(crate) fn put_open(
    alloc: Global,
    sources: &mut Vec<Source>,
    path: &str,
    opened: Opened,
) -> Result<bool, AllocError> {
    let Some(number) = place_of(sources.as_slice(), path) else {
        return add_open(alloc, sources, path, opened);
    };
    match sources.as_mut_slice().get_mut(number) {
        Some(source) => {
            let changes = source.open(opened);
            if changes {
                source.link(alloc)?;
            }
            Ok(changes)
        }
        None => Ok(false),
    }
}

/// Puts the text of a file, if it declares a package, behind what is open of it. Returns whether other texts declare packages
/// now.
pub(crate) fn put_saved(
    alloc: Global,
    sources: &mut Vec<Source>,
    path: &str,
    saved: Option<String>,
) -> Result<bool, AllocError> {
    let Some(number) = place_of(sources.as_slice(), path) else {
        return add_saved(alloc, sources, path, saved);
    };
    match sources.as_mut_slice().get_mut(number) {
        Some(source) => {
            let changes = source.save(saved);
            if changes {
                source.link(alloc)?;
            }
            Ok(changes)
        }
        None => Ok(false),
    }
}

/// Adds the document of a file, if its text declares a package. Returns whether it does.
fn add_saved(
    alloc: Global,
    sources: &mut Vec<Source>,
    path: &str,
    saved: Option<String>,
) -> Result<bool, AllocError> {
    if saved.is_none() {
        return Ok(false);
    }
    let mut source = Source {
        path: String::from_str(alloc, path)?,
        saved,
        opened: None,
        links: Links::none(alloc),
    };
    source.link(alloc)?;
    sources.push(source)?;
    Ok(true)
}

/// Has the file of a path stand for itself again. Returns whether other texts declare packages now.
pub(crate) fn put_closed(
    alloc: Global,
    sources: &mut Vec<Source>,
    path: &str,
) -> Result<bool, AllocError> {
    let Some(number) = place_of(sources.as_slice(), path) else {
        return Ok(false);
    };
    match sources.as_mut_slice().get_mut(number) {
        Some(source) => {
            let changes = source.close();
            if changes {
                source.link(alloc)?;
            }
            Ok(changes)
        }
        None => Ok(false),
    }
}

/// The package that the document of a path declares, by its name.
pub(crate) fn declared_by<'s>(sources: &'s [Source], path: &str) -> Option<&'s str> {
    let source = sources.get(place_of(sources, path)?)?;
    let _ = source.text()?;
    Some(source.links.own.as_str())
}

/// Adds the packages that mention one of some, once. Returns whether there were others.
fn add_mentioning(
    alloc: Global,
    sources: &[Source],
    concerned: &mut Concerned,
) -> Result<bool, AllocError> {
    let mut grew = false;
    for source in sources {
        let own = source.links.own.as_str();
        if !concerned.has(own) && concerned.are_mentioned(&source.links) {
            concerned.add(alloc, own)?;
            grew = true;
        }
    }
    Ok(grew)
}

/// Packages, with those that mention them, and so on.
pub(crate) fn with_mentioning(
    alloc: Global,
    sources: &[Source],
    mut concerned: Concerned,
) -> Result<Concerned, AllocError> {
    for _ in 0..sources.len() {
        if !add_mentioning(alloc, sources, &mut concerned)? {
            break;
        }
    }
    Ok(concerned)
}

/// Adds the packages that the documents of some mention, once. Returns whether there were others.
fn add_mentioned(
    alloc: Global,
    sources: &[Source],
    needed: &mut Concerned,
    is_done: &mut Vec<bool>,
) -> Result<bool, AllocError> {
    let mut grew = false;
    for number in 0..sources.len() {
        let source = &sources[number];
        let done = is_done.as_slice().get(number).copied().unwrap_or(true);
        if !done && needed.has(source.links.own.as_str()) {
            needed.add_all(alloc, &source.links)?;
            if let Some(done) = is_done.as_mut_slice().get_mut(number) {
                *done = true;
            }
            grew = true;
        }
    }
    Ok(grew)
}

/// Packages, with those that their documents mention, and so on.
pub(crate) fn with_mentioned(
    alloc: Global,
    sources: &[Source],
    concerned: &Concerned,
) -> Result<Concerned, AllocError> {
    let mut needed = concerned.copied(alloc)?;
    let mut is_done = Vec::with_capacity(alloc, sources.len())?;
    for _ in sources {
        is_done.push(false)?;
    }
    for _ in 0..sources.len() {
        if !add_mentioned(alloc, sources, &mut needed, &mut is_done)? {
            break;
        }
    }
    Ok(needed)
}
