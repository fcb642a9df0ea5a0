//! The headers of many texts, and which text declares which package.
ghost use Rattle.std.specs.Prelude.{◌<◌, OnOk, vec_len};

use crate::error::{DeclarationError, DeclarationFault};
use crate::header::{Header, directive_key, read_header};
use crate::sizes::Sizes;
use crate::supplying::copied_key;
use indexmap::IndexMap;
use std::alloc::{AllocError, Global};
use wac_graph::PackageKey;
use wac_lexer::SourceSpan;

/// The headers of texts, and the sizes of the packages that are made. A text that has a fault has no header.
#[derive(Drop)]
pub(crate) struct Outlines {
    pub(crate) headers: Vec<Option<Header>>,
    /// Which text declares a package, faulty ones too.
    pub(crate) texts: IndexMap<PackageKey, usize>,
    pub(crate) faults: Vec<DeclarationFault>,
    pub(crate) sizes: Sizes,
}

impl Outlines {
    /// The headers of texts that no other text makes faulty.
    pub(crate) fn of_texts(alloc: Global, texts: &[&str]) -> Result<Self, AllocError> {
        let mut outlines = Outlines {
            headers: Vec::with_capacity(alloc, texts.len())?,
            texts: IndexMap::new(alloc),
            faults: Vec::new(alloc),
            sizes: Sizes::of(alloc, texts)?,
        };
        for text in 0..texts.len() {
            outlines.add(alloc, text, texts[text])?;
        }
        outlines.reject_unknown()?;
        Ok(outlines)
    }

    /// Adds what a text says of itself.
    fn add(&mut self, alloc: Global, text: usize, source: &str) -> Result<(), AllocError> {
        match read_header(alloc, source) {
            Ok(header) => self.add_header(alloc, text, header),
            Err(DeclarationError::Memory(refused)) => Err(refused),
            Err(error) => {
                self.reject(text, error)?;
                self.add_faulty(alloc, text, source)
            }
        }
    }

    /// Adds a text with a fault: only the package that it declares is noted.
    fn add_faulty(&mut self, alloc: Global, text: usize, source: &str) -> Result<(), AllocError> {
        self.headers.push(None)?;
        if let Some(key) = directive_key(alloc, source)? {
            self.note_key(key, text)?;
        }
        Ok(())
    }

    /// Notes that a text declares a package, unless an earlier one does. Returns whether an earlier one does.
    fn note_key(&mut self, key: PackageKey, text: usize) -> Result<bool, AllocError> {
        if self.texts.contains_key(&key) {
            return Ok(true);
        }
        self.texts.insert(key, text)?;
        Ok(false)
    }

    /// Notes the same of a key that is copied.
    fn note_copy(
        &mut self,
        alloc: Global,
        key: &PackageKey,
        text: usize,
    ) -> Result<bool, AllocError> {
        let key = copied_key(alloc, key)?;
        self.note_key(key, text)
    }

    /// Adds a header, unless an earlier text declares its package.
    fn add_header(&mut self, alloc: Global, text: usize, header: Header) -> Result<(), AllocError> {
        if self.note_copy(alloc, &header.key, text)? {
            return self.add_repeated(text, header.place);
        }
        self.headers.push(Some(header))?;
        Ok(())
    }

    /// Adds a text whose package an earlier text declares. Its package's name is in that place.
    fn add_repeated(&mut self, text: usize, place: SourceSpan) -> Result<(), AllocError> {
        self.headers.push(None)?;
        self.reject(text, DeclarationError::DeclaredTwice(place))
    }

    /// Adds a fault.
    pub(crate) fn reject(&mut self, text: usize, error: DeclarationError) -> Result<(), AllocError>
        ensures { OnOk result (0 < vec_len self.new.faults) }
    {
        self.faults.push(DeclarationFault { text, error })?;
        Ok(())
    }

    /// Rejects a text: it has no header from now on.
    pub(crate) fn reject_text(
        &mut self,
        text: usize,
        error: DeclarationError,
    ) -> Result<(), AllocError> {
        if let Some(header) = self.headers.get_mut(text) {
            *header = None;
        }
        self.reject(text, error)
    }

    /// The header of a text that has one.
    pub(crate) fn header(&self, text: usize) -> Option<&Header> {
        match self.headers.get(text) {
            Some(Some(header)) => Some(header),
            _ => None,
        }
    }

    /// Where a text mentions the largest package, if copies of those that it mentions would leave no room.
    pub(crate) fn too_large(&self, header: &Header) -> Option<SourceSpan> {
        let mut all: u64 = 0;
        let mut largest: u64 = 0;
        let mut largest_place = None;
        for (key, place) in header.mentioned.iter() {
            let size = self.size_of(key);
            all = all.saturating_add(size);
            if largest < size {
                largest = size;
                largest_place = Some(*place);
            }
        }
        if self.sizes.has_room(all) {
            None
        } else {
            largest_place
        }
    }

    /// The size of the package of a key.
    fn size_of(&self, key: &PackageKey) -> u64 {
        match self.texts.get(key) {
            Some(text) => self.sizes.of_text(*text),
            None => 0,
        }
    }

    /// Rejects a text whose package is larger than there is room for.
    pub(crate) fn reject_large(&mut self, text: usize) -> Result<(), AllocError> {
        let error = match self.header(text) {
            Some(header) => DeclarationError::TooLarge(header.place),
            None => DeclarationError::Unmade,
        };
        self.reject_text(text, error)
    }

    /// Where a text first mentions a package that no text declares.
    fn unknown(&self, text: usize) -> Option<SourceSpan> {
        let header = self.header(text)?;
        match first_missing(&header.mentioned, &self.texts) {
            Some((_, place)) => Some(place),
            None => None,
        }
    }

    /// Rejects each text that mentions a package that no text declares.
    fn reject_unknown(&mut self) -> Result<(), AllocError> {
        for text in 0..self.headers.len() {
            if let Some(place) = self.unknown(text) {
                self.reject_text(text, DeclarationError::UnknownPackage(place))?;
            }
        }
        Ok(())
    }
}

/// The first mentioned package that isn't among these, if there is one, with its place.
pub(crate) fn first_missing<'m, V: Drop>(
    mentioned: &'m IndexMap<PackageKey, SourceSpan>,
    among: &IndexMap<PackageKey, V>,
) -> Option<(&'m PackageKey, SourceSpan)> {
    for (key, place) in mentioned.iter() {
        if !among.contains_key(key) {
            return Some((key, *place));
        }
    }
    None
}
