//! What names denote, as far as a document was read.
//!
//! No clause says what is found in here: which identifiers find which names is tested after it, and proved of what passes.

use crate::names::{Kind, Mention, Name, Names};
use crate::place::{Denoted, Part, Place, ROOT};
use indexmap::{IndexMap, IndexSet};
use std::alloc::{AllocError, Global};
use std::marker::Model;
use wac_ast_base::Ident;
use wac_lexer::SourceSpan;

/// The number of a text.
#[derive(Clone, Copy, PartialEq, Eq, Hash)]
pub(crate) struct Word(usize);

/// What the names of a scope denote.
struct Scope {
    names: IndexMap<Word, Denoted>,
    imports: IndexMap<Word, Denoted>,
    exports: IndexMap<Word, Denoted>,
}

impl Drop for Scope {
    fn drop(self) {
        let Scope {
            names: _,
            imports: _,
            exports: _,
        } = self;
    }
}

impl Scope {
    fn new(alloc: Global) -> Self {
        Scope {
            names: IndexMap::new(alloc),
            imports: IndexMap::new(alloc),
            exports: IndexMap::new(alloc),
        }
    }

    fn part(&self, part: Part) -> &IndexMap<Word, Denoted> {
        match part {
            Part::Names => &self.names,
            Part::Imports => &self.imports,
            Part::Exports => &self.exports,
        }
    }

    fn insert(&mut self, part: Part, word: Word, denoted: Denoted) -> Result<(), AllocError> {
        match part {
            Part::Names => {
                self.names.insert(word, denoted)?;
            }
            Part::Imports => {
                self.imports.insert(word, denoted)?;
            }
            Part::Exports => {
                self.exports.insert(word, denoted)?;
            }
        }
        Ok(())
    }
}

/// What was found so far: names, mentions, and what names denote in each scope.
pub(crate) struct Known<'a> {
    alloc: Global,
    own: &'a str,
    words: IndexSet<&'a str>,
    scopes: Vec<Scope>,
    bindings: Vec<Name>,
    mentions: Vec<Mention>,
}

// Contracts see how many scopes there are: with a model a function that passes this on need not follow its parts.
impl<'a> Model for Known<'a> {
    ghost use Rattle.std.specs.Prelude.{ℕ, length};

    ghost Value = { ℕ };

    ghost view = { λ w. length w.scopes.items };
}

impl<'a> Drop for Known<'a> {
    fn drop(self) {
        let Known {
            alloc: _,
            own: _,
            words: _,
            scopes: _,
            bindings: _,
            mentions: _,
        } = self;
    }
}

impl<'a> Known<'a> {
    /// Nothing was found yet in the document of the package of this name.
    pub(crate) fn new(alloc: Global, own: &'a str) -> Self {
        Known {
            alloc,
            own,
            words: IndexSet::new(alloc),
            scopes: Vec::new(alloc),
            bindings: Vec::new(alloc),
            mentions: Vec::new(alloc),
        }
    }

    /// The names and the mentions that were found.
    pub(crate) fn into_names(self) -> Names {
        let Known {
            alloc: _,
            own: _,
            words: _,
            scopes: _,
            bindings,
            mentions,
        } = self;
        Names { bindings, mentions }
    }

    /// Whether this is the name of the document's own package.
    pub(crate) fn is_own(&self, name: &str) -> bool {
        name == self.own
    }

    /// A new scope. The first is the root's.
    pub(crate) fn open(&mut self) -> Result<usize, AllocError> {
        let number = self.scopes.len();
        self.scopes.reserve(1)?;
        self.scopes.push_reserved(Scope::new(self.alloc));
        Ok(number)
    }

    /// Notes that an identifier is bound.
    pub(crate) fn declare(
        &mut self,
        id: &Ident<'_>,
        kind: Kind,
        container: Option<usize>,
    ) -> Result<usize, AllocError> {
        let number = self.bindings.len();
        self.bindings.push(Name {
            span: id.span,
            kind,
            container,
        })?;
        Ok(number)
    }

    /// Where what is denoted is bound in the scope in which it was found.
    fn place_of(&self, denoted: Denoted) -> Option<SourceSpan> {
        match denoted.used {
            Some(number) => match self.mentions.get(number) {
                Some(mention) => Some(mention.span),
                None => None,
            },
            None => match self.bindings.get(denoted.binding) {
                Some(name) => Some(name.span),
                None => None,
            },
        }
    }

    /// Notes that an identifier stands for what was found in a scope, if something was.
    fn mention(&mut self, id: &Ident<'a>, found: Option<Denoted>) -> Result<(), AllocError> {
        if let Some(denoted) = found {
            let bound = self.place_of(denoted);
            self.mentions.push(Mention {
                span: id.span,
                binding: denoted.binding,
                bound,
            })?;
        }
        Ok(())
    }

    /// Notes that an identifier stands for a member of what is before it.
    pub(crate) fn mention_member(
        &mut self,
        id: &Ident<'a>,
        denoted: Denoted,
    ) -> Result<(), AllocError> {
        self.mentions.push(Mention {
            span: id.span,
            binding: denoted.binding,
            bound: None,
        })?;
        Ok(())
    }

    /// The number of a text, which is new where the text is.
    fn intern(&mut self, text: &'a str) -> Result<Word, AllocError> {
        let (number, _) = self.words.insert_full(text)?;
        Ok(Word(number))
    }

    /// What a text of that number denotes in a scope.
    pub(crate) fn find_word(&self, scope: usize, part: Part, word: Word) -> Option<Denoted> {
        let found = self.scopes.get(scope)?;
        found.part(part).get(&word).copied()
    }

    /// What a name denotes in a scope.
    pub(crate) fn find(&self, scope: Option<usize>, part: Part, name: &str) -> Option<Denoted> {
        let scope = scope?;
        let number = self.words.get_index_of(name)?;
        self.find_word(scope, part, Word(number))
    }

    /// How many names a part of a scope has.
    pub(crate) fn count(&self, scope: usize, part: Part) -> usize {
        match self.scopes.get(scope) {
            Some(found) => found.part(part).len(),
            None => 0,
        }
    }

    /// The name at a place of a part of a scope, and what it denotes.
    pub(crate) fn entry(&self, scope: usize, part: Part, at: usize) -> Option<(Word, Denoted)> {
        let found = self.scopes.get(scope)?;
        match found.part(part).get_index(at) {
            Some((word, denoted)) => Some((*word, *denoted)),
            None => None,
        }
    }

    /// Binds a text of that number in a scope, unless it is bound there.
    pub(crate) fn bind_word(
        &mut self,
        scope: usize,
        part: Part,
        word: Word,
        denoted: Denoted,
    ) -> Result<(), AllocError> {
        if self.find_word(scope, part, word).is_some() {
            return Ok(());
        }
        match self.scopes.get_mut(scope) {
            Some(found) => found.insert(part, word, denoted),
            None => Ok(()),
        }
    }

    /// Binds a name in a scope, unless it is bound there: resolving rejects a second one.
    pub(crate) fn bind(
        &mut self,
        scope: usize,
        part: Part,
        id: &Ident<'a>,
        denoted: Denoted,
    ) -> Result<(), AllocError> {
        let word = self.intern(id.string)?;
        self.bind_word(scope, part, word, denoted)
    }

    /// Binds a type where declarations are, for identifiers there and from outside.
    pub(crate) fn bind_type(
        &mut self,
        place: Place,
        id: &Ident<'a>,
        denoted: Denoted,
    ) -> Result<(), AllocError> {
        let scope = place.here.scope;
        self.bind(scope, Part::Names, id, denoted)?;
        self.bind(scope, place.outside, id, denoted)
    }

    /// Binds a type that a `use` brings in by its last item, which is the last mention.
    pub(crate) fn bind_used(
        &mut self,
        place: Place,
        id: &Ident<'a>,
        denoted: Denoted,
    ) -> Result<(), AllocError> {
        let last = self.mentions.len().saturating_sub(1);
        self.bind_type(place, id, denoted.used_by(last))
    }

    /// What an identifier denotes in a scope. It is noted as a mention of that.
    pub(crate) fn refer(
        &mut self,
        scope: usize,
        id: &Ident<'a>,
    ) -> Result<Option<Denoted>, AllocError> {
        let found = self.find(Some(scope), Part::Names, id.string);
        self.mention(id, found)?;
        Ok(found)
    }

    /// What an identifier denotes in a scope, else at root. It is noted as a mention of that.
    pub(crate) fn refer_outwards(
        &mut self,
        scope: usize,
        id: &Ident<'a>,
    ) -> Result<Option<Denoted>, AllocError> {
        match self.refer(scope, id)? {
            Some(denoted) => Ok(Some(denoted)),
            None => self.refer(ROOT, id),
        }
    }

    /// The export that an identifier denotes of what has this scope after it. It is noted as a mention of that.
    pub(crate) fn member(
        &mut self,
        scope: Option<usize>,
        id: &Ident<'a>,
    ) -> Result<Option<Denoted>, AllocError> {
        match self.find(scope, Part::Exports, id.string) {
            Some(denoted) => {
                self.mention_member(id, denoted)?;
                Ok(Some(denoted))
            }
            None => Ok(None),
        }
    }
}
