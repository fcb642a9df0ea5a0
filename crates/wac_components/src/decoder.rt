//! The state of decoding, and what all of it uses.

use crate::frame::{Body, Frame};
use crate::limits::{Limits, TYPE_WORK};
use indexmap::IndexMap;
use std::alloc::{AllocError, Global};
use wac_components_bytes::{DecodeError, ErrorKind, Reader, error_at, found};
use wac_components_types::{
    ComponentId, CoreSort, Item, NameId, Scopes, Sort, Table, TypeDef, TypeId, TypeSort,
};

/// The state of decoding. Bodies that are being evaluated are in `frames`, the innermost last.
pub(crate) struct Decoder<'a> {
    pub alloc: Global,
    pub reader: Reader<'a>,
    pub table: Table,
    pub scopes: Scopes,
    pub bodies: Vec<Body>,
    pub arguments: Vec<IndexMap<NameId, Item>>,
    pub frames: Vec<Frame>,
    pub nesting: u64,
    pub limits: Limits,
    pub root: Option<ComponentId>,
}

impl<'a> Drop for Decoder<'a> {
    fn drop(self) {
        let Decoder {
            alloc: _,
            reader: _,
            table: _,
            scopes: _,
            bodies: _,
            arguments: _,
            frames: _,
            nesting: _,
            limits: _,
            root: _,
        } = self;
    }
}

impl<'a> Decoder<'a> {
    pub(crate) fn new(alloc: Global, bytes: &'a [u8], limits: Limits) -> Result<Self, AllocError> {
        let table = Table::new(alloc)?;
        Ok(Decoder {
            alloc,
            reader: Reader::new(bytes, limits.work),
            table,
            scopes: Scopes::new(alloc),
            bodies: Vec::new(alloc),
            arguments: Vec::new(alloc),
            frames: Vec::new(alloc),
            nesting: 0,
            limits,
            root: None,
        })
    }

    /// How deep and how large all is that a component imports and exports, and how many bytes were read.
    pub(crate) fn used(&self, component: ComponentId) -> Limits {
        let (size, depth) = self.table.item_extent(Item::Component(component));
        Limits {
            depth,
            size,
            work: self.limits.work.saturating_sub(self.reader.work()),
        }
    }

    /// The table alone.
    pub(crate) fn into_table(self) -> Table {
        let Decoder {
            alloc: _,
            reader: _,
            table,
            scopes: _,
            bodies: _,
            arguments: _,
            frames: _,
            nesting: _,
            limits: _,
            root: _,
        } = self;
        table
    }

    /// A name.
    pub(crate) fn name(&mut self) -> Result<NameId, DecodeError> {
        match self.reader.name() {
            Ok(text) => Ok(self.table.intern(self.alloc, text)?),
            Err(error) => Err(error),
        }
    }

    /// The name of an import or an export, which a byte 0 or 1 precedes.
    pub(crate) fn extern_name(&mut self) -> Result<NameId, DecodeError> {
        self.reader.flag()?;
        self.name()
    }

    /// Tests something of that size and depth against the limits.
    pub(crate) fn test_extent(
        &self,
        size: u64,
        depth: u64,
        offset: usize,
    ) -> Result<(), DecodeError> {
        if depth > self.limits.depth {
            error_at(ErrorKind::Depth, offset)
        } else if size > self.limits.size {
            error_at(ErrorKind::Work, offset)
        } else {
            Ok(())
        }
    }

    /// Adds a type that is declared at an offset.
    pub(crate) fn add_type(&mut self, def: TypeDef, offset: usize) -> Result<TypeId, DecodeError> {
        self.reader.charge(TYPE_WORK, offset)?;
        let ty = self.table.add_type(def)?;
        let (size, depth) = self.table.item_extent(Item::Type(ty));
        self.test_extent(size, depth, offset)?;
        Ok(ty)
    }

    /// The index of a core item, which is in the scope.
    pub(crate) fn core_index(&mut self, scope: usize, sort: CoreSort) -> Result<(), DecodeError> {
        let offset = self.reader.position();
        let index = self.reader.number()?;
        if (index as usize) < self.scopes.core_count(scope, sort) {
            Ok(())
        } else {
            error_at(ErrorKind::Index, offset)
        }
    }

    /// The type of an index.
    pub(crate) fn type_index(&mut self, scope: usize) -> Result<TypeId, DecodeError> {
        let offset = self.reader.position();
        let index = self.reader.number()?;
        found(
            self.scopes.type_at(scope, index as usize),
            ErrorKind::Index,
            offset,
        )
    }

    /// Tests what a type can be used as.
    pub(crate) fn test_sort(
        &self,
        ty: TypeId,
        sort: TypeSort,
        offset: usize,
    ) -> Result<(), DecodeError> {
        if self.table.type_sort(ty) == Some(sort) {
            Ok(())
        } else {
            error_at(ErrorKind::OtherKind, offset)
        }
    }

    /// The type of an index, which can be used as that.
    pub(crate) fn type_of_sort(
        &mut self,
        scope: usize,
        sort: TypeSort,
    ) -> Result<TypeId, DecodeError> {
        let offset = self.reader.position();
        let ty = self.type_index(scope)?;
        self.test_sort(ty, sort, offset)?;
        Ok(ty)
    }

    /// The item of an index.
    pub(crate) fn item_of_sort(&mut self, scope: usize, sort: Sort) -> Result<Item, DecodeError> {
        let offset = self.reader.position();
        let index = self.reader.number()? as usize;
        let item = match sort {
            Sort::Module => None,
            Sort::Func => match self.scopes.function_at(scope, index) {
                Some(ty) => Some(Item::Func(ty)),
                None => None,
            },
            Sort::Type => match self.scopes.type_at(scope, index) {
                Some(ty) => Some(Item::Type(ty)),
                None => None,
            },
            Sort::Instance => match self.scopes.instance_at(scope, index) {
                Some(instance) => Some(Item::Instance(instance)),
                None => None,
            },
            Sort::Component => self.scopes.component_at(scope, index),
        };
        found(item, ErrorKind::Index, offset)
    }

    /// The first eight bytes of a component.
    pub(crate) fn preamble(&mut self) -> Result<(), DecodeError> {
        let start = self.reader.position();
        for expected in [0x00, 0x61, 0x73, 0x6d] {
            if self.reader.byte()? != expected {
                return error_at(ErrorKind::Magic, start);
            }
        }
        self.version()
    }

    fn version(&mut self) -> Result<(), DecodeError> {
        let start = self.reader.position();
        let first = self.reader.byte()?;
        let second = self.reader.byte()?;
        let third = self.reader.byte()?;
        let fourth = self.reader.byte()?;
        match (first, second, third, fourth) {
            (0x0d, 0, 1, 0) => Ok(()),
            (1, 0, 0, 0) => error_at(ErrorKind::CoreModule, start),
            _ => error_at(ErrorKind::Version, start),
        }
    }
}
