//! Sorts and aliases.

use crate::decoder::Decoder;
use wac_components_bytes::{DecodeError, ErrorKind, error_at, found};
use wac_components_types::{CoreSort, Item, Lengths, Sort};

/// A sort of items or of core items.
#[derive(Clone, Copy, PartialEq, Eq)]
pub(crate) enum AnySort {
    Core(CoreSort),
    Item(Sort),
}

/// The core sort of a byte.
fn core_sort(byte: u8) -> Option<CoreSort> {
    match byte {
        0x00 => Some(CoreSort::Func),
        0x01 => Some(CoreSort::Table),
        0x02 => Some(CoreSort::Memory),
        0x03 => Some(CoreSort::Global),
        0x04 => Some(CoreSort::Tag),
        0x10 => Some(CoreSort::Type),
        0x11 => Some(CoreSort::Module),
        0x12 => Some(CoreSort::Instance),
        _ => None,
    }
}

/// Whether what an instance exports has the sort that an alias asks for.
fn is_of(sort: Sort, expected: AnySort) -> bool {
    match expected {
        AnySort::Core(CoreSort::Module) => sort == Sort::Module,
        AnySort::Core(_) => false,
        AnySort::Item(expected) => sort == expected,
    }
}

impl<'a> Decoder<'a> {
    fn sort(&mut self) -> Result<AnySort, DecodeError> {
        let offset = self.reader.position();
        match self.reader.byte()? {
            0x00 => {
                let offset = self.reader.position();
                let byte = self.reader.byte()?;
                let sort = found(core_sort(byte), ErrorKind::Opcode, offset)?;
                Ok(AnySort::Core(sort))
            }
            0x01 => Ok(AnySort::Item(Sort::Func)),
            0x03 => Ok(AnySort::Item(Sort::Type)),
            0x04 => Ok(AnySort::Item(Sort::Component)),
            0x05 => Ok(AnySort::Item(Sort::Instance)),
            0x02 => error_at(ErrorKind::Unsupported, offset),
            _ => error_at(ErrorKind::Opcode, offset),
        }
    }

    /// An item by its sort and its index. Of core items only a module is one.
    pub(crate) fn item(&mut self, scope: usize) -> Result<Item, DecodeError> {
        let offset = self.reader.position();
        match self.sort()? {
            AnySort::Core(CoreSort::Module) => {
                self.core_index(scope, CoreSort::Module)?;
                Ok(Item::Module)
            }
            AnySort::Core(_) => error_at(ErrorKind::Opcode, offset),
            AnySort::Item(sort) => self.item_of_sort(scope, sort),
        }
    }

    /// An alias, which gets the next index of its sort.
    pub(crate) fn alias(&mut self, scope: usize) -> Result<(), DecodeError> {
        let sort_offset = self.reader.position();
        let sort = self.sort()?;
        let offset = self.reader.position();
        match self.reader.byte()? {
            0x00 => self.alias_of_export(scope, sort, sort_offset),
            0x01 => self.alias_of_core_export(scope, sort, sort_offset),
            0x02 => self.alias_of_outer(scope, sort, sort_offset),
            _ => error_at(ErrorKind::Opcode, offset),
        }
    }

    fn alias_of_export(
        &mut self,
        scope: usize,
        sort: AnySort,
        sort_offset: usize,
    ) -> Result<(), DecodeError> {
        let Item::Instance(instance) = self.item_of_sort(scope, Sort::Instance)? else {
            return error_at(ErrorKind::OtherKind, sort_offset);
        };
        let offset = self.reader.position();
        let name = self.name()?;
        let item = found(
            self.table.export(instance, name),
            ErrorKind::UnknownName,
            offset,
        )?;
        if !is_of(item.sort(), sort) {
            return error_at(ErrorKind::OtherKind, sort_offset);
        }
        self.scopes.put(scope, item)?;
        Ok(())
    }

    fn alias_of_core_export(
        &mut self,
        scope: usize,
        sort: AnySort,
        sort_offset: usize,
    ) -> Result<(), DecodeError> {
        let AnySort::Core(sort) = sort else {
            return error_at(ErrorKind::Opcode, sort_offset);
        };
        self.core_index(scope, CoreSort::Instance)?;
        match self.reader.name() {
            Ok(_) => {
                self.scopes.count_core(scope, sort);
                Ok(())
            }
            Err(error) => Err(error),
        }
    }

    fn alias_of_outer(
        &mut self,
        scope: usize,
        sort: AnySort,
        sort_offset: usize,
    ) -> Result<(), DecodeError> {
        let item = match sort {
            AnySort::Item(Sort::Type) => self.outer_type(scope)?,
            AnySort::Item(Sort::Component) => self.outer_component(scope)?,
            AnySort::Core(CoreSort::Module) => self.outer_module(scope)?,
            AnySort::Core(CoreSort::Type) => {
                let (_, lengths) = self.outer_scope(scope)?;
                self.index_below(lengths.core_types)?;
                self.scopes.count_core(scope, CoreSort::Type);
                return Ok(());
            }
            _ => return error_at(ErrorKind::Opcode, sort_offset),
        };
        self.scopes.put(scope, item)?;
        Ok(())
    }

    fn outer_type(&mut self, scope: usize) -> Result<Item, DecodeError> {
        let (outer, lengths) = self.outer_scope(scope)?;
        let offset = self.reader.position();
        let index = self.index_below(lengths.types)?;
        let ty = found(self.scopes.type_at(outer, index), ErrorKind::Index, offset)?;
        Ok(Item::Type(ty))
    }

    fn outer_component(&mut self, scope: usize) -> Result<Item, DecodeError> {
        let (outer, lengths) = self.outer_scope(scope)?;
        let offset = self.reader.position();
        let index = self.index_below(lengths.components)?;
        found(
            self.scopes.component_at(outer, index),
            ErrorKind::Index,
            offset,
        )
    }

    fn outer_module(&mut self, scope: usize) -> Result<Item, DecodeError> {
        let (_, lengths) = self.outer_scope(scope)?;
        self.index_below(lengths.core_modules)?;
        Ok(Item::Module)
    }

    /// An index below a length.
    pub(crate) fn index_below(&mut self, length: usize) -> Result<usize, DecodeError> {
        let offset = self.reader.position();
        let index = self.reader.number()? as usize;
        if index < length {
            Ok(index)
        } else {
            error_at(ErrorKind::Index, offset)
        }
    }

    /// The scope so many scopes out, and how long its spaces are as the inner ones see them.
    fn outer_scope(&mut self, scope: usize) -> Result<(usize, Lengths), DecodeError> {
        let offset = self.reader.position();
        let count = self.reader.number()?;
        self.scope_out(scope, count, offset)
    }

    /// The scope `count` scopes out, where the count is at that offset.
    pub(crate) fn scope_out(
        &mut self,
        scope: usize,
        count: u32,
        offset: usize,
    ) -> Result<(usize, Lengths), DecodeError> {
        let mut outer = scope;
        let mut lengths = self.scopes.lengths(scope);
        for _ in 0..count {
            let (parent, before) = found(self.scopes.parent(outer), ErrorKind::Index, offset)?;
            outer = parent;
            lengths = before;
            self.reader.charge(1, offset)?;
        }
        Ok((outer, lengths))
    }
}
