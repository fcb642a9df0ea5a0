//! Core types and core instances, which are read over.

use crate::decoder::Decoder;
use wac_components_bytes::{DecodeError, ErrorKind, error_at, found};
use wac_components_types::CoreSort;

/// The core sort of what a core instance made of items exports.
fn exported_sort(byte: u8) -> Option<CoreSort> {
    match byte {
        0 => Some(CoreSort::Func),
        1 => Some(CoreSort::Table),
        2 => Some(CoreSort::Memory),
        3 => Some(CoreSort::Global),
        4 => Some(CoreSort::Tag),
        _ => None,
    }
}

impl<'a> Decoder<'a> {
    /// A name that isn't needed.
    pub(crate) fn skip_name(&mut self) -> Result<(), DecodeError> {
        match self.reader.name() {
            Ok(_) => Ok(()),
            Err(error) => Err(error),
        }
    }

    fn core_value_type(&mut self) -> Result<(), DecodeError> {
        let offset = self.reader.position();
        match self.reader.byte()? {
            0x63 | 0x64 => {
                self.reader.index_or_opcode()?;
                Ok(())
            }
            0x69..=0x7f => Ok(()),
            _ => error_at(ErrorKind::Opcode, offset),
        }
    }

    fn core_limits(&mut self) -> Result<(), DecodeError> {
        let flags = self.reader.byte()?;
        self.reader.skip_long_number()?;
        if flags & 1 != 0 {
            self.reader.skip_long_number()?;
        }
        if flags & 8 != 0 {
            self.reader.number()?;
        }
        Ok(())
    }

    fn core_value_types(&mut self) -> Result<(), DecodeError> {
        let count = self.reader.count()?;
        for _ in 0..count {
            self.core_value_type()?;
        }
        Ok(())
    }

    fn core_func_type(&mut self) -> Result<(), DecodeError> {
        let offset = self.reader.position();
        match self.reader.byte()? {
            0x60 => {
                self.core_value_types()?;
                self.core_value_types()
            }
            0x00 | 0x4e | 0x4f | 0x50 | 0x5e | 0x5f => error_at(ErrorKind::Unsupported, offset),
            _ => error_at(ErrorKind::Opcode, offset),
        }
    }

    /// What a module type imports or exports, where it has so many types so far.
    fn core_description(&mut self, types: usize) -> Result<(), DecodeError> {
        let offset = self.reader.position();
        match self.reader.byte()? {
            0x00 => {
                self.index_below(types)?;
                Ok(())
            }
            0x04 => {
                self.reader.byte()?;
                self.index_below(types)?;
                Ok(())
            }
            0x01 => {
                self.core_value_type()?;
                self.core_limits()
            }
            0x02 => self.core_limits(),
            0x03 => {
                self.core_value_type()?;
                self.reader.byte()?;
                Ok(())
            }
            _ => error_at(ErrorKind::Opcode, offset),
        }
    }

    /// An alias of a core type in a module type, which is a scope of its own.
    fn core_outer_type(&mut self, scope: usize, types: usize) -> Result<(), DecodeError> {
        let offset = self.reader.position();
        let sort = self.reader.byte()?;
        let target = self.reader.byte()?;
        if sort != 0x10 || target != 0x01 {
            return error_at(ErrorKind::Opcode, offset);
        }
        let offset = self.reader.position();
        let count = self.reader.number()?;
        let length = if count == 0 {
            types
        } else {
            let (_, lengths) = self.scope_out(scope, count.saturating_sub(1), offset)?;
            lengths.core_types
        };
        self.index_below(length)?;
        Ok(())
    }

    /// A declarator of a module type, and how many types the module type has then.
    fn core_declarator(&mut self, scope: usize, types: usize) -> Result<usize, DecodeError> {
        let offset = self.reader.position();
        match self.reader.byte()? {
            0x00 => {
                self.skip_name()?;
                self.skip_name()?;
                self.core_description(types)?;
                Ok(types)
            }
            0x01 => {
                self.core_func_type()?;
                Ok(types.saturating_add(1))
            }
            0x02 => {
                self.core_outer_type(scope, types)?;
                Ok(types.saturating_add(1))
            }
            0x03 => {
                self.skip_name()?;
                self.core_description(types)?;
                Ok(types)
            }
            _ => error_at(ErrorKind::Opcode, offset),
        }
    }

    /// A core type: of a function, or of a module.
    pub(crate) fn core_type(&mut self, scope: usize) -> Result<(), DecodeError> {
        if self.reader.peek()? != 0x50 {
            return self.core_func_type();
        }
        self.reader.byte()?;
        let count = self.reader.count()?;
        let mut types = 0;
        for _ in 0..count {
            types = self.core_declarator(scope, types)?;
        }
        Ok(())
    }

    /// The arguments of an instance of a core module.
    pub(crate) fn core_arguments(&mut self, scope: usize) -> Result<(), DecodeError> {
        self.core_index(scope, CoreSort::Module)?;
        let count = self.reader.count()?;
        for _ in 0..count {
            self.skip_name()?;
            let offset = self.reader.position();
            if self.reader.byte()? != 0x12 {
                return error_at(ErrorKind::Opcode, offset);
            }
            self.core_index(scope, CoreSort::Instance)?;
        }
        Ok(())
    }

    /// The exports of a core instance made of items.
    pub(crate) fn core_exports(&mut self, scope: usize) -> Result<(), DecodeError> {
        let count = self.reader.count()?;
        for _ in 0..count {
            self.skip_name()?;
            let offset = self.reader.position();
            let byte = self.reader.byte()?;
            let sort = found(exported_sort(byte), ErrorKind::Opcode, offset)?;
            self.core_index(scope, sort)?;
        }
        Ok(())
    }
}
