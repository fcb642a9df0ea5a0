//! Canonical functions: a lifted one is a function, each other one a core function.

use crate::decoder::Decoder;
use wac_components_bytes::{DecodeError, ErrorKind, error_at};
use wac_components_types::{CoreSort, Item, Sort, TypeSort};

impl<'a> Decoder<'a> {
    pub(crate) fn canon(&mut self, scope: usize) -> Result<(), DecodeError> {
        let offset = self.reader.position();
        let opcode = self.reader.byte()?;
        match opcode {
            0x00 => return self.lift(scope),
            0x01 => {
                self.zero()?;
                self.item_of_sort(scope, Sort::Func)?;
                self.canon_options(scope)?;
            }
            _ => self.canon_operands(scope, opcode, offset)?,
        }
        self.scopes.count_core(scope, CoreSort::Func);
        Ok(())
    }

    fn zero(&mut self) -> Result<(), DecodeError> {
        let offset = self.reader.position();
        if self.reader.byte()? == 0 {
            Ok(())
        } else {
            error_at(ErrorKind::Opcode, offset)
        }
    }

    fn lift(&mut self, scope: usize) -> Result<(), DecodeError> {
        self.zero()?;
        self.core_index(scope, CoreSort::Func)?;
        self.canon_options(scope)?;
        let ty = self.type_of_sort(scope, TypeSort::Func)?;
        let base = self.table.base(ty);
        self.scopes.put(scope, Item::Func(base))?;
        Ok(())
    }

    fn canon_options(&mut self, scope: usize) -> Result<(), DecodeError> {
        let count = self.reader.count()?;
        for _ in 0..count {
            self.canon_option(scope)?;
        }
        Ok(())
    }

    fn canon_option(&mut self, scope: usize) -> Result<(), DecodeError> {
        let offset = self.reader.position();
        match self.reader.byte()? {
            0x03 => self.core_index(scope, CoreSort::Memory),
            0x04 | 0x05 | 0x07 => self.core_index(scope, CoreSort::Func),
            0x08 => self.core_index(scope, CoreSort::Type),
            0x00 | 0x01 | 0x02 | 0x06 | 0x09 => Ok(()),
            _ => error_at(ErrorKind::Opcode, offset),
        }
    }

    /// A byte 0 or 1 that isn't needed.
    fn skip_flag(&mut self) -> Result<(), DecodeError> {
        self.reader.flag()?;
        Ok(())
    }

    fn skip_type(&mut self, scope: usize) -> Result<(), DecodeError> {
        self.type_index(scope)?;
        Ok(())
    }

    /// The type of a context, and its number.
    fn context(&mut self) -> Result<(), DecodeError> {
        let offset = self.reader.position();
        if self.reader.byte()? != 0x7f {
            return error_at(ErrorKind::Opcode, offset);
        }
        self.reader.number()?;
        Ok(())
    }

    /// What follows the opcode of a built-in function.
    fn canon_operands(
        &mut self,
        scope: usize,
        opcode: u8,
        offset: usize,
    ) -> Result<(), DecodeError> {
        match opcode {
            0x05 | 0x08 | 0x0d | 0x1e | 0x1f | 0x22..=0x26 | 0x2a => Ok(()),
            0x02..=0x04 | 0x07 | 0x0e | 0x13..=0x15 | 0x1a | 0x1b => self.skip_type(scope),
            0x06 | 0x0c | 0x28 | 0x29 | 0x2b | 0x2c => self.skip_flag(),
            0x0a | 0x0b => self.context(),
            0x09 => {
                self.result_list(scope)?;
                self.canon_options(scope)
            }
            _ => self.canon_pairs(scope, opcode, offset),
        }
    }

    /// What follows the opcode of a built-in function that has options or two operands.
    fn canon_pairs(&mut self, scope: usize, opcode: u8, offset: usize) -> Result<(), DecodeError> {
        match opcode {
            0x0f | 0x10 | 0x16 | 0x17 => {
                self.skip_type(scope)?;
                self.canon_options(scope)
            }
            0x11 | 0x12 | 0x18 | 0x19 => {
                self.skip_type(scope)?;
                self.skip_flag()
            }
            0x1c | 0x1d => self.canon_options(scope),
            0x20 | 0x21 => {
                self.skip_flag()?;
                self.core_index(scope, CoreSort::Memory)
            }
            0x27 => {
                self.core_index(scope, CoreSort::Type)?;
                self.core_index(scope, CoreSort::Table)
            }
            _ => error_at(ErrorKind::Opcode, offset),
        }
    }
}
