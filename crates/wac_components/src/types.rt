//! Types of values and of functions, and definitions of types.

use crate::decoder::Decoder;
use crate::frame::{Body, Next, Sequel};
use indexmap::IndexSet;
use wac_components_bytes::{DecodeError, ErrorKind, error_at, found};
use wac_components_types::{
    BodyKind, CoreSort, Func, Item, NameId, Part, Parts, TypeDef, TypeId, TypeSort, primitive,
};

/// What follows the name of a part.
#[derive(Clone, Copy)]
enum Content {
    Nothing,
    Value,
    Case,
}

impl<'a> Decoder<'a> {
    /// A type of values: a primitive one, or an index.
    fn value_type(&mut self, scope: usize) -> Result<TypeId, DecodeError> {
        let offset = self.reader.position();
        let opcode = self.reader.peek()?;
        if let Some(ty) = primitive(opcode) {
            self.reader.byte()?;
            return Ok(ty);
        }
        let Some(index) = self.reader.index_or_opcode()? else {
            return error_at(ErrorKind::Opcode, offset);
        };
        let ty = found(
            self.scopes.type_at(scope, index as usize),
            ErrorKind::Index,
            offset,
        )?;
        self.test_sort(ty, TypeSort::Value, offset)?;
        Ok(ty)
    }

    /// A type of values, if one is given.
    fn optional_type(&mut self, scope: usize) -> Result<Option<TypeId>, DecodeError> {
        if self.reader.flag()? {
            Ok(Some(self.value_type(scope)?))
        } else {
            Ok(None)
        }
    }

    /// The type of a case, and a byte 0, where a case once was refined.
    fn case_type(&mut self, scope: usize) -> Result<Option<TypeId>, DecodeError> {
        let ty = self.optional_type(scope)?;
        let offset = self.reader.position();
        if self.reader.byte()? == 0 {
            Ok(ty)
        } else {
            error_at(ErrorKind::Opcode, offset)
        }
    }

    /// What follows the name of a part.
    fn content(&mut self, scope: usize, content: Content) -> Result<Option<TypeId>, DecodeError> {
        match content {
            Content::Nothing => Ok(None),
            Content::Value => Ok(Some(self.value_type(scope)?)),
            Content::Case => self.case_type(scope),
        }
    }

    /// The next part, whose name isn't among those that were there before.
    fn named_part(
        &mut self,
        scope: usize,
        content: Content,
        names: &mut IndexSet<NameId>,
    ) -> Result<(), DecodeError> {
        let offset = self.reader.position();
        let name = self.name()?;
        if !names.insert(name)? {
            return error_at(ErrorKind::DuplicateName, offset);
        }
        let ty = self.content(scope, content)?;
        self.table.add_part(Part {
            name: Some(name),
            ty,
        })?;
        Ok(())
    }

    /// Parts with names, no two of which are the same.
    fn named_parts(&mut self, scope: usize, content: Content) -> Result<Parts, DecodeError> {
        let count = self.reader.count()?;
        let first = self.table.part_count();
        let mut names = IndexSet::new(self.alloc);
        for _ in 0..count {
            self.named_part(scope, content, &mut names)?;
        }
        Ok(Parts {
            first,
            count: count as usize,
        })
    }

    /// The types of a tuple.
    fn members(&mut self, scope: usize) -> Result<Parts, DecodeError> {
        let count = self.reader.count()?;
        let first = self.table.part_count();
        for _ in 0..count {
            let ty = self.value_type(scope)?;
            self.table.add_part(Part {
                name: None,
                ty: Some(ty),
            })?;
        }
        Ok(Parts {
            first,
            count: count as usize,
        })
    }

    /// What a function returns: one type without a name, or nothing.
    pub(crate) fn result_list(&mut self, scope: usize) -> Result<Option<TypeId>, DecodeError> {
        let offset = self.reader.position();
        match self.reader.byte()? {
            0 => Ok(Some(self.value_type(scope)?)),
            1 => {
                let offset = self.reader.position();
                if self.reader.byte()? == 0 {
                    Ok(None)
                } else {
                    error_at(ErrorKind::Unsupported, offset)
                }
            }
            _ => error_at(ErrorKind::Opcode, offset),
        }
    }

    fn function_type(&mut self, scope: usize, is_async: bool) -> Result<TypeDef, DecodeError> {
        let params = self.named_parts(scope, Content::Value)?;
        let result = self.result_list(scope)?;
        Ok(TypeDef::Func(Func {
            params,
            result,
            is_async,
        }))
    }

    /// A type of values that consists of others, after its opcode.
    fn compound_type(
        &mut self,
        scope: usize,
        opcode: u8,
        offset: usize,
    ) -> Result<TypeDef, DecodeError> {
        match opcode {
            0x72 => Ok(TypeDef::Record(self.named_parts(scope, Content::Value)?)),
            0x71 => Ok(TypeDef::Variant(self.named_parts(scope, Content::Case)?)),
            0x6f => Ok(TypeDef::Tuple(self.members(scope)?)),
            0x6e => Ok(TypeDef::Flags(self.named_parts(scope, Content::Nothing)?)),
            0x6d => Ok(TypeDef::Enum(self.named_parts(scope, Content::Nothing)?)),
            0x40 => self.function_type(scope, false),
            0x43 => self.function_type(scope, true),
            _ => self.wrapped_type(scope, opcode, offset),
        }
    }

    /// A type of values with one or two others in it, after its opcode.
    fn wrapped_type(
        &mut self,
        scope: usize,
        opcode: u8,
        offset: usize,
    ) -> Result<TypeDef, DecodeError> {
        match opcode {
            0x70 => Ok(TypeDef::List(self.value_type(scope)?)),
            0x6b => Ok(TypeDef::Option(self.value_type(scope)?)),
            0x6a => {
                let ok = self.optional_type(scope)?;
                let err = self.optional_type(scope)?;
                Ok(TypeDef::Result(ok, err))
            }
            0x69 => Ok(TypeDef::Own(self.type_of_sort(scope, TypeSort::Resource)?)),
            0x68 => Ok(TypeDef::Borrow(self.type_of_sort(scope, TypeSort::Resource)?)),
            _ => self.later_type(scope, opcode, offset),
        }
    }

    /// The types that came later.
    fn later_type(
        &mut self,
        scope: usize,
        opcode: u8,
        offset: usize,
    ) -> Result<TypeDef, DecodeError> {
        match opcode {
            0x67 => {
                let ty = self.value_type(scope)?;
                let length = self.reader.number()?;
                Ok(TypeDef::FixedList(ty, length))
            }
            0x66 => Ok(TypeDef::Stream(self.optional_type(scope)?)),
            0x65 => Ok(TypeDef::Future(self.optional_type(scope)?)),
            0x63 => {
                let key = self.value_type(scope)?;
                let value = self.value_type(scope)?;
                Ok(TypeDef::Map(key, value))
            }
            _ => error_at(ErrorKind::Opcode, offset),
        }
    }

    /// A resource, after its opcode: its representation and its destructors.
    fn resource(&mut self, scope: usize, is_async: bool) -> Result<TypeId, DecodeError> {
        let offset = self.reader.position();
        if self.reader.byte()? != 0x7f {
            return error_at(ErrorKind::Opcode, offset);
        }
        if self.reader.flag()? {
            self.core_index(scope, CoreSort::Func)?;
        }
        if is_async && self.reader.flag()? {
            self.core_index(scope, CoreSort::Func)?;
        }
        Ok(self.table.add_type(TypeDef::Resource)?)
    }

    /// The type of an instance or a component, after its opcode: its body is read over to find its end, and the type
    /// is defined there.
    fn begin_body(&mut self, scope: usize, kind: BodyKind) -> Result<(), DecodeError> {
        let body = Body {
            kind,
            start: self.reader.position(),
            end: self.reader.end(),
            parent: Some((scope, self.scopes.lengths(scope))),
        };
        let number = self.add_body(body)?;
        let sequel = Sequel {
            next: Next::Define(number),
            resume: None,
        };
        self.begin(number, body, None, sequel)
    }

    /// Gives a type of values or of functions the next index.
    fn define_value(&mut self, scope: usize, opcode: u8, offset: usize) -> Result<(), DecodeError> {
        let ty = match primitive(opcode) {
            Some(ty) => ty,
            None => {
                let def = self.compound_type(scope, opcode, offset)?;
                self.add_type(def, offset)?
            }
        };
        self.scopes.put(scope, Item::Type(ty))?;
        Ok(())
    }

    /// The definition of a type, which gets the next index.
    pub(crate) fn define_type(&mut self, scope: usize) -> Result<(), DecodeError> {
        let offset = self.reader.position();
        let opcode = self.reader.byte()?;
        match opcode {
            0x41 => self.begin_body(scope, BodyKind::ComponentType),
            0x42 => self.begin_body(scope, BodyKind::InstanceType),
            0x3f => {
                let ty = self.resource(scope, false)?;
                self.scopes.put(scope, Item::Type(ty))?;
                Ok(())
            }
            0x3e => {
                let ty = self.resource(scope, true)?;
                self.scopes.put(scope, Item::Type(ty))?;
                Ok(())
            }
            _ => self.define_value(scope, opcode, offset),
        }
    }
}
