//! Declarators, imports and exports.

use crate::decoder::Decoder;
use crate::frame::{Binding, Described, Frame, Next, Sequel, Shape, Task};
use wac_components_bytes::{DecodeError, ErrorKind, error_at, found};
use wac_components_types::{
    BodyKind, CoreSort, InstanceId, Item, NameId, Owner, Sort, TypeDef, TypeSort,
};
use wac_graph_types::ExternKind;

impl<'a> Decoder<'a> {
    /// An item by what it is described as. A type is named for the owner.
    fn described(
        &mut self,
        scope: usize,
        name: NameId,
        owner: Owner,
    ) -> Result<Described, DecodeError> {
        let offset = self.reader.position();
        match self.reader.byte()? {
            0x00 => self.described_module(scope),
            0x01 => {
                let ty = self.type_of_sort(scope, TypeSort::Func)?;
                Ok(Described::Item(Item::Func(self.table.base(ty))))
            }
            0x03 => self.described_type(scope, name, owner),
            0x04 => self.described_body(scope, TypeSort::Component, Shape::Component),
            0x05 => self.described_body(scope, TypeSort::Instance, Shape::Instance),
            0x02 => error_at(ErrorKind::Unsupported, offset),
            _ => error_at(ErrorKind::Opcode, offset),
        }
    }

    fn described_module(&mut self, scope: usize) -> Result<Described, DecodeError> {
        let offset = self.reader.position();
        if self.reader.byte()? != 0x11 {
            return error_at(ErrorKind::Opcode, offset);
        }
        self.core_index(scope, CoreSort::Type)?;
        Ok(Described::Item(Item::Module))
    }

    /// A type: another name of one, or a resource of its own.
    fn described_type(
        &mut self,
        scope: usize,
        name: NameId,
        owner: Owner,
    ) -> Result<Described, DecodeError> {
        let offset = self.reader.position();
        let ty = match self.reader.byte()? {
            0 => self.type_index(scope)?,
            1 => self.table.add_type(TypeDef::Resource)?,
            _ => return error_at(ErrorKind::Opcode, offset),
        };
        self.named(name, owner, ty, offset)
    }

    /// An instance or a component of a type, whose body is to be evaluated.
    fn described_body(
        &mut self,
        scope: usize,
        sort: TypeSort,
        shape: Shape,
    ) -> Result<Described, DecodeError> {
        let offset = self.reader.position();
        let ty = self.type_of_sort(scope, sort)?;
        match self.table.base_def(ty) {
            Some(TypeDef::Body(_, body)) => Ok(Described::Body(body, shape)),
            _ => error_at(ErrorKind::OtherKind, offset),
        }
    }

    /// What an item is described as, read over: its sort.
    fn skip_description(&mut self, scope: usize) -> Result<Sort, DecodeError> {
        let offset = self.reader.position();
        match self.reader.byte()? {
            0x00 => {
                self.reader.byte()?;
                self.reader.number()?;
                Ok(Sort::Module)
            }
            0x01 => {
                self.type_index(scope)?;
                Ok(Sort::Func)
            }
            0x03 => {
                if self.reader.byte()? == 0 {
                    self.type_index(scope)?;
                }
                Ok(Sort::Type)
            }
            0x04 => {
                self.type_index(scope)?;
                Ok(Sort::Component)
            }
            0x05 => {
                self.type_index(scope)?;
                Ok(Sort::Instance)
            }
            0x02 => error_at(ErrorKind::Unsupported, offset),
            _ => error_at(ErrorKind::Opcode, offset),
        }
    }

    /// An import: of its own, or the argument of its name.
    pub(crate) fn import(&mut self, frame: Frame) -> Result<(), DecodeError> {
        let offset = self.reader.position();
        let name = self.extern_name()?;
        let binding = Binding {
            kind: ExternKind::Import,
            name,
            offset,
        };
        match frame.arguments {
            None => {
                let owner = Owner::Component(frame.component);
                let described = self.described(frame.scope, name, owner)?;
                self.declare(frame, binding, described)
            }
            Some(arguments) => {
                let sort = self.skip_description(frame.scope)?;
                let item = self.argument(arguments, name, offset)?;
                if item.sort() == sort {
                    self.bind(frame, binding, item)
                } else {
                    error_at(ErrorKind::OtherKind, offset)
                }
            }
        }
    }

    /// The argument of a name.
    fn argument(&self, arguments: usize, name: NameId, offset: usize) -> Result<Item, DecodeError> {
        let item = match self.arguments.get(arguments) {
            Some(all) => all.get(&name).copied(),
            None => None,
        };
        found(item, ErrorKind::UnknownName, offset)
    }

    /// A declarator of the type of a component or an instance.
    pub(crate) fn declarator(&mut self, frame: Frame) -> Result<(), DecodeError> {
        let offset = self.reader.position();
        match self.reader.byte()? {
            0x00 => {
                self.core_type(frame.scope)?;
                self.scopes.count_core(frame.scope, CoreSort::Type);
                Ok(())
            }
            0x01 => self.define_type(frame.scope),
            0x02 => self.alias(frame.scope),
            0x03 if frame.kind == BodyKind::ComponentType => self.import(frame),
            0x04 => self.declared_export(frame),
            _ => error_at(ErrorKind::Opcode, offset),
        }
    }

    /// The export that a type declares.
    fn declared_export(&mut self, frame: Frame) -> Result<(), DecodeError> {
        let offset = self.reader.position();
        let name = self.extern_name()?;
        let owner = Owner::Instance(frame.instance);
        let described = self.described(frame.scope, name, owner)?;
        let binding = Binding {
            kind: ExternKind::Export,
            name,
            offset,
        };
        self.declare(frame, binding, described)
    }

    /// An export of a component: an item, perhaps under another type.
    pub(crate) fn export(&mut self, frame: Frame) -> Result<(), DecodeError> {
        let offset = self.reader.position();
        let name = self.extern_name()?;
        let item = self.item(frame.scope)?;
        let binding = Binding {
            kind: ExternKind::Export,
            name,
            offset,
        };
        let type_offset = self.reader.position();
        if !self.reader.flag()? {
            return self.export_item(frame, binding, item);
        }
        let owner = Owner::Instance(frame.instance);
        let described = self.described(frame.scope, name, owner)?;
        if described.sort() == item.sort() {
            self.declare(frame, binding, described)
        } else {
            error_at(ErrorKind::OtherKind, type_offset)
        }
    }

    /// An item that is exported as it is. A type gets a name of the exporter. An instance that has a name already is
    /// copied, and so are its types.
    fn export_item(
        &mut self,
        frame: Frame,
        binding: Binding,
        item: Item,
    ) -> Result<(), DecodeError> {
        match item {
            Item::Instance(source) => {
                if frame.marks && self.table.is_marked(source) {
                    self.begin_copy(frame, binding, source)
                } else {
                    self.bind(frame, binding, item)
                }
            }
            _ => self.export_other(frame, binding, item),
        }
    }

    /// An item that is exported as it is, by a component or by an instance made of items. A component is evaluated.
    pub(crate) fn export_other(
        &mut self,
        frame: Frame,
        binding: Binding,
        item: Item,
    ) -> Result<(), DecodeError> {
        match item {
            Item::Type(ty) => {
                let owner = Owner::Instance(frame.instance);
                let described = self.named(binding.name, owner, ty, binding.offset)?;
                self.declare(frame, binding, described)
            }
            Item::Unevaluated(body) => {
                self.enter(body, Next::Bind(binding, Shape::Component), None)
            }
            other => self.bind(frame, binding, other),
        }
    }

    /// Begins to copy an instance, to bind the copy.
    fn begin_copy(
        &mut self,
        frame: Frame,
        binding: Binding,
        source: InstanceId,
    ) -> Result<(), DecodeError> {
        let units = self.table.export_count(source) as u64;
        self.reader.charge(units, binding.offset)?;
        let instance = self.table.add_instance(self.alloc)?;
        let mut copy = frame;
        copy.task = Task::Copies(source, 0, binding.offset);
        copy.instance = instance;
        copy.marks = false;
        copy.is_body = false;
        copy.sequel = Sequel {
            next: Next::Bind(binding, Shape::Instance),
            resume: None,
        };
        self.frames.push(copy)?;
        Ok(())
    }
}
