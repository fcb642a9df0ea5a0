//! Instances: of components, and of items.

use crate::decoder::Decoder;
use crate::frame::{Binding, Frame, Next, Sequel, Task};
use crate::limits::BODY_WORK;
use indexmap::IndexMap;
use wac_components_bytes::{DecodeError, ErrorKind, error_at, found};
use wac_components_types::{Item, NameId, Sort};
use wac_graph_types::ExternKind;

impl<'a> Decoder<'a> {
    /// An instance, which gets the next index once it is evaluated.
    pub(crate) fn instance(&mut self, frame: Frame) -> Result<(), DecodeError> {
        let offset = self.reader.position();
        match self.reader.byte()? {
            0x00 => self.instantiate(frame.scope),
            0x01 => self.begin_exports(frame),
            _ => error_at(ErrorKind::Opcode, offset),
        }
    }

    /// An instance of a component, which is evaluated with arguments for its imports.
    fn instantiate(&mut self, scope: usize) -> Result<(), DecodeError> {
        let offset = self.reader.position();
        let body = match self.item_of_sort(scope, Sort::Component)? {
            Item::Unevaluated(body) => Some(body),
            Item::Component(component) => self.table.body_of(component),
            _ => None,
        };
        let body = found(body, ErrorKind::OtherKind, offset)?;
        let number = self.arguments.len();
        self.read_arguments(scope)?;
        self.enter(body, Next::Instantiate, Some(number))
    }

    /// The arguments of an instance.
    fn read_arguments(&mut self, scope: usize) -> Result<(), DecodeError> {
        let count = self.reader.count()?;
        let mut all = IndexMap::new(self.alloc);
        for _ in 0..count {
            self.read_argument(scope, &mut all)?;
        }
        self.arguments.push(all)?;
        Ok(())
    }

    /// The next argument, whose name isn't that of an earlier one.
    fn read_argument(
        &mut self,
        scope: usize,
        all: &mut IndexMap<NameId, Item>,
    ) -> Result<(), DecodeError> {
        let offset = self.reader.position();
        let name = self.name()?;
        if all.contains_key(&name) {
            return error_at(ErrorKind::DuplicateName, offset);
        }
        let item = self.item(scope)?;
        all.insert(name, item)?;
        Ok(())
    }

    /// Begins an instance made of items.
    fn begin_exports(&mut self, frame: Frame) -> Result<(), DecodeError> {
        let mut exports = frame;
        exports.left = self.reader.count()?;
        let offset = self.reader.position();
        self.reader.charge(BODY_WORK, offset)?;
        exports.task = Task::Exports;
        exports.instance = self.table.add_instance(self.alloc)?;
        exports.marks = false;
        exports.is_body = false;
        exports.sequel = Sequel {
            next: Next::Instantiate,
            resume: None,
        };
        self.frames.push(exports)?;
        Ok(())
    }

    /// An export of an instance made of items.
    pub(crate) fn instance_export(&mut self, frame: Frame) -> Result<(), DecodeError> {
        let offset = self.reader.position();
        let name = self.extern_name()?;
        let item = self.item(frame.scope)?;
        let binding = Binding {
            kind: ExternKind::Export,
            name,
            offset,
        };
        self.export_other(frame, binding, item)
    }

    /// A core instance, which is only counted.
    pub(crate) fn core_instance(&mut self, scope: usize) -> Result<(), DecodeError> {
        let offset = self.reader.position();
        match self.reader.byte()? {
            0x00 => self.core_arguments(scope)?,
            0x01 => self.core_exports(scope)?,
            _ => return error_at(ErrorKind::Opcode, offset),
        }
        self.scopes
            .count_core(scope, wac_components_types::CoreSort::Instance);
        Ok(())
    }
}
