//! Bodies, evaluated step by step.

use crate::decoder::Decoder;
use crate::frame::{Binding, Body, Described, Frame, Next, Sequel, Shape, Task};
use crate::limits::BODY_WORK;
use wac_components_bytes::{DecodeError, ErrorKind, error_at, found};
use wac_components_types::{
    BodyKind, ComponentId, InstanceId, Item, NameId, Named, Owner, TypeDef, TypeId,
};
use wac_graph_types::ExternKind;

impl<'a> Decoder<'a> {
    /// Adds a body, and returns its number.
    pub(crate) fn add_body(&mut self, body: Body) -> Result<usize, DecodeError> {
        let number = self.bodies.len();
        self.bodies.push(body)?;
        Ok(number)
    }

    /// Begins to evaluate a body, from the place where the reader is.
    pub(crate) fn begin(
        &mut self,
        number: usize,
        body: Body,
        arguments: Option<usize>,
        sequel: Sequel,
    ) -> Result<(), DecodeError> {
        if body.kind == BodyKind::Component {
            self.preamble()?;
        }
        let scope = self.scopes.open(self.alloc, body.parent)?;
        let offset = self.reader.position();
        if self.nesting >= self.limits.depth {
            return error_at(ErrorKind::Depth, offset);
        }
        self.reader.charge(BODY_WORK, offset)?;
        self.nesting = self.nesting.saturating_add(1);
        let left = if body.kind == BodyKind::Component {
            0
        } else {
            self.reader.count()?
        };
        let instance = self.table.add_instance(self.alloc)?;
        let component = self.table.add_component(self.alloc, instance, number)?;
        self.frames.push(Frame {
            task: if body.kind == BodyKind::Component {
                Task::Sections
            } else {
                Task::Declarators
            },
            left,
            kind: body.kind,
            scope,
            component,
            instance,
            end: body.end,
            arguments,
            marks: body.kind != BodyKind::InstanceType && arguments.is_none(),
            is_body: true,
            sequel,
        })?;
        Ok(())
    }

    /// Begins to evaluate the body of a number, wherever it is.
    pub(crate) fn enter(
        &mut self,
        number: usize,
        next: Next,
        arguments: Option<usize>,
    ) -> Result<(), DecodeError> {
        let position = self.reader.position();
        let end = self.reader.end();
        let body = found(
            self.bodies.get(number).copied(),
            ErrorKind::OtherKind,
            position,
        )?;
        self.reader.seek(body.start, body.end);
        let resume = Some((position, end));
        self.begin(number, body, arguments, Sequel { next, resume })
    }

    /// Binds a name of a body, or of an instance made of items, to an item.
    pub(crate) fn bind(
        &mut self,
        frame: Frame,
        binding: Binding,
        item: Item,
    ) -> Result<(), DecodeError> {
        let owner = frame.owner(binding.kind);
        if self.table.has(owner, binding.name) {
            return error_at(ErrorKind::DuplicateName, binding.offset);
        }
        self.table.bind(owner, binding.name, item)?;
        if item != Item::Module {
            let (size, depth) = self.table.item_extent(item);
            self.table.grow(owner, size, depth.saturating_add(1));
            let (size, depth) = self.table.owner_extent(owner);
            self.test_extent(size, depth, binding.offset)?;
        }
        if let Item::Instance(instance) = item {
            if frame.marks {
                self.table.mark(instance, binding.kind, binding.name);
            }
        }
        if frame.is_body {
            self.scopes.put(frame.scope, item)?;
        }
        Ok(())
    }

    /// Binds a name to what is declared, once its body is evaluated if it has one.
    pub(crate) fn declare(
        &mut self,
        frame: Frame,
        binding: Binding,
        described: Described,
    ) -> Result<(), DecodeError> {
        match described {
            Described::Item(item) => self.bind(frame, binding, item),
            Described::Body(body, shape) => self.enter(body, Next::Bind(binding, shape), None),
        }
    }

    /// A type under a name of an owner, declared at an offset.
    pub(crate) fn named(
        &mut self,
        name: NameId,
        owner: Owner,
        target: TypeId,
        offset: usize,
    ) -> Result<Described, DecodeError> {
        let named = Named {
            name,
            owner,
            target,
            body: None,
        };
        match self.table.base_def(target) {
            Some(TypeDef::Body(_, body)) => {
                Ok(Described::Body(body, Shape::Type(named, offset)))
            }
            _ => {
                let ty = self.add_type(TypeDef::Named(named), offset)?;
                Ok(Described::Item(Item::Type(ty)))
            }
        }
    }

    /// The item of a shape whose body is evaluated.
    fn shaped(
        &mut self,
        shape: Shape,
        kind: BodyKind,
        component: ComponentId,
        instance: InstanceId,
    ) -> Result<Item, DecodeError> {
        match shape {
            Shape::Instance => Ok(Item::Instance(instance)),
            Shape::Component => Ok(Item::Component(component)),
            Shape::Type(named, offset) => {
                let body = match kind {
                    BodyKind::InstanceType => Owner::Instance(instance),
                    _ => Owner::Component(component),
                };
                let ty = self.add_type(
                    TypeDef::Named(Named {
                        name: named.name,
                        owner: named.owner,
                        target: named.target,
                        body: Some(body),
                    }),
                    offset,
                )?;
                Ok(Item::Type(ty))
            }
        }
    }

    /// Defines the type whose body was read over.
    fn define(&mut self, frame: Frame, number: usize) -> Result<(), DecodeError> {
        let end = self.reader.position();
        if let Some(body) = self.bodies.get_mut(number) {
            body.end = end;
        }
        let ty = self.table.add_type(TypeDef::Body(frame.kind, number))?;
        if let Some(outer) = self.frames.last().copied() {
            self.scopes.put(outer.scope, Item::Type(ty))?;
        }
        Ok(())
    }

    /// Does what is next with what a frame evaluated, which is no frame any more.
    fn deliver(&mut self, frame: Frame) -> Result<(), DecodeError> {
        match frame.sequel.next {
            Next::End => {
                self.root = Some(frame.component);
                Ok(())
            }
            Next::Define(number) => self.define(frame, number),
            Next::Instantiate => {
                if let Some(outer) = self.frames.last().copied() {
                    self.scopes
                        .put(outer.scope, Item::Instance(frame.instance))?;
                }
                Ok(())
            }
            Next::Bind(binding, shape) => {
                let item = self.shaped(shape, frame.kind, frame.component, frame.instance)?;
                match self.frames.last().copied() {
                    Some(outer) => self.bind(outer, binding, item),
                    None => Ok(()),
                }
            }
        }
    }

    /// Ends a frame, which is no frame any more.
    pub(crate) fn finish(&mut self, frame: Frame) -> Result<(), DecodeError> {
        if frame.is_body {
            self.nesting = self.nesting.saturating_sub(1);
            if frame.kind != BodyKind::InstanceType {
                self.close(frame.component, frame.instance)?;
            }
        }
        if let Some((position, end)) = frame.sequel.resume {
            self.reader.seek(position, end);
        }
        self.deliver(frame)
    }

    /// Counts to a component what its instances export.
    fn close(&mut self, component: ComponentId, instance: InstanceId) -> Result<(), DecodeError> {
        let owner = Owner::Component(component);
        let (size, depth) = self.table.owner_extent(Owner::Instance(instance));
        self.table.grow(owner, size, depth.saturating_add(1));
        let (size, depth) = self.table.owner_extent(owner);
        self.test_extent(size, depth, self.reader.position())
    }

    /// The frame with one item less.
    fn next_item(&mut self, frame: Frame) -> Result<(), DecodeError> {
        let mut rest = frame;
        rest.left = frame.left.saturating_sub(1);
        self.frames.push(rest)?;
        match frame.task {
            Task::Items(section) => self.section_item(frame, section),
            Task::Exports => self.instance_export(frame),
            _ => self.declarator(frame),
        }
    }

    /// Copies the next export of an instance.
    fn next_copy(
        &mut self,
        frame: Frame,
        source: InstanceId,
        place: usize,
        offset: usize,
    ) -> Result<(), DecodeError> {
        let Some((name, item)) = self.table.export_at(source, place) else {
            return self.finish(frame);
        };
        let length = self.table.name(name).len() as u64;
        self.reader.charge(length, offset)?;
        let mut rest = frame;
        rest.task = Task::Copies(source, place.saturating_add(1), offset);
        self.frames.push(rest)?;
        let described = match item {
            Item::Type(ty) => self.named(name, Owner::Instance(frame.instance), ty, offset)?,
            other => Described::Item(other),
        };
        let binding = Binding {
            kind: ExternKind::Export,
            name,
            offset,
        };
        self.declare(frame, binding, described)
    }

    /// Goes on with a frame, which is taken from the frames.
    fn step(&mut self, frame: Frame) -> Result<(), DecodeError> {
        match frame.task {
            Task::Sections => self.next_section(frame),
            Task::Copies(source, place, offset) => self.next_copy(frame, source, place, offset),
            Task::Items(_) => {
                if frame.left == 0 {
                    self.end_section(frame)
                } else {
                    self.next_item(frame)
                }
            }
            _ => {
                if frame.left == 0 {
                    self.finish(frame)
                } else {
                    self.next_item(frame)
                }
            }
        }
    }

    /// Evaluates all frames, in at most as many steps as there is work.
    pub(crate) fn run(&mut self) -> Result<(), DecodeError> {
        for _ in 0..self.limits.work {
            match self.frames.pop() {
                None => return Ok(()),
                Some(frame) => self.step(frame)?,
            }
        }
        error_at(ErrorKind::Work, self.reader.position())
    }
}
