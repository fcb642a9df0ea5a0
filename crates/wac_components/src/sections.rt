//! The sections of a component.

use crate::decoder::Decoder;
use crate::frame::{Body, Frame, Task};
use wac_components_bytes::{DecodeError, ErrorKind, error_at};
use wac_components_types::{BodyKind, CoreSort, Item};

impl<'a> Decoder<'a> {
    /// Begins the next section, or ends the component.
    pub(crate) fn next_section(&mut self, frame: Frame) -> Result<(), DecodeError> {
        if self.reader.rest() == 0 {
            return self.finish(frame);
        }
        let offset = self.reader.position();
        let section = self.reader.byte()?;
        let size_offset = self.reader.position();
        let size = self.reader.number()? as usize;
        if size > self.reader.rest() {
            return error_at(ErrorKind::UnexpectedEnd, size_offset);
        }
        let start = self.reader.position();
        let end = start.saturating_add(size);
        self.reader.seek(start, end);
        match section {
            0 | 1 | 4 => {
                self.whole_section(frame, section, start, end)?;
                self.reader.seek(end, frame.end);
                self.frames.push(frame)?;
                Ok(())
            }
            2 | 3 | 5 | 6 | 7 | 8 | 10 | 11 => {
                let mut items = frame;
                items.left = self.reader.count()?;
                items.task = Task::Items(section);
                self.frames.push(items)?;
                Ok(())
            }
            9 | 12 => error_at(ErrorKind::Unsupported, offset),
            _ => error_at(ErrorKind::Section, offset),
        }
    }

    /// A section that isn't read any further: a custom one, a core module, a component.
    fn whole_section(
        &mut self,
        frame: Frame,
        section: u8,
        start: usize,
        end: usize,
    ) -> Result<(), DecodeError> {
        match section {
            0 => match self.reader.name() {
                Ok(_) => Ok(()),
                Err(error) => Err(error),
            },
            1 => {
                self.scopes.count_core(frame.scope, CoreSort::Module);
                Ok(())
            }
            _ => {
                self.preamble()?;
                let lengths = self.scopes.lengths(frame.scope);
                let number = self.add_body(Body {
                    kind: BodyKind::Component,
                    start,
                    end,
                    parent: Some((frame.scope, lengths)),
                })?;
                self.scopes.put(frame.scope, Item::Unevaluated(number))?;
                Ok(())
            }
        }
    }

    /// Ends a section, of which no byte may be left.
    pub(crate) fn end_section(&mut self, frame: Frame) -> Result<(), DecodeError> {
        let position = self.reader.position();
        if self.reader.rest() != 0 {
            return error_at(ErrorKind::SectionSize, position);
        }
        self.reader.seek(position, frame.end);
        let mut rest = frame;
        rest.task = Task::Sections;
        self.frames.push(rest)?;
        Ok(())
    }

    /// An item of a section.
    pub(crate) fn section_item(&mut self, frame: Frame, section: u8) -> Result<(), DecodeError> {
        match section {
            2 => self.core_instance(frame.scope),
            3 => {
                self.core_type(frame.scope)?;
                self.scopes.count_core(frame.scope, CoreSort::Type);
                Ok(())
            }
            5 => self.instance(frame),
            6 => self.alias(frame.scope),
            7 => self.define_type(frame.scope),
            8 => self.canon(frame.scope),
            10 => self.import(frame),
            _ => self.export(frame),
        }
    }
}
