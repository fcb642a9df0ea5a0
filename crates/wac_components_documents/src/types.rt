//! Types that an interface or a world declares.

use crate::fault::{Fault, Reason};
use crate::line::Line;
use crate::pieces::part_at;
use crate::scope::{Kind, View};
use wac_components_types::{BodyKind, NameId, Part, Parts, Table, TypeDef, TypeId};

/// How the parts of a type are written, each in a line.
#[derive(Clone, Copy)]
enum Style {
    /// A name and a type.
    Fields,
    /// A name, and perhaps a type in parentheses.
    Cases,
    Names,
}

/// The word of a type whose parts are lines, the parts, and how they are written.
fn rows_of(def: TypeDef) -> Option<(&'static str, Parts, Style)> {
    match def {
        TypeDef::Record(parts) => Some(("record", parts, Style::Fields)),
        TypeDef::Variant(parts) => Some(("variant", parts, Style::Cases)),
        TypeDef::Flags(parts) => Some(("flags", parts, Style::Names)),
        TypeDef::Enum(parts) => Some(("enum", parts, Style::Names)),
        _ => None,
    }
}

/// The word of a type that can't have a name.
fn unnamed(def: TypeDef) -> Option<&'static str> {
    match def {
        TypeDef::Own(_) => Some("own"),
        TypeDef::Func(_) => Some("func"),
        TypeDef::Body(BodyKind::InstanceType, _) => Some("instance"),
        TypeDef::Body(_, _) => Some("component"),
        _ => None,
    }
}

impl Line {
    /// Writes a type that is no resource.
    pub(crate) fn write_declared(
        &mut self,
        name: NameId,
        kind: Kind,
        view: View<'_>,
    ) -> Result<(), Fault> {
        match kind {
            Kind::Alias(other) => self.write_alias(name, other, view),
            Kind::Type(ty) => self.write_named(name, ty, view),
            _ => Err(Fault::Reason(Reason::NoName)),
        }
    }

    /// Writes a type that is another name of one of the scope.
    fn write_alias(&mut self, name: NameId, other: NameId, view: View<'_>) -> Result<(), Fault> {
        self.begin_alias(view.table, name)?;
        view.scope.test(other)?;
        self.push_name(view.table, other)?;
        self.push(";")
    }

    fn begin_alias(&mut self, table: &Table, name: NameId) -> Result<(), Fault> {
        self.push("type ")?;
        self.push_name(table, name)?;
        self.push(" = ")
    }

    fn write_named(&mut self, name: NameId, ty: TypeId, view: View<'_>) -> Result<(), Fault> {
        let Some(def) = view.table.base_def(ty) else {
            return Err(Fault::Reason(Reason::NoName));
        };
        match rows_of(def) {
            Some((word, parts, style)) => {
                self.begin_rows(view.table, word, name, parts)?;
                self.rows(parts, style, view)
            }
            None => self.write_other(name, def, view),
        }
    }

    /// Writes a type whose parts aren't lines.
    fn write_other(&mut self, name: NameId, def: TypeDef, view: View<'_>) -> Result<(), Fault> {
        if let Some(word) = unnamed(def) {
            return Err(Fault::Reason(Reason::UnderName(word)));
        }
        self.begin_alias(view.table, name)?;
        self.write_structure(def, view)?;
        self.push(";")
    }

    /// Writes the first line of a type whose parts are lines.
    fn begin_rows(
        &mut self,
        table: &Table,
        word: &'static str,
        name: NameId,
        parts: Parts,
    ) -> Result<(), Fault> {
        if parts.count == 0 {
            return Err(Fault::Reason(Reason::Empty(word)));
        }
        self.push(word)?;
        self.push(" ")?;
        self.push_name(table, name)?;
        self.push(" {\n")
    }

    fn rows(&mut self, parts: Parts, style: Style, view: View<'_>) -> Result<(), Fault> {
        for place in 0..parts.count {
            self.row_at(parts, place, style, view)?;
        }
        self.push_indent(0)?;
        self.push("}")
    }

    fn row_at(
        &mut self,
        parts: Parts,
        place: usize,
        style: Style,
        view: View<'_>,
    ) -> Result<(), Fault> {
        self.steps.take(1)?;
        self.push_indent(1)?;
        let part = part_at(view.table, parts, place)?;
        self.row(part, style, view)?;
        self.push(",\n")
    }

    fn row(&mut self, part: Part, style: Style, view: View<'_>) -> Result<(), Fault> {
        let Some(name) = part.name else {
            return Err(Fault::Reason(Reason::NoName));
        };
        self.push_name(view.table, name)?;
        match (style, part.ty) {
            (Style::Fields, Some(ty)) => self.enclosed(": ", ty, "", view),
            (Style::Cases, Some(ty)) => self.enclosed("(", ty, ")", view),
            (Style::Fields, None) => Err(Fault::Reason(Reason::NoName)),
            _ => Ok(()),
        }
    }

    /// Writes a type in use between two texts.
    fn enclosed(
        &mut self,
        before: &str,
        ty: TypeId,
        after: &str,
        view: View<'_>,
    ) -> Result<(), Fault> {
        self.push(before)?;
        self.write_type(ty, view)?;
        self.push(after)
    }
}
