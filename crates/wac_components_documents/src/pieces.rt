//! Types in use, and functions.

use crate::fault::{Fault, Reason};
use crate::line::Line;
use crate::scope::View;
use wac_components_types::{Func, NameId, Part, Parts, Table, TypeDef, TypeId, origin_of};
use wac_graph_types::PrimitiveType;

/// What is to be written of a type.
#[derive(Clone, Copy)]
pub(crate) enum Piece {
    Text(&'static str),
    /// A type in use.
    Use(TypeId),
    /// A resource, which has to have a name.
    Handle(TypeId),
    /// The types of the parts from that place on.
    Types(Parts, usize),
    /// The names and the types of the parts from that place on.
    Pairs(Parts, usize),
}

fn primitive_name(primitive: PrimitiveType) -> &'static str {
    match primitive {
        PrimitiveType::U8 => "u8",
        PrimitiveType::S8 => "s8",
        PrimitiveType::U16 => "u16",
        PrimitiveType::S16 => "s16",
        PrimitiveType::U32 => "u32",
        PrimitiveType::S32 => "s32",
        PrimitiveType::U64 => "u64",
        PrimitiveType::S64 => "s64",
        PrimitiveType::F32 => "f32",
        PrimitiveType::F64 => "f64",
        PrimitiveType::Char => "char",
        PrimitiveType::Bool => "bool",
        PrimitiveType::String => "string",
        PrimitiveType::ErrorContext => "error-context",
    }
}

/// The word of a type that can't be written without a name.
fn word_of(def: TypeDef) -> &'static str {
    match def {
        TypeDef::Record(_) => "record",
        TypeDef::Variant(_) => "variant",
        TypeDef::Flags(_) => "flags",
        TypeDef::Enum(_) => "enum",
        TypeDef::Tuple(_) => "tuple",
        TypeDef::FixedList(_, _) => "fixed-list",
        TypeDef::Map(_, _) => "map",
        TypeDef::Resource => "resource",
        _ => "type",
    }
}

/// How a type in use is written.
#[derive(Clone, Copy)]
enum Use {
    Word(&'static str),
    Name(NameId),
    /// By its structure.
    Structure(TypeDef),
}

/// The word of a primitive type, if a type is one.
fn primitive_at(table: &Table, ty: TypeId) -> Option<&'static str> {
    match table.ty(ty)?.def {
        TypeDef::Primitive(primitive) => Some(primitive_name(primitive)),
        _ => None,
    }
}

/// How a type without a name is written.
fn unnamed_use(table: &Table, ty: TypeId) -> Result<Use, Fault> {
    match (origin_of(table, ty, None), table.base_def(ty)) {
        (None, Some(def)) => Ok(Use::Structure(def)),
        _ => Err(Fault::Reason(Reason::NoName)),
    }
}

/// How a type in use is written: by its name, else by its structure.
fn use_of(view: View<'_>, ty: TypeId) -> Result<Use, Fault> {
    if let Some(word) = primitive_at(view.table, ty) {
        return Ok(Use::Word(word));
    }
    match view.name_of(ty) {
        Some(name) => match view.scope.test(name) {
            Ok(()) => Ok(Use::Name(name)),
            Err(fault) => Err(fault),
        },
        None => unnamed_use(view.table, ty),
    }
}

/// The name of a resource that is written.
fn handle_name(view: View<'_>, ty: TypeId) -> Result<NameId, Fault> {
    match view.name_of(ty) {
        None => Err(Fault::Reason(Reason::NoName)),
        Some(name) => match view.scope.test(name) {
            Ok(()) => Ok(name),
            Err(fault) => Err(fault),
        },
    }
}

/// The part of a type at a place.
pub(crate) fn part_at(table: &Table, parts: Parts, place: usize) -> Result<Part, Fault> {
    match table.part(parts.first.saturating_add(place)) {
        Some(part) => Ok(part),
        None => Err(Fault::Reason(Reason::NoName)),
    }
}

/// The name and the type of a part that has both.
fn pair_at(table: &Table, parts: Parts, place: usize) -> Result<(NameId, TypeId), Fault> {
    match table.part(parts.first.saturating_add(place)) {
        Some(
            Part {
                name: Some(name),
                ty: Some(ty),
            },
        ) => Ok((name, ty)),
        _ => Err(Fault::Reason(Reason::NoName)),
    }
}

/// The function of a type.
pub(crate) fn func_of(table: &Table, ty: TypeId) -> Result<Func, Fault> {
    match table.base_def(ty) {
        Some(TypeDef::Func(func)) => Ok(func),
        _ => Err(Fault::Reason(Reason::NoName)),
    }
}

impl Line {
    /// Writes a text now, and these pieces next, in order.
    fn text_then(&mut self, text: &str, pieces: &[Piece]) -> Result<(), Fault> {
        self.push(text)?;
        for piece in pieces.iter().rev() {
            self.pieces.push(*piece)?;
        }
        Ok(())
    }

    /// Writes the pieces that are left.
    fn write_pieces(&mut self, view: View<'_>) -> Result<(), Fault> {
        for _ in 0..self.steps.left() {
            match self.pieces.pop() {
                None => return Ok(()),
                Some(piece) => self.piece(piece, view)?,
            }
        }
        Err(Fault::TooLarge)
    }

    fn piece(&mut self, piece: Piece, view: View<'_>) -> Result<(), Fault> {
        self.steps.take(1)?;
        match piece {
            Piece::Text(text) => self.push(text),
            Piece::Use(ty) => self.used_type(ty, view),
            Piece::Handle(ty) => self.handle(ty, view),
            Piece::Types(parts, place) => self.types_of(view.table, parts, place),
            Piece::Pairs(parts, place) => self.pairs_of(view.table, parts, place),
        }
    }

    /// A type in use.
    fn used_type(&mut self, ty: TypeId, view: View<'_>) -> Result<(), Fault> {
        match use_of(view, ty) {
            Err(fault) => Err(fault),
            Ok(Use::Word(word)) => self.push(word),
            Ok(Use::Name(name)) => self.push_name(view.table, name),
            Ok(Use::Structure(def)) => self.structure(def),
        }
    }

    /// A resource, by its name.
    fn handle(&mut self, ty: TypeId, view: View<'_>) -> Result<(), Fault> {
        match handle_name(view, ty) {
            Err(fault) => Err(fault),
            Ok(name) => self.push_name(view.table, name),
        }
    }

    /// A type by its structure.
    fn structure(&mut self, def: TypeDef) -> Result<(), Fault> {
        match def {
            TypeDef::Primitive(primitive) => self.push(primitive_name(primitive)),
            TypeDef::Own(ty) => self.text_then("", &[Piece::Handle(ty)]),
            TypeDef::Borrow(ty) => {
                self.text_then("borrow<", &[Piece::Handle(ty), Piece::Text(">")])
            }
            TypeDef::List(ty) => self.wrapped("list", Some(ty)),
            TypeDef::Option(ty) => self.wrapped("option", Some(ty)),
            TypeDef::Stream(ty) => self.wrapped("stream", ty),
            TypeDef::Future(ty) => self.wrapped("future", ty),
            other => self.structure_of_more(other),
        }
    }

    fn structure_of_more(&mut self, def: TypeDef) -> Result<(), Fault> {
        match def {
            TypeDef::Result(ok, None) => self.wrapped("result", ok),
            TypeDef::Result(None, Some(err)) => {
                self.text_then("result<_, ", &[Piece::Use(err), Piece::Text(">")])
            }
            TypeDef::Result(Some(ok), Some(err)) => self.text_then(
                "result<",
                &[
                    Piece::Use(ok),
                    Piece::Text(", "),
                    Piece::Use(err),
                    Piece::Text(">"),
                ],
            ),
            TypeDef::Tuple(parts) if parts.count > 0 => self.text_then(
                "tuple<",
                &[Piece::Types(parts, 0), Piece::Text(">")],
            ),
            other => Err(Fault::Reason(Reason::Here(word_of(other)))),
        }
    }

    /// A word, and the type in it if there is one.
    fn wrapped(&mut self, word: &str, ty: Option<TypeId>) -> Result<(), Fault> {
        self.push(word)?;
        match ty {
            Some(ty) => self.text_then("<", &[Piece::Use(ty), Piece::Text(">")]),
            None => Ok(()),
        }
    }

    fn types_of(&mut self, table: &Table, parts: Parts, place: usize) -> Result<(), Fault> {
        if place >= parts.count {
            return Ok(());
        }
        let next = Piece::Types(parts, place.saturating_add(1));
        match part_at(table, parts, place)?.ty {
            Some(ty) => self.text_then(if place == 0 { "" } else { ", " }, &[Piece::Use(ty), next]),
            None => Err(Fault::Reason(Reason::NoName)),
        }
    }

    fn pairs_of(&mut self, table: &Table, parts: Parts, place: usize) -> Result<(), Fault> {
        if place >= parts.count {
            return Ok(());
        }
        let (name, ty) = pair_at(table, parts, place)?;
        self.push_name(table, name)?;
        let next = Piece::Pairs(parts, place.saturating_add(1));
        let after = if place.saturating_add(1) < parts.count {
            ", "
        } else {
            ""
        };
        self.text_then(": ", &[Piece::Use(ty), Piece::Text(after), next])
    }

    /// Writes a type by its structure.
    pub(crate) fn write_structure(&mut self, def: TypeDef, view: View<'_>) -> Result<(), Fault> {
        self.structure(def)?;
        self.write_pieces(view)
    }

    /// Writes a type in use.
    pub(crate) fn write_type(&mut self, ty: TypeId, view: View<'_>) -> Result<(), Fault> {
        self.pieces.push(Piece::Use(ty))?;
        self.write_pieces(view)
    }

    /// Writes the parameters from a place on, in parentheses.
    pub(crate) fn write_params(
        &mut self,
        func: Func,
        first: usize,
        view: View<'_>,
    ) -> Result<(), Fault> {
        let params = Piece::Pairs(func.params, first);
        self.text_then("(", &[params, Piece::Text(")")])?;
        self.write_pieces(view)
    }

    /// Writes the type of a function, whose parameters are those from a place on.
    pub(crate) fn write_func(
        &mut self,
        func: Func,
        first: usize,
        view: View<'_>,
    ) -> Result<(), Fault> {
        self.push(if func.is_async { "async func" } else { "func" })?;
        self.write_params(func, first, view)?;
        match func.result {
            Some(ty) => {
                self.push(" -> ")?;
                self.write_type(ty, view)
            }
            None => Ok(()),
        }
    }
}
