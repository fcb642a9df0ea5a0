//! Types of values and of functions.

use crate::conversion::ConversionError;
use crate::converter::Converter;
use indexmap::{IndexMap, IndexSet};
use wac_components_types::{Func, Part, Parts, TypeDef, TypeId};
use wac_graph_types::{DefinedType, FuncResults, FuncType, ItemKind, ResourceId, Type, ValueType};

impl<'t> Converter<'t> {
    /// Converts a type, of which all that it names is converted.
    pub(crate) fn convert_type(&mut self, ty: TypeId) -> Result<(), ConversionError> {
        if self.kinds.contains_key(&ty.0) {
            return Ok(());
        }
        let Some(entry) = self.table.ty(ty) else {
            return Err(ConversionError::Unsupported);
        };
        let kind = self.kind_of(ty, entry.def)?;
        self.kinds.insert(ty.0, kind)?;
        Ok(())
    }

    /// The kind of a type, of which all that it names is converted.
    fn kind_of(&mut self, ty: TypeId, def: TypeDef) -> Result<ItemKind, ConversionError> {
        match def {
            TypeDef::Named(named) => self.named_kind(ty, named),
            TypeDef::Primitive(primitive) => {
                Ok(ItemKind::Ty(Type::Value(ValueType::Primitive(primitive))))
            }
            TypeDef::Resource => self.unnamed_resource(),
            TypeDef::Func(func) => self.func_kind(func),
            TypeDef::Own(resource) => self.own_kind(resource),
            TypeDef::Borrow(resource) => self.borrow_kind(resource),
            other => self.defined_kind(other),
        }
    }

    /// The kind of owned handles of a resource.
    fn own_kind(&self, resource: TypeId) -> Result<ItemKind, ConversionError> {
        let resource = self.resource(resource)?;
        Ok(ItemKind::Ty(Type::Value(ValueType::Own(resource))))
    }

    /// The kind of borrowed handles of a resource.
    fn borrow_kind(&self, resource: TypeId) -> Result<ItemKind, ConversionError> {
        let resource = self.resource(resource)?;
        Ok(ItemKind::Ty(Type::Value(ValueType::Borrow(resource))))
    }

    /// A converted resource.
    pub(crate) fn resource(&self, ty: TypeId) -> Result<ResourceId, ConversionError> {
        match self.kind(ty) {
            Some(ItemKind::Ty(Type::Resource(resource))) => Ok(resource),
            _ => Err(ConversionError::Unsupported),
        }
    }

    fn optional(&self, ty: Option<TypeId>) -> Result<Option<ValueType>, ConversionError> {
        match ty {
            Some(ty) => Ok(Some(self.value(ty)?)),
            None => Ok(None),
        }
    }

    fn defined_kind(&mut self, def: TypeDef) -> Result<ItemKind, ConversionError> {
        let defined = match def {
            TypeDef::Record(parts) => DefinedType::Record {
                fields: self.fields(parts)?,
            },
            TypeDef::Variant(parts) => DefinedType::Variant {
                cases: self.cases(parts)?,
            },
            TypeDef::Tuple(parts) => DefinedType::Tuple(self.members(parts)?),
            TypeDef::Flags(parts) => DefinedType::Flags(self.labels(parts)?),
            TypeDef::Enum(parts) => DefinedType::Enum(self.labels(parts)?),
            other => self.wrapped(other)?,
        };
        self.add_defined(defined)
    }

    pub(crate) fn add_defined(
        &mut self,
        defined: DefinedType,
    ) -> Result<ItemKind, ConversionError> {
        let id = self.types.add_defined_type(defined)?;
        Ok(ItemKind::Ty(Type::Value(ValueType::Defined(id))))
    }

    fn wrapped(&self, def: TypeDef) -> Result<DefinedType, ConversionError> {
        match def {
            TypeDef::List(ty) => Ok(DefinedType::List(self.value(ty)?)),
            TypeDef::Option(ty) => Ok(DefinedType::Option(self.value(ty)?)),
            TypeDef::Stream(ty) => Ok(DefinedType::Stream(self.optional(ty)?)),
            TypeDef::Future(ty) => Ok(DefinedType::Future(self.optional(ty)?)),
            TypeDef::Result(ok, err) => Ok(DefinedType::Result {
                ok: self.optional(ok)?,
                err: self.optional(err)?,
            }),
            _ => Err(ConversionError::Unsupported),
        }
    }

    fn part(&self, parts: Parts, place: usize) -> Result<Part, ConversionError> {
        match self.table.part(parts.first.saturating_add(place)) {
            Some(part) => Ok(part),
            None => Err(ConversionError::Unsupported),
        }
    }

    /// The name of a part, copied.
    fn part_name(&mut self, part: Part) -> Result<String, ConversionError> {
        match part.name {
            Some(name) => self.text(name),
            None => Err(ConversionError::Unsupported),
        }
    }

    fn part_type(&self, part: Part) -> Result<ValueType, ConversionError> {
        match part.ty {
            Some(ty) => self.value(ty),
            None => Err(ConversionError::Unsupported),
        }
    }

    /// A field of a record, or a parameter.
    fn field(
        &mut self,
        parts: Parts,
        place: usize,
    ) -> Result<(String, ValueType), ConversionError> {
        let part = self.part(parts, place)?;
        let ty = self.part_type(part)?;
        let name = self.part_name(part)?;
        Ok((name, ty))
    }

    fn fields(&mut self, parts: Parts) -> Result<IndexMap<String, ValueType>, ConversionError> {
        let mut all = IndexMap::new(self.alloc);
        for place in 0..parts.count {
            let (name, ty) = self.field(parts, place)?;
            all.insert(name, ty)?;
        }
        Ok(all)
    }

    /// A case of a variant.
    fn case(
        &mut self,
        parts: Parts,
        place: usize,
    ) -> Result<(String, Option<ValueType>), ConversionError> {
        let part = self.part(parts, place)?;
        let ty = self.optional(part.ty)?;
        let name = self.part_name(part)?;
        Ok((name, ty))
    }

    fn cases(
        &mut self,
        parts: Parts,
    ) -> Result<IndexMap<String, Option<ValueType>>, ConversionError> {
        let mut all = IndexMap::new(self.alloc);
        for place in 0..parts.count {
            let (name, ty) = self.case(parts, place)?;
            all.insert(name, ty)?;
        }
        Ok(all)
    }

    fn labels(&mut self, parts: Parts) -> Result<IndexSet<String>, ConversionError> {
        let mut all = IndexSet::new(self.alloc);
        for place in 0..parts.count {
            let part = self.part(parts, place)?;
            let name = self.part_name(part)?;
            all.insert(name)?;
        }
        Ok(all)
    }

    fn members(&self, parts: Parts) -> Result<Vec<ValueType>, ConversionError> {
        let mut all = Vec::new(self.alloc);
        for place in 0..parts.count {
            let part = self.part(parts, place)?;
            all.push(self.part_type(part)?)?;
        }
        Ok(all)
    }

    fn func_kind(&mut self, func: Func) -> Result<ItemKind, ConversionError> {
        let results = match self.optional(func.result)? {
            Some(ty) => FuncResults::Scalar(ty),
            None => FuncResults::None,
        };
        let params = self.fields(func.params)?;
        let id = self.types.add_func_type(FuncType {
            params,
            results,
            is_async: func.is_async,
        })?;
        Ok(ItemKind::Ty(Type::Func(id)))
    }
}
