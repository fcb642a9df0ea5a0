//! Types under a name.

use crate::conversion::ConversionError;
use crate::converter::Converter;
use wac_components_types::{Named, Owner, TypeDef, TypeId};
use wac_graph_types::{
    DefinedType, InterfaceId, ItemKind, Resource, ResourceAlias, Type, ValueType,
};

/// How many names a chain may have: the depth of types is limited to fewer.
const LONGEST_CHAIN: usize = 1000;

impl<'t> Converter<'t> {
    fn named(&self, ty: TypeId) -> Option<Named> {
        match self.table.ty(ty) {
            Some(entry) => match entry.def {
                TypeDef::Named(named) => Some(named),
                _ => None,
            },
            None => None,
        }
    }

    /// The first interface, converted and not this owner, that a type has a name in, and the type there.
    pub(crate) fn origin(&self, ty: TypeId, owner: Owner) -> Option<(InterfaceId, TypeId)> {
        let mut current = ty;
        let mut first = None;
        for _ in 0..LONGEST_CHAIN {
            let Some(named) = self.named(current) else {
                return first;
            };
            if named.owner != owner {
                if let Some(interface) = self.interface_of(named.owner) {
                    first = Some((interface, current));
                }
            }
            current = named.target;
        }
        first
    }

    /// The interface of an owner, if it is an instance with a name that is converted.
    fn interface_of(&self, owner: Owner) -> Option<InterfaceId> {
        let Owner::Instance(instance) = owner else {
            return None;
        };
        let found = self.table.instance(instance)?;
        if found.name.is_none() {
            return None;
        }
        self.interfaces.get(&instance.0).copied()
    }

    /// A resource that no name was given before.
    pub(crate) fn unnamed_resource(&mut self) -> Result<ItemKind, ConversionError> {
        let resource = Resource {
            name: String::new(self.alloc),
            alias: None,
        };
        let id = self.types.add_resource(resource)?;
        Ok(ItemKind::Ty(Type::Resource(id)))
    }

    /// The kind of a type under a name.
    pub(crate) fn named_kind(
        &mut self,
        ty: TypeId,
        named: Named,
    ) -> Result<ItemKind, ConversionError> {
        match named.body {
            Some(Owner::Instance(instance)) => self.known(self.interface_type(instance)),
            Some(Owner::Component(component)) => self.known(self.world_type(component)),
            None => match self.table.base_def(ty) {
                Some(TypeDef::Resource) => self.resource_kind(named),
                Some(TypeDef::Func(_)) => self.known(self.kind(named.target)),
                Some(_) => self.value_kind(named),
                None => Err(ConversionError::Unsupported),
            },
        }
    }

    fn known(&self, kind: Option<ItemKind>) -> Result<ItemKind, ConversionError> {
        match kind {
            Some(kind) => Ok(kind),
            None => Err(ConversionError::Unsupported),
        }
    }

    /// A resource by its first name, or an alias of one.
    fn resource_kind(&mut self, named: Named) -> Result<ItemKind, ConversionError> {
        if self.kind(named.target).is_none() {
            let name = self.text(named.name)?;
            let id = self.types.add_resource(Resource { name, alias: None })?;
            let kind = ItemKind::Ty(Type::Resource(id));
            self.kinds.insert(named.target.0, kind)?;
            return Ok(kind);
        }
        let alias = match self.origin(named.target, named.owner) {
            Some((interface, source)) => ResourceAlias {
                owner: Some(interface),
                source: self.resource(source)?,
            },
            None => ResourceAlias {
                owner: None,
                source: self.resource(named.target)?,
            },
        };
        let name = self.text(named.name)?;
        let id = self.types.add_resource(Resource {
            name,
            alias: Some(alias),
        })?;
        Ok(ItemKind::Ty(Type::Resource(id)))
    }

    /// A type of values under a name. One that is used of another interface, or declared by its shape, stays what it
    /// is; each other one is an alias.
    fn value_kind(&mut self, named: Named) -> Result<ItemKind, ConversionError> {
        let target = self.known(self.kind(named.target))?;
        if self.origin(named.target, named.owner).is_some() {
            return Ok(target);
        }
        let def = match self.table.ty(named.target) {
            Some(entry) => entry.def,
            None => return Err(ConversionError::Unsupported),
        };
        match def {
            TypeDef::Record(_) | TypeDef::Variant(_) | TypeDef::Flags(_) | TypeDef::Enum(_) => {
                Ok(target)
            }
            _ => match target {
                ItemKind::Ty(Type::Value(value)) => self.alias(value),
                _ => Err(ConversionError::Unsupported),
            },
        }
    }

    fn alias(&mut self, value: ValueType) -> Result<ItemKind, ConversionError> {
        self.add_defined(DefinedType::Alias(value))
    }
}
