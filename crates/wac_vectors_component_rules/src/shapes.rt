//! Which types are made in the same way, whatever their parts are.

use indexmap::{IndexMap, IndexSet};
use std::alloc::{AllocError, Global};
use std::test::Fail;
use wac_graph_types::{DefinedType, PrimitiveType, ValueType};

/// How many ways there are to make a type.
const WAYS: usize = 11;

/// A type that is made in one of the ways of some value.
fn made(alloc: Global, way: usize, value: ValueType) -> Result<DefinedType, AllocError> {
    Ok(match way {
        0 => DefinedType::Tuple(vec![in alloc; value]?),
        1 => DefinedType::List(value),
        2 => DefinedType::Option(value),
        3 => DefinedType::Result {
            ok: Some(value),
            err: None,
        },
        4 => DefinedType::Variant {
            cases: IndexMap::new(alloc),
        },
        5 => DefinedType::Record {
            fields: IndexMap::new(alloc),
        },
        6 => DefinedType::Flags(IndexSet::new(alloc)),
        7 => DefinedType::Enum(IndexSet::new(alloc)),
        8 => DefinedType::Alias(value),
        9 => DefinedType::Stream(Some(value)),
        _ => DefinedType::Future(Some(value)),
    })
}

/// Whether a type is of the shape of another one exactly where both are made in this way.
fn is_told_apart(alloc: Global, way: usize) -> Result<bool, AllocError> {
    for other in 0..WAYS {
        let bytes = made(alloc, way, ValueType::Primitive(PrimitiveType::U8))?;
        let chars = made(alloc, other, ValueType::Primitive(PrimitiveType::Char))?;
        if bytes.same_shape(&chars) != (way == other) {
            return Ok(false);
        }
    }
    Ok(true)
}

#[test]
fn shapes_are_told_apart(rt: HostRuntime) -> Result<(), Fail> {
    for way in 0..WAYS {
        let apart = is_told_apart(rt.alloc(), way)?;
        assert!(rt; apart, "{way} is taken for another way");
    }
    Ok(())
}
