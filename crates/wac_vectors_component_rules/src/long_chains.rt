//! Long chains of types that name one another: whether two of them fit, and where they differ at their far end, takes
//! memory and no stack.

use crate::building::{BYTE, CHAR, component, defined, func, instance, named};
use crate::tables::{package_of, reads, told};
use std::alloc::{AllocError, Global};
use std::process::Abort;
use std::test::Fail;
use wac_graph_types::{DefinedType, ItemKind, Resource, ResourceAlias, Type, Types, ValueType};

/// How many types a chain has. By a call within a call for each, comparing two chains took 13 MB of stack.
const LENGTH: usize = 20_000;

/// How each type of a chain names the one before.
#[derive(Clone, Copy)]
enum Link {
    List,
    Option,
    Result,
    Tuple,
    Record,
    Variant,
    Alias,
    Resource,
    Instance,
    InstanceType,
    Component,
}

/// How the types of a chain name one another, the step from each to the one before, and how the text ends that says where
/// a chain from `u8` doesn't fit one from `char`.
type Row = (Link, &'static str, &'static str);

const VALUE: &str = ": expected char, found u8";

const PARAMETER: &str = ", parameter `a`: expected char, found u8";

fn primitive(kind: ItemKind) -> ValueType {
    match kind {
        ItemKind::Value(value) => value,
        _ => BYTE,
    }
}

/// A resource that is another name of the one in a kind, or that has no source.
fn resource(
    alloc: Global,
    types: &mut Types,
    name: &str,
    of: ItemKind,
) -> Result<ItemKind, AllocError> {
    let alias = match of {
        ItemKind::Value(ValueType::Own(source)) => Some(ResourceAlias {
            owner: None,
            source,
        }),
        _ => None,
    };
    let name = String::from_str(alloc, name)?;
    let id = types.add_resource(Resource { name, alias })?;
    Ok(ItemKind::Value(ValueType::Own(id)))
}

/// A type of values that names another one.
fn linked_value(
    alloc: Global,
    types: &mut Types,
    link: Link,
    last: ValueType,
) -> Result<ItemKind, AllocError> {
    let ty = match link {
        Link::Option => DefinedType::Option(last),
        Link::Result => DefinedType::Result {
            ok: Some(last),
            err: None,
        },
        Link::Tuple => DefinedType::Tuple(vec![in alloc; BYTE, last]?),
        Link::Record => DefinedType::Record {
            fields: named(alloc, &[("a", last)])?,
        },
        Link::Variant => DefinedType::Variant {
            cases: named(alloc, &[("a", Some(last))])?,
        },
        Link::Alias => DefinedType::Alias(last),
        _ => DefinedType::List(last),
    };
    Ok(ItemKind::Value(defined(types, ty)?))
}

/// An instance that exports another one as a type.
fn linked_type(alloc: Global, types: &mut Types, last: ItemKind) -> Result<ItemKind, AllocError> {
    let exported = match last {
        ItemKind::Instance(id) => ItemKind::Ty(Type::Interface(id)),
        other => other,
    };
    instance(alloc, types, &[("a", exported)])
}

/// A kind that names another one.
fn linked(
    alloc: Global,
    types: &mut Types,
    link: Link,
    last: ItemKind,
) -> Result<ItemKind, AllocError> {
    match link {
        Link::Resource => resource(alloc, types, "t", last),
        Link::Instance => instance(alloc, types, &[("a", last)]),
        Link::InstanceType => linked_type(alloc, types, last),
        Link::Component => component(alloc, types, &[("a", last)], &[("b", last)]),
        _ => linked_value(alloc, types, link, primitive(last)),
    }
}

/// What a chain begins with: a type of values, a function that takes one, or a resource.
fn first(
    alloc: Global,
    types: &mut Types,
    link: Link,
    value: ValueType,
) -> Result<ItemKind, AllocError> {
    let name = if value == BYTE { "u8" } else { "char" };
    match link {
        Link::Resource => resource(alloc, types, name, ItemKind::Value(value)),
        Link::Instance => func(alloc, types, &[("a", value)]),
        Link::InstanceType => func(alloc, types, &[("a", value)]),
        Link::Component => func(alloc, types, &[("a", value)]),
        _ => Ok(ItemKind::Value(value)),
    }
}

fn chain(
    alloc: Global,
    types: &mut Types,
    link: Link,
    value: ValueType,
) -> Result<ItemKind, AllocError> {
    let mut last = first(alloc, types, link, value)?;
    for _ in 0..LENGTH {
        last = linked(alloc, types, link, last)?;
    }
    Ok(last)
}

/// The whole text that says where two chains differ.
fn difference(alloc: Global, step: &str, end: &str) -> Result<String, AllocError> {
    let mut text = String::new(alloc);
    if step.is_empty() {
        text.push_str(end)?;
        return Ok(text);
    }
    for at in 0..LENGTH {
        text.push_str(if at == 0 { "at " } else { ", " })?;
        text.push_str(step)?;
    }
    text.push_str(end)?;
    Ok(text)
}

/// Whether a row holds, of chains that fit and of chains that don't.
fn holds(alloc: Global, row: Row) -> Result<bool, AllocError> {
    let (link, step, end) = row;
    let mut types = Types::new(alloc);
    let bytes = chain(alloc, &mut types, link, BYTE)?;
    let others = chain(alloc, &mut types, link, BYTE)?;
    let chars = chain(alloc, &mut types, link, CHAR)?;
    match package_of(alloc, types, &[bytes, others, chars]) {
        Err(_) => Ok(false),
        Ok(package) => {
            let fitting = told(alloc, &package, "k0", "k1")?;
            let differing = told(alloc, &package, "k0", "k2")?;
            let wanted = difference(alloc, step, end)?;
            Ok(reads(&fitting, "") && reads(&differing, wanted.as_str()))
        }
    }
}

fn hold(rt: &impl Abort, alloc: Global, rows: &[Row]) -> Result<(), Fail> {
    for row in rows {
        let is_met = holds(alloc, *row)?;
        assert!(rt; is_met, "chains by {}{}", row.1, row.2);
    }
    Ok(())
}

static VALUES: &[Row] = &[
    (Link::List, "element", VALUE),
    (Link::Option, "element", VALUE),
    (Link::Result, "ok", VALUE),
    (Link::Tuple, "element 1", VALUE),
    (Link::Record, "field `a`", VALUE),
    (Link::Variant, "case `a`", VALUE),
    (Link::Alias, "", "expected char, found u8"),
];

#[test]
fn types_of_values(rt: HostRuntime) -> Result<(), Fail> {
    hold(&rt, rt.alloc(), VALUES)
}

static ITEMS: &[Row] = &[
    (Link::Resource, "", "expected own `char`, found own `u8`"),
    (Link::Instance, "export `a`", PARAMETER),
    (Link::InstanceType, "export `a`", PARAMETER),
    (Link::Component, "import `a`", PARAMETER),
];

#[test]
fn resources_instances_and_components(rt: HostRuntime) -> Result<(), Fail> {
    hold(&rt, rt.alloc(), ITEMS)
}
