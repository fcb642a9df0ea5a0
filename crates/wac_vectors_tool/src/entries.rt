//! Tables as texts: each entry with what it names, `0` for an entry's number and `-` for a type that is left out.

use indexmap::{IndexMap, IndexSet};
use std::alloc::{AllocError, Global};
use wac_graph::{DefinedType, Entry, FuncResults, FuncType, Resource, Types, ValueType};

fn push_value(text: &mut String, value: ValueType) -> Result<(), AllocError> {
    match value {
        ValueType::Primitive(primitive) => write!(text, " {primitive:?}"),
        ValueType::Borrow(id) => write!(text, " borrow {}", id.0),
        ValueType::Own(id) => write!(text, " own {}", id.0),
        ValueType::Defined(id) => write!(text, " {}", id.0),
    }
}

fn push_optional(text: &mut String, value: Option<ValueType>) -> Result<(), AllocError> {
    match value {
        Some(value) => push_value(text, value),
        None => write!(text, " -"),
    }
}

fn push_values(text: &mut String, values: &[ValueType]) -> Result<(), AllocError> {
    for value in values {
        push_value(text, *value)?;
    }
    Ok(())
}

fn push_parts(text: &mut String, parts: &IndexMap<String, ValueType>) -> Result<(), AllocError> {
    for (name, value) in parts.iter() {
        write!(text, " {name}:")?;
        push_value(text, *value)?;
    }
    Ok(())
}

fn push_cases(
    text: &mut String,
    cases: &IndexMap<String, Option<ValueType>>,
) -> Result<(), AllocError> {
    for (name, value) in cases.iter() {
        write!(text, " {name}:")?;
        push_optional(text, *value)?;
    }
    Ok(())
}

fn push_names(text: &mut String, names: &IndexSet<String>) -> Result<(), AllocError> {
    for name in names.iter() {
        write!(text, " {name}")?;
    }
    Ok(())
}

fn push_two(
    text: &mut String,
    first: Option<ValueType>,
    second: Option<ValueType>,
) -> Result<(), AllocError> {
    push_optional(text, first)?;
    push_optional(text, second)
}

/// The form of a type of values, in a word.
fn form(ty: &DefinedType) -> &'static str {
    match ty {
        DefinedType::Tuple(_) => "tuple",
        DefinedType::List(_) => "list",
        DefinedType::Option(_) => "option",
        DefinedType::Result { .. } => "result",
        DefinedType::Variant { .. } => "variant",
        DefinedType::Record { .. } => "record",
        DefinedType::Flags(_) => "flags",
        DefinedType::Enum(_) => "enum",
        DefinedType::Alias(_) => "alias",
        DefinedType::Stream(_) => "stream",
        DefinedType::Future(_) => "future",
    }
}

fn push_defined(text: &mut String, ty: &DefinedType) -> Result<(), AllocError> {
    write!(text, "{}", form(ty))?;
    match ty {
        DefinedType::Tuple(values) => push_values(text, values),
        DefinedType::List(value) => push_value(text, *value),
        DefinedType::Option(value) => push_value(text, *value),
        DefinedType::Result { ok, err } => push_two(text, *ok, *err),
        DefinedType::Variant { cases } => push_cases(text, cases),
        DefinedType::Record { fields } => push_parts(text, fields),
        DefinedType::Flags(names) => push_names(text, names),
        DefinedType::Enum(names) => push_names(text, names),
        DefinedType::Alias(value) => push_value(text, *value),
        DefinedType::Stream(value) => push_optional(text, *value),
        DefinedType::Future(value) => push_optional(text, *value),
    }
}

fn push_resource(text: &mut String, resource: &Resource) -> Result<(), AllocError> {
    write!(text, "resource {}", resource.name)?;
    match resource.alias {
        Some(alias) => match alias.owner {
            Some(owner) => write!(text, " of {} in {}", alias.source.0, owner.0),
            None => write!(text, " of {}", alias.source.0),
        },
        None => Ok(()),
    }
}

fn push_results(text: &mut String, results: &FuncResults) -> Result<(), AllocError> {
    match results {
        FuncResults::None => write!(text, " -"),
        FuncResults::Scalar(value) => push_value(text, *value),
        FuncResults::Named(named) => push_parts(text, named),
    }
}

fn push_func(text: &mut String, func: &FuncType) -> Result<(), AllocError> {
    let word = if func.is_async { "async func" } else { "func" };
    write!(text, "{word}")?;
    push_parts(text, &func.params)?;
    write!(text, " ->")?;
    push_results(text, &func.results)
}

fn push_entry(text: &mut String, entry: &Entry) -> Result<(), AllocError> {
    match entry {
        Entry::Defined(ty) => push_defined(text, ty),
        Entry::Resource(resource) => push_resource(text, resource),
        Entry::Func(func) => push_func(text, func),
        Entry::Interface(_) => write!(text, "interface"),
        Entry::World(_) => write!(text, "world"),
    }
}

/// The entries of a table, in order.
pub fn entries(alloc: Global, types: &Types) -> Result<String, AllocError> {
    let mut text = String::new(alloc);
    for entry in types.entries() {
        push_entry(&mut text, entry)?;
        write!(text, "; ")?;
    }
    Ok(text)
}
