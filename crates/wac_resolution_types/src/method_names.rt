//! The names of constructors and methods.
ghost use Rattle.std.specs.Prelude.{◌≡◌, IfOk, string_bytes};
ghost use Rattle.wac_resolution_rules.specs.Bodies.{constructor_name as named_constructor, method_name as named_method, static_name as named_static};

use std::alloc::{AllocError, Global};

/// The name of the constructor of a resource.
pub fn constructor_name(alloc: Global, resource: &str) -> Result<String, AllocError>
    ensures { IfOk result (λ n. string_bytes n ≡ named_constructor resource.now) }
{
    let mut text = String::from_str(alloc, "[constructor]")?;
    text.push_str(resource)?;
    Ok(text)
}

/// The name of a method of a resource.
pub fn method_name(alloc: Global, resource: &str, name: &str) -> Result<String, AllocError>
    ensures { IfOk result (λ n. string_bytes n ≡ named_method resource.now name.now) }
{
    let mut text = String::from_str(alloc, "[method]")?;
    text.push_str(resource)?;
    text.push_str(".")?;
    text.push_str(name)?;
    Ok(text)
}

/// The name of a static method of a resource.
pub fn static_name(alloc: Global, resource: &str, name: &str) -> Result<String, AllocError>
    ensures { IfOk result (λ n. string_bytes n ≡ named_static resource.now name.now) }
{
    let mut text = String::from_str(alloc, "[static]")?;
    text.push_str(resource)?;
    text.push_str(".")?;
    text.push_str(name)?;
    Ok(text)
}
