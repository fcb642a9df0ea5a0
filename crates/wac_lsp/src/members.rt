//! Members that some objects have.
use serde_json::Value;
use std::alloc::{AllocError, Global};

/// Adds a member to an object.
pub(crate) fn put_member(
    alloc: Global,
    value: &mut Value,
    name: &str,
    member: Value,
) -> Result<(), AllocError> {
    if let Some(members) = value.as_object_mut() {
        members.insert(String::from_str(alloc, name)?, member)?;
    }
    Ok(())
}
