//! Names in order: the maps and sets of texts in entries.
ghost use Rattle.std.specs.Prelude.{◌≡◌, [], ◌∷◌, ◌++◌, OnOk, OnErr, IfOk, false, option_map, None, map, string_bytes, option_copied};
ghost use Rattle.std.specs.List.{list_any};
ghost use Rattle.std.specs.Str.{bytes_eq};
ghost use Rattle.wac_graph_types.specs.Names.{by_name, name_in_place};
ghost use Rattle.wac_graph_types.specs.Scope.{look_up, with_named, IsFresh};

use indexmap::{IndexMap, IndexSet};
use std::alloc::{AllocError, Global};

/// Adds a value under a new name, after the others. The name is copied.
pub fn push<V: Drop>(
    alloc: Global,
    all: &mut IndexMap<String, V>,
    name: &str,
    value: V,
) -> Result<(), AllocError>
    requires { IsFresh name.now (by_name all.old.entries) }
    ensures ok { OnOk result (by_name all.new.entries ≡ with_named (by_name all.old.entries) name.now value) }
    ensures err { OnErr result (by_name all.new.entries ≡ by_name all.old.entries) }
{
    let key = String::from_str(alloc, name)?;
    all.insert(key, value)?;
    Ok(())
}

/// The value under a name.
pub fn find<V: Copy>(all: &IndexMap<String, V>, name: &str) -> Option<V>
    ensures { result ≡ look_up name.now (by_name all.now.entries) }
{
    all.get(name).copied()
}

/// The name at a place, copied.
pub fn name_at<V: Drop>(
    alloc: Global,
    all: &IndexMap<String, V>,
    at: usize,
) -> Result<Option<String>, AllocError>
    ensures { IfOk result (λ n. option_map string_bytes n ≡ name_in_place at (by_name all.now.entries)) }
{
    match all.get_index(at) {
        None => Ok(None),
        Some((name, _)) => Ok(Some(String::from_str(alloc, name.as_str())?)),
    }
}

/// Adds a new name, after the others. It is copied.
pub fn push_name(alloc: Global, all: &mut IndexSet<String>, name: &str) -> Result<(), AllocError>
    requires { list_any (bytes_eq name.now) (map string_bytes all.old.keys) ≡ false }
    ensures ok { OnOk result (map string_bytes all.new.keys ≡ map string_bytes all.old.keys ++ name.now ∷ []) }
    ensures err { OnErr result (map string_bytes all.new.keys ≡ map string_bytes all.old.keys) }
{
    let key = String::from_str(alloc, name)?;
    all.insert(key)?;
    Ok(())
}
