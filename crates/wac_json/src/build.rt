//! Objects and arrays, member by member and item by item.

ghost use Rattle.std.specs.Prelude.{◌≡◌, ◌++◌, ◌∷◌, [], IfOk};
ghost use Rattle.serde_json.specs.Data.{array, object, string};
ghost use Rattle.serde_json.specs.View.{items_view, members_view, view};
ghost use Rattle.wac_json_forms.specs.Forms.{pair, variant};
ghost use Rattle.wac_json.specs.Built.{Puts};
ghost use Rattle.wac_json.specs.Floatless.{HasFloatlessItems, HasFloatlessMembers, IsFloatless};

use crate::ToValue;
use serde_json::{Map, Value};
use std::alloc::{AllocError, Global};

/// An object that is being built. No member of it has a float.
#[derive(Drop)]
pub(crate) struct Object {
    alloc: Global,
    members: Map<String, Value>,
    ghost floatless: { HasFloatlessMembers (members_view members.entries) },
}

impl Object {
    /// An object without members.
    pub(crate) fn new(alloc: Global) -> Object
        ensures { result.members.entries ≡ [] }
    {
        Object {
            alloc,
            members: Map::new(alloc),
        }
    }

    /// The object with one more member.
    #[tactic(auto, using(crate::proofs::Members::put_floatless))]
    pub(crate) fn with_value(self, key: &str, value: Value) -> Result<Object, AllocError>
        requires { IsFloatless value }
        ensures { IfOk result (λ object. Puts key.now (view value) self.members.entries object.members.entries) }
    {
        let Object { alloc, mut members } = self;
        serde_json::put(&mut members, alloc, key, value)?;
        Ok(Object { alloc, members })
    }

    /// The object with one more member, the JSON form of `part`.
    pub(crate) fn with<T: ToValue>(self, key: &str, part: &T) -> Result<Object, AllocError>
        ensures { IfOk result (λ object. Puts key.now (T.form part.now) self.members.entries object.members.entries) }
    {
        let value = part.to_value(self.alloc)?;
        self.with_value(key, value)
    }

    /// The object as a value.
    pub(crate) fn into_value(self) -> Value
        ensures holds { view result ≡ object (members_view self.members.entries) }
        ensures floatless { IsFloatless result }
    {
        Value::Object(self.members)
    }
}

/// An array that is being built. No item of it has a float.
#[derive(Drop)]
pub(crate) struct Array {
    items: Vec<Value>,
    ghost floatless: { HasFloatlessItems (items_view items.items) },
}

impl Array {
    /// An array without items.
    pub(crate) fn new(alloc: Global) -> Array
        ensures { result.items.items ≡ [] }
    {
        Array {
            items: Vec::new(alloc),
        }
    }

    /// Puts one more item at the end.
    #[tactic(auto, using(crate::proofs::Members::push_floatless))]
    pub(crate) fn push(&mut self, value: Value) -> Result<(), AllocError>
        requires { IsFloatless value }
        ensures { IfOk result (λ _. self.new.items.items ≡ self.old.items.items ++ value ∷ []) }
    {
        self.items.push(value)?;
        Ok(())
    }

    /// The array as a value.
    pub(crate) fn into_value(self) -> Value
        ensures holds { view result ≡ array (items_view self.items.items) }
        ensures floatless { IsFloatless result }
    {
        Value::Array(self.items)
    }
}

/// A variant with content: an object of one member, under the variant's name.
pub(crate) fn variant(alloc: Global, name: &str, content: Value) -> Result<Value, AllocError>
    requires { IsFloatless content }
    ensures holds { IfOk result (λ value. view value ≡ variant name.now (view content)) }
    ensures floatless { IfOk result IsFloatless }
{
    Ok(Object::new(alloc).with_value(name, content)?.into_value())
}

/// A variant whose content has a JSON form.
pub(crate) fn variant_of<T: ToValue>(
    alloc: Global,
    name: &str,
    content: &T,
) -> Result<Value, AllocError>
    ensures holds { IfOk result (λ value. view value ≡ variant name.now (T.form content.now)) }
    ensures floatless { IfOk result IsFloatless }
{
    Ok(Object::new(alloc).with(name, content)?.into_value())
}

/// Two contents without names: an array of both.
pub(crate) fn pair(alloc: Global, first: Value, second: Value) -> Result<Value, AllocError>
    requires first { IsFloatless first }
    requires second { IsFloatless second }
    ensures holds { IfOk result (λ value. view value ≡ pair (view first) (view second)) }
    ensures floatless { IfOk result IsFloatless }
{
    let mut both = Array::new(alloc);
    both.push(first)?;
    both.push(second)?;
    Ok(both.into_value())
}

/// A text as a JSON string.
pub(crate) fn text(alloc: Global, text: &str) -> Result<Value, AllocError>
    ensures holds { IfOk result (λ value. view value ≡ string text.now) }
    ensures floatless { IfOk result IsFloatless }
{
    Value::try_from_str(alloc, text)
}
