//! Lists, optional parts and truth values.

use crate::ToValue;
use crate::build::Array;
use serde_json::Value;
use std::alloc::{AllocError, Global};

impl<T: ToValue> ToValue for Vec<T> {
    ghost use Rattle.wac_json_forms.specs.Forms.{list_json};

    ghost form = { λ v. list_json T.form v.items };

    fn to_value(&self, alloc: Global) -> Result<Value, AllocError> {
        let mut values = Array::new(alloc);
        for item in self {
            values.push(item.to_value(alloc)?)?;
        }
        Ok(values.into_value())
    }
}

impl<T: ToValue> ToValue for Option<T> {
    ghost use Rattle.wac_json_forms.specs.Forms.{optional};

    ghost form = { optional T.form };

    #[tactic(auto, unfolding(wac_json_forms::specs::Forms::optional))]
    fn to_value(&self, alloc: Global) -> Result<Value, AllocError> {
        match self {
            Some(part) => part.to_value(alloc),
            None => Ok(Value::Null),
        }
    }
}

impl ToValue for bool {
    ghost use Rattle.serde_json.specs.Data.{boolean};

    ghost form = { boolean };

    fn to_value(&self, _alloc: Global) -> Result<Value, AllocError> {
        Ok(Value::Bool(*self))
    }
}

impl ToValue for &str {
    ghost use Rattle.serde_json.specs.Data.{string};

    ghost form = { λ s. string s.now };

    fn to_value(&self, alloc: Global) -> Result<Value, AllocError> {
        Value::try_from_str(alloc, self)
    }
}
