//! What has a JSON form.

use serde_json::Value;
use std::alloc::{AllocError, Global};

/// What has a JSON form: every tree, its spans and versions, and lists of them.
///
/// `form` says which value that is; of a document it is `json_of`, in crates/wac_json_forms/specs/Forms.antt.
pub trait ToValue {
    ghost use Rattle.std.specs.Prelude.{◌≡◌, IfOk};
    ghost use Rattle.serde_json.specs.Data.{Data};
    ghost use Rattle.serde_json.specs.View.{view};
    ghost use Rattle.wac_json.specs.Floatless.{IsFloatless};

    ghost form: { Self → Data };

    /// The value as JSON, made anew. `docs/JSON.md` lists the form of every node.
    ///
    /// The only error is out of memory. The tree stays as it is.
    fn to_value(&self, alloc: Global) -> Result<Value, AllocError>
        ensures formed { IfOk result (λ value. view value ≡ form self.now) }
        ensures floatless { IfOk result IsFloatless };
}
