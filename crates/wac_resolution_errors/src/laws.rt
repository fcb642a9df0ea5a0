// Laws of what contracts speak of. Each function does nothing: its contract is the law.
ghost use Rattle.std.specs.Prelude.{◌≡◌, ◌↔◌, IsTrue};
ghost use Rattle.wac_resolution_errors.specs.declared.operation.InstanceOperation.{InstanceOperation as Required};

use crate::operation::InstanceOperation;

/// Operations are equal where they are one variant, and `hash` makes the same writes for equal ones alone.
pub fn operations_are_compared()
    ensures equal { (a b : Required) → IsTrue (⟦<InstanceOperation as PartialEq>⟧.eq a b) ↔ a ≡ b }
    ensures hashes { (a b : Required) → let input = ⟦<InstanceOperation as std::hash::Hash>⟧.hash_input in
        input a ≡ input b ↔ a ≡ b }
{}
