//! Package names, package paths and versions.

use crate::ToValue;
use crate::build::Object;
use semver::Version;
use serde_json::Value;
use std::alloc::{AllocError, Global};
use wac_ast::{PackageName, PackagePath};

impl ToValue for PackageName<'_> {
    ghost use Rattle.wac_ast_base.specs.Names.{package_name_of};
    ghost use Rattle.wac_json_forms.specs.Forms.{package_name_json};

    ghost form = { λ x. package_name_json (package_name_of x) };

    #[tactic(auto, using(crate::proofs::Forms::forms), unfolding(wac_json_forms::specs::Forms::package_name_json))]
    fn to_value(&self, alloc: Global) -> Result<Value, AllocError> {
        Ok(
            Object::new(alloc)
                .with("string", &self.string)?
                .with("name", &self.name)?
                .with("version", &self.version)?
                .with("span", &self.span)?
                .into_value(),
        )
    }
}

impl ToValue for PackagePath<'_> {
    ghost use Rattle.wac_ast_base.specs.Names.{package_path_of};
    ghost use Rattle.wac_json_forms.specs.Forms.{package_path_json};

    ghost form = { λ x. package_path_json (package_path_of x) };

    #[tactic(auto, using(crate::proofs::Forms::forms), unfolding(wac_json_forms::specs::Forms::package_path_json))]
    fn to_value(&self, alloc: Global) -> Result<Value, AllocError> {
        Ok(
            Object::new(alloc)
                .with("span", &self.span)?
                .with("string", &self.string)?
                .with("name", &self.name)?
                .with("segments", &self.segments)?
                .with("version", &self.version)?
                .into_value(),
        )
    }
}

/// A version is its text.
impl ToValue for Version {
    ghost use Rattle.semver.specs.Identifiers.{parts_of};
    ghost use Rattle.wac_json_forms.specs.Forms.{version_json};

    ghost form = { λ v. version_json (parts_of v) };

    #[tactic(auto, unfolding(wac_json_forms::specs::Forms::version_json))]
    fn to_value(&self, alloc: Global) -> Result<Value, AllocError> {
        Ok(Value::String(format!(in alloc; "{self}")?))
    }
}
