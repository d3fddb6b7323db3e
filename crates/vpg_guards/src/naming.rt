//! The features that a guard names.
ghost use Rattle.std.specs.Prelude.{◌≡◌, ◌++◌, OnOk};
ghost use Rattle.vpg_guards.specs.Formula.{named, named_by};
ghost use Rattle.vpg_guards.specs.View.{formula_of, parts_in};

use crate::guard::{Guard, Guards};
use std::alloc::AllocError;

impl Guard {
    /// Adds the features that it names, in order, each as often as it is named.
    #[cycle(named)]
    pub fn push_features(&self, features: &mut Vec<u16>) -> Result<(), AllocError>
        ensures { OnOk result (features.new.items ≡ features.old.items ++ named (formula_of self.now)) }
    {
        match self {
            Guard::Always | Guard::Never => {}
            Guard::Feature(f) => features.push(*f)?,
            Guard::Not(inner) => inner.push_features(features)?,
            Guard::All(parts) => parts.push_features(features)?,
            Guard::Any(parts) => parts.push_features(features)?,
        }
        Ok(())
    }
}

impl Guards {
    #[cycle(named)]
    fn push_features(&self, features: &mut Vec<u16>) -> Result<(), AllocError>
        ensures { OnOk result (features.new.items ≡ features.old.items ++ named_by (parts_in self.now)) }
    {
        for part in &self.items {
            part.push_features(features)?;
        }
        Ok(())
    }
}
