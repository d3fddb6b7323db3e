//! Fronts of the row of steps 1, 2, 3, ..: such a front is its length.
ghost use Rattle.std.specs.Prelude.{◌≡◌, IfOk};
ghost use Rattle.std.specs.Arc.{arc_value};

use std::alloc::{AllocError, Global};
use std::sync::Arc;
use vpg_watch::{Follows, Sheet, Verdicts, Watch};

/// A number of steps.
#[derive(Clone, Copy)]
pub(crate) struct Steps {
    pub(crate) count: u32,
}

impl Follows for Steps {
    ghost use Rattle.std.specs.Prelude.{◌≡◌, ◌≤◌};
    ghost use Rattle.std.proofs.Common.{le_refl, le_trans, zero-le};

    ghost begins = { λ f g. g.count ≤ f.count };

    ghost empty = { record { count = 0 } };

    ghost calls = { λ f. f.count };

    ghost belongs = { λ f at settled verdicts. at ≡ f.count };

    fn len(&self) -> usize {
        self.count as usize
    }

    ghost from_empty = { λ f. zero-le };

    ghost itself = { λ f. le_refl f.count };

    ghost through = { λ f g h longer shorter. le_trans shorter longer };

    ghost grows = { λ f g longer. longer };

    ghost counted = { λ f at settled verdicts said. said };
}

/// Returns the sheet of this many steps.
pub(crate) fn sheet_of(alloc: Global, count: u32) -> Result<Arc<Sheet<Steps>>, AllocError>
    ensures front { IfOk result (λ sheet. (arc_value sheet).front.count ≡ count) }
    ensures belongs { IfOk result (λ sheet. (arc_value sheet).at ≡ (arc_value sheet).front.count) }
{
    let verdicts = Arc::new(alloc, Verdicts::new(Vec::new(alloc)))?;
    let sheet = Sheet::of(Steps { count }, false, verdicts);
    Ok(Arc::new(alloc, sheet)?)
}

/// Returns `at` of the sheet that is read.
pub(crate) fn at(watch: &mut Watch<Steps>) -> Option<u32> {
    let sheet = watch.read().ok()?;
    Some(sheet.at)
}
