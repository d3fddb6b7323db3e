//! The reading side.
ghost use Rattle.std.specs.Prelude.{◌≡◌, ◌≤◌, IfOk};
ghost use Rattle.std.specs.Arc.{arc_value};
ghost use Rattle.left_right.specs.Sides.{view};
ghost use Rattle.vpg_watch.specs.Rule.{Belongs, IsSeen};

use crate::fault::WatchFault;
use crate::follows::Follows;
use crate::sheet::Sheet;
use crate::shelf::{Sees, ShelfReader};
use core::mem::replace_with;
use std::alloc::AllocError;
use std::marker::Model;
use std::sync::Arc;

/// A reader of sheets, without a lock and without waiting. It may be moved to another thread, and may outlive the
/// press.
///
/// Contracts see it as a front that all its further reads begin with. It is the front of the sheet that it read last
/// or, before its first read, of the sheet that the press had last accepted when it made the watch.
#[derive(Drop)]
pub struct Watch<F: Follows> {
    pub(crate) reader: ShelfReader<F>,
}

impl<F: Follows> Model for Watch<F> {
    ghost use Rattle.left_right.specs.Sides.{view as known};

    ghost Value = { F };

    ghost view = { λ w. known w.reader.place };
}

// Reads the sheet that is shown.
fn read_shown<F: Follows>(
    reader: ShelfReader<F>,
    _nothing: (),
) -> (ShelfReader<F>, Result<Arc<Sheet<F>>, AllocError>)
    ensures sheet { IfOk result.1
        (λ sheet. IsSeen F.begins F.belongs (view reader.place) (arc_value sheet) (arc_value sheet)
        (view result.0.place)) }
    ensures kept { F.begins (view result.0.place) (view reader.place) }
{
    match reader.enter_as::<Sees<F>>() {
        Ok(reading) => {
            let sheet = Arc::try_clone(&reading.get().sheet);
            (reading.leave(), sheet)
        }
        Err(reader) => (reader, Err(AllocError)),
    }
}

impl<F: Follows> Watch<F> {
    /// Returns the sheet that is shown. It belongs to its front, which begins with the front that this watch read
    /// before (at its first read: with that of the sheet that the press had last accepted when it made the watch). So
    /// `at` never falls.
    ///
    /// The only refusal is `NoSheet`. The call takes no memory.
    pub fn read(&mut self) -> Result<Arc<Sheet<F>>, WatchFault>
        ensures begins { IfOk result (λ sheet. F.begins (arc_value sheet).front self.old) }
        ensures belongs { IfOk result (λ sheet. Belongs F.belongs (arc_value sheet)) }
        ensures at { IfOk result (λ sheet. (arc_value sheet).at ≡ F.calls (arc_value sheet).front) }
        ensures later { IfOk result (λ sheet. F.calls self.old ≤ (arc_value sheet).at) }
        ensures seen { IfOk result (λ sheet. self.new ≡ (arc_value sheet).front) }

        // Even without a sheet, a front that begins with the new view begins with the old one.
        ensures kept { F.begins self.new self.old }
    {
        match replace_with(&mut self.reader, (), read_shown) {
            Ok(sheet) => Ok(sheet),
            Err(_) => Err(WatchFault::NoSheet),
        }
    }
}
