//! Sheets: how the log publishes them, and how a watch reads them.
ghost use Rattle.std.specs.Arc.{arc_value};
ghost use Rattle.std.specs.Prelude.{◌≡◌, ◌≤◌, [], IfOk, OnOk, OnErr};
ghost use mathlib.Core.List.{IsPrefix};
ghost use Rattle.vpg_watch.specs.Rule.{Belongs};
ghost use Rattle.vpg_desk.specs.Book.{opened};
ghost use Rattle.vpg_desk.specs.History.{book_after};
ghost use Rattle.vpg_desk.specs.State.{IsOpened};
ghost use Rattle.vpg_office.specs.Fronts.{IsHistory, family_between};
ghost use Rattle.vpg_office.specs.Sheets.{IsSheetOf};

use crate::fault::NotWatched;
use crate::front::Front;
use crate::log::Log;
use crate::replay::Replay;
use crate::terms::Terms;
use std::alloc::{AllocError, Global};
use std::sync::{Arc, Wait};
use vpg_watch::{NoPlace, Press, Sheet, Watch, WatchFault};

/// Returns the sheet of this front. The desk is at its end.
fn sheet_of<L: Terms>(
    alloc: Global,
    desk: &mut Replay,
    front: Front<L>,
) -> Result<Arc<Sheet<Front<L>>>, AllocError>
    requires of { (desk.old.game ≡ L.game) × (desk.old.diagram ≡ L.diagram) }
    requires replay { desk.old.book ≡ book_after (family_between L.game L.diagram) opened front }
    requires opens { IsOpened L.game L.diagram }
    requires few { L.limit ≤ 1048576 }
    ensures same { desk.new ≡ desk.old }
    ensures front { IfOk result (λ sheet. (arc_value sheet).front ≡ front) }
    ensures belongs { IfOk result (λ sheet. Belongs (IsSheetOf L.game L.diagram) (arc_value sheet)) }
{
    let _calls = front.len();
    let settled = desk.settled();
    let verdicts = desk.verdicts(alloc)?;
    let sheet = Sheet::of(front, settled, verdicts);
    Ok(Arc::new(alloc, sheet)?)
}

/// Returns a press that shows the sheet of a desk that was just opened.
pub(crate) fn opening_press<L: Terms, R: Wait>(
    rt: &R,
    alloc: Global,
    desk: &mut Replay,
) -> Result<Press<Front<L>>, AllocError>
    requires of { (desk.old.game ≡ L.game) × (desk.old.diagram ≡ L.diagram) }
    requires opened { desk.old.book ≡ opened }
    requires opens { IsOpened L.game L.diagram }
    requires few { L.limit ≤ 1048576 }
    ensures same { desk.new ≡ desk.old }
    ensures press { IfOk result (λ press. press.front ≡ []) }
{
    let sheet = sheet_of::<L>(alloc, desk, Front::empty())?;
    match Press::open(rt, alloc, sheet) {
        Ok(press) => Ok(press),
        Err(_) => Err(AllocError),
    }
}

/// Publishes the sheet of this front. The desk is at its end. If there is no memory for the sheet, the one shown before
/// stays.
fn publish<L: Terms, R: Wait>(
    rt: &R,
    alloc: Global,
    press: &mut Press<Front<L>>,
    desk: &mut Replay,
    newest: &Front<L>,
) -> Result<(), AllocError>
    requires of { (desk.old.game ≡ L.game) × (desk.old.diagram ≡ L.diagram) }
    requires replay { desk.old.book ≡ book_after (family_between L.game L.diagram) opened newest.now }
    requires few { L.limit ≤ 1048576 }
    requires grows { IsPrefix press.old.front newest.now }
    ensures desk { desk.new ≡ desk.old }
    ensures shown { OnOk result (press.new.front ≡ newest.now) }
    ensures same { OnErr result (press.new ≡ press.old) }
    ensures begins { IsPrefix press.new.front newest.now }
{
    let sheet = sheet_of(alloc, desk, newest.copy())?;
    match press.publish(rt, sheet) {
        Ok(()) => Ok(()),
        Err(_left_out) => Err(AllocError),
    }
}

impl<L: Terms> Log<L> {
    /// Publishes the sheet of the log, if the call was made. `sheet` is the allocator of a call that changes the page,
    /// and none of any other. A sheet without memory for it is left out.
    pub(crate) fn publish<R: Wait>(&mut self, rt: &R, sheet: Option<Global>, made: bool)
        ensures { self.new ≡ self.old }
    {
        if let Some(alloc) = sheet {
            if made {
                let _left_out = publish(
                    rt,
                    alloc,
                    &mut self.press,
                    &mut self.desk,
                    &self.calls.newest,
                );
            }
        }
    }

    /// Returns a watch of the log as it is: its sheet is published first.
    pub(crate) fn watch_whole<R: Wait>(
        &mut self,
        rt: &R,
        alloc: Global,
    ) -> Result<Watch<Front<L>>, NotWatched>
        ensures same { self.new ≡ self.old }
        ensures whole { IfOk result (λ watch. watch ≡ self.old) }
    {
        let shown = publish(
            rt,
            alloc,
            &mut self.press,
            &mut self.desk,
            &self.calls.newest,
        );
        if shown.is_err() {
            return Err(NotWatched::Memory);
        }
        match self.press.watch() {
            Ok(watch) => Ok(watch),
            Err(_) => Err(NotWatched::NoPlace),
        }
    }

    /// Returns a watch of the published sheets.
    pub(crate) fn watch(&mut self) -> Result<Watch<Front<L>>, NoPlace>
        ensures same { self.new ≡ self.old }
        ensures history { IfOk result (IsHistory (family_between L.game L.diagram)) }
    {
        self.press.watch()
    }
}

/// Reads the sheet that is shown, as `Watch::read`: without the office's lock and without waiting. The sheet is of a
/// front of the office: its `at` is the front's number of calls, and it has the desk's replies there, about the page
/// and each vertex. From a hopeless vertex Odd wins in every product left, from a sure one Even; none is both. The
/// front begins with the one that this watch read before, and at its first read with that of the sheet shown when the
/// watch was made.
///
/// The one refusal is `NoSheet`: the office is closed or has ended.
pub fn read<L: Terms>(watch: &mut Watch<Front<L>>) -> Result<Arc<Sheet<Front<L>>>, WatchFault>
    ensures sheet { IfOk result
        (λ sheet. IsSheetOf L.game L.diagram (arc_value sheet).front (arc_value sheet).at (arc_value sheet).settled
        (arc_value (arc_value sheet).verdicts)) }
    ensures begins { IfOk result (λ sheet. IsPrefix watch.old (arc_value sheet).front) }
    ensures seen { IfOk result (λ sheet. watch.new ≡ (arc_value sheet).front) }
    // Without a sheet too, the new front begins with the old one.
    ensures kept { IsPrefix watch.old watch.new }
{
    watch.read()
}
