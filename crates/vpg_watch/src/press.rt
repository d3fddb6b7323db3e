//! The publishing side.
ghost use Rattle.std.specs.Prelude.{◌≡◌, OnOk, OnErr, IfOk, IfErr, MatchResult, drop, fold};
ghost use Rattle.std.specs.Arc.{arc_value};
ghost use Rattle.left_right.specs.Sides.{view};
ghost use Rattle.vpg_watch.specs.Rule.{Belongs};

use crate::fault::NoPlace;
use crate::follows::Follows;
use crate::sheet::Sheet;
use crate::shelf::{Notes, Sees, Shelf, ShelfWriter};
use crate::watch::Watch;
use core::mem::replace_with;
use left_right::Absorb;
use left_right::writer::Writer;
use std::alloc::{AllocError, Global};
use std::marker::Model;
use std::sync::{Arc, Wait};

/// The greatest number of watches at once.
const PLACES: usize = 64;

/// A publisher of sheets, one after another: the newest one is shown to all watches. It is a linear value: the compiler
/// refuses a program that drops it, and only `close` ends it.
///
/// Contracts see it as the sheet that it last accepted, by `open` or `publish`.
pub struct Press<F: Follows>
where
    Shelf<F>: Absorb<Arc<Sheet<F>>, State = Sheet<F>>,
{
    writer: ShelfWriter<F>,
}

impl<F: Follows> Model for Press<F>
where
    Shelf<F>: Absorb<Arc<Sheet<F>>, State = Sheet<F>>,
{
    ghost use Rattle.std.specs.Prelude.{◌≡◌};
    ghost use Rattle.std.specs.Arc.{arc_value};
    ghost use Rattle.left_right.specs.Sides.{view as known};
    ghost use Rattle.vpg_watch.specs.declared.sheet.Sheet.{Sheet};

    ghost Value = { Sheet F };

    ghost view = { λ p. arc_value p.writer.desk.shown.value.sheet };

    ghost invariant = { λ p. known p.writer.desk.place ≡ (arc_value p.writer.desk.shown.value.sheet).front };
}

// Shows the sheet that was last accepted, if there is one, and notes which one is shown. If memory runs out, nothing
// changes.
fn show_last<F: Follows, R: Wait>(
    before: ShelfWriter<F>,
    rt: &R,
) -> (ShelfWriter<F>, Result<(), AllocError>)
    requires belongs { Belongs F.belongs
        (fold (λ _ o. arc_value o) (arc_value before.desk.shown.value.sheet) (drop before.behind before.log.items)) }
    requires begins { F.begins
        (fold (λ _ o. arc_value o) (arc_value before.desk.shown.value.sheet)
        (drop before.behind before.log.items)).front (arc_value before.desk.shown.value.sheet).front }
    ensures { MatchResult result.1
        (λ _. (arc_value result.0.desk.shown.value.sheet
        ≡ fold (λ _ o. arc_value o) (arc_value before.desk.shown.value.sheet) (drop before.behind before.log.items)) ×
        (view result.0.desk.place ≡ (arc_value result.0.desk.shown.value.sheet).front))
        (λ _. (result.0.desk.shown.value ≡ before.desk.shown.value) ×
        (view result.0.desk.place ≡ view before.desk.place)) }
{
    before.publish_as::<Sees<F>, R>(rt)
}

impl<F: Follows> Press<F> {
    /// Returns a press that shows this sheet, which has to belong to its front. The only refusal is a lack of memory;
    /// then the sheet comes back.
    pub fn open<R: Wait>(
        rt: &R,
        alloc: Global,
        sheet: Arc<Sheet<F>>,
    ) -> Result<Press<F>, Arc<Sheet<F>>>
        requires { Belongs F.belongs (arc_value sheet) }
        ensures shown { IfOk result (λ press. press ≡ arc_value sheet) }
        ensures back { IfErr result (λ returned. arc_value returned ≡ arc_value sheet) }
    {
        let (Ok(first), Ok(second)) = (Arc::try_clone(&sheet), Arc::try_clone(&sheet)) else {
            return Err(sheet);
        };
        let first = Shelf { sheet: first };
        let second = Shelf { sheet: second };
        let Ok(writer) = Writer::new(alloc, first, second, PLACES) else {
            return Err(sheet);
        };
        let (writer, shown) = show_last(writer, rt);
        match shown {
            Ok(()) => Ok(Press { writer }),
            Err(_) => {
                writer.take(rt);
                Err(sheet)
            }
        }
    }

    /// Shows a sheet. It has to belong to its front, and the front has to begin with that of the sheet last accepted.
    /// The call waits for reads that have begun on the sheet shown before that one. The only refusal is a lack of
    /// memory: then the sheet comes back, and watches read what they read before.
    pub fn publish<R: Wait>(&mut self, rt: &R, sheet: Arc<Sheet<F>>) -> Result<(), Arc<Sheet<F>>>
        requires belongs { Belongs F.belongs (arc_value sheet) }
        requires begins { F.begins (arc_value sheet).front self.old.front }
        ensures shown { OnOk result (self.new ≡ arc_value sheet) }
        ensures same { OnErr result (self.new ≡ self.old) }
        ensures back { IfErr result (λ returned. arc_value returned ≡ arc_value sheet) }
    {
        let Ok(again) = Arc::try_clone(&sheet) else {
            return Err(sheet);
        };
        let Ok(()) = self.writer.append(again) else {
            return Err(sheet);
        };
        match replace_with(&mut self.writer, rt, show_last) {
            Ok(()) => Ok(()),
            Err(_) => Err(sheet),
        }
    }

    /// Returns a watch; its first read returns the sheet last accepted or a later one. There may be 64 watches at once.
    /// The place of a dropped watch is free again.
    pub fn watch(&mut self) -> Result<Watch<F>, NoPlace>
        ensures same { self.new ≡ self.old }
        ensures seen { IfOk result (λ watch. watch ≡ self.old.front) }
    {
        let Ok(mut reader) = self.writer.factory().reader() else {
            return Err(NoPlace);
        };
        reader.learn::<Notes<F>>(self.writer.tell::<Notes<F>>());
        Ok(Watch { reader })
    }

    /// Ends the press, once reads that have begun are done. From then on watches read nothing. The call is never
    /// refused.
    pub fn close<R: Wait>(self, rt: &R) {
        let Press { writer } = self;
        writer.take(rt);
    }
}
