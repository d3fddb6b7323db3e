//! Presses that make one call with little memory, each try on a press of its own.
ghost use Rattle.std.specs.Prelude.{◌≡◌};
ghost use Rattle.std.specs.Arc.{arc_value};

use crate::offices::{NOT_TRIED, OPENED};
use crate::steps::{Steps, at, sheet_of};
use std::sync::{Arc, Wait};
use vpg_scarce::{Anew, End, Heap, Outcome, Report, tried_anew};
use vpg_watch::{Press, Sheet};

/// A call of a press, or of its watch.
#[derive(Clone, Copy)]
enum PressCall {
    Open,
    Publish,
    Watch,
    Close,
}

fn done(holds: bool) -> Outcome {
    Outcome {
        end: End::Done,
        holds,
    }
}

fn refused(holds: bool) -> Outcome {
    Outcome {
        end: End::Memory,
        holds,
    }
}

/// Publishes a sheet with this much memory. If that is refused, the sheet comes back, and the one before is read.
fn publish<R: Wait>(
    rt: &R,
    heap: &mut Heap,
    press: &mut Press<Steps>,
    sheet: Arc<Sheet<Steps>>,
    bytes: usize,
) -> Outcome
    requires first { press.old.front.count ≡ 0 }
    requires belongs { (arc_value sheet).at ≡ (arc_value sheet).front.count }
{
    let Ok(mut watch) = press.watch() else {
        return NOT_TRIED;
    };
    heap.leave(bytes);
    let published = press.publish(rt, sheet);
    heap.relax();
    match published {
        Ok(()) => done(at(&mut watch) == Some(1)),
        Err(back) => refused(back.at == 1 && at(&mut watch) == Some(0)),
    }
}

/// Asks for a watch with this much memory, and reads the sheet that is shown.
fn watch(heap: &mut Heap, press: &mut Press<Steps>, bytes: usize) -> Outcome {
    heap.leave(bytes);
    let shown = match press.watch() {
        Ok(mut watch) => at(&mut watch),
        Err(_) => None,
    };
    heap.relax();
    done(shown == Some(0))
}

/// Makes a call of a press that shows the sheet of no steps.
fn try_on<R: Wait>(
    rt: &R,
    heap: &mut Heap,
    press: &mut Press<Steps>,
    sheet: Arc<Sheet<Steps>>,
    call: PressCall,
    bytes: usize,
) -> Outcome
    requires first { press.old.front.count ≡ 0 }
    requires belongs { (arc_value sheet).at ≡ (arc_value sheet).front.count }
{
    match call {
        PressCall::Open | PressCall::Close => OPENED,
        PressCall::Publish => publish(rt, heap, press, sheet, bytes),
        PressCall::Watch => watch(heap, press, bytes),
    }
}

/// Opens a press, makes a call, and closes the press with no memory.
fn try_once<R: Wait>(
    rt: &R,
    heap: &mut Heap,
    first: Arc<Sheet<Steps>>,
    second: Arc<Sheet<Steps>>,
    call: PressCall,
    bytes: usize,
) -> Outcome
    requires first { ((arc_value first).front.count ≡ 0) ×
        ((arc_value first).at ≡ (arc_value first).front.count) }
    requires second { (arc_value second).at ≡ (arc_value second).front.count }
{
    let alloc = heap.alloc();
    let opens = matches!(call, PressCall::Open);
    if opens {
        heap.leave(bytes);
    }
    let opened = Press::open(rt, alloc, first);
    if opens {
        heap.relax();
    }
    match opened {
        Ok(press) => {
            let mut press = press;
            let tried = try_on(rt, heap, &mut press, second, call, bytes);
            heap.leave(0);
            press.close(rt);
            heap.relax();
            tried
        }
        Err(back) => refused(opens && back.at == 0),
    }
}

impl<R: Wait> Anew<R> for PressCall {
    fn try_within(&mut self, rt: &R, heap: &mut Heap, bytes: usize) -> Outcome {
        match (sheet_of(heap.alloc(), 0), sheet_of(heap.alloc(), 1)) {
            (Ok(first), Ok(second)) => try_once(rt, heap, first, second, *self, bytes),
            _ => NOT_TRIED,
        }
    }
}

/// Makes each call of a press with little memory.
pub(crate) fn refuse<R: Wait>(rt: &R, heap: &mut Heap, report: &mut Report) {
    for (name, call) in [
        ("Press::open", PressCall::Open),
        ("Press::publish", PressCall::Publish),
        ("Press::watch, Watch::read", PressCall::Watch),
        ("Press::close", PressCall::Close),
    ] {
        let mut call = call;
        let told = tried_anew(rt, heap, &mut call, 0);
        report.note(heap, name, told);
    }
}
