//! Sheets that are read, and when.
ghost use Rattle.std.specs.Prelude.{◌≡◌, ◌≤◌};
ghost use Rattle.std.specs.Thread.{IsSync};

use crate::given::{given, require, require_at};
use crate::watching::sheets::Step::{Clear, Publish, Reads, Watches};
use crate::watching::steps::{SheetValues, Steps, sheet, sheet_of, told};
use std::process::Abort;
use std::sync::Wait;
use std::test::*;
use std::thread;
use std::thread::{Threads, join};
use vpg_watch::{Press, Watch};

/// Returns a press that shows the sheet of no steps. It is tried twice, as `sheet_of` is.
fn opened<R: Wait + Abort + AllocGlobal>(rt: &R) -> Press<Steps>
    ensures { result.front.count ≡ 0 }
{
    match Press::open(rt, rt.alloc(), sheet(rt, 0)) {
        Ok(press) => press,
        Err(sheet) => match Press::open(rt, rt.alloc(), sheet) {
            Ok(press) => press,
            Err(_) => rt.panic("no press"),
        },
    }
}

/// Adds at most this many watches, until there is no place, and returns how many there are then.
fn add_watches<R: Abort>(
    rt: &R,
    press: &mut Press<Steps>,
    watches: &mut Vec<Watch<Steps>>,
    most: u32,
) -> usize
    ensures same { press.new ≡ press.old }
{
    for _ in 0..most {
        let Ok(watch) = press.watch() else {
            break;
        };
        given(rt, watches.push(watch));
    }
    watches.len()
}

/// Returns the sheet that the watch at a place reads.
fn read_at(watches: &mut Vec<Watch<Steps>>, place: usize) -> Option<SheetValues> {
    match watches.get_mut(place) {
        Some(watch) => told(watch),
        None => None,
    }
}

/// Publishes the sheet of this many steps. If that is refused, the first watch reads the sheet that it read before, and
/// it is tried once more.
fn publish<R: Wait + Abort + AllocGlobal>(
    rt: &R,
    press: &mut Press<Steps>,
    watches: &mut Vec<Watch<Steps>>,
    count: u32,
)
    requires { press.old.front.count ≤ count }
    ensures { press.new.front.count ≤ count }
{
    let before = read_at(watches, 0);
    if let Err(sheet) = press.publish(rt, sheet(rt, count)) {
        require(rt, read_at(watches, 0) == before, "what is read stays");
        require(rt, press.publish(rt, sheet).is_ok(), "a sheet");
    }
}

/// A step of a test.
#[derive(Clone, Copy)]
enum Step {
    /// At most this many further watches, until there are that many in all.
    Watches(u32, usize),
    /// The sheet of this many steps is published.
    Publish(u32),
    /// The watch at this place reads such a sheet.
    Reads(usize, SheetValues),
    /// All watches are dropped.
    Clear,
}

/// Whether a step of a test that has published up to `shown` steps is answered as it should be.
fn is_so<R: Wait + Abort + AllocGlobal>(
    rt: &R,
    press: &mut Press<Steps>,
    watches: &mut Vec<Watch<Steps>>,
    step: Step,
    shown: &mut u32,
) -> bool
    requires { press.old.front.count ≤ shown.old }
    ensures { press.new.front.count ≤ shown.new }
{
    match step {
        Step::Watches(more, all) => add_watches(rt, press, watches, more) == all,
        Step::Publish(count) => {
            if count < *shown {
                return false;
            }
            *shown = count;
            publish(rt, press, watches, count);
            true
        }
        Step::Reads(place, expected) => read_at(watches, place) == Some(expected),
        Step::Clear => {
            watches.clear();
            true
        }
    }
}

/// Takes steps with a press and its watches, and stops the test at one that is answered in another way.
fn carry_out<R: Wait + Abort + AllocGlobal>(
    rt: &R,
    press: &mut Press<Steps>,
    watches: &mut Vec<Watch<Steps>>,
    steps: &[Step],
)
    requires { press.old.front.count ≡ 0 }
{
    let mut shown = 0;
    for k in 0..steps.len() {
        let holds = is_so(rt, press, watches, steps[k], &mut shown);
        require_at(rt, holds, "steps with a press", k);
    }
}

/// Takes steps with a press of their own. Once it is closed, the first watch that is left reads nothing, twice.
fn on_press<R: Wait + Abort + AllocGlobal>(rt: &R, steps: &[Step]) {
    let mut press = opened(rt);
    let mut watches = Vec::new(rt.alloc());
    carry_out(rt, &mut press, &mut watches, steps);
    press.close(rt);
    require(rt, !watches.is_empty(), "a watch is left");
    require(rt, read_at(&mut watches, 0).is_none(), "nothing is read");
    require(
        rt,
        read_at(&mut watches, 0).is_none(),
        "nothing is read again",
    );
}

/// The reads of three watches. The third is made after the first sheet that is published, and the second is not read
/// until the end.
const THREE: &[Step] = &[
    Watches(2, 2),
    Reads(0, (0, false, false)),
    Publish(1),
    Reads(0, (1, false, false)),
    Watches(1, 3),
    Reads(2, (1, false, false)),
    Reads(0, (1, false, false)),
    Publish(3),
    Reads(0, (3, true, true)),
    Reads(2, (3, true, true)),
    Reads(1, (3, true, true)),
];

/// A sheet of two steps is not settled, and its vertex is hopeless.
const TWO: &[Step] = &[Watches(1, 1), Publish(2), Reads(0, (2, false, true))];

/// There are 64 places and no more, and one again once the watches are gone.
const PLACES: &[Step] = &[Watches(100, 64), Clear, Watches(1, 1)];

/// The number of sheets that are published while four watches read.
const SHEETS: u32 = 100;

/// Publishes the sheets of 1 step and more, and returns how many were accepted.
fn publish_all<R: Wait + AllocGlobal>(rt: &R, press: &mut Press<Steps>) -> u32
    requires { press.old.front.count ≡ 0 }
{
    let mut accepted = 0u32;
    for count in 0..SHEETS {
        let Ok(sheet) = sheet_of(rt.alloc(), count + 1) else {
            continue;
        };
        if press.publish(rt, sheet).is_ok() {
            accepted = accepted.saturating_add(1);
        }
        thread::yield_now();
    }
    accepted
}

/// Reads at most a million times, until it reads the last sheet. Returns whether it read that one, and no read was
/// older than the one before.
fn reads_on(mut watch: Watch<Steps>) -> bool {
    let mut seen = 0;
    for _ in 0..1_000_000u32 {
        let Some((now, _, _)) = told(&mut watch) else {
            return false;
        };
        if now < seen {
            return false;
        }
        seen = now;
        if seen >= SHEETS {
            break;
        }
        thread::yield_now();
    }
    seen == SHEETS
}

/// Whether each of four watches reads on, in a thread of its own.
fn all_read_on<R: Threads + Sync>(rt: &R, watches: Vec<Watch<Steps>>) -> bool
    requires { IsSync R.row }
{
    match thread::map_vec(rt, watches, &reads_on) {
        Ok(read) => read.as_slice() == [true; 4].as_slice(),
        Err(_) => false,
    }
}

/// One thread publishes, and the four watches read on until they read the last sheet. Returns how many sheets were
/// accepted, and whether each of the four read the last one and never went back.
fn publish_and_read<R: Threads + Wait + AllocGlobal + Sync>(
    rt: &R,
    press: &mut Press<Steps>,
    watches: Vec<Watch<Steps>>,
) -> (u32, bool)
    requires sync { IsSync R.row }
    requires opening { press.old.front.count ≡ 0 }
{
    join(
        rt,
        || -> u32
            requires { press.now.front.count ≡ 0 }
        { publish_all(rt, press) },
        move || -> bool
            requires { IsSync R.row }
        { all_read_on(rt, watches) },
    )
}

/// Whether four watches read on while sheets are published.
fn are_read<R: Threads + Wait + Abort + AllocGlobal + Sync>(rt: &R) -> bool
    requires { IsSync R.row }
{
    let mut press = opened(rt);
    let mut watches = Vec::new(rt.alloc());
    add_watches(rt, &mut press, &mut watches, 4);
    let read = publish_and_read(rt, &mut press, watches);
    press.close(rt);
    read == (100, true)
}

#[test]
fn watches_read_what_is_shown(rt: HostRuntime) {
    on_press(&rt, THREE);
    on_press(&rt, TWO);
    on_press(&rt, PLACES);
    require(&rt, are_read(&rt), "four watches read on");
}
