//! Scripts with their answers and ends, and a line for each table of them, or for each fact.

mod devices;
mod drawn;
mod ends;
mod faults;
mod manners;
mod names;
mod order;
mod rows;
mod runs;
mod served;

use crate::family::Family;
use crate::scripts::rows::Worked;
use anyhow::Result;
use std::alloc::Global;
use std::io;
use std::sync::Wait;
use std::thread::Threads;
use vpg_script::LineFault;

/// A table of rows.
#[derive(Clone, Copy)]
enum Table {
    Worked(Worked),
    Manners,
    Ends,
    Names,
    Drawn,
    Faulty(LineFault),
}

/// The tables with their names.
static TABLES: [(&str, Table); 22] = [
    ("worked scripts, settling", Table::Worked(Worked::Settling)),
    ("worked scripts, changes", Table::Worked(Worked::Changes)),
    ("worked scripts, harvests", Table::Worked(Worked::Harvests)),
    (
        "worked scripts, knowledge",
        Table::Worked(Worked::Knowledge),
    ),
    ("worked scripts, plans", Table::Worked(Worked::Plans)),
    ("worked scripts, counts", Table::Worked(Worked::Counts)),
    (
        "worked scripts, other verdicts",
        Table::Worked(Worked::OtherVerdicts),
    ),
    ("worked scripts, pictures", Table::Worked(Worked::Pictures)),
    (
        "worked scripts, products left",
        Table::Worked(Worked::ProductsLeft),
    ),
    (
        "worked scripts, known features",
        Table::Worked(Worked::Known),
    ),
    ("worked scripts, sights", Table::Worked(Worked::Sights)),
    ("worked scripts, reasons", Table::Worked(Worked::Whys)),
    ("worked scripts, examples", Table::Worked(Worked::Examples)),
    ("worked scripts, offers", Table::Worked(Worked::Offers)),
    (
        "worked scripts, needs and repairs",
        Table::Worked(Worked::NeedsAndRepairs),
    ),
    ("worked scripts, moves", Table::Worked(Worked::Moves)),
    ("scripts in each manner", Table::Manners),
    ("scripts on families, and how they end", Table::Ends),
    ("scripts that call vertices by their names", Table::Names),
    ("pages that scripts leave, drawn", Table::Drawn),
    (
        "lines with other words than their command takes",
        Table::Faulty(LineFault::Args),
    ),
    ("lines without a command", Table::Faulty(LineFault::Word)),
];

/// The facts that are checked one by one.
#[derive(Clone, Copy)]
enum Check {
    WidestMeasures,
    Order,
    FaultyLine,
    LongestLine,
    LongLine,
    Conflict,
    BrokenDevices,
    Manners,
    ServedLines,
    ServedFault,
    ServedDevices,
    ShownFaults,
    LargePicture,
}

/// The facts, as lines say them.
static CHECKS: [(&str, Check); 13] = [
    (
        "a vertex rises to the widest measure",
        Check::WidestMeasures,
    ),
    ("each answer is written before more is read", Check::Order),
    ("a run ends at a faulty line", Check::FaultyLine),
    ("a line has a longest length", Check::LongestLine),
    (
        "a run ends where its reader fails within a long line",
        Check::LongLine,
    ),
    (
        "no office is opened on a diagram in conflict",
        Check::Conflict,
    ),
    (
        "broken devices end a script on a family",
        Check::BrokenDevices,
    ),
    ("a script ends in each manner as it should", Check::Manners),
    ("a server answers lines", Check::ServedLines),
    (
        "a server's script ends at a faulty line",
        Check::ServedFault,
    ),
    (
        "a server's script ends at a device that fails",
        Check::ServedDevices,
    ),
    ("faults show themselves by their words", Check::ShownFaults),
    (
        "a large game is drawn on the page that a script leaves",
        Check::LargePicture,
    ),
];

/// Returns the place of the first row of a table that holds otherwise.
fn first_other<R: Threads + Wait + Sync>(
    rt: &R,
    alloc: Global,
    family: &Family,
    table: Table,
) -> Option<usize> {
    match table {
        Table::Worked(worked) => rows::first_other(rt, alloc, worked),
        Table::Manners => manners::first_other(rt, alloc, family),
        Table::Ends => ends::first_other(rt, alloc),
        Table::Names => names::first_other(rt, alloc),
        Table::Drawn => drawn::first_other(rt, alloc),
        Table::Faulty(fault) => served::first_other(rt, alloc, fault),
    }
}

fn holds<R: Threads + Wait + Sync>(rt: &R, alloc: Global, family: &Family, check: Check) -> bool {
    match check {
        Check::WidestMeasures => rows::rises_to_the_limit(rt, alloc),
        Check::Order => order::is_kept(rt, alloc, family),
        Check::FaultyLine => devices::ends_at_a_faulty_line(rt, alloc, family),
        Check::LongestLine => devices::has_a_longest_line(rt, alloc, family),
        Check::LongLine => manners::ends_in_a_long_line(rt, alloc, family),
        Check::Conflict => devices::is_not_opened(rt, alloc),
        Check::BrokenDevices => ends::breaks(rt, alloc),
        Check::Manners => ends::is_told(rt, alloc),
        Check::ServedLines => served::answers_lines(rt, alloc),
        Check::ServedFault => served::names_the_line(rt, alloc),
        Check::ServedDevices => served::ends_at_devices(rt, alloc),
        Check::ShownFaults => faults::are_shown(alloc),
        Check::LargePicture => drawn::is_large_drawn(rt, alloc),
    }
}

/// Writes which row of a table holds otherwise, if one does.
fn write_rows<R: Print>(rt: &R, name: &str, other: Option<usize>) -> io::Result<()> {
    match other {
        None => println!(rt; "{name}: as stored"),
        Some(row) => println!(rt; "{name}: ROW {row} OTHERWISE"),
    }
}

/// Writes whether the fact of a line holds.
fn write_line<R: Print>(rt: &R, name: &str, holds: bool) -> io::Result<()> {
    let word = if holds { "holds" } else { "DOES NOT HOLD" };
    println!(rt; "{name}: {word}")
}

/// Writes a line for each table.
fn write_tables<R: Threads + Wait + Sync + Print>(
    rt: &R,
    alloc: Global,
    family: &Family,
) -> io::Result<()> {
    for (name, table) in &TABLES {
        write_rows(rt, name, first_other(rt, alloc, family, *table))?;
    }
    Ok(())
}

/// Writes a line for each check.
fn write_checks<R: Threads + Wait + Sync + Print>(
    rt: &R,
    alloc: Global,
    family: &Family,
) -> io::Result<()> {
    for (name, check) in &CHECKS {
        write_line(rt, name, holds(rt, alloc, family, *check))?;
    }
    Ok(())
}

/// Writes both.
fn write_both<R: Threads + Wait + Sync + Print>(
    rt: &R,
    alloc: Global,
    family: &Family,
) -> Result<()> {
    write_tables(rt, alloc, family)?;
    write_checks(rt, alloc, family)?;
    Ok(())
}

/// Carries out all scripts but the longest, and writes a line for each table and check.
pub(crate) fn carry_out<R: Threads + Wait + Sync + Print>(rt: &R, alloc: Global) -> Result<()> {
    let family = Family::built_in(alloc)?;
    write_both(rt, alloc, &family)
}

/// Fills the log of a run, and reads a script as often as one may be, and writes whether no more calls are taken, and
/// no more reads are made.
pub(crate) fn exhaust<R: Threads + Wait + Sync + Print>(rt: &R, alloc: Global) -> Result<()> {
    let family = Family::built_in(alloc)?;
    let is_filled = devices::fills_its_log(rt, alloc, &family);
    write_line(
        rt,
        "the log of a run takes 1,048,576 calls and no more",
        is_filled,
    )?;
    let is_counted = devices::counts_reads(rt, alloc, &family);
    write_line(
        rt,
        "a script is read 16,777,216 times and no more often",
        is_counted,
    )?;
    Ok(())
}
