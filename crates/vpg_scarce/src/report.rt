//! The results of calls, a line for each.

use crate::heap::Heap;
use crate::trial::{Finding, Trial, tried};
use std::alloc::{AllocError, Global};
use std::io;
use std::sync::Wait;

/// The result of a call, and how often memory was left for one until then.
#[derive(Clone, Copy, Drop)]
struct Row {
    name: &'static str,
    told: Finding,
    tries: u64,
}

/// A line for each call.
#[derive(Drop)]
pub struct Report {
    rows: Vec<Row>,
    /// Whether there was room for each line.
    is_whole: bool,
}

/// The number of lines that there is room for.
const MOST_ROWS: usize = 100;

/// Returns the word for a call's result.
fn word_of(told: Finding) -> &'static str {
    match told {
        Finding::TakesNone => "takes no memory",
        Finding::Unchanged => "each growth refused in turn, unchanged",
        Finding::Changed => "CHANGED by a refused growth",
        Finding::Otherwise => "ENDS OTHERWISE",
        Finding::Never => "IS NEVER DONE",
    }
}

impl Report {
    /// Returns a report without a line, with room for a hundred.
    pub fn new(alloc: Global) -> Result<Report, AllocError> {
        let rows = Vec::with_capacity(alloc, MOST_ROWS)?;
        Ok(Report {
            rows,
            is_whole: true,
        })
    }

    /// Notes the result of the call that was made last. It takes no memory.
    pub fn note(&mut self, heap: &Heap, name: &'static str, told: Finding) {
        let tries = heap.tries();
        if self.rows.len() < self.rows.capacity() {
            self.rows.push_reserved(Row { name, told, tries });
        } else {
            self.is_whole = false;
        }
    }

    /// Makes a call with more and more memory, and notes its result.
    pub fn try_call<R: Wait, T: Trial<R>>(
        &mut self,
        rt: &R,
        heap: &mut Heap,
        name: &'static str,
        trial: &mut T,
    ) {
        let told = tried(rt, heap, trial);
        self.note(heap, name, told);
    }

    /// Writes all lines. If calls are marked, the count of tries until then stands before each.
    pub fn write<R: Print>(&self, rt: &R, heap: &Heap) -> io::Result<()> {
        for row in &self.rows {
            if heap.is_marked() {
                print!(rt; "{} ", row.tries)?;
            }
            println!(rt; "{}: {}", row.name, word_of(row.told))?;
        }
        if !self.is_whole {
            println!(rt; "further lines are missing")?;
        }
        Ok(())
    }
}
