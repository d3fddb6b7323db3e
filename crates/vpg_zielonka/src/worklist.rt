//! Vertices that wait to be looked at.
ghost use Rattle.std.specs.Prelude.{◌≡◌, ℕ, ◌<◌, OnOk, IfOk, IfSome, IfNone, false, true, length, replicate, slice_set, slice_index_or};

use std::alloc::{AllocError, Global};
use std::collections::VecDeque;
use std::marker::Model;

/// Vertices that wait, the first one in front.
///
/// Clauses see it as a list that says of each vertex whether it waits.
#[derive(Drop)]
pub(crate) struct Worklist {
    waits: Vec<bool>,
    queue: VecDeque<u32>,
}

impl Model for Worklist {
    ghost use Rattle.std.specs.Prelude.{List, Bool};
    ghost use Rattle.vpg_zielonka.specs.Worklists.{IsQueue};

    ghost Value = { List Bool };

    ghost view = { λ w. w.waits.items };

    ghost invariant = { λ w. IsQueue w.waits.items w.queue.items };
}

impl Worklist {
    /// Returns the list for this number of vertices, of which none waits.
    pub(crate) fn new(alloc: Global, vertices: usize) -> Result<Worklist, AllocError>
        ensures { IfOk result (λ list. list ≡ replicate vertices false) }
    {
        Ok(Worklist {
            waits: vec![in alloc; false; vertices]?,
            queue: VecDeque::new(alloc),
        })
    }

    /// Adds a vertex, if it doesn't wait yet.
    pub(crate) fn add(&mut self, v: u32) -> Result<(), AllocError>
        requires { v < length self.old }
        ensures { OnOk result (self.new ≡ slice_set self.old v true) }
    {
        if self.waits[v as usize] {
            return Ok(());
        }
        self.queue.push_back(v)?;
        self.waits[v as usize] = true;
        Ok(())
    }

    /// Removes the vertex in front, and returns it.
    pub(crate) fn pop(&mut self) -> Option<u32>
        ensures first { IfSome result (λ v. (v < length self.old) × (self.new ≡ slice_set self.old v false)) }
        ensures none { IfNone result ((v : ℕ) → slice_index_or self.old v false ≡ false) }
    {
        let Some(v) = self.queue.pop_front() else {
            return None;
        };
        self.waits[v as usize] = false;
        Some(v)
    }
}
