//! An office that nobody shares.
ghost use Rattle.std.specs.Prelude.{◌≡◌, ◌+◌, length, true, false};
ghost use mathlib.Core.List.{IsPrefix};
ghost use Rattle.vpg_desk.specs.Book.{opened};
ghost use Rattle.vpg_desk.specs.History.{book_after};
ghost use Rattle.vpg_office.specs.Fronts.{IsHistory, family_between};
ghost use Rattle.vpg_office.specs.Kept.{IsElsewhere};

use crate::chronicle::Row;
use crate::ended::Ended;
use crate::front::Front;
use crate::log::Log;
use crate::office::{Office, Shared};
use crate::terms::Terms;
use crate::token::{Redo, Undo};
use std::marker::{Model, PhantomData};
use std::sync::{Mutex, Wait};

/// An office that nobody shares: its log is out of the lock. It can't be dropped: `share` puts it under the lock again,
/// `end` ends it. Contracts see its log, as a front of all calls.
pub struct Unshared<L: Terms> {
    pub(crate) row: Row,
    pub(crate) log: Log<L>,
}

impl<L: Terms> Model for Unshared<L> {
    ghost use Rattle.std.specs.Coded.{codes};
    ghost use Rattle.std.specs.Prelude.{List};
    ghost use Rattle.vpg_desk.specs.History.{Event};

    ghost Value = { List Event };

    ghost coded = { Prim.hlevel codes };

    ghost use Rattle.std.specs.Prelude.{◌≡◌};

    ghost view = { λ u. u.log };

    ghost invariant = { λ u. u.row ≡ L.shelves };
}

impl<L: Terms> Unshared<L> {
    /// Returns the number of tokens that are out.
    pub fn tokens(&self) -> u64
        ensures tokens { result ≡ (book_after (family_between L.game L.diagram) opened self.now).tokens }
    {
        self.log.tokens()
    }

    /// Returns its log: a front of all calls.
    pub fn log(&self) -> Front<L>
        ensures whole { result ≡ self.now }
        ensures history { IsHistory (family_between L.game L.diagram) self.now }
    {
        self.log.whole()
    }

    /// Whether the front is a beginning of the log. It isn't if the log lacks its last call.
    pub fn has(&self, front: &Front<L>) -> bool
        ensures begins { result ≡ true → IsPrefix front.now self.now }
        // So the empty front always is.
        ensures lacks { result ≡ false →
            IsElsewhere L.shelves (family_between L.game L.diagram) self.now front.now }
    {
        match self.log.calls.has(&self.row, front) {
            Ok(()) => true,
            Err(_place) => false,
        }
    }

    /// Puts it under the lock again.
    pub fn share(self) -> Office<L> {
        let Unshared { row, log } = self;
        Shared {
            row,
            log: Mutex::new(log),
            of: PhantomData,
        }
    }

    /// Spends the tokens handed in, and ends the office, whatever the log's room. It is never refused.
    pub fn end<R: Wait>(self, rt: &R, undos: Vec<Undo<L>>, redos: Vec<Redo<L>>) -> Ended<L>
        ensures further { result + length undos.items + length redos.items
            ≡ (book_after (family_between L.game L.diagram) opened self).tokens }
    {
        let Unshared { row, log } = self;
        let mut ended = log.dissolve(rt, row);
        ended.spend_all(undos);
        ended.spend_all(redos);
        ended
    }
}
