//! The base of an office.
ghost use Rattle.std.specs.Prelude.{◌≡◌};

use crate::chronicle::Row;
use std::alloc::{AllocError, Global};
use std::marker::Model;
use std::sync::ledger::Blank;

/// The parts of a ledger: 1,048,577 for tokens, 1,048,576 for sessions and 1,048,577 for calls. No log has that many
/// calls, so fewer tokens are out, and the numbers of all sessions add up to less.
pub const PARTS: u64 = 3_145_730;

/// The parts for calls: one for each that a log may take, and one that is always left.
pub(crate) const CALLS: u64 = 1_048_577;

/// An empty row of calls and a blank ledger, which no office has yet. The opener of an office picks its type parameter
/// from them. Contracts see the row's name, and the ledger's name and parts.
#[derive(Drop)]
pub struct Site {
    pub(crate) row: Row,
    pub(crate) blank: Blank,
}

impl Model for Site {
    ghost use Rattle.std.specs.Coded.{codes};
    ghost use Rattle.boxcar.specs.Table.{shelves_coded};
    ghost use Rattle.vpg_office.specs.Token.{Named};

    ghost Value = { Named };

    ghost coded = { Prim.hlevel (codes, shelves_coded) };

    ghost use Rattle.std.specs.Prelude.{◌≡◌};

    ghost view = { λ g. record { row = g.row; name = g.blank.name; parts = g.blank.parts } };

    ghost invariant = { λ g. g.blank.parts ≡ 3145730 };
}

impl Site {
    pub fn new(alloc: Global) -> Result<Site, AllocError> {
        Ok(Site {
            row: Row::new(alloc)?,
            blank: Blank::new(PARTS),
        })
    }
}
