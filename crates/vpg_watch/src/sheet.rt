//! Sheets: the verdicts of a page.
ghost use Rattle.std.specs.Prelude.{◌≡◌, ◌^◌, ◌<◌};

use crate::follows::Follows;
use std::marker::Model;
use std::sync::Arc;
use vpg_sides::Verdict;

/// A verdict for each vertex, in file order. Contracts see it as a list; it is a `Vec` inside, one verdict in two
/// bytes.
#[derive(Drop)]
pub struct Verdicts {
    verdicts: Vec<Verdict>,
}

impl Model for Verdicts {
    ghost use Rattle.std.specs.Prelude.{List};
    ghost use Rattle.vpg_sides.specs.declared.verdict.Verdict.{Verdict};

    ghost Value = { List Verdict };

    ghost view = { λ v. v.verdicts.items };
}

impl Verdicts {
    /// Makes the list from a `Vec`, without taking memory.
    pub fn new(verdicts: Vec<Verdict>) -> Verdicts
        ensures { result ≡ verdicts.items }
    {
        Verdicts { verdicts }
    }

    /// Returns the `Vec` itself, without taking memory.
    pub fn into_vec(self) -> Vec<Verdict>
        ensures { result.items ≡ self }
    {
        let Verdicts { verdicts } = self;
        verdicts
    }

    /// Returns the verdicts; that of vertex `v` is at `v`.
    pub fn as_slice(&self) -> &[Verdict]
        ensures { result.now ≡ self.now }
    {
        self.verdicts.as_slice()
    }
}

/// The number of calls, settledness and verdicts of the page to which a front leads.
#[derive(Drop)]
pub struct Sheet<F> {
    /// The number of calls of the front: the length of the row when the sheet was made. Of two sheets that one watch
    /// reads, the later one has no smaller number.
    pub at: u32,
    /// Whether both tables of the page are settled.
    pub settled: bool,
    /// The verdict of the page's tables on each vertex. Sheets of pages with the same verdicts may share the list.
    pub verdicts: Arc<Verdicts>,
    /// The calls that led to the page.
    pub front: F,
}

impl<F: Follows> Sheet<F> {
    /// Returns a sheet of the front, with the front's number of calls as its `at`.
    pub fn of(front: F, settled: bool, verdicts: Arc<Verdicts>) -> Sheet<F>
        requires { F.calls front < 2 ^ 32 }
        ensures { result ≡ record { at = F.calls front; settled = settled; verdicts = verdicts; front = front } }
    {
        Sheet {
            at: front.len() as u32,
            settled,
            verdicts,
            front,
        }
    }
}
