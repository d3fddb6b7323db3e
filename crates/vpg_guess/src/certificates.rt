//! Certificates for guesses.
ghost use Rattle.std.specs.Prelude.{IfOk};
ghost use Rattle.vpg_measure.specs.Lifts.{IsTableOf};

use crate::part::Part;
use crate::raising::Raising;
use std::alloc::{AllocError, Global};
use vpg_hope::Arena;
use vpg_measure::{Certificate, Shape, Table};
use vpg_regions::PerVertex;
use vpg_values::RankedBounds;

// A table of these numbers, each cut to the top.
#[tactic(auto, using(vpg_measure::proofs::Rounds::table_set))]
fn table_of(
    alloc: Global,
    shape: &Shape,
    arena: &Arena,
    numbers: &PerVertex<u64>,
) -> Result<Table, AllocError>
    ensures { IfOk result (λ table. IsTableOf shape.now arena.now table) }
{
    let mut table = Table::zero(alloc, shape, arena.vertices())?;
    for v in 0..arena.vertices() {
        table.set(v, numbers.get(v).min(shape.top()));
    }
    Ok(table)
}

// Writes numbers of a part's vertices to a table, each cut to the top.
#[tactic(auto, using(vpg_measure::proofs::Rounds::table_set))]
fn write_part(
    shape: &Shape,
    arena: &Arena,
    part: &Part,
    numbers: &PerVertex<u64>,
    table: &mut Table,
)
    requires { IsTableOf shape.now arena.now table.old }
    ensures { IsTableOf shape.now arena.now table.new }
{
    let mut place = 0u32;
    for v in &part.vertices {
        if *v < arena.vertices() {
            table.set(*v, numbers.get(place).min(shape.top()));
        }
        place = place.saturating_add(1);
    }
}

// A table of zeros.
#[tactic(auto, using(vpg_measure::proofs::Rounds::table_set))]
fn zeros(alloc: Global, shape: &Shape, arena: &Arena) -> Result<Table, AllocError>
    ensures { IfOk result (λ table. IsTableOf shape.now arena.now table) }
{
    Table::zero(alloc, shape, arena.vertices())
}

impl Raising<'_> {
    /// Returns the certificate of these bounds and ranks, each cut to the top.
    pub(crate) fn certificate_of(&self, ranked: &RankedBounds) -> Result<Certificate, AllocError>
        ensures bounds { IfOk result
            (λ certificate. IsTableOf self.now.levels self.now.arena certificate.bounds) }
        ensures ranks { IfOk result
            (λ certificate. IsTableOf self.now.dual_levels self.now.arena certificate.ranks) }
    {
        Ok(Certificate {
            bounds: table_of(self.alloc, self.shape, self.arena, &ranked.bounds)?,
            ranks: table_of(self.alloc, self.dual_shape, self.arena, &ranked.ranks)?,
        })
    }

    /// Returns the certificate of the bounds and ranks of a part, and of the table elsewhere.
    pub(crate) fn certificate_around(
        &self,
        part: &Part,
        ranked: &RankedBounds,
    ) -> Result<Certificate, AllocError>
        ensures bounds { IfOk result
            (λ certificate. IsTableOf self.now.levels self.now.arena certificate.bounds) }
        ensures ranks { IfOk result
            (λ certificate. IsTableOf self.now.dual_levels self.now.arena certificate.ranks) }
    {
        let mut bounds = self.table.copy(self.alloc)?;
        write_part(self.shape, self.arena, part, &ranked.bounds, &mut bounds);
        let mut ranks = zeros(self.alloc, self.dual_shape, self.arena)?;
        write_part(self.dual_shape, self.arena, part, &ranked.ranks, &mut ranks);
        Ok(Certificate { bounds, ranks })
    }
}
