//! Commits of lifters' harvests.
ghost use Rattle.std.specs.Prelude.{◌≡◌, ℕ, Bool, true, IfOk, IfErr, OnOk, OnErr, IfSome};
ghost use Rattle.std.specs.Bool.{Decides};
ghost use Rattle.vpg_desk.specs.Book as book;
ghost use Rattle.vpg_desk.specs.Commit.{IsOrderOf, handed_in};
ghost use Rattle.vpg_faults.specs.Refusals.{commit_refusal};
ghost use Rattle.vpg_desk.specs.State.{IsStep, Replies};

use crate::asked::{Answer, SessionCall};
use crate::calls::{Asked, Call, Made};
use crate::purse::Purse;
use crate::terms::Terms;
use std::alloc::Global;
use std::snapshot::Snapshot;
use vpg_desk::{CommitFault, CommitRefused, Desk};
use vpg_faults::Returned;
use vpg_measure::Harvest;

/// Hands a harvest to the desk. One that is known to be of its game and diagram isn't compared with them.
fn hand_in(
    desk: &mut Desk,
    alloc: Global,
    harvest: Harvest,
    own: bool,
) -> Result<u32, CommitRefused>
    requires own { own ≡ true → IsOrderOf desk.old harvest.order }
    ensures accepted { IfOk result
        (λ added. (session : ℕ) →
        IsStep desk.old session (book.Commit (handed_in true harvest)) (book.Added added) desk.new) }
    ensures same { OnOk result (IsOrderOf desk.old harvest.order) }
    ensures refused { IfErr result
        (λ r. IfSome (commit_refusal r.fault)
        (λ refusal. (b : Bool) ×
        (Decides b (IsOrderOf desk.old harvest.order) ×
        Replies desk.old (book.Commit (handed_in b harvest)) (book.Refused refusal)))) }
    ensures err { OnErr result (desk.new ≡ desk.old) }
    ensures back { IfErr result (λ r. r.harvest ≡ harvest) }
{
    if own {
        return desk.commit_own(alloc, harvest);
    }
    desk.commit(alloc, harvest)
}

/// Commits a harvest; `own` if it is known to be of the desk's game and diagram.
#[derive(Drop)]
pub struct CommitCall {
    pub alloc: Global,
    pub harvest: Harvest,
    pub own: bool,
}

impl<L: Terms> Call<L> for CommitCall {
    ghost use Rattle.std.specs.Prelude.{◌≡◌, true};
    ghost use Rattle.vpg_desk.specs.Book as book;
    ghost use Rattle.vpg_desk.specs.Commit.{handed_in};
    ghost use Rattle.vpg_office.specs.Story.{IsOf};
    ghost use Rattle.vpg_office.specs.declared.asked.SessionCall.TheVariants as ask;

    type Given = u32;

    type Made = u32;

    type Refused = CommitFault;

    ghost asks = { λ c. ask.Commit (record { marker = record {}; value = c.harvest }) };

    ghost means = { λ c. book.Commit (handed_in true c.harvest) };

    ghost replies = { λ entries. book.Added entries };

    ghost Takes = { λ c. c.own ≡ true → IsOf L.game L.diagram c.harvest.order };

    ghost Gives = { λ c front entries. IsOf L.game L.diagram c.harvest.order };

    fn asked(&self) -> Asked<L> {
        Asked {
            call: SessionCall::Commit {
                harvest: Snapshot::of(&self.harvest),
            },
            own: None,
            sheet: Some(self.alloc),
        }
    }

    fn carry_out(
        self,
        desk: &mut Desk,
        _purse: &mut Purse<L>,
        _session: u32,
    ) -> Result<Made<u32>, Returned<Option<CommitFault>, CommitCall>> {
        let CommitCall {
            alloc,
            harvest,
            own,
        } = self;
        let _ = harvest.order();
        match hand_in(desk, alloc, harvest, own) {
            Ok(entries) => Ok(Made {
                given: entries,
                answer: Answer::Added { entries },
            }),
            Err(CommitRefused { fault, harvest }) => Err(Returned {
                fault: Some(fault),
                value: CommitCall {
                    alloc,
                    harvest,
                    own,
                },
            }),
        }
    }
}

impl From<CommitCall> for Harvest {
    ghost use Rattle.std.specs.Prelude.{◌≡◌};

    ghost from_gives = { λ call harvest. harvest ≡ call.harvest };

    fn from(call: CommitCall) -> Harvest {
        let CommitCall {
            alloc: _,
            harvest,
            own: _,
        } = call;
        harvest
    }
}
