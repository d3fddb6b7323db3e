//! Calls that decide and retract.

use crate::asked::SessionCall;
use crate::calls::{Asked, Call, Issued, Made, issue_token};
use crate::purse::Purse;
use crate::terms::Terms;
use crate::token::Undo;
use std::alloc::Global;
use vpg_desk::{DecideFault, Desk, ResetFault, RetractFault};
use vpg_faults::Returned;

/// Decides a feature in or out.
#[derive(Drop)]
pub struct DecideCall {
    pub alloc: Global,
    pub feature: u16,
    pub value: bool,
}

impl<L: Terms> Call<L> for DecideCall {
    ghost use Rattle.std.specs.Prelude.{◌≡◌};
    ghost use Rattle.vpg_desk.specs.Book as book;
    ghost use Rattle.vpg_office.specs.declared.asked.SessionCall.TheVariants as ask;

    type Given = Undo<L>;

    type Made = Issued<L, vpg_desk::Undo>;

    type Refused = DecideFault;

    ghost asks = { λ c. ask.Decide c.feature c.value };

    ghost means = { λ c. book.Decide c.feature c.value };

    ghost replies = { λ undo. book.Changed undo.serial };

    ghost Gives = { λ c front undo. undo.history ≡ front };

    fn asked(&self) -> Asked<L> {
        Asked {
            call: SessionCall::Decide {
                feature: self.feature,
                value: self.value,
            },
            own: None,
            sheet: Some(self.alloc),
        }
    }

    fn carry_out(
        self,
        desk: &mut Desk,
        purse: &mut Purse<L>,
        session: u32,
    ) -> Result<Made<Issued<L, vpg_desk::Undo>>, Returned<Option<DecideFault>, DecideCall>> {
        match desk.decide(self.alloc, session, self.feature, self.value) {
            Ok(token) => Ok(issue_token(purse, token)),
            Err(fault) => Err(Returned {
                fault: Some(fault),
                value: self,
            }),
        }
    }
}

/// Retracts the decision on a feature.
#[derive(Drop)]
pub struct RetractCall {
    pub alloc: Global,
    pub feature: u16,
}

impl<L: Terms> Call<L> for RetractCall {
    ghost use Rattle.std.specs.Prelude.{◌≡◌};
    ghost use Rattle.vpg_desk.specs.Book as book;
    ghost use Rattle.vpg_office.specs.declared.asked.SessionCall.TheVariants as ask;

    type Given = Undo<L>;

    type Made = Issued<L, vpg_desk::Undo>;

    type Refused = RetractFault;

    ghost asks = { λ c. ask.Retract c.feature };

    ghost means = { λ c. book.Retract c.feature };

    ghost replies = { λ undo. book.Changed undo.serial };

    ghost Gives = { λ c front undo. undo.history ≡ front };

    fn asked(&self) -> Asked<L> {
        Asked {
            call: SessionCall::Retract {
                feature: self.feature,
            },
            own: None,
            sheet: Some(self.alloc),
        }
    }

    fn carry_out(
        self,
        desk: &mut Desk,
        purse: &mut Purse<L>,
        session: u32,
    ) -> Result<Made<Issued<L, vpg_desk::Undo>>, Returned<Option<RetractFault>, RetractCall>> {
        match desk.retract(self.alloc, session, self.feature) {
            Ok(token) => Ok(issue_token(purse, token)),
            Err(fault) => Err(Returned {
                fault: Some(fault),
                value: self,
            }),
        }
    }
}

/// Retracts every decision.
#[derive(Drop)]
pub struct ResetCall {
    pub alloc: Global,
}

impl<L: Terms> Call<L> for ResetCall {
    ghost use Rattle.std.specs.Prelude.{◌≡◌};
    ghost use Rattle.vpg_desk.specs.Book as book;
    ghost use Rattle.vpg_office.specs.declared.asked.SessionCall.TheVariants as ask;

    type Given = Undo<L>;

    type Made = Issued<L, vpg_desk::Undo>;

    type Refused = ResetFault;

    ghost asks = { λ c. ask.Reset };

    ghost means = { λ c. book.Reset };

    ghost replies = { λ undo. book.Changed undo.serial };

    ghost Gives = { λ c front undo. undo.history ≡ front };

    fn asked(&self) -> Asked<L> {
        Asked {
            call: SessionCall::Reset,
            own: None,
            sheet: Some(self.alloc),
        }
    }

    fn carry_out(
        self,
        desk: &mut Desk,
        purse: &mut Purse<L>,
        session: u32,
    ) -> Result<Made<Issued<L, vpg_desk::Undo>>, Returned<Option<ResetFault>, ResetCall>> {
        match desk.reset(self.alloc, session) {
            Ok(token) => Ok(issue_token(purse, token)),
            Err(fault) => Err(Returned {
                fault: Some(fault),
                value: self,
            }),
        }
    }
}
