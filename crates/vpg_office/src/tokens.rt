//! Calls that take a token.
ghost use Rattle.std.specs.Prelude.{◌≡◌, Some, IfErr, IfSome, OnOk};
ghost use mathlib.Core.List.{IsPrefix};
ghost use Rattle.vpg_office.specs.Fronts.{family_between};
ghost use Rattle.vpg_office.specs.Kept.{HasOwn, IsChronicle, IsLastGiven, Lacking, OwnIsLacking};

use crate::asked::{Answer, SessionCall};
use crate::calls::{Asked, Call, Issued, Made};
use crate::chronicle::Row;
use crate::closing::spend_one;
use crate::front::{Front, Own, Place};
use crate::kind::Kind;
use crate::log::Calls;
use crate::purse::Purse;
use crate::terms::Terms;
use crate::token::{Redo, Token, Undo};
use std::alloc::Global;
use vpg_desk::{Desk, RedoFault, RedoRefused, UndoFault, UndoRefused};
use vpg_faults::{Never, Returned};

/// A front that the log lacks, by the place at its end. Without a place, the token's front doesn't end with the log's
/// last call that gave a token of the serial.
#[derive(Drop)]
pub(crate) struct Lacks {
    pub(crate) place: Option<Place>,
}

impl<L: Terms> Calls<L> {
    /// Succeeds if the log has a token's front, which ends with the log's last call that gave a token of the serial.
    fn holds(&self, row: &Row, serial: u64, own: &Front<L>) -> Result<(), Lacks>
        requires row { row.now ≡ L.shelves }
        requires kept { IsChronicle L.shelves L.game L.diagram self.now.chronicle self.now.newest }
        ensures last { OnOk result (IsLastGiven self.now.newest serial own.now) }
        ensures lacks { IfErr result
            (λ lacks. OwnIsLacking L.shelves (family_between L.game L.diagram) self.now.chronicle.places.items
            self.now.newest serial own.now lacks.place) }
    {
        let count = own.len();
        if serial == 0 || count == 0 {
            return Err(Lacks { place: None });
        }
        let at = (serial - 1) as usize;
        if at >= self.chronicle.given.len() || self.chronicle.given[at] != count - 1 {
            return Err(Lacks { place: None });
        }
        match self.has(row, own) {
            Ok(()) => Ok(()),
            Err(place) => Err(Lacks { place: Some(place) }),
        }
    }

    /// Succeeds if the log has the front and a token's.
    pub(crate) fn has_both(
        &self,
        row: &Row,
        front: &Front<L>,
        own: &Option<Own<L>>,
    ) -> Result<(), Lacks>
        requires row { row.now ≡ L.shelves }
        requires kept { IsChronicle L.shelves L.game L.diagram self.now.chronicle self.now.newest }
        ensures front { OnOk result (IsPrefix front.now self.now.newest) }
        ensures own { OnOk result (IfSome own.now (HasOwn self.now.newest)) }
        ensures lacks { IfErr result
            (λ lacks. Lacking L.shelves (family_between L.game L.diagram) self.now.chronicle.places.items
            self.now.newest front.now own.now lacks.place) }
    {
        if let Err(place) = self.has(row, front) {
            return Err(Lacks { place: Some(place) });
        }
        let Some(own) = own else {
            return Ok(());
        };
        if let Some(serial) = own.serial {
            return self.holds(row, serial, &own.front);
        }
        match self.has(row, &own.front) {
            Ok(()) => Ok(()),
            Err(place) => Err(Lacks { place: Some(place) }),
        }
    }
}

/// Returns the front that the log has to have for a token. With a serial, it has to end with the log's last call that
/// gave a token of it.
fn own_of<L: Terms>(place: &Front<L>, serial: Option<u64>) -> Option<Own<L>>
    ensures { result ≡ Some (record { front = place.now; serial = serial }) }
{
    Some(Own {
        front: place.copy(),
        serial,
    })
}

/// Undoes a token's change.
pub struct UndoCall<L: Terms> {
    pub alloc: Global,
    pub token: Undo<L>,
}

impl<L: Terms> Call<L> for UndoCall<L> {
    ghost use Rattle.std.specs.Prelude.{◌≡◌, Some};
    ghost use Rattle.vpg_desk.specs.Book as book;
    ghost use Rattle.vpg_office.specs.Fronts.{GoesBackTo, family_between};
    ghost use Rattle.vpg_office.specs.declared.asked.SessionCall.TheVariants as ask;

    type Given = Redo<L>;

    type Made = Issued<L, vpg_desk::Redo>;

    type Refused = UndoFault;

    ghost asks = { λ c. ask.Undo c.token.serial };

    ghost means = { λ c. book.Undo c.token.serial };

    ghost replies = { λ token. book.Undone token.serial };

    ghost owns = { λ c. Some (record { front = c.token.history; serial = Some c.token.serial }) };

    ghost Gives = { λ c front token. (token.history ≡ front) ×
        GoesBackTo (family_between L.game L.diagram) front c.token.history };

    fn asked(&self) -> Asked<L> {
        let serial = self.token.serial();
        Asked {
            call: SessionCall::Undo { serial },
            own: own_of(&self.token.place, Some(serial)),
            sheet: Some(self.alloc),
        }
    }

    fn carry_out(
        self,
        desk: &mut Desk,
        purse: &mut Purse<L>,
        _session: u32,
    ) -> Result<Made<Issued<L, vpg_desk::Redo>>, Returned<Option<UndoFault>, UndoCall<L>>> {
        let UndoCall { alloc, token } = self;
        let Undo {
            token,
            place,
            mut share,
        } = token;
        purse.audit(&mut share);
        match desk.undo(alloc, token) {
            Ok(token) => {
                let answer = Answer::Undone {
                    serial: token.serial(),
                };
                Ok(Made {
                    given: Issued { token, share },
                    answer,
                })
            }
            Err(UndoRefused { fault, token }) => {
                let token = Undo {
                    token,
                    place,
                    share,
                };
                Err(Returned {
                    fault: Some(fault),
                    value: UndoCall { alloc, token },
                })
            }
        }
    }
}

impl<L: Terms> From<UndoCall<L>> for Undo<L> {
    ghost use Rattle.std.specs.Prelude.{◌≡◌};

    ghost from_gives = { λ call token. token ≡ call.token };

    fn from(call: UndoCall<L>) -> Undo<L> {
        let UndoCall { alloc: _, token } = call;
        token
    }
}

/// Redoes a token's change.
pub struct RedoCall<L: Terms> {
    pub alloc: Global,
    pub token: Redo<L>,
}

impl<L: Terms> Call<L> for RedoCall<L> {
    ghost use Rattle.std.specs.Prelude.{◌≡◌, Some};
    ghost use Rattle.vpg_desk.specs.Book as book;
    ghost use Rattle.vpg_office.specs.Fronts.{GoesBackTo, family_between};
    ghost use Rattle.vpg_office.specs.declared.asked.SessionCall.TheVariants as ask;

    type Given = Undo<L>;

    type Made = Issued<L, vpg_desk::Undo>;

    type Refused = RedoFault;

    ghost asks = { λ c. ask.Redo c.token.serial };

    ghost means = { λ c. book.Redo c.token.serial };

    ghost replies = { λ token. book.Redone token.serial };

    ghost owns = { λ c. Some (record { front = c.token.history; serial = Some c.token.serial }) };

    ghost Gives = { λ c front token. (token.history ≡ front) ×
        GoesBackTo (family_between L.game L.diagram) front c.token.history };

    fn asked(&self) -> Asked<L> {
        let serial = self.token.serial();
        Asked {
            call: SessionCall::Redo { serial },
            own: own_of(&self.token.place, Some(serial)),
            sheet: Some(self.alloc),
        }
    }

    fn carry_out(
        self,
        desk: &mut Desk,
        purse: &mut Purse<L>,
        _session: u32,
    ) -> Result<Made<Issued<L, vpg_desk::Undo>>, Returned<Option<RedoFault>, RedoCall<L>>> {
        let RedoCall { alloc, token } = self;
        let Redo {
            token,
            place,
            mut share,
        } = token;
        purse.audit(&mut share);
        match desk.redo(alloc, token) {
            Ok(token) => {
                let answer = Answer::Redone {
                    serial: token.serial(),
                };
                Ok(Made {
                    given: Issued { token, share },
                    answer,
                })
            }
            Err(RedoRefused { fault, token }) => {
                let token = Redo {
                    token,
                    place,
                    share,
                };
                Err(Returned {
                    fault: Some(fault),
                    value: RedoCall { alloc, token },
                })
            }
        }
    }
}

impl<L: Terms> From<RedoCall<L>> for Redo<L> {
    ghost use Rattle.std.specs.Prelude.{◌≡◌};

    ghost from_gives = { λ call token. token ≡ call.token };

    fn from(call: RedoCall<L>) -> Redo<L> {
        let RedoCall { alloc: _, token } = call;
        token
    }
}

/// Spends a token.
pub struct SpendCall<L: Terms, T: Kind> {
    pub token: Token<L, T>,
}

/// Spends the token of a change.
pub type KeepCall<L> = SpendCall<L, vpg_desk::Undo>;

/// Spends the token of a change that was undone.
pub type ForgetCall<L> = SpendCall<L, vpg_desk::Redo>;

impl<L: Terms, T: Kind> Call<L> for SpendCall<L, T> {
    ghost use Rattle.std.specs.Prelude.{Some, None};
    ghost use Rattle.vpg_desk.specs.Book as book;
    ghost use Rattle.vpg_office.specs.Story.{call_of};
    ghost use Rattle.vpg_office.specs.declared.asked.Answer.TheVariants as answer;

    type Given = ();

    type Made = ();

    type Refused = Never;

    ghost asks = { λ c. T.asks c.token.serial };

    ghost means = { λ c. call_of (T.asks c.token.serial) answer.Spent };

    ghost replies = { λ nothing. book.Spent };

    ghost owns = { λ c. Some (record { front = c.token.history; serial = None }) };

    fn asked(&self) -> Asked<L> {
        Asked {
            call: self.token.spending(),
            own: own_of(&self.token.place, None),
            sheet: None,
        }
    }

    fn carry_out(
        self,
        desk: &mut Desk,
        purse: &mut Purse<L>,
        _session: u32,
    ) -> Result<Made<()>, Returned<Option<Never>, SpendCall<L, T>>> {
        let SpendCall { token } = self;
        spend_one(desk, purse, token);
        Ok(Made {
            given: (),
            answer: Answer::Spent,
        })
    }
}

impl<L: Terms, T: Kind> From<SpendCall<L, T>> for Token<L, T> {
    ghost use Rattle.std.specs.Prelude.{◌≡◌};

    ghost from_gives = { λ call token. token ≡ call.token };

    fn from(call: SpendCall<L, T>) -> Token<L, T> {
        let SpendCall { token } = call;
        token
    }
}
