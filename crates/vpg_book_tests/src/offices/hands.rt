//! Sessions at work, without the clauses of their calls: what follows a call is then proved with few facts beside it.
//! An event that a test never expects, such as memory running out, stops it.

use crate::calls::{Answer, At, By, Calls, RowCall, harvest_of, hold_harvest};
use crate::given::given;
use crate::pages::is_text;
use std::mem;
use std::process::Abort;
use std::sync::Wait;
use std::test::*;
use vpg_faults::{Never, Returned};
use vpg_measure::Harvest;
use vpg_office::{Fault, Front, NotWatched, Office, Redo, Session, Terms, Undo, read};
use vpg_watch::{Watch, WatchFault};

/// A session with its front.
pub struct Seat<L: Terms> {
    pub session: Session<L>,
    pub front: Front<L>,
}

/// Sessions, and the answers to their calls, tokens left out.
pub struct Sitting<L: Terms> {
    pub seats: Vec<Seat<L>>,
    /// The front with which the first session began.
    pub early: Front<L>,
    pub harvest: Option<Harvest>,
    pub watches: Vec<Watch<Front<L>>>,
}

// Not derived: a derived `drop` would be proved again at each exit that owns such a value.
impl<L: Terms> Drop for Seat<L> {
    fn drop(self) {
        let Seat {
            session: _,
            front: _,
        } = self;
    }
}

impl<L: Terms> Drop for Sitting<L> {
    fn drop(self) {
        let Sitting {
            seats: _,
            early: _,
            harvest: _,
            watches: _,
        } = self;
    }
}

/// The token of a change that was made or undone, until it is spent.
pub enum OfficeToken<L: Terms> {
    Nothing,
    Undo(Undo<L>),
    Redo(Redo<L>),
}

/// The tokens that are held.
pub struct Tokens<L: Terms> {
    pub first: OfficeToken<L>,
    pub second: OfficeToken<L>,
    pub third: OfficeToken<L>,
}

impl<L: Terms> Tokens<L> {
    fn at(&mut self, at: At) -> &mut OfficeToken<L> {
        match at {
            At::First => &mut self.first,
            At::Second => &mut self.second,
            At::Third => &mut self.third,
        }
    }
}

/// Sessions at work.
pub struct Hand<L: Terms> {
    pub sitting: Sitting<L>,
    pub tokens: Tokens<L>,
}

/// Returns the seat of a further session.
pub fn joined<L: Terms, R: Wait + Abort>(rt: &R, office: &Office<L>) -> Seat<L> {
    let (session, front) = given(rt, office.join(rt));
    Seat { session, front }
}

/// Returns one session at work, which holds nothing.
pub fn hand_of<L: Terms, R: Abort + AllocGlobal>(rt: &R, seat: Seat<L>) -> Hand<L> {
    let early = seat.front.copy();
    let mut seats = Vec::new(rt.alloc());
    given(rt, seats.push(seat));
    Hand {
        sitting: Sitting {
            seats,
            early,
            harvest: None,
            watches: Vec::new(rt.alloc()),
        },
        tokens: Tokens {
            first: OfficeToken::Nothing,
            second: OfficeToken::Nothing,
            third: OfficeToken::Nothing,
        },
    }
}

/// Ends work: no token is held.
pub fn free<L: Terms>(rt: &impl Abort, hand: Hand<L>) {
    let Hand { sitting: _, tokens } = hand;
    let Tokens {
        first,
        second,
        third,
    } = tokens;
    is_nothing(rt, first);
    is_nothing(rt, second);
    is_nothing(rt, third);
}

fn is_nothing<L: Terms>(rt: &impl Abort, held: OfficeToken<L>) {
    match held {
        OfficeToken::Nothing => {}
        _ => rt.panic("a token is held"),
    }
}

/// Returns why the desk refused.
fn refusal<L: Terms, F>(rt: &impl Abort, fault: Fault<L, F>) -> F {
    match fault {
        Fault::Refused { fault } => fault,
        _ => rt.panic("not refused by the desk"),
    }
}

/// Returns the token of a change to hold, and its serial.
fn undo_of<L: Terms>(token: Undo<L>) -> (OfficeToken<L>, Answer) {
    let serial = token.serial();
    (OfficeToken::Undo(token), Answer::Token(serial))
}

/// Returns the token of an undone change to hold, and its serial.
fn redo_of<L: Terms>(token: Redo<L>) -> (OfficeToken<L>, Answer) {
    let serial = token.serial();
    (OfficeToken::Redo(token), Answer::Token(serial))
}

/// Makes a call that gives a token, or spends the one that is held. Returns the token that is held then, and the
/// answer.
fn changed<L: Terms, R: Wait + Abort + AllocGlobal>(
    rt: &R,
    office: &Office<L>,
    seat: &mut Seat<L>,
    held: OfficeToken<L>,
    call: RowCall,
) -> (OfficeToken<L>, Answer) {
    let alloc = rt.alloc();
    let Seat { session, front } = seat;
    match held {
        OfficeToken::Nothing => match call {
            RowCall::Decide(_, feature, value) => {
                match session.decide(rt, alloc, office, front, feature, value) {
                    Ok(token) => undo_of(token),
                    Err(fault) => (OfficeToken::Nothing, Answer::NotDecided(refusal(rt, fault))),
                }
            }
            RowCall::Retract(_, feature) => {
                match session.retract(rt, alloc, office, front, feature) {
                    Ok(token) => undo_of(token),
                    Err(fault) => (
                        OfficeToken::Nothing,
                        Answer::NotRetracted(refusal(rt, fault)),
                    ),
                }
            }
            RowCall::Reset(_) => match session.reset(rt, alloc, office, front) {
                Ok(token) => undo_of(token),
                Err(fault) => (OfficeToken::Nothing, Answer::NotReset(refusal(rt, fault))),
            },
            _ => (OfficeToken::Nothing, Answer::NoCall),
        },
        held => spent(rt, office, seat, held, call),
    }
}

/// Makes a call that spends the token that is held. Returns the token that is held then, and the answer.
fn spent<L: Terms, R: Wait + Abort + AllocGlobal>(
    rt: &R,
    office: &Office<L>,
    seat: &mut Seat<L>,
    held: OfficeToken<L>,
    call: RowCall,
) -> (OfficeToken<L>, Answer) {
    let Seat { session, front } = seat;
    match held {
        OfficeToken::Undo(token) => match call {
            RowCall::Undo(_) => match session.undo(rt, rt.alloc(), office, front, token) {
                Ok(token) => redo_of(token),
                Err(Returned { fault, value }) => {
                    (
                        OfficeToken::Undo(value),
                        Answer::NotUndone(refusal(rt, fault)),
                    )
                }
            },
            _ => {
                given(rt, session.keep(rt, office, front, token));
                (OfficeToken::Nothing, Answer::Kept)
            }
        },
        OfficeToken::Redo(token) => match call {
            RowCall::Redo(_) => match session.redo(rt, rt.alloc(), office, front, token) {
                Ok(token) => undo_of(token),
                Err(Returned { fault, value }) => {
                    (
                        OfficeToken::Redo(value),
                        Answer::NotRedone(refusal(rt, fault)),
                    )
                }
            },
            _ => {
                given(rt, session.forget(rt, office, front, token));
                (OfficeToken::Nothing, Answer::Forgotten)
            }
        },
        OfficeToken::Nothing => (OfficeToken::Nothing, Answer::NoCall),
    }
}

/// Returns the answer on whether both tables are settled.
fn settled<L: Terms>(rt: &impl Abort, answer: Result<bool, Fault<L, Never>>) -> Answer {
    match answer {
        Ok(settled) => Answer::Is(settled),
        Err(Fault::LogFull { front }) => Answer::Full(front.len()),
        Err(Fault::Doubled { front }) => Answer::Doubled(front.len()),
        Err(_) => rt.panic("not said"),
    }
}

/// Returns the sheet that a watch reads.
fn read_by<L: Terms>(watch: &mut Watch<Front<L>>) -> Answer {
    match read(watch) {
        Ok(sheet) => Answer::Sheet(sheet.at, sheet.settled),
        Err(WatchFault::NoSheet) => Answer::NoSheet,
    }
}

impl<L: Terms> Calls for Hand<L> {
    ghost use Rattle.std.specs.Prelude.{length};

    type Office = Office<L>;

    ghost vertices = { length L.game.vertices };

    fn changes<R: Wait + Abort + AllocGlobal>(
        &mut self,
        rt: &R,
        office: &Office<L>,
        by: By,
        at: At,
        call: RowCall,
    ) -> Answer {
        let seats = &mut self.sitting.seats;
        let seat = seats.get_mut(by as usize).expect(rt, "no session");
        let held = self.tokens.at(at);
        let (now, answer) = changed(
            rt,
            office,
            seat,
            mem::replace(held, OfficeToken::Nothing),
            call,
        );
        is_nothing(rt, mem::replace(held, now));
        answer
    }

    fn serial(&mut self, at: At) -> u64 {
        match self.tokens.at(at) {
            OfficeToken::Nothing => 0,
            OfficeToken::Undo(token) => token.serial(),
            OfficeToken::Redo(token) => token.serial(),
        }
    }

    fn asks<R: Wait + Abort + AllocGlobal>(
        &mut self,
        rt: &R,
        office: &Office<L>,
        by: By,
        call: RowCall,
    ) -> Answer {
        let alloc = rt.alloc();
        let seats = &mut self.sitting.seats;
        let seat = seats.get_mut(by as usize).expect(rt, "no session");
        let harvest = &mut self.sitting.harvest;
        let Seat { session, front } = seat;
        match call {
            RowCall::Settled => settled(rt, session.settled(rt, office, front)),
            RowCall::SettledEarly => {
                let early = &mut self.sitting.early;
                settled(rt, session.settled(rt, office, early))
            }
            RowCall::Page(text) => {
                let page = given(rt, session.page(rt, alloc, office, front));
                Answer::Is(is_text(alloc, &page, text))
            }
            RowCall::Commit => {
                let taken = harvest.take().expect(rt, "no harvest");
                match session.commit(rt, alloc, office, front, taken) {
                    Ok(added) => Answer::Added(added),
                    Err(Returned { fault, value }) => {
                        hold_harvest(harvest, value);
                        Answer::NotCommitted(refusal(rt, fault))
                    }
                }
            }
            _ => {
                let order = given(rt, session.order(rt, alloc, office, front));
                hold_harvest(harvest, harvest_of(rt, order, call));
                Answer::Done
            }
        }
    }

    fn verdict<R: Wait + Abort>(
        &mut self,
        rt: &R,
        office: &Office<L>,
        by: By,
        vertex: u32,
    ) -> Answer {
        let seats = &mut self.sitting.seats;
        let seat = seats.get_mut(by as usize).expect(rt, "no session");
        let said = seat.session.verdict(rt, office, &mut seat.front, vertex);
        let verdict = given(rt, said);
        Answer::Says(verdict.hopeless, verdict.sure)
    }

    fn visits<R: Wait + Abort + AllocGlobal>(
        &mut self,
        rt: &R,
        office: &Office<L>,
        by: By,
        call: RowCall,
    ) -> Answer {
        match call {
            RowCall::Watch => match office.watch(rt) {
                Ok(watch) => {
                    given(rt, self.sitting.watches.push(watch));
                    Answer::Done
                }
                Err(_) => Answer::NoPlace,
            },
            RowCall::WatchFrom => {
                let seats = &mut self.sitting.seats;
                let seat = seats.get_mut(by as usize).expect(rt, "no session");
                match office.watch_from(rt, rt.alloc(), &seat.front) {
                    Ok(watch) => {
                        given(rt, self.sitting.watches.push(watch));
                        Answer::Done
                    }
                    Err(NotWatched::NoPlace) => Answer::NoPlace,
                    Err(NotWatched::Memory) => rt.panic("no memory"),
                }
            }
            RowCall::Join => match office.join(rt) {
                Ok((session, front)) => Answer::Joined(session.number(), front.len()),
                Err(_) => Answer::NoPlace,
            },
            RowCall::Meet => {
                let seats = &mut self.sitting.seats;
                if seats.len() != 2 {
                    return Answer::NoPlace;
                }
                let other = seats[1].front.copy();
                let front = &mut seats[0].front;
                office.meet(rt, front, &other);
                front.headline();
                Answer::Has(front.len())
            }
            _ => Answer::NoCall,
        }
    }

    fn looks<R: Abort>(&mut self, rt: &R, by: By, call: RowCall) -> Answer {
        let Sitting {
            seats,
            early,
            watches,
            ..
        } = &mut self.sitting;
        match call {
            RowCall::Unwatch => {
                watches.clear();
                Answer::Done
            }
            RowCall::Sees => match watches.last_mut() {
                Some(watch) => read_by(watch),
                None => Answer::NoWatch,
            },
            RowCall::EarlyCalls => Answer::Has(early.len()),
            _ => {
                let seat = seats.get(by as usize).expect(rt, "no session");
                match call {
                    RowCall::Number => Answer::Joined(seat.session.number(), seat.front.len()),
                    _ => Answer::Has(seat.front.len()),
                }
            }
        }
    }

    fn harvest(&mut self) -> &mut Option<Harvest> {
        &mut self.sitting.harvest
    }
}
