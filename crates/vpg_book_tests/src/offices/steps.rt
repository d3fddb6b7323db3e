//! Days of two sessions of an office, as tables of calls with the answers that they have to have.
ghost use Rattle.std.specs.Prelude.{◌≡◌, length};

use crate::calls::{Answer, By, Calls, RowCall, Step, carry_out};
use crate::given::{given, require};
use crate::offices::hands::{Hand, OfficeToken, free, hand_of, joined};
use std::mem;
use std::process::Abort;
use std::sync::{Arc, Wait};
use std::test::*;
use vpg_diagram::Diagram;
use vpg_game::GuardedGame;
use vpg_office::{Ended, Front, Office, Terms, TokensOut, Undo, Work, read};

/// The work of two sessions on an office.
#[derive(Clone, Copy)]
pub struct Day {
    pub name: &'static str,
    /// The number of calls that the log takes.
    pub room: u32,
    /// The number of calls that it has at the end, so that no call that no session made stands there.
    pub calls: usize,
    /// The steps while one token is out, before the office can't be closed.
    pub before: &'static [Step],
    /// The steps after that, or from the beginning.
    pub steps: &'static [Step],
    /// Whether no token is out at the end, and the office is closed. Else it is ended with the first token, if that is
    /// held.
    pub closes: bool,
}

/// Returns the office, which isn't closed since one token is out.
fn kept_open<L: Terms>(rt: &impl Abort, closed: Result<Ended<L>, TokensOut<L>>) -> Office<L> {
    match closed {
        Ok(_ended) => rt.panic("closed"),
        Err(TokensOut { tokens, office }) => {
            require(rt, tokens == 1, "one token is out");
            office.share()
        }
    }
}

/// Returns the office, which can't be closed. A front of no calls and one of the first session become its log.
fn refused<L: Terms, R: Wait + Abort>(rt: &R, office: Office<L>, hand: &mut Hand<L>) -> Office<L> {
    let office = kept_open(rt, office.close(rt)).unshare();
    hand.sitting.early = office.log();
    let seat = hand.sitting.seats.first_mut().expect(rt, "no session");
    seat.front = office.log();
    kept_open(rt, office.share().close(rt))
}

/// Returns the token of a change, if one is held.
fn undos_of<L: Terms, R: Abort + AllocGlobal>(rt: &R, held: OfficeToken<L>) -> Vec<Undo<L>> {
    let mut undos = Vec::new(rt.alloc());
    match held {
        OfficeToken::Nothing => {}
        OfficeToken::Undo(token) => given(rt, undos.push(token)),
        OfficeToken::Redo(_token) => rt.panic("the token of an undone change is held"),
    }
    undos
}

/// Checks that a watch from a front reads the sheet of that front or of a later one, if there is a place for it.
fn watches<L: Terms, R: Wait + Abort + AllocGlobal>(rt: &R, office: &Office<L>, front: &Front<L>) {
    if let Ok(mut watch) = office.watch_from(rt, rt.alloc(), front) {
        let sheet = given(rt, read(&mut watch));
        require(
            rt,
            front.len() <= sheet.at as usize,
            "the sheet of an older front",
        );
    }
}

/// Ends an office: closes it with no token out, or ends it with the first token, if that is held, and no other out.
pub fn end<L: Terms, R: Wait + Abort + AllocGlobal>(
    rt: &R,
    office: Office<L>,
    hand: &mut Hand<L>,
    closes: bool,
) {
    let lender = if closes { By::One } else { By::Two };
    let seats = &mut hand.sitting.seats;
    let seat = seats.get_mut(lender as usize).expect(rt, "no session");
    watches(rt, &office, &seat.front);
    let office = office.unshare();
    require(rt, office.has(&seat.front), "a beginning of the log");
    seat.front = office.log();
    let ended = if closes {
        given(rt, office.share().close(rt))
    } else {
        let undos = undos_of(
            rt,
            mem::replace(&mut hand.tokens.first, OfficeToken::Nothing),
        );
        office.share().end(rt, undos, Vec::new(rt.alloc()))
    };
    require(rt, ended.further() == 0, "no token is out");
}

/// Whether the session's front at the end of a day has all calls, and a watch reads nothing.
fn is_over<S: Calls>(rt: &impl Abort, hand: &mut S, day: Day) -> bool {
    let by = if day.closes { By::One } else { By::Two };
    let seen = hand.looks(rt, by, RowCall::Sees);
    hand.looks(rt, by, RowCall::Calls) == Answer::Has(day.calls)
        && matches!(seen, Answer::NoSheet | Answer::NoWatch)
}

/// The sessions are the first and the second, and have seen nothing.
const BEGIN: &[Step] = &[
    (By::One, RowCall::Number, Answer::Joined(1, 0)),
    (By::Two, RowCall::Number, Answer::Joined(2, 0)),
];

/// Makes a day's calls of two sessions on an office, which is ended then: the front has all calls, and a watch reads
/// nothing.
fn spend<L: Terms, R: Wait + Abort + AllocGlobal>(rt: &R, office: Office<L>, day: Day)
    requires { length L.game.vertices ≡ 2 }
{
    let mut hand = hand_of(rt, joined(rt, &office));
    given(rt, hand.sitting.seats.push(joined(rt, &office)));
    carry_out(rt, &office, &mut hand, day.name, BEGIN);
    carry_out(rt, &office, &mut hand, day.name, day.before);
    let office = if day.before.is_empty() {
        office
    } else {
        refused(rt, office, &mut hand)
    };
    carry_out(rt, &office, &mut hand, day.name, day.steps);
    end(rt, office, &mut hand, day.closes);
    require(rt, is_over(rt, &mut hand, day), day.name);
    free(rt, hand);
}

impl<R: Wait + Abort + AllocGlobal> Work<R> for Day {
    type Answer = ();

    ghost room = { λ day. day.room };

    fn work<L: Terms + Send + Sync>(
        self,
        rt: &R,
        office: Office<L>,
        front: Front<L>,
        game: Arc<GuardedGame>,
        _diagram: Arc<Diagram>,
    ) {
        require(rt, front.len() == 0, "a front that has seen nothing");
        assert!(rt; game.vertices() == 2);
        spend(rt, office, self);
    }
}
