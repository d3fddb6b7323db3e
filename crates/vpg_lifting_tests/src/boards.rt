//! Claims, lifts and splits worked by hand.

ghost use Rattle.std.specs.Prelude.{◌≡◌};
ghost use Rattle.std.specs.Thread.{IsSync};

use crate::given::{given, require};
use crate::starts::{let_go, row_of};
use std::process::Abort;
use std::sync::Wait;
use std::test::*;
use std::thread::{Threads, join};
use vpg_board::{Board, Seat};
use vpg_measure::{Harvest, Order};
use vpg_sides::Which;
use vpg_small_family::DIAGRAM;

/// The work of a board's opening seat.
#[derive(Clone, Copy)]
pub(crate) enum Sitting {
    /// It claims and lifts each vertex of two, and each lift answers so.
    Lifts([bool; 4]),
    /// It splits as often as it may.
    Splits,
}

/// Returns the board of an order, and its opening seat.
pub(crate) fn board_of<R: Abort + AllocGlobal>(rt: &R, order: Order) -> (Board, Seat)
    ensures seat { result.1.board ≡ result.0 }
    ensures order { result.0.order ≡ order }
{
    match Board::open(rt.alloc(), order) {
        Ok(opened) => opened,
        Err(_) => rt.panic("no board"),
    }
}

/// Claims a vertex, which must be this one, and lifts it.
fn claims_and_lifts(board: &Board, seat: &mut Seat, which: Which, v: u32) -> Option<bool>
    requires { seat.old.board ≡ board.now }
    ensures { seat.new.board ≡ board.now }
{
    match board.claim(seat) {
        Some((claimed, u)) => {
            let rose = board.lift(seat, claimed, u);
            if claimed == which && u == v {
                Some(rose)
            } else {
                None
            }
        }
        None => None,
    }
}

/// Whether the four lifts of a board of two vertices answer so, in the order of claims, and two claims after them find
/// nothing.
fn lifts_answer(board: &Board, seat: &mut Seat, answers: [bool; 4]) -> bool
    requires { seat.old.board ≡ board.now }
    ensures { seat.new.board ≡ board.now }
{
    let first = claims_and_lifts(board, seat, Which::Hopeful, 0);
    let second = claims_and_lifts(board, seat, Which::Hopeful, 1);
    let third = claims_and_lifts(board, seat, Which::Dual, 0);
    let fourth = claims_and_lifts(board, seat, Which::Dual, 1);
    let fifth = board.claim(seat);
    let sixth = board.claim(seat);
    let [a, b, c, d] = answers;
    [first, second, third, fourth] == [Some(a), Some(b), Some(c), Some(d)]
        && fifth.is_none()
        && sixth.is_none()
}

/// Returns how often a seat splits, out of this many tries. The seats that are split off are dropped.
fn splits_of(board: &Board, seat: &mut Seat, tries: usize) -> usize
    requires { seat.old.board ≡ board.now }
    ensures { seat.new.board ≡ board.now }
{
    let mut splits = 0;
    for _ in 0..tries {
        if board.split(seat).is_ok() {
            splits += 1;
        }
    }
    splits
}

/// Whether a seat splits 63 times and no more, and the seats that it split off never split.
fn splits_stop(board: &Board, seat: &mut Seat) -> bool
    requires { seat.old.board ≡ board.now }
    ensures { seat.new.board ≡ board.now }
{
    let Ok(other) = board.split(seat) else {
        return false;
    };
    let mut other = other;
    let refused = splits_of(board, &mut other, 1) == 0;
    let rest = splits_of(board, seat, 64);
    board.join(seat, other);
    refused && rest == 62
}

/// The claims of a seat: the vertices of each table as bits, and how many claims there were.
#[derive(Clone, Copy)]
struct Noted {
    hopeful: u64,
    dual: u64,
    claims: u32,
}

const NOTHING: Noted = Noted {
    hopeful: 0,
    dual: 0,
    claims: 0,
};

/// Returns the claims of two seats.
fn both(one: Noted, other: Noted) -> Noted {
    Noted {
        hopeful: one.hopeful | other.hopeful,
        dual: one.dual | other.dual,
        claims: one.claims.saturating_add(other.claims),
    }
}

/// Claims until none is left, out of at most a thousand tries.
fn claims_of(board: &Board, seat: &mut Seat) -> Noted
    requires { seat.old.board ≡ board.now }
    ensures { seat.new.board ≡ board.now }
{
    let mut noted = NOTHING;
    for _ in 0..1000u32 {
        let Some((which, v)) = board.claim(seat) else {
            break;
        };
        let bit = 1u64.wrapping_shl(v);
        let (hopeful, dual) = match which {
            Which::Hopeful => (bit, 0),
            Which::Dual => (0, bit),
        };
        noted = both(
            noted,
            Noted {
                hopeful,
                dual,
                claims: 1,
            },
        );
    }
    noted
}

/// Returns a seat, and its claims.
fn claims_by(board: &Board, seat: Seat) -> (Seat, Noted)
    requires { seat.board ≡ board.now }
    ensures { result.0.board ≡ board.now }
{
    let mut seat = seat;
    let noted = claims_of(board, &mut seat);
    (seat, noted)
}

/// Returns the claims of two seats, each in a thread of its own, and the first with the second merged into it.
fn claims_of_two<R: Threads + Wait + Sync>(
    rt: &R,
    board: &Board,
    one: Seat,
    other: Seat,
) -> (Seat, Noted)
    requires sync { IsSync R.row }
    requires one { one.board ≡ board.now }
    requires other { other.board ≡ board.now }
    ensures { result.0.board ≡ board.now }
{
    let ((one, first), (other, second)) = join(
        rt,
        move || -> (Seat, Noted)
            requires { one.board ≡ board.now }
            ensures { result.0.board ≡ board.entry.now }
        { claims_by(board, one) },
        move || -> (Seat, Noted)
            requires { other.board ≡ board.now }
            ensures { result.0.board ≡ board.entry.now }
        { claims_by(board, other) },
    );
    let mut one = one;
    board.join(&mut one, other);
    (one, both(first, second))
}

/// Returns the claims of a board's opening seat and three that it splits off, each in a thread of its own.
fn claims_of_four<R: Threads + Wait + Sync>(rt: &R, board: &Board, seat: Seat) -> (Seat, Noted)
    requires { seat.board ≡ board.now }
    ensures { result.0.board ≡ board.now }
{
    let mut seat = seat;
    let (Ok(second), Ok(third), Ok(fourth)) = (
        board.split(&mut seat),
        board.split(&mut seat),
        board.split(&mut seat),
    ) else {
        return (seat, NOTHING);
    };
    let ((seat, first), (third, last)) = join(
        rt,
        move || -> (Seat, Noted)
            requires { IsSync R.row × (seat.board ≡ board.now) × (second.board ≡ board.now) }
            ensures { result.0.board ≡ board.entry.now }
        { claims_of_two(rt, board, seat, second) },
        move || -> (Seat, Noted)
            requires { IsSync R.row × (third.board ≡ board.now) × (fourth.board ≡ board.now) }
            ensures { result.0.board ≡ board.entry.now }
        { claims_of_two(rt, board, third, fourth) },
    );
    let mut seat = seat;
    board.join(&mut seat, third);
    (seat, both(first, last))
}

/// Returns the harvest of a board with a seat that does this work.
pub(crate) fn seated<R: Abort + AllocGlobal>(rt: &R, order: Order, sitting: Sitting) -> Harvest {
    let (board, mut seat) = board_of(rt, order);
    let sits = match sitting {
        Sitting::Lifts(answers) => lifts_answer(&board, &mut seat, answers),
        Sitting::Splits => splits_stop(&board, &mut seat),
    };
    require(rt, sits, "a sitting");
    given(rt, board.close(rt.alloc(), seat))
}

#[test]
fn four_seats_in_four_threads_claim_each_place_once(rt: HostRuntime) {
    let (board, seat) = board_of(&rt, row_of(&rt, DIAGRAM, 62, false));
    let (seat, noted) = claims_of_four(&rt, &board, seat);
    let all = (1u64 << 62) - 1;
    let is_all = noted.hopeful == all && noted.dual == all && noted.claims == 124;
    require(&rt, is_all, "claims of four");
    let_go(given(&rt, board.close(rt.alloc(), seat)).again());
}
