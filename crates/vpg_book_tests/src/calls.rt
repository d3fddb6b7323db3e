//! Calls at a desk or an office, and their answers.
//!
//! Code that is generic over `Calls` names no type of an office. A function with such a type in its signature takes the
//! prover seconds, so there are few.
ghost use Rattle.std.specs.Prelude.{◌≡◌};

use crate::given::{given, require, require_at};
use std::process::Abort;
use std::sync::Wait;
use std::test::*;
use vpg_board::{Board, Seat};
use vpg_desk::{CommitFault, DecideFault, RedoFault, ResetFault, RetractFault, UndoFault};
use vpg_measure::{Harvest, Order};
use vpg_sides::Which;

/// Which of two sessions makes a call.
#[derive(Clone, Copy)]
pub enum By {
    One,
    Two,
}

/// The place where a token is held.
#[derive(Clone, Copy)]
pub enum At {
    First,
    Second,
    Third,
}

/// A family other than that of most examples.
#[derive(Clone, Copy)]
pub enum Other {
    /// One vertex over the same features.
    Game,
    /// The game of most examples, over a diagram with one more clause.
    Diagram,
}

/// A call of a worked row, at a desk or an office.
#[derive(Clone, Copy)]
pub enum RowCall {
    /// These two give a token, which is held there.
    Decide(At, u16, bool),
    Retract(At, u16),
    Reset(At),
    /// These spend the token that is held there for another, which is held in its place.
    Undo(At),
    Redo(At),
    Keep(At),
    Forget(At),
    /// An order, which is lifted until both tables are settled: the harvest that is held then.
    Order,
    /// An order, with this vertex of its hopeful table lifted once: the harvest that is held then.
    Lift(u32),
    /// An order, with nothing lifted: the harvest that is held then.
    Bare,
    /// An order of the family of most examples, without decisions. The one seat of a board lifts each vertex once: the
    /// harvest that is held then.
    Seated,
    /// Hands in the harvest that is held, which comes back if it isn't taken.
    Commit,
    Settled,
    /// As `Settled`, by the front that the first session began with.
    SettledEarly,
    Verdict(u32),
    /// Whether the page is this text.
    Page(&'static str),
    /// A further watch. Those before stay.
    Watch,
    /// A further watch, from the session's front. Those before stay.
    WatchFrom,
    /// Drops all watches.
    Unwatch,
    /// The sheet that the last watch reads.
    Sees,
    /// The number of the front's calls.
    Calls,
    /// The number of calls of the front that the first session began with.
    EarlyCalls,
    /// The number of the session, and how many calls its front has.
    Number,
    /// The number of a further session, and how many calls its front has.
    Join,
    /// The number of the front's calls once it met that of the second session.
    Meet,
    /// Whether all further sessions are numbered from 3, and the 1,025th alone is refused.
    JoinAll,
    /// Whether there are 64 watches and no more, until they are dropped.
    WatchAll,
    /// An order of a desk on another family, which is lifted until both tables are settled: the harvest that is held
    /// then.
    Other(Other),
    /// The number of vertices in the game of the harvest that is held, and the number of clauses in its diagram.
    Sizes,
    /// Closes a desk, which comes back if tokens are out.
    Close,
}

/// The answer of a call.
#[derive(Clone, Copy, PartialEq)]
pub enum Answer {
    Done,
    /// A token that was kept or forgotten.
    Kept,
    Forgotten,
    /// There is no such call, or none with the token that is held.
    NoCall,
    /// A token of this serial.
    Token(u64),
    /// A token, of whichever serial.
    AnyToken,
    /// This many entries.
    Added(u32),
    Is(bool),
    /// Whether the vertex is hopeless, and whether it is sure.
    Says(bool, bool),
    /// Of how many calls the sheet is, and whether it is settled.
    Sheet(u32, bool),
    NoSheet,
    NoWatch,
    /// There is no place for a further session or watch.
    NoPlace,
    /// This many calls, or tokens that are out.
    Has(usize),
    /// This many vertices, and this many clauses.
    Sizes(usize, usize),
    /// A session of this number, and this many calls.
    Joined(u32, usize),
    /// The log is full, and has this many calls.
    Full(usize),
    /// The session made a call since, and the log has this many.
    Doubled(usize),
    NotDecided(DecideFault),
    NotRetracted(RetractFault),
    NotReset(ResetFault),
    NotUndone(UndoFault),
    NotRedone(RedoFault),
    NotCommitted(CommitFault),
}

/// Sessions at work at an office, or at a desk.
pub trait Calls {
    ghost use Rattle.std.specs.Prelude.{ℕ, ◌<◌};

    type Office;

    /// The number of vertices in the office's game.
    ghost vertices: { ℕ };

    /// Makes a call that gives a token, which is held there, or spends the one that is held there.
    fn changes<R: Wait + Abort + AllocGlobal>(
        &mut self,
        rt: &R,
        office: &Self::Office,
        by: By,
        at: At,
        call: RowCall,
    ) -> Answer;

    /// Returns the serial of the change of the token that is held there, 0 if none is.
    fn serial(&mut self, at: At) -> u64;

    /// Makes a call that is logged, takes no token and gives none.
    fn asks<R: Wait + Abort + AllocGlobal>(
        &mut self,
        rt: &R,
        office: &Self::Office,
        by: By,
        call: RowCall,
    ) -> Answer;

    /// Returns the verdict of a vertex.
    fn verdict<R: Wait + Abort>(
        &mut self,
        rt: &R,
        office: &Self::Office,
        by: By,
        vertex: u32,
    ) -> Answer
        requires { vertex < vertices };

    /// Makes a call that is not logged.
    fn visits<R: Wait + Abort + AllocGlobal>(
        &mut self,
        rt: &R,
        office: &Self::Office,
        by: By,
        call: RowCall,
    ) -> Answer;

    /// Looks at the values that sessions have, also once the office has ended.
    fn looks<R: Abort>(&mut self, rt: &R, by: By, call: RowCall) -> Answer;

    /// Returns the harvest that is held.
    fn harvest(&mut self) -> &mut Option<Harvest>;
}

/// Whether all further sessions are numbered from 3, and the 1,025th alone is refused.
fn join_all<S: Calls, R: Wait + Abort + AllocGlobal>(
    rt: &R,
    office: &S::Office,
    hand: &mut S,
) -> bool {
    for number in 3..1025u32 {
        let joined = hand.visits(rt, office, By::One, RowCall::Join);
        require(rt, joined == Answer::Joined(number, 0), "a further session");
    }
    hand.visits(rt, office, By::One, RowCall::Join) == Answer::NoPlace
}

/// Whether there are 64 watches and no more, until they are dropped.
fn watch_all<S: Calls, R: Wait + Abort + AllocGlobal>(
    rt: &R,
    office: &S::Office,
    hand: &mut S,
) -> bool {
    for _ in 0..64u32 {
        let watched = hand.visits(rt, office, By::One, RowCall::Watch);
        require(rt, watched == Answer::Done, "a further watch");
    }
    let last = hand.visits(rt, office, By::One, RowCall::Watch);
    let from = hand.visits(rt, office, By::One, RowCall::WatchFrom);
    hand.looks(rt, By::One, RowCall::Unwatch);
    last == Answer::NoPlace
        && from == last
        && hand.visits(rt, office, By::One, RowCall::Watch) == Answer::Done
}

/// Undoes or redoes a change. After that a token of the same serial is held, also if it is refused.
fn turned<S: Calls, R: Wait + Abort + AllocGlobal>(
    rt: &R,
    office: &S::Office,
    hand: &mut S,
    by: By,
    at: At,
    call: RowCall,
) -> Answer {
    let before = hand.serial(at);
    let answer = hand.changes(rt, office, by, at, call);
    require(rt, hand.serial(at) == before, "a token of the same serial");
    answer
}

/// Makes a call, and returns its answer.
pub fn answered<S: Calls, R: Wait + Abort + AllocGlobal>(
    rt: &R,
    office: &S::Office,
    hand: &mut S,
    by: By,
    call: RowCall,
) -> Answer
    requires { S.vertices ≡ 2 }
{
    match call {
        RowCall::Decide(at, ..) | RowCall::Retract(at, _) => hand.changes(rt, office, by, at, call),
        RowCall::Reset(at) => hand.changes(rt, office, by, at, call),
        RowCall::Undo(at) | RowCall::Redo(at) => turned(rt, office, hand, by, at, call),
        RowCall::Keep(at) | RowCall::Forget(at) => hand.changes(rt, office, by, at, call),
        RowCall::Verdict(vertex) if vertex < 2 => hand.verdict(rt, office, by, vertex),
        RowCall::Watch | RowCall::WatchFrom | RowCall::Join => hand.visits(rt, office, by, call),
        RowCall::Meet | RowCall::Close => hand.visits(rt, office, by, call),
        RowCall::Unwatch | RowCall::Sees | RowCall::Number | RowCall::Calls => hand.looks(
            rt, by, call,
        ),
        RowCall::EarlyCalls | RowCall::Sizes => hand.looks(rt, by, call),
        RowCall::JoinAll => Answer::Is(join_all(rt, office, hand)),
        RowCall::WatchAll => Answer::Is(watch_all(rt, office, hand)),
        _ => hand.asks(rt, office, by, call),
    }
}

/// A call of a session, and its answer.
pub type Step = (By, RowCall, Answer);

/// Makes each call, which has to have its answer.
pub fn carry_out<S: Calls, R: Wait + Abort + AllocGlobal>(
    rt: &R,
    office: &S::Office,
    hand: &mut S,
    name: &str,
    steps: &[Step],
)
    requires { S.vertices ≡ 2 }
{
    for k in 0..steps.len() {
        let (by, call, gives) = steps[k];
        let answer = answered(rt, office, hand, by, call);
        let is_token = matches!((answer, gives), (Answer::Token(_), Answer::AnyToken));
        require_at(rt, is_token || answer == gives, name, k);
    }
}

/// Holds a harvest. A function that drops one itself takes the prover seconds.
pub fn hold_harvest(held: &mut Option<Harvest>, harvest: Harvest) {
    *held = Some(harvest);
}

/// Returns the harvest of an order with one vertex lifted once.
fn lifted(rt: &impl Abort, order: Order, which: Which, vertex: u32) -> Harvest {
    assert!(rt; (vertex as usize) < order.game().vertices());
    Harvest::one(order, which, vertex)
}

/// Returns the board of an order, and its opening seat.
fn board_of<R: Abort + AllocGlobal>(rt: &R, order: Order) -> (Board, Seat)
    ensures { result.1.board ≡ result.0 }
{
    match Board::open(rt.alloc(), order) {
        Ok(opened) => opened,
        Err(_) => rt.panic("no board"),
    }
}

/// Claims a vertex and lifts it. Returns whether that raised it.
fn raises(board: &Board, seat: &mut Seat) -> bool
    requires { seat.old.board ≡ board.now }
    ensures { seat.new.board ≡ board.now }
{
    match board.claim(seat) {
        Some((which, v)) => board.lift(seat, which, v),
        None => false,
    }
}

/// Returns the harvest of a board with a seat that lifts each vertex of an order without decisions: the first lift
/// raises something, and so does the last.
fn seated_once<R: Abort + AllocGlobal>(rt: &R, order: Order) -> Harvest {
    let (board, mut seat) = board_of(rt, order);
    let first = raises(&board, &mut seat);
    let second = raises(&board, &mut seat);
    let third = raises(&board, &mut seat);
    let fourth = raises(&board, &mut seat);
    require(
        rt,
        [first, second, third, fourth] == [true, false, false, true],
        "a sitting",
    );
    given(rt, board.close(rt.alloc(), seat))
}

/// Returns the harvest of an order with one vertex lifted, or nothing, or lifted until both tables are settled; or the
/// harvest of a board.
pub fn harvest_of<R: Abort + AllocGlobal>(rt: &R, order: Order, call: RowCall) -> Harvest {
    match call {
        RowCall::Lift(vertex) => lifted(rt, order, Which::Hopeful, vertex),
        RowCall::Bare => Harvest::alone(order, 0),
        RowCall::Seated => seated_once(rt, order),
        _ => Harvest::alone(order, 1000),
    }
}
