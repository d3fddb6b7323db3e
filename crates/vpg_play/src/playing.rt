//! Sessions that play, each in a thread of its own. Each makes the calls that its dice name, reads by a watch, and
//! hands tokens, harvests and fronts on to the others. It notes each call with its answer and its place in the log.

ghost use Rattle.std.specs.Prelude.{◌<◌, ◌≤◌};

use crate::counter::Counter;
use crate::noting::{
    Notes, put_failure, put_fault, put_harvest, put_order, put_page, put_tables, put_verdicts,
};
use crate::tokens::{Change, Seat, Token, give_up, make_change, turn};
use std::alloc::Global;
use std::mem;
use std::sync::Wait;
use std::thread::{Threads, for_each_mut, yield_now};
use vpg_board::{OpenGate, sweep};
use vpg_faults::Returned;
use vpg_measure::{Harvest, Order};
use vpg_office::{Fault, Front, Office, Terms, read};
use vpg_sides::Which;
use vpg_watch::Watch;

/// The manner in which sessions play.
#[derive(Clone, Copy)]
pub(crate) struct Play {
    pub(crate) seed: u64,
    pub(crate) sessions: u32,
    /// The number of steps of each session. A step makes at most one call.
    pub(crate) steps: u32,
    /// Whether they take turns, so that each run is the same.
    pub(crate) in_turn: bool,
    /// The number of features.
    pub(crate) features: u32,
}

/// The random numbers of one session.
#[derive(Drop)]
struct Dice {
    state: u64,
}

impl Dice {
    /// Returns a number below another.
    fn below(&mut self, count: u32) -> u32
        requires { 0 < count }
        ensures { result < count }
    {
        self.state = self
            .state
            .wrapping_mul(6_364_136_223_846_793_005)
            .wrapping_add(1_442_695_040_888_963_407);
        ((self.state >> 33) % u64::from(count)) as u32
    }
}

/// A session in its thread, which joined there.
struct Actor<L: Terms> {
    seat: Seat<L>,
    watch: Watch<Front<L>>,
    harvest: Option<Harvest>,
    dice: Dice,
    play: Play,
}

// Not derived: a derived `drop` would be proved again at each exit that owns such a value.
impl<L: Terms> Drop for Actor<L> {
    fn drop(self) {
        let Actor {
            seat: _,
            watch: _,
            harvest: _,
            dice: _,
            play: _,
        } = self;
    }
}

/// The tokens that a session has.
struct Pocket<L: Terms> {
    first: Token<L>,
    second: Token<L>,
    third: Token<L>,
}

impl<L: Terms> Pocket<L> {
    fn at(&mut self, place: u32) -> &mut Token<L> {
        match place {
            0 => &mut self.first,
            1 => &mut self.second,
            _ => &mut self.third,
        }
    }
}

/// Holds a harvest, and drops the one that was held.
fn hold(held: &mut Option<Harvest>, harvest: Harvest) {
    *held = Some(harvest);
}

/// Drops a harvest, here alone.
fn let_go(_harvest: Harvest) {}

/// Returns a random change.
fn change_by(dice: &mut Dice) -> Change {
    match dice.below(16) {
        0 => Change::Reset,
        1 | 2 | 3 => Change::Retract,
        4 | 5 | 6 | 7 | 8 | 9 => Change::Select,
        _ => Change::Exclude,
    }
}

/// Spends the token of a place or gives it up. If there is none, makes a change for one.
fn turn_token<L: Terms, R: Wait>(
    rt: &R,
    alloc: Global,
    office: &Office<L>,
    actor: &mut Actor<L>,
    slot: &mut Token<L>,
    notes: &mut Notes,
) {
    let goes_on = actor.dice.below(4) != 0;
    let feature = actor.dice.below(actor.play.features.clamp(1, 512)) as u16;
    let change = change_by(&mut actor.dice);
    let seat = &mut actor.seat;
    let token = match mem::replace(slot, Token::Absent) {
        Token::Absent => make_change(rt, alloc, office, seat, notes, feature, change),
        token => turn(rt, alloc, office, seat, notes, token, goes_on),
    };
    let rest = mem::replace(slot, token);
    give_up(rt, office, seat, notes, rest);
}

/// Notes the way in which an order is raised, with a number.
fn put_way(notes: &mut Notes, way: &str, number: u32) {
    notes.put(way);
    notes.put(number);
}

/// Returns an order that lifters raised together, which is noted.
fn swept<R: Threads + Wait + Sync>(
    rt: &R,
    alloc: Global,
    order: Order,
    lifters: u32,
    notes: &mut Notes,
) -> Harvest
    requires { (1 ≤ lifters) × (lifters ≤ 64) }
{
    put_way(notes, "lifters", lifters);
    sweep(rt, alloc, order, lifters, &OpenGate)
}

/// Returns an order raised in a random way, which is noted. By one lifter if each run has to be the same.
fn raised<R: Threads + Wait + Sync>(
    rt: &R,
    alloc: Global,
    order: Order,
    dice: &mut Dice,
    in_turn: bool,
    notes: &mut Notes,
) -> Harvest {
    let vertices = order.game().vertices() as u32;
    match dice.below(if in_turn { 4 } else { 6 }) {
        0 if vertices > 0 => {
            let v = dice.below(vertices);
            put_way(notes, "hopeful", v);
            Harvest::one(order, Which::Hopeful, v)
        }
        1 if vertices > 0 => {
            let v = dice.below(vertices);
            put_way(notes, "dual", v);
            Harvest::one(order, Which::Dual, v)
        }
        2 => {
            let rounds = dice.below(3);
            put_way(notes, "rounds", rounds);
            Harvest::alone(order, u64::from(rounds))
        }
        3 => swept(rt, alloc, order, 1, notes),
        _ => {
            let others = dice.below(4);
            swept(rt, alloc, order, others + 1, notes)
        }
    }
}

/// Takes an order, and raises it.
fn take_order<L: Terms, R: Threads + Wait + Sync>(
    rt: &R,
    alloc: Global,
    office: &Office<L>,
    actor: &mut Actor<L>,
    notes: &mut Notes,
) {
    let Seat { session, front } = &mut actor.seat;
    notes.begin(session.number(), "order");
    match session.order(rt, alloc, office, front) {
        Ok(order) => {
            put_order(notes, &order);
            notes.end(front.len());
            notes.begin(session.number(), "raised");
            let in_turn = actor.play.in_turn;
            let harvest = raised(rt, alloc, order, &mut actor.dice, in_turn, notes);
            put_tables(notes, &harvest);
            hold(&mut actor.harvest, harvest);
        }
        Err(fault) => put_failure(notes, fault),
    }
    notes.end(actor.seat.front.len());
}

/// Commits a harvest. One that is refused is held again or dropped.
fn commit<L: Terms, R: Wait>(
    rt: &R,
    alloc: Global,
    office: &Office<L>,
    actor: &mut Actor<L>,
    notes: &mut Notes,
    harvest: Harvest,
) {
    let holds = actor.dice.below(2) == 0;
    let Seat { session, front } = &mut actor.seat;
    notes.begin(session.number(), "commit");
    put_harvest(notes, &harvest);
    match session.commit(rt, alloc, office, front, harvest) {
        Ok(added) => {
            notes.put("added");
            notes.put(added);
        }
        Err(Returned { fault, value }) => {
            put_fault(notes, fault);
            if holds {
                hold(&mut actor.harvest, value);
            } else {
                let_go(value);
            }
        }
    }
    notes.end(actor.seat.front.len());
}

/// Commits the harvest that is held, or takes an order for one.
fn lift<L: Terms, R: Threads + Wait + Sync>(
    rt: &R,
    alloc: Global,
    office: &Office<L>,
    actor: &mut Actor<L>,
    notes: &mut Notes,
) {
    match actor.harvest.take() {
        Some(harvest) => commit(rt, alloc, office, actor, notes, harvest),
        None => take_order(rt, alloc, office, actor, notes),
    }
}

/// Asks whether the page is settled.
fn ask<L: Terms, R: Wait>(rt: &R, office: &Office<L>, seat: &mut Seat<L>, notes: &mut Notes) {
    let Seat { session, front } = seat;
    notes.begin(session.number(), "settled");
    match session.settled(rt, office, front) {
        Ok(settled) => notes.put(settled),
        Err(fault) => put_failure(notes, fault),
    }
    notes.end(front.len());
}

/// Asks twice whether the page is settled, the second time with the front from before. The log has a call of the
/// session since, so the office refuses that, with the whole log as it is then. The seat takes that front.
fn ask_late<L: Terms, R: Wait>(rt: &R, office: &Office<L>, seat: &mut Seat<L>, notes: &mut Notes) {
    let mut late = seat.front.copy();
    ask(rt, office, seat, notes);
    let Seat { session, front } = seat;
    notes.begin(session.number(), "doubled");
    notes.put(late.len());
    match session.settled(rt, office, &mut late) {
        Err(Fault::Doubled { front: whole }) => office.meet(rt, front, &whole),
        Err(fault) => put_failure(notes, fault),
        Ok(_) => notes.is_whole = false,
    }
    notes.end(front.len());
}

/// Asks for the page.
fn ask_page<L: Terms, R: Wait>(
    rt: &R,
    alloc: Global,
    office: &Office<L>,
    seat: &mut Seat<L>,
    notes: &mut Notes,
) {
    let Seat { session, front } = seat;
    notes.begin(session.number(), "page");
    match session.page(rt, alloc, office, front) {
        Ok(page) => put_page(notes, &page),
        Err(fault) => put_failure(notes, fault),
    }
    notes.end(front.len());
}

/// Notes the sheet that the watch reads. That is no call of the log: the place is that of the sheet.
fn look<L: Terms>(actor: &mut Actor<L>, notes: &mut Notes) {
    notes.begin(actor.seat.session.number(), "reads");
    match read(&mut actor.watch) {
        Ok(sheet) => {
            notes.put(sheet.settled);
            put_verdicts(notes, sheet.verdicts.as_slice());
            notes.end(sheet.at as usize);
        }
        Err(_) => notes.is_whole = false,
    }
}

/// Watches from its front on, if there is a place for a further watch. The whole log's sheet is published in any case.
fn watch_anew<L: Terms, R: Wait>(
    rt: &R,
    alloc: Global,
    office: &Office<L>,
    actor: &mut Actor<L>,
    notes: &mut Notes,
) {
    let Seat { session, front } = &mut actor.seat;
    notes.begin(session.number(), "watches");
    notes.put(front.len());
    match office.watch_from(rt, alloc, front) {
        Ok(watch) => actor.watch = watch,
        Err(_) => notes.put("none"),
    }
    notes.end(front.len());
}

/// Takes a random step.
fn step<L: Terms, R: Threads + Wait + Sync>(
    rt: &R,
    alloc: Global,
    office: &Office<L>,
    counter: &Counter<L>,
    actor: &mut Actor<L>,
    pocket: &mut Pocket<L>,
    notes: &mut Notes,
) {
    let slot = pocket.at(actor.dice.below(3));
    match actor.dice.below(19) {
        0 | 1 => counter.exchange_token(rt, slot),
        2 => counter.exchange_harvest(rt, &mut actor.harvest),
        3 => counter.meet(rt, office, &mut actor.seat, notes),
        4 => watch_anew(rt, alloc, office, actor, notes),
        5 | 6 => look(actor, notes),
        7 => ask(rt, office, &mut actor.seat, notes),
        8 => ask_late(rt, office, &mut actor.seat, notes),
        9 => ask_page(rt, alloc, office, &mut actor.seat, notes),
        10 | 11 | 12 => lift(rt, alloc, office, actor, notes),
        _ => turn_token(rt, alloc, office, actor, slot, notes),
    }
}

/// A session that is to play.
#[derive(Drop)]
pub(crate) struct Part {
    /// The place among the actors, from 0.
    number: u64,
    play: Play,
    notes: Notes,
}

/// Waits for this turn of a part, from 0, if they take turns. Notes if it didn't come.
fn wait<L: Terms>(counter: &Counter<L>, part: &mut Part, turn: u64) {
    let all = u64::from(part.play.sessions);
    let before = turn.saturating_mul(all).saturating_add(part.number);
    if part.play.in_turn && !counter.waits(before) {
        part.notes.is_whole = false;
    }
}

/// Takes the steps.
fn steps<L: Terms, R: Threads + Wait + Sync>(
    rt: &R,
    alloc: Global,
    office: &Office<L>,
    counter: &Counter<L>,
    actor: &mut Actor<L>,
    pocket: &mut Pocket<L>,
    part: &mut Part,
) {
    for k in 0..part.play.steps {
        wait(counter, part, u64::from(k).saturating_add(1));
        step(rt, alloc, office, counter, actor, pocket, &mut part.notes);
        counter.ends();
    }
}

/// Gives all tokens of a pocket up.
fn empty<L: Terms, R: Wait>(
    rt: &R,
    office: &Office<L>,
    seat: &mut Seat<L>,
    pocket: Pocket<L>,
    notes: &mut Notes,
) {
    let Pocket {
        first,
        second,
        third,
    } = pocket;
    give_up(rt, office, seat, notes, first);
    give_up(rt, office, seat, notes, second);
    give_up(rt, office, seat, notes, third);
}

/// The number of times that a session asks for its first watch.
const MOST_ASKS: u32 = 1_000_000;

/// Returns a watch, or `None` after many refusals. While others begin to watch again, there may be no place for it.
fn first_watch<L: Terms, R: Wait>(rt: &R, office: &Office<L>) -> Option<Watch<Front<L>>> {
    for _ in 0..MOST_ASKS {
        if let Ok(watch) = office.watch(rt) {
            return Some(watch);
        }
        yield_now();
    }
    None
}

/// Returns the actor of a part, if there is a place for it and its watch.
fn actor_of<L: Terms, R: Wait>(rt: &R, office: &Office<L>, part: &Part) -> Option<Actor<L>> {
    let (session, front) = office.join(rt).ok()?;
    let seat = Seat { session, front };
    let watch = first_watch(rt, office)?;
    let mixed = part.number.wrapping_mul(0x9E37_79B9_7F4A_7C15);
    let dice = Dice {
        state: part.play.seed.wrapping_add(mixed),
    };
    Some(Actor {
        seat,
        watch,
        harvest: None,
        dice,
        play: part.play,
    })
}

/// Plays a part to its end.
fn play_part<L: Terms, R: Threads + Wait + Sync>(
    rt: &R,
    alloc: Global,
    office: &Office<L>,
    counter: &Counter<L>,
    actor: &mut Actor<L>,
    part: &mut Part,
) {
    let mut pocket = Pocket {
        first: Token::Absent,
        second: Token::Absent,
        third: Token::Absent,
    };
    steps(rt, alloc, office, counter, actor, &mut pocket, part);
    let last = u64::from(part.play.steps).saturating_add(1);
    wait(counter, part, last);
    empty(rt, office, &mut actor.seat, pocket, &mut part.notes);
    counter.ends();
}

/// Joins in this thread, and plays a part. Actors join in their order if they take turns.
fn take_part<L: Terms, R: Threads + Wait + Sync>(
    rt: &R,
    alloc: Global,
    office: &Office<L>,
    counter: &Counter<L>,
    part: &mut Part,
) {
    wait(counter, part, 0);
    let actor = actor_of(rt, office, part);
    counter.ends();
    match actor {
        Some(mut actor) => play_part(rt, alloc, office, counter, &mut actor, part),
        None => part.notes.is_whole = false,
    }
}

/// More than there are actors.
const MOST_PARTS: usize = 1024;

/// Plays each part in a thread of its own.
pub(crate) fn play_at_once<L: Terms + Send + Sync, R: Threads + Wait + Sync>(
    rt: &R,
    alloc: Global,
    office: &Office<L>,
    counter: &Counter<L>,
    parts: &mut [Part],
) {
    for_each_mut(
        rt,
        parts,
        MOST_PARTS,
        &|_, part| { take_part(rt, alloc, office, counter, part) },
    );
}

/// Returns a part for each session, if memory allows it.
fn parts_of(alloc: Global, play: Play) -> Option<Vec<Part>> {
    let mut parts = Vec::new(alloc);
    for number in 0..play.sessions {
        let part = Part {
            number: u64::from(number),
            play,
            notes: Notes::new(alloc),
        };
        parts.push(part).ok()?;
    }
    Some(parts)
}

/// Plays on an office. Returns the token that still lies on the counter.
pub(crate) fn play_out<L: Terms + Send + Sync, R: Threads + Wait + Sync>(
    rt: &R,
    alloc: Global,
    office: &Office<L>,
    play: Play,
    notes: &mut Notes,
) -> Token<L> {
    let counter = Counter::new();
    match parts_of(alloc, play) {
        Some(mut parts) => {
            play_at_once(rt, alloc, office, &counter, parts.as_mut_slice());
            for part in &parts {
                notes.append(&part.notes);
            }
        }
        None => notes.is_whole = false,
    }
    counter.into_token()
}
