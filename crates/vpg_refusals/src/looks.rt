//! A session's calls with their answers, which are checked once one was refused.

ghost use Rattle.std.specs.Prelude.{◌<◌, length};

use crate::done_if;
use std::alloc::Global;
use std::sync::Wait;
use vpg_faults::Returned;
use vpg_measure::{Harvest, Order};
use vpg_office::{Fault, Front, Office, Terms, read};
use vpg_scarce::{End, HeldToken, OfficeCall, Seat, end_of, is_same_page, made};
use vpg_sides::Which;
use vpg_trail::Page;
use vpg_watch::Watch;

/// A session's seat, and the answers to its calls.
pub(crate) struct Caller<L: Terms> {
    pub(crate) seat: Seat<L>,
    /// The settled harvest of the order that was given last.
    pub(crate) harvest: Option<Harvest>,
    pub(crate) watch: Option<Watch<Front<L>>>,
    /// The page that was looked at first.
    pub(crate) page: Option<Page>,
}

// Not derived: a derived `drop` would be proved again at each exit that owns such a value.
impl<L: Terms> Drop for Caller<L> {
    fn drop(self) {
        let Caller {
            seat: _,
            harvest: _,
            watch: _,
            page: _,
        } = self;
    }
}

/// Returns the end of a call that leaves nothing to keep.
fn ended<L: Terms, T: Drop, F: Drop>(answer: Result<T, Fault<L, F>>) -> End {
    match answer {
        Ok(_) => End::Done,
        Err(fault) => end_of(fault),
    }
}

/// Keeps a harvest. A function that drops one itself takes the prover seconds.
fn put_harvest(kept: &mut Option<Harvest>, harvest: Harvest) {
    *kept = Some(harvest);
}

/// Keeps the first page that is looked at. Each later one has to be the same.
fn meet_page(kept: &mut Option<Page>, page: Page) -> End {
    match kept {
        Some(first) => done_if(is_same_page(&page, first)),
        None => {
            *kept = Some(page);
            End::Done
        }
    }
}

/// Returns the number of calls of the sheet that the watch reads, if there is a watch.
pub(crate) fn shown<L: Terms>(caller: &mut Caller<L>) -> Option<usize> {
    let watch = caller.watch.as_mut()?;
    match read(watch) {
        Ok(sheet) => Some(sheet.at as usize),
        Err(_) => None,
    }
}

/// Whether an order has the game, the diagram and one decision.
fn order_tells(order: &Order) -> bool {
    order.game().vertices() == 2
        && order.diagram().features() == 3
        && order.decisions().len() == 1
        && order.hopeful().values().len() == 2
        && order.dual().values().len() == 2
        && order.shape(Which::Hopeful).top() > 0
        && order.arena(Which::Dual).vertices() == 2
}

/// Whether a harvest is settled, and its order has the right values.
fn harvest_tells(harvest: &Harvest) -> bool {
    let order = harvest.order();
    order.game().vertices() > 0
        && order_tells(order)
        && harvest.check()
        && harvest.value(Which::Hopeful, 0) > 0
}

/// Returns the harvest of an order with the first vertex lifted, which is settled then.
fn harvest_again(order: Order) -> Harvest {
    if order.game().vertices() == 0 {
        return Harvest::alone(order, 100);
    }
    let lifted = Harvest::one(order, Which::Hopeful, 0);
    Harvest::alone(lifted.again(), 100)
}

/// Makes a further harvest of the harvest's order.
fn carry(kept: &mut Option<Harvest>) -> End {
    let Some(harvest) = kept.take() else {
        return End::Otherwise;
    };
    let again = harvest_again(harvest.again());
    let tells = harvest_tells(&again);
    put_harvest(kept, again);
    done_if(tells)
}

/// Makes such a call that is not logged.
fn looked<L: Terms, R: Wait>(
    rt: &R,
    office: &Office<L>,
    caller: &mut Caller<L>,
    call: OfficeCall,
) -> End {
    match call {
        OfficeCall::Join => match office.join(rt) {
            Ok((_session, front)) => done_if(front.len() == caller.seat.front.len()),
            Err(_) => End::Otherwise,
        },
        OfficeCall::Meet => {
            let copy = caller.seat.front.copy();
            let mut early = Front::empty();
            office.meet(rt, &mut early, &copy);
            done_if(early.len() == caller.seat.front.len())
        }
        OfficeCall::Watch => match office.watch(rt) {
            Ok(watch) => {
                caller.watch = Some(watch);
                End::Done
            }
            Err(_) => End::Otherwise,
        },
        // There is something to read as long as the office is not closed.
        OfficeCall::Read => done_if(shown(caller).is_some()),
        OfficeCall::Carry => carry(&mut caller.harvest),
        // which is made once all else is done
        OfficeCall::Close | OfficeCall::End(_) => End::Done,
        _ => End::Otherwise,
    }
}

/// Makes a call that needs no token and gives none. A commit hands the harvest in, which adds two entries.
pub(crate) fn asked<L: Terms, R: Wait>(
    rt: &R,
    alloc: Global,
    office: &Office<L>,
    caller: &mut Caller<L>,
    call: OfficeCall,
) -> End
    requires { 0 < length L.game.vertices }
{
    match call {
        OfficeCall::Order => match caller
            .seat
            .session
            .order(rt, alloc, office, &mut caller.seat.front)
        {
            Ok(order) => {
                put_harvest(&mut caller.harvest, Harvest::alone(order, 100));
                End::Done
            }
            Err(fault) => end_of(fault),
        },
        OfficeCall::Commit => match caller.harvest.take() {
            Some(harvest) => match caller
                .seat
                .session
                .commit(rt, alloc, office, &mut caller.seat.front, harvest)
            {
                Ok(added) => done_if(added == 2),
                Err(Returned { fault, value }) => {
                    put_harvest(&mut caller.harvest, value);
                    end_of(fault)
                }
            },
            None => End::Otherwise,
        },
        OfficeCall::Settled => ended(
            caller
                .seat
                .session
                .settled(rt, office, &mut caller.seat.front),
        ),
        OfficeCall::Verdict => ended(
            caller
                .seat
                .session
                .verdict(rt, office, &mut caller.seat.front, 0),
        ),
        OfficeCall::Page => match caller
            .seat
            .session
            .page(rt, alloc, office, &mut caller.seat.front)
        {
            Ok(page) => meet_page(&mut caller.page, page),
            Err(fault) => end_of(fault),
        },
        _ => looked(rt, office, caller, call),
    }
}

/// Makes a call: the token that is held then, and how it ended.
pub(crate) fn called<L: Terms, R: Wait>(
    rt: &R,
    alloc: Global,
    office: &Office<L>,
    caller: &mut Caller<L>,
    held: HeldToken<L>,
    call: OfficeCall,
) -> (HeldToken<L>, End)
    requires { 0 < length L.game.vertices }
{
    if call.is_of_tokens() {
        made(rt, alloc, office, &mut caller.seat, held, call)
    } else {
        (held, asked(rt, alloc, office, caller, call))
    }
}
