//! Calls that look at the desk, and leave it.
ghost use Rattle.std.specs.Prelude.{◌≡◌, None};

use crate::asked::{Answer, SessionCall};
use crate::calls::{Asked, Call, Made};
use crate::purse::Purse;
use crate::terms::Terms;
use std::alloc::Global;
use std::sync::Arc;
use vpg_desk::Desk;
use vpg_faults::{Never, Returned};
use vpg_measure::{Order, PageGames};
use vpg_sides::Verdict;
use vpg_trail::Page;

/// Returns a call that looks, as the log keeps it.
fn look<L: Terms>(call: SessionCall) -> Asked<L>
    ensures call { result.call ≡ call }
    ensures own { result.own ≡ None }
{
    Asked {
        call,
        own: None,
        sheet: None,
    }
}

/// Whether both tables of the present page are progress tables.
#[derive(Drop)]
pub struct SettledCall;

impl<L: Terms> Call<L> for SettledCall {
    ghost use Rattle.vpg_desk.specs.Book as book;
    ghost use Rattle.vpg_office.specs.declared.asked.SessionCall.TheVariants as ask;

    type Given = bool;

    type Made = bool;

    type Refused = Never;

    ghost asks = { λ c. ask.Settled };

    ghost means = { λ c. book.Settled };

    ghost replies = { λ settled. book.IsSettled settled };

    fn asked(&self) -> Asked<L> {
        look(SessionCall::Settled)
    }

    fn carry_out(
        self,
        desk: &mut Desk,
        _purse: &mut Purse<L>,
        _session: u32,
    ) -> Result<Made<bool>, Returned<Option<Never>, SettledCall>> {
        let settled = desk.settled();
        Ok(Made {
            given: settled,
            answer: Answer::IsSettled { settled },
        })
    }
}

/// The verdict of a vertex by the present tables.
#[derive(Drop)]
pub struct VerdictCall {
    pub vertex: u32,
}

impl<L: Terms> Call<L> for VerdictCall {
    ghost use Rattle.std.specs.Prelude.{◌<◌, length};
    ghost use Rattle.vpg_desk.specs.Headline.{VerdictMeans};
    ghost use Rattle.vpg_desk.specs.History.{page_after};
    ghost use Rattle.vpg_desk.specs.State.{setting_between};
    ghost use Rattle.vpg_office.specs.Fronts.{family_between};
    ghost use Rattle.vpg_desk.specs.Book as book;
    ghost use Rattle.vpg_office.specs.declared.asked.SessionCall.TheVariants as ask;

    type Given = Verdict;

    type Made = Verdict;

    type Refused = Never;

    ghost asks = { λ c. ask.Verdict c.vertex };

    ghost means = { λ c. book.Verdict c.vertex };

    ghost replies = { λ verdict. book.VerdictIs verdict.hopeless verdict.sure };

    ghost Takes = { λ c. c.vertex < length L.game.vertices };

    ghost Gives = { λ c front verdict.
        VerdictMeans (setting_between L.game L.diagram) (page_after (family_between L.game L.diagram) front) c.vertex
        verdict.hopeless verdict.sure };

    fn asked(&self) -> Asked<L> {
        look(SessionCall::Verdict {
            vertex: self.vertex,
        })
    }

    fn carry_out(
        self,
        desk: &mut Desk,
        _purse: &mut Purse<L>,
        _session: u32,
    ) -> Result<Made<Verdict>, Returned<Option<Never>, VerdictCall>> {
        let verdict = desk.verdict(self.vertex);
        let answer = Answer::VerdictIs {
            hopeless: verdict.hopeless,
            sure: verdict.sure,
        };
        Ok(Made {
            given: verdict,
            answer,
        })
    }
}

/// The present page, with the games that its decisions leave: the desk holds them, so they are not made again.
#[derive(Drop)]
pub struct PageCall {
    pub alloc: Global,
}

impl<L: Terms> Call<L> for PageCall {
    ghost use Rattle.std.specs.Arc.{arc_value};
    ghost use Rattle.vpg_desk.specs.History.{book_after};
    ghost use Rattle.vpg_office.specs.Fronts.{family_between};
    ghost use Rattle.vpg_office.specs.Made.{IsPage};
    ghost use Rattle.vpg_desk.specs.Book as book;
    ghost use Rattle.vpg_office.specs.declared.asked.SessionCall.TheVariants as ask;

    type Given = (Page, Arc<PageGames>);

    type Made = (Page, Arc<PageGames>);

    type Refused = Never;

    ghost asks = { λ c. ask.Page };

    ghost means = { λ c. book.Page };

    ghost replies = { λ both. book.PageIs both.0.entries };

    ghost Gives = { λ c front both.
        IsPage L.game L.diagram (book_after (family_between L.game L.diagram) book.opened front)
        both.0.entries both.0.decisions both.0.hopeful both.0.dual (arc_value both.1) };

    fn asked(&self) -> Asked<L> {
        look(SessionCall::Page)
    }

    fn carry_out(
        self,
        desk: &mut Desk,
        _purse: &mut Purse<L>,
        _session: u32,
    ) -> Result<Made<(Page, Arc<PageGames>)>, Returned<Option<Never>, PageCall>> {
        let Ok(games) = desk.games().clone() else {
            return Err(Returned {
                fault: None,
                value: self,
            });
        };
        match desk.page(self.alloc) {
            Ok(page) => Ok(Made {
                given: (page, games),
                answer: Answer::PageIs,
            }),
            Err(_) => Err(Returned {
                fault: None,
                value: self,
            }),
        }
    }
}

/// An order of the present page, for lifters.
#[derive(Drop)]
pub struct OrderCall {
    pub alloc: Global,
}

impl<L: Terms> Call<L> for OrderCall {
    ghost use Rattle.vpg_measure.specs.Orders.{IsOrder};
    ghost use Rattle.vpg_office.specs.Story.{IsOf};
    ghost use Rattle.vpg_desk.specs.Book as book;
    ghost use Rattle.vpg_office.specs.declared.asked.SessionCall.TheVariants as ask;

    type Given = Order;

    type Made = Order;

    type Refused = Never;

    ghost asks = { λ c. ask.Order };

    ghost means = { λ c. book.Order };

    ghost replies = { λ order. book.Ordered order.decisions order.hopeful order.dual };

    ghost Gives = { λ c front order. IsOf L.game L.diagram order × IsOrder order };

    fn asked(&self) -> Asked<L> {
        look(SessionCall::Order)
    }

    fn carry_out(
        self,
        desk: &mut Desk,
        _purse: &mut Purse<L>,
        _session: u32,
    ) -> Result<Made<Order>, Returned<Option<Never>, OrderCall>> {
        match desk.order(self.alloc) {
            Ok(order) => {
                let _ = order.game();
                Ok(Made {
                    given: order,
                    answer: Answer::Ordered,
                })
            }
            Err(_) => Err(Returned {
                fault: None,
                value: self,
            }),
        }
    }
}
