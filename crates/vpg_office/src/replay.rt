//! The desk that replays the log, with the verdicts last read of its page.
ghost use Rattle.std.specs.Arc.{arc_value};
ghost use Rattle.std.specs.List.{list_any};
ghost use Rattle.std.specs.Prelude.{◌≡◌, ◌≤◌, ℕ, length, IfOk, IsTrue};
ghost use Rattle.vpg_diagram.specs.DiagramText.{NamedDiagram};
ghost use Rattle.vpg_game.specs.Game.{NamedGame};
ghost use Rattle.vpg_desk.specs.Book.{Book, Settled, IsSettled};
ghost use Rattle.vpg_desk.specs.Desk.{family_of};
ghost use Rattle.vpg_desk.specs.State.{DeskState, Replies, setting_of};
ghost use Rattle.vpg_trail.specs.Shown.{entry_of};
ghost use Rattle.vpg_office.specs.Made.{IsMade};
ghost use Rattle.vpg_office.specs.Told.{AgreeOnTops, AreAlike, AreTold, AreVerdictsOf, Leads, only_appends, raises_to_top as to_top};

use crate::alike::Alike;
use crate::asked::{Answer, SessionCall};
use std::alloc::{AllocError, Global};
use std::marker::Model;
use std::sync::Arc;
use vpg_desk::Desk;
use vpg_sides::Which;
use vpg_trail::Entry;
use vpg_watch::Verdicts;

/// The verdicts last read of a desk's page.
pub struct Told {
    // those of the present page, while they are still those last read
    verdicts: Option<Arc<Verdicts>>,
    // how many past and future pages have the same verdicts
    alike: Alike,
}

// Not derived: a derived `drop` would be proved again at each exit that owns such a value.
impl Drop for Told {
    fn drop(self) {
        let Told {
            verdicts: _,
            alike: _,
        } = self;
    }
}

/// A desk, with the verdicts last read of its page. Contracts see the desk.
pub struct Replay {
    pub(crate) desk: Desk,
    pub(crate) told: Told,
    // a vertex of a table that a lift raised on the last page that was not settled
    raised: Option<(Which, u32)>,
}

// Not derived: a derived `drop` would be proved again at each exit that owns such a value.
impl Drop for Replay {
    fn drop(self) {
        let Replay {
            desk: _,
            told: _,
            raised: _,
        } = self;
    }
}

impl Model for Replay {
    ghost use Rattle.std.specs.Coded.{codes};
    ghost use Rattle.vpg_diagram.specs.Coding.{rule_code};
    ghost use Rattle.vpg_game.specs.Coding.{game_code};
    ghost use Rattle.vpg_desk.specs.State.{DeskState};

    ghost Value = { DeskState };

    ghost coded = { Prim.hlevel (codes, game_code, rule_code) };

    ghost use Rattle.vpg_office.specs.Told.{AreTold};

    ghost view = { λ r. r.desk };

    ghost invariant = { λ r. AreTold r.desk r.told };
}

/// Returns the desk's verdict of each vertex.
fn verdicts_of(alloc: Global, desk: &Desk) -> Result<Verdicts, AllocError>
    ensures { IfOk result (AreVerdictsOf desk.now) }
{
    Ok(Verdicts::new(desk.verdicts(alloc)?))
}

/// Whether the entry raises a value to the desk's top.
fn raises_to_top(desk: &Desk, entry: &Entry) -> bool
    ensures { result ≡ to_top (family_of (setting_of desk.now)) (entry_of entry.now) }
{
    match entry {
        Entry::Decide(_) => false,
        Entry::Lift { table, new, .. } => desk.top(*table) <= *new,
    }
}

/// Whether one of the entries raises a value to the desk's top.
fn one_raises_to_top(desk: &Desk, entries: &[Entry]) -> bool
    ensures { result ≡ list_any (λ e. to_top (family_of (setting_of desk.now)) (entry_of e)) entries.now }
{
    for entry in entries {
        if raises_to_top(desk, entry) {
            return true;
        }
    }
    false
}

/// Whether a call left the verdicts. The page before it had `before` entries, and `alike` is about that page. Entries
/// that it appended may raise no value to the top. A retraction may remove nothing but its decision. A reset
/// counts as a change of them. An undo or a redo has to return to a page that is known to have these verdicts.
fn verdicts_stay(desk: &Desk, alike: Alike, asked: &SessionCall, before: usize) -> bool
    requires { IsTrue (only_appends asked.now) → before ≤ length desk.now.book.present }
    ensures { IsTrue result → (old : Book) (answer : Answer) →
        Leads (family_of (setting_of desk.now)) old asked.now answer desk.now.book → length old.present ≡ before →
        AreAlike (family_of (setting_of desk.now)) old alike →
        AgreeOnTops (family_of (setting_of desk.now)) old.present desk.now.book.present }
{
    match asked {
        SessionCall::Retract { .. } => desk.entries().len() + 1 == before,
        SessionCall::Reset => false,
        SessionCall::Undo { .. } => alike.past > 0,
        SessionCall::Redo { .. } => alike.future > 0,
        _ => {
            let (_, added) = desk.entries().split_at(before);
            !one_raises_to_top(desk, added)
        }
    }
}

impl Told {
    /// Keeps the verdicts if they are known to stay after a call with this answer. The page before it had `before`
    /// entries.
    pub(crate) fn follow(
        &mut self,
        desk: &Desk,
        asked: &SessionCall,
        answer: &Answer,
        before: usize,
    )
        requires { IsTrue (only_appends asked.now) → before ≤ length desk.now.book.present }
        ensures { (game : NamedGame) (diagram : NamedDiagram) (old : DeskState) (session : ℕ) →
            IsMade game diagram old session asked.now answer.now desk.now → length old.book.present ≡ before →
            AreTold old self.old → AreTold desk.now self.new }
    {
        if !verdicts_stay(desk, self.alike, asked, before) {
            self.verdicts = None;
            self.alike = Alike { past: 0, future: 0 };
            return;
        }
        self.alike = self.alike.after(answer);
    }
}

impl Replay {
    pub(crate) fn of(desk: Desk) -> Replay
        ensures { result ≡ desk }
    {
        let told = Told {
            verdicts: None,
            alike: Alike { past: 0, future: 0 },
        };
        Replay {
            desk,
            told,
            raised: None,
        }
    }

    pub(crate) fn desk(&self) -> &Desk
        ensures { result.now ≡ self.now }
    {
        &self.desk
    }

    pub(crate) fn into_desk(self) -> Desk
        ensures { result ≡ self }
    {
        let Replay {
            desk,
            told: _,
            raised: _,
        } = self;
        desk
    }

    /// Returns whether both tables of the present page are progress tables. It first tries the vertex that a lift
    /// raised the last time.
    pub(crate) fn settled(&mut self) -> bool
        ensures same { self.new ≡ self.old }
        ensures reply { Replies self.old Settled (IsSettled result) }
    {
        if let Some((which, v)) = self.raised {
            if self.desk.rises(which, v) {
                return false;
            }
        }
        self.looks_settled()
    }

    /// Returns whether the page is settled, by a look at the desk.
    fn looks_settled(&mut self) -> bool
        ensures same { self.new ≡ self.old }
        ensures reply { Replies self.old Settled (IsSettled result) }
    {
        let Some(raised) = self.desk.note() else {
            return true;
        };
        self.raised = Some(raised);
        false
    }

    /// Returns the present page's verdict of each vertex: the list that was read before, if it is still right.
    pub(crate) fn verdicts(&mut self, alloc: Global) -> Result<Arc<Verdicts>, AllocError>
        ensures same { self.new ≡ self.old }
        ensures are { IfOk result (λ told. AreVerdictsOf self.old (arc_value told)) }
    {
        if let Some(verdicts) = &self.told.verdicts {
            return verdicts.clone();
        }
        let verdicts = Arc::new(alloc, verdicts_of(alloc, &self.desk)?)?;
        self.told.verdicts = Some(verdicts.clone()?);
        Ok(verdicts)
    }
}
