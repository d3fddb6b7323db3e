//! A front: a beginning of the log that was seen.
ghost use Rattle.std.specs.Prelude.{◌≡◌, ◌≤◌, [], length};
ghost use Rattle.boxcar.specs.Table.{Shows};
ghost use Rattle.vpg_desk.specs.Headline.{Headline};
ghost use Rattle.vpg_desk.specs.State.{IsOpened, setting_between};
ghost use Rattle.vpg_office.specs.Fronts.{IsHistory, family_between};
ghost use Rattle.vpg_office.specs.Kept.{story};
ghost use Rattle.vpg_office.specs.Story.{events_of, IsStory};

use crate::asked::{Answer, Entry};
use crate::terms::Terms;
use boxcar::Pushed;
use std::marker::{Model, PhantomData};
use vpg_watch::Follows;

pub(crate) type Place = Pushed<Entry>;

/// A beginning of the log of an office. Contracts see it as a history of the office's desk: its calls with their
/// sessions and replies.
pub struct Front<L: Terms> {
    pub(crate) count: usize,
    pub(crate) last: Option<(Place, Answer)>,
    pub(crate) of: PhantomData<L>,
}

// Not derived: a derived `drop` would be proved again at each exit that owns such a value.
impl<L: Terms> Drop for Front<L> {
    fn drop(self) {
        let Front {
            count: _,
            last: _,
            of: _,
        } = self;
    }
}

impl<L: Terms> Model for Front<L> {
    ghost use Rattle.std.specs.Coded.{codes};
    ghost use Rattle.std.specs.Prelude.{List};
    ghost use Rattle.vpg_desk.specs.History.{Event};

    ghost Value = { List Event };

    ghost coded = { Prim.hlevel codes };

    ghost use Rattle.vpg_office.specs.Fronts.{family_between};
    ghost use Rattle.vpg_office.specs.Kept.{story_to, IsFront};
    ghost use Rattle.vpg_office.specs.Story.{events_of};

    ghost view = { λ f. events_of (family_between L.game L.diagram) (story_to f.last) };

    ghost invariant = { λ f. IsFront L.shelves L.game L.diagram L.limit f.count f.last };
}

impl<L: Terms> Follows for Front<L> {
    ghost use Rattle.std.specs.Prelude.{[], length};
    ghost use mathlib.Core.List.{IsPrefix};
    ghost use Rattle.vpg_office.specs.Sheets.{IsSheetOf};
    ghost use Rattle.vpg_office.specs.Beginnings.{from_empty, itself, through, grows, counted};

    ghost begins = { λ later earlier. IsPrefix earlier later };

    ghost empty = { [] };

    ghost calls = { length };

    ghost belongs = { IsSheetOf L.game L.diagram };

    fn len(&self) -> usize {
        Front::len(self)
    }

    ghost from_empty = { from_empty };

    ghost itself = { itself };

    ghost through = { through };

    ghost grows = { grows };

    ghost counted = { counted L.game L.diagram };
}

impl<L: Terms> Front<L> {
    /// Returns the front that has seen nothing.
    pub fn empty() -> Front<L>
        requires { IsOpened L.game L.diagram }
        ensures { result ≡ [] }
    {
        Front {
            count: 0,
            last: None,
            of: PhantomData,
        }
    }

    /// Returns the front that ends at a place.
    pub(crate) fn at(place: &Place, answer: Answer, count: usize) -> Front<L>
        requires row { Shows L.shelves place.now }
        requires count { count ≡ length (story place.now.value answer) }
        requires fits { count ≤ L.limit }
        requires is_story { IsStory L.game L.diagram (story place.now.value answer) }
        ensures { result ≡ events_of (family_between L.game L.diagram) (story place.now.value answer) }
    {
        Front {
            count,
            last: Some((place.again(), answer)),
            of: PhantomData,
        }
    }

    /// Returns the number of its calls, which is at most the log's room.
    pub fn len(&self) -> usize
        ensures length { result ≡ length self.now }
        ensures fits { result ≤ L.limit }
        // It is a legal history of the desk, with lawful harvests only.
        ensures history { IsHistory (family_between L.game L.diagram) self.now }
    {
        self.count
    }

    /// Returns a copy of the front.
    pub fn copy(&self) -> Front<L>
        ensures same { result ≡ self.now }
        ensures history { IsHistory (family_between L.game L.diagram) self.now }
        ensures opens { IsOpened L.game L.diagram }
    {
        let last = match &self.last {
            Some((place, answer)) => Some((place.again(), *answer)),
            None => None,
        };
        Front {
            count: self.count,
            last,
            of: PhantomData,
        }
    }

    /// The laws of every legal history hold of it. Undo and redo restore pages, each page's tables are below every
    /// progress table, settled ones are the least, and hopeless and sure mean what they say.
    pub fn headline(&self)
        ensures { Headline (setting_between L.game L.diagram) self.now }
    {
        let _ = &self.count;
    }
}

/// A further front that the log has to have: a token's, or one to meet. With a serial, the front has to end with the
/// log's last call that gave a token of it.
pub struct Own<L: Terms> {
    pub(crate) front: Front<L>,
    pub(crate) serial: Option<u64>,
}

// Not derived: a derived `drop` would be proved again at each exit that owns such a value.
impl<L: Terms> Drop for Own<L> {
    fn drop(self) {
        let Own {
            front: _,
            serial: _,
        } = self;
    }
}
