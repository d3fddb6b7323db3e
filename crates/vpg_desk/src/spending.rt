//! Spending tokens without going to another page.
ghost use Rattle.std.specs.Prelude.{◌≡◌, ◌<◌, ◌≤◌, ℕ, length, take, drop};
ghost use Rattle.vpg_desk.specs.Cuts.{cuts_of, notes_of, SuffixesBelow};
ghost use Rattle.vpg_desk.specs.Trail.{cuts_in_front_of};

use crate::cuts::Cut;
use crate::desk::Desk;
use crate::token::{Redo, Undo};

/// Returns the number of cuts at the one of this serial and beyond it; 0 if none has it.
fn up_to(cuts: &[Cut], serial: u64) -> usize
    ensures in_range { result ≤ length cuts.now }
    ensures kept { cuts_of (drop result cuts.now) ≡ cuts_in_front_of serial (cuts_of cuts.now) }
{
    let mut n = cuts.len();
    while n > 0 {
        if cuts[n - 1].serial == serial {
            return n;
        }
        n -= 1;
    }
    n
}

/// Drops the cut of this serial and those beyond it, if there is one.
fn drop_up_to(cuts: &mut Vec<Cut>, serial: u64)
    ensures front { cuts_of cuts.new.items ≡ cuts_in_front_of serial (cuts_of cuts.old.items) }
    ensures notes { notes_of cuts.new.items ≡ take (length cuts.new.items) (notes_of cuts.old.items) }
    ensures below { (n : ℕ) → SuffixesBelow n cuts.old.items → SuffixesBelow n cuts.new.items }
{
    let n = up_to(cuts, serial);
    let rest = cuts.len() - n;
    cuts.rotate_left(n);
    cuts.truncate(rest);
}

impl Desk {
    ghost use Rattle.vpg_desk.specs.Book.{Keep, Forget, Spent};
    ghost use Rattle.vpg_desk.specs.State.{IsStep};

    /// Gives an undo up: if the past has its change, the pages up to it are dropped.
    pub fn keep(&mut self, token: Undo)
        requires { 0 < self.old.book.tokens }
        ensures { (session : ℕ) → IsStep self.old session (Keep token) Spent self.new }
    {
        drop_up_to(&mut self.past, token.spend());
        self.tokens -= 1;
    }

    /// Gives a redo up: if the future has its change, the pages from it on are dropped.
    pub fn forget(&mut self, token: Redo)
        requires { 0 < self.old.book.tokens }
        ensures { (session : ℕ) → IsStep self.old session (Forget token) Spent self.new }
    {
        drop_up_to(&mut self.future, token.spend());
        self.tokens -= 1;
    }
}
