//! Tokens and a harvest that are held from one call to the next.

ghost use Rattle.std.specs.Prelude.{◌<◌};

use crate::desks::Seen;
use std::sync::Wait;
use vpg_desk::{Desk, Redo, Undo};
use vpg_measure::Harvest;

/// The values that are held beside a desk.
pub(crate) struct Holdings {
    /// The token of a change.
    pub(crate) undo: Option<Undo>,
    /// The token of a change that was undone.
    pub(crate) redo: Option<Redo>,
    pub(crate) harvest: Option<Harvest>,
    /// The desk's answers before the call.
    pub(crate) before: Option<Seen>,
    /// Whether the arguments of the desk that was opened last came back.
    pub(crate) is_back: bool,
}

/// Returns a holder of nothing.
pub(crate) fn nothing() -> Holdings {
    Holdings {
        undo: None,
        redo: None,
        harvest: None,
        before: None,
        is_back: true,
    }
}

/// Waits until a token is out. It never waits, since who calls it holds one; no contract here says so.
pub(crate) fn wait_for_token<R: Wait>(rt: &R, desk: &Desk)
    ensures { 0 < desk.now.book.tokens }
{
    for _ in rt.forever() {
        if desk.tokens() > 0 {
            return;
        }
    }
    unreachable!()
}

/// Keeps a change, if there is a token.
pub(crate) fn keep<R: Wait>(rt: &R, desk: &mut Desk, token: Option<Undo>) {
    if let Some(token) = token {
        wait_for_token(rt, desk);
        desk.keep(token);
    }
}

/// Forgets an undone change, if there is a token.
pub(crate) fn forget<R: Wait>(rt: &R, desk: &mut Desk, token: Option<Redo>) {
    if let Some(token) = token {
        wait_for_token(rt, desk);
        desk.forget(token);
    }
}

/// Whether the one token that is out is that of an undone change, of this serial; and forgets it.
pub(crate) fn forgets<R: Wait>(rt: &R, desk: &mut Desk, held: &mut Holdings, serial: u64) -> bool {
    let told = match &held.redo {
        Some(token) => token.serial() == serial && desk.tokens() == 1,
        None => false,
    };
    forget(rt, desk, held.redo.take());
    told && desk.tokens() == 0
}

/// Drops the values that are held, and spends its tokens.
pub(crate) fn let_go<R: Wait>(rt: &R, desk: &mut Desk, held: Holdings) {
    let Holdings {
        undo,
        redo,
        harvest: _,
        before: _,
        is_back: _,
    } = held;
    keep(rt, desk, undo);
    forget(rt, desk, redo);
}
