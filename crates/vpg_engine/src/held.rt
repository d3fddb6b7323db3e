//! The tokens and harvests that the engine holds.
ghost use Rattle.std.specs.Prelude.{◌≡◌, ◌+◌, ◌-◌, ◌<◌, ◌≤◌, ◌==◌, ◌++◌, ◌∷◌, [], ℕ, length, max, position, slice_get, slice_index_or, vec_len, vec_capacity, slice_set, Option, Some, None, IfOk, OnOk, IfSome, IfNone, IsOkUnless};
ghost use Rattle.std.specs.List.{reduce, remove, insert};
ghost use Rattle.vpg_engine.specs.Faults.{UnlessStray};
ghost use Rattle.vpg_script.specs.Answer.{IsGiven, done};
ghost use Rattle.vpg_engine.specs.Answers.{numbered};
ghost use Rattle.vpg_engine.specs.Engine.{IsPlaceOf};
ghost use Rattle.vpg_engine.specs.Held.{undo_meant, redo_meant, harvest_kept, without};
ghost use Rattle.vpg_engine.specs.Serials.{serials};

use crate::fault::{Back, ClientFault};
use crate::lines;
use std::alloc::AllocError;
use vpg_desk::CommitFault;
use vpg_measure::Harvest;
use vpg_office::{Kind, Redo, Terms, Token, Undo};
use vpg_script::{ServeFault, Tone};

/// Returns the place of the undo that a command means: that of the serial, or without one that of the greatest.
pub(crate) fn undo_place<L: Terms>(undos: &[Undo<L>], serial: Option<u64>) -> Option<usize>
    ensures { IsPlaceOf (undo_meant (serials undos.now) serial) (serials undos.now) result }
{
    match serial {
        Some(serial) => place_of_serial(undos, serial),
        None => place_of_serial(undos, greatest(undos)?),
    }
}

fn place_of_serial<L: Terms, T: Kind>(tokens: &[Token<L, T>], serial: u64) -> Option<usize>
    ensures { result ≡ position (λ t. t.serial == serial) tokens.now }
{
    tokens.iter().position(|token| token.serial() == serial)
}

fn greatest<L: Terms>(undos: &[Undo<L>]) -> Option<u64>
    ensures { result ≡ reduce max (serials undos.now) }
{
    undos.iter().map(|undo| undo.serial()).max()
}

/// Returns the place of the redo that a command means: that of the serial, or without one the latest.
pub(crate) fn redo_place<L: Terms>(redos: &[Redo<L>], serial: Option<u64>) -> Option<usize>
    ensures { IsPlaceOf (redo_meant (serials redos.now) serial) (serials redos.now) result }
{
    match serial {
        Some(serial) => place_of_serial(redos, serial),
        None => place_of_serial(redos, redos.last()?.serial()),
    }
}

/// Takes out the token at the place that a command means, and returns it.
pub(crate) fn take<L: Terms, T: Kind>(tokens: &mut Vec<Token<L, T>>, place: usize) -> Token<L, T>
    requires { (meant : Option ℕ) × IsPlaceOf meant (serials tokens.old.items) (Some place) }
    ensures taken { (meant : Option ℕ) → IsPlaceOf meant (serials tokens.old.items) (Some place) →
        (meant ≡ Some result.serial) ×
        (serials tokens.new.items ≡ without result.serial (serials tokens.old.items)) }
    ensures again { insert tokens.new.items place result ≡ tokens.old.items }
    ensures place { place ≤ vec_len tokens.new }
    ensures room { vec_len tokens.new < vec_capacity tokens.new }
{
    tokens.remove(place)
}

/// Holds a token, and writes its serial.
pub(crate) fn hold<L: Terms, T: Kind>(
    tokens: &mut Vec<Token<L, T>>,
    token: Token<L, T>,
    word: &[u8],
    out: &mut Vec<u8>,
) -> Result<Tone, ServeFault>
    requires { vec_len tokens.old < vec_capacity tokens.old }
    ensures held { serials tokens.new.items ≡ serials tokens.old.items ++ token.serial ∷ [] }
    ensures told { IfOk result
        (λ tone. IsGiven (done (numbered word.now token.serial)) tone out.old.items out.new.items) }
    ensures memory { IsOkUnless result ServeFault.Memory }
{
    let serial = token.serial();
    tokens.push_reserved(token);
    lines::numbered(word, serial, out)
}

/// Holds the undo of a change that strayed.
pub(crate) fn hold_strayed<L: Terms, C: Drop>(undos: &mut Vec<Undo<L>>, back: Back<C, Undo<L>>)
    requires { vec_len undos.old < vec_capacity undos.old }
    ensures { (call : C) → back ≡ Back.Call call → undos.new.items ≡ undos.old.items }
{
    match back {
        Back::Call(_) => {}
        Back::Given(undo) => undos.push_reserved(undo),
    }
}

/// Puts a token back where it was.
fn put_back<T>(tokens: &mut Vec<T>, place: usize, token: T)
    requires place { place ≤ vec_len tokens.old }
    requires room { vec_len tokens.old < vec_capacity tokens.old }
    ensures { tokens.new.items ≡ insert tokens.old.items place token }
{
    match tokens.insert(place, token) {
        Ok(()) => {}
        Err(_full) => unreachable!(),
    }
}

/// Puts the token of a call back where it was, unless it was spent.
pub(crate) fn put_back_unspent<T: From<C>, C, G: Drop>(
    tokens: &mut Vec<T>,
    place: usize,
    back: Back<C, G>,
)
    requires place { place ≤ vec_len tokens.old }
    requires room { vec_len tokens.old < vec_capacity tokens.old }
    ensures { (call : C) → back ≡ Back.Call call →
        (token : T) × (T.from_gives call token × (tokens.new.items ≡ insert tokens.old.items place token)) }
{
    match back {
        Back::Call(call) => put_back(tokens, place, T::from(call)),
        Back::Given(_given) => {}
    }
}

/// Holds the token of an undo or a redo that failed: its own, where it was, or if it strayed the one that it gave.
pub(crate) fn put_back_unswung<T: From<C>, C, G>(
    tokens: &mut Vec<T>,
    others: &mut Vec<G>,
    place: usize,
    back: Back<C, G>,
)
    requires place { place ≤ vec_len tokens.old }
    requires room { vec_len tokens.old < vec_capacity tokens.old }
    requires other_room { vec_len others.old < vec_capacity others.old }
    ensures { (call : C) → back ≡ Back.Call call →
        (token : T) × (T.from_gives call token × ((tokens.new.items ≡ insert tokens.old.items place token) ×
        (others.new.items ≡ others.old.items))) }
{
    match back {
        Back::Call(call) => put_back(tokens, place, T::from(call)),
        Back::Given(other) => others.push_reserved(other),
    }
}

/// Returns the place of harvest K, if there was one.
fn harvest_place(harvests: &[Option<Harvest>], number: u64) -> Option<usize>
    ensures place { IfSome result (λ place. (number ≡ place + 1) × (place < length harvests.now)) }
    ensures none { IfNone result (harvest_kept harvests.now number ≡ None) }
{
    if number == 0 || number > harvests.len() as u64 {
        return None;
    }
    Some((number - 1) as usize)
}

/// Takes harvest K out, if it is kept.
pub(crate) fn take_harvest(harvests: &mut Vec<Option<Harvest>>, number: u64) -> Option<Harvest>
    ensures kept { result ≡ harvest_kept harvests.old.items number }
    ensures gone { IfSome result (λ _. harvests.new.items ≡ slice_set harvests.old.items (number - 1) None) }
    ensures within { IfSome result (λ _. (0 < number) × (number ≤ vec_len harvests.new)) }
    ensures none { IfNone result (harvests.new.items ≡ harvests.old.items) }
{
    let place = harvest_place(harvests, number)?;
    harvests[place].take()
}

/// Puts harvest K back, unless its commit strayed.
pub(crate) fn return_harvest(
    harvests: &mut Vec<Option<Harvest>>,
    number: u64,
    fault: &ClientFault<CommitFault>,
    harvest: Option<Harvest>,
)
    requires some { 0 < number }
    requires within { number ≤ vec_len harvests.old }
    ensures strayed { fault.now ≡ ClientFault.Stray → harvests.new.items ≡ harvests.old.items }
    ensures back { UnlessStray fault.now (harvests.new.items ≡ slice_set harvests.old.items (number - 1) harvest) }
{
    if !matches!(fault, ClientFault::Stray) {
        harvests[(number - 1) as usize] = harvest;
    }
}
