//! The entries that a text spells.
ghost use Rattle.std.specs.Prelude.{◌≡◌, ◌<◌, ◌≤◌, ◌^◌, ◌≢◌, List, ℕ, length, take, drop, min, IfOk, IfSome, option_map, None, true, vec_len, ◌+◌};
ghost use Rattle.std.specs.List.{prefix_len, list_all};
ghost use Rattle.std.specs.Char.{is_ascii_digit, digit_value};
ghost use Rattle.std.specs.Str.Parse.{digits_value};
ghost use Rattle.vpg_guards.specs.Grammar.{is_blank};
ghost use Rattle.vpg_features.specs.Names.{AreNames};
ghost use Rattle.vpg_guards.specs.View.{formula_of};
ghost use Rattle.vpg_guards.specs.Reading.{after_blanks, after_byte, after_sign, guard_at};
ghost use Rattle.vpg_game.specs.Grammar.{player_of};
ghost use Rattle.vpg_game.specs.Reading.{Gives, Fails, digits_at, number_at, len_before, bracket_at, fault_of_guard, within, successor_at, more_successors, successors_at, starts_with_digit, after_name, entry_at, more_entries, all_entries, after_word, if_spaced, after_heading, entries_at};

use crate::entry::{Entry, Successor};
use crate::fault::GameFault;
use std::alloc::Global;
use vpg_features::Names;
use vpg_guards::{Guard, GuardFault, parse_guard};
use vpg_sides::Player;

/// The most vertices of a game.
pub const MOST_VERTICES: usize = 65_536;

/// The most successors that are named in a game.
pub const MOST_EDGES: usize = 1_048_576;

/// One more than the greatest identifier.
const IDENTIFIERS: u64 = 4_294_967_296;

/// One more than the greatest priority that is read.
const PRIORITIES: u64 = 65_536;

fn is_blank(b: u8) -> bool
    ensures { result ≡ is_blank b }
{
    b == b' ' || b == b'\t' || b == b'\r' || b == b'\n'
}

/// Returns the number of blanks at the front.
fn blanks_len(text: &[u8]) -> usize
    ensures { result ≡ prefix_len is_blank text.now }
{
    for (i, b) in text.iter().enumerate() {
        if !is_blank(*b) {
            return i;
        }
    }
    text.len()
}

/// Returns the text after the blanks at the front.
#[tactic(auto, using(crate::proofs::Fronts::front_within))]
fn after_blanks(text: &[u8]) -> &[u8]
    ensures rest { result.now ≡ after_blanks text.now }
    ensures shorter { length result.now ≤ length text.now }
{
    &text[blanks_len(text)..]
}

/// Returns the text after the sign, if it comes next.
fn after_sign(text: &[u8], sign: u8) -> Option<&[u8]>
    ensures rest { option_map (λ r. r.now) result ≡ after_sign sign text.now }
    ensures shorter { IfSome result (λ r. length r.now < length text.now) }
{
    match after_blanks(text) {
        [first, rest @ ..] if *first == sign => Some(rest),
        _ => None,
    }
}

/// Returns the place of the next word.
fn place(text: &[u8], whole: usize) -> usize
    requires { length text.now ≤ whole }
    ensures { result ≤ whole }
{
    whole - after_blanks(text).len()
}

/// Returns the number of digits at the front.
fn digits_len(text: &[u8]) -> usize
    ensures { result ≡ prefix_len is_ascii_digit text.now }
{
    for (i, b) in text.iter().enumerate() {
        if !b.is_ascii_digit() {
            return i;
        }
    }
    text.len()
}

/// Returns the number that digits write, or the limit if it is larger.
fn bounded_value(digits: &[u8], limit: u64) -> u64
    requires limit { limit ≤ 2 ^ 32 }
    requires digits { list_all is_ascii_digit digits.now ≡ true }
    ensures { result ≡ min limit (digits_value 10 digits.now) }
{
    let mut value = 0;
    for b in digits {
        value = limit.min(value * 10 + digit(*b));
    }
    value
}

fn digit(b: u8) -> u64
    requires { is_ascii_digit b ≡ true }
    ensures value { result ≡ digit_value b }
    ensures less { result < 10 }
{
    (b - b'0') as u64
}

/// Returns the digits at the front, and what follows them.
#[tactic(auto, using(crate::proofs::Fronts::front_within))]
fn split_digits(text: &[u8]) -> (&[u8], &[u8])
    ensures word { result.0.now ≡ take (prefix_len is_ascii_digit text.now) text.now }
    ensures rest { result.1.now ≡ drop (prefix_len is_ascii_digit text.now) text.now }
    ensures shorter { length result.0.now + length result.1.now ≡ length text.now }
{
    text.split_at(digits_len(text))
}

/// Digits at the front, blanks before them, and what follows them.
fn digits(text: &[u8], whole: usize) -> Result<(&[u8], &[u8]), GameFault>
    requires { length text.now ≤ whole }
    ensures gives { Gives (λ x. (x.0.now, x.1.now)) result (digits_at (after_blanks text.now)) }
    ensures digits { IfOk result (λ x. list_all is_ascii_digit x.0.now ≡ true) }
    ensures shorter { IfOk result (λ x. length x.1.now < length text.now) }
{
    let start = after_blanks(text);
    let (digits, rest) = split_digits(start);
    if digits.is_empty() {
        return Err(GameFault::Syntax {
            at: whole - start.len(),
        });
    }
    Ok((digits, rest))
}

/// Reads a number below the limit, and returns the text after it too. `wrong` is the fault of a larger one.
fn number(
    text: &[u8],
    whole: usize,
    limit: u64,
    wrong: GameFault,
) -> Result<(u64, &[u8]), GameFault>
    requires within { length text.now ≤ whole }
    requires limit { limit ≤ 2 ^ 32 }
    requires wrong { Fails {Y = ℕ} wrong None }
    ensures gives { Gives (λ x. (x.0, x.1.now)) result (number_at limit text.now) }
    ensures less { IfOk result (λ x. x.0 < limit) }
    ensures shorter { IfOk result (λ x. length x.1.now < length text.now) }
{
    let (digits, rest) = digits(text, whole)?;
    let value = bounded_value(digits, limit);
    if value == limit {
        return Err(wrong);
    }
    Ok((value, rest))
}

/// Returns the number of bytes before the sign.
fn len_before(text: &[u8], sign: u8) -> usize
    ensures { result ≡ len_before sign text.now }
{
    for (i, b) in text.iter().enumerate() {
        if *b == sign {
            return i;
        }
    }
    text.len()
}

/// Splits the text before the sign.
#[tactic(auto, using(crate::proofs::Fronts::front_within))]
fn split_at_sign(text: &[u8], sign: u8) -> (&[u8], &[u8])
    ensures before { result.0.now ≡ take (len_before sign text.now) text.now }
    ensures tail { result.1.now ≡ drop (len_before sign text.now) text.now }
    ensures shorter { length result.1.now ≤ length text.now }
{
    text.split_at(len_before(text, sign))
}

/// Returns the guard that a text spells. `at` is its place.
fn guard(alloc: Global, text: &[u8], names: &Names, at: usize) -> Result<Guard, GameFault>
    ensures { Gives (λ g. formula_of g) result (guard_at names.now text.now) }
{
    // The contract of `len` says that the names are feature names, each once.
    let _count = names.len();
    match parse_guard(alloc, text, names) {
        Ok(guard) => Ok(guard),
        Err(fault) => Err(fault_of_guard(fault, at)),
    }
}

fn fault_of_guard(fault: GuardFault, at: usize) -> GameFault
    ensures { result ≡ fault_of_guard at fault }
{
    match fault {
        GuardFault::Memory => GameFault::Memory,
        _ => GameFault::Guard { at, fault },
    }
}

/// Returns the guard in brackets, where they come next, and what follows.
#[tactic(auto, unfolding(crate::specs::Reading::bracket_at))]
fn bracket<'t>(
    alloc: Global,
    names: &Names,
    text: &'t [u8],
    whole: usize,
) -> Result<(Guard, &'t [u8]), GameFault>
    requires { length text.now ≤ whole }
    ensures gives { Gives (λ x. (formula_of x.0, x.1.now)) result (bracket_at names.now text.now) }
    ensures shorter { IfOk result (λ x. length x.1.now ≤ length text.now) }
{
    let Some(rest) = after_sign(text, b'[') else {
        return Ok((Guard::Always, text));
    };
    let (inside, tail) = split_at_sign(rest, b']');
    match tail {
        [] => Err(GameFault::Syntax { at: whole }),
        [_, behind @ ..] => {
            let guard = guard(alloc, inside, names, whole - rest.len())?;
            Ok((guard, behind))
        }
    }
}

/// Returns a successor, and what follows it, where `left` more may be named.
fn successor<'t>(
    alloc: Global,
    names: &Names,
    text: &'t [u8],
    whole: usize,
    left: usize,
) -> Result<(Successor, &'t [u8]), GameFault>
    requires { length text.now ≤ whole }
    ensures gives { Gives (λ x. (x.0, x.1.now)) result (within left (successor_at names.now text.now)) }
    ensures left { IfOk result (λ x. 0 < left) }
    ensures shorter { IfOk result (λ x. length x.1.now < length text.now) }
{
    let at = place(text, whole);
    let (id, behind) = number(text, whole, IDENTIFIERS, GameFault::Syntax { at })?;
    if left == 0 {
        return Err(GameFault::TooMany { at });
    }
    let (guard, rest) = bracket(alloc, names, behind, whole)?;
    Ok((
        Successor {
            id: id as u32,
            guard,
        },
        rest,
    ))
}

/// Whether a digit comes next.
fn starts_with_digit(text: &[u8]) -> bool
    ensures { result ≡ starts_with_digit (after_blanks text.now) }
{
    match after_blanks(text) {
        [first, ..] => first.is_ascii_digit(),
        [] => false,
    }
}

/// Returns the successors, and what follows them, where `left` may be named.
fn successors<'t>(
    alloc: Global,
    names: &Names,
    text: &'t [u8],
    whole: usize,
    left: usize,
) -> Result<(Vec<Successor>, &'t [u8]), GameFault>
    requires { length text.now ≤ whole }
    ensures gives { Gives (λ x. (x.0.items, x.1.now)) result (successors_at names.now left text.now) }
    ensures few { IfOk result (λ x. vec_len x.0 ≤ left) }
    ensures shorter { IfOk result (λ x. length x.1.now ≤ length text.now) }
{
    let mut items = Vec::new(alloc);
    if !starts_with_digit(text) {
        return Ok((items, text));
    }
    let (first, mut rest) = successor(alloc, names, text, whole, left)?;
    let Ok(_) = items.push(first) else {
        return Err(GameFault::Memory);
    };
    while let Some(behind) = after_sign(rest, b',') {
        let (next, after) = successor(alloc, names, behind, whole, left - items.len())?;
        let Ok(_) = items.push(next) else {
            return Err(GameFault::Memory);
        };
        rest = after;
    }
    Ok((items, rest))
}

/// Returns the text after the name, if one comes next.
#[tactic(auto, unfolding(crate::specs::Reading::after_name))]
fn after_name(text: &[u8], whole: usize) -> Result<&[u8], GameFault>
    ensures gives { Gives (λ r. r.now) result (after_name text.now) }
    ensures shorter { IfOk result (λ r. length r.now ≤ length text.now) }
{
    let Some(rest) = after_sign(text, b'"') else {
        return Ok(text);
    };
    let (_, tail) = split_at_sign(rest, b'"');
    match tail {
        [] => Err(GameFault::Syntax { at: whole }),
        [_, behind @ ..] => Ok(behind),
    }
}

/// Returns the text after `;`.
fn after_end(text: &[u8], whole: usize) -> Result<&[u8], GameFault>
    requires { length text.now ≤ whole }
    ensures gives { Gives (λ r. r.now) result (after_sign 59 text.now) }
    ensures shorter { IfOk result (λ r. length r.now < length text.now) }
{
    match after_sign(text, b';') {
        Some(rest) => Ok(rest),
        None => Err(GameFault::Syntax {
            at: place(text, whole),
        }),
    }
}

fn player(owner: u64) -> Player
    ensures { result ≡ player_of owner }
{
    if owner == 0 {
        Player::Even
    } else {
        Player::Odd
    }
}

/// Returns an entry, and what follows it, where `left` successors may be named and `room` entries may follow.
fn entry<'t>(
    alloc: Global,
    names: &Names,
    text: &'t [u8],
    whole: usize,
    left: usize,
    room: usize,
) -> Result<(Entry, &'t [u8]), GameFault>
    requires { length text.now ≤ whole }
    ensures gives { Gives (λ x. (x.0, x.1.now)) result (within room (entry_at names.now left text.now)) }
    ensures room { IfOk result (λ x. 0 < room) }
    ensures few { IfOk result (λ x. length x.0.successors ≤ left) }
    ensures shorter { IfOk result (λ x. length x.1.now < length text.now) }
{
    let at = place(text, whole);
    let (id, behind_id) = number(text, whole, IDENTIFIERS, GameFault::Syntax { at })?;
    if room == 0 {
        return Err(GameFault::TooMany { at });
    }
    let at = place(behind_id, whole);
    let wrong = GameFault::PriorityTooLarge { at };
    let (priority, behind_priority) = number(behind_id, whole, PRIORITIES, wrong)?;
    let at = place(behind_priority, whole);
    let (owner, behind_owner) = number(behind_priority, whole, 2, GameFault::BadOwner { at })?;
    let (successors, behind_all) = successors(alloc, names, behind_owner, whole, left)?;
    let before_end = after_name(behind_all, whole)?;
    let rest = after_end(before_end, whole)?;
    Ok((
        Entry {
            id: id as u32,
            priority: priority as u32,
            owner: player(owner),
            successors,
        },
        rest,
    ))
}

/// Returns the entries up to the end of the text, one at least.
fn entries(alloc: Global, names: &Names, text: &[u8], whole: usize) -> Result<Vec<Entry>, GameFault>
    requires { length text.now ≤ whole }
    ensures { Gives (λ v. v.items) result (all_entries names.now text.now) }
{
    let mut items = Vec::new(alloc);
    let (first, mut rest) = entry(alloc, names, text, whole, MOST_EDGES, MOST_VERTICES)?;
    let mut left = MOST_EDGES - first.successors.len();
    let Ok(_) = items.push(first) else {
        return Err(GameFault::Memory);
    };
    while !after_blanks(rest).is_empty() {
        let (next, after) = entry(alloc, names, rest, whole, left, MOST_VERTICES - items.len())?;
        left -= next.successors.len();
        let Ok(_) = items.push(next) else {
            return Err(GameFault::Memory);
        };
        rest = after;
    }
    Ok(items)
}

/// Returns the text after a byte, if it comes first.
fn after_byte(text: &[u8], sign: u8) -> Option<&[u8]>
    ensures rest { option_map (λ r. r.now) result ≡ after_byte sign text.now }
    ensures shorter { IfSome result (λ r. length r.now < length text.now) }
{
    match text {
        [first, rest @ ..] if *first == sign => Some(rest),
        _ => None,
    }
}

/// Returns the text after the bytes of a word.
fn after_word<'t>(text: &'t [u8], word: &[u8], whole: usize) -> Result<&'t [u8], GameFault>
    requires { length text.now ≤ whole }
    ensures gives { Gives (λ r. r.now) result (after_word word.now text.now) }
    ensures shorter { IfOk result (λ r. length r.now ≤ length text.now) }
{
    let mut rest = text;
    for w in word {
        match after_byte(rest, *w) {
            Some(behind) => rest = behind,
            None => {
                return Err(GameFault::Syntax {
                    at: whole - rest.len(),
                });
            }
        }
    }
    Ok(rest)
}

/// Returns the text, if a blank comes next.
fn if_spaced(text: &[u8], whole: usize) -> Result<&[u8], GameFault>
    requires { length text.now ≤ whole }
    ensures gives { Gives (λ r. r.now) result (if_spaced text.now) }
    ensures shorter { IfOk result (λ r. length r.now ≤ length text.now) }
{
    match text {
        [b, ..] if is_blank(*b) => Ok(text),
        _ => Err(GameFault::Syntax {
            at: whole - text.len(),
        }),
    }
}

/// Returns the text after a header or a start, if its first byte comes next.
#[tactic(auto, unfolding(crate::specs::Reading::after_heading))]
fn after_heading<'t>(
    text: &'t [u8],
    first: u8,
    word: &[u8],
    whole: usize,
) -> Result<&'t [u8], GameFault>
    requires { length text.now ≤ whole }
    ensures gives { Gives (λ r. r.now) result (after_heading first word.now text.now) }
    ensures shorter { IfOk result (λ r. length r.now ≤ length text.now) }
{
    let Some(behind_first) = after_sign(text, first) else {
        return Ok(text);
    };
    let behind_word = after_word(behind_first, word, whole)?;
    let spaced = if_spaced(behind_word, whole)?;
    let (_, behind_number) = digits(spaced, whole)?;
    after_end(behind_number, whole)
}

/// Returns the entries that a whole text spells.
#[tactic(auto, unfolding(crate::specs::Reading::entries_at))]
pub(crate) fn read_entries(
    alloc: Global,
    text: &[u8],
    names: &Names,
) -> Result<Vec<Entry>, GameFault>
    ensures { Gives (λ v. v.items) result (entries_at names.now text.now) }
{
    let whole = text.len();
    let behind_header = after_heading(text, b'p', b"arity", whole)?;
    let behind_start = after_heading(behind_header, b's', b"tart", whole)?;
    entries(alloc, names, behind_start, whole)
}
