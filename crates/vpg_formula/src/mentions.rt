//! Which words are names in a formula.
ghost use Rattle.std.specs.Prelude.{◌≡◌, ◌+◌, ◌<◌, ◌≤◌, ◌^◌, ◌∷◌, ◌++◌, [], length, IfOk, OnOk, IfSome, IfNone};
ghost use Rattle.vpg_formula.specs.Naming.{in_formula, at_first, region_behind_head, region_behind, around_behind, closed, behind, binds, is_bound, known_at};
ghost use Rattle.vpg_formula.specs.Naming as spec;
ghost use Rattle.vpg_formula.specs.Heads.{opening_head, view_head};
ghost use Rattle.vpg_formula.specs.ReadCode.{texts};
ghost use Rattle.vpg_formula.specs.EntryCode.{earlier_of};
ghost use Rattle.vpg_formula.specs.NamingCode.{region_of, open_of, opens, spot_of, depth_of, pairs, left_mentions, left_in};

use crate::head::{Bracket, Head, Leaf, Opening, is_variable, read_head};
use crate::requirement::{Entry, split_first};
use crate::uses::is_entry;
use crate::words::is_same;
use std::alloc::{AllocError, Global};

/// The part of a formula that the next word belongs to.
#[derive(Clone, Copy)]
pub(crate) enum Region {
    /// A formula.
    Formula,
    /// `mu` or `nu`: it is the variable.
    Binder,
    /// A regular formula between brackets.
    Path(Bracket),
    /// `can`, `will` or `after`: an action formula begins with it.
    Action,
    /// An action formula, inside one more parenthesis than these.
    Inside(usize),
}

/// An open parenthesis or fixpoint of a formula.
#[derive(Clone, Copy)]
pub(crate) enum Open<'t> {
    Parenthesis,
    /// The fixpoint of this variable.
    Fixpoint(&'t [u8]),
}

/// Where a word stands: the part that it belongs to, and what is open there, the innermost last.
#[derive(Drop)]
pub(crate) struct Spot<'t> {
    pub(crate) region: Region,
    pub(crate) around: Vec<Open<'t>>,
}

/// A word that is a name in a formula. `left` counts the words from it on.
#[derive(Clone, Copy)]
pub(crate) struct Mention {
    pub(crate) left: usize,
    /// Whether it is bound, or an earlier entry's.
    pub(crate) is_known: bool,
}

/// Returns the region after a word that opens a part.
fn behind_opening(opening: Opening) -> Region
    ensures { region_of result ≡ region_behind_head (opening_head opening) }
{
    match opening {
        Opening::Action(_) => Region::Action,
        Opening::After => Region::Action,
        Opening::Bracket(bracket) => Region::Path(bracket),
        Opening::Binder(_) => Region::Binder,
        Opening::Parenthesis => Region::Formula,
        Opening::Front(_) => Region::Formula,
        Opening::Again => Region::Formula,
    }
}

/// Returns the region after a word with this head.
fn behind_head(head: Head, _word: &[u8]) -> Region
    ensures { region_of result ≡ region_behind_head (view_head _word.now head) }
{
    match head {
        Head::Opening(opening) => behind_opening(opening),
        Head::Leaf(Leaf::True) => Region::Formula,
        Head::Leaf(Leaf::False) => Region::Formula,
        Head::Leaf(Leaf::Name) => Region::Formula,
        Head::Leaf(Leaf::Deadlock) => Region::Formula,
        Head::Other => Region::Formula,
    }
}

/// Returns the region after a word of a formula.
fn behind_word(word: &[u8]) -> Region
    ensures { region_of result ≡ region_behind in_formula word.now }
{
    behind_head(read_head(word), word)
}

/// Returns the region after a word between brackets, or after the closing bracket.
fn behind_path(bracket: Bracket, word: &[u8]) -> Region
    ensures { region_of result ≡ region_behind (region_of (Region.Path bracket)) word.now }
{
    if is_same(word, bracket.closing()) {
        Region::Formula
    } else {
        Region::Path(bracket)
    }
}

/// Returns the region after a word that begins an action formula.
fn behind_action(word: &[u8]) -> Region
    ensures { region_of result ≡ region_behind (region_of Region.Action) word.now }
{
    if is_same(word, b"!") {
        return Region::Action;
    }
    if is_same(word, b"(") {
        return Region::Inside(0);
    }
    Region::Formula
}

/// Returns the region after a closing parenthesis of an action formula, inside this many others.
fn closed_in(depth: usize) -> Region
    ensures { region_of result ≡ spec.closed_in depth }
{
    if depth == 0 {
        Region::Formula
    } else {
        Region::Inside(depth - 1)
    }
}

/// Returns the region after a word inside this many more parentheses of an action formula.
fn behind_inside(word: &[u8], depth: usize) -> Region
    requires { depth + 1 < 2 ^ 64 }
    ensures { region_of result ≡ region_behind (region_of (Region.Inside depth)) word.now }
{
    if is_same(word, b"(") {
        return Region::Inside(depth + 1);
    }
    if is_same(word, b")") {
        return closed_in(depth);
    }
    Region::Inside(depth)
}

impl Region {
    /// Returns the region after the word.
    pub(crate) fn behind(self, word: &[u8]) -> Region
        requires { depth_of self + 1 < 2 ^ 64 }
        ensures region { region_of result ≡ region_behind (region_of self) word.now }
    {
        match self {
            Region::Formula => behind_word(word),
            Region::Binder => Region::Formula,
            Region::Path(bracket) => behind_path(bracket, word),
            Region::Action => behind_action(word),
            Region::Inside(depth) => behind_inside(word, depth),
        }
    }
}

/// Leaves what is innermost, if anything is open.
fn leave<'t>(around: &mut Vec<Open<'t>>) -> Option<Open<'t>>
    ensures none { IfNone result (opens around.old.items ≡ [] × (opens around.new.items ≡ [])) }
    ensures some { IfSome result (λ last. opens around.old.items ≡ open_of last ∷ opens around.new.items) }
    ensures shorter { IfSome result (λ _. length around.new.items < length around.old.items) }
{
    around.pop()
}

/// Leaves the innermost parenthesis, and what is open in it.
fn close(around: &mut Vec<Open>)
    ensures { opens around.new.items ≡ closed (opens around.old.items) }
{
    while let Some(last) = leave(around) {
        if let Open::Parenthesis = last {
            return;
        }
    }
}

/// Notes what a word opens or closes.
fn note<'t>(region: Region, word: &'t [u8], around: &mut Vec<Open<'t>>) -> Result<(), AllocError>
    ensures { OnOk result (opens around.new.items ≡
        around_behind (region_of region) word.now (opens around.old.items)) }
{
    match region {
        Region::Formula => {
            if is_same(word, b"(") {
                around.push(Open::Parenthesis)?;
                return Ok(());
            }
            if is_same(word, b")") {
                close(around);
            }
        }
        Region::Binder => around.push(Open::Fixpoint(word))?,
        Region::Path(_) => (),
        Region::Action => (),
        Region::Inside(_) => (),
    }
    Ok(())
}

/// Goes past a word.
fn pass<'t>(spot: &mut Spot<'t>, word: &'t [u8]) -> Result<(), AllocError>
    requires { depth_of spot.now.region + 1 < 2 ^ 64 }
    ensures spot { OnOk result (spot_of spot.new ≡ behind (spot_of spot.old) word.now) }
    ensures depth { depth_of spot.new.region ≤ depth_of spot.old.region + 1 }
{
    note(spot.region, word, &mut spot.around)?;
    spot.region = spot.region.behind(word);
    Ok(())
}

fn binds(part: &Open, name: &[u8]) -> bool
    ensures { result ≡ binds name.now (open_of part.now) }
{
    match part {
        Open::Parenthesis => false,
        Open::Fixpoint(bound) => is_same(*bound, name),
    }
}

/// Whether a name is bound.
fn is_bound(around: &[Open], name: &[u8]) -> bool
    ensures { result ≡ is_bound (opens around.now) name.now }
{
    for part in around {
        if binds(part, name) {
            return true;
        }
    }
    false
}

/// Whether the name at this word is known, if there is one.
fn known_at(entries: &[Entry], spot: &Spot, word: &[u8]) -> Option<bool>
    ensures { result ≡ known_at (earlier_of entries.now) (spot_of spot.now) word.now }
{
    match spot.region {
        Region::Formula => {
            if !is_variable(word) {
                return None;
            }
            Some(is_entry(entries, word) || is_bound(&spot.around, word))
        }
        Region::Binder => None,
        Region::Path(_) => None,
        Region::Action => None,
        Region::Inside(_) => None,
    }
}

/// Notes whether a name is known, if there is a name.
fn note_name(known: Option<bool>, left: usize, out: &mut Vec<Mention>) -> Result<(), AllocError>
    ensures { OnOk result (pairs out.new.items ≡ pairs out.old.items ++ spec.mention known left []) }
{
    match known {
        Some(is_known) => out.push(Mention { left, is_known })?,
        None => (),
    }
    Ok(())
}

/// Returns the names in a formula that begins with these words, up to where this many words are left.
pub(crate) fn mentions(
    alloc: Global,
    entries: &[Entry],
    words: &[&[u8]],
    end: usize,
) -> Result<Vec<Mention>, AllocError>
    ensures { IfOk result (λ ms. pairs ms.items ≡
        left_mentions (earlier_of entries.now) at_first end (texts words.now)) }
{
    let mut out = Vec::new(alloc);
    let mut spot = Spot {
        region: Region::Formula,
        around: Vec::new(alloc),
    };
    let mut left = words.len();
    let mut next = split_first(words);
    while let Some((word, behind)) = next {
        if left <= end {
            return Ok(out);
        }
        note_name(known_at(entries, &spot, word), left, &mut out)?;
        pass(&mut spot, word)?;
        next = split_first(behind);
        left -= 1;
    }
    Ok(out)
}

/// Returns the number of words left at the name of this index.
pub(crate) fn left_at(mentions: &[Mention], index: usize) -> usize
    ensures { result ≡ left_in (pairs mentions.now) index }
{
    match mentions.get(index) {
        Some(mention) => mention.left,
        None => 0,
    }
}

/// Returns the number of words left at the first name that is not known.
pub(crate) fn first_unknown(mentions: &[Mention]) -> Option<usize>
    ensures { result ≡ spec.first_unknown (pairs mentions.now) }
{
    for mention in mentions {
        if !mention.is_known {
            return Some(mention.left);
        }
    }
    None
}
