//! The place where a formula stops, found word by word.
ghost use Rattle.std.specs.Prelude.{◌≡◌, ◌∷◌, ◌++◌, if◌then◌else◌, bytes_eq, length, [], ◌<◌, IfOk, IfSome, IfNone, OnOk};
ghost use Rattle.vpg_formula.specs.Heads.{opening_head, view_head};
ghost use Rattle.vpg_formula.specs.Written.{head_of};
ghost use Rattle.vpg_formula.specs.Needs as spec;
ghost use Rattle.vpg_formula.specs.Needs.{skips, operand_turn, part_turn, if_open, if_acting, turn_of, formula_way};
ghost use Rattle.vpg_formula.specs.NeedsCode.{word_of, closer_of, need_of, needs_of, inside_of, more_of, turn_of_code, step_of, way_of};
ghost use Rattle.vpg_formula.specs.ReadCode.{texts};

use crate::fault::DEEPEST;
use crate::head::{Bracket, Head, Leaf, Opening, is_variable, read_head};
use crate::regular::{is_word, starts_operand};
use crate::requirement::split_first;
use crate::words::is_same;
use std::alloc::{AllocError, Global};

/// A word that comes after another one.
#[derive(Clone, Copy)]
pub(crate) enum Follower {
    Free,
    And,
    Again,
    Dot,
}

/// The word that closes a part.
#[derive(Clone, Copy)]
pub(crate) enum Closer {
    Parenthesis,
    Bracket(Bracket),
}

/// Something that is still to come. Its number says how many more parts may be open in it.
#[derive(Clone, Copy)]
pub(crate) enum Need {
    /// An operand of a formula.
    Part(usize),
    /// After it perhaps `&&` and another one.
    Ands(usize),
    /// After it perhaps `||` and another one.
    Ors(usize),
    /// After these perhaps `=>` and a formula.
    Implied(usize),
    /// The variable of a fixpoint.
    Variable,
    Exactly(Follower),
    Closes(Closer),
    /// An operand of a regular formula.
    Operand(usize),
    /// An operand that is an action formula.
    Acting(usize),
    /// After it perhaps `&&` and an action formula.
    Alls(usize),
    /// After it perhaps `||` and an action formula.
    Anys(usize),
    /// Perhaps `*` or `+`.
    Stars,
    /// Perhaps `.` and more.
    Dots(usize),
    /// Perhaps `+` and more.
    Pluses(usize),
    /// No word: the formula that was read is no action formula.
    Unacting,
}

/// The needs after a word that opens a part.
#[derive(Clone, Copy)]
pub(crate) enum Inside {
    Act,
    Enclosed,
    Front,
    Modal(Bracket),
    Again,
    After,
    Binder,
    Path,
    Group,
    Formula,
}

/// The needs that replace a need whose word has come.
#[derive(Clone, Copy)]
pub(crate) enum More {
    Nothing,
    Free,
    Inside(Inside, usize),
    And(usize),
    Or(usize),
    All(usize),
    Any(usize),
    Star,
    Dot(usize),
    Plus(usize),
}

/// The turn of a need at a word. The flag says whether an action formula was read last.
#[derive(Clone, Copy)]
pub(crate) enum Turn {
    /// The word is taken.
    Goes(bool, More),
    /// No word is needed.
    Skips(bool),
    /// Another word is needed.
    Stuck,
    /// The word opens one part too many.
    Deep,
}

/// The result of all needs at a word.
#[derive(Clone, Copy)]
pub(crate) enum Step {
    On(bool),
    /// All needs are met without the word.
    Over,
    /// The word cannot come there.
    NoWord,
    /// It opens one part too many.
    NoRoom,
}

/// The place that reading reaches. `left` counts the words from there on.
#[derive(Clone, Copy)]
pub(crate) enum Way {
    /// All needs are met.
    Done { left: usize },
    /// The word cannot come there, or it is missing.
    Halted { left: usize },
    /// The word opens one part too many.
    TooDeep { left: usize },
}

impl Follower {
    fn word(self) -> &'static [u8]
        ensures { result.now ≡ word_of self }
    {
        match self {
            Follower::Free => b"free",
            Follower::And => b"and",
            Follower::Again => b"again",
            Follower::Dot => b".",
        }
    }
}

impl Closer {
    fn word(self) -> &'static [u8]
        ensures { result.now ≡ spec.closer (closer_of self) }
    {
        match self {
            Closer::Parenthesis => b")",
            Closer::Bracket(bracket) => bracket.closing(),
        }
    }
}

/// Returns one part less, if one may be open.
fn less(depth: usize) -> Option<usize>
    ensures { result ≡ spec.less depth }
{
    if depth == 0 { None } else { Some(depth - 1) }
}

/// Returns the turn at a word that opens a part.
fn open(depth: usize, inside: Inside) -> Turn
    ensures { turn_of_code result ≡ if_open depth (inside_of inside) }
{
    match less(depth) {
        None => Turn::Deep,
        Some(inner) => Turn::Goes(true, More::Inside(inside, inner)),
    }
}

/// Returns the turn of a formula's operand, by the word that opens it.
fn opening_turn(depth: usize, opening: Opening) -> Turn
    ensures { turn_of_code result ≡ part_turn depth (opening_head opening) }
{
    match opening {
        Opening::Action(_) => open(depth, Inside::Act),
        Opening::Parenthesis => open(depth, Inside::Enclosed),
        Opening::Front(_) => open(depth, Inside::Front),
        Opening::Bracket(bracket) => open(depth, Inside::Modal(bracket)),
        Opening::Again => open(depth, Inside::Again),
        Opening::After => open(depth, Inside::After),
        Opening::Binder(_) => open(depth, Inside::Binder),
    }
}

/// Returns the turn of a formula's operand, by its head.
fn head_turn(depth: usize, head: Head, _word: &[u8]) -> Turn
    ensures { turn_of_code result ≡ part_turn depth (view_head _word.now head) }
{
    match head {
        Head::Opening(opening) => opening_turn(depth, opening),
        Head::Leaf(Leaf::True) => Turn::Goes(true, More::Nothing),
        Head::Leaf(Leaf::False) => Turn::Goes(true, More::Nothing),
        Head::Leaf(Leaf::Name) => Turn::Goes(true, More::Nothing),
        Head::Leaf(Leaf::Deadlock) => Turn::Goes(true, More::Free),
        Head::Other => Turn::Stuck,
    }
}

/// Returns the turn of a formula's operand, by its first word.
fn part_turn(depth: usize, word: &[u8]) -> Turn
    ensures { turn_of_code result ≡ part_turn depth (head_of word.now) }
{
    head_turn(depth, read_head(word), word)
}

/// Returns the turn of an operand of a regular formula, with these needs between parentheses.
fn operand_turn(depth: usize, inside: Inside, word: &[u8]) -> Turn
    ensures { turn_of_code result ≡ operand_turn depth (inside_of inside) word.now }
{
    if is_same(word, b"!") {
        return open(depth, Inside::Act);
    }
    if is_same(word, b"(") {
        return open(depth, inside);
    }
    if is_word(word) {
        Turn::Goes(true, More::Nothing)
    } else {
        Turn::Stuck
    }
}

/// Returns the turn of a need that may take this sign.
fn at_sign(word: &[u8], sign: &[u8], taken: Turn, flag: bool) -> Turn
    ensures { turn_of_code result ≡ (if bytes_eq word.now sign.now then turn_of_code taken else skips flag) }
{
    if is_same(word, sign) {
        taken
    } else {
        Turn::Skips(flag)
    }
}

/// Returns the turn of a need of one word.
fn at_word(is_taken: bool, flag: bool) -> Turn
    ensures { turn_of_code result ≡ (if is_taken then spec.goes flag [] else spec.stuck) }
{
    if is_taken {
        Turn::Goes(flag, More::Nothing)
    } else {
        Turn::Stuck
    }
}

/// Returns the turn at a sign that joins only action formulas.
fn if_acting(flag: bool, more: More) -> Turn
    ensures { turn_of_code result ≡ if_acting flag (more_of more) }
{
    if flag {
        Turn::Goes(true, more)
    } else {
        Turn::Stuck
    }
}

/// Whether a word is `*`, or a `+` after which no operand starts.
fn is_star(word: &[u8], starts: bool) -> bool
    ensures { result ≡ spec.is_star word.now starts }
{
    is_same(word, b"*") || (is_same(word, b"+") && !starts)
}

/// Returns the turn after joined operands, where `*` or `+` may come.
fn star_turn(flag: bool, word: &[u8], starts: bool) -> Turn
    ensures { turn_of_code result ≡ turn_of spec.stars flag word.now starts }
{
    if is_star(word, starts) {
        Turn::Goes(false, More::Star)
    } else {
        Turn::Skips(flag)
    }
}

/// Returns the turn after a sequence, where `+` and another one may come.
fn plus_turn(depth: usize, flag: bool, word: &[u8], starts: bool) -> Turn
    ensures { turn_of_code result ≡ turn_of (spec.pluses depth) flag word.now starts }
{
    if is_same(word, b"+") && starts {
        Turn::Goes(flag, More::Plus(depth))
    } else {
        Turn::Skips(flag)
    }
}

impl Need {
    /// Returns the turn of the need at a word. `starts` says whether an operand starts after the word.
    fn turn(self, flag: bool, word: &[u8], starts: bool) -> Turn
        ensures { turn_of_code result ≡ turn_of (need_of self) flag word.now starts }
    {
        match self {
            Need::Part(depth) => part_turn(depth, word),
            Need::Ands(depth) => at_sign(word, b"&&", Turn::Goes(true, More::And(depth)), flag),
            Need::Ors(depth) => at_sign(word, b"||", Turn::Goes(true, More::Or(depth)), flag),
            Need::Implied(depth) => at_sign(word, b"=>", open(depth, Inside::Formula), flag),
            Need::Variable => at_word(is_variable(word), flag),
            Need::Exactly(follower) => at_word(is_same(word, follower.word()), flag),
            Need::Closes(closer) => at_word(is_same(word, closer.word()), flag),
            Need::Operand(depth) => operand_turn(depth, Inside::Path, word),
            Need::Acting(depth) => operand_turn(depth, Inside::Group, word),
            Need::Alls(depth) => at_sign(word, b"&&", if_acting(flag, More::All(depth)), flag),
            Need::Anys(depth) => at_sign(word, b"||", if_acting(flag, More::Any(depth)), flag),
            Need::Stars => star_turn(flag, word, starts),
            Need::Dots(depth) => at_sign(word, b".", Turn::Goes(flag, More::Dot(depth)), flag),
            Need::Pluses(depth) => plus_turn(depth, flag, word, starts),
            Need::Unacting => Turn::Skips(false),
        }
    }

    /// Whether the need can be met without a word.
    fn may_end(self) -> bool
        ensures { result ≡ spec.may_end (need_of self) }
    {
        match self {
            Need::Part(_) | Need::Variable | Need::Exactly(_) | Need::Closes(_) => false,
            Need::Operand(_) | Need::Acting(_) => false,
            Need::Ands(_) | Need::Ors(_) | Need::Implied(_) | Need::Alls(_) | Need::Anys(_) => true,
            Need::Stars | Need::Dots(_) | Need::Pluses(_) | Need::Unacting => true,
        }
    }
}

/// Puts a need in front of the others.
fn put(need: Need, out: &mut Vec<Need>) -> Result<(), AllocError>
    ensures { OnOk result (needs_of out.new.items ≡ need_of need ∷ needs_of out.old.items) }
{
    out.push(need)?;
    Ok(())
}

/// Puts the needs of a formula in front of the others.
fn put_formula(depth: usize, out: &mut Vec<Need>) -> Result<(), AllocError>
    ensures { OnOk result (needs_of out.new.items ≡ spec.formula_needs depth ++ needs_of out.old.items) }
{
    put(Need::Implied(depth), out)?;
    put(Need::Ors(depth), out)?;
    put(Need::Ands(depth), out)?;
    put(Need::Part(depth), out)
}

/// Puts the needs of an action formula between parentheses.
fn put_group(depth: usize, out: &mut Vec<Need>) -> Result<(), AllocError>
    ensures { OnOk result (needs_of out.new.items ≡ spec.action_needs depth ++ needs_of out.old.items) }
{
    put(Need::Anys(depth), out)?;
    put(Need::Alls(depth), out)?;
    put(Need::Acting(depth), out)
}

/// Puts the needs of operands joined by `&&` and `||`, after which `*` and `+` may come.
fn put_starred(depth: usize, out: &mut Vec<Need>) -> Result<(), AllocError>
    ensures { OnOk result (needs_of out.new.items ≡ spec.starred_needs depth ++ needs_of out.old.items) }
{
    put(Need::Stars, out)?;
    put(Need::Anys(depth), out)?;
    put(Need::Alls(depth), out)?;
    put(Need::Operand(depth), out)
}

/// Puts the needs of a regular formula.
fn put_regular(depth: usize, out: &mut Vec<Need>) -> Result<(), AllocError>
    ensures { OnOk result (needs_of out.new.items ≡ spec.regular_needs depth ++ needs_of out.old.items) }
{
    put(Need::Pluses(depth), out)?;
    put(Need::Dots(depth), out)?;
    put_starred(depth, out)
}

/// Puts the needs of a regular formula between brackets, and of the operand after it.
fn put_modal(bracket: Bracket, depth: usize, out: &mut Vec<Need>) -> Result<(), AllocError>
    ensures { OnOk result (needs_of out.new.items ≡ inside_of (Inside.Modal bracket) depth ++ needs_of out.old.items) }
{
    put(Need::Part(depth), out)?;
    put(Need::Closes(Closer::Bracket(bracket)), out)?;
    put_regular(depth, out)
}

/// Puts the needs after the first `again`.
fn put_again(depth: usize, out: &mut Vec<Need>) -> Result<(), AllocError>
    ensures { OnOk result (needs_of out.new.items ≡ inside_of Inside.Again depth ++ needs_of out.old.items) }
{
    put(Need::Part(depth), out)?;
    put(Need::Exactly(Follower::Again), out)?;
    put(Need::Exactly(Follower::And), out)
}

/// Puts the needs after `mu` or `nu`.
fn put_binder(depth: usize, out: &mut Vec<Need>) -> Result<(), AllocError>
    ensures { OnOk result (needs_of out.new.items ≡ inside_of Inside.Binder depth ++ needs_of out.old.items) }
{
    put_formula(depth, out)?;
    put(Need::Exactly(Follower::Dot), out)?;
    put(Need::Variable, out)
}

/// Puts the needs inside a part.
fn put_inside(inside: Inside, depth: usize, out: &mut Vec<Need>) -> Result<(), AllocError>
    ensures { OnOk result (needs_of out.new.items ≡ inside_of inside depth ++ needs_of out.old.items) }
{
    match inside {
        Inside::Act => put(Need::Acting(depth), out),
        Inside::Front => put(Need::Part(depth), out),
        Inside::Modal(bracket) => put_modal(bracket, depth, out),
        Inside::Again => put_again(depth, out),
        Inside::Binder => put_binder(depth, out),
        Inside::Formula => put_formula(depth, out),
        Inside::After => {
            put(Need::Part(depth), out)?;
            put(Need::Acting(depth), out)
        }
        Inside::Enclosed => {
            put(Need::Closes(Closer::Parenthesis), out)?;
            put_formula(depth, out)
        }
        Inside::Path => {
            put(Need::Closes(Closer::Parenthesis), out)?;
            put_regular(depth, out)
        }
        Inside::Group => {
            put(Need::Closes(Closer::Parenthesis), out)?;
            put_group(depth, out)
        }
    }
}

/// Puts the needs after `.` or the `+` between two formulas. Nothing there is an action formula.
fn put_joined(is_dot: bool, depth: usize, out: &mut Vec<Need>) -> Result<(), AllocError>
    ensures { OnOk result (needs_of out.new.items ≡
        (if is_dot then more_of (More.Dot depth) else more_of (More.Plus depth)) ++ needs_of out.old.items) }
{
    if is_dot {
        put(Need::Dots(depth), out)?;
        put(Need::Unacting, out)?;
    } else {
        put(Need::Pluses(depth), out)?;
        put(Need::Unacting, out)?;
        put(Need::Dots(depth), out)?;
    }
    put_starred(depth, out)
}

/// Puts the needs that replace another one.
fn put_more(more: More, out: &mut Vec<Need>) -> Result<(), AllocError>
    ensures { OnOk result (needs_of out.new.items ≡ more_of more ++ needs_of out.old.items) }
{
    match more {
        More::Nothing => Ok(()),
        More::Free => put(Need::Exactly(Follower::Free), out),
        More::Star => put(Need::Stars, out),
        More::Inside(inside, depth) => put_inside(inside, depth, out),
        More::Dot(depth) => put_joined(true, depth, out),
        More::Plus(depth) => put_joined(false, depth, out),
        More::Any(depth) => put_group(depth, out),
        More::And(depth) => {
            put(Need::Ands(depth), out)?;
            put(Need::Part(depth), out)
        }
        More::Or(depth) => {
            put(Need::Ors(depth), out)?;
            put(Need::Ands(depth), out)?;
            put(Need::Part(depth), out)
        }
        More::All(depth) => {
            put(Need::Alls(depth), out)?;
            put(Need::Acting(depth), out)
        }
    }
}

/// Goes past a word, and returns the result of all needs there.
fn go_past(flag: bool, needs: &mut Vec<Need>, word: &[u8], starts: bool) -> Result<Step, AllocError>
    ensures { IfOk result (λ s. step_of s (needs_of needs.new.items) ≡
        spec.step flag (needs_of needs.old.items) word.now starts) }
{
    let mut flag = flag;
    while let Some(need) = first_need(needs) {
        match need.turn(flag, word, starts) {
            Turn::Goes(next, more) => {
                put_more(more, needs)?;
                return Ok(Step::On(next));
            }
            Turn::Skips(next) => flag = next,
            Turn::Stuck => return Ok(Step::NoWord),
            Turn::Deep => return Ok(Step::NoRoom),
        }
    }
    Ok(Step::Over)
}

/// Removes and returns the first need, if there is one.
fn first_need(needs: &mut Vec<Need>) -> Option<Need>
    ensures none { IfNone result (needs_of needs.old.items ≡ [] × (needs_of needs.new.items ≡ [])) }
    ensures some { IfSome result (λ n. needs_of needs.old.items ≡ need_of n ∷ needs_of needs.new.items) }
    ensures shorter { IfSome result (λ _. length needs.new.items < length needs.old.items) }
{
    needs.pop()
}

/// Whether all needs can be met without a word.
fn all_may_end(needs: &mut Vec<Need>) -> bool
    ensures { result ≡ spec.all_may_end (needs_of needs.old.items) }
{
    while let Some(need) = first_need(needs) {
        if !need.may_end() {
            return false;
        }
    }
    true
}

/// Returns the place where the formula at the front of these words stops.
pub(crate) fn formula_way(alloc: Global, words: &[&[u8]]) -> Result<Way, AllocError>
    ensures { IfOk result (λ w. way_of w ≡ formula_way 64 (texts words.now)) }
{
    let mut needs = Vec::new(alloc);
    put_formula(DEEPEST, &mut needs)?;
    let mut flag = true;
    let mut left = words.len();
    let mut next = split_first(words);
    while let Some((word, behind)) = next {
        match go_past(flag, &mut needs, word, starts_operand(behind))? {
            Step::On(is_acting) => flag = is_acting,
            Step::Over => return Ok(Way::Done { left }),
            Step::NoWord => return Ok(Way::Halted { left }),
            Step::NoRoom => return Ok(Way::TooDeep { left }),
        }
        left -= 1;
        next = split_first(behind);
    }
    if all_may_end(&mut needs) {
        Ok(Way::Done { left: 0 })
    } else {
        Ok(Way::Halted { left: 0 })
    }
}
