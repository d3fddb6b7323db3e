//! First words of formulas.
ghost use Rattle.std.specs.Prelude.{◌≡◌, length};
ghost use Rattle.std.specs.List.{list_all};
ghost use Rattle.vpg_features.specs.Names.{is_name_byte, starts_as_name};
ghost use Rattle.vpg_formula.specs.Written.{head_of, is_variable};
ghost use Rattle.vpg_formula.specs.Marks.{prefix_mark, binder_mark};
ghost use Rattle.vpg_formula.specs.Heads.{view_head, front_of, modality_of, binder_of, modal_mark, action_mark, modal_close};

use crate::mark::{Mark, Name};
use crate::words::{is_keyword, is_same};
use vpg_features::is_name_byte;

/// A leaf: a formula of one word, or `deadlock free`.
#[derive(Clone, Copy, Debug, PartialEq, Eq)]
pub(crate) enum Leaf {
    True,
    False,
    Name,
    Deadlock,
}

/// `can` and `will`.
#[derive(Clone, Copy, Debug, PartialEq, Eq)]
pub(crate) enum ActionWord {
    Can,
    Will,
}

/// A word in front of an operand.
#[derive(Clone, Copy, Debug, PartialEq, Eq)]
pub(crate) enum Front {
    Not,
    Always,
    Never,
    Possibly,
    Inevitably,
}

/// `<` and `[`.
#[derive(Clone, Copy, Debug, PartialEq, Eq)]
pub(crate) enum Bracket {
    Diamond,
    Box,
}

/// `mu` and `nu`.
#[derive(Clone, Copy, Debug, PartialEq, Eq)]
pub(crate) enum Binder {
    Mu,
    Nu,
}

/// A word that opens a part.
#[derive(Clone, Copy, Debug, PartialEq, Eq)]
pub(crate) enum Opening {
    Action(ActionWord),
    Parenthesis,
    Front(Front),
    Bracket(Bracket),
    Again,
    After,
    Binder(Binder),
}

/// The first word of a formula, by what it begins.
#[derive(Clone, Copy, Debug, PartialEq, Eq)]
pub(crate) enum Head {
    Leaf(Leaf),
    Opening(Opening),
    Other,
}

impl ActionWord {
    pub(crate) fn mark(self) -> Mark
        ensures { result ≡ action_mark self }
    {
        match self {
            ActionWord::Can => Mark::Can,
            ActionWord::Will => Mark::Will,
        }
    }
}

impl Front {
    pub(crate) fn mark(self) -> Mark
        ensures { result ≡ prefix_mark (front_of self) }
    {
        match self {
            Front::Not => Mark::Not,
            Front::Always => Mark::Always,
            Front::Never => Mark::Never,
            Front::Possibly => Mark::Possibly,
            Front::Inevitably => Mark::Inevitably,
        }
    }
}

impl Bracket {
    pub(crate) fn mark(self) -> Mark
        ensures { result ≡ modal_mark self }
    {
        match self {
            Bracket::Diamond => Mark::SomePath,
            Bracket::Box => Mark::EveryPath,
        }
    }

    /// Returns the sign that closes it.
    pub(crate) fn closing(self) -> &'static [u8]
        ensures { result.now ≡ modal_close self }
    {
        match self {
            Bracket::Diamond => b">",
            Bracket::Box => b"]",
        }
    }
}

impl Binder {
    pub(crate) fn mark(self, name: Name) -> Mark
        ensures { result ≡ binder_mark (binder_of self) name }
    {
        match self {
            Binder::Mu => Mark::Least(name),
            Binder::Nu => Mark::Greatest(name),
        }
    }
}

fn starts_as_name(word: &[u8]) -> bool
    ensures { result ≡ starts_as_name word.now }
{
    match word {
        [] => false,
        [first, ..] => first.is_ascii_alphabetic() || *first == b'_',
    }
}

fn has_name_bytes(word: &[u8]) -> bool
    ensures { result ≡ list_all is_name_byte word.now }
{
    word.iter().all(|b| is_name_byte(*b))
}

/// Whether a word can name a variable or an entry.
pub(crate) fn is_variable(word: &[u8]) -> bool
    ensures { result ≡ is_variable word.now }
{
    if !starts_as_name(word) {
        return false;
    }
    if !has_name_bytes(word) {
        return false;
    }
    if word.len() > 64 {
        return false;
    }
    !is_keyword(word)
}

/// Returns the kind of formula that begins with this word.
pub(crate) fn read_head(word: &[u8]) -> Head
    ensures { view_head word.now result ≡ head_of word.now }
{
    if is_same(word, b"true") {
        return Head::Leaf(Leaf::True);
    }
    if is_same(word, b"false") {
        return Head::Leaf(Leaf::False);
    }
    if is_same(word, b"deadlock") {
        return Head::Leaf(Leaf::Deadlock);
    }
    if is_same(word, b"can") {
        return Head::Opening(Opening::Action(ActionWord::Can));
    }
    if is_same(word, b"will") {
        return Head::Opening(Opening::Action(ActionWord::Will));
    }
    if is_same(word, b"(") {
        return Head::Opening(Opening::Parenthesis);
    }
    if is_same(word, b"!") {
        return Head::Opening(Opening::Front(Front::Not));
    }
    if is_same(word, b"always") {
        return Head::Opening(Opening::Front(Front::Always));
    }
    if is_same(word, b"never") {
        return Head::Opening(Opening::Front(Front::Never));
    }
    if is_same(word, b"possibly") {
        return Head::Opening(Opening::Front(Front::Possibly));
    }
    if is_same(word, b"inevitably") {
        return Head::Opening(Opening::Front(Front::Inevitably));
    }
    if is_same(word, b"again") {
        return Head::Opening(Opening::Again);
    }
    if is_same(word, b"after") {
        return Head::Opening(Opening::After);
    }
    if is_same(word, b"<") {
        return Head::Opening(Opening::Bracket(Bracket::Diamond));
    }
    if is_same(word, b"[") {
        return Head::Opening(Opening::Bracket(Bracket::Box));
    }
    if is_same(word, b"mu") {
        return Head::Opening(Opening::Binder(Binder::Mu));
    }
    if is_same(word, b"nu") {
        return Head::Opening(Opening::Binder(Binder::Nu));
    }
    if is_variable(word) {
        return Head::Leaf(Leaf::Name);
    }
    Head::Other
}
