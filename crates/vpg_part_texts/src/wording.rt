//! Texts of parts.
ghost use Rattle.std.specs.Prelude.{◌≡◌, ◌+◌, ◌<◌, ◌≤◌, ◌++◌, [], length, take, slice_index_or, IfOk, OnOk};
ghost use Rattle.vpg_parts.specs.Parts.{part_at};
ghost use Rattle.vpg_part_texts.specs.PartTexts.{numbers_from, count_behind, variable_name, fixpoint_name, opened, closed, encloses_and, encloses_or, encloses_fixpoint, kind_text, most_levels, part_text, title, cut};

use crate::kept::{KEPT, cut, put};
use crate::sets::Text;
use itoa::Buffer;
use std::alloc::{AllocError, Global};
use vpg_parts::{Kind, Part};

/// Returns the number of levels of parts in a text.
fn most_levels() -> u32
    ensures { result ≡ most_levels }
{
    64
}

/// The surroundings of a part, which decide whether it needs parentheses.
#[derive(Clone, Copy, Debug, PartialEq, Eq)]
enum Around {
    /// Nothing, or a fixpoint.
    Alone,
    Either,
    Both,
    /// A modality.
    Step,
}

impl Around {
    fn encloses_and(self) -> bool
        ensures { result ≡ encloses_and self }
    {
        matches!(self, Around::Step)
    }

    fn encloses_or(self) -> bool
        ensures { result ≡ encloses_or self }
    {
        matches!(self, Around::Both | Around::Step)
    }

    fn encloses_fixpoint(self) -> bool
        ensures { result ≡ encloses_fixpoint self }
    {
        !matches!(self, Around::Alone)
    }
}

/// Returns an opening parenthesis, or nothing if there is none.
fn opening(is_enclosed: bool) -> &'static [u8]
    ensures { result.now ≡ opened is_enclosed }
{
    if is_enclosed { b"(" } else { b"" }
}

/// Returns a closing parenthesis, or nothing if there is none.
fn closing(is_enclosed: bool) -> &'static [u8]
    ensures { result.now ≡ closed is_enclosed }
{
    if is_enclosed { b")" } else { b"" }
}

/// Returns the word for a fixpoint.
fn word_of(kind: Kind) -> &'static [u8]
    ensures { result.now ≡ kind_text kind }
{
    match kind {
        Kind::Least => b"mu ",
        Kind::Greatest => b"nu ",
    }
}

/// Returns the number of fixpoints in front of the place after a part.
fn count_behind(count: usize, part: Part) -> usize
    requires { count < usize.MAX }
    ensures value { result ≡ count_behind count part }
    ensures few { result ≤ count + 1 }
{
    match part {
        Part::Fixpoint { .. } => count + 1,
        _ => count,
    }
}

/// Returns the number of fixpoints in front of each place.
pub fn numbers(alloc: Global, parts: &[Part]) -> Result<Vec<usize>, AllocError>
    ensures { IfOk result (λ numbers. numbers.items ≡ numbers_from 0 parts.now) }
{
    let mut numbers = Vec::new(alloc);
    let mut count = 0;
    for part in parts {
        numbers.push(count)?;
        count = count_behind(count, *part);
    }
    Ok(numbers)
}

/// Writes the name of the fixpoint of this number.
fn put_variable(number: usize, out: &mut Vec<u8>) -> Result<(), AllocError>
    requires { length out.old.items ≤ 61 }
    ensures put { OnOk result (out.new.items ≡ take 61 (out.old.items ++ variable_name number)) }
    ensures few { OnOk result (length out.new.items ≤ 61) }
{
    if number == 0 {
        return put(b"X", out);
    }
    if number == 1 {
        return put(b"Y", out);
    }
    if number == 2 {
        return put(b"Z", out);
    }
    put(b"X", out)?;
    let mut buffer = Buffer::new();
    put(buffer.format(number).as_bytes(), out)
}

/// The material of the texts of a requirement's parts.
#[derive(Clone, Copy)]
pub struct Wording<'p> {
    /// The parts of all requirements.
    pub parts: &'p [Part],
    /// The texts of the sets of actions that they name.
    pub sets: &'p [Text],
    /// The number of fixpoints in front of each place (`numbers`).
    pub numbers: &'p [usize],
    /// The place of the requirement's root.
    pub root: u32,
}

impl<'p> Wording<'p> {
    /// Returns the part at a place, or `false` if there is none.
    fn part(&self, place: u32) -> Part
        ensures { result ≡ part_at self.now.parts.now place }
    {
        match self.parts.get(place as usize) {
            Some(part) => *part,
            None => Part::False,
        }
    }

    /// Returns the text of a set.
    fn set(&self, set: u32) -> &[u8]
        ensures { result.now ≡ slice_index_or self.now.sets.now set [] }
    {
        match self.sets.get(set as usize) {
            Some(text) => text.bytes.as_slice(),
            None => &[],
        }
    }

    /// Returns the number of fixpoints in front of a place.
    fn number(&self, place: u32) -> usize
        ensures { result ≡ slice_index_or self.now.numbers.now place 0 }
    {
        match self.numbers.get(place as usize) {
            Some(number) => *number,
            None => 0,
        }
    }

    /// Writes the name of the fixpoint at a place.
    fn put_name(&self, place: u32, out: &mut Vec<u8>) -> Result<(), AllocError>
        requires { length out.old.items ≤ 61 }
        ensures put { OnOk result (out.new.items ≡
            take 61 (out.old.items ++ fixpoint_name self.now.numbers.now self.now.root place)) }
        ensures few { OnOk result (length out.new.items ≤ 61) }
    {
        let number = self.number(place);
        let before = self.number(self.root);
        put_variable(number.saturating_sub(before), out)
    }

    /// Writes a modality.
    fn put_step(
        &self,
        opening: &[u8],
        set: u32,
        closing: &[u8],
        out: &mut Vec<u8>,
    ) -> Result<(), AllocError>
        requires { length out.old.items ≤ 61 }
        ensures put { OnOk result (out.new.items ≡ take 61 (out.old.items
            ++ (opening.now ++ (slice_index_or self.now.sets.now set [] ++ closing.now)))) }
        ensures few { OnOk result (length out.new.items ≤ 61) }
    {
        put(opening, out)?;
        put(self.set(set), out)?;
        put(closing, out)
    }

    /// Writes how a fixpoint begins.
    fn put_binding(
        &self,
        opening: &[u8],
        kind: Kind,
        place: u32,
        out: &mut Vec<u8>,
    ) -> Result<(), AllocError>
        requires { length out.old.items ≤ 61 }
        ensures put { OnOk result (out.new.items ≡ take 61 (out.old.items ++ (opening.now ++ (kind_text kind
            ++ fixpoint_name self.now.numbers.now self.now.root place)))) }
        ensures few { OnOk result (length out.new.items ≤ 61) }
    {
        put(opening, out)?;
        put(word_of(kind), out)?;
        self.put_name(place, out)
    }

    /// Writes the part at a place, of at most this many levels.
    fn put_part(
        &self,
        levels: u32,
        around: Around,
        place: u32,
        out: &mut Vec<u8>,
    ) -> Result<(), AllocError>
        requires { length out.old.items ≤ 61 }
        ensures put { OnOk result (out.new.items ≡ take 61 (out.old.items ++ part_text self.now.parts.now
            self.now.sets.now (fixpoint_name self.now.numbers.now self.now.root) levels around place)) }
        ensures few { OnOk result (length out.new.items ≤ 61) }
    {
        if out.len() >= KEPT {
            return Ok(());
        }
        let Some(inner) = levels.checked_sub(1) else {
            return put(b"..", out);
        };
        match self.part(place) {
            Part::True => put(b"true", out),
            Part::False => put(b"false", out),
            Part::And(first, second) => {
                put(opening(around.encloses_and()), out)?;
                self.put_part(inner, Around::Both, first, out)?;
                put(b" && ", out)?;
                self.put_part(inner, Around::Both, second, out)?;
                put(closing(around.encloses_and()), out)
            }
            Part::Or(first, second) => {
                put(opening(around.encloses_or()), out)?;
                self.put_part(inner, Around::Either, first, out)?;
                put(b" || ", out)?;
                self.put_part(inner, Around::Either, second, out)?;
                put(closing(around.encloses_or()), out)
            }
            Part::SomeStep(set, to) => {
                self.put_step(b"<", set, b">", out)?;
                self.put_part(inner, Around::Step, to, out)
            }
            Part::EveryStep(set, to) => {
                self.put_step(b"[", set, b"]", out)?;
                self.put_part(inner, Around::Step, to, out)
            }
            Part::Fixpoint { kind, body, .. } => {
                self.put_binding(opening(around.encloses_fixpoint()), kind, place, out)?;
                put(b". ", out)?;
                self.put_part(inner, Around::Alone, body, out)?;
                put(closing(around.encloses_fixpoint()), out)
            }
            Part::Variable { fixpoint } => self.put_name(fixpoint, out),
        }
    }

    /// Writes the name of the vertex of the part at a place.
    fn put_title(&self, place: u32, out: &mut Vec<u8>) -> Result<(), AllocError>
        requires { length out.old.items ≤ 61 }
        ensures { OnOk result (out.new.items ≡ take 61 (out.old.items ++ title self.now.parts.now
            self.now.sets.now (fixpoint_name self.now.numbers.now self.now.root) place)) }
    {
        match self.part(place) {
            Part::Fixpoint { kind, .. } => self.put_binding(b"", kind, place, out),
            _ => self.put_part(most_levels(), Around::Alone, place, out),
        }
    }

    /// Returns the name of the vertex of the part at a place, in at most 60 bytes. It is the part, or `mu X` or `nu X`
    /// for a fixpoint, since its body has a vertex of its own.
    pub fn text(&self, alloc: Global, place: u32) -> Result<Vec<u8>, AllocError>
        ensures { IfOk result (λ text. text.items ≡ cut (title self.now.parts.now self.now.sets.now
            (fixpoint_name self.now.numbers.now self.now.root) place)) }
    {
        let mut text = Vec::new(alloc);
        self.put_title(place, &mut text)?;
        cut(&mut text)?;
        Ok(text)
    }
}
