//! The text of a model's game.
ghost use Rattle.std.specs.Prelude.{◌≡◌, ◌≤◌, ◌++◌, ℕ, List, [], length, map, filter, nat_eq, nat_le, slice_index_or, IfOk, OnOk, OnErr};
ghost use Rattle.vpg_game.specs.Game.{IsAtLimit, SpellsGame};
ghost use Rattle.vpg_formula.specs.EntryCode.{earlier_of};
ghost use Rattle.vpg_labels.specs.Labels.{SpellsNamed, labels_from, start_told};
ghost use Rattle.vpg_part_texts.specs.PartTexts.{numbers_from};
ghost use Rattle.vpg_checking.specs.Texts.{WritesGame, WritesNames, entry_of, name_front, part_name, vertex_name};

use crate::model::Model;
use itoa::Buffer;
use std::alloc::{AllocError, Global};
use vpg_features::Names;
use vpg_labels::{Label, with_labels};
use vpg_part_texts::{Wording, numbers};
use vpg_parts::FALSE_PLACE;

/// Returns the number of these places that are at most this one.
fn count_upto(places: &[u32], place: u32) -> usize
    ensures { result ≡ length (filter (λ root. nat_le root place) places.now) }
{
    let mut count = 0;
    for root in places {
        if *root <= place {
            count += 1;
        }
    }
    count
}

impl Model {
    /// Returns the number of a part's requirement: the last one with a place that is not greater.
    fn requirement_of(&self, place: u32) -> usize
        ensures { result ≡ entry_of self.now.places.items place }
    {
        count_upto(&self.places, place).saturating_sub(1)
    }

    /// Returns the name of a requirement.
    fn name_of(&self, entry: usize) -> &[u8]
        ensures { result.now ≡ slice_index_or (earlier_of self.now.requirements.entries.items) entry [] }
    {
        match self.requirements.entries.get(entry) {
            Some(entry) => entry.name.as_bytes(),
            None => b"",
        }
    }

    /// Returns the place of a requirement's root.
    fn root_of(&self, entry: usize) -> u32
        ensures { result ≡ slice_index_or self.now.places.items entry 0 }
    {
        match self.places.get(entry) {
            Some(root) => *root,
            None => 0,
        }
    }

    /// Writes the front of a vertex's name, up to the part.
    fn put_front(&self, state: u32, place: u32, out: &mut Vec<u8>) -> Result<(), AllocError>
        ensures { OnOk result (out.new.items ≡ out.old.items
            ++ name_front (earlier_of self.now.requirements.entries.items) self.now.places.items state place) }
    {
        if place <= FALSE_PLACE {
            return Ok(());
        }
        let mut buffer = Buffer::new();
        out.extend_from_slice(buffer.format(state).as_bytes())?;
        out.push(b' ')?;
        out.extend_from_slice(self.name_of(self.requirement_of(place)))?;
        out.extend_from_slice(b": ")?;
        Ok(())
    }

    /// Returns the name of a part.
    fn part_name(&self, alloc: Global, numbers: &[usize], place: u32) -> Result<Vec<u8>, AllocError>
        requires { numbers.now ≡ numbers_from 0 self.now.source.parts.items }
        ensures { IfOk result (λ text. text.items ≡ part_name self.now.source.parts.items self.now.sets.items
            (slice_index_or self.now.places.items (entry_of self.now.places.items place) 0) place) }
    {
        let wording = Wording {
            parts: self.source.parts.as_slice(),
            sets: self.sets.as_slice(),
            numbers,
            root: self.root_of(self.requirement_of(place)),
        };
        wording.text(alloc, place)
    }

    /// Returns the name of the vertex of a state and a part.
    fn label(&self, alloc: Global, numbers: &[usize], pair: (u32, u32)) -> Result<Label, AllocError>
        requires { numbers.now ≡ numbers_from 0 self.now.source.parts.items }
        ensures { IfOk result (λ label. label ≡ vertex_name (earlier_of self.now.requirements.entries.items)
            self.now.places.items self.now.source.parts.items self.now.sets.items pair) }
    {
        let (state, place) = pair;
        let mut bytes = Vec::new(alloc);
        self.put_front(state, place, &mut bytes)?;
        let name = self.part_name(alloc, numbers, place)?;
        bytes.extend_from_slice(&name)?;
        Ok(Label { bytes })
    }

    /// Returns the names of all vertices, in order.
    fn labels(&self, alloc: Global) -> Result<Vec<Label>, AllocError>
        ensures { IfOk result (λ labels. labels.items ≡
            map (vertex_name (earlier_of self.now.requirements.entries.items) self.now.places.items
            self.now.source.parts.items self.now.sets.items) self.now.pairs.keys) }
    {
        let numbers = numbers(alloc, &self.source.parts)?;
        let pairs = self.pairs.as_slice();
        let mut labels = Vec::new(alloc);
        for pair in pairs {
            labels.push(self.label(alloc, &numbers, *pair)?)?;
        }
        Ok(labels)
    }

    /// Returns the text of the game with these names.
    fn text(&self, alloc: Global, names: &Names) -> Result<Vec<u8>, AllocError>
        requires { length names.now ≡ self.now.game.features }
        ensures { IfOk result (λ text. ¬ IsAtLimit self.now.game → SpellsNamed names.now text.items self.now.game
            (record {
              names = labels_from (map (vertex_name (earlier_of self.now.requirements.entries.items)
                  self.now.places.items self.now.source.parts.items self.now.sets.items) self.now.pairs.keys)
                  0 (length self.now.game.vertices);
              start = start_told (nat_eq (length self.now.requirements.entries.items) 1);
            })) }
    {
        let mut plain = Vec::new(alloc);
        self.game.write(alloc, names, &mut plain)?;
        let labels = self.labels(alloc)?;
        let is_started = self.requirements.entries.len() == 1;
        with_labels(alloc, &plain, &labels, is_started)
    }

    /// Writes the text of the game after what is there, over the features of these names. Each vertex has a name: the
    /// number of its state, the requirement of its part, and the part (`0 stops: [true]X`); or `true` or `false` alone.
    /// The text has a start if there is one requirement.
    pub fn write(&self, alloc: Global, names: &Names, out: &mut Vec<u8>) -> Result<(), AllocError>
        requires { length names.now ≡ self.now.game.features }
        // The text that is written spells the game. No game that `read` returns is at the limit.
        ensures ok { OnOk result
            (¬ IsAtLimit self.now.game → WritesGame names.now self.now.game out.old.items out.new.items) }
        // The names are those of the states and parts of the vertices, and the start is the one requirement's vertex.
        ensures names { OnOk result (¬ IsAtLimit self.now.game → WritesNames names.now self.now.game
            (length self.now.requirements.entries.items)
            (map (vertex_name (earlier_of self.now.requirements.entries.items) self.now.places.items
            self.now.source.parts.items self.now.sets.items) self.now.pairs.keys) out.old.items out.new.items) }
        ensures err { OnErr result (out.new.items ≡ out.old.items) }
    {
        let text = self.text(alloc, names)?;
        out.extend_from_slice(&text)?;
        Ok(())
    }
}
