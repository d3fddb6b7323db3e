//! Words of action and regular formulas, and their places.
ghost use Rattle.std.specs.Prelude.{◌≡◌, ◌++◌, [], IfOk, OnOk};
ghost use Rattle.vpg_formula.specs.ActionWords.{action_words, is_of_actions, with_word, placed_words};
ghost use Rattle.vpg_formula.specs.NamingCode.{region_of};

use crate::mentions::Region;
use crate::requirement::split_first;
use crate::words::split_words;
use std::alloc::{AllocError, Global};

/// A word of a text, and where it begins.
#[derive(Clone, Copy)]
pub struct PlacedWord<'t> {
    /// The offset of its first byte in the text.
    pub at: usize,
    pub bytes: &'t [u8],
}

/// Whether a word of this region belongs to an action or regular formula.
fn is_of_actions(region: Region) -> bool
    ensures { result ≡ is_of_actions (region_of region) }
{
    match region {
        Region::Formula => false,
        Region::Binder => false,
        Region::Path(_) => true,
        Region::Action => true,
        Region::Inside(_) => true,
    }
}

/// Adds a word and its place, if it is one of an action or regular formula.
fn put_word<'t>(
    region: Region,
    at: usize,
    bytes: &'t [u8],
    out: &mut Vec<PlacedWord<'t>>,
) -> Result<(), AllocError>
    ensures { OnOk result (placed_words out.new.items ≡
        placed_words out.old.items ++ with_word (is_of_actions (region_of region)) at bytes.now []) }
{
    if is_of_actions(region) {
        out.push(PlacedWord { at, bytes })?;
    }
    Ok(())
}

/// Returns the words of a text of requirements that belong to action and regular formulas, signs and `true` among
/// them, in order, each with its place. The text need not spell requirements.
pub fn action_words<'t>(alloc: Global, text: &'t [u8]) -> Result<Vec<PlacedWord<'t>>, AllocError>
    ensures { IfOk result (λ found. placed_words found.items ≡ action_words text.now) }
{
    let words = split_words(alloc, text)?;
    let mut found = Vec::new(alloc);
    let mut region = Region::Formula;
    let mut index = 0;
    let mut next = split_first(&words.words);
    while let Some((word, behind)) = next {
        put_word(region, words.places[index], word, &mut found)?;
        region = region.behind(word);
        next = split_first(behind);
        index += 1;
    }
    Ok(found)
}
