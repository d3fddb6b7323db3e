//! The limits on the files that are read as a whole.
ghost use Rattle.std.specs.Prelude.{◌≡◌, ◌≤◌, ◌↔◌, IfNone, IfSome, IsTrue};
ghost use Rattle.vpg_family.specs.Limits.{IsWithin, IsWithinBoth, IsSurplus, IsOverLimit, is_sign, signs_in};

use crate::fault::{Fault, Input};

/// The most bytes of a file that is read as a whole.
pub(crate) const MOST_BYTES: usize = 268_435_456;

/// The most signs `!`, `&` and `|` of a game's file.
const MOST_SIGNS: usize = 8_388_608;

/// Whether a text has at most as many bytes as a file may have.
pub(crate) fn is_within(text: &[u8]) -> bool
    ensures { IsTrue result ↔ IsWithin text.now }
{
    text.len() <= MOST_BYTES
}

fn is_sign(byte: u8) -> bool
    ensures { result ≡ is_sign byte }
{
    byte == b'!' || byte == b'&' || byte == b'|'
}

/// Returns the place of the first sign above the limit, if there is one.
fn surplus(text: &[u8]) -> Option<usize>
    ensures found { IfSome result (IsSurplus text.now) }
    ensures none { IfNone result (signs_in text.now ≤ 8388608) }
{
    let mut signs = 0;
    for (at, byte) in text.iter().enumerate() {
        if is_sign(*byte) {
            if signs == MOST_SIGNS {
                return Some(at);
            }
            signs += 1;
        }
    }
    None
}

/// Returns why the text of a game is over a limit: too many bytes, or else too many signs.
pub(crate) fn over_limit(text: &[u8]) -> Option<Fault>
    ensures found { IfSome result (IsOverLimit text.now) }
    ensures none { IfNone result (IsWithinBoth text.now) }
{
    if !is_within(text) {
        return Some(Fault::TooLarge { input: Input::Game });
    }
    match surplus(text) {
        Some(at) => Some(Fault::TooManySigns { at }),
        None => None,
    }
}
