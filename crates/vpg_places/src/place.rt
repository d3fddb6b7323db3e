//! Lines and columns.
ghost use Rattle.std.specs.Prelude.{◌≡◌, ◌≤◌, length, take};
ghost use Rattle.vpg_places.specs.Places.{is_line_feed, begins_character, line_of, column_of, IsWithin};

/// The place of a byte in a text. Both numbers count from 1, columns by characters of UTF-8.
#[derive(Clone, Copy, Debug, PartialEq, Eq)]
pub struct Place {
    pub line: usize,
    pub column: usize,
}

pub(crate) fn is_line_feed(b: u8) -> bool
    ensures { result ≡ is_line_feed b }
{
    b == b'\n'
}

/// Whether a character of UTF-8 begins with a byte.
pub fn begins_character(b: u8) -> bool
    ensures { result ≡ begins_character b }
{
    !(128 <= b && b < 192)
}

/// Returns the place of the byte at an offset, or of the end of the text if the offset is its length.
pub fn place_of(text: &[u8], at: usize) -> Place
    requires { at ≤ length text.now }
    ensures line { result.line ≡ line_of (take at text.now) }
    ensures column { result.column ≡ column_of (take at text.now) }
    ensures within { IsWithin text.now result.line result.column }
{
    let before = &text[..at];
    let mut line = 1;
    let mut column = 1;
    for b in before {
        if is_line_feed(*b) {
            line += 1;
            column = 1;
        } else if begins_character(*b) {
            column += 1;
        }
    }
    Place { line, column }
}
