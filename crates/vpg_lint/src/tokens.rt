//! The words of a text of requirements, as far as messages need them.
use std::alloc::{AllocError, Global};
use vpg_places::Word;

/// The kind of word that a place of a text is in the middle of.
#[derive(Clone, Copy)]
enum Within {
    Nothing,
    /// A word of letters, digits and `_`, or of other alphabets.
    Name,
    Quotes,
    Comment,
}

fn is_blank(b: u8) -> bool {
    b == b' ' || b == b'\t' || b == b'\r' || b == b'\n'
}

fn is_name_byte(b: u8) -> bool {
    b.is_ascii_alphanumeric() || b == b'_' || b >= 128
}

/// The words that are known so far.
#[derive(Drop)]
struct Tokens<'t> {
    text: &'t [u8],
    within: Within,
    /// Where the present word begins.
    begin: usize,
    words: Vec<Word<'t>>,
}

impl<'t> Tokens<'t> {
    /// Adds the present word, which ends at an offset.
    fn end(&mut self, end: usize) -> Result<(), AllocError> {
        self.within = Within::Nothing;
        match self.text.get(self.begin..end) {
            None | Some([]) => Ok(()),
            Some(bytes) => {
                self.words.push(Word {
                    at: self.begin,
                    bytes,
                })?;
                Ok(())
            }
        }
    }

    /// Takes a byte that begins a word, or stands between words.
    fn begin(&mut self, at: usize, b: u8) -> Result<(), AllocError> {
        self.begin = at;
        match b {
            _ if is_blank(b) => Ok(()),
            b'%' => {
                self.within = Within::Comment;
                Ok(())
            }
            b'"' => {
                self.within = Within::Quotes;
                Ok(())
            }
            _ if is_name_byte(b) => {
                self.within = Within::Name;
                Ok(())
            }
            _ => self.end(at.saturating_add(1)),
        }
    }

    /// Takes the byte at an offset.
    fn step(&mut self, at: usize, b: u8) -> Result<(), AllocError> {
        match self.within {
            Within::Nothing => self.begin(at, b),
            Within::Name if is_name_byte(b) => Ok(()),
            Within::Name => {
                self.end(at)?;
                self.begin(at, b)
            }
            Within::Quotes if b == b'"' || b == b'\n' => self.end(at.saturating_add(1)),
            Within::Quotes => Ok(()),
            Within::Comment => {
                if b == b'\n' {
                    self.within = Within::Nothing;
                }
                Ok(())
            }
        }
    }
}

/// Returns the words of a text: names, quoted texts, and each other byte by itself. Comments are left out.
pub(crate) fn tokens_of<'t>(alloc: Global, text: &'t [u8]) -> Result<Vec<Word<'t>>, AllocError> {
    let mut tokens = Tokens {
        text,
        within: Within::Nothing,
        begin: 0,
        words: Vec::new(alloc),
    };
    for (at, b) in text.iter().enumerate() {
        tokens.step(at, *b)?;
    }
    if matches!(tokens.within, Within::Name | Within::Quotes) {
        tokens.end(text.len())?;
    }
    let Tokens {
        text: _,
        within: _,
        begin: _,
        words,
    } = tokens;
    Ok(words)
}

/// Returns the word of a list at a place, empty if there is none.
pub(crate) fn word<'t>(words: &[Word<'t>], place: usize) -> &'t [u8] {
    match words.get(place) {
        Some(word) => word.bytes,
        None => b"",
    }
}

/// Whether a word is one of these.
pub(crate) fn is_one_of(word: &[u8], others: &[&str]) -> bool {
    others.iter().any(|it| it.as_bytes() == word)
}
