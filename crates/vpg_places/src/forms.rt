//! The forms of the lines of a diagram.
use crate::lines::Word;
use vpg_features::is_feature_name;

/// A part of a line, by what stands there.
#[derive(Clone, Copy, PartialEq, Eq)]
pub enum Part {
    Root,
    Parent,
    Child,
    First,
    Second,
    Low,
    High,
    Colon,
    /// A word of a formula.
    Formula,
}

impl Part {
    /// Whether a word may stand there.
    pub fn fits(self, word: &[u8]) -> bool {
        match self {
            Part::Root | Part::Parent | Part::Child | Part::First | Part::Second => is_feature_name(
                word,
            ),
            Part::Low | Part::High => word.iter().all(|b| b.is_ascii_digit()),
            Part::Colon => word == b":".as_slice(),
            Part::Formula => !word.is_empty(),
        }
    }

    /// Whether the name of a feature stands there.
    pub fn is_name(self) -> bool {
        matches!(
            self,
            Part::Root | Part::Parent | Part::Child | Part::First | Part::Second
        )
    }

    /// Returns the words for what is expected there.
    pub fn told(self) -> &'static [u8] {
        match self {
            Part::Root => b"the name of the root",
            Part::Parent => b"the name of the parent",
            Part::Child => b"the name of a child",
            Part::First | Part::Second => b"the name of a feature",
            Part::Low => b"the least number of children",
            Part::High => b"the greatest number of children",
            Part::Colon => b"`:` and the children",
            Part::Formula => b"a formula of features",
        }
    }
}

/// A kind of line: its first word, its written form, and the parts after the first word.
#[derive(Clone, Copy)]
pub struct Form {
    pub word: &'static str,
    pub written: &'static str,
    pub parts: &'static [Part],
    /// The kind of each further word, if there may be any.
    pub rest: Option<Part>,
}

/// The place at which a line departs from its form, among its words, and what is expected there, or else the line's
/// end.
#[derive(Clone, Copy)]
pub struct Departure {
    pub place: usize,
    pub expected: Option<Part>,
}

impl Form {
    /// Returns where words depart from the form; the first word of the line is left out.
    pub fn departure(&self, words: &[Word<'_>]) -> Option<Departure> {
        for (place, part) in self.parts.iter().enumerate() {
            let is_fit = match words.get(place) {
                Some(word) => part.fits(word.bytes),
                None => false,
            };
            if !is_fit {
                return Some(Departure {
                    place,
                    expected: Some(*part),
                });
            }
        }
        departure_behind(words, self.parts.len(), self.rest)
    }
}

/// Returns where the words after this many depart from `rest`: each has to be this part, or there may be none.
fn departure_behind(words: &[Word<'_>], parts: usize, rest: Option<Part>) -> Option<Departure> {
    for (place, word) in words.iter().enumerate() {
        let is_fit = place < parts || rest.is_some_and(|part| part.fits(word.bytes));
        if !is_fit {
            return Some(Departure {
                place,
                expected: rest,
            });
        }
    }
    None
}

/// The lines of diagrams.
pub static LINES: [Form; 9] = [
    Form {
        word: "root",
        written: "root NAME",
        parts: &[Part::Root],
        rest: None,
    },
    Form {
        word: "mandatory",
        written: "mandatory PARENT CHILD",
        parts: &[Part::Parent, Part::Child],
        rest: None,
    },
    Form {
        word: "optional",
        written: "optional PARENT CHILD",
        parts: &[Part::Parent, Part::Child],
        rest: None,
    },
    Form {
        word: "alternative",
        written: "alternative PARENT: CHILD ..",
        parts: &[Part::Parent, Part::Colon, Part::Child],
        rest: Some(Part::Child),
    },
    Form {
        word: "or",
        written: "or PARENT: CHILD ..",
        parts: &[Part::Parent, Part::Colon, Part::Child],
        rest: Some(Part::Child),
    },
    Form {
        word: "group",
        written: "group PARENT LEAST MOST: CHILD ..",
        parts: &[
            Part::Parent,
            Part::Low,
            Part::High,
            Part::Colon,
            Part::Child,
        ],
        rest: Some(Part::Child),
    },
    Form {
        word: "requires",
        written: "requires FEATURE FEATURE",
        parts: &[Part::First, Part::Second],
        rest: None,
    },
    Form {
        word: "excludes",
        written: "excludes FEATURE FEATURE",
        parts: &[Part::First, Part::Second],
        rest: None,
    },
    Form {
        word: "rule",
        written: "rule FORMULA",
        parts: &[Part::Formula],
        rest: Some(Part::Formula),
    },
];

/// Returns the form of this first word.
pub fn form_of(forms: &[Form], word: &[u8]) -> Option<Form> {
    for form in forms {
        if form.word.as_bytes() == word {
            return Some(*form);
        }
    }
    None
}
