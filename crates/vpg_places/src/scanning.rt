//! Going through the text of a game, byte by byte.
use std::alloc::{AllocError, Global};

/// Where in a text a byte stands.
#[derive(Clone, Copy, PartialEq, Eq)]
enum Mode {
    Between,
    /// After the first letter of `parity` or `start`.
    Heading,
    Guard,
    Quoted,
}

/// The last item of an entry after its owner.
#[derive(Clone, Copy, PartialEq, Eq)]
pub enum Last {
    Number,
    Comma,
    Guard,
    Name,
}

/// A number of an entry.
#[derive(Clone, Copy)]
pub struct Number {
    /// The offset of its first digit.
    pub at: usize,
    pub value: u64,
    /// The place among the entry's numbers: 1 the identifier, 2 the priority, 3 the owner, 4 and more a successor.
    pub place: usize,
}

/// The state of the scan at a place of a text.
#[derive(Clone, Copy)]
pub struct Scan {
    mode: Mode,
    last: Last,
    /// The present entry has this many numbers.
    numbers: usize,
    /// Whether an entry or a heading stands before.
    has_begun: bool,
    /// Whether the last byte was a digit.
    in_number: bool,
    /// The offset of the last `[` or `"`, or of a heading's first letter.
    opened: usize,
}

impl Scan {
    fn new() -> Scan {
        Scan {
            mode: Mode::Between,
            last: Last::Number,
            numbers: 0,
            has_begun: false,
            in_number: false,
            opened: 0,
        }
    }

    /// Takes a `;` outside of guards and names.
    fn end(&mut self) {
        self.mode = Mode::Between;
        self.last = Last::Number;
        self.numbers = 0;
        self.has_begun = true;
    }

    fn open(&mut self, mode: Mode, at: usize) {
        self.mode = mode;
        self.opened = at;
    }

    /// Takes a byte outside of headings, guards and names, and returns whether a number begins with it.
    fn between(&mut self, at: usize, b: u8) -> bool {
        let is_first = b.is_ascii_digit() && !self.in_number;
        match b {
            b';' => self.end(),
            b',' => self.last = Last::Comma,
            b'[' => self.open(Mode::Guard, at),
            b'"' => self.open(Mode::Quoted, at),
            b'p' | b's' => self.open(Mode::Heading, at),
            _ if is_first => {
                self.numbers = self.numbers.saturating_add(1);
                self.last = Last::Number;
            }
            _ => {}
        }
        is_first
    }

    /// Takes the next byte, at an offset, and returns whether a number of an entry begins with it.
    fn step(&mut self, at: usize, b: u8) -> bool {
        let mut is_first = false;
        match self.mode {
            Mode::Between => is_first = self.between(at, b),
            Mode::Heading => {
                if b == b';' {
                    self.end();
                }
            }
            Mode::Guard => {
                if b == b']' {
                    self.mode = Mode::Between;
                    self.last = Last::Guard;
                }
            }
            Mode::Quoted => {
                if b == b'"' {
                    self.mode = Mode::Between;
                    self.last = Last::Name;
                }
            }
        }
        self.in_number = b.is_ascii_digit();
        is_first
    }

    /// Returns the state of the scan after the bytes of a text up to an offset.
    pub fn of(text: &[u8], at: usize) -> Scan {
        let mut scan = Scan::new();
        for (i, b) in text.iter().enumerate() {
            if i >= at {
                return scan;
            }
            scan.step(i, *b);
        }
        scan
    }

    /// Returns the place of the open `[` or `"`, if there is one.
    pub fn open_at(&self) -> Option<usize> {
        match self.mode {
            Mode::Guard | Mode::Quoted => Some(self.opened),
            Mode::Between | Mode::Heading => None,
        }
    }

    /// Returns how many numbers the present entry has, and its last item; `None` in headings, guards and names.
    pub fn in_entry(&self) -> Option<(usize, Last)> {
        match self.mode {
            Mode::Between => Some((self.numbers, self.last)),
            Mode::Heading | Mode::Guard | Mode::Quoted => None,
        }
    }

    /// Returns the words for what may stand next.
    pub fn expected(&self) -> &'static [u8] {
        match (self.mode, self.numbers, self.last) {
            (Mode::Guard, _, _) => b"`]` behind the guard",
            (Mode::Quoted, _, _) => b"`\"` behind the name",
            (Mode::Heading, _, _) => b"`parity` or `start`, a number, and `;`",
            (Mode::Between, _, Last::Name) => b"`;` at the end of the entry",
            (Mode::Between, _, Last::Comma) => {
                b"the identifier of a successor, up to 4,294,967,295"
            }
            (Mode::Between, _, Last::Guard) => b"`,` and a successor, a name in quotes, or `;`",
            (Mode::Between, 0, _) if self.has_begun => {
                b"the identifier of a vertex, up to 4,294,967,295"
            }
            (Mode::Between, 0, _) => b"`parity`, `start`, or the identifier of a vertex",
            (Mode::Between, 1, _) => b"the priority of the vertex",
            (Mode::Between, 2, _) => b"the owner of the vertex, 0 for Even or 1 for Odd",
            (Mode::Between, 3, _) => b"a successor, a name in quotes, or `;`",
            _ => b"`[` and a guard, `,` and a successor, a name in quotes, or `;`",
        }
    }
}

fn digit(b: u8) -> u64 {
    b.saturating_sub(b'0') as u64
}

/// Returns the numbers of all entries in a text, or their identifiers alone.
pub fn numbers_of(
    alloc: Global,
    text: &[u8],
    identifiers: bool,
) -> Result<Vec<Number>, AllocError> {
    let mut numbers: Vec<Number> = Vec::new(alloc);
    let mut scan = Scan::new();
    let mut is_kept = false;
    for (at, b) in text.iter().enumerate() {
        let is_first = scan.step(at, *b);
        let (place, digit) = (scan.numbers, digit(*b));
        if is_first {
            is_kept = place == 1 || !identifiers;
        }
        if is_first && is_kept {
            let value = digit;
            numbers.push(Number { at, value, place })?;
        } else if is_kept && scan.in_number && scan.mode == Mode::Between {
            if let Some(number) = numbers.last_mut() {
                number.value = number.value.saturating_mul(10).saturating_add(digit);
            }
        }
    }
    Ok(numbers)
}

/// Returns the offset of the number of the `start` heading, if there is one.
pub fn start_at(text: &[u8]) -> usize {
    let mut scan = Scan::new();
    for (at, b) in text.iter().enumerate() {
        scan.step(at, *b);
        if scan.mode == Mode::Heading && text.get(scan.opened) == Some(&b's') && scan.in_number {
            return at;
        }
    }
    0
}
