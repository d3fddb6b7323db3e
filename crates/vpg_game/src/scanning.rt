//! The names that a text spells.
ghost use Rattle.std.specs.Prelude.{◌≡◌, ◌∷◌, ◌++◌, ℕ, ◌≤◌, List, [], None, IfOk, IfSome, OnOk, option_map, true};
ghost use Rattle.std.specs.Char.{is_ascii_digit, digit_value};
ghost use Rattle.vpg_game.specs.Grammar.{File, IsFile, file_text};
ghost use Rattle.vpg_game.specs.SpelledNames.{no_identifier, told_by};
ghost use Rattle.vpg_game.specs.Scanning.{State, at, between, longer, step, stepped, run};

use crate::names::{Name, VertexNames};
use std::alloc::{AllocError, Global};
use std::marker::Model;

/// One more than the greatest identifier. It stands for any greater number.
const NO_IDENTIFIER: u64 = 4_294_967_296;

/// Where in a text a byte stands.
#[derive(Clone, Copy, Debug, PartialEq, Eq)]
enum Mode {
    Between,
    Header,
    Start,
    Guard,
    Quoted,
}

/// The state of the scan: the start, the names, and the name being read.
#[derive(Drop)]
struct Scanner {
    mode: Mode,
    start: Option<u64>,
    name: Vec<u8>,
    names: Vec<Name>,
}

impl Model for Scanner {
    ghost use Rattle.vpg_game.specs.Scanning.{State};

    ghost Value = { State };

    ghost view = { λ s. record { mode = s.mode; start = s.start; name = s.name.items; names = s.names.items } };
}

fn digit(b: u8) -> u64
    requires { is_ascii_digit b ≡ true }
    ensures value { result ≡ digit_value b }
    ensures less { result ≤ 9 }
{
    (b - b'0') as u64
}

/// Returns the start with one more digit.
fn longer(start: Option<u64>, b: u8) -> Option<u64>
    requires digit { is_ascii_digit b ≡ true }
    requires start { IfSome start (λ n. n ≤ no_identifier) }
    ensures { result ≡ longer start b }
{
    match start {
        Some(n) => Some(NO_IDENTIFIER.min(n * 10 + digit(b))),
        None => None,
    }
}

impl Scanner {
    fn new(alloc: Global) -> Scanner
        ensures { result ≡ at Mode.Between None [] [] }
    {
        Scanner {
            mode: Mode::Between,
            start: None,
            name: Vec::new(alloc),
            names: Vec::new(alloc),
        }
    }

    /// Ends an entry.
    fn end(&mut self, alloc: Global) -> Result<(), AllocError>
        ensures { OnOk result (self.new ≡ at Mode.Between self.old.start [] (self.old.names ++ self.old.name ∷ [])) }
    {
        let bytes = Vec::from_slice(alloc, &self.name)?;
        self.names.push(Name { bytes })?;
        self.name.clear();
        self.mode = Mode::Between;
        Ok(())
    }

    /// Takes a byte outside of headings, guards and names.
    fn between(&mut self, alloc: Global, b: u8) -> Result<(), AllocError>
        requires { self.old.mode ≡ Mode.Between }
        ensures { OnOk result (self.new ≡ between self.old.start self.old.name self.old.names b) }
    {
        if b == b';' {
            return self.end(alloc);
        }
        if b == b'"' {
            self.mode = Mode::Quoted;
        } else if b == b'[' {
            self.mode = Mode::Guard;
        } else if b == b'p' {
            self.mode = Mode::Header;
        } else if b == b's' {
            self.mode = Mode::Start;
            self.start = Some(0);
        }
        Ok(())
    }

    /// Takes a byte of a start.
    fn start(&mut self, b: u8)
        requires mode { self.old.mode ≡ Mode.Start }
        requires start { IfSome self.old.start (λ n. n ≤ no_identifier) }
        ensures { self.new ≡ stepped Mode.Start self.old.start self.old.name self.old.names b }
    {
        if b == b';' {
            self.mode = Mode::Between;
        } else if b.is_ascii_digit() {
            self.start = longer(self.start, b);
        }
    }

    /// Takes a byte of a name.
    fn quoted(&mut self, b: u8) -> Result<(), AllocError>
        requires { self.old.mode ≡ Mode.Quoted }
        ensures { OnOk result (self.new ≡ stepped Mode.Quoted self.old.start self.old.name self.old.names b) }
    {
        if b == b'"' {
            self.mode = Mode::Between;
            return Ok(());
        }
        self.name.push(b)?;
        Ok(())
    }

    /// Takes the next byte.
    fn step(&mut self, alloc: Global, b: u8) -> Result<(), AllocError>
        requires { IfSome self.old.start (λ n. n ≤ no_identifier) }
        ensures { OnOk result (self.new ≡ step self.old b) }
    {
        match self.mode {
            Mode::Between => return self.between(alloc, b),
            Mode::Quoted => return self.quoted(b),
            Mode::Start => self.start(b),
            Mode::Header => {
                if b == b';' {
                    self.mode = Mode::Between;
                }
            }
            Mode::Guard => {
                if b == b']' {
                    self.mode = Mode::Between;
                }
            }
        }
        Ok(())
    }
}

/// Goes through a text.
fn scan(alloc: Global, text: &[u8]) -> Result<Scanner, AllocError>
    ensures { IfOk result (λ s. s ≡ run (at Mode.Between None [] []) text.now) }
{
    let mut scanner = Scanner::new(alloc);
    for b in text {
        scanner.step(alloc, *b)?;
    }
    Ok(scanner)
}

impl VertexNames {
    /// Returns the names and the start in the text of a game. If the text spells no game, the result may be anything.
    pub fn read(alloc: Global, text: &[u8]) -> Result<VertexNames, AllocError>
        // However the text is read as a game, these are its names and its start.
        ensures told { (features : List (List ℕ)) (file : File) → IsFile features file → text.now ≡ file_text file →
            IfOk result (λ names. names ≡ told_by file) }
    {
        let Scanner { names, start, .. } = scan(alloc, text)?;
        Ok(VertexNames { names, start })
    }
}
