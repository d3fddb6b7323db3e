//! Labels in the text of a game.
ghost use Rattle.std.specs.Prelude.{◌≡◌, ◌+◌, ◌<◌, ◌≤◌, ◌++◌, ◌∷◌, [], filter, List, ℕ, IfOk, OnOk, length, slice_index_or};
ghost use Rattle.vpg_game.specs.Game.{NamedGame, SpellsGame};
ghost use Rattle.vpg_game.specs.Grammar.{File, IsFile, file_text};
ghost use Rattle.vpg_labels.specs.Labels.{is_plain, labels_from, labelled_file, start_told, SpellsNamed};
ghost use Rattle.vpg_labels.specs.Labelling.{mode_behind, vertex_behind, label_text, before_text, kept_text, labelled_text};

use std::alloc::{AllocError, Global};
use std::marker::Model;

/// The label of a vertex: any bytes.
#[derive(Drop)]
pub struct Label {
    pub bytes: Vec<u8>,
}

impl Model for Label {
    ghost use Rattle.std.specs.Prelude.{ℕ, List};

    ghost Value = { List ℕ };

    ghost view = { λ l. l.bytes.items };
}

/// Where in a text a byte stands.
#[derive(Clone, Copy, Debug, PartialEq, Eq)]
enum Mode {
    /// In front of the first entry.
    Front,
    Header,
    /// In a `start`, which is left out.
    Start,
    /// In an entry, or between entries.
    Between,
    Guard,
    /// In a name, which is left out.
    Quoted,
}

impl Mode {
    /// Returns where the text stands after this byte.
    fn behind(self, b: u8) -> Mode
        ensures { result ≡ mode_behind self b }
    {
        match self {
            Mode::Front if b.is_ascii_digit() => Mode::Between,
            Mode::Front if b == b'p' => Mode::Header,
            Mode::Front if b == b's' => Mode::Start,
            Mode::Between if b == b'"' => Mode::Quoted,
            Mode::Between if b == b'[' => Mode::Guard,
            Mode::Header | Mode::Start if b == b';' => Mode::Front,
            Mode::Guard if b == b']' => Mode::Between,
            Mode::Quoted if b == b'"' => Mode::Between,
            _ => self,
        }
    }
}

/// Writes the bytes that a name may have.
fn put_plain(bytes: &[u8], out: &mut Vec<u8>) -> Result<(), AllocError>
    ensures { OnOk result (out.new.items ≡ out.old.items ++ filter is_plain bytes.now) }
{
    for b in bytes {
        if *b != b'"' && *b != b'\n' && *b != b'\r' {
            out.push(*b)?;
        }
    }
    Ok(())
}

/// Returns the bytes of a vertex's label.
fn label_at(labels: &[Label], v: usize) -> &[u8]
    ensures { result.now ≡ slice_index_or labels.now v [] }
{
    match labels.get(v) {
        Some(label) => label.bytes.as_slice(),
        None => &[],
    }
}

/// Writes a vertex's label in quotes.
fn put_label(labels: &[Label], v: usize, out: &mut Vec<u8>) -> Result<(), AllocError>
    ensures { OnOk result (out.new.items ≡ out.old.items ++ label_text labels.now v) }
{
    out.extend_from_slice(b" \"")?;
    put_plain(label_at(labels, v), out)?;
    out.push(b'"')?;
    Ok(())
}

/// The place of a byte in a text: what it is in, and the vertex of the present entry.
#[derive(Clone, Copy)]
struct Place {
    mode: Mode,
    v: usize,
}

impl Place {
    /// Returns where the text stands after this byte.
    fn behind(self, b: u8) -> Place
        requires { self.v < usize.MAX }
        ensures mode { result.mode ≡ mode_behind self.mode b }
        ensures vertex { result.v ≡ vertex_behind self.mode self.v b }
        ensures few { result.v ≤ self.v + 1 }
    {
        let mode = self.mode.behind(b);
        if matches!(self.mode, Mode::Between) && b == b';' {
            return Place {
                mode,
                v: self.v + 1,
            };
        }
        Place { mode, v: self.v }
    }

    /// Writes the text that comes in front of a byte: the start, or the label of an entry.
    fn put_before(
        self,
        labels: &[Label],
        is_started: bool,
        b: u8,
        out: &mut Vec<u8>,
    ) -> Result<(), AllocError>
        ensures { OnOk result
            (out.new.items ≡ out.old.items ++ before_text labels.now is_started self.mode self.v b) }
    {
        match self.mode {
            Mode::Front if is_started && b.is_ascii_digit() => {
                out.extend_from_slice(b"start 0;\n")
            }
            Mode::Between if b == b';' => put_label(labels, self.v, out),
            _ => Ok(()),
        }
    }

    /// Writes the byte, unless it is of a start or a name.
    fn put_kept(self, b: u8, out: &mut Vec<u8>) -> Result<(), AllocError>
        ensures { OnOk result (out.new.items ≡ out.old.items ++ kept_text self.mode b) }
    {
        match self.mode {
            Mode::Front if b == b's' => {}
            Mode::Between if b == b'"' => {}
            Mode::Start | Mode::Quoted => {}
            _ => out.push(b)?,
        }
        Ok(())
    }
}

/// Writes the next byte of a text, after the text that comes in front of it.
fn put_byte(
    labels: &[Label],
    is_started: bool,
    place: Place,
    b: u8,
    out: &mut Vec<u8>,
) -> Result<Place, AllocError>
    requires { place.v < usize.MAX }
    ensures written { IfOk result (λ next. (rest : List ℕ) →
        out.new.items ++ labelled_text labels.now is_started next.mode next.v rest ≡
        out.old.items ++ labelled_text labels.now is_started place.mode place.v (b ∷ rest)) }
    ensures few { IfOk result (λ next. next.v ≤ place.v + 1) }
{
    place.put_before(labels, is_started, b, out)?;
    place.put_kept(b, out)?;
    Ok(place.behind(b))
}

/// Returns the text of a game with the label of each vertex as the name of its entry, less its quotes and ends of
/// lines. With `is_started` the text says that the game starts at the vertex 0, otherwise it names no start. Names and
/// a start in `text` are left out. If `text` spells no game, the result may be anything.
pub fn with_labels(
    alloc: Global,
    text: &[u8],
    labels: &[Label],
    is_started: bool,
) -> Result<Vec<u8>, AllocError>
    // However the text is read as a game, all else stays.
    ensures labelled { (features : List (List ℕ)) (file : File) → IsFile features file → text.now ≡ file_text file →
        IfOk result (λ out. out.items ≡ file_text (labelled_file labels.now is_started file)) }
    // So it spells the same game, with these names and this start.
    ensures named { (features : List (List ℕ)) (game : NamedGame) → SpellsGame features text.now game →
        IfOk result (λ out. SpellsNamed features out.items game
        (record { names = labels_from labels.now 0 (length game.vertices); start = start_told is_started })) }
{
    let mut out = Vec::new(alloc);
    let mut place = Place {
        mode: Mode::Front,
        v: 0,
    };
    for b in text {
        place = put_byte(labels, is_started, place, *b, &mut out)?;
    }
    Ok(out)
}
