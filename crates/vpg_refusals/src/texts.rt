//! Texts of a page that are written with little memory.

ghost use Rattle.std.specs.Prelude.{◌≡◌, ◌≤◌, ◌<◌, ◌↔◌, length, map, IsTrue, OnOk, All};
ghost use Rattle.vpg_diagram.specs.FeatureDiagram.{feature_count};
ghost use Rattle.vpg_game.specs.Game.{IsAtLimit, graph_of};
ghost use Rattle.vpg_game.specs.Levels.{top_of};
ghost use Rattle.vpg_measure.specs.TwoGames.{top_for};
ghost use Rattle.vpg_partial.specs.Known.{literal_of};
ghost use Rattle.vpg_partial.specs.KnownLaws.{HasConflictOf};
ghost use Rattle.vpg_partial.specs.TableLaws.{AreChoicesOf};
ghost use Rattle.vpg_texts.specs.Scene.{EntryIsWithin};
ghost use Rattle.vpg_trail.specs.Shown.{entry_of};

use crate::decided::DECISIONS;
use crate::writing::{is_before, text_before};
use std::alloc::{AllocError, Global};
use std::sync::Arc;
use vpg_diagram::{Diagram, Literal};
use vpg_game::{GuardedGame, VertexNames};
use vpg_measure::{OrderFault, PageGames, Shape, Table};
use vpg_partial::{Partial, PartialFault};
use vpg_scarce::{End, Finding, Heap, MOST_TRIES, Report, more};
use vpg_sides::Which;
use vpg_small_family::fit;
use vpg_texts::{PlanFault, count, plan, products, show, trail};
use vpg_trail::{Assumed, Decisions, Entries, Entry, Page};

/// A text of a page.
#[derive(Clone, Copy)]
enum Text {
    Show,
    Trail,
    Products,
    Plan,
    Count,
}

const TEXTS: &[(&str, Text)] = &[
    ("show", Text::Show),
    ("trail", Text::Trail),
    ("products", Text::Products),
    ("plan", Text::Plan),
    ("count", Text::Count),
];

impl Text {
    /// Returns the text of the page below.
    fn written(self) -> &'static [u8] {
        match self {
            Text::Show => {
                b"before: decisions +r +f +g\nfull yes\nsettled yes\n0 1 2 possible sure\n1 0 2 possible sure\n"
            }
            Text::Trail => b"before: select r 1\nhopeful 0 0 1 +f\nentries 2\n",
            Text::Products => b"before: in r f g\nout\nopen\n",
            Text::Plan => b"before: plan 0 1\nplans 1\n",
            Text::Count => {
                b"before: hopeless 0\npossible 2\nsure 2\nunsure 0\nsettled yes\nfull yes\n"
            }
        }
    }
}

/// Returns the end of a text that has no other refusal.
fn end_of(put: Result<(), AllocError>) -> End {
    match put {
        Ok(()) => End::Done,
        Err(_) => End::Memory,
    }
}

/// Appends a text of a page, for which it makes the games that the page's decisions leave.
fn put(
    alloc: Global,
    text: Text,
    page: &Page,
    game: &GuardedGame,
    diagram: &Diagram,
    out: &mut Vec<u8>,
) -> End
    requires not_at_limit { ¬ IsAtLimit game.now }
    requires features { game.now.features ≡ feature_count diagram.now.lines }
    requires named { AreChoicesOf diagram.now.lines (map literal_of page.now.decisions) }
    requires consistent { ¬ (HasConflictOf diagram.now.lines (map literal_of page.now.decisions)) }
    requires hopeful { length page.now.hopeful ≡ length game.now.vertices }
    requires dual { length page.now.dual ≡ length game.now.vertices }
    requires hopeful_within { All (λ n. n ≤ top_for Which.Hopeful (graph_of game.now)) page.now.hopeful }
    requires dual_within { All (λ n. n ≤ top_for Which.Dual (graph_of game.now)) page.now.dual }
    requires entries { All (EntryIsWithin (feature_count diagram.now.lines)
        (length game.now.vertices)) page.now.entries }
{
    let games = match PageGames::under(alloc, game, diagram, page.decisions.as_slice()) {
        Ok(games) => games,
        Err(OrderFault::Memory) => return End::Memory,
        Err(_) => return End::Otherwise,
    };
    let labels = VertexNames::none(alloc);
    match text {
        Text::Show => end_of(show(alloc, &games, page, game, diagram, &labels, out)),
        Text::Trail => end_of(trail(alloc, page, game, diagram, &labels, out)),
        Text::Products => end_of(products(alloc, &games, diagram, out)),
        Text::Count => end_of(count(alloc, &games, page, game, diagram, b"", out)),
        Text::Plan => match plan(alloc, &games, page, game, diagram, &labels, out) {
            Ok(()) => End::Done,
            Err(PlanFault::Memory) => End::Memory,
            Err(_) => End::Otherwise,
        },
    }
}

/// Appends a text with more and more memory, until it is there.
fn put_growing(
    heap: &mut Heap,
    text: Text,
    page: &Page,
    game: &GuardedGame,
    diagram: &Diagram,
    out: &mut Vec<u8>,
) -> Finding
    requires not_at_limit { ¬ IsAtLimit game.now }
    requires features { game.now.features ≡ feature_count diagram.now.lines }
    requires named { AreChoicesOf diagram.now.lines (map literal_of page.now.decisions) }
    requires consistent { ¬ (HasConflictOf diagram.now.lines (map literal_of page.now.decisions)) }
    requires hopeful { length page.now.hopeful ≡ length game.now.vertices }
    requires dual { length page.now.dual ≡ length game.now.vertices }
    requires hopeful_within { All (λ n. n ≤ top_for Which.Hopeful (graph_of game.now)) page.now.hopeful }
    requires dual_within { All (λ n. n ≤ top_for Which.Dual (graph_of game.now)) page.now.dual }
    requires entries { All (EntryIsWithin (feature_count diagram.now.lines)
        (length game.now.vertices)) page.now.entries }
{
    let mut told = Finding::TakesNone;
    let mut bytes = 0;
    for _ in 0..MOST_TRIES {
        heap.leave(bytes);
        let end = put(heap.alloc(), text, page, game, diagram, out);
        heap.relax();
        match end {
            End::Done if out.as_slice() == text.written() => return told,
            End::Memory if is_before(out.as_slice()) => told = Finding::Unchanged,
            End::Memory => return Finding::Changed,
            _ => return Finding::Otherwise,
        }
        bytes = more(bytes);
    }
    Finding::Never
}

/// Appends each text of a page.
fn put_each(
    heap: &mut Heap,
    report: &mut Report,
    page: &Page,
    game: &GuardedGame,
    diagram: &Diagram,
)
    requires not_at_limit { ¬ IsAtLimit game.now }
    requires features { game.now.features ≡ feature_count diagram.now.lines }
    requires named { AreChoicesOf diagram.now.lines (map literal_of page.now.decisions) }
    requires consistent { ¬ (HasConflictOf diagram.now.lines (map literal_of page.now.decisions)) }
    requires hopeful { length page.now.hopeful ≡ length game.now.vertices }
    requires dual { length page.now.dual ≡ length game.now.vertices }
    requires hopeful_within { All (λ n. n ≤ top_for Which.Hopeful (graph_of game.now)) page.now.hopeful }
    requires dual_within { All (λ n. n ≤ top_for Which.Dual (graph_of game.now)) page.now.dual }
    requires entries { All (EntryIsWithin (feature_count diagram.now.lines)
        (length game.now.vertices)) page.now.entries }
{
    for (name, text) in TEXTS {
        let mut out = text_before(heap.alloc());
        let told = put_growing(heap, *text, page, game, diagram, &mut out);
        report.note(heap, name, told);
    }
}

/// Whether a table has a number up to the top for each vertex.
fn is_within(game: &GuardedGame, shape: &Shape, table: &Table) -> bool
    ensures length { IsTrue result → length table.now ≡ length game.now.vertices }
    ensures within { IsTrue result → All (λ n. n ≤ top_of shape.now) table.now }
{
    table.values().len() == game.vertices() && table.values().iter().all(|n| *n <= shape.top())
}

/// Whether an entry names features and vertices that are there.
fn names(features: usize, vertices: usize, entry: &Entry) -> bool
    ensures { IsTrue result → EntryIsWithin features vertices (entry_of entry.now) }
{
    match entry {
        Entry::Decide(decision) => (decision.feature as usize) < features,
        Entry::Lift { vertex, under, .. } => {
            (*vertex as usize) < vertices
                && under
                    .literals()
                    .iter()
                    .all(|l| (l.feature as usize) < features)
        }
    }
}

/// Whether each entry names features and vertices that are there.
fn are_named(features: usize, vertices: usize, entries: &[Entry]) -> bool
    ensures { IsTrue result → All (λ e. EntryIsWithin features vertices (entry_of e)) entries.now }
{
    entries.iter().all(|entry| names(features, vertices, entry))
}

/// Whether each entry of a page names features and vertices that are there.
fn name_all(page: &Page, game: &GuardedGame, diagram: &Diagram) -> bool
    ensures { IsTrue result →
        All (EntryIsWithin (feature_count diagram.now.lines) (length game.now.vertices)) page.now.entries }
{
    are_named(diagram.features(), game.vertices(), page.entries.as_slice())
}

/// Succeeds if a page's decisions have no conflict.
fn are_consistent(alloc: Global, diagram: &Diagram, page: &Page) -> Result<(), PartialFault>
    requires { AreChoicesOf diagram.now.lines (map literal_of page.now.decisions) }
    ensures { OnOk result (¬ (HasConflictOf diagram.now.lines (map literal_of page.now.decisions))) }
{
    Partial::close(alloc, diagram, page.decisions.as_slice())?;
    Ok(())
}

/// Appends each text of a page that is one of the game.
fn put_page(
    heap: &mut Heap,
    report: &mut Report,
    page: &Page,
    game: &GuardedGame,
    diagram: &Diagram,
) -> Option<()> {
    if game.is_at_limit() || !fit(game, diagram, page.decisions.as_slice()) {
        return None;
    }
    if !name_all(page, game, diagram) {
        return None;
    }
    are_consistent(heap.alloc(), diagram, page).ok()?;
    let shape = Shape::of(heap.alloc(), game).ok()?;
    let dual = Shape::of_dual(heap.alloc(), game).ok()?;
    if !is_within(game, &shape, &page.hopeful) || !is_within(game, &dual, &page.dual) {
        return None;
    }
    put_each(heap, report, page, game, diagram);
    Some(())
}

/// Returns a decision, and a lift under another.
fn entries_of(alloc: Global) -> Result<Entries, AllocError> {
    let literal = Literal {
        feature: 1,
        value: true,
    };
    let under = Arc::new(alloc, Assumed::new(Vec::from_slice(alloc, &[literal])?))?;
    let lift = Entry::Lift {
        table: Which::Hopeful,
        vertex: 0,
        old: 0,
        new: 1,
        under,
    };
    let entries = Vec::from_array(alloc, [Entry::Decide(DECISIONS[0]), lift])?;
    Ok(Entries::new(entries))
}

/// Returns a page with all three features in, and its settled tables.
fn page_of(alloc: Global) -> Result<Page, AllocError> {
    Ok(Page {
        decisions: Decisions::new(Vec::from_slice(alloc, &DECISIONS)?),
        hopeful: Table::of(Vec::from_slice(alloc, &[1, 0])?),
        dual: Table::of(Vec::from_slice(alloc, &[2, 2])?),
        entries: entries_of(alloc)?,
    })
}

/// Writes each text of a page of a game with little memory.
pub(crate) fn refuse(
    heap: &mut Heap,
    report: &mut Report,
    diagram: &Diagram,
    game: &GuardedGame,
) -> Option<()> {
    let page = page_of(heap.alloc()).ok()?;
    put_page(heap, report, &page, game, diagram)
}
