//! The desk: sessions decide features of a product family on it, and lifters bring harvests.
ghost use Rattle.std.specs.Arc.{arc_value};
ghost use Rattle.std.specs.Prelude.{◌≡◌, ◌<◌, ◌↔◌, ℕ, [], length, IsTrue, IfOk, IfErr, OnOk};
ghost use Rattle.vpg_diagram.specs.FeatureDiagram.{feature_count};
ghost use Rattle.vpg_partial.specs.KnownLaws.{HasConflictOf};
ghost use Rattle.vpg_game.specs.Game.{graph_of, IsAtLimit};
ghost use Rattle.vpg_measure.specs.Games.{ArePageGames};
ghost use Rattle.vpg_measure.specs.Orders.{IsOrder, IsSettledOrder};
ghost use Rattle.vpg_trail.specs.Page.{Which as Side, Hopeful, Dual, choices_of, decisions_of, table_of};
ghost use Rattle.vpg_desk.specs.Book.{opened, Order as AsksOrder, Ordered, Settled, IsSettled, IsSettledPage, Verdict as AsksVerdict, VerdictIs, Page as AsksPage, PageIs};
ghost use Rattle.vpg_desk.specs.Desk.{family_of, IsLeastUnder, IsProgressUnder};
ghost use Rattle.vpg_desk.specs.Headline.{AlwaysWins, NeverWins, Tells};
ghost use Rattle.vpg_desk.specs.Lawful.{PageIsBelow};
ghost use Rattle.vpg_desk.specs.Setting.{IsSetting};
ghost use Rattle.vpg_desk.specs.State.{IsOpened, IsReached, Replies, setting_of};

use crate::cuts::Cut;
use crate::fault::OpenRefused;
use crate::opening::first_page;
use std::alloc::{AllocError, Global};
use std::marker::Model;
use std::sync::Arc;
use vpg_diagram::Diagram;
use vpg_faults::OpenFault;
use vpg_game::GuardedGame;
use vpg_measure::{Order, PageGames, Table, is_progress};
use vpg_partial::Decision;
use vpg_sides::{Player, Verdict, Which};
use vpg_trail::{Decisions, Entries, Page, Trail, decisions_among};

/// The most changes that a desk makes.
pub const MOST_CHANGES: u64 = 1_048_576;

/// Returns an order, with a note if its tables are known to be progress tables.
fn with_note(order: Order, is_settled: bool) -> Order
    requires { IsTrue is_settled → IsSettledOrder order }
    ensures { result ≡ order }
{
    if is_settled { order.noted() } else { order }
}

/// Returns a page's decisions and both its tables.
fn copies(alloc: Global, trail: &Trail) -> Result<(Vec<Decision>, Table, Table), AllocError>
    ensures decisions { IfOk result (λ made. made.0.items ≡ decisions_of trail.now.entries) }
    ensures hopeful { IfOk result (λ made. made.1 ≡ table_of Hopeful trail.now.entries trail.now.vertices) }
    ensures dual { IfOk result (λ made. made.2 ≡ table_of Dual trail.now.entries trail.now.vertices) }
{
    let decisions = decisions_among(alloc, trail.entries())?;
    let hopeful = trail.hopeful().copy(alloc)?;
    let dual = trail.dual().copy(alloc)?;
    Ok((decisions, hopeful, dual))
}

/// The parts that an order shares with the desk.
type Shares = (Arc<GuardedGame>, Arc<Diagram>, Arc<PageGames>);

fn shares(
    game: &Arc<GuardedGame>,
    diagram: &Arc<Diagram>,
    games: &Arc<PageGames>,
) -> Result<Shares, AllocError>
    ensures game { IfOk result (λ made. arc_value made.0 ≡ arc_value game.now) }
    ensures diagram { IfOk result (λ made. arc_value made.1 ≡ arc_value diagram.now) }
    ensures games { IfOk result (λ made. arc_value made.2 ≡ arc_value games.now) }
{
    let game = game.clone()?;
    let diagram = diagram.clone()?;
    let games = games.clone()?;
    Ok((game, diagram, games))
}

/// A game and a diagram with the book of the pages that decisions and lifts made of them.
pub struct Desk {
    pub(crate) game: Arc<GuardedGame>,
    pub(crate) diagram: Arc<Diagram>,
    // those of the present decisions
    pub(crate) games: Arc<PageGames>,
    pub(crate) trail: Trail,
    // the newest past page and the nearest future page are last
    pub(crate) past: Vec<Cut>,
    pub(crate) future: Vec<Cut>,
    pub(crate) changes: u64,
    pub(crate) tokens: u64,
    // whether the present page is known to be settled
    pub(crate) is_noted: bool,
}

// Not derived: a derived `drop` would be proved again at each exit that owns such a value.
impl Drop for Desk {
    fn drop(self) {
        let Desk {
            game: _,
            diagram: _,
            games: _,
            trail: _,
            past: _,
            future: _,
            changes: _,
            tokens: _,
            is_noted: _,
        } = self;
    }
}

impl Model for Desk {
    ghost use Rattle.std.specs.Coded.{codes};
    ghost use Rattle.vpg_diagram.specs.Coding.{rule_code};
    ghost use Rattle.vpg_game.specs.Coding.{game_code};
    ghost use Rattle.vpg_desk.specs.State.{DeskState};

    ghost Value = { DeskState };

    ghost coded = { Prim.hlevel (codes, game_code, rule_code) };

    ghost use Rattle.vpg_desk.specs.DeskFields.{desk_of, IsDesk};

    ghost view = { desk_of };

    ghost invariant = { IsDesk };
}

impl Desk {
    /// Returns a desk without decisions; both tables are zero. Refused, in this order: a priority is 65,536, so that
    /// there is no dual; the diagram alone has a conflict, which names its root; out of memory. The arguments come back
    /// then.
    pub fn open(
        alloc: Global,
        game: Arc<GuardedGame>,
        diagram: Arc<Diagram>,
    ) -> Result<Desk, OpenRefused>
        requires { (arc_value game).features ≡ feature_count (arc_value diagram).lines }
        ensures opened { IfOk result (λ desk. desk.book ≡ opened) }
        ensures game { IfOk result (λ desk. desk.game ≡ arc_value game) }
        ensures diagram { IfOk result (λ desk. desk.diagram ≡ arc_value diagram) }
        ensures fits { OnOk result (IsOpened (arc_value game) (arc_value diagram)) }
        ensures at_limit { IfErr result (λ refused. (refused.fault ≡ OpenFault.AtLimit) ↔ IsAtLimit (arc_value game)) }
        ensures conflict { IfErr result
            (λ refused. (f : ℕ) → refused.fault ≡ OpenFault.Conflict f → HasConflictOf (arc_value diagram).lines [] ×
            (f ≡ 0)) }
        ensures game_back { IfErr result (λ refused. arc_value refused.game ≡ arc_value game) }
        ensures diagram_back { IfErr result (λ refused. arc_value refused.diagram ≡ arc_value diagram) }
    {
        match first_page(alloc, &game, &diagram) {
            Ok((games, trail)) => Ok(Desk {
                game,
                diagram,
                games,
                trail,
                past: Vec::new(alloc),
                future: Vec::new(alloc),
                changes: 0,
                tokens: 0,
                is_noted: false,
            }),
            Err(fault) => Err(OpenRefused {
                fault,
                game,
                diagram,
            }),
        }
    }

    /// Returns the game.
    pub fn game(&self) -> &Arc<GuardedGame>
        ensures game { arc_value result.now ≡ self.now.game }
        ensures opened { IsOpened self.now.game self.now.diagram }
    {
        &self.game
    }

    /// Returns the diagram.
    pub fn diagram(&self) -> &Arc<Diagram>
        ensures diagram { arc_value result.now ≡ self.now.diagram }
        ensures opened { IsOpened self.now.game self.now.diagram }
    {
        &self.diagram
    }

    /// Returns the games that the present decisions leave: the known features, and the shapes and the kept edges of
    /// both games.
    pub fn games(&self) -> &Arc<PageGames>
        ensures { ArePageGames self.now.game self.now.diagram (choices_of self.now.book.present)
            (arc_value result.now) }
    {
        &self.games
    }

    /// Returns whether both tables of the present page are progress tables. They are then the least ones. A page that a
    /// commit of a settled harvest has settled is known to be so. It still is when undo, redo or a retraction of the
    /// newest decision return to it. It still is after decisions if then no lift raises a vertex that names a feature
    /// with new knowledge. Else it is a pass over the kept edges, which ends at the first vertex that a lift raises.
    pub fn settled(&self) -> bool
        ensures reply { Replies self.now Settled (IsSettled result) }
        ensures least { IsTrue result → (which : Side) →
            IsLeastUnder (setting_of self.now) (choices_of self.now.book.present) which
            (table_of which self.now.book.present (length (graph_of self.now.game))) }
    {
        self.is_noted || self.looks_settled()
    }

    fn looks_settled(&self) -> bool
        ensures { IsTrue result ↔ IsSettledPage (family_of (setting_of self.now)) self.now.book.present }
    {
        self.is_settled(Which::Hopeful) && self.is_settled(Which::Dual)
    }

    fn is_settled(&self, which: Which) -> bool
        ensures settled { IsTrue result ↔
            IsProgressUnder (setting_of self.now) (choices_of self.now.book.present) which
            (table_of which self.now.book.present (length (graph_of self.now.game))) }
        ensures tells { Tells (setting_of self.now) self.now.book.present }
    {
        let shape = self.games.shape(which);
        let arena = self.games.arena(which);
        match which {
            Which::Hopeful => is_progress(shape, arena, self.trail.hopeful()),
            Which::Dual => is_progress(shape, arena, self.trail.dual()),
        }
    }

    /// Returns the verdict of a vertex by the present tables. If it is hopeless Odd wins there in every product left,
    /// and if it is sure Even does, by one strategy and against every opponent. It is never both.
    pub fn verdict(&self, v: u32) -> Verdict
        requires { v < length self.now.game.vertices }
        ensures reply { Replies self.now (AsksVerdict v) (VerdictIs result.hopeless result.sure) }
        ensures hopeless { IsTrue result.hopeless →
            NeverWins (setting_of self.now) self.now.book.present Player.Even v }
        ensures sure { IsTrue result.sure → NeverWins (setting_of self.now) self.now.book.present Player.Odd v }
        ensures lost { IsTrue result.hopeless →
            AlwaysWins (setting_of self.now) self.now.book.present Player.Odd v }
        ensures won { IsTrue result.sure → AlwaysWins (setting_of self.now) self.now.book.present Player.Even v }
        ensures not_both { ¬ (IsTrue result.hopeless × IsTrue result.sure) }
    {
        Verdict {
            hopeless: self.trail.hopeful().get(v) == self.games.shape(Which::Hopeful).top(),
            sure: self.trail.dual().get(v) == self.games.shape(Which::Dual).top(),
        }
    }

    /// Returns an order of the present page, for lifters: the game, the diagram, its decisions and both its tables,
    /// with a note if it is known to be settled.
    pub fn order(&self, alloc: Global) -> Result<Order, AllocError>
        ensures reply { IfOk result
            (λ order. Replies self.now AsksOrder (Ordered order.decisions order.hopeful order.dual)) }
        ensures game { IfOk result (λ order. order.game ≡ self.now.game) }
        ensures diagram { IfOk result (λ order. order.diagram ≡ self.now.diagram) }
        ensures decisions { IfOk result (λ order. order.decisions ≡ decisions_of self.now.book.present) }
        ensures hopeful { IfOk result
            (λ order. order.hopeful ≡ table_of Hopeful self.now.book.present (length (graph_of self.now.game))) }
        ensures dual { IfOk result
            (λ order. order.dual ≡ table_of Dual self.now.book.present (length (graph_of self.now.game))) }
        ensures order { IfOk result IsOrder }
    {
        let (decisions, hopeful, dual) = copies(alloc, &self.trail)?;
        let (game, diagram, games) = shares(&self.game, &self.diagram, &self.games)?;
        let order = Order::over(alloc, game, diagram, decisions, games, hopeful, dual)?;
        Ok(with_note(order, self.is_noted))
    }

    /// Returns the present page.
    pub fn page(&self, alloc: Global) -> Result<Page, AllocError>
        ensures reply { IfOk result (λ page. Replies self.now AsksPage (PageIs page.entries)) }
        ensures decisions { IfOk result (λ page. page.decisions ≡ decisions_of self.now.book.present) }
        ensures hopeful { IfOk result
            (λ page. page.hopeful ≡ table_of Hopeful self.now.book.present (length (graph_of self.now.game))) }
        ensures dual { IfOk result
            (λ page. page.dual ≡ table_of Dual self.now.book.present (length (graph_of self.now.game))) }
        ensures below { IfOk result (λ _. PageIsBelow (family_of (setting_of self.now)) self.now.book.present) }
        ensures tells { IfOk result (λ _. Tells (setting_of self.now) self.now.book.present) }
        ensures setting { IfOk result (λ _. IsSetting (setting_of self.now)) }
        // So the laws of every legal history, the headline, hold of this desk's own.
        ensures reached { IfOk result (λ _. IsReached (setting_of self.now) self.now.book) }
    {
        let entries = Entries::copy_of(alloc, self.trail.entries())?;
        let (decisions, hopeful, dual) = copies(alloc, &self.trail)?;
        Ok(Page {
            decisions: Decisions::new(decisions),
            hopeful,
            dual,
            entries,
        })
    }
}
