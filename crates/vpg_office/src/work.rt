//! Opening an office without picking its terms.
ghost use Rattle.std.specs.Arc.{arc_value};
ghost use Rattle.std.specs.Prelude.{◌≡◌, ◌≤◌, ◌↔◌, ℕ, [], IfOk, IfErr};
ghost use Rattle.vpg_diagram.specs.FeatureDiagram.{feature_count};
ghost use Rattle.vpg_game.specs.Game.{IsAtLimit};
ghost use Rattle.vpg_partial.specs.KnownLaws.{HasConflictOf};

use crate::front::Front;
use crate::office::{NotOpened, Office, again, memory_fault};
use crate::site::Site;
use crate::terms::Terms;
use std::alloc::{AllocError, Global};
use std::marker::Brand;
use std::sync::{Arc, Wait};
use vpg_desk::OpenFault;
use vpg_diagram::Diagram;
use vpg_game::GuardedGame;

/// Work with an office, whatever its terms.
pub trait Work<R> {
    ghost use Rattle.std.specs.Arc.{arc_value};
    ghost use Rattle.std.specs.Prelude.{◌≡◌, ℕ, []};

    type Answer;

    /// The number of calls that the log of its office takes.
    ghost room: { Self → ℕ };

    /// Works with the office of this game and diagram, and ends it. The front has seen nothing.
    fn work<L: Terms + Send + Sync>(
        self,
        rt: &R,
        office: Office<L>,
        front: Front<L>,
        game: Arc<GuardedGame>,
        diagram: Arc<Diagram>,
    ) -> Self::Answer
        requires of { (arc_value game ≡ L.game) × (arc_value diagram ≡ L.diagram) }
        requires fresh { front ≡ [] }
        requires room { L.limit ≡ room self };
}

/// Work that isn't begun, since no office is opened, with the arguments.
#[derive(Drop)]
pub struct NotBegun<W> {
    pub fault: OpenFault,
    pub game: Arc<GuardedGame>,
    pub diagram: Arc<Diagram>,
    pub work: W,
}

/// Opens an office with a log of `room` calls, as many as the work counts on, and hands it to the work. Refused as
/// `Office::open`; the arguments come back then.
pub fn with_office<R: Wait, W: Work<R>>(
    rt: &R,
    alloc: Global,
    game: Arc<GuardedGame>,
    diagram: Arc<Diagram>,
    room: u32,
    work: W,
) -> Result<W::Answer, NotBegun<W>>
    requires features { (arc_value game).features ≡ feature_count (arc_value diagram).lines }
    requires room { (1 ≤ room) × (room ≤ 1048576) }
    requires counts_on { W.room work ≡ room }
    ensures at_limit { IfErr result (λ refused. (refused.fault ≡ OpenFault.AtLimit) ↔ IsAtLimit (arc_value game)) }
    ensures conflict { IfErr result
        (λ refused. (f : ℕ) → refused.fault ≡ OpenFault.Conflict f → HasConflictOf (arc_value diagram).lines [] ×
        (f ≡ 0)) }
    ensures game_back { IfErr result (λ refused. arc_value refused.game ≡ arc_value game) }
    ensures diagram_back { IfErr result (λ refused. arc_value refused.diagram ≡ arc_value diagram) }
    ensures work_back { IfErr result (λ refused. refused.work ≡ work) }
{
    match site_for(alloc, &game, &diagram) {
        Ok((site, owners)) => {
            with_site::<Brand, R, W>(rt, alloc, site, game, diagram, owners, room, work)
        }
        Err(_) => Err(NotBegun {
            fault: memory_fault(&game),
            game,
            diagram,
            work,
        }),
    }
}

/// Returns a site, and further owners of both.
fn site_for(
    alloc: Global,
    game: &Arc<GuardedGame>,
    diagram: &Arc<Diagram>,
) -> Result<(Site, (Arc<GuardedGame>, Arc<Diagram>)), AllocError>
    ensures game { IfOk result (λ r. arc_value r.1.0 ≡ arc_value game.now) }
    ensures diagram { IfOk result (λ r. arc_value r.1.1 ≡ arc_value diagram.now) }
{
    let site = Site::new(alloc)?;
    Ok((site, again(game, diagram)?))
}

fn with_site<L: Terms + Send + Sync, R: Wait, W: Work<R>>(
    rt: &R,
    alloc: Global,
    site: Site,
    game: Arc<GuardedGame>,
    diagram: Arc<Diagram>,
    owners: (Arc<GuardedGame>, Arc<Diagram>),
    room: u32,
    work: W,
) -> Result<W::Answer, NotBegun<W>>
    requires features { (arc_value game).features ≡ feature_count (arc_value diagram).lines }
    requires site { (site.row ≡ L.shelves) × (site.name ≡ L.name) × (site.parts ≡ L.parts) }
    requires of { (arc_value game ≡ L.game) × (arc_value diagram ≡ L.diagram) }
    requires owners { (arc_value owners.0 ≡ L.game) × (arc_value owners.1 ≡ L.diagram) }
    requires room { (room ≡ L.limit) × (1 ≤ room) × (room ≤ 1048576) }
    requires counts_on { W.room work ≡ room }
    ensures at_limit { IfErr result (λ refused. (refused.fault ≡ OpenFault.AtLimit) ↔ IsAtLimit (arc_value game)) }
    ensures conflict { IfErr result
        (λ refused. (f : ℕ) → refused.fault ≡ OpenFault.Conflict f → HasConflictOf (arc_value diagram).lines [] ×
        (f ≡ 0)) }
    ensures game_back { IfErr result (λ refused. arc_value refused.game ≡ arc_value game) }
    ensures diagram_back { IfErr result (λ refused. arc_value refused.diagram ≡ arc_value diagram) }
    ensures work_back { IfErr result (λ refused. refused.work ≡ work) }
{
    match Office::<L>::open(rt, alloc, site, game, diagram, room) {
        Ok(office) => Ok(work.work(rt, office, Front::empty(), owners.0, owners.1)),
        Err(refused) => {
            let NotOpened {
                fault,
                game,
                diagram,
                site: _,
            } = refused;
            Err(NotBegun {
                fault,
                game,
                diagram,
                work,
            })
        }
    }
}
