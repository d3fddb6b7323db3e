//! Pictures of a family on a page.
ghost use Rattle.std.specs.Prelude.{◌≡◌, ◌<◌, All, length, map, IfOk};
ghost use Rattle.vpg_diagram.specs.FeatureDiagram.{feature_count};
ghost use Rattle.vpg_draw.specs.FeatureDrawing.{feature_drawing};
ghost use Rattle.vpg_draw.specs.GameDrawing.{game_drawing};
ghost use Rattle.vpg_family.specs.Pages.{sight_of, IsGameSeen, IsPageDrawn, IsSightDrawn};
ghost use Rattle.vpg_partial.specs.Known.{literal_of};

use crate::drawing::Subject;
use crate::files::Texts;
use std::alloc::{AllocError, Global};
use vpg_diagram::Diagram;
use vpg_draw::{draw_features, draw_game};
use vpg_game::{GuardedGame, VertexNames};
use vpg_measure::Order;
use vpg_partial::{Decision, Partial};
use vpg_sides::Verdict;

/// Returns the picture of the diagram on a page, from its text.
fn features_shown(
    alloc: Global,
    diagram: &Diagram,
    known: &Partial,
    decisions: &[Decision],
    text: &[u8],
) -> Result<Vec<u8>, AllocError>
    requires known { length known.now ≡ feature_count diagram.now.lines }
    requires decisions { All (λ d. d.feature < feature_count diagram.now.lines) decisions.now }
    ensures { IfOk result (λ picture. picture.items ≡ feature_drawing diagram.now.names known.now
        (map literal_of decisions.now) text.now) }
{
    let mut picture = Vec::new(alloc);
    // The diagram has a name for each feature.
    let _features = diagram.features();
    draw_features(alloc, text, diagram, known, decisions, &mut picture)?;
    Ok(picture)
}

/// Returns the picture of the game on a page, with these names of its vertices.
fn game_shown(
    alloc: Global,
    diagram: &Diagram,
    game: &GuardedGame,
    known: &Partial,
    decisions: &[Decision],
    verdicts: &[Verdict],
    names: &VertexNames,
) -> Result<Vec<u8>, AllocError>
    requires features { game.now.features ≡ feature_count diagram.now.lines }
    requires known { length known.now ≡ feature_count diagram.now.lines }
    requires decisions { All (λ d. d.feature < feature_count diagram.now.lines) decisions.now }
    requires verdicts { length verdicts.now ≡ length game.now.vertices }
    ensures { IfOk result (λ picture. picture.items ≡ game_drawing diagram.now.names known.now
        (map literal_of decisions.now) names.now.names verdicts.now game.now) }
{
    let features = diagram.names();
    let mut picture = Vec::new(alloc);
    draw_game(
        alloc,
        game,
        features,
        known,
        decisions,
        names,
        verdicts,
        &mut picture,
    )?;
    Ok(picture)
}

/// Returns the picture of a game on a page, with the names in its text.
fn game_seen(
    alloc: Global,
    diagram: &Diagram,
    game: &GuardedGame,
    known: &Partial,
    decisions: &[Decision],
    verdicts: &[Verdict],
    text: &[u8],
) -> Result<Vec<u8>, AllocError>
    requires features { game.now.features ≡ feature_count diagram.now.lines }
    requires known { length known.now ≡ feature_count diagram.now.lines }
    requires decisions { All (λ d. d.feature < feature_count diagram.now.lines) decisions.now }
    requires verdicts { length verdicts.now ≡ length game.now.vertices }
    ensures { IfOk result (λ picture. IsGameSeen diagram.now game.now
        (sight_of known.now (map literal_of decisions.now) verdicts.now) text.now picture.items) }
{
    let names = VertexNames::read(alloc, text)?;
    game_shown(alloc, diagram, game, known, decisions, verdicts, &names)
}

/// Returns the picture of the page with these parts.
fn sight_drawn(
    alloc: Global,
    subject: Subject,
    diagram: &Diagram,
    game: &GuardedGame,
    known: &Partial,
    decisions: &[Decision],
    verdicts: &[Verdict],
    texts: &Texts,
) -> Result<Vec<u8>, AllocError>
    requires features { game.now.features ≡ feature_count diagram.now.lines }
    requires known { length known.now ≡ feature_count diagram.now.lines }
    requires decisions { All (λ d. d.feature < feature_count diagram.now.lines) decisions.now }
    requires verdicts { length verdicts.now ≡ length game.now.vertices }
    ensures { IfOk result (λ picture. IsSightDrawn subject diagram.now game.now
        (sight_of known.now (map literal_of decisions.now) verdicts.now) texts.now.diagram.items texts.now.game.items
        picture.items) }
{
    match subject {
        Subject::Game => {
            let text = &texts.game;
            game_seen(alloc, diagram, game, known, decisions, verdicts, text)
        }
        Subject::Features => features_shown(alloc, diagram, known, decisions, &texts.diagram),
    }
}

/// Returns the picture of a page of a family with these texts. An order of the page has its decisions; the verdicts are
/// those of its vertices, in file order.
pub fn page_drawn(
    alloc: Global,
    subject: Subject,
    order: &Order,
    verdicts: &[Verdict],
    texts: &Texts,
) -> Result<Vec<u8>, AllocError>
    requires { length verdicts.now ≡ length order.now.game.vertices }
    ensures { IfOk result (λ picture. IsPageDrawn subject order.now.diagram order.now.game
        (map literal_of order.now.decisions) verdicts.now texts.now.diagram.items texts.now.game.items
        picture.items) }
{
    sight_drawn(
        alloc,
        subject,
        order.diagram(),
        order.game(),
        order.games().known(),
        order.decisions(),
        verdicts,
        texts,
    )
}
