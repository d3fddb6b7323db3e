//! Laws of the definitions. Each function does nothing: its contract is the law.
ghost use Rattle.vpg_game.specs.Laws.{TextsSpellOneGame, WritingsSpellTheGame, EdgesHoldAsNamed, GamesHaveGraphs, GraphsAgree};

/// A text spells one game at most.
pub fn texts_spell_one_game()
    ensures { TextsSpellOneGame }
{}

/// The text that is written spells the game, if no priority is at the limit.
pub fn writings_spell_the_game()
    ensures { WritingsSpellTheGame }
{}

/// A vertex has an edge in the game of a product exactly if its entry names a successor with a guard that the product
/// satisfies. It does not matter how often the successor is named.
pub fn edges_hold_as_named()
    ensures { EdgesHoldAsNamed }
{}

/// In the graph of a game each edge leads to a vertex, each guard names features of the game, and both tops are within
/// the limit.
pub fn games_have_graphs()
    ensures { GamesHaveGraphs }
{}

/// The graph of a game has its vertices in their order, and the graph of the dual game is the dual of the graph.
pub fn graphs_agree()
    ensures { GraphsAgree }
{}
