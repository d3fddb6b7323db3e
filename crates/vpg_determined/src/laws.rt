//! Laws on who wins a parity game. Each function does nothing: its contract is the law.
ghost use Rattle.vpg_determined.specs.Determined.{GamesAreDetermined, OneStrategyServesBoth, PlaysAreDetermined, LeastTellsWinner, NotBothTop};
ghost use Rattle.vpg_determined.specs.Plays.{WinnersWinEachPlay};
ghost use Rattle.vpg_determined.specs.ProductLaws.{HopeOrCautionWins, HopelessIsLost, SureIsWon, TopsHaveMoves, VerdictsHaveMoves, NotHopelessAndSure};

/// From each vertex of a closed game one of the two players wins, by a positional strategy.
pub fn games_are_determined()
    ensures { GamesAreDetermined }
{}

/// One strategy serves both players and every vertex.
pub fn one_strategy_serves_both()
    ensures { OneStrategyServesBoth }
{}

/// A positional strategy that wins wins every play that it allows, whatever the opponent does.
pub fn winners_win_each_play()
    ensures { WinnersWinEachPlay }
{}

/// By one strategy one of the players wins every play from each vertex.
pub fn plays_are_determined()
    ensures { PlaysAreDetermined }
{}

/// The least progress table is at the top exactly where Odd wins, and below it exactly where Even does.
pub fn least_tells_winner()
    ensures { LeastTellsWinner }
{}

/// Tables below all progress tables of an easier game and of a harder game's dual are not both at the top.
pub fn not_both_top()
    ensures { NotBothTop }
{}

/// Either one player wins its hopeful game, or the other wins every product, by one strategy.
pub fn hope_or_caution_wins<G>()
    ensures { HopeOrCautionWins G }
{}

/// A hopeless vertex is won by Odd in every product that agrees with what is known, by one strategy.
pub fn hopeless_is_lost<G>()
    ensures { HopelessIsLost G }
{}

/// A sure vertex is won by Even in every product that agrees with what is known, by one strategy.
pub fn sure_is_won<G>()
    ensures { SureIsWon G }
{}

/// If every progress table is at the top, or a table of a page is, the other player has moves that win in every
/// product.
pub fn verdicts_have_moves<G>()
    ensures values { TopsHaveMoves G }
    ensures tables { VerdictsHaveMoves G }
{}

/// No vertex is both hopeless and sure, whatever is known, with products left or none.
pub fn not_hopeless_and_sure<G>()
    ensures { NotHopelessAndSure G }
{}
