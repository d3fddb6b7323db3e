//! Laws of formulas and of the games that are made from them. Each function does nothing: its contract is the law.
//!
//! [`formula_decides`] is the theorem. The others state its parts, and that its conditions can be met.
ghost use Rattle.vpg_requirement.specs.Construction.{ConstructionIsBuilt, RefusedIsTooMany};
ghost use Rattle.vpg_requirement.specs.Words.{WordsMeanWhatTheySay};
ghost use Rattle.vpg_requirement.specs.Example.{SmallFamilyIsDecided};
ghost use Rattle.vpg_requirement.specs.Laws.{WhatHoldsIsWon, WhatFailsIsLost, BuiltIsGame, GameDecides, PrioritiesAreRight, PositiveFormMeansTheSame, FormulaDecides, AlikeGamesAreTheSame};

/// If a normal form holds at a state of a plain system, Even has a winning strategy from its situation.
pub fn what_holds_is_won()
    ensures { WhatHoldsIsWon }
{}

/// If a normal form does not hold at a state, Odd has a winning strategy from its situation.
pub fn what_fails_is_lost()
    ensures { WhatFailsIsLost }
{}

/// In each product, the game that is built for a family is the game of the product's system.
pub fn built_is_game()
    ensures { BuiltIsGame }
{}

/// In each product, the game that is built for a family decides whether a normal form holds in the product's system.
pub fn game_decides()
    ensures { GameDecides }
{}

/// The priorities given to fixpoints make the game decide the normal form, and change no meaning.
pub fn priorities_are_right()
    ensures { PrioritiesAreRight }
{}

/// The positive form of a formula has the formula's meaning.
pub fn positive_form_means_the_same()
    ensures { PositiveFormMeansTheSame }
{}

/// Each word that stands for a formula means what it says on the graph of a system.
pub fn words_mean_what_they_say()
    ensures { WordsMeanWhatTheySay }
{}

/// In each product, the game that is built for a family and a formula decides whether the formula holds in the
/// product's system.
pub fn formula_decides()
    ensures { FormulaDecides }
{}

/// Guards that are as true in each product of a diagram make the same games there.
pub fn alike_games_are_the_same()
    ensures { AlikeGamesAreTheSame }
{}

/// A family of two states and a formula satisfy the conditions of the laws, and the formula holds in only one of its
/// two products.
pub fn small_family_is_decided()
    ensures { SmallFamilyIsDecided }
{}

/// The game that the search from the roots constructs is built of its situations, and these are the roots and what can
/// be reached from them.
pub fn construction_is_built()
    ensures { ConstructionIsBuilt }
{}

/// If the search constructs none, more than this many different situations can be reached.
pub fn refused_is_too_many()
    ensures { RefusedIsTooMany }
{}
