//! Laws of games that are built. Each function does nothing: its contract is the law.
ghost use Rattle.vpg_model.specs.Forms.{ChainedPartsStand};
ghost use Rattle.vpg_model.specs.Laws.{PairGameIsBuilt, GameOfPartsIsModel, GameOfPartsDecides};

/// The game of pairs is the game of their situations.
pub fn pair_game_is_built()
    ensures { PairGameIsBuilt }
{}

/// In a list in which parts come after those that they are parts of, parts stand for normal forms, each in its scope.
pub fn chained_parts_stand()
    ensures { ChainedPartsStand }
{}

/// The game of parts is a model of each formula with its normal form at a root.
pub fn game_of_parts_is_model()
    ensures { GameOfPartsIsModel }
{}

/// In each product the game decides each formula with its normal form at a root.
pub fn game_of_parts_decides()
    ensures { GameOfPartsDecides }
{}
