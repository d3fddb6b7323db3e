//! Laws of tables of numbers. Each function does nothing: its contract is the law.
ghost use Rattle.vpg_measure.specs.TableLaws.{NotBothNumbers, UnsureNumber, PossibleNumber, SettledIsUnique, LevelsAreShape, ProgressOfNumbers, ChoicesWin, TopNumberRefutes, SettledInEarlier, HopelessNumber, SureNumber};

/// The levels of the priorities are their shape.
pub fn levels_are_shape()
    ensures { LevelsAreShape }
{}

/// A table of numbers is a progress table exactly if its measures are.
pub fn progress_of_numbers()
    ensures { ProgressOfNumbers }
{}

/// The choices made at a settled table win from every vertex below the top.
pub fn choices_win()
    ensures { ChoicesWin }
{}

/// The top in a table below every progress table refutes every winning strategy.
pub fn top_number_refutes()
    ensures { TopNumberRefutes }
{}

/// A progress table when more is known is one when less is known.
pub fn settled_in_earlier<G>()
    ensures { SettledInEarlier G }
{}

/// A hopeless vertex has no winning strategy for Even in any product that agrees with what is known.
pub fn hopeless_number<G>()
    ensures { HopelessNumber G }
{}

/// A sure vertex has no winning strategy for Odd in any such product.
pub fn sure_number<G>()
    ensures { SureNumber G }
{}

/// Two settled tables below every progress table are equal.
pub fn settled_is_unique()
    ensures { SettledIsUnique }
{}

/// If everything is known, the choices win in the product from every possible vertex.
pub fn possible_number<G>()
    ensures { PossibleNumber G }
{}

/// If everything is known, the choices of the dual win in the product for Odd from every unsure vertex.
pub fn unsure_number<G>()
    ensures { UnsureNumber G }
{}

/// If everything is known, no vertex is both possible and unsure.
pub fn not_both_numbers<G>()
    ensures { NotBothNumbers G }
{}

ghost use Rattle.vpg_measure.specs.TableLaws.{BelowIsByValue, ZerosAreBelow, LiftIsBelow, RaiseIsBelow, LeastOfNumbers, LeastTableExists, LeastNumberDecides, WinGivesNumbers, DualTopRefutes};

/// Tables below every progress table.
pub fn below()
    ensures by_value { BelowIsByValue }
    ensures zeros { ZerosAreBelow }
    ensures lift { LiftIsBelow }
    ensures raise { RaiseIsBelow }
{}

/// The least table, and the strategies that it shows or refutes.
pub fn least()
    ensures numbers { LeastOfNumbers }
    ensures exists { LeastTableExists }
    ensures decides { LeastNumberDecides }
    ensures win { WinGivesNumbers }
    ensures dual { DualTopRefutes }
{}
