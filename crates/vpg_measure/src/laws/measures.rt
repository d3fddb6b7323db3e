//! Laws of parity games, strategies and measures. Each function does nothing: its contract is the law.
ghost use Rattle.vpg_measure.specs.MeasureLaws.{EveryPlayIsWon, AtMostIsTotalOrder, ShapeExists, ShapeIsUnique, ProgExists, ProgIsUnique, LiftExists, LiftIsUnique, EvenLiftsToLeast, OddLiftsToGreatest, FitsFromLift, ProgressIsUnraised, LiftIsMonotone, LiftStaysBelow, RaiseStaysBelow, ZeroIsBelow, LeastExists, LeastIsUnique, LeastProgWins, ProgressWins, TopRefutes, WinGivesProgress, LeastDecides, SimpleCyclesDecide, HarderProgressIsEasier, BelowStaysInHarder, ValueStaysInHarder, WinStaysInEasier, ValueStaysWhenMoreIsKnown, HopelessLoses, SureWins, PossibleWins, UnsureLoses, NotPossibleAndUnsure};

/// Measures of one shape are totally ordered.
pub fn at_most_is_total_order()
    ensures { AtMostIsTotalOrder }
{}

/// Each list of priorities has a shape.
pub fn shape_exists()
    ensures { ShapeExists }
{}

/// A list of priorities has only one shape.
pub fn shape_is_unique()
    ensures { ShapeIsUnique }
{}

/// A priority and a value have a least measure that fits.
pub fn prog_exists()
    ensures { ProgExists }
{}

/// A priority and a value have only one least measure that fits.
pub fn prog_is_unique()
    ensures { ProgIsUnique }
{}

/// A vertex has a least measure that fits.
pub fn lift_exists()
    ensures { LiftExists }
{}

/// A vertex has only one least measure that fits.
pub fn lift_is_unique()
    ensures { LiftIsUnique }
{}

/// The least of top and the progs is Even's lift.
pub fn even_lifts_to_least()
    ensures { EvenLiftsToLeast }
{}

/// The greatest of zero and the progs is Odd's lift.
pub fn odd_lifts_to_greatest()
    ensures { OddLiftsToGreatest }
{}

/// A measure fits exactly if it is at least the lift.
pub fn fits_from_lift()
    ensures { FitsFromLift }
{}

/// A progress table is one that no lift raises.
pub fn progress_is_unraised()
    ensures { ProgressIsUnraised }
{}

/// A higher table has higher lifts.
pub fn lift_is_monotone()
    ensures { LiftIsMonotone }
{}

/// The lift of a table below a progress table is below it.
pub fn lift_stays_below()
    ensures { LiftStaysBelow }
{}

/// Each raise of a table below a progress table is below it, also a raise by the lift of an older table.
pub fn raise_stays_below()
    ensures { RaiseStaysBelow }
{}

/// The zero table is below every progress table.
pub fn zero_is_below()
    ensures { ZeroIsBelow }
{}

/// There is a least progress table.
pub fn least_exists()
    ensures { LeastExists }
{}

/// There is only one least progress table.
pub fn least_is_unique()
    ensures { LeastIsUnique }
{}

/// Successors of least prog win from every vertex below top.
pub fn least_prog_wins()
    ensures { LeastProgWins }
{}

/// Some strategy wins from every vertex below top.
pub fn progress_wins()
    ensures { ProgressWins }
{}

/// Top below every progress table refutes every winning strategy.
pub fn top_refutes()
    ensures { TopRefutes }
{}

/// A winning strategy gives a progress table below top.
pub fn win_gives_progress()
    ensures { WinGivesProgress }
{}

/// The least progress table is at the top exactly where Even has no winning strategy.
pub fn least_decides()
    ensures { LeastDecides }
{}

/// A winning strategy wins every infinite play that it allows.
pub fn every_play_is_won()
    ensures { EveryPlayIsWon }
{}

/// Closed walks and simple cycles decide alike.
pub fn simple_cycles_decide()
    ensures { SimpleCyclesDecide }
{}

/// A progress table of the harder game is one of the easier.
pub fn harder_progress_is_easier()
    ensures { HarderProgressIsEasier }
{}

/// A table below every progress table of the easier game is below every one of the harder.
pub fn below_stays_in_harder()
    ensures { BelowStaysInHarder }
{}

/// A value below every progress table of the easier game is below every one of the harder.
pub fn value_stays_in_harder()
    ensures { ValueStaysInHarder }
{}

/// A winning strategy of Even in the harder game wins the easier.
pub fn win_stays_in_easier()
    ensures { WinStaysInEasier }
{}

/// A value below every progress table stays so when more is known.
pub fn value_stays_when_more_is_known<G>()
    ensures { ValueStaysWhenMoreIsKnown G }
{}

/// A hopeless vertex has no winning strategy for Even in any product that agrees.
pub fn hopeless_loses<G>()
    ensures { HopelessLoses G }
{}

/// A sure vertex has no winning strategy for Odd in any product that agrees.
pub fn sure_wins<G>()
    ensures { SureWins G }
{}

/// If everything is known, Even wins from each possible vertex.
pub fn possible_wins<G>()
    ensures { PossibleWins G }
{}

/// If everything is known, Odd wins from each unsure vertex.
pub fn unsure_loses<G>()
    ensures { UnsureLoses G }
{}

/// If everything is known, no vertex is both possible and unsure.
pub fn not_possible_and_unsure<G>()
    ensures { NotPossibleAndUnsure G }
{}
