//! Laws of measures and their numbers. Each function does nothing: its contract is the law.
ghost use Rattle.vpg_measure.specs.NumberLaws.{NumbersAreMeasures, MeasuresHaveNumbers, OrderIsNumeric, TruncatedOrderIsQuotient, ProgIsLeastFit, WeightsAreProducts, LiftIsLeast, LiftGrows, RoundsRise, RoundsGrow, RoundsStayBelow, RoundsStop, ProgIsLeastMeasure, LiftStaysBelow, ChoiceFits};

/// Numbers up to the top and measures correspond one to one.
pub fn correspondence()
    ensures measures { MeasuresHaveNumbers }
    ensures numbers { NumbersAreMeasures }
{}

/// They correspond in order, also on a priority and above.
pub fn order()
    ensures whole { OrderIsNumeric }
    ensures truncated { TruncatedOrderIsQuotient }
{}

/// `prog` is the least number with a measure that fits the edge.
pub fn least_fit()
    ensures numbers { ProgIsLeastFit }
    ensures measures { ProgIsLeastMeasure }
{}

/// The weight of a priority is the product of the radices of the odd priorities below it.
pub fn weights()
    ensures { WeightsAreProducts }
{}

/// A lift is the least number that fits at a vertex.
pub fn least_lift()
    ensures { LiftIsLeast }
{}

/// A greater table has no smaller lifts.
pub fn growing_lifts()
    ensures grow { LiftGrows }
    ensures below { LiftStaysBelow }
{}

/// Rounds rise, grow with the table, stay below every progress table, and stop at progress tables alone.
pub fn rounds()
    ensures rise { RoundsRise }
    ensures grow { RoundsGrow }
    ensures below { RoundsStayBelow }
    ensures stop { RoundsStop }
{}

/// The strategy moves along edges that the table's values fit.
pub fn choices()
    ensures { ChoiceFits }
{}
