//! Laws of bounds and certificates. Each function does nothing: its contract is the law.
ghost use Rattle.vpg_measure.specs.BoundLaws.{DualProgressMeansTop, SupportedBoundsHold, RaisedFromOrder};

/// Where a progress table of the dual game is below the top, every progress table of the game is at the top.
pub fn dual_progress_means_top()
    ensures { DualProgressMeansTop }
{}

/// Supported bounds are below every progress table that the table is below.
pub fn supported_bounds_hold()
    ensures { SupportedBoundsHold }
{}

/// A table raised from an order's, and still below every progress table that the order's is below, may stand in a
/// harvest of it.
pub fn raised_from_order()
    ensures { RaisedFromOrder }
{}
