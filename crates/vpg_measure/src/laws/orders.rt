//! Laws of orders. Each function does nothing: its contract is the law.
ghost use Rattle.vpg_measure.specs.OrderLaws.{ZerosAreOpening};

/// Tables of zeros may stand in every order.
pub fn zeros_are_opening()
    ensures { ZerosAreOpening }
{}
