//! Laws of traces. Each function does nothing: its contract is the law.
ghost use Rattle.vpg_trace.specs.Laws.{UnmarkedStepsAreThere, WinnersGoOn};

/// A reported step without the mark "depends" is one of the system of each product that is left.
pub fn unmarked_steps_are_there()
    ensures { UnmarkedStepsAreThere }
{}

/// If the moves win, the winner always has one.
pub fn winners_go_on()
    ensures { WinnersGoOn }
{}
