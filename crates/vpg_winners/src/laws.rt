//! Laws of the definitions. Each function does nothing: its contract is the law.
ghost use Rattle.vpg_winners.specs.Laws.{WinnersAreOne};

/// The products that are left have one list of parts by the rule, if no part is unsettled: such an answer is a
/// function of the page.
pub fn winners_are_one()
    ensures { WinnersAreOne }
{}
