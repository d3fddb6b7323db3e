//! Laws of the definitions. Each function does nothing: its contract is the law.
ghost use Rattle.vpg_answers.specs.Adding.{NumbersAddUp};
ghost use Rattle.vpg_answers.specs.Laws.{AnswersAreOne};

/// An answer is a function of the page, if no limit was met.
pub fn answers_are_one()
    ensures { AnswersAreOne }
{}

/// The numbers of the parts of one page add up to the number of the products left, if no limit was met.
pub fn numbers_add_up()
    ensures { NumbersAddUp }
{}
