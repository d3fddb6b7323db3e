//! Laws of the definitions. Each function does nothing: its contract is the law.
ghost use Rattle.vpg_why.specs.Laws.{ExplanationsAreOne, FirstProductsAreOne, MoreChoicesSuffice, NeedsAreOne, RepairsAreOne, SufficientChoicesLose};

/// Decisions that suffice still suffice with more decisions.
pub fn more_choices_suffice()
    ensures { MoreChoicesSuffice }
{}

/// If decisions suffice for a verdict, its loser wins in no product that agrees with these alone.
pub fn sufficient_choices_lose()
    ensures { SufficientChoicesLose }
{}

/// A question has one explanation from given decisions: an answer that was shown to be least is a function of them.
pub fn explanations_are_one()
    ensures { ExplanationsAreOne }
{}

/// A search finds one product from given decisions, if it was shown to be the first: such an answer is a function of
/// them.
pub fn first_products_are_one()
    ensures { FirstProductsAreOne }
{}

/// The needs for an aim are one list, if it was shown to be all: such an answer is a function of the page.
pub fn needs_are_one()
    ensures { NeedsAreOne }
{}

/// A page has one repair that keeps the oldest decisions, if each retracted decision was shown to need retraction.
pub fn repairs_are_one()
    ensures { RepairsAreOne }
{}
