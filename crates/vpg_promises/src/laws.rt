//! Laws of pages and requirements: each law is the contract of a function that does nothing.
ghost use Rattle.vpg_promises.specs.Example.{SmallIsModel};
ghost use Rattle.vpg_promises.specs.Promises.{VerdictsSpeakOfRequirements, VerdictsSpeakOfTexts};

/// Verdicts speak of the requirement, on each page of each legal history of a desk over a game that is made from a
/// family's system and a formula. Hopeless says that the formula holds in no product left, and sure that it holds in
/// each; a full and settled page says which of the two is so.
pub fn verdicts_speak_of_requirements()
    ensures { VerdictsSpeakOfRequirements }
{}

/// Verdicts speak of the requirements, on each page of each legal history of a desk over the game that is read from the
/// texts of a system and of requirements. Hopeless at an entry's vertex says that the entry's requirement holds in no
/// product left, and sure that it holds in each. `vpg_checking::Model::read` returns such a game (`found`), so nothing
/// else is to be shown of it.
pub fn verdicts_speak_of_texts()
    ensures { VerdictsSpeakOfTexts }
{}

/// There is a game that is a model, so that the theorem speaks of something.
pub fn small_is_model()
    ensures { SmallIsModel }
{}
