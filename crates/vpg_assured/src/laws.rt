//! Laws of a run's answers, as contracts of functions that do nothing.
ghost use Rattle.vpg_assured.specs.Assured.{AnswersSpeakOfRequirements};
ghost use Rattle.vpg_assured.specs.Parted.{PartsSpeakOfRequirements};
ghost use Rattle.vpg_assured.specs.Traced.{TracedStepsAreThere};

/// Verdicts in a run's answers are true of the requirements, if the run's game is that of the texts of a system and of
/// requirements. If an answer calls an entry's vertex hopeless, the entry's requirement fails in each product left on
/// the page at that point. If it calls it sure, the requirement holds in each.
///
/// `vpg_checking::Model::read` returns such a game (`found`), and a run that doesn't end in `Open` has opened an office
/// on it (`vpg_report::run`: `opened`); so nothing else is to be shown.
pub fn answers_speak_of_requirements()
    ensures { AnswersSpeakOfRequirements }
{}

/// Parts in a run's answers to `winners` are true of the requirements, if the run's game is that of the texts of a
/// system and of requirements. At an entry's vertex each product left on the page at that point is in exactly one part.
/// The entry's requirement holds in each product of a part that is won, and fails in each of one that is lost.
pub fn parts_speak_of_requirements()
    ensures { PartsSpeakOfRequirements }
{}

/// Steps in a run's traces are transitions of the system, if the run's game was made of a system and requirements. A
/// step that isn't marked as depending is one of the system of each product left on the page at that point; the guard
/// of a marked one is open there. A step leaves the state that the walk is at, and leads to its next state. A move
/// without a step stays in its state, or no product that is left has it.
///
/// `vpg_family::read_known` returns such a game with its system (`known`), and `vpg_report::run` answers by them; so
/// nothing else is to be shown.
pub fn traced_steps_are_there()
    ensures { TracedStepsAreThere }
{}
