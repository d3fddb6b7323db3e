//! Laws of answering.
ghost use Rattle.vpg_report.specs.Run.{AnswersAreHistories};
ghost use Rattle.vpg_report.specs.Settling.{SettledAnswersAreOne, SettledRunsAreOne};
ghost use Rattle.vpg_report.specs.Winners.{AnswersNameWinners};

/// The answers to lines are those of a legal history of their calls, with lawful harvests only.
/// `vpg_desk::laws::headline` holds of each history that a run leaves, with no further premise: by its clause `opened`,
/// game and diagram are a setting.
pub fn answers_are_histories()
    ensures { AnswersAreHistories }
{}

/// The answers of `run` to `show`, `assert` and `changed` say who wins. In every product left on the page at that
/// point, Odd wins from a vertex that they call hopeless, and Even from one that they call sure. They call none both.
pub fn answers_name_winners()
    ensures { AnswersNameWinners }
{}

/// A script is answered with one text, whichever lawful harvests its lines made, if three things hold. Every settle was
/// answered `settled`, no answer about the page had a doubt (no limit was met), and every harvest that a line kept
/// passes `check`. The text, and the line with a fault, are one function of the game, the diagram and the script.
pub fn settled_answers_are_one()
    ensures lines { SettledAnswersAreOne }
    ensures runs { SettledRunsAreOne }
{}
