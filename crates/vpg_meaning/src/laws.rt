//! Laws of the meaning of requirements. Each function does nothing: its contract is the law.
//!
//! [`requirements_mean_what_is_written`] is the theorem; the others are its parts.
ghost use Rattle.vpg_meaning.specs.Laws.{LabelsAreNames, ActionsAreAdmitted, DiamondMeansSomePath, BoxMeansEveryPath, SubstitutionIsSound, EntriesStandForFormulas, WellNamedIsPositive, FormulasMeanWhatIsWritten, RequirementsAreWellNamed, RequirementsArePositive, RequirementsMeanWhatIsWritten};

/// A name in quotes is that of exactly these bytes, a bare one that of these bytes apart from blanks.
pub fn labels_are_names()
    ensures { LabelsAreNames }
{}

/// An action formula permits the actions whose names it admits.
pub fn actions_are_admitted()
    ensures { ActionsAreAdmitted }
{}

/// A diamond over a regular formula is about some path in its language.
pub fn diamond_means_some_path()
    ensures { DiamondMeansSomePath }
{}

/// A box over a regular formula is about each path in its language.
pub fn box_means_every_path()
    ensures { BoxMeansEveryPath }
{}

/// Formulas keep their meaning if they are put into others.
pub fn substitution_is_sound()
    ensures { SubstitutionIsSound }
{}

/// The name of an entry stands for the entry's formula.
pub fn entries_stand_for_formulas()
    ensures { EntriesStandForFormulas }
{}

/// In a well-named requirement each variable has its fixpoint, under an even number of negations.
pub fn well_named_is_positive()
    ensures { WellNamedIsPositive }
{}

/// The formula of a requirement holds at a state exactly if its written form holds there.
pub fn formulas_mean_what_is_written()
    ensures { FormulasMeanWhatIsWritten }
{}

/// The requirements that a text spells are well named.
pub fn requirements_are_well_named()
    ensures { RequirementsAreWellNamed }
{}

/// In the formula of each requirement of a text each variable has its fixpoint, under an even number of negations.
pub fn requirements_are_positive()
    ensures { RequirementsArePositive }
{}

/// Each requirement of a text holds at a state exactly if its written form holds there.
pub fn requirements_mean_what_is_written()
    ensures { RequirementsMeanWhatIsWritten }
{}
