//! Laws of the definitions. Each function does nothing: its contract is the law.
ghost use Rattle.vpg_guards.specs.Laws.{KnownValuesHold, FinerValuesRefine, FullValuesDecide, ValuesRestOnNamedFeatures, TextsSpellOneGuard, WritingsSpellTheGuard, SpelledGuardsAreReadable, DisjunctionsAreReadable, JoinedGuardsMeanBoth, PartsDecideTheValue};

/// A value that is known holds in each set that agrees with what is known.
pub fn known_values_hold()
    ensures { KnownValuesHold }
{}

/// Knowing more keeps the value, if there was one.
pub fn finer_values_refine()
    ensures { FinerValuesRefine }
{}

/// If every feature is known, so is the truth of each guard.
pub fn full_values_decide()
    ensures { FullValuesDecide }
{}

/// The value of a guard depends only on what is known of the features that it names.
pub fn values_rest_on_named_features()
    ensures { ValuesRestOnNamedFeatures }
{}

/// A text spells one guard at most.
pub fn texts_spell_one_guard()
    ensures { TextsSpellOneGuard }
{}

/// The text that is written spells the guard.
pub fn writings_spell_the_guard()
    ensures { WritingsSpellTheGuard }
{}

/// A guard that a text spells can be written and read again.
pub fn spelled_guards_are_readable()
    ensures { SpelledGuardsAreReadable }
{}

/// The `or` of two guards that can be written and read again can be, too.
pub fn disjunctions_are_readable()
    ensures { DisjunctionsAreReadable }
{}

/// The `and` of two guards is true if both are, the `or` if one is; likewise their values.
pub fn joined_guards_mean_both()
    ensures { JoinedGuardsMeanBoth }
{}

/// The values of the parts decide the value of an `and` and of an `or`.
pub fn parts_decide_the_value()
    ensures { PartsDecideTheValue }
{}
