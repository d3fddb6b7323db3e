//! Requirements as normal forms.
ghost use Rattle.std.specs.Prelude.{◌≡◌, ◌≤◌, ◌∷◌, ◌++◌, [], List, length, All, IfOk, IfErr, OnOk};
ghost use Rattle.vpg_written.specs.Tasks.{Basis, AreTerms};
ghost use Rattle.vpg_written.specs.Whole.{AreSpelledForms, IsTooLongForm};
ghost use Rattle.vpg_formula.specs.Requirements.{Entry as Written, marked};
ghost use Rattle.vpg_formula.specs.EntryCode.{entries_of};
ghost use Rattle.vpg_written.specs.Translations.{AreTranslated, IsTooLong};

use crate::sets::constants;
use crate::task::Term;
use crate::terms::terms;
use crate::writing::{WritingFault, write};
use std::alloc::{AllocError, Global};
use thiserror::Error;
use vpg_formula::Requirements;
use vpg_parts::{Permitted, Spelling};
use vpg_system::System;

/// Requirements without names, words and negations: sets of actions, and a normal form for each entry.
#[derive(Drop)]
pub struct Translation {
    pub sets: Vec<Permitted>,
    pub forms: Vec<Spelling>,
}

/// Why requirements have no normal forms.
#[derive(Clone, Copy, Debug, Drop, Error)]
pub enum TranslationFault {
    /// The entry of this number has more than 65,536 parts once words, names and regular formulas are replaced.
    #[error("entry {0} has more than 65,536 parts")]
    TooManyParts(usize),
    #[error("out of memory")]
    Memory,
}

impl From<AllocError> for TranslationFault {
    ghost use Rattle.vpg_written.specs.declared.translation.TranslationFault.TheVariants.{Memory};

    ghost from_gives = { λ _ fault. fault ≡ Memory };

    fn from(_error: AllocError) -> TranslationFault {
        TranslationFault::Memory
    }
}

/// Adds a form at the end.
fn add(forms: &mut Vec<Spelling>, form: Spelling) -> Result<(), AllocError>
    ensures { OnOk result (forms.new.items ≡ forms.old.items ++ form ∷ []) }
{
    forms.push(form)?;
    Ok(())
}

/// Returns the normal forms of the entries.
fn forms(alloc: Global, terms: &[Term]) -> Result<Vec<Spelling>, TranslationFault>
    ensures spelled { IfOk result (λ forms. (g : Basis) → AreTerms g terms.now →
        AreSpelledForms g (length terms.now) forms.items) }
    ensures short { IfOk result (λ forms. All (λ ss. length ss ≤ 65536) forms.items) }
    ensures refused { IfErr result (λ fault. (g : Basis) → AreTerms g terms.now → IsTooLongForm g fault) }
{
    let mut forms = Vec::new(alloc);
    for entry in 0..terms.len() {
        match write(alloc, terms, entry) {
            Ok(form) => add(&mut forms, form)?,
            Err(WritingFault::TooManyParts) => return Err(TranslationFault::TooManyParts(entry)),
            Err(WritingFault::Memory) => return Err(TranslationFault::Memory),
        }
    }
    Ok(forms)
}

/// Returns the normal forms of requirements over the actions of a system.
pub fn translate(
    alloc: Global,
    system: &System,
    requirements: &Requirements,
) -> Result<Translation, TranslationFault>
    ensures translated { IfOk result (λ t. (entries : List Written) →
        entries_of requirements.now.entries.items ≡ marked entries →
        AreTranslated system.now.actions entries t.sets.items t.forms.items) }
    ensures short { IfOk result (λ t. All (λ ss. length ss ≤ 65536) t.forms.items) }
    ensures refused { IfErr result (λ fault. (entries : List Written) →
        entries_of requirements.now.entries.items ≡ marked entries →
        IsTooLong system.now.actions entries fault) }
{
    let mut sets = constants(alloc, system)?;
    let terms = terms(alloc, system, requirements.entries.as_slice(), &mut sets)?;
    match forms(alloc, terms.as_slice()) {
        Ok(forms) => Ok(Translation { sets, forms }),
        Err(fault) => Err(fault),
    }
}
