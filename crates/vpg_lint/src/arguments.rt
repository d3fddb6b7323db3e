//! The place where the words of a line depart from the form of a command.
use vpg_places::Word;
use vpg_script::{Argument, CommandForm, Parameter, argument_of};

/// The place at which words depart from the form of their command, and what is expected there, or else the line's end.
#[derive(Clone, Copy)]
pub(crate) struct Departure {
    pub(crate) place: usize,
    pub(crate) expected: Option<Parameter>,
}

/// Returns the parameter of the argument at a place, if there may be one.
fn parameter_at(form: &CommandForm, place: usize) -> Option<Parameter> {
    form.parameters.get(place).copied().or(form.rest)
}

/// Whether an argument for a parameter may be a number.
fn takes_numbers(parameter: Parameter) -> bool {
    !matches!(
        parameter,
        Parameter::Feature | Parameter::Table | Parameter::Verdict
    )
}

/// Whether a word may be an argument for a parameter, a number also if it is too great.
fn fits(parameter: Parameter, word: &[u8]) -> bool {
    let is_number = takes_numbers(parameter) && word.iter().all(|b| b.is_ascii_digit());
    is_number || argument_of(parameter, word).is_some()
}

/// Returns where words depart from a form without the parameter of an assertion.
fn departure_of_words(form: &CommandForm, words: &[Word<'_>]) -> Option<Departure> {
    for (place, word) in words.iter().enumerate() {
        let expected = parameter_at(form, place);
        if !expected.is_some_and(|parameter| fits(parameter, word.bytes)) {
            return Some(Departure { place, expected });
        }
    }
    let place = words.len();
    if place < form.least {
        return Some(Departure {
            place,
            expected: parameter_at(form, place),
        });
    }
    None
}

/// Whether a word is an assertion if it stands alone.
fn is_whole(word: &[u8]) -> bool {
    matches!(
        argument_of(Parameter::Asserted, word),
        Some(Argument::Asserted(Some(_), _))
    )
}

fn is_exact(word: &[u8]) -> bool {
    matches!(
        argument_of(Parameter::Verdict, word),
        Some(Argument::Exact(_))
    )
}

fn is_claim(word: &[u8]) -> bool {
    matches!(
        argument_of(Parameter::Verdict, word),
        Some(Argument::Claim(_))
    )
}

/// Returns where the words after the vertex of an assertion are no verdicts; at least one has to follow.
fn departure_of_claims(words: &[Word<'_>]) -> Option<Departure> {
    let expected = Some(Parameter::Verdict);
    for (place, word) in words.iter().enumerate() {
        if place > 0 && !is_claim(word.bytes) {
            return Some(Departure { place, expected });
        }
    }
    if words.len() < 2 {
        return Some(Departure { place: 1, expected });
    }
    None
}

/// Returns where words depart from the form of an assertion, if the first fits. An exact verdict follows a vertex
/// alone; `full` and `settled` stand alone.
fn departure_of_asserted(words: &[Word<'_>]) -> Option<Departure> {
    match words {
        [word] if is_whole(word.bytes) => None,
        [_, exact] if is_exact(exact.bytes) => None,
        [_, exact, ..] if is_exact(exact.bytes) => Some(Departure {
            place: 2,
            expected: None,
        }),
        _ => departure_of_claims(words),
    }
}

/// Returns where words depart from the form of their command, which is not among them.
pub(crate) fn departure_of(form: &CommandForm, words: &[Word<'_>]) -> Option<Departure> {
    let is_assertion = form.parameters.contains(&Parameter::Asserted);
    match words {
        [vertex, ..] if is_assertion && fits(Parameter::Asserted, vertex.bytes) => {
            departure_of_asserted(words)
        }
        _ => departure_of_words(form, words),
    }
}

/// Returns the place of the first word that is too great a number, and its parameter, if words do not depart from the
/// form.
pub(crate) fn too_great(form: &CommandForm, words: &[Word<'_>]) -> (usize, Parameter) {
    for (place, word) in words.iter().enumerate() {
        if let Some(parameter) = parameter_at(form, place) {
            if argument_of(parameter, word.bytes).is_none() {
                return (place, parameter);
            }
        }
    }
    (0, parameter_at(form, 0).unwrap_or(Parameter::Vertex))
}
