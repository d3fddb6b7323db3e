//! The forms in which answers are written.
ghost use Rattle.std.specs.Prelude.{◌≡◌, ◌++◌, ◌∷◌, [], map, false, IfOk};
ghost use Rattle.std.specs.Char.{is_ascii_digit};
ghost use Rattle.std.specs.List.{list_all};
ghost use Rattle.std.specs.Str.Lines.{lines};
ghost use Rattle.std.specs.Str.Lossy.{utf8_lossy};
ghost use Rattle.serde_json.specs.View.{view};
ghost use Rattle.serde_json.specs.Written.{compact_text, has_float};
ghost use Rattle.vpg_script.specs.Script.{number_of, largest_serial};
ghost use Rattle.vpg_script.specs.Framing.{tone_word, strings, words_of, cause_with, cause_of, refusal_of, object_of, json_line};

use crate::tone::Tone;
use serde_json::{Value, json, push};
use std::alloc::{AllocError, Global};

/// The form in which answers are written.
#[derive(Clone, Copy, Debug, PartialEq, Eq)]
pub enum Form {
    /// The answer's text.
    Plain,
    /// An object of JSON in one line, for each answer that has lines: the line's number, the answer's tone and lines,
    /// and the cause of a refusal.
    Json,
}

/// Returns the word for a tone.
fn tone_word(tone: Tone) -> &'static str
    ensures { result.now ≡ tone_word tone }
{
    match tone {
        Tone::Done => "done",
        Tone::Refused => "refused",
        Tone::Failed => "failed",
    }
}

fn has_digits(word: &str) -> bool
    ensures { result ≡ list_all is_ascii_digit word.now }
{
    word.as_bytes().iter().all(|b| b.is_ascii_digit())
}

/// Returns the number that a word's digits write, if it may be a serial.
#[tactic(auto, using(crate::proofs::Framed::serial_is, crate::proofs::Framed::no_serial))]
fn serial(word: &str) -> Option<u64>
    ensures { result ≡ number_of largest_serial word.now }
{
    if has_digits(word) {
        word.parse().ok()
    } else {
        None
    }
}

/// Returns lines as strings of JSON.
fn strings(alloc: Global, lines: &[&str]) -> Result<Value, AllocError>
    ensures { IfOk result (λ v. view v ≡ strings (map (λ w. w.now) lines.now)) }
{
    let mut list = Vec::new(alloc);
    for line in lines {
        let string = Value::try_from_str(alloc, line)?;
        push(&mut list, string)?;
    }
    Ok(Value::Array(list))
}

/// Returns the lines of a text.
fn lines(alloc: Global, text: &str) -> Result<Vec<&str>, AllocError>
    ensures { IfOk result (λ v. map (λ w. w.now) v.items ≡ lines text.now) }
{
    text.lines().collect(alloc)
}

/// Returns the words of a line.
fn words(alloc: Global, line: &str) -> Result<Vec<&str>, AllocError>
    ensures { IfOk result (λ v. map (λ w. w.now) v.items ≡ words_of line.now) }
{
    line.split(' ').collect(alloc)
}

/// Returns the cause of a refusal and its argument, a serial or a feature.
fn cause_with(
    alloc: Global,
    cause: &str,
    word: &str,
    number: Option<u64>,
) -> Result<Value, AllocError>
    ensures { IfOk result (λ v. view v ≡ cause_with cause.now word.now number) }
{
    match number {
        Some(serial) => json!(in alloc; {"cause": cause, "serial": serial}),
        None => json!(in alloc; {"cause": cause, "feature": word}),
    }
}

/// Returns the cause of a refusal of these words.
fn cause(alloc: Global, words: &[&str]) -> Result<Value, AllocError>
    ensures { IfOk result (λ v. view v ≡ cause_of (map (λ w. w.now) words.now)) }
{
    match words {
        [_, cause] => json!(in alloc; {"cause": *cause}),
        [_, cause, word, ..] => cause_with(alloc, cause, word, serial(word)),
        _ => Ok(Value::Null),
    }
}

/// Returns the cause of the refusal of this line.
fn refusal(alloc: Global, line: &str) -> Result<Value, AllocError>
    ensures { IfOk result (λ v. view v ≡ refusal_of line.now) }
{
    let words = words(alloc, line)?;
    cause(alloc, &words)
}

/// Returns the object of the answer to the line of this number.
fn object(
    alloc: Global,
    number: u64,
    tone: Tone,
    line: &str,
    lines: &[&str],
) -> Result<Value, AllocError>
    ensures { IfOk result
        (λ v. view v ≡ object_of number tone line.now (map (λ w. w.now) lines.now)) }
{
    let answer = strings(alloc, lines)?;
    let word = tone_word(tone);
    match tone {
        Tone::Refused => {
            let refused = refusal(alloc, line)?;
            json!(in alloc; {"line": number, "tone": word, "refused": refused, "answer": answer})
        }
        _ => json!(in alloc; {"line": number, "tone": word, "answer": answer}),
    }
}

/// Returns the text of a value without blanks, and a line feed.
fn value_line(alloc: Global, value: &Value) -> Result<Vec<u8>, AllocError>
    ensures { IfOk result (λ line. has_float (view value.now) ≡ false →
        line.items ≡ compact_text (view value.now) ++ 10 ∷ []) }
{
    let mut line = value.to_string(alloc)?.into_bytes();
    line.push(b'\n')?;
    Ok(line)
}

/// Returns the line of JSON for these lines of an answer, nothing if there are none.
fn json_lines(alloc: Global, number: u64, tone: Tone, lines: &[&str]) -> Result<Vec<u8>, AllocError>
    ensures { IfOk result (λ text. text.items ≡ json_line number tone (map (λ w. w.now) lines.now)) }
{
    match lines {
        [] => Ok(Vec::new(alloc)),
        [line, ..] => {
            let value = object(alloc, number, tone, line, lines)?;
            let made = value_line(alloc, &value)?;
            Ok(made)
        }
    }
}

/// Returns the line of JSON for the text of an answer.
pub(crate) fn json_text(
    alloc: Global,
    number: u64,
    tone: Tone,
    text: &[u8],
) -> Result<Vec<u8>, AllocError>
    ensures { IfOk result (λ line. line.items ≡ json_line number tone (lines (utf8_lossy text.now))) }
{
    let text = String::from_utf8_lossy(alloc, text)?;
    let lines = lines(alloc, text.as_str())?;
    json_lines(alloc, number, tone, &lines)
}
