//! Reading the lines of a system.

ghost use Rattle.std.specs.Prelude.{◌≡◌, ◌+◌, ◌<◌, ◌≤◌, ◌^◌, [], ℕ, List, Ok, Err, Some, length, IfOk, IfErr};
ghost use Rattle.std.specs.Str.Lines.{lines};
ghost use Rattle.vpg_system.specs.SystemReading.{guard_of, guard_place, line_at, nothing, read_lines, reading, after_header, header_at, is_within, Fault, system_of};
ghost use Rattle.vpg_system.specs.SystemView.{header_of, text_in};
ghost use Rattle.vpg_system.specs.ReadCode.{seen_in, guard_error, IsGuardError, IsLineError, IsReadingFault, IsGoodHeader, IsHeaderError, behind_header};
ghost use Rattle.vpg_guards.specs.View.{formula_of};

use crate::actions::Actions;
use crate::fault::{LineError, LineFault, SystemFault};
use crate::form::{form_of, guard_place, header_at, name_of};
use crate::text::{first_line, is_all_blank, number_below};
use crate::transition::Transition;
use std::alloc::Global;
use vpg_features::Names;
use vpg_guards::{Guard, GuardFault, parse_guard};

/// The greatest number of states in a system.
pub const MOST_STATES: u32 = 65_536;

/// The greatest number of transitions in a system.
pub const MOST_TRANSITIONS: u32 = 1_048_576;

/// The first state, and how many transitions and states there are.
#[derive(Clone, Copy)]
pub(crate) struct Header {
    pub(crate) first: u32,
    pub(crate) count: u32,
    pub(crate) states: u32,
}

/// The actions and transitions read so far.
#[derive(Drop)]
pub(crate) struct Reader {
    pub(crate) actions: Actions,
    pub(crate) transitions: Vec<Transition>,
}

/// Returns the guard of a text in a line, `true` if there is no text.
fn guard_of(
    alloc: Global,
    features: &Names,
    text: Option<&[u8]>,
    line: &[u8],
) -> Result<Guard, LineError>
    ensures ok { IfOk result (λ g. guard_of features.now (text_in text.entry) ≡ Some (formula_of g)) }
    ensures err { IfErr result (IsGuardError (guard_of features.now (text_in text.entry)) line.now) }
{
    let Some(text) = text else {
        return Ok(Guard::Always);
    };
    // The contract of `len` says that the names are feature names, each once.
    let _count = features.len();
    match parse_guard(alloc, text, features) {
        Ok(guard) => Ok(guard),
        Err(fault) => Err(guard_error(guard_place(line), fault)),
    }
}

/// Returns the error of a line whose guard, at a place, has this fault.
fn guard_error(at: usize, fault: GuardFault) -> LineError
    ensures { result ≡ guard_error at fault }
{
    match fault {
        GuardFault::Memory => LineError::Memory,
        _ => LineError::Refused(LineFault::Guard { at, fault }),
    }
}

/// Reads a line that is not blank after the others.
fn add_line(
    alloc: Global,
    features: &Names,
    header: Header,
    reader: &mut Reader,
    line: &[u8],
) -> Result<(), LineError>
    requires { IsGoodHeader (header_of header) }
    ensures ok { IfOk result (λ _.
        line_at features.now (header_of header) (seen_in reader.old) line.now ≡ Ok (seen_in reader.new)) }
    ensures err { IfErr result
        (IsLineError (line_at features.now (header_of header) (seen_in reader.old) line.now)) }
{
    let Some(form) = form_of(line) else {
        return Err(LineError::Refused(LineFault::Syntax));
    };
    if reader.transitions.len() >= header.count as usize {
        return Err(LineError::Refused(LineFault::WrongCount));
    }
    let Some(name) = name_of(form.label) else {
        return Err(LineError::Refused(LineFault::Label));
    };
    let Some(source) = number_below(form.source, header.states) else {
        return Err(LineError::Refused(LineFault::NoState));
    };
    let Some(target) = number_below(form.target, header.states) else {
        return Err(LineError::Refused(LineFault::NoState));
    };
    let guard = guard_of(alloc, features, name.guard, line)?;
    let action = reader.actions.number(alloc, name.name)?;
    let transition = Transition {
        source,
        action,
        target,
        guard,
    };
    let Ok(()) = reader.transitions.push(transition) else {
        return Err(LineError::Memory);
    };
    Ok(())
}

/// Returns the header that a line spells, within the limits.
fn header_of(alloc: Global, line: &[u8], at: usize) -> Result<Header, SystemFault>
    ensures ok { IfOk result (λ h. header_at line.now ≡ Some (header_of h)) }
    ensures within { IfOk result (λ h. IsGoodHeader (header_of h)) }
    ensures err { IfErr result (IsHeaderError (header_at line.now) at) }
{
    let Some(form) = header_at(alloc, line)? else {
        return Err(SystemFault::NoHeader { line: at });
    };
    let Some(states) = number_below(form.states, MOST_STATES + 1) else {
        return Err(SystemFault::TooMany { line: at });
    };
    let Some(count) = number_below(form.count, MOST_TRANSITIONS + 1) else {
        return Err(SystemFault::TooMany { line: at });
    };
    let Some(first) = number_below(form.first, states) else {
        return Err(SystemFault::NoState { line: at });
    };
    Ok(Header {
        first,
        count,
        states,
    })
}

/// The header, the text after its line, and the line's number.
#[derive(Clone, Copy)]
pub(crate) struct Head<'a> {
    pub(crate) header: Header,
    behind: &'a [u8],
    number: usize,
}

/// Reads up to the header.
pub(crate) fn read_header<'a>(
    alloc: Global,
    features: &Names,
    text: &'a [u8],
) -> Result<Head<'a>, SystemFault>
    ensures head { IfOk result (λ head. reading features.now text.now
        ≡ behind_header features.now (header_of head.header) head.number head.behind.now) }
    ensures good { IfOk result (λ head. IsGoodHeader (header_of head.header)) }
    ensures number { IfOk result (λ head. head.number + length head.behind.now ≤ length text.now) }
    ensures refused { IfErr result (IsReadingFault (reading features.now text.now)) }
{
    let mut rest = text;
    let mut number = 0;
    while !rest.is_empty() {
        let (line, behind) = first_line(rest);
        number += 1;
        if !is_all_blank(line) {
            let header = header_of(alloc, line, number)?;
            return Ok(Head {
                header,
                behind,
                number,
            });
        }
        rest = behind;
    }
    Err(SystemFault::NoHeader {
        line: number.max(1),
    })
}

/// Reads the lines after the header.
pub(crate) fn read_lines(
    alloc: Global,
    features: &Names,
    head: Head,
    reader: &mut Reader,
) -> Result<(), SystemFault>
    requires good { IsGoodHeader (header_of head.header) }
    requires new { seen_in reader.old ≡ nothing }
    requires room { head.number + length head.behind.now < 2 ^ 64 }
    ensures read { IfOk result (λ _.
        behind_header features.now (header_of head.entry.header) head.entry.number head.entry.behind.now
        ≡ Ok (system_of features.now (header_of head.entry.header) (seen_in reader.new))) }
    ensures refused { IfErr result (IsReadingFault
        (behind_header features.now (header_of head.entry.header) head.entry.number head.entry.behind.now)) }
{
    let mut rest = head.behind;
    let mut number = head.number;
    while !rest.is_empty() {
        let (line, behind) = first_line(rest);
        number += 1;
        rest = behind;
        if is_all_blank(line) {
            continue;
        }
        match add_line(alloc, features, head.header, reader, line) {
            Ok(()) => {}
            Err(LineError::Refused(kind)) => return Err(kind.at(number)),
            Err(LineError::Memory) => return Err(SystemFault::Memory),
        }
    }
    if reader.transitions.len() < head.header.count as usize {
        return Err(SystemFault::WrongCount { line: head.number });
    }
    Ok(())
}
