//! The line that reports a fault.
ghost use Rattle.std.specs.Prelude.{◌≡◌, [], ◌∷◌, ◌++◌, map, codes, IfOk, OnOk};
ghost use Rattle.vpg_family.specs.Counts.{labelled};
ghost use Rattle.vpg_family.specs.Faults.{shown_byte, guard_text, game_text, diagram_text, system_text, requirements_text, model_text, reason_text, configuration_text, line_text, large_text, fault_text, fault_line};

use crate::counts::put_labelled;
use crate::fault::{Fault, Input};
use std::alloc::{AllocError, Global};
use vpg_configuration::{ConfigurationFault, Reason};
use vpg_diagram::DiagramFault;
use vpg_formula::RequirementFault;
use vpg_game::GameFault;
use vpg_guards::GuardFault;
use vpg_lint::put_number;
use vpg_model::ModelFault;
use vpg_models::put_form_fault;
use vpg_script::LineFault;
use vpg_system::SystemFault;

/// Returns a byte of a word as it is shown: `?` for a control character.
fn shown_byte(byte: u8) -> u8
    ensures { result ≡ shown_byte byte }
{
    if byte < b' ' || byte == 127 {
        b'?'
    } else {
        byte
    }
}

/// Appends a word with `?` for each control character.
fn put_shown(word: &[u8], out: &mut Vec<u8>) -> Result<(), AllocError>
    ensures { OnOk result (out.new.items ≡ out.old.items ++ map shown_byte word.now) }
{
    for byte in word {
        out.push(shown_byte(*byte))?;
    }
    Ok(())
}

fn put_guard_fault(fault: GuardFault, out: &mut Vec<u8>) -> Result<(), AllocError>
    ensures { OnOk result (out.new.items ≡ out.old.items ++ guard_text fault) }
{
    match fault {
        GuardFault::Syntax { at } => put_labelled(b"Syntax", at as u64, out),
        GuardFault::UnknownFeature { at } => put_labelled(b"UnknownFeature", at as u64, out),
        GuardFault::TooDeep { at } => put_labelled(b"TooDeep", at as u64, out),
        GuardFault::Memory => out.extend_from_slice(b"Memory"),
    }
}

fn put_game_fault(fault: GameFault, out: &mut Vec<u8>) -> Result<(), AllocError>
    ensures { OnOk result (out.new.items ≡ out.old.items ++ game_text fault) }
{
    match fault {
        GameFault::Syntax { at } => put_labelled(b"Syntax", at as u64, out),
        GameFault::BadOwner { at } => put_labelled(b"BadOwner", at as u64, out),
        GameFault::PriorityTooLarge { at } => put_labelled(b"PriorityTooLarge", at as u64, out),
        GameFault::TooMany { at } => put_labelled(b"TooMany", at as u64, out),
        GameFault::Guard { at, fault } => {
            put_labelled(b"Guard", at as u64, out)?;
            out.push(b' ')?;
            put_guard_fault(fault, out)
        }
        GameFault::DoubleVertex { id } => put_labelled(b"DoubleVertex", id as u64, out),
        GameFault::MissingVertex { id } => put_labelled(b"MissingVertex", id as u64, out),
        GameFault::TooWide => out.extend_from_slice(b"TooWide"),
        GameFault::Memory => out.extend_from_slice(b"Memory"),
    }
}

fn put_diagram_fault(fault: DiagramFault, out: &mut Vec<u8>) -> Result<(), AllocError>
    ensures { OnOk result (out.new.items ≡ out.old.items ++ diagram_text fault) }
{
    match fault {
        DiagramFault::Syntax { line } => put_labelled(b"Syntax", line as u64, out),
        DiagramFault::NoRoot => out.extend_from_slice(b"NoRoot"),
        DiagramFault::TwoRoots { line } => put_labelled(b"TwoRoots", line as u64, out),
        DiagramFault::UnknownFeature { line } => put_labelled(b"UnknownFeature", line as u64, out),
        DiagramFault::TwoParents { line } => put_labelled(b"TwoParents", line as u64, out),
        DiagramFault::TooManyClauses { line } => put_labelled(b"TooManyClauses", line as u64, out),
        DiagramFault::TooMany { line } => put_labelled(b"TooMany", line as u64, out),
        DiagramFault::BadRange { line } => put_labelled(b"BadRange", line as u64, out),
        DiagramFault::Memory => out.extend_from_slice(b"Memory"),
    }
}

/// Appends which guard of a system has which fault.
fn put_system_guard(
    line: usize,
    at: usize,
    fault: GuardFault,
    out: &mut Vec<u8>,
) -> Result<(), AllocError>
    ensures { OnOk result (out.new.items
        ≡ out.old.items ++ labelled (codes "Guard") line ++ labelled [] at ++ 32 ∷ guard_text fault) }
{
    put_labelled(b"Guard", line as u64, out)?;
    put_labelled(b"", at as u64, out)?;
    out.push(b' ')?;
    put_guard_fault(fault, out)
}

fn put_system_fault(fault: SystemFault, out: &mut Vec<u8>) -> Result<(), AllocError>
    ensures { OnOk result (out.new.items ≡ out.old.items ++ system_text fault) }
{
    match fault {
        SystemFault::NoHeader { line } => put_labelled(b"NoHeader", line as u64, out),
        SystemFault::TooMany { line } => put_labelled(b"TooMany", line as u64, out),
        SystemFault::Syntax { line } => put_labelled(b"Syntax", line as u64, out),
        SystemFault::WrongCount { line } => put_labelled(b"WrongCount", line as u64, out),
        SystemFault::Label { line } => put_labelled(b"Label", line as u64, out),
        SystemFault::NoState { line } => put_labelled(b"NoState", line as u64, out),
        SystemFault::Guard { line, at, fault } => put_system_guard(line, at, fault, out),
        SystemFault::Memory => out.extend_from_slice(b"Memory"),
    }
}

fn put_requirement_fault(fault: RequirementFault, out: &mut Vec<u8>) -> Result<(), AllocError>
    ensures { OnOk result (out.new.items ≡ out.old.items ++ requirements_text fault) }
{
    match fault {
        RequirementFault::Syntax { at } => put_labelled(b"Syntax", at as u64, out),
        RequirementFault::UnknownVariable { at } => put_labelled(
            b"UnknownVariable",
            at as u64,
            out,
        ),
        RequirementFault::TooDeep { at } => put_labelled(b"TooDeep", at as u64, out),
        RequirementFault::Twice { at } => put_labelled(b"Twice", at as u64, out),
        RequirementFault::TooMany { at } => put_labelled(b"TooMany", at as u64, out),
        RequirementFault::NegatedVariable { at } => put_labelled(
            b"NegatedVariable",
            at as u64,
            out,
        ),
        RequirementFault::Memory => out.extend_from_slice(b"Memory"),
    }
}

fn put_model_fault(fault: ModelFault, out: &mut Vec<u8>) -> Result<(), AllocError>
    ensures { OnOk result (out.new.items ≡ out.old.items ++ model_text fault) }
{
    match fault {
        ModelFault::TooManyVertices => out.extend_from_slice(b"TooManyVertices"),
        ModelFault::TooManyEdges => out.extend_from_slice(b"TooManyEdges"),
        ModelFault::TooWide => out.extend_from_slice(b"TooWide"),
        ModelFault::Memory => out.extend_from_slice(b"Memory"),
    }
}

/// Appends a word and why a system is refused.
fn put_system(fault: SystemFault, out: &mut Vec<u8>) -> Result<(), AllocError>
    ensures { OnOk result (out.new.items ≡ out.old.items ++ codes "system " ++ system_text fault) }
{
    out.extend_from_slice(b"system ")?;
    put_system_fault(fault, out)
}

/// Appends a word and why requirements are refused.
fn put_requirements(fault: RequirementFault, out: &mut Vec<u8>) -> Result<(), AllocError>
    ensures { OnOk result (out.new.items ≡ out.old.items ++ codes "requirements " ++ requirements_text fault) }
{
    out.extend_from_slice(b"requirements ")?;
    put_requirement_fault(fault, out)
}

/// Appends that a requirement of this name has too many parts.
fn put_too_many_parts(name: &[u8], out: &mut Vec<u8>) -> Result<(), AllocError>
    ensures { OnOk result (out.new.items ≡ out.old.items ++ codes "requirements TooManyParts " ++ name.now) }
{
    out.extend_from_slice(b"requirements TooManyParts ")?;
    out.extend_from_slice(name)
}

/// Appends a word and which limit of games is passed.
fn put_model(fault: ModelFault, out: &mut Vec<u8>) -> Result<(), AllocError>
    ensures { OnOk result (out.new.items ≡ out.old.items ++ codes "model " ++ model_text fault) }
{
    out.extend_from_slice(b"model ")?;
    put_model_fault(fault, out)
}

/// Returns the word for a reason.
fn reason_word(reason: Reason) -> &'static [u8]
    ensures { result.now ≡ reason_text reason }
{
    match reason {
        Reason::Declaration => b"Declaration",
        Reason::Character => b"Character",
        Reason::Reference => b"Reference",
        Reason::Markup => b"Markup",
        Reason::Closing => b"Closing",
        Reason::SecondRoot => b"SecondRoot",
        Reason::TooDeep => b"TooDeep",
        Reason::Outside => b"Outside",
        Reason::Unfinished => b"Unfinished",
        Reason::UnknownElement => b"UnknownElement",
        Reason::UnknownValue => b"UnknownValue",
        Reason::NoName => b"NoName",
        Reason::BadName => b"BadName",
    }
}

/// Appends a reason, and `LINE:COLUMN`.
fn put_reason(
    reason: Reason,
    line: usize,
    column: usize,
    out: &mut Vec<u8>,
) -> Result<(), AllocError>
    ensures { OnOk result (out.new.items
        ≡ out.old.items ++ configuration_text (ConfigurationFault.Refused reason line column)) }
{
    out.extend_from_slice(reason_word(reason))?;
    out.extend_from_slice(b" ")?;
    put_number(line, out)?;
    out.extend_from_slice(b":")?;
    put_number(column, out)
}

fn put_configuration_fault(fault: ConfigurationFault, out: &mut Vec<u8>) -> Result<(), AllocError>
    ensures { OnOk result (out.new.items ≡ out.old.items ++ configuration_text fault) }
{
    match fault {
        ConfigurationFault::Refused {
            reason,
            line,
            column,
        } => put_reason(reason, line, column, out),
        ConfigurationFault::Memory => out.extend_from_slice(b"Memory"),
    }
}

/// Appends a word and why a text is no configuration.
fn put_configuration(fault: ConfigurationFault, out: &mut Vec<u8>) -> Result<(), AllocError>
    ensures { OnOk result (out.new.items ≡ out.old.items ++ codes "configuration " ++ configuration_text fault) }
{
    out.extend_from_slice(b"configuration ")?;
    put_configuration_fault(fault, out)
}

fn put_line_fault(fault: LineFault, out: &mut Vec<u8>) -> Result<(), AllocError>
    ensures { OnOk result (out.new.items ≡ out.old.items ++ line_text fault) }
{
    match fault {
        LineFault::Word => out.extend_from_slice(b"Word"),
        LineFault::Args => out.extend_from_slice(b"Args"),
        LineFault::TooLong => out.extend_from_slice(b"TooLong"),
    }
}

/// Appends which line of a script has which fault.
fn put_line(line: u64, fault: LineFault, out: &mut Vec<u8>) -> Result<(), AllocError>
    ensures { OnOk result (out.new.items ≡ out.old.items ++ labelled (codes "script Line") line
        ++ 32 ∷ line_text fault) }
{
    put_labelled(b"script Line", line, out)?;
    out.push(b' ')?;
    put_line_fault(fault, out)
}

/// Appends that a word names no feature.
fn put_unknown(word: &[u8], out: &mut Vec<u8>) -> Result<(), AllocError>
    ensures { OnOk result (out.new.items ≡ out.old.items ++ codes "UnknownFeature " ++ map shown_byte word.now) }
{
    out.extend_from_slice(b"UnknownFeature ")?;
    put_shown(word, out)
}

/// Appends that a line `trace` had this answer.
fn put_untraced(answer: &[u8], out: &mut Vec<u8>) -> Result<(), AllocError>
    ensures { OnOk result (out.new.items ≡ out.old.items ++ codes "NoTrace " ++ answer.now) }
{
    out.extend_from_slice(b"NoTrace ")?;
    out.extend_from_slice(answer)
}

/// Appends that a file is too large.
fn put_large(input: Input, out: &mut Vec<u8>) -> Result<(), AllocError>
    ensures { OnOk result (out.new.items ≡ out.old.items ++ large_text input) }
{
    match input {
        Input::Diagram => out.extend_from_slice(b"diagram TooLarge"),
        Input::Game => out.extend_from_slice(b"game TooLarge"),
        Input::System => out.extend_from_slice(b"system TooLarge"),
        Input::Requirements => out.extend_from_slice(b"requirements TooLarge"),
        Input::Script => out.extend_from_slice(b"script TooLarge"),
    }
}

fn put_fault(fault: &Fault, out: &mut Vec<u8>) -> Result<(), AllocError>
    ensures { OnOk result (out.new.items ≡ out.old.items ++ fault_text fault.now) }
{
    match fault {
        Fault::DiagramUnreadable => out.extend_from_slice(b"diagram unreadable"),
        Fault::Diagram { fault } => {
            out.extend_from_slice(b"diagram ")?;
            put_diagram_fault(*fault, out)
        }
        Fault::FeatureModel { fault } => put_form_fault(*fault, out),
        Fault::GameUnreadable => out.extend_from_slice(b"game unreadable"),
        Fault::Game { fault } => {
            out.extend_from_slice(b"game ")?;
            put_game_fault(*fault, out)
        }
        Fault::SystemUnreadable => out.extend_from_slice(b"system unreadable"),
        Fault::System { fault } => put_system(*fault, out),
        Fault::RequirementsUnreadable => out.extend_from_slice(b"requirements unreadable"),
        Fault::Requirements { fault } => put_requirements(*fault, out),
        Fault::TooManyParts { name } => put_too_many_parts(name, out),
        Fault::Model { fault } => put_model(*fault, out),
        Fault::Configuration { fault } => put_configuration(*fault, out),
        Fault::ScriptUnreadable => out.extend_from_slice(b"script unreadable"),
        Fault::TooLarge { input } => put_large(*input, out),
        Fault::TooManySigns { at } => put_labelled(b"game TooManySigns", *at as u64, out),
        Fault::AtLimit => out.extend_from_slice(b"game AtLimit"),
        Fault::Conflict { feature } => {
            out.extend_from_slice(b"Conflict ")?;
            out.extend_from_slice(feature.as_bytes())
        }
        Fault::Line { line, fault } => put_line(*line, *fault, out),
        Fault::Read => out.extend_from_slice(b"script Read"),
        Fault::Write => out.extend_from_slice(b"Write"),
        Fault::UnknownFeature { name } => put_unknown(name.as_bytes(), out),
        Fault::NotAProduct => out.extend_from_slice(b"NotAProduct"),
        Fault::Memory => out.extend_from_slice(b"Memory"),
        Fault::LogFull => out.extend_from_slice(b"script LogFull"),
        Fault::Stray => out.extend_from_slice(b"script Stray"),
        Fault::NoTrace { answer } => put_untraced(answer, out),
    }
}

/// Returns the line that reports a fault: `vpgdesk: `, the fault, and a line feed.
pub fn line_of(alloc: Global, fault: &Fault) -> Result<Vec<u8>, AllocError>
    ensures { IfOk result (λ line. line.items ≡ fault_line fault.now) }
{
    let mut line = Vec::new(alloc);
    line.extend_from_slice(b"vpgdesk: ")?;
    put_fault(fault, &mut line)?;
    line.push(b'\n')?;
    Ok(line)
}
