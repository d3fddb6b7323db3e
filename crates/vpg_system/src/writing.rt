//! The one writing of a system.
ghost use Rattle.std.specs.Prelude.{◌≡◌, ◌<◌, ◌++◌, [], All, decimal, length, slice_index_or, OnOk, OnErr};
ghost use Rattle.vpg_guards.specs.Formula.{IsBelow};
ghost use Rattle.vpg_guards.specs.View.{formula_of};
ghost use Rattle.vpg_system.specs.SystemText.{IsTextOf, is_closed};
ghost use Rattle.vpg_system.specs.System.{IsTransition};
ghost use Rattle.vpg_system.specs.SystemView.{transition_of, transitions_of};
ghost use Rattle.vpg_system.specs.Writing.{bracketed, guard_part, label_text, transition_text, transitions_text, header_text, system_text};

use crate::actions::Actions;
use crate::system::System;
use crate::text::before_end;
use crate::transition::Transition;
use itoa::Buffer;
use std::alloc::{AllocError, Global};
use vpg_features::Names;
use vpg_guards::Guard;

impl System {
    /// Writes the system after what is there, as mCRL2 writes transition systems: a header, then a line for each
    /// transition, with the label in double quotes. A refusal writes nothing.
    pub fn write(
        &self,
        alloc: Global,
        features: &Names,
        out: &mut Vec<u8>,
    ) -> Result<(), AllocError>
        requires { length features.now ≡ self.now.features }
        ensures ok { OnOk result (out.new.items ≡ out.old.items ++ system_text features.now self.now) }
        ensures err { OnErr result (out.new.items ≡ out.old.items) }
        // The text that is written spells this system, so that `read` reads the same system again.
        ensures reads_back { OnOk result (IsTextOf features.now (system_text features.now self.now) self.now) }
    {
        // The contract of `len` says that the names are feature names, each once.
        let _count = features.len();
        let mut text = Vec::new(alloc);
        put_header(
            self.first(),
            self.transitions().len(),
            self.states(),
            &mut text,
        )?;
        text.push(b'\n')?;
        put_transitions(alloc, self.transitions(), self.names(), features, &mut text)?;
        out.extend_from_slice(&text)?;
        Ok(())
    }
}

fn put_number(n: u64, out: &mut Vec<u8>) -> Result<(), AllocError>
    ensures { OnOk result (out.new.items ≡ out.old.items ++ decimal n) }
{
    let mut buffer = Buffer::new();
    out.extend_from_slice(buffer.format(n).as_bytes())
}

fn put_header(
    first: u32,
    transitions: usize,
    states: u32,
    out: &mut Vec<u8>,
) -> Result<(), AllocError>
    ensures { OnOk result (out.new.items ≡ out.old.items ++ header_text first transitions states) }
{
    out.extend_from_slice(b"des (")?;
    put_number(u64::from(first), out)?;
    out.push(b',')?;
    put_number(transitions as u64, out)?;
    out.push(b',')?;
    put_number(u64::from(states), out)?;
    out.push(b')')?;
    Ok(())
}

/// Writes a line for each transition.
fn put_transitions(
    alloc: Global,
    transitions: &[Transition],
    names: &Actions,
    features: &Names,
    out: &mut Vec<u8>,
) -> Result<(), AllocError>
    requires { All (λ t. (t.action < length names.now) × IsBelow (length features.now) t.guard)
        (transitions_of transitions.now) }
    ensures { OnOk result (out.new.items ≡ out.old.items
        ++ transitions_text features.now names.now (transitions_of transitions.now)) }
{
    for transition in transitions {
        put_transition(alloc, transition, names, features, out)?;
        out.push(b'\n')?;
    }
    Ok(())
}

fn put_transition(
    alloc: Global,
    transition: &Transition,
    names: &Actions,
    features: &Names,
    out: &mut Vec<u8>,
) -> Result<(), AllocError>
    requires action { transition.now.action < length names.now }
    requires guard { IsBelow (length features.now) (formula_of transition.now.guard) }
    ensures { OnOk result (out.new.items ≡ out.old.items
        ++ transition_text features.now names.now (transition_of transition.now)) }
{
    out.push(b'(')?;
    put_number(u64::from(transition.source), out)?;
    out.extend_from_slice(b",\"")?;
    let name = names.name(transition.action);
    out.extend_from_slice(name)?;
    put_guard(alloc, &transition.guard, name, features, out)?;
    out.extend_from_slice(b"\",")?;
    put_number(u64::from(transition.target), out)?;
    out.push(b')')?;
    Ok(())
}

/// Whether a text ends in a `]`.
fn is_closed(text: &[u8]) -> bool
    ensures { result ≡ is_closed text.now }
{
    match before_end(text, b']') {
        Some(_) => true,
        None => false,
    }
}

/// Writes a guard in brackets. The guard `true` is left out, unless the name before it ends in a `]`.
fn put_guard(
    alloc: Global,
    guard: &Guard,
    name: &[u8],
    features: &Names,
    out: &mut Vec<u8>,
) -> Result<(), AllocError>
    requires { IsBelow (length features.now) (formula_of guard.now) }
    ensures { OnOk result (out.new.items ≡ out.old.items
        ++ guard_part features.now name.now (formula_of guard.now)) }
{
    if matches!(guard, Guard::Always) {
        if !is_closed(name) {
            return Ok(());
        }
    }
    out.extend_from_slice(b" [")?;
    guard.write(alloc, features, out)?;
    out.push(b']')?;
    Ok(())
}
