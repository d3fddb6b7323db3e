//! The labels beside arrows.
ghost use Rattle.std.specs.Prelude.{◌≡◌, ◌<◌, ◌++◌, OnOk, decimal, length};
ghost use Rattle.vpg_guards.specs.Formula.{IsBelow};
ghost use Rattle.vpg_guards.specs.View.{formula_of};
ghost use Rattle.vpg_system.specs.SystemView.{transition_of};
ghost use Rattle.vpg_system_draw.specs.Arrows.{guard_mark, label_text};

use itoa::Buffer;
use std::alloc::{AllocError, Global};
use vpg_draw::escaped;
use vpg_features::Names;
use vpg_guards::Guard;
use vpg_system::{System, Transition};

/// Appends a number in decimal.
pub(crate) fn number(n: u32, out: &mut Vec<u8>) -> Result<(), AllocError>
    ensures { OnOk result (out.new.items ≡ out.old.items ++ decimal n) }
{
    let mut buffer = Buffer::new();
    out.extend_from_slice(buffer.format(n).as_bytes())
}

/// Appends a guard in brackets, unless it is `true`.
fn guard_mark(
    alloc: Global,
    names: &Names,
    guard: &Guard,
    out: &mut Vec<u8>,
) -> Result<(), AllocError>
    requires { IsBelow (length names.now) (formula_of guard.now) }
    ensures { OnOk result (out.new.items ≡ out.old.items ++ guard_mark names.now (formula_of guard.now)) }
{
    if matches!(guard, Guard::Always) {
        return Ok(());
    }
    out.extend_from_slice(b" [")?;
    guard.write(alloc, names, out)?;
    out.extend_from_slice(b"]")
}

/// Appends the action of a transition, and its guard.
pub(crate) fn transition_label(
    alloc: Global,
    names: &Names,
    system: &System,
    transition: &Transition,
    out: &mut Vec<u8>,
) -> Result<(), AllocError>
    requires action { transition.now.action < length system.now.actions }
    requires guard { IsBelow (length names.now) (formula_of transition.now.guard) }
    ensures { OnOk result (out.new.items ≡ out.old.items
        ++ label_text names.now system.now.actions (transition_of transition.now)) }
{
    escaped(system.action_name(transition.action), out)?;
    guard_mark(alloc, names, &transition.guard, out)
}
