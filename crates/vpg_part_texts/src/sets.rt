//! Texts of sets of actions.
ghost use Rattle.std.specs.Prelude.{◌≡◌, ◌<◌, ◌++◌, [], false, length, map, drop, slice_index_or, IfOk, OnOk};
ghost use Rattle.vpg_part_texts.specs.SetTexts.{sign_text, listed, shorter, set_text};

use std::alloc::{AllocError, Global};
use std::marker::Model;
use vpg_parts::Permitted;
use vpg_system::System;

/// A text: any bytes.
#[derive(Drop)]
pub struct Text {
    pub bytes: Vec<u8>,
}

impl Model for Text {
    ghost use Rattle.std.specs.Prelude.{ℕ, List};

    ghost Value = { List ℕ };

    ghost view = { λ t. t.bytes.items };
}

/// Whether a set has an action.
fn has(set: &Permitted, action: usize) -> bool
    ensures { result ≡ slice_index_or set.now action false }
{
    match set.actions.get(action) {
        Some(is) => *is,
        None => false,
    }
}

/// Returns the sign in front of an action of a set, or of one that it lacks.
fn sign(is_in: bool) -> &'static [u8]
    ensures { result.now ≡ sign_text is_in }
{
    if is_in { b" || " } else { b" && !" }
}

/// Writes the name of an action after its sign.
fn put_action(
    system: &System,
    action: usize,
    is_in: bool,
    out: &mut Vec<u8>,
) -> Result<(), AllocError>
    requires { action < length system.now.actions }
    ensures { OnOk result (out.new.items ≡
        out.old.items ++ (sign_text is_in ++ slice_index_or system.now.actions action [])) }
{
    out.extend_from_slice(sign(is_in))?;
    out.extend_from_slice(system.action_name(action))?;
    Ok(())
}

/// Returns the actions of a set, or those that it lacks, each after its sign.
fn listed(
    alloc: Global,
    system: &System,
    set: &Permitted,
    is_in: bool,
) -> Result<Vec<u8>, AllocError>
    ensures { IfOk result (λ text. text.items ≡ listed is_in set.now 0 system.now.actions) }
{
    let mut text = Vec::new(alloc);
    for action in 0..system.actions() {
        if has(set, action) == is_in {
            put_action(system, action, is_in, &mut text)?;
        }
    }
    Ok(text)
}

/// Returns a text without its first four bytes.
fn behind_sign(text: &[u8]) -> &[u8]
    ensures { result.now ≡ drop 4 text.now }
{
    if text.len() < 4 { &[] } else { &text[4..] }
}

/// Returns the shorter of two lists of actions.
fn shorter<'p>(inside: &'p [u8], outside: &'p [u8]) -> &'p [u8]
    ensures { result.now ≡ shorter inside.now outside.now }
{
    if inside.len() <= outside.len() {
        behind_sign(inside)
    } else {
        behind_sign(outside)
    }
}

/// Returns the text of a set.
fn set_text(alloc: Global, system: &System, set: &Permitted) -> Result<Text, AllocError>
    ensures { IfOk result (λ text. text ≡ set_text system.now.actions set.now) }
{
    let inside = listed(alloc, system, set, true)?;
    let outside = listed(alloc, system, set, false)?;
    let words = if outside.is_empty() {
        b"true".as_slice()
    } else if inside.is_empty() {
        b"false".as_slice()
    } else {
        shorter(&inside, &outside)
    };
    Ok(Text {
        bytes: Vec::from_slice(alloc, words)?,
    })
}

/// Returns the text of each of these sets of a system's actions.
pub fn set_texts(
    alloc: Global,
    system: &System,
    sets: &[Permitted],
) -> Result<Vec<Text>, AllocError>
    ensures { IfOk result (λ texts. texts.items ≡ map (set_text system.now.actions) sets.now) }
{
    let mut texts = Vec::new(alloc);
    for set in sets {
        texts.push(set_text(alloc, system, set)?)?;
    }
    Ok(texts)
}
