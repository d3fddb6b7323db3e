//! A tree that grows row by row.
ghost use Rattle.std.specs.Prelude.{◌≡◌, ◌<◌, ◌++◌, ◌∷◌, [], ◌==◌, ◌||◌, nat_lt, not, length, map, filter, IfOk, IfErr, Ok, Err, option_map, Some, OnOk, ◌≢◌};
ghost use Rattle.std.specs.List.{list_all, list_any};
ghost use Rattle.vpg_uvl.specs.Nesting.{narrower, seed, last_of, is_aligned, ends_in_head, early_stop, placed_below, with_group, with_feature, grown, rooted, front_stop, is_level};
ghost use Rattle.std.specs.List.{AllByRecursion};
ghost use Rattle.vpg_features.specs.Names.{IsNew, IsRefused};
ghost use Rattle.vpg_uvl.specs.Views.{IsItem, item_in, stop_in, growth_of, IsRowError, IsNumbered, AreNumbered};

use crate::fault::Reason;
use crate::item::{Item, Stop, item_of};
use crate::words::{after_blanks, indentation, is_head, same, split_word};
use std::alloc::{AllocError, Global};
use vpg_features::NameFault;
use vpg_tree::{Kind, Tree};

/// An open row: its indentation, and the number of its group or feature.
#[derive(Clone, Copy)]
pub(crate) struct Open {
    pub(crate) indent: u64,
    pub(crate) is_group: bool,
    pub(crate) number: usize,
}

/// A tree, and the open rows, the root's first.
#[derive(Drop)]
pub(crate) struct Growth {
    pub(crate) tree: Tree,
    pub(crate) open_rows: Vec<Open>,
}

/// Why a row does not grow the tree.
#[derive(Clone, Copy)]
pub(crate) enum RowError<'t> {
    Memory,
    Refused(Stop<'t>),
}

/// Returns the open rows that are indented less.
fn narrower(alloc: Global, rows: &[Open], indent: u64) -> Result<Vec<Open>, AllocError>
    ensures { IfOk result (λ parents. parents.items ≡ narrower indent rows.now) }
{
    rows.iter()
        .filter(|row| row.indent < indent)
        .copied()
        .collect(alloc)
}

/// Whether all open rows are indented less.
fn are_narrower(rows: &[Open], indent: u64) -> bool
    ensures { result ≡ list_all (λ row. nat_lt row.indent indent) rows.now }
{
    rows.iter().all(|row| row.indent < indent)
}

/// Whether an open row is indented as far.
fn is_beside(rows: &[Open], indent: u64) -> bool
    ensures { result ≡ list_any (λ row. row.indent == indent) rows.now }
{
    rows.iter().any(|row| row.indent == indent)
}

/// Returns the last of the open rows.
fn last_of(rows: &[Open]) -> Option<Open>
    ensures { result ≡ last_of rows.now }
{
    rows.last().copied()
}

/// Whether the row above is the head of a group.
pub(crate) fn ends_in_head(rows: &[Open]) -> bool
    ensures { result ≡ ends_in_head (last_of rows.now) }
{
    match last_of(rows) {
        Some(row) => row.is_group,
        None => false,
    }
}

/// Returns why a row with this indentation cannot come next, if it cannot.
fn early_stop(rows: &[Open], indent: u64) -> Option<Reason>
    ensures { result ≡ early_stop indent rows.now }
{
    let is_inside = are_narrower(rows, indent);
    if ends_in_head(rows) && !is_inside {
        return Some(Reason::NoMember);
    }
    if is_inside || is_beside(rows, indent) {
        None
    } else {
        Some(Reason::Indentation)
    }
}

/// Adds a group below a feature.
fn place_group(
    growth: &mut Growth,
    indent: u64,
    mut parents: Vec<Open>,
    parent: u16,
    kind: Kind,
) -> Result<(), AllocError>
    requires parent { parent < length growth.old.tree.names }
    requires parents { AllByRecursion (IsNumbered growth.old.tree) parents.items }
    requires none { growth.old.tree.constraints ≡ [] }
    ensures grown { OnOk result (growth_of growth.new
        ≡ with_group (growth_of growth.old) indent parents.items parent kind) }
    ensures numbered { OnOk result (AreNumbered (growth_of growth.new)) }
{
    let number = growth.tree.add_group(parent, kind)?;
    parents.push(Open {
        indent,
        is_group: true,
        number,
    })?;
    growth.open_rows = parents;
    Ok(())
}

/// Adds a feature to a group.
fn place_feature(
    alloc: Global,
    growth: &mut Growth,
    indent: u64,
    mut parents: Vec<Open>,
    group: usize,
    name: &[u8],
) -> Result<(), NameFault>
    requires group { group < length growth.old.tree.groups }
    requires parents { AllByRecursion (IsNumbered growth.old.tree) parents.items }
    requires none { growth.old.tree.constraints ≡ [] }
    ensures grown { OnOk result (growth_of growth.new
        ≡ with_feature (growth_of growth.old) indent parents.items group name.now) }
    ensures numbered { OnOk result (AreNumbered (growth_of growth.new)) }
    ensures added { OnOk result (IsNew growth.old.tree.names name.now × (length growth.old.tree.names < 512)) }
    ensures refused { IfErr result
        (λ fault. fault ≢ NameFault.Memory → IsRefused growth.old.tree.names name.now fault) }
{
    let index = growth.tree.add_feature(alloc, group, name)?;
    let Ok(_) = parents.push(Open {
        indent,
        is_group: false,
        number: index as usize,
    }) else {
        return Err(NameFault::Memory);
    };
    growth.open_rows = parents;
    Ok(())
}

/// Adds an item below a parent, where these rows stay open.
fn place<'t>(
    alloc: Global,
    growth: &mut Growth,
    indent: u64,
    body: &'t [u8],
    parents: Vec<Open>,
    item: Item<'t>,
) -> Result<(), RowError<'t>>
    requires parents { AllByRecursion (IsNumbered growth.old.tree) parents.items }
    requires none { growth.old.tree.constraints ≡ [] }
    requires name { IsItem (item_in item) }
    ensures grown { IfOk result (λ _. placed_below (growth_of growth.old) indent body.now parents.items
        (last_of parents.items) (item_in item.entry) ≡ Ok (growth_of growth.new)) }
    ensures numbered { OnOk result (AreNumbered (growth_of growth.new)) }
    ensures refused { IfErr result (IsRowError (placed_below (growth_of growth.old) indent body.now
        parents.items (last_of parents.items) (item_in item.entry))) }
{
    // The contract of `names` says that there are 512 at most, each once.
    let _names = growth.tree.names();
    let Some(parent) = last_of(&parents) else {
        return Err(RowError::Refused(Stop {
            reason: Reason::Syntax,
            left: body,
        }));
    };
    match item {
        Item::Head(kind) => {
            if parent.is_group {
                return Err(RowError::Refused(Stop {
                    reason: Reason::Syntax,
                    left: body,
                }));
            }
            match place_group(growth, indent, parents, parent.number as u16, kind) {
                Ok(()) => Ok(()),
                Err(_) => Err(RowError::Memory),
            }
        }
        Item::Named(name) => {
            if !parent.is_group {
                return Err(RowError::Refused(Stop {
                    reason: Reason::Syntax,
                    left: body,
                }));
            }
            match place_feature(alloc, growth, indent, parents, parent.number, name) {
                Ok(()) => Ok(()),
                Err(NameFault::Twice { .. }) => Err(RowError::Refused(Stop {
                    reason: Reason::Twice,
                    left: body,
                })),
                Err(NameFault::TooMany) => Err(RowError::Refused(Stop {
                    reason: Reason::TooMany,
                    left: body,
                })),
                Err(NameFault::BadName) => Err(RowError::Refused(Stop {
                    reason: Reason::Name,
                    left: body,
                })),
                Err(NameFault::Memory) => Err(RowError::Memory),
            }
        }
    }
}

/// Adds what a row spells to the tree.
pub(crate) fn grow<'t>(
    alloc: Global,
    growth: &mut Growth,
    bytes: &'t [u8],
) -> Result<(), RowError<'t>>
    requires { AreNumbered (growth_of growth.old) }
    ensures grown { IfOk result (λ _. grown (growth_of growth.old) bytes.now ≡ Ok (growth_of growth.new)) }
    ensures numbered { OnOk result (AreNumbered (growth_of growth.new)) }
    ensures refused { IfErr result (IsRowError (grown (growth_of growth.old) bytes.now)) }
{
    let indent = indentation(bytes);
    let body = after_blanks(bytes);
    if let Some(reason) = early_stop(&growth.open_rows, indent) {
        return Err(RowError::Refused(Stop { reason, left: body }));
    }
    let item = match item_of(body) {
        Ok(item) => item,
        Err(stop) => return Err(RowError::Refused(stop)),
    };
    let Ok(parents) = narrower(alloc, &growth.open_rows, indent) else {
        return Err(RowError::Memory);
    };
    place(alloc, growth, indent, body, parents, item)
}

/// Returns the tree of a root.
fn seed(alloc: Global, indent: u64, name: &[u8]) -> Result<Growth, NameFault>
    ensures { IfOk result (λ g. growth_of g ≡ seed indent name.now) }
{
    let tree = Tree::new(alloc, name)?;
    let mut open_rows = Vec::new(alloc);
    let Ok(_) = open_rows.push(Open {
        indent,
        is_group: false,
        number: 0,
    }) else {
        return Err(NameFault::Memory);
    };
    Ok(Growth { tree, open_rows })
}

/// Returns the tree of the root's row.
pub(crate) fn rooted<'t>(alloc: Global, bytes: &'t [u8]) -> Result<Growth, RowError<'t>>
    ensures rooted { IfOk result (λ g. rooted bytes.now ≡ Ok (growth_of g)) }
    ensures numbered { IfOk result (λ g. AreNumbered (growth_of g)) }
    ensures refused { IfErr result (IsRowError (rooted bytes.now)) }
{
    let indent = indentation(bytes);
    let body = after_blanks(bytes);
    if indent == 0 {
        return Err(RowError::Refused(Stop {
            reason: Reason::Indentation,
            left: body,
        }));
    }
    match item_of(body) {
        Ok(Item::Named(name)) => match seed(alloc, indent, name) {
            Ok(growth) => Ok(growth),
            Err(_) => Err(RowError::Memory),
        },
        Ok(Item::Head(_)) => Err(RowError::Refused(Stop {
            reason: Reason::Syntax,
            left: body,
        })),
        Err(stop) => Err(RowError::Refused(stop)),
    }
}

/// Whether a text is a language level that diagrams have.
fn is_level(body: &[u8]) -> bool
    ensures { result ≡ is_level body.now }
{
    is_head(body, b"Boolean")
        || is_head(body, b"Boolean.*")
        || is_head(body, b"Boolean.group-cardinality")
}

/// Returns why a row before `features` is refused, if it is.
pub(crate) fn front_stop(bytes: &[u8]) -> Option<Stop>
    ensures { stop_in result ≡ front_stop bytes.now }
{
    if indentation(bytes) != 0 {
        let body = after_blanks(bytes);
        if is_level(body) {
            return None;
        }
        return Some(Stop {
            reason: Reason::Level,
            left: body,
        });
    }
    let (word, _) = split_word(bytes);
    if same(word, b"namespace") || is_head(bytes, b"include") {
        return None;
    }
    let reason = if same(word, b"imports") {
        Reason::Import
    } else {
        Reason::Syntax
    };
    Some(Stop {
        reason,
        left: bytes,
    })
}
