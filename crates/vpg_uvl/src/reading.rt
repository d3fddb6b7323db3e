//! Reading a feature model.
ghost use Rattle.std.specs.Prelude.{◌≡◌, ◌+◌, ◌<◌, ◌^◌, [], length, IfOk, IfErr, OnOk, MatchResult, Ok, None};
ghost use Rattle.vpg_tree.specs.Tree.{Tree as FeatureTree};
ghost use Rattle.vpg_uvl.specs.Items.{Stop as StopOfRow};
ghost use Rattle.vpg_uvl.specs.Comments.{plain, open_comment};
ghost use Rattle.vpg_uvl.specs.Model.{Spells, IsTextFault, IsFirstFault, IsFaultBehind, fault_at, finished, features_from, features_of, features_after, ReadsBehind};
ghost use Rattle.vpg_uvl.specs.Views.{row_of, rows_left, stop_of, growth_of, AreNumbered, features_in, IsReadingFault};

use crate::comments::{open_comment, plain};
use crate::constraint::constraint;
use crate::fault::{Reason, TextFault, UvlFault};
use crate::growth::{Growth, RowError, ends_in_head, front_stop, grow, rooted};
use crate::item::Stop;
use crate::places::told;
use crate::row::{Cursor, Row, next_row};
use crate::words::is_head;
use std::alloc::Global;
use vpg_tree::Tree;

/// The tree of the rows up to `constraints`, and what is left of the text after that.
#[derive(Drop)]
pub(crate) struct Features<'t> {
    pub(crate) tree: Tree,
    pub(crate) behind: Cursor<'t>,
}

/// Returns the fault of a row.
fn fault_at(row: Row, stop: Stop) -> TextFault
    requires { row.start + length row.bytes.now < 2 ^ 64 }
    ensures { result ≡ fault_at (row_of row.entry) (stop_of stop.entry) }
{
    let before = row.bytes.len().saturating_sub(stop.left.len());
    TextFault::Refused {
        reason: stop.reason,
        at: row.start + before,
    }
}

/// Returns the features that are read, unless the last row is the head of a group.
fn finished(growth: Growth, behind: Cursor, fault: TextFault) -> Result<Features, TextFault>
    ensures features { IfOk result
        (λ f. finished (growth_of growth) (rows_left behind.entry) fault ≡ Ok (features_in f)) }
    ensures same { IfOk result (λ f. f.behind ≡ behind.entry) }
    ensures tree { IfOk result (λ f. f.tree ≡ growth.tree) }
    ensures refused { IfErr result
        (IsReadingFault (finished (growth_of growth) (rows_left behind.entry) fault)) }
{
    if ends_in_head(&growth.open_rows) {
        return Err(fault);
    }
    let Growth { tree, open_rows: _ } = growth;
    Ok(Features { tree, behind })
}

/// Reads the rows below the root's, up to `constraints`.
fn features_from(alloc: Global, mut growth: Growth, cursor: Cursor) -> Result<Features, TextFault>
    requires room { cursor.start + length cursor.rest.now < 2 ^ 64 }
    requires numbered { AreNumbered (growth_of growth) }
    ensures features { IfOk result
        (λ f. features_from (growth_of growth) (rows_left cursor.entry) ≡ Ok (features_in f)) }
    ensures room { IfOk result (λ f. f.behind.start + length f.behind.rest.now < 2 ^ 64) }
    ensures none { IfOk result (λ f. f.tree.constraints ≡ []) }
    ensures refused { IfErr result
        (IsReadingFault (features_from (growth_of growth) (rows_left cursor.entry))) }
{
    let mut left = cursor;
    while let Some(next) = next_row(left) {
        left = next.behind;
        let row = next.row;
        if is_head(row.bytes, b"constraints") {
            let fault = TextFault::Refused {
                reason: Reason::NoMember,
                at: row.start,
            };
            return finished(growth, left, fault);
        }
        match grow(alloc, &mut growth, row.bytes) {
            Ok(()) => {}
            Err(RowError::Memory) => return Err(TextFault::Memory),
            Err(RowError::Refused(stop)) => return Err(fault_at(row, stop)),
        }
    }
    finished(growth, left, TextFault::Ended)
}

/// Reads the rows below `features`.
fn features_of(alloc: Global, cursor: Cursor) -> Result<Features, TextFault>
    requires { cursor.start + length cursor.rest.now < 2 ^ 64 }
    ensures features { IfOk result (λ f. features_of (rows_left cursor.entry) ≡ Ok (features_in f)) }
    ensures room { IfOk result (λ f. f.behind.start + length f.behind.rest.now < 2 ^ 64) }
    ensures none { IfOk result (λ f. f.tree.constraints ≡ []) }
    ensures refused { IfErr result (IsReadingFault (features_of (rows_left cursor.entry))) }
{
    let Some(next) = next_row(cursor) else {
        return Err(TextFault::Ended);
    };
    let row = next.row;
    match rooted(alloc, row.bytes) {
        Ok(growth) => features_from(alloc, growth, next.behind),
        Err(RowError::Memory) => Err(TextFault::Memory),
        Err(RowError::Refused(stop)) => Err(fault_at(row, stop)),
    }
}

/// Reads the rows up to `constraints`.
fn features_after(alloc: Global, cursor: Cursor) -> Result<Features, TextFault>
    requires { cursor.start + length cursor.rest.now < 2 ^ 64 }
    ensures features { IfOk result (λ f. features_after (rows_left cursor.entry) ≡ Ok (features_in f)) }
    ensures room { IfOk result (λ f. f.behind.start + length f.behind.rest.now < 2 ^ 64) }
    ensures none { IfOk result (λ f. f.tree.constraints ≡ []) }
    ensures refused { IfErr result (IsReadingFault (features_after (rows_left cursor.entry))) }
{
    let mut left = cursor;
    while let Some(next) = next_row(left) {
        left = next.behind;
        let row = next.row;
        if is_head(row.bytes, b"features") {
            return features_of(alloc, left);
        }
        if let Some(stop) = front_stop(row.bytes) {
            return Err(fault_at(row, stop));
        }
    }
    Err(TextFault::Ended)
}

/// Reads the constraints of a tree that has none.
fn read_constraints(alloc: Global, tree: &mut Tree, cursor: Cursor) -> Result<(), TextFault>
    requires room { cursor.start + length cursor.rest.now < 2 ^ 64 }
    requires none { tree.old.constraints ≡ [] }
    ensures read { OnOk result (ReadsBehind tree.old (rows_left cursor.entry) tree.new) }
    ensures refused { IfErr result (IsFaultBehind tree.old.names (rows_left cursor.entry)) }
{
    let mut left = cursor;
    while let Some(next) = next_row(left) {
        left = next.behind;
        let rule = match constraint(alloc, tree.names(), next.row) {
            Ok(rule) => rule,
            Err(fault) => return Err(fault),
        };
        let Ok(_) = tree.add_constraint(rule) else {
            return Err(TextFault::Memory);
        };
    }
    Ok(())
}

/// Returns the tree of the features with the constraints after them.
fn with_constraints(alloc: Global, features: Features) -> Result<Tree, TextFault>
    requires room { features.behind.start + length features.behind.rest.now < 2 ^ 64 }
    requires none { features.tree.constraints ≡ [] }
    ensures read { IfOk result (ReadsBehind features.entry.tree (rows_left features.entry.behind)) }
    ensures refused { IfErr result
        (IsFaultBehind features.entry.tree.names (rows_left features.entry.behind)) }
{
    let Features { mut tree, behind } = features;
    match read_constraints(alloc, &mut tree, behind) {
        Ok(()) => Ok(tree),
        Err(fault) => Err(fault),
    }
}

/// Returns the feature tree of a text whose comments end, by the text without them.
fn read_plain(alloc: Global, text: &[u8], bytes: &[u8]) -> Result<Tree, TextFault>
    requires closed { open_comment text.now ≡ None }
    requires plain { bytes.now ≡ plain text.now }
    ensures found { IfOk result (Spells text.now) }
    ensures only { (tree : FeatureTree) → Spells text.now tree →
        MatchResult result (λ read. read ≡ tree) (λ fault. fault ≡ TextFault.Memory) }
    ensures fault { IfErr result (IsTextFault text.now) }
{
    let start = Cursor {
        rest: bytes,
        start: 0,
    };
    let features = match features_after(alloc, start) {
        Ok(features) => features,
        Err(fault) => return Err(fault),
    };
    match with_constraints(alloc, features) {
        Ok(tree) => Ok(tree),
        Err(fault) => Err(fault),
    }
}

/// Returns the feature tree that a text spells.
fn read_text(alloc: Global, text: &[u8]) -> Result<Tree, TextFault>
    ensures found { IfOk result (Spells text.now) }
    ensures only { (tree : FeatureTree) → Spells text.now tree →
        MatchResult result (λ read. read ≡ tree) (λ fault. fault ≡ TextFault.Memory) }
    ensures fault { IfErr result (IsTextFault text.now) }
{
    if let Some(at) = open_comment(text) {
        return Err(TextFault::Refused {
            reason: Reason::Comment,
            at,
        });
    }
    let Ok(bytes) = plain(alloc, text) else {
        return Err(TextFault::Memory);
    };
    read_plain(alloc, text, &bytes)
}

/// Returns the feature tree that a text in UVL spells.
///
/// Read are `features`, with one root, and `constraints`; see the head of the crate. If the text is refused, the fault
/// is a comment without an end, or else the first one of the text. Diagrams have at most 512 features, and names of at
/// most 64 bytes; so have the trees that are read. At most 64 signs are open at one place of a constraint. Where it
/// has a chain of `=>`, each of these is open on both of its sides. How deep features nest is not limited.
pub fn read(alloc: Global, text: &[u8]) -> Result<Tree, UvlFault>
    // The text spells the tree that is read.
    ensures found { IfOk result (Spells text.now) }
    // A tree that the text spells is read, unless memory runs out.
    ensures only { (tree : FeatureTree) → Spells text.now tree →
        MatchResult result (λ read. read ≡ tree) (λ fault. fault ≡ UvlFault.Memory) }
    // The fault is the first one of the text.
    ensures fault { IfErr result (IsFirstFault text.now) }
{
    match read_text(alloc, text) {
        Ok(tree) => Ok(tree),
        Err(fault) => Err(told(text, fault)),
    }
}
