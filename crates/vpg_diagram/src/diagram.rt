//! A feature diagram with the names of its features.

ghost use Rattle.std.specs.Prelude.{◌≡◌, ◌↔◌, length, map, IsTrue, IfOk, IfErr, MatchResult, ◌≢◌};
ghost use Rattle.std.specs.List.{AllByRecursion};
ghost use Rattle.vpg_diagram.specs.Clauses.{clauses_of, counts_of, IsClauseBelow, IsCountBelow};
ghost use Rattle.vpg_diagram.specs.DiagramText.{IsNamedDiagram};
ghost use Rattle.vpg_diagram.specs.FeatureDiagram.{feature_count, IsDiagram, IsProduct};
ghost use Rattle.vpg_diagram.specs.LineView.{lines_of};
ghost use Rattle.vpg_diagram.specs.Rules.{IsIndex};

use crate::clause::{Clause, Count};
use crate::fault::DiagramFault;
use crate::index::index_of;
use crate::line::Kept;
use crate::reading::read_text;
use crate::{building, product};
use std::alloc::{AllocError, Global};
use std::marker::Model;
use vpg_features::{Index, Names};

/// A feature diagram: the names of its features, in order, and the lines below its root line.
pub struct Diagram {
    names: Names,
    lines: Vec<Kept>,
    clauses: Vec<Clause>,
    counts: Vec<Count>,
    index: Index,
}

// Not derived: a derived `drop` would be proved again at each exit that owns such a value.
impl Drop for Diagram {
    fn drop(self) {
        let Diagram {
            names: _,
            lines: _,
            clauses: _,
            counts: _,
            index: _,
        } = self;
    }
}

impl Model for Diagram {
    ghost use Rattle.std.specs.Coded.{codes};
    ghost use Rattle.vpg_rules.specs.Coding.{rule_code};
    ghost use Rattle.vpg_diagram.specs.DiagramText.{NamedDiagram};

    ghost Value = { NamedDiagram };

    ghost coded = { Prim.hlevel (codes, rule_code) };

    ghost use Rattle.vpg_diagram.specs.Kept.{IsKept};
    ghost use Rattle.vpg_diagram.specs.LineView.{lines_of};

    ghost view = { λ d. record { names = d.names; lines = lines_of d.lines.items } };

    ghost invariant = { λ d.
        IsKept (record { names = d.names; lines = lines_of d.lines.items }) d.clauses.items d.counts.items d.index };
}

impl Diagram {
    ghost use Rattle.vpg_diagram.specs.DiagramText.{IsTextOf, NamedDiagram};
    ghost use Rattle.vpg_diagram.specs.TextFaults.{IsFirstFault};

    /// Returns the diagram of these names and lines.
    fn of(alloc: Global, names: Names, lines: Vec<Kept>) -> Result<Diagram, AllocError>
        requires { IsNamedDiagram (record { names = names; lines = lines_of lines.items }) }
        ensures { IfOk result (λ d. d ≡ record { names = names; lines = lines_of lines.items }) }
    {
        let clauses = building::clauses_of(alloc, &lines)?;
        let counts = building::counts_of(alloc, &lines)?;
        let index = index_of(alloc, names.len(), &clauses, &counts)?;
        Ok(Diagram {
            names,
            lines,
            clauses,
            counts,
            index,
        })
    }

    /// Returns the diagram that a text spells, of at most 512 features and 16,384 rules. A formula has at
    /// most 64 clauses, and each counts as a rule. If the text is refused, the
    /// fault is the first of the first faulty line, in the order of `DiagramFault`.
    pub fn read(alloc: Global, text: &[u8]) -> Result<Diagram, DiagramFault>
        // The text spells the diagram that is read.
        ensures found { IfOk result (IsTextOf text.now) }
        // A text that is refused spells no diagram within the limits.
        ensures refused { IfErr result
            (λ fault. fault ≢ DiagramFault.Memory → (d : NamedDiagram) → IsTextOf text.now d → ⊥) }
        // The fault is that of the first faulty line, and the first that this line has.
        ensures fault { IfErr result (IsFirstFault text.now) }
        // A diagram that the text spells is read, unless memory runs out.
        ensures only { (d : NamedDiagram) → IsTextOf text.now d →
            MatchResult result (λ read. read ≡ d) (λ fault. fault ≡ DiagramFault.Memory) }
    {
        let reader = match read_text(alloc, text) {
            Ok(reader) => reader,
            Err(fault) => return Err(fault),
        };
        match Diagram::of(alloc, reader.names, reader.lines) {
            Ok(diagram) => Ok(diagram),
            Err(_) => Err(DiagramFault::Memory),
        }
    }

    /// Returns the names of the features, in order. The root is the first.
    pub fn names(&self) -> &Names
        ensures names { result.now ≡ self.now.names }
        ensures diagram { IsNamedDiagram self.now }
    {
        &self.names
    }

    /// Returns the number of features, 1 to 512.
    pub fn features(&self) -> usize
        ensures count { result ≡ feature_count self.now.lines }
        ensures diagram { IsNamedDiagram self.now }
    {
        self.names.len()
    }

    /// Whether a set of features, one value for each feature, is a product.
    pub fn is_product(&self, features: &[bool]) -> bool
        requires { length features.now ≡ feature_count self.now.lines }
        ensures { IsTrue result ↔ IsProduct self.now.lines features.now }
    {
        product::is_product(&self.clauses, &self.counts, features)
    }

    /// Returns the clauses. A set of features is a product if it meets each clause and each count.
    pub fn clauses(&self) -> &[Clause]
        ensures clauses { result.now ≡ clauses_of self.now.lines }
        ensures below { AllByRecursion (IsClauseBelow (feature_count self.now.lines)) result.now }
    {
        &self.clauses
    }

    /// Returns the counts of the or-groups and of the groups with a cardinality.
    pub fn counts(&self) -> &[Count]
        ensures counts { result.now ≡ counts_of self.now.lines }
        ensures below { AllByRecursion (IsCountBelow (feature_count self.now.lines)) result.now }
    {
        &self.counts
    }

    /// Returns for each feature the numbers of the clauses and counts that name it. The clauses have the first numbers,
    /// in order, and then come the counts.
    pub fn index(&self) -> &Index
        ensures { IsIndex (clauses_of self.now.lines) (counts_of self.now.lines) result.now }
    {
        &self.index
    }

    /// Whether two diagrams are the same: with the same names and the same lines, each in the same order.
    pub fn is_same(&self, other: &Diagram) -> bool
        ensures { IsTrue result ↔ (self.now ≡ other.now) }
    {
        same_names(&self.names, &other.names) && same_lines(&self.lines, &other.lines)
    }
}

/// Whether the names are the same, in order.
fn same_names(names: &Names, others: &Names) -> bool
    ensures { IsTrue result ↔ (names.now ≡ others.now) }
{
    if names.len() != others.len() {
        return false;
    }
    for f in 0..names.len() {
        if names.name(f as u16) != others.name(f as u16) {
            return false;
        }
    }
    true
}

/// Whether the lines are the same, in order.
fn same_lines(lines: &[Kept], others: &[Kept]) -> bool
    requires lines { IsDiagram (lines_of lines.now) }
    requires others { IsDiagram (lines_of others.now) }
    ensures { IsTrue result ↔ (lines_of lines.now ≡ lines_of others.now) }
{
    if lines.len() != others.len() {
        return false;
    }
    for place in (0..lines.len()).rev() {
        if !lines[place].is_same(&others[place]) {
            return false;
        }
    }
    true
}
