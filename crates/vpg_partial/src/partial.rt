//! The known value of each feature.

ghost use Rattle.std.specs.Prelude.{◌≡◌, ◌↔◌, ◌<◌, Bool, List, length, map, true, IsTrue, IsSome, IfOk, IfErr, IfSome, OnErr, slice_index_or};
ghost use Rattle.vpg_guards.specs.Known.{AreAllKnown, IsCompletion};
ghost use Rattle.vpg_guards.specs.declared.tri.Tri.TheVariants.{Unknown};
ghost use Rattle.vpg_diagram.specs.FeatureDiagram.{Line, IsDiagram, feature_count};
ghost use Rattle.vpg_diagram.specs.Clauses.{clauses_of, counts_of};
ghost use Rattle.vpg_diagram.specs.declared.clause.Literal.{Literal};
ghost use Rattle.vpg_partial.specs.Known.{literal_of, IsFullConfiguration};
ghost use Rattle.vpg_partial.specs.KnownTable.{is_known_as};
ghost use Rattle.vpg_partial.specs.KnownLaws.{IsRemaining};
ghost use Rattle.vpg_partial.specs.TableLaws.{AreChoicesOf, IsKnownTable, IsOnlyRemaining};
ghost use Rattle.vpg_partial.specs.CloseFaults.{IsCloseFault, LeavesNoProduct};

use crate::decision::Decision;
use crate::fault::PartialFault;
use crate::propagation::decide_all;
use std::alloc::{AllocError, Global};
use std::marker::Model;
use vpg_diagram::Diagram;
use vpg_guards::Tri;

/// Returns for each value whether it says that the feature is in.
fn features_in(alloc: Global, values: &[Tri]) -> Result<Vec<bool>, AllocError>
    ensures { IfOk result (λ features. features.items ≡ map (λ value. is_known_as value true) values.now) }
{
    values
        .iter()
        .map(|value| match value {
            Tri::No | Tri::Unknown => false,
            Tri::Yes => true,
        })
        .collect(alloc)
}

/// The values that are known of each feature of a diagram, in the diagram's order.
#[derive(Debug)]
pub struct Partial {
    values: Vec<Tri>,
}

// Not derived: a derived `drop` would be proved again at each exit that owns such a value.
impl Drop for Partial {
    fn drop(self) {
        let Partial { values: _ } = self;
    }
}

impl Model for Partial {
    ghost use Rattle.std.specs.Prelude.{List};
    ghost use Rattle.vpg_guards.specs.declared.tri.Tri.{Tri};

    ghost Value = { List Tri };

    ghost view = { λ p. p.values.items };
}

impl Partial {
    /// Returns what the decisions make known: the least set of literals that has each decision and is closed under the
    /// rules. The rules are the unit rule at each clause and the counting rule at each count of the diagram (this
    /// project's own).
    ///
    /// Each decision is of a feature of the diagram. Errors, in this order: `Conflict` if a feature is known both ways,
    /// named by the first decision up to which there is a conflict (by the root, if the diagram alone has one);
    /// `Memory`.
    pub fn close(
        alloc: Global,
        diagram: &Diagram,
        decisions: &[Decision],
    ) -> Result<Partial, PartialFault>
        requires { AreChoicesOf diagram.now.lines (map literal_of decisions.now) }
        ensures known { IfOk result (IsKnownTable diagram.now.lines (map literal_of decisions.now)) }

        // Every product that agrees with the decisions agrees with what is known.
        ensures agrees { (features : List Bool) →
            IsRemaining diagram.now.lines (map literal_of decisions.now) features →
            IfOk result (λ known. IsCompletion known features) }

        ensures conflict { IfErr result (IsCloseFault diagram.now.lines (map literal_of decisions.now)) }
        ensures no_product { IfErr result (LeavesNoProduct diagram.now.lines (map literal_of decisions.now)) }
    {
        let features = diagram.features();
        let clauses = diagram.clauses();
        let counts = diagram.counts();
        let index = diagram.index();
        let mut values = vec![in alloc; Tri::Unknown; features]?;
        let mut waiting = Vec::new(alloc);
        decide_all(clauses, counts, index, decisions, &mut values, &mut waiting)?;
        Ok(Partial { values })
    }

    /// Returns what is known of each feature.
    pub fn values(&self) -> &[Tri]
        ensures { result.now ≡ self.now }
    {
        self.values.as_slice()
    }

    /// Returns what is known of the feature, which is one of the diagram's.
    pub fn value(&self, feature: u16) -> Tri
        requires { feature < length self.now }
        ensures { result ≡ slice_index_or self.now feature Unknown }
    {
        self.values[feature as usize]
    }

    /// Whether each feature is known to be in or out.
    pub fn is_full(&self) -> bool
        ensures known { IsTrue result ↔ AreAllKnown (length self.now) self.now }
        ensures full { (lines : List Line) (choices : List Literal) → IsKnownTable lines choices self.now →
            IsTrue result ↔ IsFullConfiguration (clauses_of lines) (counts_of lines) choices (feature_count lines) }
    {
        self.values.iter().all(|value| *value != Tri::Unknown)
    }

    /// Returns the one product that agrees with the decisions, if each feature is known: for each feature whether it is
    /// in.
    pub fn product(&self, alloc: Global) -> Result<Option<Vec<bool>>, AllocError>
        ensures full { IfOk result (λ found. IsSome found ↔ AreAllKnown (length self.now) self.now) }
        ensures product { (lines : List Line) (choices : List Literal) → IsDiagram lines → AreChoicesOf lines choices →
            IsKnownTable lines choices self.now →
            IfOk result (λ found. IfSome found (λ features. IsOnlyRemaining lines choices features.items)) }

        // Memory can run out only if there is a product to be made.
        ensures last { OnErr result (AreAllKnown (length self.now) self.now) }
    {
        if !self.is_full() {
            return Ok(None);
        }
        Ok(Some(features_in(alloc, &self.values)?))
    }
}
