//! Adds to what is known of features what the rules say.
ghost use Rattle.std.specs.Prelude.{◌≡◌, ◌<◌, [], ◌∷◌, length, map, IfOk, IsTrue, IsSome, slice_index_or, List, Bool};
ghost use Rattle.std.specs.List.{AllByRecursion};
ghost use Rattle.vpg_guards.specs.declared.tri.Tri.TheVariants.{Unknown};
ghost use Rattle.vpg_diagram.specs.FeatureDiagram.{feature_count};
ghost use Rattle.vpg_partial.specs.Known.{literal_of};
ghost use Rattle.vpg_partial.specs.TableLaws.{AreChoicesOf};
ghost use Rattle.vpg_products.specs.Growing.{GrowsBy, GrowsWith, LeavesNone, AreRefuted, tri_of};

use crate::stepping::{Step, step_at};
use crate::trail::Trail;
use std::alloc::{AllocError, Global};
use vpg_diagram::Diagram;
use vpg_guards::Tri;
use vpg_partial::Decision;

// The known value for a choice.
fn tri_of(value: bool) -> Tri
    ensures { result ≡ tri_of value }
{
    if value { Tri::Yes } else { Tri::No }
}

// Adds what the rule of the number says. Returns whether it fails.
fn visit(
    diagram: &Diagram,
    number: usize,
    known: &mut [Tri],
    trail: &mut Trail,
) -> Result<bool, AllocError>
    requires { length known.old ≡ feature_count diagram.now.lines }
    ensures grows { GrowsBy diagram.now.lines known.old known.new }
    ensures fails { IfOk result (λ fails. IsTrue fails → LeavesNone diagram.now.lines known.old) }
{
    let _features = diagram.features();
    match step_at(diagram.clauses(), diagram.counts(), number, known) {
        Step::Nothing => Ok(false),
        Step::Fails => Ok(true),
        Step::Adds(literal) => {
            known[literal.feature as usize] = tri_of(literal.value);
            trail.note(literal.feature, Some(number))?;
            Ok(false)
        }
    }
}

// Adds what the rules of these numbers say, one after another. Returns the number of the first that fails.
fn visit_each(
    diagram: &Diagram,
    numbers: &[usize],
    known: &mut [Tri],
    trail: &mut Trail,
) -> Result<Option<usize>, AllocError>
    requires { length known.old ≡ feature_count diagram.now.lines }
    ensures grows { GrowsBy diagram.now.lines known.old known.new }
    ensures fails { IfOk result (λ failed. IsSome failed → LeavesNone diagram.now.lines known.old) }
{
    for number in numbers {
        if visit(diagram, *number, known, trail)? {
            return Ok(Some(*number));
        }
    }
    Ok(None)
}

// Adds what the rules of waiting features say, until none waits. Returns the number of the first rule that fails.
fn grow_on(
    diagram: &Diagram,
    known: &mut [Tri],
    trail: &mut Trail,
) -> Result<Option<usize>, AllocError>
    requires { length known.old ≡ feature_count diagram.now.lines }
    ensures grows { GrowsBy diagram.now.lines known.old known.new }
    ensures fails { IfOk result (λ failed. IsSome failed → LeavesNone diagram.now.lines known.old) }
{
    for _ in 0..known.len() {
        let Some(feature) = trail.next() else {
            return Ok(None);
        };
        let numbers = diagram.index().numbers(feature);
        trail.count(numbers.len());
        let failed = visit_each(diagram, numbers, known, trail)?;
        if failed.is_some() {
            return Ok(failed);
        }
    }
    Ok(None)
}

/// Adds to what is known what the rules say that name a feature, and those that name a feature that they make known,
/// and so on. Returns the number of a rule that fails, if one does: the clauses of the diagram have the first numbers,
/// and then come its counts. No product agrees then with what was known.
///
/// The trail notes the feature, and each that becomes known, and counts the visits of rules. The only error is a lack
/// of memory.
pub fn grow(
    diagram: &Diagram,
    known: &mut [Tri],
    feature: u16,
    trail: &mut Trail,
) -> Result<Option<usize>, AllocError>
    requires { length known.old ≡ feature_count diagram.now.lines }
    ensures grows { GrowsBy diagram.now.lines known.old known.new }
    ensures fails { IfOk result (λ failed. IsSome failed → LeavesNone diagram.now.lines known.old) }
{
    trail.stop();
    trail.note(feature, None)?;
    grow_on(diagram, known, trail)
}

// Adds a decision to what is known, and what follows. Returns whether it is refuted.
fn decide(
    diagram: &Diagram,
    decision: Decision,
    known: &mut [Tri],
    trail: &mut Trail,
) -> Result<bool, AllocError>
    requires length { length known.old ≡ feature_count diagram.now.lines }
    requires named { decision.feature < feature_count diagram.now.lines }
    ensures length { length known.new ≡ length known.old }
    ensures kept { GrowsWith diagram.now.lines (literal_of decision) known.old known.new }
    ensures refuted { IfOk result (λ refuted. IsTrue refuted →
        AreRefuted diagram.now.lines known.old (literal_of decision ∷ [])) }
{
    let value = tri_of(decision.value);
    let now = known[decision.feature as usize];
    if now == value {
        return Ok(false);
    }
    if now != Tri::Unknown {
        return Ok(true);
    }
    known[decision.feature as usize] = value;
    let failed = grow(diagram, known, decision.feature, trail)?;
    Ok(failed.is_some())
}

/// Whether it was shown that no product agrees both with what is known and with the decisions. The trail notes what
/// becomes known. The only error is a lack of memory.
pub fn is_refuted(
    alloc: Global,
    diagram: &Diagram,
    known: &[Tri],
    decisions: &[Decision],
    trail: &mut Trail,
) -> Result<bool, AllocError>
    requires length { length known.now ≡ feature_count diagram.now.lines }
    requires named { AreChoicesOf diagram.now.lines (map literal_of decisions.now) }
    ensures { IfOk result (λ refuted. IsTrue refuted →
        AreRefuted diagram.now.lines known.now (map literal_of decisions.now)) }
{
    let mut more = Vec::from_slice(alloc, known)?;
    for decision in decisions {
        if decide(diagram, *decision, &mut more, trail)? {
            return Ok(true);
        }
    }
    Ok(false)
}
