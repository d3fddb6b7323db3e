//! Fronts, as far as sheets need them: the trait of a type that sheets may stand for.
ghost use Rattle.std.specs.Prelude.{◌≡◌, ◌≤◌, ℕ, Bool, List};
ghost use Rattle.vpg_sides.specs.declared.verdict.Verdict.{Verdict};

/// A front: a number of first calls of some row of calls. A row only grows at its end, so of two fronts of one row one
/// begins with the other.
///
/// An impl gives four definitions and one function, and proves five laws of them.
pub trait Follows: Drop {
    /// `begins later earlier`: the first front begins with the second, which is of the same row.
    ghost begins: { Self → Self → Type 0 };

    /// The front that has no call.
    ghost empty: { Self };

    /// The number of calls of a front.
    ghost calls: { Self → ℕ };

    /// `belongs front at settled verdicts`: the right content of a sheet of the front. It fixes the number of calls,
    /// whether the page to which they lead is settled, and the verdicts of that page.
    ghost belongs: { Self → ℕ → Bool → List Verdict → Type 0 };

    /// Returns the number of calls.
    fn len(&self) -> usize
        ensures { result ≡ calls self.now };

    /// Each front begins with the one that has no call.
    ghost from_empty: { (f : Self) → begins f empty };

    /// Each front begins with itself.
    ghost itself: { (f : Self) → begins f f };

    /// A front begins with all that its beginnings begin with.
    ghost through: { (f g h : Self) → begins f g → begins g h → begins f h };

    /// No front is shorter than its beginnings.
    ghost grows: { (f g : Self) → begins f g → calls g ≤ calls f };

    /// A sheet of a front has the right number of calls.
    ghost counted: { (f : Self) (at : ℕ) (settled : Bool) (verdicts : List Verdict) → belongs f at settled verdicts →
        at ≡ calls f };
}
