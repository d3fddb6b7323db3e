//! Invariants of every run of a board, and that its atomic steps are the steps of runs. Each law is the contract of a
//! function that does nothing.

ghost use Rattle.std.specs.Prelude.{◌≡◌, ◌≢◌, ◌<◌, ◌≤◌, ◌+◌, ◌-◌, ℕ, List, [], ◌∷◌, true};
ghost use mathlib.Core.Option.{some};
ghost use lib.ListN.{get_elem?};
ghost use Rattle.atomic_table.specs.Table.{State, opening};
ghost use Rattle.vpg_measure.specs.Orders.{OrderView, IsOrder};
ghost use Rattle.vpg_board.specs.declared.lifter.Lifter.{Lifter};
ghost use Rattle.vpg_board.specs.Lifters.{opener};
ghost use Rattle.vpg_board.specs.Places.{places, values};
ghost use Rattle.vpg_board.specs.Run.{Move, load, raise, claim, split, join, ran, IsRun, IsBoardRun};
ghost use Rattle.vpg_board.specs.Rule.{MeasuresKept, ClaimsCounted, ClaimsKept, times};
ghost use Rattle.vpg_board.specs.Taken.{IsOnBoard};
ghost use Rattle.vpg_board.specs.Joins.{IsOfRun};
ghost use Rattle.vpg_board.specs.Steps.{IsBoard, Leads, after_load, after_raise, after_claim, after_split, after_join};

/// Any steps of any lifters keep the measures: no word falls below a value that a seat has seen, and each stays below
/// every progress table.
pub fn every_run_keeps_the_measures()
    ensures { (order : OrderView) (run : List Move) → IsOrder order → IsRun order run →
        MeasuresKept order (ran order run) }
{}

/// Any steps of any lifters keep the counts. Each place below the claim number is claimed by one seat, and no other
/// number is a claim. The empty claims are those past the places. The seats stood for are one more than the splits.
pub fn every_run_keeps_the_counts()
    ensures { (order : OrderView) (run : List Move) → IsRun order run → ClaimsCounted order (ran order run) }
{}

/// If lifters claim until they find no place left, and the opening one alone splits, at most 63 times, none has more
/// empty claims than seats that it stands for. So a seat has at most one for itself. This holds of such runs alone. If
/// lifters went on claiming after their first empty claim, one could have any number of them. Seats never go on.
pub fn every_board_run_keeps_the_claims()
    ensures run { (order : OrderView) (run : List Move) → IsBoardRun order run → IsRun order run }
    ensures claims { (order : OrderView) (run : List Move) → IsBoardRun order run → ClaimsKept order (ran order run) }
{}

/// The knowledge of a seat comes from one run, and all its joins are steps of that run. So before a join, lifters of
/// that board knew what both its seats knew. `Board::close` adds that the words come from this run too.
pub fn joined_seats_are_of_one_run()
    ensures { (v : Lifter) → IsOnBoard v → (run : List Move) × IsOfRun v.order run v }
{}

/// Two lifters of one board have no claim in common.
pub fn two_lifters_claim_apart()
    ensures { (order : OrderView) (run : List Move) (i j : ℕ) (v w : Lifter) → IsBoardRun order run →
        get_elem? (ran order run).lifters i ≡ some v → get_elem? (ran order run).lifters j ≡ some w → j ≢ i →
        (n : ℕ) → times n v.claims + times n w.claims ≤ 1 }
{}

/// An atomic load of a measure is the step `load`: the words and seats show a board, and then the board after that
/// step.
pub fn loads_are_steps()
    ensures { (order : OrderView) (s : State (Unit {0}) Lifter) (id word : ℕ) (v : Lifter) → IsBoard order s →
        get_elem? s.views id ≡ some v → 0 < v.stands
        → 0 < word → word - 1 < places order → Leads order (load id (word - 1)) s (after_load s id v word) }
{}

/// An atomic maximum of a measure and the lift of the values that the seat has seen is the step `raise`.
pub fn raises_are_steps()
    ensures { (order : OrderView) (s : State (Unit {0}) Lifter) (id word : ℕ) (v : Lifter) → IsBoard order s →
        get_elem? s.views id ≡ some v → 0 < v.stands
        → 0 < word → word - 1 < places order → Leads order (raise id (word - 1)) s (after_raise s id v order word) }
{}

/// An atomic sum of the first word and one is the step `claim`.
pub fn claims_are_steps()
    ensures { (order : OrderView) (s : State (Unit {0}) Lifter) (id : ℕ) (v : Lifter) → IsOrder order →
        IsBoard order s → get_elem? s.views id ≡ some v → 0 < v.stands
        → v.empty ≡ 0 → Leads order (claim id) s (after_claim s id v) }
{}

/// A new seat beside the opening one is the step `split`.
pub fn splits_are_steps()
    ensures { (order : OrderView) (s : State (Unit {0}) Lifter) (id : ℕ) (v : Lifter) → IsBoard order s →
        get_elem? s.views id ≡ some v → 0 < v.stands
        → v.opening ≡ true → v.splits < 63 → Leads order (split id) s (after_split s id v) }
{}

/// A seat that merges another is the step `join`.
pub fn joins_are_steps()
    ensures { (order : OrderView) (s : State (Unit {0}) Lifter) (id other : ℕ) (v w : Lifter) → IsBoard order s →
        get_elem? s.views id ≡ some v → 0 < v.stands
        → ¬ (other ≡ id) → get_elem? s.views other ≡ some w → 0 < w.stands →
        Leads order (join id other) s (after_join s id v other w) }
{}

/// The state after a step shows a board that some run reached, and so does an order's opening.
pub fn steps_stay_on_boards()
    ensures opening { (order : OrderView) → IsBoard order (opening (0 ∷ values order) [] (opener order)) }
    ensures steps { (order : OrderView) (m : Move) (s t : State (Unit {0}) Lifter) → Leads order m s t →
        IsBoard order t }
{}
