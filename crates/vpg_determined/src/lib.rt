//! The determinacy of parity games.
//!
//! From each vertex of a closed game one of the two players wins, by a positional strategy. One strategy serves both
//! players and every vertex. So if no strategy of Even wins, Odd does, and wins every play, whatever Even does.
//!
//! For a product line it says that a verdict has moves. If Even can't win the hopeful game, Odd wins it, and by the
//! same moves the game of every product that agrees with what is known. So does Even at a sure vertex. No vertex is
//! both. The layers above use it: the desk for the meaning of a verdict, the answers for moves that always exist.
//!
//! Definitions: `specs/Determined` (games), `specs/Plays` (plays), `specs/ProductLaws` (product lines). The laws stand
//! in [`laws`]; no code runs. The proof follows Zielonka 1998. `proofs/Dominions` has sets from which a player wins a
//! part of a game, and how they join. `proofs/Growing` has attractors, a vertex at a time, and `proofs/Solved` and
//! `proofs/Solving` the recursion.
//!
//! No code runs here, so there are no trials.
#![tactic(auto)]

pub mod laws;
