//! The laws that a run's answers are true of a system and its requirements.
//!
//! If a run's game is that of a system and of requirements, as `vpg_checking` reads it, its answers to `show`, `assert`
//! and `changed` speak of the requirement of each entry. Hopeless at the entry's vertex: it fails in the system of
//! every product left on the page at that point. Sure: it holds in each. Its answers to `winners` part these products
//! by whether it holds. Its answers to `trace` go by steps of the system. Each is one of every product left on the
//! page, or is marked as depending.
//!
//! [`laws`] has the laws. `specs/Assured`, `specs/Parted` and `specs/Traced` have their words.
//!
//! No code runs here, so there are no trials.
#![tactic(auto)]

pub mod laws;
