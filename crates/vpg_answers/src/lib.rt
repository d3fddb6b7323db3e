//! Answers about a page, as texts.
//!
//! A `Look` of a script's line is first resolved: `topic_of` returns the same look by places in the game and the
//! diagram, a `Topic`, or what is `Missing` for it. Most answers take an order of the page, and search (`takes_order`):
//! `answer` appends them. The others take the page with its games, and `look` appends them. Each look is a module of
//! `vpg_looks`, or a text of `vpg_texts`. The layer above answers lines of scripts by these; they change nothing.
//!
//! Each look has one entry in `specs/Told`: its meaning, which is what its answer says of the page, with the law that
//! there is one such answer. And it has one arm in `answer` or `look`.
//!
//! Both take names of vertices, none if none are asked for. A line about a vertex, or about a move of two, ends with
//! them, and pictures show them.
//!
//! An answer is a function of the page if no limit was met (`laws::answers_are_one`), and none is met if the limits
//! leave room. Numbers of parts then add up (`laws::numbers_add_up`). If one was met, the text says so.
//!
//! Looks by places are defined in `specs/Topics`, and the answer to each in `specs/Told`. `specs/Laws` and
//! `specs/Adding` have the laws. All are this project's own.
//!
//! Trials: scripts of `vpg_examples` (`scripts/rows`).
#![tactic(auto)]

mod answering;
pub mod laws;
mod looking;
mod topic;

pub use answering::answer;
pub use looking::look;
pub use topic::{Missing, Topic, takes_order, topic_of};
