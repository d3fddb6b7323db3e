//! The model-checking game of a family, from the texts of its system and of its requirements.
//!
//! [`Model::read`] reads both texts and returns the game, with a vertex for each requirement. In each product of the
//! family Even wins there exactly if the requirement holds at the first state of the product's system. So a desk over
//! the game shows for each requirement in which products it holds. [`Model::write`] writes the game's text.
//!
//! If the game is read from its text, a [`Behaviour`] keeps the rest of the model: all that reports of the system's
//! steps need.
//!
//! The definitions stand in `specs/`: `Checking`, the game of the two texts; `Faults`, why there is none; `Texts`, the
//! texts that are written; `Behaviours`, the origin of a game.
//!
//! Trials: tests of `vpg_family_tests` (`family/models`).
#![tactic(auto)]

mod behaviour;
mod fault;
mod model;
mod text;

pub use behaviour::Behaviour;
pub use fault::CheckingFault;
pub use model::Model;
