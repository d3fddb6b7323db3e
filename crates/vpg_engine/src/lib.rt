//! Engines: they make the calls of a script's lines at an office, and write the answers.
//!
//! The crate of runs above opens an [`Engine`], has one of its functions carry each line out, takes an order of the
//! page that a script leaves, and ends the engine. It looks at pages under the same `LIMITS`, and `put_missing` writes
//! for it the refusal of a look for which something is missing.
//!
//! Looks at the page are answered in the crate of answers, and orders are swept in the crate of settling.
//!
//! A [`Client`] is one caller who serves an office alone, for several labels. Each label is a session of the office:
//! label N is session number N. A client joins the sessions as their labels first come, lends one front to all of them,
//! and makes their calls (`vpg_office::Call`). Contracts see it as the desk that it serves, with a count of calls. Each
//! answered call is one step of that desk, as of a desk without an office. A [`ClientFault`] is what a desk alone never
//! meets: the log is full, or it has a call that this client did not make. (No contract of an office says that nobody
//! else is in its log, so the client finds out as the calls come.)
//!
//! An [`Engine`] is a client with what lines leave to later ones. It holds tokens and harvests until later lines use
//! them up, and the verdicts of a `changed` until the next one compares with them. One of its functions is for all
//! looks: it resolves the look, takes the page with its games or an order, and writes the answer.
//!
//! A client's state and its calls are defined in `specs/Client`, and its refused calls in `specs/Faults`. The tokens,
//! harvests and verdicts that lines leave are defined in `specs/Held`, the calls on a desk's book and their answers in
//! `specs/Answers`, with looks in `specs/Requests`, and their effect on the book in `specs/Line`. `specs/Made` defines
//! how harvests were made, and `specs/Engine` how an engine serves a line. All are this project's own.
//!
//! Trials: `scripts` and `refusals` of `vpg_examples`, by runs; the texts of faults in its `scripts/faults`.
#![tactic(auto)]

mod answers;
mod calls;
mod client;
mod engine;
mod fault;
mod held;
mod lines;

pub use client::{Client, NotEnded};
pub use engine::{Engine, LIMITS};
pub use fault::{Back, ClientFault};
pub use lines::put_missing;
