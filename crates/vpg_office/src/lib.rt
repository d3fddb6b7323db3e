//! Offices: one desk that several sessions share, each of their calls one event under a lock.
//!
//! A session makes each [`Call`] by `Session::call`, and lends it a front: a beginning of the log, which contracts see
//! as a legal history of the desk (`vpg_desk`). The front grows to end with the call. Tokens carry the place of the
//! call that gave them. `with_office` opens an office for a caller's work; `close` and `end` end it. Each change of
//! the page publishes a sheet, which watches (`Office::watch`) read without the lock (`read`). Definitions:
//! `specs/Fronts.antt` (histories and how a call extends them), `specs/Faults.antt` (refused calls),
//! `specs/Token.antt`, `specs/Sheets.antt` (the meaning of a sheet). The parts under the lock are in
//! `specs/Kept.antt`, `specs/Locked.antt`, `specs/Story.antt` and `specs/Told.antt`, and the effect of a call on them
//! in `specs/Made.antt`.
//!
//! Trials: tests of `vpg_book_tests` (`offices`), calls with little memory in `vpg_refusals` (`office_calls`), and the
//! calls of `vpg_play`.
#![tactic(auto)]

mod alike;
mod asked;
mod calls;
mod changes;
mod chronicle;
mod closing;
mod commits;
mod ended;
mod fault;
mod front;
mod kind;
mod log;
mod looks;
mod office;
mod publishing;
mod purse;
mod replay;
mod session;
mod sharing;
mod site;
mod terms;
mod token;
mod tokens;
mod unshared;
mod work;

pub use calls::Call;
pub use changes::{DecideCall, ResetCall, RetractCall};
pub use commits::CommitCall;
pub use ended::{Ended, no_redo_is_out, no_undo_is_out};
pub use fault::{Fault, NotWatched};
pub use front::Front;
pub use kind::Kind;
pub use looks::{OrderCall, PageCall, SettledCall, VerdictCall};
pub use office::{NotOpened, Office, TokensOut, TooManySessions};
pub use publishing::read;
pub use session::Session;
pub use sharing::may_be_shared;
pub use site::Site;
pub use terms::Terms;
pub use token::{Redo, Token, Undo};
pub use tokens::{ForgetCall, KeepCall, RedoCall, SpendCall, UndoCall};
pub use unshared::Unshared;
pub use work::{NotBegun, Work, with_office};
