//! Calls made with little memory.
//!
//! The libraries allocate from the C library, and nothing else can be handed to them in its place. So memory is refused
//! here as a machine refuses it: [`Heap`] takes every block that the process can get and gives a number of bytes back;
//! a call is made with those alone. [`tried`] makes a call again and again, first with none, then with sixteen bytes
//! more each time, until it is done. So each growth beyond all that the call held before is refused in turn, and after
//! each refusal the call's [`Trial`] says whether anything changed. [`tried_anew`] does so for a call that is made on
//! things of its own each time ([`Anew`]). [`Report`] writes a line for each call. Those of an office and its sessions
//! are values ([`OfficeCall`]).
//!
//! Memory that is only taken and never written costs a process address space and no more.
//!
//! A heap may also be *marked*: then it takes nothing, and allocates a block of an unusual size before a call and after
//! it. `bench/refused.py` sees these sizes, and refuses each allocation between two marks in turn.
#![tactic(auto)]

mod heap;
mod office;
mod pages;
mod report;
mod trial;

pub use heap::Heap;
pub use office::{HeldToken, OfficeCall, Seat, end_of, joined, made, serial_of, spent};
pub use pages::is_same_page;
pub use report::Report;
pub use trial::{
    Anew, End, Finding, MOST_TRIES, Outcome, Trial, more, tried, tried_anew, tried_through,
};
