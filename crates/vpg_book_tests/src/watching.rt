//! Tests of sheets, presses and watches.
mod sheets;
mod steps;
