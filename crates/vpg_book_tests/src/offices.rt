//! Tests of offices.
mod changes;
mod hands;
mod logs;
mod offices;
mod steps;
mod threads;
mod watchers;
