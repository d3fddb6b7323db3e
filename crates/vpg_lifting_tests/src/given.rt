//! Values that a test is given, or stops without.

use std::process::Abort;

/// Returns the value of a call that isn't refused. It stops a test that is refused.
pub fn given<T, F>(rt: &impl Abort, answer: Result<T, F>) -> T {
    match answer {
        Ok(given) => given,
        Err(_) => rt.panic("refused"),
    }
}

/// Stops a test if this doesn't hold. It takes the prover less than `assert!`, which names the line.
pub fn require(rt: &impl Abort, holds: bool, why: &str) {
    if !holds {
        rt.panic(why)
    }
}

/// Stops a test if this doesn't hold of a row of a table.
pub fn require_at(rt: &impl Abort, holds: bool, table: &str, row: usize) {
    assert!(rt; holds, "{table}, row {row}");
}
