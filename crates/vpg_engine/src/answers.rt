//! Turns the office's answers into the client's: the front has to have grown by exactly one call.
ghost use Rattle.std.specs.Prelude.{◌≡◌, ◌+◌, ◌≤◌, Ok, length, IfOk, IfErr, OnOk, MatchResult};
ghost use Rattle.vpg_engine.specs.Faults.{Sorts, shown_after};

use crate::client::has_one_more;
use crate::fault::{Back, ClientFault, sorted};
use vpg_faults::Returned;
use vpg_office::{Fault, Front, Terms};

/// Returns what a session's call gave, if the front has one call more than `calls`. Sets the front to the log, if the
/// office's fault has it.
pub(crate) fn answered<L: Terms, T, F: Drop, C>(
    answer: Result<T, Returned<Fault<L, F>, C>>,
    calls: usize,
    front: &mut Front<L>,
) -> Result<T, Returned<ClientFault<F>, Back<C, T>>>
    ensures shown { front.new ≡ shown_after answer (λ b. b.fault) front.old }
    ensures made { IfOk result (λ made. answer ≡ Ok made) }
    ensures more { OnOk result (length front.new ≡ calls + 1) }
    ensures fault { IfErr result
        (λ r. MatchResult answer (λ _. (r.fault ≡ ClientFault.Stray) × ¬ (length front.new ≡ calls + 1))
        (λ b. Sorts calls (length front.new) b.fault r.fault × (r.value ≡ Back.Call b.value))) }
    ensures fits { length front.new ≤ L.limit }
{
    match answer {
        Ok(made) => {
            if has_one_more(front, calls) {
                Ok(made)
            } else {
                Err(Returned {
                    fault: ClientFault::Stray,
                    value: Back::Given(made),
                })
            }
        }
        Err(Returned { fault, value }) => Err(Returned {
            fault: sorted(fault, calls, front),
            value: Back::Call(value),
        }),
    }
}
