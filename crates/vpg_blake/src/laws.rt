//! A law of the definitions. The function does nothing: its contract is the law.
ghost use Rattle.vpg_blake.specs.Laws.{SplittingGivesPrimes};

/// Splitting gives the prime implicants: each cube is one, and each implicant has one of them as a part.
pub fn splitting_gives_primes()
    ensures { SplittingGivesPrimes }
{}
