//! A fault of a call, with the value that comes back.
ghost use Rattle.std.specs.Prelude.{◌≡◌};

/// A fault, with the value that the call took.
pub struct Returned<F, T> {
    pub fault: F,
    pub value: T,
}

impl<F, T: Drop> Returned<F, T> {
    /// Returns the fault alone.
    pub fn into_fault(self) -> F
        ensures { result ≡ self.fault }
    {
        let Returned { fault, value: _ } = self;
        fault
    }
}
