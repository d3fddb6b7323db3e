//! Why there is no game of a family.
use std::alloc::{AllocError, AllocFailed};
use thiserror::Error;
use vpg_formula::RequirementFault;
use vpg_model::ModelFault;
use vpg_system::SystemFault;
use vpg_written::TranslationFault;

/// The reason that a system and requirements have no game: the first that holds, in this order.
#[derive(Clone, Copy, Debug, PartialEq, Eq, Error)]
pub enum CheckingFault {
    /// The text of the system is refused.
    #[error("system {0}")]
    System(SystemFault),
    /// The text of the requirements is refused.
    #[error("requirements {0}")]
    Requirements(RequirementFault),
    /// The entry of this number, from 0, has more than 65,536 parts.
    #[error("requirements TooManyParts {entry}")]
    TooManyParts { entry: usize },
    /// The game is beyond the limits of games.
    #[error("model {0}")]
    Game(ModelFault),
    /// Memory ran out.
    #[error("Memory")]
    Memory,
}

impl From<SystemFault> for CheckingFault {
    ghost use Rattle.std.specs.Prelude.{◌≡◌};
    ghost use Rattle.vpg_checking.specs.Faults.{told_of_system};

    ghost from_gives = { λ fault gives. gives ≡ told_of_system fault };

    fn from(fault: SystemFault) -> CheckingFault {
        match fault {
            SystemFault::Memory => CheckingFault::Memory,
            _ => CheckingFault::System(fault),
        }
    }
}

impl From<RequirementFault> for CheckingFault {
    ghost use Rattle.std.specs.Prelude.{◌≡◌};
    ghost use Rattle.vpg_checking.specs.Faults.{told_of_requirements};

    ghost from_gives = { λ fault gives. gives ≡ told_of_requirements fault };

    fn from(fault: RequirementFault) -> CheckingFault {
        match fault {
            RequirementFault::Memory => CheckingFault::Memory,
            _ => CheckingFault::Requirements(fault),
        }
    }
}

impl From<TranslationFault> for CheckingFault {
    ghost use Rattle.std.specs.Prelude.{◌≡◌};
    ghost use Rattle.vpg_checking.specs.Faults.{told_of_translation};

    ghost from_gives = { λ fault gives. gives ≡ told_of_translation fault };

    fn from(fault: TranslationFault) -> CheckingFault {
        match fault {
            TranslationFault::TooManyParts(entry) => CheckingFault::TooManyParts { entry },
            TranslationFault::Memory => CheckingFault::Memory,
        }
    }
}

impl From<ModelFault> for CheckingFault {
    ghost use Rattle.std.specs.Prelude.{◌≡◌};
    ghost use Rattle.vpg_checking.specs.Faults.{told_of_game};

    ghost from_gives = { λ fault gives. gives ≡ told_of_game fault };

    fn from(fault: ModelFault) -> CheckingFault {
        match fault {
            ModelFault::Memory => CheckingFault::Memory,
            _ => CheckingFault::Game(fault),
        }
    }
}

impl From<AllocError> for CheckingFault {
    ghost use Rattle.std.specs.Prelude.{◌≡◌};
    ghost use Rattle.vpg_checking.specs.declared.fault.CheckingFault.TheVariants.{Memory};

    ghost from_gives = { λ _ fault. fault ≡ Memory };

    fn from(_error: AllocError) -> CheckingFault {
        CheckingFault::Memory
    }
}

impl<T: Drop> From<AllocFailed<T>> for CheckingFault {
    ghost use Rattle.std.specs.Prelude.{◌≡◌};
    ghost use Rattle.vpg_checking.specs.declared.fault.CheckingFault.TheVariants.{Memory};

    ghost from_gives = { λ _ fault. fault ≡ Memory };

    fn from(_error: AllocFailed<T>) -> CheckingFault {
        CheckingFault::Memory
    }
}
