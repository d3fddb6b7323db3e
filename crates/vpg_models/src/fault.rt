//! Why a text means no diagram.
use std::alloc::AllocError;
use thiserror::Error;
use vpg_featureide::ModelFault;
use vpg_uvl::UvlFault;

/// Why a text means no diagram, in the language of its form.
#[derive(Clone, Copy, Debug, PartialEq, Eq, Error)]
pub enum FormFault {
    /// It is no feature model in UVL.
    #[error("uvl {0}")]
    Uvl(UvlFault),
    /// It is no feature model of FeatureIDE.
    #[error("featureide {0}")]
    FeatureIde(ModelFault),
    /// Memory ran out.
    #[error("Memory")]
    Memory,
}

impl From<AllocError> for FormFault {
    ghost use Rattle.std.specs.Prelude.{◌≡◌};
    ghost use Rattle.vpg_models.specs.declared.fault.FormFault.TheVariants.{Memory};

    ghost from_gives = { λ _ e. e ≡ Memory };

    fn from(_: AllocError) -> FormFault {
        FormFault::Memory
    }
}
