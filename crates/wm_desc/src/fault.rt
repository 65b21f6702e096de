// Why the objects stay as they are.
use std::alloc::AllocError;
use thiserror::Error;
use wm_base::Refusal;

/// Why something wasn't added: a rule refuses it, or memory is wanting.
#[derive(Clone, Copy, Debug, Error)]
pub enum DescFault {
    #[error("refused: {0:?}")]
    No(Refusal),
    #[error("out of memory")]
    NoMemory,
}

impl From<AllocError> for DescFault {
    ghost use Rattle.wm_desc.specs.declared.fault.DescFault.TheVariants.{NoMemory};
    ghost use Rattle.std.specs.Prelude.{◌≡◌};

    ghost from_gives = { λ _ fault. fault ≡ NoMemory };

    fn from(_: AllocError) -> DescFault {
        DescFault::NoMemory
    }
}
