//! The reasons why a list wasn't written to its end.
use ca_io::Failed;
use std::alloc::AllocError;

/// Why a list wasn't written to its end.
#[derive(Clone, Copy, Debug, PartialEq, Eq)]
pub enum Cut {
    /// A write failed.
    Failed,
    /// There is not enough memory.
    Memory(AllocError),
}

impl From<Failed> for Cut {
    ghost use Rattle.std.specs.Prelude.{◌≡◌};
    ghost use Rattle.list_run.specs.declared.cut.Cut.TheVariants as cut;

    ghost from_gives = { λ _ e. e ≡ cut.Failed };

    fn from(_: Failed) -> Cut {
        Cut::Failed
    }
}

impl From<AllocError> for Cut {
    ghost use Rattle.std.specs.Prelude.{◌≡◌};
    ghost use Rattle.list_run.specs.declared.cut.Cut.TheVariants as cut;

    ghost from_gives = { λ a e. e ≡ cut.Memory a };

    fn from(fault: AllocError) -> Cut {
        Cut::Memory(fault)
    }
}
