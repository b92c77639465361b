ghost use Rattle.std.specs.Prelude.{◌≡◌};
ghost use Rattle.moving.specs.declared.stop.Stop.TheVariants.{Memory, Refused};

use column::fault::Fault;
use std::alloc::AllocError;

// Why a partition has no answers.
#[derive(Clone, Copy)]
pub enum Stop {
    Memory,
    Refused(Fault),
}

impl From<AllocError> for Stop {
    ghost from_gives = { λ _ r. r ≡ Memory };

    fn from(_: AllocError) -> Stop {
        Stop::Memory
    }
}

impl From<Fault> for Stop {
    ghost from_gives = { λ f r. r ≡ Refused f };

    fn from(fault: Fault) -> Stop {
        Stop::Refused(fault)
    }
}
