ghost use Rattle.std.specs.Prelude.{◌≡◌};
ghost use Rattle.table.specs.declared.stop.Stop.TheVariants.{Memory};

use crate::fault::Fault;
use std::alloc::AllocError;

// Why reading stopped: no memory, or a fault at a byte of the text.
#[derive(Clone, Copy)]
pub(crate) enum Stop {
    Memory,
    At { at: usize, fault: Fault },
}

impl<E: Into<AllocError>> From<E> for Stop {
    ghost from_gives = { λ _ r. r ≡ Memory };

    fn from(e: E) -> Stop {
        let AllocError = e.into();
        Stop::Memory
    }
}
