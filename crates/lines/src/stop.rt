ghost use Rattle.std.specs.Prelude.{◌≡◌, ◌++◌, Some, codes, decimal};
ghost use Rattle.lines.specs.declared.stop.Stop.TheVariants.{Unread, Memory};

use std::alloc::AllocError;
use std::fmt;

// The column, from 1, at which a line cannot be read.
#[derive(Clone, Copy)]
pub struct Bad {
    pub column: usize,
}

impl fmt::Display for Bad {
    ghost output = { λ b. Some (codes "bad:" ++ decimal b.column) };

    fn fmt<W: fmt::Write>(&self, f: &mut fmt::Formatter<W>) -> fmt::Result {
        write!(f, "bad:{}", self.column)
    }
}

// Why a line has no outcome.
// `Unanswered` and `Refusal` of `sessions` have a `Memory` too: one generic error would save two `From`s, for a struct apiece of what each holds beside it.
#[derive(Clone, Copy)]
pub enum Stop {
    Unread(Bad),
    Memory,
}

impl From<Bad> for Stop {
    ghost from_gives = { λ b r. r ≡ Unread b };

    fn from(bad: Bad) -> Stop {
        Stop::Unread(bad)
    }
}

// Either of std's errors for want of memory.
impl<E: Into<AllocError>> From<E> for Stop {
    ghost from_gives = { λ _ r. r ≡ Memory };

    fn from(e: E) -> Stop {
        let AllocError = e.into();
        Stop::Memory
    }
}
