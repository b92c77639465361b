ghost use Rattle.std.specs.Prelude.{◌≡◌, Some};
ghost use Rattle.replayed.specs.Wrongs.{wrong_text};
ghost use Rattle.replayed.specs.declared.wrong.Wrong.TheVariants.{At, Memory as NoMemory};

use lines::stop::Bad;
use std::alloc::AllocError;
use std::fmt;

// Why a list of calls cannot be read: no memory, or the line and the column at which reading stops.
#[derive(Clone, Copy)]
pub enum Wrong {
    Memory,
    At { line: usize, column: usize },
}

impl Wrong {
    pub(crate) fn at(line: usize, bad: Bad) -> Wrong
        ensures { result ≡ At line bad.column }
    {
        Wrong::At {
            line,
            column: bad.column,
        }
    }
}

impl<E: Into<AllocError>> From<E> for Wrong {
    ghost from_gives = { λ _ r. r ≡ NoMemory };

    fn from(e: E) -> Wrong {
        let AllocError = e.into();
        Wrong::Memory
    }
}

// `LINE:COLUMN: ..`, as what follows the file's name.
impl fmt::Display for Wrong {
    ghost output = { λ w. Some (wrong_text w) };

    fn fmt<W: fmt::Write>(&self, f: &mut fmt::Formatter<W>) -> fmt::Result {
        match *self {
            Wrong::Memory => f.write_str(" not enough memory"),
            Wrong::At { line, column } => write!(f, "{line}:{column}: this cannot be read"),
        }
    }
}
