ghost use Rattle.std.specs.Prelude.{◌≡◌};
ghost use Rattle.picture.specs.declared.row.Undrawn.TheVariants.{Memory as NoMemory};

use std::alloc::AllocError;

// Where the answer of a row comes from: a row that is drawn, counted from 0; one that is not, by its number; the default; or no row.
#[derive(Clone, Copy)]
pub enum Source {
    Row(usize),
    Outside(usize),
    Default,
    Nothing,
}

// The rows that a node holds: from the keep mark to the last that it was shown, which is not included.
#[derive(Clone, Copy)]
pub struct Held {
    pub start: usize,
    pub end: usize,
}

// A row of the partition: its label, its value or NULL, where its answer comes from, the answer or NULL, and what is held when it is answered, if that is row by row.
#[derive(Clone, Copy)]
pub struct Row<'a> {
    pub label: &'a str,
    pub value: Option<&'a str>,
    pub source: Source,
    pub answer: Option<&'a str>,
    pub held: Option<Held>,
}

// Why there is no picture: no memory, or more rows than one can look at.
#[derive(Clone, Copy)]
pub enum Undrawn {
    Memory,
    TooMany,
}

impl<E: Into<AllocError>> From<E> for Undrawn {
    ghost from_gives = { λ _ r. r ≡ NoMemory };

    fn from(e: E) -> Undrawn {
        let AllocError = e.into();
        Undrawn::Memory
    }
}
