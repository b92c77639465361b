ghost use Rattle.std.specs.Prelude.{◌≡◌, Some};
ghost use Rattle.sessions.specs.Messages.{problem_text, refusal_text};
ghost use Rattle.sessions.specs.declared.problem.Refusal.TheVariants.{Memory as NoMemory, At};
ghost use Rattle.sessions.specs.declared.problem.Unanswered.TheVariants.{Memory};

use column::column::ROW_LIMIT;
use std::alloc::AllocError;
use std::fmt;

// What is wrong with an input.
#[derive(Clone, Copy)]
pub enum Problem<'a> {
    Empty,
    NoColumn(&'static str),
    ColumnTwice(&'static str),
    Quote,
    Ragged { found: usize, expected: usize },
    NoSession,
    NoNumber { column: &'static str, text: &'a str },
    TooManyRecords { session: &'a str },
}

impl<'a> Problem<'a> {
    // The refusal of a text for what is wrong at a line of it.
    pub(crate) fn at(self, line: usize) -> Refusal<'a>
        ensures { result ≡ At line self.entry }
    {
        Refusal::At {
            line,
            problem: self,
        }
    }
}

// Why there are no answers: no memory, or the first record that its session has too many.
#[derive(Clone, Copy)]
pub enum Unanswered {
    Memory,
    TooMany { record: usize },
}

// Either of std's errors for want of memory.
impl<E: Into<AllocError>> From<E> for Unanswered {
    ghost from_gives = { λ _ r. r ≡ Memory };

    fn from(e: E) -> Unanswered {
        let AllocError = e.into();
        Unanswered::Memory
    }
}

// Why there is no report.
// Three enums (this, `Unanswered`, `Stop` of `lines`): one generic error would save two `From`s for a struct apiece of what each holds beside `Memory`.
#[derive(Clone, Copy)]
pub enum Refusal<'a> {
    Memory,
    At { line: usize, problem: Problem<'a> },
}

impl<'a, E: Into<AllocError>> From<E> for Refusal<'a> {
    ghost from_gives = { λ _ r. r ≡ NoMemory };

    fn from(e: E) -> Refusal<'a> {
        let AllocError = e.into();
        Refusal::Memory
    }
}

impl<'a> fmt::Display for Problem<'a> {
    ghost output = { λ p. Some (problem_text p) };

    fn fmt<W: fmt::Write>(&self, f: &mut fmt::Formatter<W>) -> fmt::Result {
        match *self {
            Problem::Empty => f.write_str("no header: the file is empty"),
            Problem::NoColumn(name) => write!(f, "no column \"{name}\""),
            Problem::ColumnTwice(name) => write!(f, "column \"{name}\" comes twice"),
            Problem::Quote => f.write_str("a double quote: quoted fields are not read"),
            Problem::Ragged { found, expected } => {
                write!(f, "{found} fields where the header has {expected}")
            }
            Problem::NoSession => f.write_str("session is empty"),
            Problem::NoNumber { column, text } => {
                write!(f, "{column} is no whole number of 64 bits: \"{text}\"")
            }
            Problem::TooManyRecords { session } => {
                write!(f, "session \"{session}\" has more than {ROW_LIMIT} records")
            }
        }
    }
}

// `FILE:LINE: PROBLEM`, as what follows the file's name.
impl<'a> fmt::Display for Refusal<'a> {
    ghost output = { λ r. Some (refusal_text r) };

    fn fmt<W: fmt::Write>(&self, f: &mut fmt::Formatter<W>) -> fmt::Result {
        match *self {
            Refusal::Memory => f.write_str(" not enough memory"),
            Refusal::At { line, problem } => write!(f, "{line}: {problem}"),
        }
    }
}
