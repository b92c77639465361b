ghost use Rattle.std.specs.Prelude.{◌≡◌, Some};
ghost use Rattle.desk.specs.Messages.{refusal_text};
ghost use Rattle.desk.specs.declared.refusal.Refusal.TheVariants.{Memory};

use column::fault::Fault;
use std::alloc::AllocError;
use std::fmt;
use table::fault::Unread;
use table::names::NoColumn;

// Why a file gets no answers.
#[derive(Clone, Copy)]
pub enum Refusal<'a> {
    Memory,
    Unread(Unread),
    Column {
        name: &'a str,
        why: NoColumn,
    },
    // a field of the column of values that is none of the kind; the header is record 0
    NoValue {
        record: usize,
        column: usize,
        kind: &'static str,
    },
    NoDefault {
        text: &'a str,
        kind: &'static str,
    },
    // no column of values is named
    NoValues,
    // the library refuses the call
    Call(Fault),
    // an answer row by row is not that of the whole partition
    Differs {
        record: usize,
    },
}

impl<'a, E: Into<AllocError>> From<E> for Refusal<'a> {
    ghost from_gives = { λ _ r. r ≡ Memory };

    fn from(e: E) -> Refusal<'a> {
        let AllocError = e.into();
        Refusal::Memory
    }
}

// What is wrong, without its place.
impl<'a> fmt::Display for Refusal<'a> {
    ghost output = { λ r. Some (refusal_text r) };

    fn fmt<W: fmt::Write>(&self, f: &mut fmt::Formatter<W>) -> fmt::Result {
        match *self {
            Refusal::Memory => f.write_str("not enough memory"),
            Refusal::Unread(unread) => write!(f, "{unread}"),
            Refusal::Column { name, why } => match why {
                NoColumn::Absent => write!(f, "no column \"{name}\""),
                NoColumn::Twice => write!(f, "column \"{name}\" comes twice"),
            },
            Refusal::NoValue { kind, .. } => write!(f, "no {kind}"),
            Refusal::NoDefault { text, kind } => {
                write!(f, "the default is no {kind}: \"{text}\"")
            }
            Refusal::NoValues => f.write_str("no column of values is named"),
            Refusal::Call(fault) => {
                let number = fault.number();
                let place = fault.place();
                write!(f, "refused by check {number}, at {place}")
            }
            Refusal::Differs { record } => {
                write!(
                    f,
                    "record {record} has another answer row by row than over its whole partition"
                )
            }
        }
    }
}
