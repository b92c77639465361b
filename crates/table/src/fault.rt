ghost use Rattle.std.specs.Prelude.{◌≡◌, Some};
ghost use Rattle.table.specs.Messages.{fault_text, unread_text};
ghost use Rattle.table.specs.declared.fault.Unread.TheVariants.{Memory};

use std::alloc::AllocError;
use std::fmt;

// What is wrong with a text that is no table.
#[derive(Clone, Copy, Debug)]
pub enum Fault {
    Empty,
    QuoteInside,
    LoneReturn,
    AfterQuote,
    Unclosed,
    Ragged { found: usize, expected: usize },
}

// Why a text is not read.
#[derive(Clone, Copy, Debug)]
pub enum Unread {
    Memory,
    At {
        line: usize,
        column: usize,
        fault: Fault,
    },
}

impl<E: Into<AllocError>> From<E> for Unread {
    ghost from_gives = { λ _ r. r ≡ Memory };

    fn from(e: E) -> Unread {
        let AllocError = e.into();
        Unread::Memory
    }
}

impl fmt::Display for Fault {
    ghost output = { λ f. Some (fault_text f) };

    fn fmt<W: fmt::Write>(&self, f: &mut fmt::Formatter<W>) -> fmt::Result {
        match *self {
            Fault::Empty => f.write_str("no header: the file is empty"),
            Fault::QuoteInside => f.write_str("a quote in a field that does not begin with one"),
            Fault::LoneReturn => f.write_str("a carriage return without a line feed"),
            Fault::AfterQuote => f.write_str("text behind a closing quote"),
            Fault::Unclosed => f.write_str("a quote that is never closed"),
            Fault::Ragged { found, expected } => {
                write!(f, "{found} fields where the header has {expected}")
            }
        }
    }
}

// What follows the file's name and a colon.
impl fmt::Display for Unread {
    ghost output = { λ u. Some (unread_text u) };

    fn fmt<W: fmt::Write>(&self, f: &mut fmt::Formatter<W>) -> fmt::Result {
        match *self {
            Unread::Memory => f.write_str(" not enough memory"),
            Unread::At {
                line,
                column,
                fault,
            } => write!(f, "{line}:{column}: {fault}"),
        }
    }
}
