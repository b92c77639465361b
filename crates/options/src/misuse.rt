ghost use Rattle.std.specs.Prelude.{◌≡◌, Some};
ghost use Rattle.options.specs.Messages.{misuse_text};
ghost use Rattle.options.specs.declared.misuse.Misuse.TheVariants.{Memory as NoMemory};

use crate::frame_text::FrameFault;
use crate::function::Function;
use crate::key::Key;
use std::alloc::AllocError;
use std::fmt;

// What is wrong with words that are no command.
#[derive(Clone, Copy)]
pub enum Misuse<'a> {
    Memory,
    NoFunction,
    UnknownFunction(&'a str),
    UnknownOption(&'a str),
    WithoutValue(Key),
    Twice(Key),
    NotTaken { function: Function, key: Key },
    Missing { function: Function, key: Key },
    NoNumber { key: Key, text: &'a str },
    UnknownKind(&'a str),
    BadRows(&'a str),
    BadFrame { text: &'a str, fault: FrameFault },
    TooManyWords(&'a str),
    NoRefusal,
    UnknownRefusal(&'a str),
}

// Either of std's errors for want of memory.
impl<'a, E: Into<AllocError>> From<E> for Misuse<'a> {
    ghost from_gives = { λ _ r. r ≡ NoMemory };

    fn from(e: E) -> Misuse<'a> {
        let AllocError = e.into();
        Misuse::Memory
    }
}

impl<'a> fmt::Display for Misuse<'a> {
    ghost output = { λ m. Some (misuse_text m) };

    fn fmt<W: fmt::Write>(&self, f: &mut fmt::Formatter<W>) -> fmt::Result {
        match *self {
            Misuse::Memory => f.write_str("not enough memory"),
            Misuse::NoFunction => f.write_str("no function is named"),
            Misuse::UnknownFunction(word) => write!(f, "\"{word}\" is no function"),
            Misuse::UnknownOption(word) => write!(f, "\"{word}\" is no option"),
            Misuse::WithoutValue(key) => write!(f, "{key} has no value behind it"),
            Misuse::Twice(key) => write!(f, "{key} is given twice"),
            Misuse::NotTaken { function, key } => write!(f, "{function} takes no {key}"),
            Misuse::Missing { function, key } => write!(f, "{function} needs {key}"),
            Misuse::NoNumber { key, text } => {
                write!(f, "{key} is no number of rows from 1 on: \"{text}\"")
            }
            Misuse::UnknownKind(text) => write!(
                f,
                "--kind is instant, pseudonym, code or outcome, and not \"{text}\""
            ),
            Misuse::BadRows(text) => {
                write!(f, "--rows is FROM-TO, two row numbers, and not \"{text}\"")
            }
            Misuse::BadFrame { text, fault } => {
                let FrameFault { column, problem } = fault;
                write!(f, "--frame \"{text}\", column {column}: {problem}")
            }
            Misuse::TooManyWords(word) => write!(f, "\"{word}\" is one word too many"),
            Misuse::NoRefusal => f.write_str("no number of a refusal is given"),
            Misuse::UnknownRefusal(word) => {
                write!(f, "refusals have the numbers 1 to 20, and not \"{word}\"")
            }
        }
    }
}
