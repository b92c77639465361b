ghost use Rattle.options.specs.Kinds.{NamesKind};

use crate::frame::RowsFrame;
use crate::function::Function;
use evaluator::utils::Argument;
use std::str::FromStr;

// The kinds of value that the column of `--of` may have.
#[derive(Clone, Copy)]
pub enum ValueKind {
    Instant,
    Pseudonym,
    Code,
    Outcome,
}

// A text that names no kind of value.
#[derive(Clone, Copy)]
pub struct UnknownKind;

impl FromStr for ValueKind {
    type Err = UnknownKind;

    ghost from_str_gives = { NamesKind };

    fn from_str(word: &str) -> Result<ValueKind, UnknownKind> {
        match word {
            "instant" => Ok(ValueKind::Instant),
            "pseudonym" => Ok(ValueKind::Pseudonym),
            "code" => Ok(ValueKind::Code),
            "outcome" => Ok(ValueKind::Outcome),
            _ => Err(UnknownKind),
        }
    }
}

// A function that is asked of a file, with its options; no `as_name` is the function's own name, no `file` standard input.
#[derive(Drop)]
pub struct Asked<'a> {
    pub function: Function,
    pub of: Option<&'a str>,
    pub partition_by: Vec<&'a str>,
    pub order_by: Vec<&'a str>,
    pub offset: Argument,
    pub n: Argument,
    pub default: Option<&'a str>,
    pub ignore_nulls: bool,
    pub frame: Option<RowsFrame>,
    pub kind: ValueKind,
    pub as_name: Option<&'a str>,
    pub by_rows: Option<usize>,
    pub quiet: bool,
    pub file: Option<&'a str>,
}
