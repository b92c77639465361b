ghost use Rattle.std.specs.Prelude.{◌≡◌, Some};
ghost use Rattle.options.specs.Functions.{NamesFunction, function_text, is_valued, takes};

use crate::key::Key;
use std::fmt;
use std::str::FromStr;

// The window functions that the program answers.
#[derive(Clone, Copy)]
pub enum Function {
    Lag,
    Lead,
    FirstValue,
    LastValue,
    NthValue,
    Rank,
    DenseRank,
    PercentRank,
    CumeDist,
    RowNumber,
}

// A text that names no window function.
#[derive(Clone, Copy)]
pub struct UnknownFunction;

impl FromStr for Function {
    type Err = UnknownFunction;

    ghost from_str_gives = { NamesFunction };

    fn from_str(word: &str) -> Result<Function, UnknownFunction> {
        match word {
            "lag" => Ok(Function::Lag),
            "lead" => Ok(Function::Lead),
            "first_value" => Ok(Function::FirstValue),
            "last_value" => Ok(Function::LastValue),
            "nth_value" => Ok(Function::NthValue),
            "rank" => Ok(Function::Rank),
            "dense_rank" => Ok(Function::DenseRank),
            "percent_rank" => Ok(Function::PercentRank),
            "cume_dist" => Ok(Function::CumeDist),
            "row_number" => Ok(Function::RowNumber),
            _ => Err(UnknownFunction),
        }
    }
}

impl Function {
    // SQL's name, in small letters.
    pub fn name(self) -> &'static str
        ensures { result.now ≡ function_text self }
    {
        match self {
            Function::Lag => "lag",
            Function::Lead => "lead",
            Function::FirstValue => "first_value",
            Function::LastValue => "last_value",
            Function::NthValue => "nth_value",
            Function::Rank => "rank",
            Function::DenseRank => "dense_rank",
            Function::PercentRank => "percent_rank",
            Function::CumeDist => "cume_dist",
            Function::RowNumber => "row_number",
        }
    }

    // Whether the function answers values of a column.
    pub fn is_valued(self) -> bool
        ensures { result ≡ is_valued self }
    {
        matches!(
            self,
            Function::Lag
                | Function::Lead
                | Function::FirstValue
                | Function::LastValue
                | Function::NthValue
        )
    }

    // Whether the function takes an option, answered or drawn.
    pub fn takes(self, drawn: bool, key: Key) -> bool
        ensures { result ≡ takes self drawn key }
    {
        match key {
            Key::Of | Key::Kind | Key::IgnoreNulls => self.is_valued(),
            Key::Offset | Key::Default => matches!(self, Function::Lag | Function::Lead),
            Key::N => matches!(self, Function::NthValue),
            Key::Frame => matches!(
                self,
                Function::FirstValue | Function::LastValue | Function::NthValue
            ),
            Key::ByRows => !matches!(self, Function::PercentRank | Function::CumeDist),
            Key::Rows | Key::Partition => drawn,
            Key::PartitionBy | Key::OrderBy | Key::As | Key::Quiet | Key::File => true,
        }
    }
}

impl fmt::Display for Function {
    ghost output = { λ f. Some (function_text f) };

    fn fmt<W: fmt::Write>(&self, f: &mut fmt::Formatter<W>) -> fmt::Result {
        f.write_str(self.name())
    }
}
