ghost use Rattle.functions.specs.Names.{NamesFunction};

use std::str::FromStr;

// The words that name a window function.
#[derive(Clone, Copy)]
pub enum Name {
    Lag,
    Lead,
    First,
    Last,
    Nth,
    Rank,
    DenseRank,
    RowNumber,
    PercentRank,
    CumeDist,
}

// A text that names no window function.
#[derive(Clone, Copy)]
pub struct UnknownName;

impl FromStr for Name {
    type Err = UnknownName;

    ghost from_str_gives = { NamesFunction };

    fn from_str(name: &str) -> Result<Name, UnknownName> {
        match name {
            "lag" => Ok(Name::Lag),
            "lead" => Ok(Name::Lead),
            "first" => Ok(Name::First),
            "last" => Ok(Name::Last),
            "nth" => Ok(Name::Nth),
            "rank" => Ok(Name::Rank),
            "dense" => Ok(Name::DenseRank),
            "rownum" => Ok(Name::RowNumber),
            "percent" => Ok(Name::PercentRank),
            "cume" => Ok(Name::CumeDist),
            _ => Err(UnknownName),
        }
    }
}
