ghost use Rattle.std.specs.Prelude.{◌≡◌, ◌↔◌, IsTrue, Some};
ghost use Rattle.options.specs.Keys.{NamesKey, key_text, has_value};

use std::fmt;
use std::str::FromStr;

// The options, and the file that stands among them.
#[derive(Clone, Copy, PartialEq, Eq)]
pub enum Key {
    Of,
    PartitionBy,
    OrderBy,
    Offset,
    N,
    Default,
    IgnoreNulls,
    Frame,
    Kind,
    As,
    ByRows,
    Quiet,
    Rows,
    Partition,
    File,
}

// A text that is no option.
#[derive(Clone, Copy)]
pub struct UnknownKey;

impl FromStr for Key {
    type Err = UnknownKey;

    ghost from_str_gives = { NamesKey };

    fn from_str(word: &str) -> Result<Key, UnknownKey> {
        match word {
            "--of" => Ok(Key::Of),
            "--partition-by" => Ok(Key::PartitionBy),
            "--order-by" => Ok(Key::OrderBy),
            "--offset" => Ok(Key::Offset),
            "--n" => Ok(Key::N),
            "--default" => Ok(Key::Default),
            "--ignore-nulls" => Ok(Key::IgnoreNulls),
            "--frame" => Ok(Key::Frame),
            "--kind" => Ok(Key::Kind),
            "--as" => Ok(Key::As),
            "--by-rows" => Ok(Key::ByRows),
            "--quiet" => Ok(Key::Quiet),
            "--rows" => Ok(Key::Rows),
            "--partition" => Ok(Key::Partition),
            _ if word.starts_with("--") => Err(UnknownKey),
            _ => Ok(Key::File),
        }
    }
}

impl fmt::Display for Key {
    ghost output = { λ k. Some (key_text k) };

    fn fmt<W: fmt::Write>(&self, f: &mut fmt::Formatter<W>) -> fmt::Result {
        f.write_str(match self {
            Key::Of => "--of",
            Key::PartitionBy => "--partition-by",
            Key::OrderBy => "--order-by",
            Key::Offset => "--offset",
            Key::N => "--n",
            Key::Default => "--default",
            Key::IgnoreNulls => "--ignore-nulls",
            Key::Frame => "--frame",
            Key::Kind => "--kind",
            Key::As => "--as",
            Key::ByRows => "--by-rows",
            Key::Quiet => "--quiet",
            Key::Rows => "--rows",
            Key::Partition => "--partition",
            Key::File => "FILE",
        })
    }
}

impl Key {
    // Whether two options are the same.
    pub fn is(self, other: Key) -> bool
        ensures { IsTrue result ↔ (self ≡ other) }
    {
        self == other
    }

    // Whether a value stands behind the option.
    pub fn has_value(self) -> bool
        ensures { result ≡ has_value self }
    {
        !matches!(self, Key::IgnoreNulls | Key::Quiet | Key::File)
    }
}
