ghost use Rattle.std.specs.Prelude.{◌≡◌, ℕ, List, ◌++◌, codes, Ok};
ghost use Rattle.functions.specs.Words.{ArgumentFits, argument_text};
ghost use Rattle.lines.specs.Cursors.{Onward, ahead};

use evaluator::utils::Argument;
use lines::cursor::Cursor;
use lines::stop::Bad;

// An argument, with a colon behind it. No `FromStr`: behind two of the words a number follows.
pub fn read_argument(cursor: &mut Cursor<'_>) -> Result<Argument, Bad>
    ensures back { (a : Argument) (rest : List ℕ) → ArgumentFits a → ahead cursor.old ≡ argument_text a ++ (codes ":" ++ rest) → (result ≡ Ok a) × (ahead cursor.new ≡ codes ":" ++ rest) }
    ensures onward { Onward cursor.old cursor.new }
{
    let start = cursor.bad();
    match cursor.word() {
        "missing" => Ok(Argument::Missing),
        "null" => Ok(Argument::Null),
        "noint" => Ok(Argument::NotInteger),
        "s" => Ok(Argument::Signed(cursor.number::<i64>()?)),
        "u" => Ok(Argument::Unsigned(cursor.number::<u64>()?)),
        _ => Err(start),
    }
}
