ghost use Rattle.std.specs.Prelude.{◌≡◌, ℕ, List, ◌++◌, ◌+◌, IfOk, IfErr, Ok};
ghost use Rattle.std.specs.Str.{IsCharBoundary};
ghost use Rattle.lines.specs.Back.{EndsField};
ghost use Rattle.lines.specs.Cursors.{Onward, ahead, passed};
ghost use Rattle.lines.specs.Kinds.{NamesKind, kind_text};

use crate::cursor::Cursor;
use crate::stop::Bad;
use std::str::FromStr;

// The kinds of values that lines are read at.
#[derive(Clone, Copy)]
pub enum KindName {
    Instant,
    Pseudonym,
    Code,
    Outcome,
    InstantCode,
    OutcomeLogin,
}

// A text that names no kind.
#[derive(Clone, Copy)]
pub struct UnknownKind;

impl FromStr for KindName {
    type Err = UnknownKind;

    ghost from_str_gives = { NamesKind };

    fn from_str(name: &str) -> Result<KindName, UnknownKind> {
        match name {
            "i" => Ok(KindName::Instant),
            "p" => Ok(KindName::Pseudonym),
            "c" => Ok(KindName::Code),
            "o" => Ok(KindName::Outcome),
            "(i,c)" => Ok(KindName::InstantCode),
            "(o,(i,p))" => Ok(KindName::OutcomeLogin),
            _ => Err(UnknownKind),
        }
    }
}

pub fn read_kind(cursor: &mut Cursor<'_>) -> Result<KindName, Bad>
    ensures reads { IsCharBoundary cursor.old.text.now cursor.old.at → IfOk result (λ k. passed cursor.old cursor.new ≡ kind_text k) }
    ensures back { (k : KindName) (rest : List ℕ) → ahead cursor.old ≡ kind_text k ++ rest → EndsField rest → (result ≡ Ok k) × (ahead cursor.new ≡ rest) }
    ensures place { IfErr result (λ bad. bad.column ≡ cursor.old.at + 1) }
    ensures onward { Onward cursor.old cursor.new }
{
    let start = cursor.bad();
    cursor.field().parse().map_err(|_| start)
}
