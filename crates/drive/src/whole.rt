// A call on a whole partition.
ghost use Rattle.std.specs.Prelude.{◌≡◌, ℕ, List, ◌++◌, codes, IfOk, MatchResult, string_bytes};
ghost use Rattle.lines.specs.Cursors.{ahead};
ghost use Rattle.lines.specs.declared.stop.Stop.TheVariants.{Memory};
ghost use Rattle.partition.specs.Table.{Input};
ghost use Rattle.drive.specs.Outcomes.{TellsRefusal};
ghost use Rattle.drive.specs.Reads.{HandedText};
ghost use Rattle.drive.specs.Whole.{made_text, slot_count};

use crate::answer::Answer;
use crate::handed::{Handed, Lengths};
use crate::outcome::Refusal;
use column::fault::Fault;
use evaluator::evaluator::Evaluator;
use lines::cursor::Cursor;
use lines::stop::Stop;
use lines::text::Value;
use std::alloc::Global;

// The outcome of a call that is read from here on.
pub(crate) fn answer_whole<E: Evaluator + Drop>(
    heap: Global,
    cursor: &mut Cursor<'_>,
    made: Result<E, Fault>,
) -> Result<String, Stop>
where
    E::Value: Value,
    E::Answer: Answer<E::Value>,
    ensures refused { IfOk result (λ s. TellsRefusal made (string_bytes s)) }
    ensures back { (x : Input E.Value) (l : Lengths) (text lengths : List ℕ) → HandedText E.Value.Show.text E.Value.Text.fits x text → E.Answer.Answer.sized l lengths → ahead cursor.old ≡ text ++ (codes " O" ++ lengths) → MatchResult result (λ s. string_bytes s ≡ made_text E.Value.Kind.same E.Answer.Show.text E.Evaluator.WANTS_FRAMES E.Evaluator.WANTS_GROUPS E.Evaluator.meaning made x (slot_count l)) (λ stop. stop ≡ Memory) }
{
    let handed = Handed::<E::Value>::read(heap, cursor)?;
    cursor.expect(b' ')?;
    cursor.expect(b'O')?;
    let lengths = E::Answer::read_lengths(cursor)?;
    cursor.end()?;
    // `map_or_else` would have the same two arms, the refusal first
    match made {
        Ok(evaluator) => Ok(E::Answer::call(heap, &evaluator, &handed, lengths)?),
        Err(fault) => Ok(Refusal(fault).to_string(heap)?),
    }
}
