ghost use Rattle.std.specs.Prelude.{◌≡◌, length, slice_set, Ok};
ghost use Rattle.column.specs.Slots.{listed};
ghost use Rattle.partition.specs.Table.{input, row_count, whole_refusal};
ghost use Rattle.evaluator.specs.Meaning.{WholeCall, partition};

use crate::evaluator::Evaluator;
use column::fault::Fault;
use column::output::Numbers;
use partition::whole::WholePartition;

// The call, with the list as an output; a function of its own, since what it leaves of a lent list is told at its return.
fn write_numbers<E: Evaluator>(
    evaluator: &E,
    rows: &WholePartition<'_, E::Value>,
    list: &mut [E::Answer],
) -> Result<(), Fault>
    ensures { WholeCall (λ s i a. slice_set s i a) (whole_refusal E.Value.Kind.same E.Evaluator.WANTS_FRAMES E.Evaluator.WANTS_GROUPS (input rows.now) (length list.old)) ((E.Evaluator.meaning evaluator.now).answer (partition E.Evaluator.WANTS_FRAMES (input rows.now))) (row_count (input rows.now)) list.old list.new result }
{
    let mut out = Numbers { list };
    evaluator.evaluate_all(rows, &mut out)
}

// Writes the answers of an evaluator of numbers into the caller's list.
pub fn evaluate_numbers<E: Evaluator>(
    evaluator: &E,
    rows: &WholePartition<'_, E::Value>,
    list: &mut [E::Answer],
) -> Result<(), Fault>
    ensures call { WholeCall (λ s i a. slice_set s i a) (whole_refusal E.Value.Kind.same E.Evaluator.WANTS_FRAMES E.Evaluator.WANTS_GROUPS (input rows.now) (length list.old)) ((E.Evaluator.meaning evaluator.now).answer (partition E.Evaluator.WANTS_FRAMES (input rows.now))) (row_count (input rows.now)) list.old list.new result }
    ensures filled { result ≡ Ok tt → list.new ≡ listed ((E.Evaluator.meaning evaluator.now).answer (partition E.Evaluator.WANTS_FRAMES (input rows.now))) (row_count (input rows.now)) list.old }
{
    write_numbers(evaluator, rows, list)
}
