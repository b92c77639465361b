ghost use Rattle.std.specs.Prelude.{◌≡◌, Ok};
ghost use Rattle.partition.specs.Table.{input, row_count, whole_refusal};
ghost use Rattle.column.specs.Slots.{Filled, put_cell, cell_count};
ghost use Rattle.evaluator.specs.Meaning.{WholeCall, partition};

use crate::evaluator::Evaluator;
use column::fault::Fault;
use column::kind::Kind;
use column::output::Cells;
use partition::whole::WholePartition;

// The call, with the lists as one output; a function of its own, since what it leaves of lent lists is told at its return.
fn write_cells<K: Kind, E: Evaluator<Value = K, Answer = Option<K>>>(
    evaluator: &E,
    rows: &WholePartition<'_, K>,
    values: &mut [K],
    marks: &mut [bool],
) -> Result<(), Fault>
    ensures { WholeCall put_cell (whole_refusal K.Kind.same E.Evaluator.WANTS_FRAMES E.Evaluator.WANTS_GROUPS (input rows.now) (cell_count (record { values = values.entry.now; marks = marks.old }))) ((E.Evaluator.meaning evaluator.now).answer (partition E.Evaluator.WANTS_FRAMES (input rows.now))) (row_count (input rows.now)) (record { values = values.entry.now; marks = marks.old }) (record { values = values.exit.now; marks = marks.new }) result }
{
    let mut out = Cells { values, marks };
    evaluator.evaluate_all(rows, &mut out)
}

// Writes the answers of an evaluator of cells into the caller's lists of values and marks.
pub fn evaluate_cells<K: Kind, E: Evaluator<Value = K, Answer = Option<K>>>(
    evaluator: &E,
    rows: &WholePartition<'_, K>,
    values: &mut [K],
    marks: &mut [bool],
) -> Result<(), Fault>
    ensures call { WholeCall put_cell (whole_refusal K.Kind.same E.Evaluator.WANTS_FRAMES E.Evaluator.WANTS_GROUPS (input rows.now) (cell_count (record { values = values.entry.now; marks = marks.old }))) ((E.Evaluator.meaning evaluator.now).answer (partition E.Evaluator.WANTS_FRAMES (input rows.now))) (row_count (input rows.now)) (record { values = values.entry.now; marks = marks.old }) (record { values = values.exit.now; marks = marks.new }) result }
    ensures filled { result ≡ Ok tt → Filled ((E.Evaluator.meaning evaluator.now).answer (partition E.Evaluator.WANTS_FRAMES (input rows.now))) (row_count (input rows.now)) (record { values = values.entry.now; marks = marks.old }) (record { values = values.exit.now; marks = marks.new }) }
{
    write_cells(evaluator, rows, values, marks)
}
