// LAG 1 ignoring NULLs over one session's cells, by the proved evaluator.
ghost use Rattle.std.specs.Prelude.{◌≡◌, ◌≤◌, true, false, map, length, pos, is_some, unwrap_or, None, Ok, IfOk};
ghost use Rattle.column.specs.Refusal.{row_limit};
ghost use Rattle.evaluator.specs.declared.utils.Argument.TheVariants.{Missing};
ghost use Rattle.lead_lag.specs.declared.offset.WindowShiftKind.TheVariants.{Lag};
ghost use Rattle.lead_lag.specs.Shift.{making};
ghost use Rattle.sessions.specs.Sessions.{Answered};

use crate::cells::Cells;
use column::column::Column;
use column::kind::Instant;
use evaluator::cells::evaluate_cells;
use evaluator::utils::Argument;
use lead_lag::WindowShift;
use lead_lag::offset::WindowShiftKind;
use partition::whole::WholePartition;
use std::alloc::{AllocError, Global};

// The values of cells, any value where the cell is NULL.
fn values_of(heap: Global, cells: &[Option<Instant>]) -> Result<Vec<Instant>, AllocError>
    ensures { IfOk result (λ v. v.items ≡ map (λ c. unwrap_or c (record { 0 = pos 0 })) cells.now) }
{
    cells
        .iter()
        .map(|cell| cell.unwrap_or(Instant(0)))
        .collect(heap)
}

// Which cells are present.
fn marks_of(heap: Global, cells: &[Option<Instant>]) -> Result<Vec<bool>, AllocError>
    ensures { IfOk result (λ v. v.items ≡ map (λ c. is_some c) cells.now) }
{
    cells.iter().map(|cell| cell.is_some()).collect(heap)
}

// LAG 1 ignoring NULLs, NULL by default.
fn lag() -> WindowShift<Instant>
    ensures { making Lag Missing false true None ≡ Ok result }
{
    WindowShift::new(WindowShiftKind::Lag, Argument::Missing, false, true, None).unwrap()
}

// The answer of each cell. A partition within the limit is not refused.
pub(crate) fn answer_session(heap: Global, cells: &[Option<Instant>]) -> Result<Cells, AllocError>
    requires { length cells.now ≤ row_limit }
    ensures { IfOk result (λ v. Answered cells.now v.items) }
{
    let values = values_of(heap, cells)?;
    let marks = marks_of(heap, cells)?;
    let mut answers = vec![in heap; Instant(0); cells.len()]?;
    let mut present = vec![in heap; false; cells.len()]?;
    let rows = WholePartition::new(values.as_slice(), marks.as_slice(), &[], &[]);
    evaluate_cells(
        &lag(),
        &rows,
        answers.as_mut_slice(),
        present.as_mut_slice(),
    )
    .unwrap();
    Column {
        values: answers.as_slice(),
        marks: present.as_slice(),
    }
    .to_cells(heap)
}
