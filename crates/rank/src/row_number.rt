// Ported from `row_number.rs` of the crate datafusion-functions-window 55.0.0 (Apache-2.0), and changed:
// the planner's part is left out, and the caller lends the output.
ghost use Rattle.std.specs.Prelude.{◌≡◌, ◌+◌, ◌<◌, ◌≤◌, false};
ghost use Rattle.column.specs.Refusal.{row_limit};
ghost use Rattle.column.specs.Slots.{written};
ghost use Rattle.rank.specs.Numbers.{row_number_meaning, new_row_number, row_number_stepped, row_number_settling};
ghost use Rattle.rank.specs.NumbersLemmas.{row_number_lawful};

use column::fault::Fault;
use column::kind::Kind;
use column::output::Output;
use evaluator::evaluator::Evaluator;
use partition::whole::{WholePartition, check_whole};
use run::rows::{RowEvaluator, Turn};
use std::marker::PhantomData;

// ROW_NUMBER, with the number of rows that were answered.
#[derive(Drop)]
pub struct RowNumber<K> {
    n_rows: usize,
    kind: PhantomData<K>,
}

impl<K: Kind> RowNumber<K> {
    pub fn new() -> RowNumber<K>
        ensures { result ≡ new_row_number }
    {
        RowNumber {
            n_rows: 0,
            kind: PhantomData,
        }
    }
}

// The number of a row, from 1; the sum has to fit.
fn row_number(row: usize) -> u64
    requires { row < row_limit }
    ensures { result ≡ row + 1 }
{
    row as u64 + 1
}

// Writes the number of each row.
fn write_numbers<O: Output<u64>>(rows: usize, out: &mut O)
    // the contract speaks of the lent lists and the output themselves; a struct that held what the check told would be unpacked in every clause
    requires limited { rows ≤ row_limit }
    requires room { rows ≤ O.Output.size (O.Output.slots out.old) }
    ensures slots { O.Output.slots out.new ≡ written O.Output.stored (λ i. i + 1) (O.Output.slots out.old) rows }
    ensures place { O.Output.place out.old out.new }
{
    // by row number: an output is put to by row, and lends no list to go over
    for row in 0..rows {
        out.put(row, row_number(row));
    }
}

impl<K: Kind> Evaluator for RowNumber<K> {
    type Value = K;

    type Answer = u64;

    const WANTS_FRAMES: bool = false;

    const WANTS_GROUPS: bool = false;

    ghost WANTS_FRAMES = { false };

    ghost WANTS_GROUPS = { false };

    ghost meaning = { row_number_meaning };

    ghost renewed = { λ e. new_row_number };

    ghost lawful = { λ e. row_number_lawful e };

    fn fresh(&self) -> RowNumber<K> {
        RowNumber::new()
    }

    #[tactic(auto, using(evaluator::proofs::Calls::refused_call))]
    fn evaluate_all<O: Output<u64>>(
        &self,
        rows: &WholePartition<'_, K>,
        out: &mut O,
    ) -> Result<(), Fault> {
        check_whole(rows, Self::WANTS_FRAMES, Self::WANTS_GROUPS, out.len())?;
        write_numbers(rows.column.values.len(), out);
        Ok(())
    }
}

impl<K: Kind> RowEvaluator for RowNumber<K> {
    ghost stepped = { row_number_stepped };

    ghost settling = { row_number_settling };

    fn row(&mut self, turn: &Turn<'_, K>) -> Result<u64, Fault> {
        let next = turn.shown()?;
        self.n_rows = self.n_rows.max(next + 1);
        Ok(row_number(next))
    }

    fn settle(&mut self, _next: usize, _last: (usize, usize)) {}

    fn keep_mark(&self) -> usize {
        self.n_rows
    }
}
