// The same answers by runs that are shown some rows more at a time.
ghost use Rattle.std.specs.Prelude.{◌≡◌, IfErr, IfOk};
ghost use Rattle.evaluator.specs.Meaning.{partition};
ghost use Rattle.fields.specs.Answers.{row_answers};
ghost use Rattle.moving.specs.Moving.{from_zero};
ghost use Rattle.partition.specs.Table.{input};
ghost use Rattle.desk.specs.Refusals.{Ran};
ghost use Rattle.desk.specs.Runs.{Took, most, with_run};

use crate::refusal::Refusal;
use moving::moving::{Moved, answer_moving};
use moving::stop::Stop;
use partition::whole::WholePartition;
use run::rows::RowEvaluator;
use std::alloc::Global;

// What runs took: how many rows were held at most, and how many requests came too early.
#[derive(Clone, Copy)]
pub struct Told {
    pub held: usize,
    pub early: usize,
}

// The most rows held at once: so many, or those of a window that was shown.
fn most(held: usize, shown: &[(usize, usize)]) -> usize
    ensures { result ≡ most held shown.now }
{
    shown.iter().fold(
        held,
        |most, (begin, end)| most.max(end.saturating_sub(*begin)),
    )
}

impl Told {
    // With what one run more took, which was shown these rows for its answers.
    fn with_run(self, shown: &[(usize, usize)], early: usize) -> Told
        ensures { result ≡ with_run self shown.now early }
    {
        Told {
            held: most(self.held, shown),
            early: self.early.saturating_add(early),
        }
    }
}

// The answer of each row of a partition, asked of a run, and what runs took so far.
pub(crate) fn answer_by_rows<'a, E: RowEvaluator + Drop>(
    heap: Global,
    evaluator: &E,
    rows: &WholePartition<'_, E::Value>,
    step: usize,
    told: Told,
) -> Result<(Vec<E::Answer>, Told), Refusal<'a>>
    ensures answers { IfOk result (λ r. r.0.items ≡ row_answers (E.Evaluator.meaning evaluator.now) E.Evaluator.WANTS_FRAMES (input rows.now)) }
    ensures took { IfOk result (λ r. Took E.Evaluator.meaning evaluator.now (partition E.Evaluator.WANTS_FRAMES (input rows.now)) (from_zero rows.now.frames.now) step told r.1) }
    ensures refused { IfErr result Ran }
{
    match answer_moving(heap, evaluator, rows, step) {
        Ok(
            Moved {
                answers,
                shown,
                too_early,
            },
        ) => {
            let told = told.with_run(shown.as_slice(), too_early);
            Ok((answers, told))
        }
        Err(Stop::Memory) => Err(Refusal::Memory),
        Err(Stop::Refused(fault)) => Err(Refusal::Call(fault)),
    }
}
