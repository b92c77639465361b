// The answers of all rows in turn, partition by partition.
ghost use Rattle.std.specs.Prelude.{◌≡◌, ◌<◌, true, None, IfErr, IfOk, length, map, vec_len};
ghost use Rattle.std.specs.List.{flat_map};
ghost use Rattle.desk.specs.Answers.{answers_in_turn, part_answers, parted};
ghost use Rattle.desk.specs.Functions.{order_cells};
ghost use Rattle.desk.specs.Parts.{part};
ghost use Rattle.desk.specs.Refusals.{Ran};
ghost use Rattle.desk.specs.Runs.{TookAll, TookPart, none_told};
ghost use Rattle.desk.specs.Stops.{OneRefuses, PartRefuses};

use crate::by_rows::{Told, answer_by_rows};
use crate::parts::{Wants, order_value, part_of};
use crate::refusal::Refusal;
use column::kind::Instant;
use evaluator::evaluator::Evaluator;
use fields::answers::{Answer, Stop};
use fields::values::FieldValue;
use options::frame::RowsFrame;
use run::rows::RowEvaluator;
use std::alloc::{AllocError, Global};
use turns::layout::Turn;

// The rows of each partition.
pub(crate) fn parts_of<'t>(heap: Global, turns: &'t [Turn]) -> Result<Vec<&'t [Turn]>, AllocError>
    ensures { IfOk result (λ v. map (λ p. p.now) v.items ≡ parted turns.now) }
{
    turns
        .chunk_by(|a, b| a.partition == b.partition)
        .collect(heap)
}

// All rows in turn with their cells, and how they are asked.
#[derive(Drop)]
pub(crate) struct Given<'c, K> {
    pub heap: Global,
    pub turns: &'c [Turn],
    pub cells: &'c [Option<K>],
    pub frame: Option<RowsFrame>,
}

impl<K: FieldValue> Given<'_, K> {
    // The answers of the rows of a partition.
    fn answer_part<'a, E: Evaluator<Value = K>>(
        &self,
        evaluator: &E,
        turns: &[Turn],
    ) -> Result<Vec<E::Answer>, Refusal<'a>>
    where
        E::Answer: Answer<K>,
        ensures answers { IfOk result (λ v. v.items ≡ part_answers (E.Evaluator.meaning evaluator.now) E.Evaluator.WANTS_FRAMES self.now.frame self.now.cells.now turns.now) }
        ensures refused { IfErr result (PartRefuses K.Kind.same E.Evaluator.WANTS_FRAMES E.Evaluator.WANTS_GROUPS self.now.frame self.now.cells.now turns.now) }
    {
        let wants = Wants {
            frames: E::WANTS_FRAMES,
            groups: E::WANTS_GROUPS,
        };
        let part = part_of(self.heap, turns, self.cells, self.frame, wants)?;
        match E::Answer::whole(self.heap, evaluator, &part.as_partition()) {
            Ok(answers) => Ok(answers),
            Err(Stop::Memory) => Err(Refusal::Memory),
            Err(Stop::Refused(fault)) => Err(Refusal::Call(fault)),
        }
    }

    // Those of the rows of some partitions.
    fn answer_parts<'a, E: Evaluator<Value = K>>(
        &self,
        evaluator: &E,
        parts: &[&[Turn]],
    ) -> Result<Vec<E::Answer>, Refusal<'a>>
    where
        E::Answer: Answer<K>,
        ensures answers { IfOk result (λ v. v.items ≡ flat_map (part_answers (E.Evaluator.meaning evaluator.now) E.Evaluator.WANTS_FRAMES self.now.frame self.now.cells.now) (map (λ p. p.now) parts.now)) }
        ensures refused { IfErr result (OneRefuses K.Kind.same E.Evaluator.WANTS_FRAMES E.Evaluator.WANTS_GROUPS self.now.frame self.now.cells.now (map (λ p. p.now) parts.now)) }
    {
        let mut answers = Vec::new(self.heap);
        for turns in parts {
            let more = self.answer_part(evaluator, *turns)?;
            answers.extend_from_slice(more.as_slice())?;
        }
        Ok(answers)
    }

    // The answers of all rows, in turn.
    #[tactic(auto, using(crate::proofs::Parted::answers_long))]
    pub fn whole<'a, E: Evaluator<Value = K>>(
        &self,
        evaluator: &E,
    ) -> Result<Vec<E::Answer>, Refusal<'a>>
    where
        E::Answer: Answer<K>,
        ensures answers { IfOk result (λ v. v.items ≡ answers_in_turn (E.Evaluator.meaning evaluator.now) E.Evaluator.WANTS_FRAMES self.now.frame self.now.cells.now self.now.turns.now) }
        ensures long { IfOk result (λ v. vec_len v ≡ length self.now.turns.now) }
        ensures refused { IfErr result (OneRefuses K.Kind.same E.Evaluator.WANTS_FRAMES E.Evaluator.WANTS_GROUPS self.now.frame self.now.cells.now (parted self.now.turns.now)) }
    {
        let parts = parts_of(self.heap, self.turns)?;
        self.answer_parts(evaluator, parts.as_slice())
    }

    // The answers of the rows of a partition, asked of a run, and what runs took so far.
    #[tactic(auto, using(crate::proofs::Reasons::refuses_ran))]
    fn ask_part<'a, E: RowEvaluator<Value = K> + Drop>(
        &self,
        evaluator: &E,
        turns: &[Turn],
        step: usize,
        told: Told,
    ) -> Result<(Vec<E::Answer>, Told), Refusal<'a>>
        ensures answers { IfOk result (λ r. r.0.items ≡ part_answers (E.Evaluator.meaning evaluator.now) E.Evaluator.WANTS_FRAMES self.now.frame self.now.cells.now turns.now) }
        ensures took { IfOk result (λ r. TookPart E.Evaluator.meaning evaluator.now (part E.Evaluator.WANTS_FRAMES self.now.frame self.now.cells.now) step told turns.now r.1) }
        ensures refused { IfErr result Ran }
    {
        let wants = Wants {
            frames: E::WANTS_FRAMES,
            groups: false,
        };
        let part = part_of(self.heap, turns, self.cells, self.frame, wants)?;
        answer_by_rows(self.heap, evaluator, &part.as_partition(), step, told)
    }

    // Those of the rows of some partitions.
    fn ask_parts<'a, E: RowEvaluator<Value = K> + Drop>(
        &self,
        evaluator: &E,
        parts: &[&[Turn]],
        step: usize,
    ) -> Result<(Vec<E::Answer>, Told), Refusal<'a>>
        ensures answers { IfOk result (λ r. r.0.items ≡ flat_map (part_answers (E.Evaluator.meaning evaluator.now) E.Evaluator.WANTS_FRAMES self.now.frame self.now.cells.now) (map (λ p. p.now) parts.now)) }
        ensures took { IfOk result (λ r. TookAll E.Evaluator.meaning evaluator.now (part E.Evaluator.WANTS_FRAMES self.now.frame self.now.cells.now) step none_told (map (λ p. p.now) parts.now) r.1) }
        ensures refused { IfErr result Ran }
    {
        let mut told = Told { held: 0, early: 0 };
        let mut answers = Vec::new(self.heap);
        for turns in parts {
            let (more, taken) = self.ask_part(evaluator, *turns, step, told)?;
            told = taken;
            answers.extend_from_slice(more.as_slice())?;
        }
        Ok((answers, told))
    }

    // The answers of all rows in turn, asked of runs that are shown so many rows more at a time.
    fn by_rows<'a, E: RowEvaluator<Value = K> + Drop>(
        &self,
        evaluator: &E,
        step: usize,
    ) -> Result<(Vec<E::Answer>, Told), Refusal<'a>>
        ensures answers { IfOk result (λ r. r.0.items ≡ answers_in_turn (E.Evaluator.meaning evaluator.now) E.Evaluator.WANTS_FRAMES self.now.frame self.now.cells.now self.now.turns.now) }
        ensures took { IfOk result (λ r. TookAll E.Evaluator.meaning evaluator.now (part E.Evaluator.WANTS_FRAMES self.now.frame self.now.cells.now) step none_told (parted self.now.turns.now) r.1) }
        ensures refused { IfErr result Ran }
    {
        let parts = parts_of(self.heap, self.turns)?;
        self.ask_parts(evaluator, parts.as_slice(), step)
    }

    // What runs took that gave the same answers as the whole partitions.
    pub fn check_rows<'a, E: RowEvaluator<Value = K> + Drop>(
        &self,
        evaluator: &E,
        step: usize,
        whole: &[E::Answer],
    ) -> Result<Told, Refusal<'a>>
    where
        E::Answer: Answer<K>,
        requires { whole.now ≡ answers_in_turn (E.Evaluator.meaning evaluator.now) E.Evaluator.WANTS_FRAMES self.now.frame self.now.cells.now self.now.turns.now }
        ensures took { IfOk result (TookAll E.Evaluator.meaning evaluator.now (part E.Evaluator.WANTS_FRAMES self.now.frame self.now.cells.now) step none_told (parted self.now.turns.now)) }
        ensures refused { IfErr result Ran }
    {
        let (answers, told) = self.by_rows(evaluator, step)?;
        if let Some(place) = first_difference::<K, E::Answer>(whole, answers.as_slice()) {
            let row = self.turns.get(place).map_or(0, |turn| turn.row);
            return Err(Refusal::Differs {
                record: row.saturating_add(1),
            });
        }
        Ok(told)
    }
}

// Whether two lists have the same answer at a place.
fn same_at<K: FieldValue, A: Answer<K>>(whole: &[A], by_rows: &[A], place: usize) -> bool
    requires { place < length whole.now }
    ensures { whole.now ≡ by_rows.now → result ≡ true }
{
    match by_rows.get(place) {
        Some(answer) => whole[place].is_same(answer),
        None => false,
    }
}

// The first place at which a list of answers differs from another.
fn first_difference<K: FieldValue, A: Answer<K>>(whole: &[A], by_rows: &[A]) -> Option<usize>
    ensures { whole.now ≡ by_rows.now → result ≡ None }
{
    for place in 0..whole.len() {
        if !same_at::<K, A>(whole, by_rows, place) {
            return Some(place);
        }
    }
    None
}

// The numbers of the rows' order as cells.
pub(crate) fn order_cells(
    heap: Global,
    orders: &[usize],
) -> Result<Vec<Option<Instant>>, AllocError>
    ensures { IfOk result (λ v. v.items ≡ order_cells orders.now) }
{
    orders
        .iter()
        .map(|order| Some(order_value(*order)))
        .collect(heap)
}
