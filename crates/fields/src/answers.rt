// What evaluators answer, written as fields.
ghost use Rattle.std.specs.Prelude.{◌≡◌, ℕ, true, List, IfOk, IfErr, OnOk, decimal, vec_len};
ghost use Rattle.fields.specs.Answers.{Stops, Wrote, cell_text, row_answers};
ghost use Rattle.fields.specs.declared.answers.Stop.TheVariants.{Memory};
ghost use Rattle.partition.specs.Table.{input, row_count, whole_refusal};

use crate::values::FieldValue;
use column::column::{Column, same_cell};
use column::fault::Fault;
use column::kind::Kind;
use evaluator::cells::evaluate_cells;
use evaluator::evaluator::Evaluator;
use evaluator::numbers::evaluate_numbers;
use partition::whole::WholePartition;
use std::alloc::{AllocError, Global};
use std::num::f64_to_bits_with_nan;

// Why there are no answers: no memory, or a check of the library that refuses the call.
#[derive(Clone, Copy)]
pub enum Stop {
    Memory,
    Refused(Fault),
}

impl<E: Into<AllocError>> From<E> for Stop {
    ghost from_gives = { λ _ r. r ≡ Memory };

    fn from(e: E) -> Stop {
        let AllocError = e.into();
        Stop::Memory
    }
}

// The answers of an evaluator of this kind of values.
pub trait Answer<K: Kind>: Copy {
    // Holds of an answer and the content that it is written as.
    ghost writes: { Self → List ℕ → Type 0 };

    // Of each row of a partition.
    fn whole<E: Evaluator<Value = K, Answer = Self>>(
        heap: Global,
        evaluator: &E,
        rows: &WholePartition<'_, K>,
    ) -> Result<Vec<Self>, Stop>
        ensures answers { IfOk result (λ v. v.items ≡ row_answers (E.Evaluator.meaning evaluator.now) E.Evaluator.WANTS_FRAMES (input rows.now)) }
        ensures refused { IfErr result (Stops (whole_refusal K.Kind.same E.Evaluator.WANTS_FRAMES E.Evaluator.WANTS_GROUPS (input rows.now) (row_count (input rows.now)))) };

    // No answer differs from itself.
    fn is_same(&self, other: &Self) -> bool
        ensures { self.now ≡ other.now → result ≡ true };

    // The content of an answer's field, behind a text; that of NULL is empty.
    fn write(&self, heap: Global, out: &mut Vec<u8>) -> Result<(), AllocError>
        ensures { OnOk result (Wrote writes self.now out.old.items out.new.items) };
}

// So many values.
fn fillers<K: FieldValue>(heap: Global, count: usize) -> Result<Vec<K>, AllocError>
    ensures { IfOk result (λ v. vec_len v ≡ count) }
{
    (0..count).map(|_| K::filler()).collect(heap)
}

impl<K: FieldValue> Answer<K> for Option<K> {
    ghost writes = { λ a t. t ≡ cell_text K.FieldValue.text a };

    fn whole<E: Evaluator<Value = K, Answer = Option<K>>>(
        heap: Global,
        evaluator: &E,
        rows: &WholePartition<'_, K>,
    ) -> Result<Vec<Option<K>>, Stop> {
        let count = rows.column.values.len();
        let mut values = fillers::<K>(heap, count)?;
        let mut marks = vec![in heap; false; count]?;
        match evaluate_cells(evaluator, rows, values.as_mut_slice(), marks.as_mut_slice()) {
            Ok(()) => {
                let answers = Column {
                    values: values.as_slice(),
                    marks: marks.as_slice(),
                };
                Ok(answers.to_cells(heap)?)
            }
            Err(fault) => Err(Stop::Refused(fault)),
        }
    }

    fn is_same(&self, other: &Option<K>) -> bool {
        same_cell(*self, *other)
    }

    fn write(&self, heap: Global, out: &mut Vec<u8>) -> Result<(), AllocError> {
        match self {
            Some(value) => value.write(heap, out),
            None => Ok(()),
        }
    }
}

// A whole number.
impl<K: Kind> Answer<K> for u64 {
    ghost writes = { λ a t. t ≡ decimal a };

    fn whole<E: Evaluator<Value = K, Answer = u64>>(
        heap: Global,
        evaluator: &E,
        rows: &WholePartition<'_, K>,
    ) -> Result<Vec<u64>, Stop> {
        let mut answers = vec![in heap; 0u64; rows.column.values.len()]?;
        match evaluate_numbers(evaluator, rows, answers.as_mut_slice()) {
            Ok(()) => Ok(answers),
            Err(fault) => Err(Stop::Refused(fault)),
        }
    }

    fn is_same(&self, other: &u64) -> bool {
        *self == *other
    }

    fn write(&self, heap: Global, out: &mut Vec<u8>) -> Result<(), AllocError> {
        let text = self.to_string(heap)?;
        out.extend_from_slice(text.as_str().as_bytes())
    }
}

// A fraction, as the shortest decimal that is read back as it.
impl<K: Kind> Answer<K> for f64 {
    // of the digits nothing is proved
    ghost writes = { λ a t. Unit {0} };

    fn whole<E: Evaluator<Value = K, Answer = f64>>(
        heap: Global,
        evaluator: &E,
        rows: &WholePartition<'_, K>,
    ) -> Result<Vec<f64>, Stop> {
        let mut answers = vec![in heap; 0.0f64; rows.column.values.len()]?;
        match evaluate_numbers(evaluator, rows, answers.as_mut_slice()) {
            Ok(()) => Ok(answers),
            Err(fault) => Err(Stop::Refused(fault)),
        }
    }

    fn is_same(&self, other: &f64) -> bool {
        f64_to_bits_with_nan(*self) == f64_to_bits_with_nan(*other)
    }

    fn write(&self, heap: Global, out: &mut Vec<u8>) -> Result<(), AllocError> {
        let text = self.to_string(heap)?;
        out.extend_from_slice(text.as_str().as_bytes())
    }
}
