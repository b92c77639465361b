// Output lists of one kind of entries.
ghost use Rattle.std.specs.Prelude.{◌≡◌, ℕ, ◌<◌, T, IfOk, slice_index_or, string_bytes, vec_len};
ghost use Rattle.drive.specs.Kept.{HoldsFrom};
ghost use Rattle.drive.specs.Whole.{handed_input, whole_text};

use crate::handed::Handed;
use crate::outcome::Refusal;
use evaluator::evaluator::Evaluator;
use evaluator::numbers::evaluate_numbers;
use lines::list::ShownList;
use lines::text::{Show, Value};
use std::alloc::{AllocError, Global};
use std::num::f64_to_bits_with_nan;

// A place of an output list.
pub trait Slot: Show {
    // What the list holds before a call.
    fn pattern() -> Self;

    fn is_same(self, other: Self) -> bool
        ensures { self ≡ other → T result };
}

impl Slot for u64 {
    fn pattern() -> u64 {
        7
    }

    fn is_same(self, other: u64) -> bool {
        self == other
    }
}

impl Slot for f64 {
    fn pattern() -> f64 {
        7.0
    }

    // Bit by bit.
    fn is_same(self, other: f64) -> bool {
        f64_to_bits_with_nan(self) == f64_to_bits_with_nan(other)
    }
}

// A peer group.
impl Slot for (usize, usize) {
    fn pattern() -> (usize, usize) {
        (7, 7)
    }

    fn is_same(self, other: (usize, usize)) -> bool {
        self == other
    }
}

// A list of so many, all the pattern.
pub(crate) fn patterned<A: Copy>(
    heap: Global,
    pattern: A,
    length: usize,
) -> Result<Vec<A>, AllocError>
    ensures { IfOk result (λ v. (vec_len v ≡ length) × ((k : ℕ) → k < length → slice_index_or v.items k pattern ≡ pattern)) }
{
    // a clone of a generic value is not known to be the value
    (0..length).map(|_| pattern).collect(heap)
}

// Whether a list holds the pattern from a place on.
pub(crate) fn is_kept<A: Slot>(list: &[A], from: usize, pattern: A) -> bool
    ensures { HoldsFrom pattern list.now from → T result }
{
    list.iter().skip(from).all(|slot| slot.is_same(pattern))
}

// The outcome of a call of an evaluator of numbers.
pub(crate) fn call_numbers<E: Evaluator>(
    heap: Global,
    evaluator: &E,
    handed: &Handed<E::Value>,
    length: usize,
) -> Result<String, AllocError>
where
    E::Value: Value,
    E::Answer: Slot,
    ensures { IfOk result (λ s. string_bytes s ≡ whole_text E.Value.Kind.same E.Answer.Show.text E.Evaluator.WANTS_FRAMES E.Evaluator.WANTS_GROUPS (E.Evaluator.meaning evaluator.now) (handed_input handed.now) length) }
{
    let pattern = E::Answer::pattern();
    let mut list = patterned(heap, pattern, length)?;
    let rows = handed.as_partition();
    let row_count = rows.column.values.len();
    let made = evaluate_numbers(evaluator, &rows, list.as_mut_slice());
    let answers = made.map_or(0, |()| row_count);
    if !is_kept(list.as_slice(), answers, pattern) {
        return String::from_str(heap, "clobbered");
    }
    match made {
        Ok(()) => {
            list.truncate(answers);
            format!(in heap; "ok:{}", ShownList(list.as_slice()))
        }
        Err(fault) => Refusal(fault).to_string(heap),
    }
}
