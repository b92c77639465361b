// Answers that a call on a whole partition writes into lists of a pattern.
ghost use Rattle.std.specs.Prelude.{◌≡◌, ◌≤◌, ℕ, List, T, decimal, length, take, IfOk, string_bytes};
ghost use Rattle.column.specs.Cells.{column_cells};
ghost use Rattle.column.specs.Refusal.{row_limit};
ghost use Rattle.lines.specs.Back.{ReadsBack};
ghost use Rattle.lines.specs.Cursors.{Onward};
ghost use Rattle.drive.specs.Kept.{writable, ValuesKept, MarksKept};
ghost use Rattle.drive.specs.declared.handed.Lengths.{Lengths};
ghost use Rattle.drive.specs.Outcomes.{answers_text};
ghost use Rattle.drive.specs.Reads.{OneLength, TwoLengths};
ghost use Rattle.drive.specs.Whole.{handed_input, slot_count, whole_text};
ghost use Rattle.lines.specs.Texts.{cell_text};

use crate::handed::{Handed, Lengths, read_length};
use crate::outcome::Refusal;
use crate::slots::{call_numbers, patterned};
use column::column::Column;
use column::kind::Kind;
use evaluator::cells::evaluate_cells;
use evaluator::evaluator::Evaluator;
use lines::columns::Lists;
use lines::cursor::Cursor;
use lines::list::ShownList;
use lines::stop::Bad;
use lines::text::{Show, Value};
use std::alloc::{AllocError, Global};

// What an evaluator of this kind of values answers, with the lists that it is written to.
pub trait Answer<K: Kind>: Show {
    // Holds of lengths and the text that they are read from.
    ghost sized: { Lengths → List ℕ → Type 0 };

    fn read_lengths(cursor: &mut Cursor<'_>) -> Result<Lengths, Bad>
        ensures back { (l : Lengths) (text : List ℕ) → sized l text → ReadsBack text l cursor.old result cursor.new }
        ensures onward { Onward cursor.old cursor.new };

    // The outcome of the call, on output lists that hold a pattern.
    fn call<E: Evaluator<Value = K, Answer = Self>>(
        heap: Global,
        evaluator: &E,
        handed: &Handed<K>,
        lengths: Lengths,
    ) -> Result<String, AllocError>
        ensures { IfOk result (λ s. string_bytes s ≡ whole_text K.Kind.same (Self.Show.text) E.Evaluator.WANTS_FRAMES E.Evaluator.WANTS_GROUPS (E.Evaluator.meaning evaluator.now) (handed_input handed.now) (slot_count lengths)) };
}

// So many of a list from its front, or all of it. No copy: an output list may be much longer than the answers.
fn front<T>(list: &[T], count: usize) -> &[T]
    ensures { result.now ≡ take count list.now }
{
    &list[..count.min(list.len())]
}

// The output lists after a call, and how many answers it gave.
#[derive(Clone, Copy)]
struct Written<'a, K> {
    lists: Column<'a, K>,
    answers: usize,
}

impl<K: Value> Written<'_, K> {
    // Whether the call may write the value of row `i`: NULL is written as a mark alone.
    fn is_writable(&self, i: usize) -> bool
        ensures { result ≡ writable self.now.lists.marks.now self.now.answers i }
    {
        i < self.answers && self.lists.is_marked(i)
    }

    // Whether the values that the call must not touch hold the pattern; a `zip` would pass over those behind the last mark.
    fn values_kept(&self, pattern: K) -> bool
        ensures told { T result → ValuesKept K.Kind.same pattern self.now.lists.values.now self.now.lists.marks.now self.now.answers (length self.now.lists.values.now) }
        ensures found { ValuesKept K.Kind.same pattern self.now.lists.values.now self.now.lists.marks.now self.now.answers (length self.now.lists.values.now) → T result }
    {
        self.lists
            .values
            .iter()
            .enumerate()
            .all(|(i, value)| self.is_writable(i) || value.same(&pattern))
    }

    // Whether the marks past the answers are true.
    fn marks_kept(&self) -> bool
        ensures told { T result → MarksKept self.now.lists.marks.now self.now.answers (length self.now.lists.marks.now) }
        ensures found { MarksKept self.now.lists.marks.now self.now.answers (length self.now.lists.marks.now) → T result }
    {
        self.lists.marks.iter().skip(self.answers).all(|mark| *mark)
    }

    // Whether all that the call must not touch is as it was.
    fn is_kept(&self, pattern: K) -> bool
        ensures { ValuesKept K.Kind.same pattern self.now.lists.values.now self.now.lists.marks.now self.now.answers (length self.now.lists.values.now) × MarksKept self.now.lists.marks.now self.now.answers (length self.now.lists.marks.now) → T result }
    {
        self.values_kept(pattern) && self.marks_kept()
    }

    #[tactic(auto, using(crate::proofs::Cells::cells_front))]
    fn show(&self, heap: Global) -> Result<String, AllocError>
        ensures { IfOk result (λ s. string_bytes s ≡ answers_text (cell_text K.Show.text) (take self.now.answers (column_cells self.now.lists))) }
    {
        let answered = Column {
            values: front(self.lists.values, self.answers),
            marks: front(self.lists.marks, self.answers),
        };
        let cells = answered.to_cells(heap)?;
        format!(in heap; "ok:{}", ShownList(cells.as_slice()))
    }
}

impl<K: Value> Answer<K> for Option<K> {
    ghost sized = { TwoLengths };

    fn read_lengths(cursor: &mut Cursor<'_>) -> Result<Lengths, Bad> {
        let values = read_length(cursor)?;
        cursor.expect(b',')?;
        let marks = read_length(cursor)?;
        Ok(Lengths { values, marks })
    }

    fn call<E: Evaluator<Value = K, Answer = Option<K>>>(
        heap: Global,
        evaluator: &E,
        handed: &Handed<K>,
        lengths: Lengths,
    ) -> Result<String, AllocError> {
        let pattern = K::pattern();
        let mut lists = Lists {
            values: patterned(heap, pattern, lengths.values)?,
            marks: patterned(heap, true, lengths.marks)?,
        };
        let rows = handed.as_partition();
        let row_count = rows.column.values.len();
        let made = evaluate_cells(
            evaluator,
            &rows,
            lists.values.as_mut_slice(),
            lists.marks.as_mut_slice(),
        );
        let written = Written {
            lists: lists.as_column(),
            answers: made.map_or(0, |()| row_count),
        };
        if !written.is_kept(pattern) {
            return String::from_str(heap, "clobbered");
        }
        match made {
            Ok(()) => written.show(heap),
            Err(fault) => Refusal(fault).to_string(heap),
        }
    }
}

// A whole number, with one list.
impl<K: Value> Answer<K> for u64 {
    ghost sized = { OneLength };

    fn read_lengths(cursor: &mut Cursor<'_>) -> Result<Lengths, Bad> {
        read_one_length(cursor)
    }

    fn call<E: Evaluator<Value = K, Answer = u64>>(
        heap: Global,
        evaluator: &E,
        handed: &Handed<K>,
        lengths: Lengths,
    ) -> Result<String, AllocError> {
        call_numbers(heap, evaluator, handed, lengths.values.min(lengths.marks))
    }
}

// A fraction likewise.
impl<K: Value> Answer<K> for f64 {
    ghost sized = { OneLength };

    fn read_lengths(cursor: &mut Cursor<'_>) -> Result<Lengths, Bad> {
        read_one_length(cursor)
    }

    fn call<E: Evaluator<Value = K, Answer = f64>>(
        heap: Global,
        evaluator: &E,
        handed: &Handed<K>,
        lengths: Lengths,
    ) -> Result<String, AllocError> {
        call_numbers(heap, evaluator, handed, lengths.values.min(lengths.marks))
    }
}

fn read_one_length(cursor: &mut Cursor<'_>) -> Result<Lengths, Bad>
    ensures back { (l : Lengths) (text : List ℕ) → OneLength l text → ReadsBack text l cursor.old result cursor.new }
    ensures onward { Onward cursor.old cursor.new }
{
    let values = read_length(cursor)?;
    Ok(Lengths {
        values,
        marks: values,
    })
}
