// Calls on whole partitions.
ghost use Rattle.std.specs.Prelude.{◌≡◌, ◌≤◌, false, true, length, map, slice_set, Ok, Err, IfOk};
ghost use Rattle.column.specs.Slots.{written};
ghost use Rattle.partition.specs.Table.{input, row_count, whole_refusal};
ghost use Rattle.evaluator.specs.Meaning.{WholeCall, partition};
ghost use Rattle.wire.specs.Functions.{choosing, ranking_of, fractional_of};
ghost use Rattle.wire.specs.Kinds.{CodingLaws};
ghost use Rattle.wire.specs.Lists.{over, span_of, pairs_of};
ghost use Rattle.wire.specs.Slots.{put_lent, lent_count};
ghost use Rattle.wire.specs.Stops.{first_of, refused};
ghost use Rattle.wire.specs.Whole.{handed, handed_input, read_stop, chosen_refusal, chosen_answers, chosen_left, cells_stop, CellsEnd, CellsCall, CellsFilled, number_family, ranking_refusal, ranking_answers, NumbersEnd, NumbersCall, fraction_family, fractional_answers, FractionsEnd, FractionsCall, peers_of, groups_stop, GroupsEnd, GroupsCall};

use crate::function::{CELLS, Chosen, FRACTIONS, Fractional, Function, NUMBERS, Ranking};
use crate::kinds::{Crossing, read_default, read_values};
use crate::lists::{Span, read_marks, read_spans};
use crate::output::LentCells;
use crate::reads::{Read, read_list};
use crate::stop::{Stop, Told};
use column::column::Column;
use column::fault::Fault;
use column::kind::Kind;
use evaluator::evaluator::Evaluator;
use evaluator::numbers::evaluate_numbers;
use partition::peers::peer_groups;
use partition::whole::WholePartition;
use rank::cume_dist::CumeDist;
use rank::rank::{PercentRank, Rank};
use rank::row_number::RowNumber;
use std::alloc::{AllocError, Global};
use std::marker::PhantomData;

// A partition as C lends it.
#[derive(Clone, Copy)]
pub struct Lent<'a, N> {
    pub values: &'a [N],
    pub marks: &'a [u8],
    pub frames: &'a [Span],
    pub groups: &'a [Span],
}

// What of a partition is made anew: the marks of its column, and its spans.
#[derive(Drop)]
struct Spans {
    frames: Vec<(usize, usize)>,
    groups: Vec<(usize, usize)>,
}

impl<N> Lent<'_, N> {
    fn spans(&self, heap: Global) -> Result<Spans, AllocError>
        ensures { IfOk result (λ s. (s.frames.items ≡ pairs_of self.now.frames.now) × (s.groups.items ≡ pairs_of self.now.groups.now)) }
    {
        Ok(Spans {
            frames: read_spans(heap, self.frames)?,
            groups: read_spans(heap, self.groups)?,
        })
    }
}

impl<V> Read<'_, V> {
    // The partition with these spans.
    fn rows<'a>(&'a self, spans: &'a Spans) -> WholePartition<'a, V>
        ensures { input result ≡ record { values = self.now.values.now; marks = self.now.marks.items; frames = spans.now.frames.items; groups = spans.now.groups.items } }
    {
        WholePartition::new(
            self.values,
            self.marks.as_slice(),
            spans.frames.as_slice(),
            spans.groups.as_slice(),
        )
    }
}

// The call, with the lists as one output; a function of its own, since what it leaves of lent lists is told at its return.
fn write_cells<C: Crossing, E: Evaluator<Value = C::Value, Answer = Option<C::Value>>>(
    evaluator: &E,
    rows: &WholePartition<'_, C::Value>,
    values: &mut [C::Numbers],
    marks: &mut [u8],
) -> Result<(), Fault>
    ensures { WholeCall (put_lent C.Crossing.coding.encoded) (whole_refusal C.Value.Kind.same E.Evaluator.WANTS_FRAMES E.Evaluator.WANTS_GROUPS (input rows.now) (lent_count (record { values = values.entry.now; marks = marks.old }))) ((E.Evaluator.meaning evaluator.now).answer (partition E.Evaluator.WANTS_FRAMES (input rows.now))) (row_count (input rows.now)) (record { values = values.entry.now; marks = marks.old }) (record { values = values.exit.now; marks = marks.new }) result }
{
    let mut out = LentCells {
        values,
        marks,
        crossing: PhantomData::<C>,
    };
    evaluator.evaluate_all(rows, &mut out)
}

fn write_chosen<C: Crossing>(
    chosen: &Chosen<C::Value>,
    rows: &WholePartition<'_, C::Value>,
    values: &mut [C::Numbers],
    marks: &mut [u8],
) -> Result<(), Fault>
    ensures { WholeCall (put_lent C.Crossing.coding.encoded) (chosen_refusal C.Value.Kind.same chosen.now (input rows.now) (lent_count (record { values = values.entry.now; marks = marks.old }))) (chosen_answers chosen.now (input rows.now)) (row_count (input rows.now)) (record { values = values.entry.now; marks = marks.old }) (record { values = values.exit.now; marks = marks.new }) result }
{
    match chosen {
        Chosen::Shift(shift) => write_cells::<C, _>(shift, rows, values, marks),
        Chosen::Nth(nth) => write_cells::<C, _>(nth, rows, values, marks),
    }
}

fn try_cells<C: Crossing>(
    heap: Global,
    function: &Function,
    default: C::Numbers,
    lent: &Lent<'_, C::Numbers>,
    values: &mut [C::Numbers],
    marks: &mut [u8],
) -> Result<(), Stop>
    ensures { CellsEnd Err (Ok tt) C.Crossing.coding C.Value.Kind.same function.now default (handed lent.now) (record { values = values.entry.now; marks = marks.old }) (record { values = values.exit.now; marks = marks.new }) result }
{
    let mut room = Vec::new(heap);
    let read = read_list::<C>(heap, function, CELLS, lent.values, lent.marks, &mut room)?;
    let spans = lent.spans(heap)?;
    let default = read_default::<C>(default)?;
    let chosen = function.choose(default)?;
    write_chosen::<C>(&chosen, &read.rows(&spans), values, marks)?;
    Ok(())
}

// The answers of LAG, LEAD, FIRST_VALUE, LAST_VALUE and NTH_VALUE.
pub fn cells<C: Crossing>(
    heap: Global,
    function: &Function,
    default: C::Numbers,
    lent: &Lent<'_, C::Numbers>,
    values: &mut [C::Numbers],
    marks: &mut [u8],
) -> Told
    ensures coding { CodingLaws C.Crossing.coding }
    ensures filled { CellsFilled C.Crossing.coding function.now default (handed lent.now) (record { values = values.entry.now; marks = marks.old }) (record { values = values.exit.now; marks = marks.new }) result }
    ensures call { CellsCall C.Crossing.coding C.Value.Kind.same function.now default (handed lent.now) (record { values = values.entry.now; marks = marks.old }) (record { values = values.exit.now; marks = marks.new }) result }
{
    Told::of_unit(try_cells::<C>(heap, function, default, lent, values, marks))
}

fn write_numbers<K: Kind>(
    ranking: Ranking,
    rows: &WholePartition<'_, K>,
    answers: &mut [u64],
) -> Result<(), Fault>
    ensures { WholeCall (λ s i a. slice_set s i a) (ranking_refusal K.Kind.same ranking (input rows.now) (length answers.old)) (ranking_answers K.Kind.same ranking (input rows.now)) (row_count (input rows.now)) answers.old answers.new result }
{
    match ranking {
        Ranking::Rank(rank_type) => evaluate_numbers(&Rank::<K>::new(rank_type), rows, answers),
        Ranking::RowNumber => evaluate_numbers(&RowNumber::<K>::new(), rows, answers),
    }
}

fn try_numbers<C: Crossing>(
    heap: Global,
    function: &Function,
    lent: &Lent<'_, C::Numbers>,
    answers: &mut [u64],
) -> Result<(), Stop>
    ensures { NumbersEnd Err (Ok tt) C.Crossing.coding C.Value.Kind.same function.now (handed lent.now) answers.old answers.new result }
{
    let mut room = Vec::new(heap);
    let read = read_list::<C>(heap, function, NUMBERS, lent.values, lent.marks, &mut room)?;
    let spans = lent.spans(heap)?;
    write_numbers(function.ranking(), &read.rows(&spans), answers)?;
    Ok(())
}

// The answers of RANK, DENSE_RANK and ROW_NUMBER.
pub fn numbers<C: Crossing>(
    heap: Global,
    function: &Function,
    lent: &Lent<'_, C::Numbers>,
    answers: &mut [u64],
) -> Told
    ensures { NumbersCall C.Crossing.coding C.Value.Kind.same function.now (handed lent.now) answers.old answers.new result }
{
    Told::of_unit(try_numbers::<C>(heap, function, lent, answers))
}

fn write_fractions<K: Kind>(
    fractional: Fractional,
    rows: &WholePartition<'_, K>,
    answers: &mut [f64],
) -> Result<(), Fault>
    ensures { WholeCall (λ s i a. slice_set s i a) (whole_refusal K.Kind.same false true (input rows.now) (length answers.old)) (fractional_answers K.Kind.same fractional (input rows.now)) (row_count (input rows.now)) answers.old answers.new result }
{
    match fractional {
        Fractional::PercentRank => evaluate_numbers(&PercentRank::<K>::new(), rows, answers),
        Fractional::CumeDist => evaluate_numbers(&CumeDist::<K>::new(), rows, answers),
    }
}

fn try_fractions<C: Crossing>(
    heap: Global,
    function: &Function,
    lent: &Lent<'_, C::Numbers>,
    answers: &mut [f64],
) -> Result<(), Stop>
    ensures { FractionsEnd Err (Ok tt) C.Crossing.coding C.Value.Kind.same function.now (handed lent.now) answers.old answers.new result }
{
    let mut room = Vec::new(heap);
    let read = read_list::<C>(
        heap,
        function,
        FRACTIONS,
        lent.values,
        lent.marks,
        &mut room,
    )?;
    let spans = lent.spans(heap)?;
    write_fractions(function.fractional(), &read.rows(&spans), answers)?;
    Ok(())
}

// The answers of PERCENT_RANK and CUME_DIST.
pub fn fractions<C: Crossing>(
    heap: Global,
    function: &Function,
    lent: &Lent<'_, C::Numbers>,
    answers: &mut [f64],
) -> Told
    ensures { FractionsCall C.Crossing.coding C.Value.Kind.same function.now (handed lent.now) answers.old answers.new result }
{
    Told::of_unit(try_fractions::<C>(heap, function, lent, answers))
}

// Writes the groups to the front of the list.
fn write_spans(groups: &[(usize, usize)], spans: &mut [Span])
    requires { length groups.now ≤ length spans.old }
    ensures { spans.new ≡ over (map span_of groups.now) spans.old }
{
    for (k, &(start, end)) in groups.iter().enumerate() {
        spans[k] = Span { start, end };
    }
}

fn try_groups<C: Crossing>(
    heap: Global,
    values: &[C::Numbers],
    marks: &[u8],
    spans: &mut [Span],
) -> Result<usize, Stop>
    ensures { GroupsEnd Err (λ n. Ok n) C.Crossing.coding C.Value.Kind.same values.entry.now marks.now spans.old spans.new result }
{
    let marks = read_marks(heap, marks)?;
    let mut room = Vec::new(heap);
    let values = read_values::<C>(heap, values, &mut room)?;
    let column = Column {
        values,
        marks: marks.as_slice(),
    };
    let mut groups = vec![in heap; (0, 0); spans.len()]?;
    let count = peer_groups(&column, groups.as_mut_slice())?;
    write_spans(&groups.as_slice()[..count], spans);
    Ok(count)
}

// The peer groups of a column, and their number.
pub fn groups<C: Crossing>(
    heap: Global,
    values: &[C::Numbers],
    marks: &[u8],
    spans: &mut [Span],
) -> Told
    ensures { GroupsCall C.Crossing.coding C.Value.Kind.same values.entry.now marks.now spans.old spans.new result }
{
    Told::of(try_groups::<C>(heap, values, marks, spans))
}
