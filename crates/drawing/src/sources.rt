// Where the answers of a partition come from: what its evaluator answers where each row's value is the row's own place.
ghost use Rattle.std.specs.Prelude.{◌≡◌, IfOk, List, [], length, map, slice_get, Some};
ghost use Rattle.std.specs.List.{range_with_len};
ghost use Rattle.fields.specs.Answers.{row_answers};
ghost use Rattle.partition.specs.Table.{input};
ghost use Rattle.options.specs.declared.function.Function.TheVariants.{NthValue as NthValueFunction};
ghost use Rattle.picture.specs.declared.row.Source.TheVariants.{Nothing};
ghost use Rattle.drawing.specs.Sources.{held, NoSources, Sees, SeesAnswers, SeesNone, SeesNth, SeesShift, ShownBy, counts, default_value, is_void, place_value, places, source_of};

use column::column::Column;
use column::kind::Instant;
use evaluator::evaluator::Evaluator;
use fields::answers::{Answer, Stop};
use lead_lag::WindowShift;
use lead_lag::offset::WindowShiftKind;
use moving::moving::{Moved, answer_moving};
use moving::stop::Stop as Stuck;
use nth_value::NthValue;
use options::asked::Asked;
use options::function::Function;
use partition::whole::WholePartition;
use picture::row::Source;
use rank::rank::{Rank, RankType};
use rank::row_number::RowNumber;
use run::rows::RowEvaluator;
use std::alloc::{AllocError, Global};
use table::content::Content;
use turns::layout::Turn;

// The value that stands for the default: no place.
fn default_value() -> Instant
    ensures { result ≡ default_value }
{
    Instant(-1)
}

fn place_value(place: usize) -> Instant
    ensures { result ≡ place_value place }
{
    Instant(i64::try_from(place).unwrap_or(i64::MAX))
}

// Where an answer over the places comes from.
fn source_of(answer: Option<Instant>) -> Source
    ensures { result ≡ source_of answer }
{
    match answer {
        None => Source::Nothing,
        Some(Instant(place)) => match usize::try_from(place) {
            Ok(row) => Source::Row(row),
            Err(_) => Source::Default,
        },
    }
}

// Whether a row has no value.
fn is_void(contents: &[Content<'_>], row: usize) -> bool
    ensures { result ≡ is_void (slice_get contents.now row) }
{
    match contents.get(row) {
        Some(content) => content.bytes().is_empty(),
        None => true,
    }
}

// Whether a row counts: it has a value, or NULLs count too.
fn counts(ignores: bool, contents: &[Content<'_>], row: usize) -> bool
    ensures { result ≡ counts ignores contents.now row }
{
    !(ignores && is_void(contents, row))
}

fn values_of(heap: Global, rows: usize) -> Result<Vec<Instant>, AllocError>
    ensures { IfOk result (λ v. v.items ≡ map place_value (range_with_len 0 rows)) }
{
    (0..rows).map(|place| place_value(place)).collect(heap)
}

fn marks_of(
    heap: Global,
    ignores: bool,
    contents: &[Content<'_>],
    turns: &[Turn],
) -> Result<Vec<bool>, AllocError>
    ensures { IfOk result (λ v. v.items ≡ map (λ t. counts ignores contents.now t.row) turns.now) }
{
    turns
        .iter()
        .map(|turn| counts(ignores, contents, turn.row))
        .collect(heap)
}

// The places of a partition's rows as a column, with the frames of the rows.
#[derive(Drop)]
pub struct Places<'f> {
    values: Vec<Instant>,
    marks: Vec<bool>,
    frames: &'f [(usize, usize)],
}

pub fn places_of<'f>(
    heap: Global,
    ignores: bool,
    contents: &[Content<'_>],
    turns: &[Turn],
    frames: &'f [(usize, usize)],
) -> Result<Places<'f>, AllocError>
    ensures { IfOk result (λ p. held p ≡ places ignores contents.now turns.now frames.now) }
{
    Ok(Places {
        values: values_of(heap, turns.len())?,
        marks: marks_of(heap, ignores, contents, turns)?,
        frames,
    })
}

impl Places<'_> {
    fn as_partition(&self) -> WholePartition<'_, Instant>
        ensures { input result ≡ held self.now }
    {
        WholePartition {
            column: Column {
                values: self.values.as_slice(),
                marks: self.marks.as_slice(),
            },
            frames: self.frames,
            groups: &[],
        }
    }
}

// Where the answer of each row comes from, and what a run was shown for it; nothing is shown where whole partitions are answered.
#[derive(Drop)]
pub struct Seen {
    pub sources: Vec<Source>,
    pub shown: Vec<(usize, usize)>,
}

// The answers of a partition, and what a run was shown for each.
#[derive(Drop)]
struct Told<A> {
    answers: Vec<A>,
    shown: Vec<(usize, usize)>,
}

fn told_whole<E: Evaluator<Value = Instant>>(
    heap: Global,
    evaluator: &E,
    rows: &WholePartition<'_, Instant>,
) -> Result<Told<E::Answer>, Stop>
where
    E::Answer: Answer<Instant>,
    ensures { IfOk result (λ t. (t.answers.items ≡ row_answers (E.Evaluator.meaning evaluator.now) E.Evaluator.WANTS_FRAMES (input rows.now)) × (t.shown.items ≡ [])) }
{
    Ok(Told {
        answers: E::Answer::whole(heap, evaluator, rows)?,
        shown: Vec::new(heap),
    })
}

fn told_by_rows<E: RowEvaluator<Value = Instant> + Drop>(
    heap: Global,
    evaluator: &E,
    rows: &WholePartition<'_, Instant>,
    step: usize,
) -> Result<Told<E::Answer>, Stop>
    ensures { IfOk result (λ t. (t.answers.items ≡ row_answers (E.Evaluator.meaning evaluator.now) E.Evaluator.WANTS_FRAMES (input rows.now)) × ShownBy E.Evaluator.meaning evaluator.now E.Evaluator.WANTS_FRAMES (input rows.now) (Some step) t.shown.items) }
{
    match answer_moving(heap, evaluator, rows, step) {
        Ok(Moved { answers, shown, .. }) => Ok(Told { answers, shown }),
        Err(Stuck::Memory) => Err(Stop::Memory),
        Err(Stuck::Refused(fault)) => Err(Stop::Refused(fault)),
    }
}

fn ask<E: RowEvaluator<Value = Instant> + Drop>(
    heap: Global,
    evaluator: &E,
    rows: &WholePartition<'_, Instant>,
    by_rows: Option<usize>,
) -> Result<Told<E::Answer>, Stop>
where
    E::Answer: Answer<Instant>,
    ensures { IfOk result (λ t. (t.answers.items ≡ row_answers (E.Evaluator.meaning evaluator.now) E.Evaluator.WANTS_FRAMES (input rows.now)) × ShownBy E.Evaluator.meaning evaluator.now E.Evaluator.WANTS_FRAMES (input rows.now) by_rows t.shown.items) }
{
    match by_rows {
        Some(step) => told_by_rows(heap, evaluator, rows, step),
        None => told_whole(heap, evaluator, rows),
    }
}

fn sources_of(heap: Global, answers: &[Option<Instant>]) -> Result<Vec<Source>, AllocError>
    ensures { IfOk result (λ v. v.items ≡ map source_of answers.now) }
{
    answers
        .iter()
        .map(|answer| source_of(*answer))
        .collect(heap)
}

// A function of values: its answers over the places are places.
fn see<E: RowEvaluator<Value = Instant, Answer = Option<Instant>> + Drop>(
    heap: Global,
    evaluator: &E,
    places: &Places<'_>,
    by_rows: Option<usize>,
) -> Result<Seen, Stop>
    ensures { IfOk result (Sees E.Evaluator.meaning evaluator.now E.Evaluator.WANTS_FRAMES (held places.now) by_rows) }
{
    let told = ask(heap, evaluator, &places.as_partition(), by_rows)?;
    Ok(Seen {
        sources: sources_of(heap, told.answers.as_slice())?,
        shown: told.shown,
    })
}

fn no_sources(heap: Global, values: &[Instant]) -> Result<Vec<Source>, AllocError>
    ensures { IfOk result (λ v. v.items ≡ map (λ i. Nothing) values.now) }
{
    values.iter().map(|_| Source::Nothing).collect(heap)
}

// What a run is shown for each row, where rows are asked one by one.
fn shown_by<E: RowEvaluator<Value = Instant> + Drop>(
    heap: Global,
    evaluator: &E,
    rows: &WholePartition<'_, Instant>,
    by_rows: Option<usize>,
) -> Result<Vec<(usize, usize)>, Stop>
    ensures { IfOk result (λ v. ShownBy E.Evaluator.meaning evaluator.now E.Evaluator.WANTS_FRAMES (input rows.now) by_rows v.items) }
{
    match by_rows {
        Some(step) => {
            let told = told_by_rows(heap, evaluator, rows, step)?;
            Ok(told.shown)
        }
        None => Ok(Vec::new(heap)),
    }
}

// A function of the order alone: only what a run is shown is asked, since its answers are no places.
fn see_none<E: RowEvaluator<Value = Instant> + Drop>(
    heap: Global,
    evaluator: &E,
    places: &Places<'_>,
    by_rows: Option<usize>,
) -> Result<Seen, Stop>
    ensures { IfOk result (SeesNone E.Evaluator.meaning evaluator.now E.Evaluator.WANTS_FRAMES (held places.now) by_rows) }
{
    Ok(Seen {
        sources: no_sources(heap, places.values.as_slice())?,
        shown: shown_by(heap, evaluator, &places.as_partition(), by_rows)?,
    })
}

fn see_shift(
    heap: Global,
    kind: WindowShiftKind,
    asked: &Asked<'_>,
    places: &Places<'_>,
) -> Result<Seen, Stop>
    ensures { IfOk result (SeesShift kind asked.now (held places.now)) }
{
    let default = Some(default_value());
    match WindowShift::new(kind, asked.offset, false, asked.ignore_nulls, default) {
        Ok(shift) => see(heap, &shift, places, asked.by_rows),
        Err(fault) => Err(Stop::Refused(fault)),
    }
}

fn see_nth(heap: Global, asked: &Asked<'_>, places: &Places<'_>) -> Result<Seen, Stop>
    ensures { IfOk result (SeesAnswers NthValueFunction asked.now (held places.now)) }
{
    match NthValue::nth(asked.n, asked.ignore_nulls) {
        Ok(nth) => see(heap, &nth, places, asked.by_rows),
        Err(fault) => Err(Stop::Refused(fault)),
    }
}

// A function that has no row interface, and answers no values.
fn see_nothing(heap: Global, places: &Places<'_>) -> Result<Seen, Stop>
    ensures { IfOk result (λ seen. NoSources (held places.now) seen × (seen.shown.items ≡ [])) }
{
    Ok(Seen {
        sources: no_sources(heap, places.values.as_slice())?,
        shown: Vec::new(heap),
    })
}

// What is seen of the answers over the places of a partition's rows.
pub fn see_answers(heap: Global, asked: &Asked<'_>, places: &Places<'_>) -> Result<Seen, Stop>
    ensures { IfOk result (SeesAnswers asked.now.function asked.now (held places.now)) }
{
    let ignores = asked.ignore_nulls;
    let by_rows = asked.by_rows;
    match asked.function {
        Function::Lag => see_shift(heap, WindowShiftKind::Lag, asked, places),
        Function::Lead => see_shift(heap, WindowShiftKind::Lead, asked, places),
        Function::FirstValue => see(heap, &NthValue::first(ignores), places, by_rows),
        Function::LastValue => see(heap, &NthValue::last(ignores), places, by_rows),
        Function::NthValue => see_nth(heap, asked, places),
        Function::Rank => see_none(
            heap,
            &Rank::<Instant>::new(RankType::Basic),
            places,
            by_rows,
        ),
        Function::DenseRank => {
            see_none(
                heap,
                &Rank::<Instant>::new(RankType::Dense),
                places,
                by_rows,
            )
        }
        Function::RowNumber => see_none(heap, &RowNumber::<Instant>::new(), places, by_rows),
        Function::PercentRank | Function::CumeDist => see_nothing(heap, places),
    }
}
