ghost use Rattle.std.specs.Prelude.{◌≡◌, ◌+◌, ◌-◌, ◌<◌, ◌≤◌, ◌⊎◌, min, max, true, false, length, map, take, drop, Some, IfOk};
ghost use Rattle.std.specs.List.{range_with_len, slice_get, position};
ghost use Rattle.partition.specs.Table.{input, row_count};
ghost use Rattle.evaluator.specs.Meaning.{partition};
ghost use Rattle.run.specs.Run.{Requested, Settled};
ghost use Rattle.moving.specs.Moving.{ShownAll, begins_late, from_zero};
ghost use Rattle.replay.specs.Act.{evaluator_of, progress_of, total_now};

use crate::stop::Stop;
use column::column::{Column, Window};
use column::fault::Fault;
use column::kind::Kind;
use partition::whole::{WholePartition, check_whole};
use run::rows::RowEvaluator;
use run::run::{Open, Run};
use std::alloc::{AllocError, Global};

// A partition answered row by row.
#[derive(Drop)]
pub struct Moved<A> {
    pub answers: Vec<A>,
    // of each row, the rows that were shown when it was answered: the first, and the one after the last
    pub shown: Vec<(usize, usize)>,
    // how often the next row was too early
    pub too_early: usize,
}

// The rows from `begin` up to `end`.
fn part<'a, K: Kind>(column: &Column<'a, K>, begin: usize, end: usize) -> Window<'a, K>
    requires order { begin ≤ end }
    requires values { end ≤ length column.now.values.now }
    requires marks { end ≤ length column.now.marks.now }
    ensures begin { result.begin ≡ begin }
    ensures values { result.rows.values.now ≡ take (end - begin) (drop begin column.now.values.now) }
    ensures marks { result.rows.marks.now ≡ take (end - begin) (drop begin column.now.marks.now) }
{
    Window {
        begin,
        rows: Column {
            values: &column.values[begin..end],
            marks: &column.marks[begin..end],
        },
    }
}

// The frame of a row, where there is one.
fn frame_of(frames: &[(usize, usize)], row: usize) -> Option<(usize, usize)>
    ensures { result ≡ slice_get frames.now row }
{
    frames.get(row).copied()
}

// The lowest row that a window still has to show.
fn keep_mark<E: RowEvaluator>(run: &Run<E>) -> usize
    ensures { result ≡ (E.Evaluator.meaning (evaluator_of run.now)).keep }
{
    match run {
        Run::Opened(open) => open.keep_mark(),
        Run::Shut(closed) => closed.keep_mark(),
    }
}

// A request on a run, open or closed.
fn ask<E: RowEvaluator>(
    run: &mut Run<E>,
    window: &Window<'_, E::Value>,
    frame: Option<(usize, usize)>,
) -> Result<E::Answer, Fault>
    ensures asked { Requested E.Evaluator.meaning E.Evaluator.WANTS_FRAMES (total_now run.old) window.now frame (evaluator_of run.old) (evaluator_of run.new) (progress_of run.old) (progress_of run.new) result }
    ensures total { total_now run.new ≡ total_now run.old }
{
    match run {
        Run::Opened(open) => open.request(window, frame),
        Run::Shut(closed) => closed.request(window, frame),
    }
}

// Settles a run, open or closed, where that is wanted.
fn settle<E: RowEvaluator>(run: &mut Run<E>, wanted: bool) -> Result<(), Fault>
    ensures unwanted { wanted ≡ false → evaluator_of run.new ≡ evaluator_of run.old }
    ensures settled { wanted ≡ true → Settled E.Evaluator.meaning E.Evaluator.WANTS_FRAMES (progress_of run.old) (evaluator_of run.old) (evaluator_of run.new) result }
    ensures progress { progress_of run.new ≡ progress_of run.old }
    ensures total { total_now run.new ≡ total_now run.old }
{
    if !wanted {
        return Ok(());
    }
    match run {
        Run::Opened(open) => open.settle(),
        Run::Shut(closed) => closed.settle(),
    }
}

fn begins_late(frame: (usize, usize)) -> bool
    ensures { result ≡ begins_late frame }
{
    frame.0 > 0
}

fn first_late(frames: &[(usize, usize)]) -> Option<usize>
    ensures { result ≡ position begins_late frames.now }
{
    frames.iter().position(|frame| begins_late(*frame))
}

// Whether no frame begins past row 0.
fn all_from_zero(frames: &[(usize, usize)]) -> bool
    ensures { result ≡ from_zero frames.now }
{
    first_late(frames).is_none()
}

// A run and the row after the last that it is shown.
#[derive(Drop)]
struct Reach<E> {
    run: Run<E>,
    end: usize,
}

// Shows a run so many rows more of `n`, and closes it at the last.
fn show_more<E: RowEvaluator + Drop>(
    reach: Reach<E>,
    step: usize,
    n: usize,
) -> Result<Reach<E>, Fault>
    requires { reach.end < n }
    ensures { IfOk result (λ r. (r.end ≡ min (reach.end + max step 1) n) × (evaluator_of r.run ≡ evaluator_of reach.run) × (progress_of r.run ≡ progress_of reach.run) × ((total_now r.run ≡ total_now reach.run) ⊎ (total_now r.run ≡ Some n))) }
{
    let end = reach.end.saturating_add(step.max(1)).min(n);
    let run = match reach.run {
        Run::Opened(open) if end == n => match open.close(n) {
            Ok(closed) => Run::Shut(closed),
            Err((fault, _)) => return Err(fault),
        },
        run => run,
    };
    Ok(Reach { run, end })
}

// Answers a partition row by row: a run is shown `step` rows more each time that its next row is too early, from the keep mark on,
// and is settled after each answer where all frames begin at row 0.
pub fn answer_moving<E: RowEvaluator + Drop>(
    heap: Global,
    evaluator: &E,
    rows: &WholePartition<'_, E::Value>,
    step: usize,
) -> Result<Moved<E::Answer>, Stop>
    ensures answers { IfOk result (λ m. m.answers.items ≡ map ((E.Evaluator.meaning evaluator.now).answer (partition E.Evaluator.WANTS_FRAMES (input rows.now))) (range_with_len 0 (row_count (input rows.now)))) }
    ensures shown { IfOk result (λ m. ShownAll E.Evaluator.meaning evaluator.now (partition E.Evaluator.WANTS_FRAMES (input rows.now)) (from_zero rows.now.frames.now) step m.shown.items m.too_early) }
{
    let n = rows.column.values.len();
    // row by row peer groups are not looked at
    check_whole(rows, E::WANTS_FRAMES, false, n)?;
    let mut answers = Vec::with_capacity(heap, n)?;
    let mut shown = Vec::with_capacity(heap, n)?;
    let settles = all_from_zero(rows.frames);
    let mut too_early = 0usize;
    let mut reach = Reach {
        run: Run::Opened(Open::new(evaluator, settles)),
        end: 0,
    };
    'rows: while answers.len() < n {
        let begin = keep_mark(&reach.run).min(reach.end);
        let window = part(&rows.column, begin, reach.end);
        let frame = frame_of(rows.frames, answers.len());
        match ask(&mut reach.run, &window, frame) {
            Ok(answer) => {
                answers.push(answer).map_err(AllocError::from)?;
                shown.push((begin, reach.end)).map_err(AllocError::from)?;
                settle(&mut reach.run, settles)?;
            }
            Err(Fault::TooEarly(_)) if reach.end < n => {
                too_early = too_early.saturating_add(1);
                reach = show_more(reach, step, n)?;
            }
            Err(fault) => return Err(Stop::Refused(fault)),
        }
    }
    Ok(Moved {
        answers,
        shown,
        too_early,
    })
}
