ghost use Rattle.std.specs.Prelude.{◌≡◌, length, IfOk, MatchResult};
ghost use Rattle.replay.specs.declared.calls.Call.TheVariants.{Close};
ghost use Rattle.replay.specs.Act.{Acted, Ended, Followed, evaluator_after, evaluator_of, progress_of, total_now};
ghost use Rattle.replay.specs.History.{Replayed, close_outcome, history, total_after};
ghost use Rattle.run.specs.Rows.{left_by};
ghost use Rattle.run.specs.Run.{Requested, Settled, frame_or_none};

use crate::calls::{Call, Entry, Reply};
use column::column::Window;
use column::fault::Fault;
use run::rows::RowEvaluator;
use run::run::{Open, Run};
use std::alloc::{AllocError, Global};

fn keep_mark<E: RowEvaluator>(run: &Run<E>) -> usize
    ensures { result ≡ (E.Evaluator.meaning (evaluator_of run.now)).keep }
{
    match run {
        Run::Opened(open) => open.keep_mark(),
        Run::Shut(closed) => closed.keep_mark(),
    }
}

fn request<E: RowEvaluator>(
    run: &mut Run<E>,
    window: &Window<'_, E::Value>,
    frame: Option<(usize, usize)>,
) -> Result<E::Answer, Fault>
    ensures asked { Requested E.Evaluator.meaning E.Evaluator.WANTS_FRAMES (total_now run.old) window.now frame (evaluator_of run.old) (evaluator_of run.new) (progress_of run.old) (progress_of run.new) result }
    ensures leaves { evaluator_of run.new ≡ left_by result (evaluator_of run.old) (E.RowEvaluator.stepped (evaluator_of run.old) (progress_of run.old).next window.now (frame_or_none frame)) }
    ensures total { total_now run.new ≡ total_now run.old }
{
    match run {
        Run::Opened(open) => open.request(window, frame),
        Run::Shut(closed) => closed.request(window, frame),
    }
}

fn settle<E: RowEvaluator>(run: &mut Run<E>) -> Result<(), Fault>
    ensures settled { Settled E.Evaluator.meaning E.Evaluator.WANTS_FRAMES (progress_of run.old) (evaluator_of run.old) (evaluator_of run.new) result }
    ensures leaves { evaluator_of run.new ≡ left_by result (evaluator_of run.old) (E.RowEvaluator.settling (evaluator_of run.old) (progress_of run.old).next (progress_of run.old).last) }
    ensures progress { progress_of run.new ≡ progress_of run.old }
    ensures total { total_now run.new ≡ total_now run.old }
{
    match run {
        Run::Opened(open) => open.settle(),
        Run::Shut(closed) => closed.settle(),
    }
}

// A closed run does not take a close.
fn close<E: RowEvaluator>(run: Run<E>, total: usize) -> (Run<E>, Result<Reply<E::Answer>, Fault>)
    ensures outcome { result.1 ≡ close_outcome (progress_of run) (total_now run) total }
    ensures total { total_now result.0 ≡ total_after {V = E.Value} (total_now run) (Close total) result.1 }
    ensures rest { (evaluator_of result.0 ≡ evaluator_of run) × (progress_of result.0 ≡ progress_of run) }
{
    match run {
        Run::Opened(open) => match open.close(total) {
            Ok(closed) => (Run::Shut(closed), Ok(Reply::Done)),
            Err((fault, open)) => (Run::Opened(open), Err(fault)),
        },
        Run::Shut(closed) => (Run::Shut(closed), Ok(Reply::NotTaken)),
    }
}

// Makes a call where the run lies; of a close, which takes the run itself, it gives the total.
fn act_in_place<E: RowEvaluator>(
    run: &mut Run<E>,
    call: &Call<'_, E::Value>,
) -> Result<Entry<E::Answer>, usize>
    ensures acted { MatchResult result (λ entry. Acted E.Evaluator.meaning E.Evaluator.WANTS_FRAMES call.now run.old run.new entry) (λ total. (call.now ≡ Close total) × (run.new ≡ run.old)) }
    ensures leaves { IfOk result (λ entry. evaluator_of run.new ≡ evaluator_after E.RowEvaluator.stepped E.RowEvaluator.settling (progress_of run.old) call.now entry.outcome (evaluator_of run.old)) }
{
    let mark = keep_mark(run);
    let outcome = match call {
        Call::Request(window, frame) => request(run, window, *frame).map(Reply::Answer),
        Call::Settle => settle(run).map(|_| Reply::Done),
        Call::KeepMark => Ok(Reply::Mark(mark)),
        Call::Close(total) => return Err(*total),
    };
    Ok(Entry { mark, outcome })
}

fn act_close<E: RowEvaluator>(run: Run<E>, total: usize) -> (Run<E>, Entry<E::Answer>)
    ensures acted { Acted {V = E.Value} E.Evaluator.meaning E.Evaluator.WANTS_FRAMES (Close total) run result.0 result.1 }
    ensures leaves { evaluator_of result.0 ≡ evaluator_of run }
{
    let mark = keep_mark(&run);
    let (moved, outcome) = close(run, total);
    (moved, Entry { mark, outcome })
}

// Makes one call on a run.
pub fn act<E: RowEvaluator>(
    mut run: Run<E>,
    call: &Call<'_, E::Value>,
) -> (Run<E>, Entry<E::Answer>)
    ensures acted { Acted E.Evaluator.meaning E.Evaluator.WANTS_FRAMES call.now run result.0 result.1 }
    ensures leaves { evaluator_of result.0 ≡ evaluator_after E.RowEvaluator.stepped E.RowEvaluator.settling (progress_of run) call.now result.1.outcome (evaluator_of run) }
{
    match act_in_place(&mut run, call) {
        Ok(entry) => (run, entry),
        Err(total) => act_close(run, total),
    }
}

// A run after a list of calls, and what came of each.
#[derive(Drop)]
pub struct Played<E, A> {
    pub run: Run<E>,
    pub entries: Vec<Entry<A>>,
}

// Makes a new run of the evaluator, makes the calls on it one by one, and notes what comes of each.
pub fn replay<E: RowEvaluator + Drop>(
    heap: Global,
    evaluator: &E,
    from_zero: bool,
    calls: &[Call<'_, E::Value>],
) -> Result<Played<E, E::Answer>, AllocError>
    ensures { IfOk result (λ x. (length x.entries.items ≡ length calls.now) × Replayed E.Evaluator.meaning evaluator.now E.Evaluator.WANTS_FRAMES from_zero (history calls.now x.entries.items) × Ended E.Evaluator.meaning evaluator.now E.Evaluator.WANTS_FRAMES from_zero x.run (history calls.now x.entries.items) × Followed (λ e. (E.Evaluator.meaning e).keep) E.RowEvaluator.stepped E.RowEvaluator.settling E.Evaluator.WANTS_FRAMES from_zero (E.Evaluator.renewed evaluator.now) x.run (history calls.now x.entries.items)) }
{
    let mut run = Run::Opened(Open::new(evaluator, from_zero));
    let mut entries = Vec::with_capacity(heap, calls.len())?;
    for call in calls {
        let entry = match act_in_place(&mut run, call) {
            Ok(entry) => entry,
            Err(total) => {
                let (moved, entry) = act_close(run, total);
                run = moved;
                entry
            }
        };
        entries.push(entry)?;
    }
    Ok(Played { run, entries })
}
