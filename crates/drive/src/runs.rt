// A run, with the calls that a line makes on it.
ghost use Rattle.std.specs.Prelude.{◌≡◌, length, Some, IfOk, IfSome, MatchResult, string_bytes, vec_len};
ghost use Rattle.drive.specs.Calls.{Stands, AllStand};
ghost use Rattle.drive.specs.Outcomes.{IsAccepted, ending_text, op_text, outcome_text};
ghost use Rattle.drive.specs.Runs.{EndsIn, RunTold, TellsOp};

use crate::ops::{Op, Request, Step};
use crate::outcome::Refusal;
use column::column::Window;
use column::fault::Fault;
use column::kind::Kind;
use lines::stop::{Bad, Stop};
use lines::text::{Show, Shown};
use replay::calls::{Call, Entry, Reply};
use replay::replay::{Played, replay};
use run::rows::RowEvaluator;
use run::run::Run;
use std::alloc::{AllocError, Global};
use std::fmt;

// What an attempt to finish ends in: the rows or a refusal, and nothing where the run is not closed.
#[derive(Clone, Copy)]
struct Ending(Option<Result<usize, Fault>>);

impl fmt::Display for Ending {
    ghost output = { λ e. Some (ending_text e.0) };

    fn fmt<W: fmt::Write>(&self, f: &mut fmt::Formatter<W>) -> fmt::Result {
        match self.0 {
            Some(Ok(rows)) => write!(f, "ok:{rows}"),
            Some(Err(fault)) => write!(f, "{}", Refusal(fault)),
            None => f.write_str("no:open"),
        }
    }
}

// What a call ended in, printed as lines have it.
#[derive(Clone, Copy)]
struct Told<A>(Result<Reply<A>, Fault>);

impl<A: Show> fmt::Display for Told<A> {
    ghost output = { λ x. Some (outcome_text A.Show.text x.0) };

    fn fmt<W: fmt::Write>(&self, f: &mut fmt::Formatter<W>) -> fmt::Result {
        match self.0 {
            Ok(Reply::Answer(answer)) => write!(f, "ok:{}", Shown(answer)),
            Err(fault) => write!(f, "{}", Refusal(fault)),
            Ok(Reply::Done) => f.write_str("ok"),
            Ok(Reply::Mark(mark)) => write!(f, "{mark}"),
            Ok(Reply::NotTaken) => f.write_str("no:closed"),
        }
    }
}

// What an operation ends in: its call, or an attempt to finish.
#[derive(Clone, Copy)]
enum OpOutcome<A> {
    OfCall(Told<A>),
    OfFinish(Ending),
}

impl<A> OpOutcome<A> {
    // Behind an accepted finish an operation cannot be read.
    fn check_next<K>(&self, next: Option<&Step<'_, K>>) -> Result<(), Bad>
        ensures { MatchResult result (λ _. IsAccepted self.now → IfSome next.entry (λ _. ⊥)) (λ bad. IsAccepted self.now × IfSome next.entry (λ s. bad ≡ s.now.start)) }
    {
        match (self, next) {
            (OpOutcome::OfFinish(Ending(Some(Ok(_)))), Some(step)) => Err(step.start),
            _ => Ok(()),
        }
    }
}

impl<A: Show> fmt::Display for OpOutcome<A> {
    ghost output = { λ x. Some (op_text A.Show.text x) };

    fn fmt<W: fmt::Write>(&self, f: &mut fmt::Formatter<W>) -> fmt::Result {
        match self {
            OpOutcome::OfCall(told) => write!(f, "{told}"),
            OpOutcome::OfFinish(ending) => write!(f, "{ending}"),
        }
    }
}

fn window_of<'a, K: Kind>(request: &'a Request<K>) -> Window<'a, K>
    ensures begin { result.begin ≡ request.now.begin }
    ensures values { result.rows.values.now ≡ request.now.column.values.items }
    ensures marks { result.rows.marks.now ≡ request.now.column.marks.items }
{
    Window {
        begin: request.begin,
        rows: request.column.as_column(),
    }
}

fn call_of<'a, K: Kind>(op: &'a Op<K>) -> Call<'a, K>
    ensures { Stands op.now result }
{
    match op {
        Op::Request(request) => Call::Request(window_of(request), request.frame),
        Op::Settle => Call::Settle,
        Op::KeepMark => Call::KeepMark,
        Op::Close(total) => Call::Close(*total),
        Op::Finish => Call::KeepMark,
    }
}

// A call for each operation; in the place of a finish the keep mark is read, which changes nothing.
fn calls_of<'a, K: Kind>(
    heap: Global,
    steps: &'a [Step<'_, K>],
) -> Result<Vec<Call<'a, K>>, AllocError>
    ensures { IfOk result (λ v. (vec_len v ≡ length steps.now) × AllStand steps.now v.items (length steps.now)) }
{
    steps.iter().map(|step| call_of(&step.op)).collect(heap)
}

// Finishes a new run after the calls.
fn finish<E: RowEvaluator + Drop>(
    heap: Global,
    evaluator: &E,
    from_zero: bool,
    calls: &[Call<'_, E::Value>],
) -> Result<Ending, AllocError>
    ensures { IfOk result (λ e. EndsIn E.Evaluator.meaning evaluator.now E.Evaluator.WANTS_FRAMES from_zero calls.now e.0) }
{
    let Played { run, entries } = replay(heap, evaluator, from_zero, calls)?;
    drop(entries);
    match run {
        Run::Opened(_) => Ok(Ending(None)),
        Run::Shut(closed) => {
            let finished = closed.finish();
            Ok(Ending(Some(finished.map(|(_, rows)| rows).map_err(|(fault, _)| fault))))
        }
    }
}

// The outcome of an operation behind these calls, where this was noted of its own.
fn outcome_of<E: RowEvaluator + Drop>(
    heap: Global,
    evaluator: &E,
    from_zero: bool,
    before: &[Call<'_, E::Value>],
    op: &Op<E::Value>,
    entry: &Entry<E::Answer>,
) -> Result<OpOutcome<E::Answer>, AllocError>
where
    E::Answer: Show,
    ensures { IfOk result (λ x. TellsOp E.Answer.Show.text E.Evaluator.meaning evaluator.now E.Evaluator.WANTS_FRAMES from_zero before.now op.now entry.now.outcome (op_text E.Answer.Show.text x)) }
{
    match op {
        Op::Finish => Ok(OpOutcome::OfFinish(finish(heap, evaluator, from_zero, before)?)),
        _ => Ok(OpOutcome::OfCall(Told(entry.outcome))),
    }
}

// The operations, each with its outcome; after an accepted finish there is none.
pub(crate) fn answer_run<E: RowEvaluator + Drop>(
    heap: Global,
    evaluator: &E,
    from_zero: bool,
    steps: &[Step<'_, E::Value>],
) -> Result<String, Stop>
where
    E::Answer: Show,
    ensures { IfOk result (λ s. RunTold E.Answer.Show.text E.Evaluator.meaning evaluator.now E.Evaluator.WANTS_FRAMES from_zero steps.now (string_bytes s)) }
{
    let calls = calls_of(heap, steps)?;
    let played = replay(heap, evaluator, from_zero, calls.as_slice())?;
    let mut text = String::new(heap);
    for (i, (step, entry)) in steps.iter().zip(played.entries.iter()).enumerate() {
        let before = &calls.as_slice()[..i];
        let outcome = outcome_of(heap, evaluator, from_zero, before, &step.op, entry)?;
        let op = step.text;
        write!(text, " {op}>{outcome}")?;
        outcome.check_next(steps.get(i + 1))?;
    }
    Ok(text)
}
