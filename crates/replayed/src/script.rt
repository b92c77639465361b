// A list of calls, read and made.
ghost use Rattle.std.specs.Prelude.{◌≡◌, length, string_bytes, vec_len, IfOk, OnOk, Some, None, T};
ghost use Rattle.replay.specs.Act.{progress_of, total_now};
ghost use Rattle.lines.specs.Reads.{ReadsColumn};
ghost use Rattle.replayed.specs.Calls.{is_call};
ghost use Rattle.replayed.specs.declared.calls.Op.TheVariants.{Finish};
ghost use Rattle.replayed.specs.Replays.{Adds, AllStand, AreLines, ReadsSteps, ReplayTold, Replays, Stands, TellsCall, TellsFunction, TellsKind, TellsList, TellsMade, TellsOp, ending_at, part, refusal_of, unfinished};
ghost use Rattle.replayed.specs.Told.{ending_text, outcome_text, refusal_text};

use crate::calls::{Op, read_op};
use crate::told::{Ending, Refused, Told};
use crate::wrong::Wrong;
use column::column::Window;
use column::fault::Fault;
use column::kind::{CollegeCode, Instant, LoginOutcome, Pair, Pseudonym};
use functions::function::{Function, read_function};
use help::refusals::explanation;
use lead_lag::WindowShift;
use lines::columns::{Lists, read_column};
use lines::cursor::Cursor;
use lines::kinds::{KindName, read_kind};
use lines::stop::{Bad, Stop};
use lines::text::{Show, Value};
use nth_value::NthValue;
use rank::rank::Rank;
use rank::row_number::RowNumber;
use replay::calls::{Call, Reply};
use replay::replay::{Played, replay};
use run::rows::RowEvaluator;
use run::run::Run;
use std::alloc::{AllocError, Global};

// A line that holds a call, with its number.
#[derive(Clone, Copy)]
struct Line<'a> {
    number: usize,
    text: &'a str,
}

// Whether a line is neither empty nor a comment.
fn holds_call(line: &str) -> bool
    ensures { result ≡ is_call line.now }
{
    !line.is_empty() && !line.starts_with('#')
}

// The lines that hold calls.
fn lines_of<'a>(heap: Global, text: &'a str) -> Result<Vec<Line<'a>>, AllocError>
    ensures { IfOk result (λ v. AreLines text.now v.items) }
{
    text.lines()
        .enumerate()
        .filter(|(_, line)| holds_call(line))
        .map(|(i, line)| Line {
            number: i.saturating_add(1),
            text: line,
        })
        .collect(heap)
}

fn wrong(line: Line<'_>, stop: Stop) -> Wrong {
    match stop {
        Stop::Memory => Wrong::Memory,
        Stop::Unread(bad) => Wrong::at(line.number, bad),
    }
}

// A call with its line.
#[derive(Clone, Copy)]
struct Step<'a> {
    line: Line<'a>,
    op: Op,
}

// A finish has to be the last call.
fn check_finish(op: Op, is_last: bool, number: usize) -> Result<(), Wrong>
    ensures { OnOk result (op ≡ Finish → T is_last) }
{
    if matches!(op, Op::Finish) && !is_last {
        return Err(Wrong::At {
            line: number,
            column: 1,
        });
    }
    Ok(())
}

fn steps_of<'a>(heap: Global, lines: &[Line<'a>], rows: usize) -> Result<Vec<Step<'a>>, Wrong>
    ensures { IfOk result (λ v. ReadsSteps rows lines.now v.items) }
{
    let mut steps = Vec::new(heap);
    for (i, line) in lines.iter().enumerate() {
        let op = read_op(line.text, rows).map_err(|bad| Wrong::at(line.number, bad))?;
        check_finish(op, i + 1 == lines.len(), line.number)?;
        steps.push(Step { line: *line, op })?;
    }
    Ok(steps)
}

// The part of a list from a place up to another, and nothing where it ends before.
fn part_of<T>(list: &[T], from: usize, to: usize) -> &[T]
    ensures { result.now ≡ part list.now from to }
{
    list.get(from..to).unwrap_or(&[])
}

// The call of an operation; in the place of a finish the keep mark is read, which changes nothing.
fn call_of<'a, K: Value>(column: &'a Lists<K>, op: Op) -> Call<'a, K>
    ensures { Stands column.now.values.items column.now.marks.items op result }
{
    match op {
        Op::Request { from, to, frame } => {
            let values = part_of(column.values.as_slice(), from, to);
            let marks = part_of(column.marks.as_slice(), from, to);
            Call::Request(Window::new(from, values, marks), frame)
        }
        Op::Settle => Call::Settle,
        Op::Mark | Op::Finish => Call::KeepMark,
        Op::Close(total) => Call::Close(total),
    }
}

fn calls_of<'a, K: Value>(
    heap: Global,
    column: &'a Lists<K>,
    steps: &[Step<'_>],
) -> Result<Vec<Call<'a, K>>, AllocError>
    ensures { IfOk result (λ v. (vec_len v ≡ length steps.now) × AllStand column.now.values.items column.now.marks.items steps.now v.items (length steps.now)) }
{
    steps
        .iter()
        .map(|step| call_of(column, step.op))
        .collect(heap)
}

// What a refusal means, its first line.
fn meaning(fault: Fault) -> &'static str {
    explanation(fault.number())
        .unwrap_or("")
        .lines()
        .next()
        .unwrap_or("")
}

// A call's line with its outcome, and what a refusal means.
fn push_told<A: Show>(text: &mut String, line: Line<'_>, told: Told<A>) -> Result<(), AllocError>
    ensures { OnOk result (Adds (string_bytes text.old) (string_bytes text.new) (TellsCall line.entry.text.now (outcome_text A.Show.text told.0) (refusal_of told.0))) }
{
    let call = line.text;
    write!(text, "{call}: {told}\n")?;
    if let Err(fault) = told.0 {
        let meaning = meaning(fault);
        write!(text, "  {meaning}\n")?;
    }
    Ok(())
}

// The same of finishing.
fn push_ending(text: &mut String, line: Line<'_>, ending: Ending) -> Result<(), AllocError>
    ensures { OnOk result (Adds (string_bytes text.old) (string_bytes text.new) (TellsCall line.entry.text.now (ending_text ending.0) (unfinished ending.0))) }
{
    let call = line.text;
    write!(text, "{call}: {ending}\n")?;
    if let Some(Err(fault)) = ending.0 {
        let meaning = meaning(fault);
        write!(text, "  {meaning}\n")?;
    }
    Ok(())
}

// An operation's line with what it ended in.
fn push_step<A: Show>(
    text: &mut String,
    step: Step<'_>,
    outcome: Result<Reply<A>, Fault>,
    ending: Ending,
) -> Result<(), AllocError>
    ensures { OnOk result (Adds (string_bytes text.old) (string_bytes text.new) (TellsOp A.Show.text ending.0 step.entry.line.text.now step.entry.op outcome)) }
{
    match step.op {
        Op::Finish => push_ending(text, step.line, ending),
        _ => push_told(text, step.line, Told(outcome)),
    }
}

// What finishing the run ends in.
fn ending_of<E: RowEvaluator + Drop>(run: Run<E>) -> Ending
    ensures { result.0 ≡ ending_at (progress_of run).next (total_now run) }
{
    match run {
        Run::Opened(_) => Ending(None),
        Run::Shut(closed) => {
            let finished = closed.finish();
            Ending(Some(finished.map(|(_, rows)| rows).map_err(|(fault, _)| fault)))
        }
    }
}

// A list of calls that is read.
#[derive(Drop)]
struct Script<'a, K> {
    head: Line<'a>,
    from_zero: bool,
    column: Lists<K>,
    steps: Vec<Step<'a>>,
}

// The calls on a new run, each with its outcome; a finish is made as the last.
fn made<E: RowEvaluator + Drop>(
    heap: Global,
    evaluator: &E,
    script: &Script<'_, E::Value>,
) -> Result<String, AllocError>
where
    E::Value: Value,
    E::Answer: Show,
    ensures { IfOk result (λ s. ReplayTold E.Answer.Show.text E.Evaluator.meaning evaluator.now E.Evaluator.WANTS_FRAMES script.now.from_zero script.now.column.values.items script.now.column.marks.items script.now.steps.items (string_bytes s)) }
{
    let steps = script.steps.as_slice();
    let calls = calls_of(heap, &script.column, steps)?;
    let Played { run, entries } = replay(heap, evaluator, script.from_zero, calls.as_slice())?;
    let ending = ending_of(run);
    let mut text = String::new(heap);
    for (step, entry) in steps.iter().zip(entries.iter()) {
        push_step(&mut text, *step, entry.outcome, ending)?;
    }
    Ok(text)
}

// A refused evaluator: the head with the refusal, and what that means.
fn refusal(heap: Global, head: Line<'_>, fault: Fault) -> Result<String, AllocError>
    ensures { IfOk result (λ s. TellsCall head.entry.text.now (refusal_text fault) (Some fault) (string_bytes s)) }
{
    let head = head.text;
    let refused = Refused(fault);
    let meaning = meaning(fault);
    let mut text = String::new(heap);
    write!(text, "{head}: {refused}\n  {meaning}\n")?;
    Ok(text)
}

// What comes of an evaluator, or of its refusal.
fn answered<E: RowEvaluator + Drop>(
    heap: Global,
    script: &Script<'_, E::Value>,
    evaluator: Result<E, Fault>,
) -> Result<String, Wrong>
where
    E::Value: Value,
    E::Answer: Show,
    ensures { IfOk result (λ s. TellsMade E.Answer.Show.text E.Evaluator.meaning E.Evaluator.WANTS_FRAMES script.now.from_zero script.now.column.values.items script.now.column.marks.items script.now.steps.items script.now.head.text.now evaluator (string_bytes s)) }
{
    match evaluator {
        Ok(evaluator) => Ok(made(heap, &evaluator, script)?),
        Err(fault) => Ok(refusal(heap, script.head, fault)?),
    }
}

// Whether the frames are set to begin at 0: the word `zero` at the line's end.
fn read_zero(cursor: &mut Cursor<'_>) -> Result<bool, Bad> {
    if cursor.is_end() {
        return Ok(false);
    }
    cursor.expect(b' ')?;
    let start = cursor.bad();
    if cursor.word() != "zero" {
        return Err(start);
    }
    cursor.end()?;
    Ok(true)
}

// The function of a head, behind its kind, and whether frames begin at 0.
fn read_head<K: Value>(cursor: &mut Cursor<'_>) -> Result<(Function<K>, bool), Bad> {
    cursor.expect(b' ')?;
    let function = read_function::<K>(cursor)?;
    Ok((function, read_zero(cursor)?))
}

fn column_of<K: Value>(heap: Global, line: Line<'_>) -> Result<Lists<K>, Wrong>
    ensures { IfOk result (λ c. ReadsColumn K.Text.reads 32 line.entry.text.now c.values.items c.marks.items) }
{
    let mut cursor = Cursor::new(line.text);
    let column = read_column::<K>(heap, &mut cursor, b' ').map_err(|stop| wrong(line, stop))?;
    match cursor.end() {
        Ok(()) => Ok(column),
        Err(bad) => Err(Wrong::at(line.number, bad)),
    }
}

// What comes of a function on a list that is read; of one that does not answer by rows nothing does.
fn tell<K: Value>(
    heap: Global,
    script: &Script<'_, K>,
    function: Function<K>,
) -> Result<String, Wrong>
    ensures { IfOk result (λ s. TellsFunction K.Kind.same K.Show.text script.now.from_zero script.now.column.values.items script.now.column.marks.items script.now.steps.items script.now.head.text.now function (string_bytes s)) }
{
    match function {
        Function::Shift(shift) => answered(heap, script, WindowShift::try_from(shift)),
        Function::Frames(frames) => answered(heap, script, NthValue::<K>::try_from(frames)),
        Function::Rank(rank_type) => answered(heap, script, Ok(Rank::<K>::new(rank_type))),
        Function::RowNumber => answered(heap, script, Ok(RowNumber::<K>::new())),
        Function::PercentRank | Function::CumeDist => Err(Wrong::At {
            line: script.head.number,
            column: 1,
        }),
    }
}

// The list at its kind of values, whose head is read up to the kind.
fn replayed_at<'a, K: Value>(
    heap: Global,
    head: Line<'a>,
    cursor: &mut Cursor<'_>,
    rest: &[Line<'a>],
) -> Result<String, Wrong>
    ensures { IfOk result (λ s. TellsList K.Text.reads K.Kind.same K.Show.text head.entry rest.now (string_bytes s)) }
{
    let (function, from_zero) = read_head::<K>(cursor).map_err(|bad| Wrong::at(head.number, bad))?;
    let (second, calls) = rest.split_first().ok_or(Wrong::At {
        line: head.number,
        column: 1,
    })?;
    let column = column_of::<K>(heap, *second)?;
    let steps = steps_of(heap, calls, column.values.len())?;
    let script = Script {
        head,
        from_zero,
        column,
        steps,
    };
    tell(heap, &script, function)
}

// The list at its kind of values; only a `match` gets from a name to a type.
fn replayed_kind<'a>(
    heap: Global,
    kind: KindName,
    head: Line<'a>,
    cursor: &mut Cursor<'_>,
    rest: &[Line<'a>],
) -> Result<String, Wrong>
    ensures { IfOk result (λ s. TellsKind kind head.entry rest.now (string_bytes s)) }
{
    match kind {
        KindName::Instant => replayed_at::<Instant>(heap, head, cursor, rest),
        KindName::Pseudonym => replayed_at::<Pseudonym>(heap, head, cursor, rest),
        KindName::Code => replayed_at::<CollegeCode>(heap, head, cursor, rest),
        KindName::Outcome => replayed_at::<LoginOutcome>(heap, head, cursor, rest),
        KindName::InstantCode => {
            replayed_at::<Pair<Instant, CollegeCode>>(heap, head, cursor, rest)
        }
        KindName::OutcomeLogin => {
            replayed_at::<Pair<LoginOutcome, Pair<Instant, Pseudonym>>>(heap, head, cursor, rest)
        }
    }
}

// The outcomes of a list of calls: a line `KIND FUNCTION [zero]`, one with the column, and a call a line.
pub fn replayed(heap: Global, text: &str) -> Result<String, Wrong>
    ensures { IfOk result (λ s. Replays text.now (string_bytes s)) }
{
    let lines = lines_of(heap, text)?;
    let (head, rest) = lines
        .as_slice()
        .split_first()
        .ok_or(Wrong::At { line: 1, column: 1 })?;
    let mut cursor = Cursor::new(head.text);
    let kind = read_kind(&mut cursor).map_err(|bad| Wrong::at(head.number, bad))?;
    replayed_kind(heap, kind, *head, &mut cursor, rest)
}
