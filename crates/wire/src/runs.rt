// Runs, each in one call.
ghost use Rattle.std.specs.Prelude.{◌≡◌, ℕ, ◌<◌, List, length, slice_set, Ok, Err, ◌==◌, MatchResult};
ghost use Rattle.replay.specs.Act.{progress_of, total_now};
ghost use Rattle.wire.specs.Calls.{calls_in};
ghost use Rattle.wire.specs.Ends.{told_stop};
ghost use Rattle.wire.specs.Functions.{choosing, ranking_of};
ghost use Rattle.wire.specs.Slots.{LentSlots, put_lent, lent_count};
ghost use Rattle.wire.specs.Stops.{first_of, refused, told};
ghost use Rattle.wire.specs.Whole.{number_family};
ghost use Rattle.wire.specs.Runs.{noted_refusal, noted, put_outcome, ended_at, PlayEnds, RunEnds, Ran, room_refusal, scripted, CallsOf, script_stop, ChosenRan, MadeRan, run_stop, RankingRan, ending_left, RunCellsCall, RunNumbersCall};

use crate::calls::Calls;
use crate::function::{CELLS, Chosen, Function, NUMBERS, Ranking};
use crate::kinds::{Crossing, read_default};
use crate::output::LentCells;
use crate::reads::read_list;
use crate::stop::{Stop, Told};
use column::fault::Fault;
use column::kind::Kind;
use column::output::{Numbers, Output};
use rank::rank::Rank;
use rank::row_number::RowNumber;
use replay::calls::Reply;
use replay::replay::act;
use run::rows::RowEvaluator;
use run::run::{Open, Run};
use std::alloc::Global;
use std::marker::PhantomData;

// What is shown to a run, and the bytes of the calls that are made on it.
#[derive(Clone, Copy)]
pub struct Script<'a, N> {
    pub values: &'a [N],
    pub marks: &'a [u8],
    pub calls: &'a [u8],
}

// What came of a call.
#[repr(C)]
#[derive(Clone, Copy)]
pub struct Noted {
    // 0 an answer, 1 done, 2 a mark, 3 not taken, 4 refused; of finishing also 5 finished, 6 not closed
    pub what: usize,
    // of a refusal its number, else 0
    pub number: usize,
    // of a refusal its place; a mark; of a finished run its rows; else 0
    pub place: usize,
}

impl Noted {
    fn refused(fault: Fault) -> Noted
        ensures { result ≡ noted_refusal fault }
    {
        Noted {
            what: 4,
            number: fault.number(),
            place: fault.place(),
        }
    }

    fn of<A>(outcome: &Result<Reply<A>, Fault>) -> Noted
        ensures { result ≡ noted outcome.now }
    {
        let (what, place) = match outcome {
            Ok(Reply::Answer(_)) => (0, 0),
            Ok(Reply::Done) => (1, 0),
            Ok(Reply::Mark(mark)) => (2, *mark),
            Ok(Reply::NotTaken) => (3, 0),
            Err(fault) => return Noted::refused(*fault),
        };
        Noted {
            what,
            number: 0,
            place,
        }
    }
}

// Finishes a run.
fn finish<E: RowEvaluator + Drop>(run: Run<E>) -> Noted
    ensures { result ≡ ended_at (progress_of run).next (total_now run) }
{
    match run {
        Run::Opened(_) => Noted {
            what: 6,
            number: 0,
            place: 0,
        },
        Run::Shut(closed) => match closed.finish() {
            Ok((_, rows)) => Noted {
                what: 5,
                number: 0,
                place: rows,
            },
            Err((fault, _)) => Noted::refused(fault),
        },
    }
}

// An answer goes to its call's slot.
fn put_answer<A: Copy, O: Output<A>>(k: usize, outcome: &Result<Reply<A>, Fault>, out: &mut O)
    requires { k < O.Output.size (O.Output.slots out.old) }
    ensures slots { O.Output.slots out.new ≡ put_outcome O.Output.stored (O.Output.slots out.old) k outcome.now }
    ensures size { O.Output.size (O.Output.slots out.new) ≡ O.Output.size (O.Output.slots out.old) }
    ensures place { O.Output.place out.old out.new }
{
    if let Ok(Reply::Answer(answer)) = outcome {
        out.put(k, *answer);
    }
}

// Makes the calls on a new run, writes what comes of each as it is made, and gives what finishing it ends in.
fn play<E: RowEvaluator + Drop, O: Output<E::Answer>>(
    evaluator: &E,
    from_zero: bool,
    calls: &Calls<'_, E::Value>,
    outcomes: &mut [Noted],
    out: &mut O,
) -> Result<Noted, Stop>
    ensures ends { PlayEnds {S = O.Output.Slots} O.Output.size calls.now.shown.values.now calls.now.shown.marks.now calls.now.records.now (record { outcomes = outcomes.old; answers = O.Output.slots out.old }) (record { outcomes = outcomes.new; answers = O.Output.slots out.new }) result (Ran E.Evaluator.meaning E.RowEvaluator.stepped E.RowEvaluator.settling E.Evaluator.renewed evaluator.now E.Evaluator.WANTS_FRAMES from_zero O.Output.stored) }
    ensures place { O.Output.place out.old out.new }
{
    let room = outcomes.len().min(out.len());
    if room < calls.len() {
        return Err(Stop::Refused(Fault::ShortOutput(room)));
    }
    let mut run = Run::Opened(Open::new(evaluator, from_zero));
    for k in 0..calls.len() {
        let (moved, entry) = act(run, &calls.get(k));
        run = moved;
        outcomes[k] = Noted::of(&entry.outcome);
        put_answer(k, &entry.outcome, out);
    }
    Ok(finish(run))
}

fn play_cells<C: Crossing, E: RowEvaluator<Value = C::Value, Answer = Option<C::Value>> + Drop>(
    evaluator: &E,
    from_zero: bool,
    calls: &Calls<'_, C::Value>,
    outcomes: &mut [Noted],
    values: &mut [C::Numbers],
    marks: &mut [u8],
) -> Result<Noted, Stop>
    ensures { PlayEnds {S = LentSlots C.Numbers} lent_count calls.now.shown.values.now calls.now.shown.marks.now calls.now.records.now (record { outcomes = outcomes.old; answers = record { values = values.entry.now; marks = marks.old } }) (record { outcomes = outcomes.new; answers = record { values = values.exit.now; marks = marks.new } }) result (Ran E.Evaluator.meaning E.RowEvaluator.stepped E.RowEvaluator.settling E.Evaluator.renewed evaluator.now E.Evaluator.WANTS_FRAMES from_zero (put_lent C.Crossing.coding.encoded)) }
{
    let mut out = LentCells {
        values,
        marks,
        crossing: PhantomData::<C>,
    };
    play(evaluator, from_zero, calls, outcomes, &mut out)
}

fn play_chosen<C: Crossing>(
    chosen: &Chosen<C::Value>,
    from_zero: bool,
    calls: &Calls<'_, C::Value>,
    outcomes: &mut [Noted],
    values: &mut [C::Numbers],
    marks: &mut [u8],
) -> Result<Noted, Stop>
    ensures { PlayEnds {S = LentSlots C.Numbers} lent_count calls.now.shown.values.now calls.now.shown.marks.now calls.now.records.now (record { outcomes = outcomes.old; answers = record { values = values.entry.now; marks = marks.old } }) (record { outcomes = outcomes.new; answers = record { values = values.exit.now; marks = marks.new } }) result (ChosenRan chosen.now from_zero (put_lent C.Crossing.coding.encoded)) }
{
    match chosen {
        Chosen::Shift(shift) => {
            play_cells::<C, _>(shift, from_zero, calls, outcomes, values, marks)
        }
        Chosen::Nth(nth) => { play_cells::<C, _>(nth, from_zero, calls, outcomes, values, marks) }
    }
}

fn try_run_cells<C: Crossing>(
    heap: Global,
    function: &Function,
    default: C::Numbers,
    script: &Script<'_, C::Numbers>,
    outcomes: &mut [Noted],
    values: &mut [C::Numbers],
    marks: &mut [u8],
) -> Result<Noted, Stop>
    ensures { RunEnds {V = C.Value} {S = LentSlots C.Numbers} (run_stop C.Crossing.coding function.now default (scripted script.now) (length outcomes.old) (lent_count (record { values = values.entry.now; marks = marks.old }))) (record { outcomes = outcomes.old; answers = record { values = values.entry.now; marks = marks.old } }) (record { outcomes = outcomes.new; answers = record { values = values.exit.now; marks = marks.new } }) result (CallsOf C.Crossing.coding (scripted script.now)) (MadeRan (choosing function.now (C.Crossing.coding.decoded default)) (function.now.from_zero == 1) (put_lent C.Crossing.coding.encoded)) }
{
    let mut room = Vec::new(heap);
    let read = read_list::<C>(
        heap,
        function,
        CELLS,
        script.values,
        script.marks,
        &mut room,
    )?;
    let calls = read.shown().calls(script.calls)?;
    let default = read_default::<C>(default)?;
    let chosen = function.choose(default)?;
    play_chosen::<C>(
        &chosen,
        function.is_from_zero(),
        &calls,
        outcomes,
        values,
        marks,
    )
}

// What is told of a run; what finishing it ended in is written where that is asked for.
fn write_ending(function: &Function, ended: Result<Noted, Stop>, ending: &mut Noted) -> Told
    ensures { MatchResult ended
        (λ last. (result ≡ told (Ok 0)) × (ending.new ≡ ending_left function.now last ending.old))
        (λ s. (result ≡ told_stop s) × (ending.new ≡ ending.old)) }
{
    match ended {
        Ok(last) => {
            if function.finish == 1 {
                *ending = last;
            }
            Told::of(Ok(0))
        }
        Err(stop) => Told::of(Err(stop)),
    }
}

// A run of LAG, LEAD, FIRST_VALUE, LAST_VALUE or NTH_VALUE.
pub fn run_cells<C: Crossing>(
    heap: Global,
    function: &Function,
    default: C::Numbers,
    script: &Script<'_, C::Numbers>,
    outcomes: &mut [Noted],
    values: &mut [C::Numbers],
    marks: &mut [u8],
    ending: &mut Noted,
) -> Told
    ensures { RunCellsCall C.Crossing.coding function.now default (scripted script.now) (record { outcomes = outcomes.old; answers = record { values = values.entry.now; marks = marks.old } }, ending.old) (record { outcomes = outcomes.new; answers = record { values = values.exit.now; marks = marks.new } }, ending.new) result }
{
    let ended = try_run_cells::<C>(heap, function, default, script, outcomes, values, marks);
    write_ending(function, ended, ending)
}

fn play_numbers<E: RowEvaluator<Answer = u64> + Drop>(
    evaluator: &E,
    from_zero: bool,
    calls: &Calls<'_, E::Value>,
    outcomes: &mut [Noted],
    list: &mut [u64],
) -> Result<Noted, Stop>
    ensures { PlayEnds {S = List ℕ} (λ s. length s) calls.now.shown.values.now calls.now.shown.marks.now calls.now.records.now (record { outcomes = outcomes.old; answers = list.old }) (record { outcomes = outcomes.new; answers = list.new }) result (Ran E.Evaluator.meaning E.RowEvaluator.stepped E.RowEvaluator.settling E.Evaluator.renewed evaluator.now E.Evaluator.WANTS_FRAMES from_zero (λ s i a. slice_set s i a)) }
{
    let mut out = Numbers { list };
    play(evaluator, from_zero, calls, outcomes, &mut out)
}

fn play_ranking<K: Kind>(
    ranking: Ranking,
    from_zero: bool,
    calls: &Calls<'_, K>,
    outcomes: &mut [Noted],
    list: &mut [u64],
) -> Result<Noted, Stop>
    ensures { PlayEnds {S = List ℕ} (λ s. length s) calls.now.shown.values.now calls.now.shown.marks.now calls.now.records.now (record { outcomes = outcomes.old; answers = list.old }) (record { outcomes = outcomes.new; answers = list.new }) result (RankingRan K.Kind.same ranking from_zero) }
{
    match ranking {
        Ranking::Rank(rank_type) => {
            let rank = Rank::<K>::new(rank_type);
            play_numbers(&rank, from_zero, calls, outcomes, list)
        }
        Ranking::RowNumber => {
            let row_number = RowNumber::<K>::new();
            play_numbers(&row_number, from_zero, calls, outcomes, list)
        }
    }
}

fn try_run_numbers<C: Crossing>(
    heap: Global,
    function: &Function,
    script: &Script<'_, C::Numbers>,
    outcomes: &mut [Noted],
    answers: &mut [u64],
) -> Result<Noted, Stop>
    ensures { RunEnds {V = C.Value} {S = List ℕ} (first_of (script_stop C.Crossing.coding number_family function.now (scripted script.now)) (refused (room_refusal (length (calls_in script.now.calls.now)) (length outcomes.old) (length answers.old)))) (record { outcomes = outcomes.old; answers = answers.old }) (record { outcomes = outcomes.new; answers = answers.new }) result (CallsOf C.Crossing.coding (scripted script.now)) (RankingRan C.Value.Kind.same (ranking_of function.now) (function.now.from_zero == 1)) }
{
    let mut room = Vec::new(heap);
    let read = read_list::<C>(
        heap,
        function,
        NUMBERS,
        script.values,
        script.marks,
        &mut room,
    )?;
    let calls = read.shown().calls(script.calls)?;
    play_ranking(
        function.ranking(),
        function.is_from_zero(),
        &calls,
        outcomes,
        answers,
    )
}

// A run of RANK, DENSE_RANK or ROW_NUMBER.
pub fn run_numbers<C: Crossing>(
    heap: Global,
    function: &Function,
    script: &Script<'_, C::Numbers>,
    outcomes: &mut [Noted],
    answers: &mut [u64],
    ending: &mut Noted,
) -> Told
    ensures { RunNumbersCall C.Crossing.coding C.Value.Kind.same function.now (scripted script.now) (record { outcomes = outcomes.old; answers = answers.old }, ending.old) (record { outcomes = outcomes.new; answers = answers.new }, ending.new) result }
{
    let ended = try_run_numbers::<C>(heap, function, script, outcomes, answers);
    write_ending(function, ended, ending)
}
