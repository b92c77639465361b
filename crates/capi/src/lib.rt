// The C entry points: for each kind of value a call on whole partitions for each type of answer, one for peer groups, and one for runs.
// Each hands its lists to the function of `wire` of its name, and has the same contract.
#![tactic(auto)]

ghost use Rattle.column.specs.Kinds.{same_instant, same_pseudonym, same_code, same_outcome};
ghost use Rattle.column.specs.declared.kind.Instant.{Instant};
ghost use Rattle.column.specs.declared.kind.Pseudonym.{Pseudonym};
ghost use Rattle.column.specs.declared.kind.CollegeCode.{CollegeCode};
ghost use Rattle.wire.specs.declared.kinds.InstantCode.{InstantCode};
ghost use Rattle.wire.specs.Kinds.{CodingLaws, plain_coding, outcome_coding, same_instant_code};
ghost use Rattle.wire.specs.Whole.{CellsCall, CellsFilled, NumbersCall, FractionsCall, GroupsCall};
ghost use Rattle.wire.specs.Runs.{RunCellsCall, RunNumbersCall};

use column::kind::{CollegeCode, Instant, Pseudonym};
use std::alloc::Global;
use wire::function::Function;
use wire::kinds::{InstantCode, OutcomeNumbers, Outcomes, Plain};
use wire::lists::Span;
use wire::runs::{Noted, Script, run_cells, run_numbers};
use wire::stop::Told;
use wire::whole::{Lent, cells, fractions, groups, numbers};

#[unsafe(no_mangle)]
pub extern "C" fn bodkinfawn_instant_cells(
    heap: Global,
    function: &Function,
    default: Instant,
    values: &[Instant],
    marks: &[u8],
    frames: &[Span],
    groups: &[Span],
    answers: &mut [Instant],
    answer_marks: &mut [u8],
) -> Told
    ensures coding { CodingLaws {V = Instant} {N = Instant} plain_coding }
    ensures filled { CellsFilled plain_coding function.now default (record { values = values.now; marks = marks.now; frames = frames.now; groups = groups.now }) (record { values = answers.old; marks = answer_marks.old }) (record { values = answers.new; marks = answer_marks.new }) result }
    ensures call { CellsCall plain_coding same_instant function.now default (record { values = values.now; marks = marks.now; frames = frames.now; groups = groups.now }) (record { values = answers.old; marks = answer_marks.old }) (record { values = answers.new; marks = answer_marks.new }) result }
{
    let lent = Lent {
        values,
        marks,
        frames,
        groups,
    };
    cells::<Plain<Instant>>(heap, function, default, &lent, answers, answer_marks)
}

#[unsafe(no_mangle)]
pub extern "C" fn bodkinfawn_instant_numbers(
    heap: Global,
    function: &Function,
    values: &[Instant],
    marks: &[u8],
    frames: &[Span],
    groups: &[Span],
    answers: &mut [u64],
) -> Told
    ensures { NumbersCall plain_coding same_instant function.now (record { values = values.now; marks = marks.now; frames = frames.now; groups = groups.now }) answers.old answers.new result }
{
    let lent = Lent {
        values,
        marks,
        frames,
        groups,
    };
    numbers::<Plain<Instant>>(heap, function, &lent, answers)
}

#[unsafe(no_mangle)]
pub extern "C" fn bodkinfawn_instant_fractions(
    heap: Global,
    function: &Function,
    values: &[Instant],
    marks: &[u8],
    frames: &[Span],
    groups: &[Span],
    answers: &mut [f64],
) -> Told
    ensures { FractionsCall plain_coding same_instant function.now (record { values = values.now; marks = marks.now; frames = frames.now; groups = groups.now }) answers.old answers.new result }
{
    let lent = Lent {
        values,
        marks,
        frames,
        groups,
    };
    fractions::<Plain<Instant>>(heap, function, &lent, answers)
}

#[unsafe(no_mangle)]
pub extern "C" fn bodkinfawn_instant_groups(
    heap: Global,
    values: &[Instant],
    marks: &[u8],
    spans: &mut [Span],
) -> Told
    ensures { GroupsCall plain_coding same_instant values.now marks.now spans.old spans.new result }
{
    groups::<Plain<Instant>>(heap, values, marks, spans)
}

#[unsafe(no_mangle)]
pub extern "C" fn bodkinfawn_instant_run_cells(
    heap: Global,
    function: &Function,
    default: Instant,
    values: &[Instant],
    marks: &[u8],
    calls: &[u8],
    outcomes: &mut [Noted],
    answers: &mut [Instant],
    answer_marks: &mut [u8],
    ending: &mut Noted,
) -> Told
    ensures { RunCellsCall plain_coding function.now default (record { values = values.now; marks = marks.now; calls = calls.now }) (record { outcomes = outcomes.old; answers = record { values = answers.old; marks = answer_marks.old } }, ending.old) (record { outcomes = outcomes.new; answers = record { values = answers.new; marks = answer_marks.new } }, ending.new) result }
{
    let script = Script {
        values,
        marks,
        calls,
    };
    run_cells::<Plain<Instant>>(
        heap,
        function,
        default,
        &script,
        outcomes,
        answers,
        answer_marks,
        ending,
    )
}

#[unsafe(no_mangle)]
pub extern "C" fn bodkinfawn_instant_run_numbers(
    heap: Global,
    function: &Function,
    values: &[Instant],
    marks: &[u8],
    calls: &[u8],
    outcomes: &mut [Noted],
    answers: &mut [u64],
    ending: &mut Noted,
) -> Told
    ensures { RunNumbersCall plain_coding same_instant function.now (record { values = values.now; marks = marks.now; calls = calls.now }) (record { outcomes = outcomes.old; answers = answers.old }, ending.old) (record { outcomes = outcomes.new; answers = answers.new }, ending.new) result }
{
    let script = Script {
        values,
        marks,
        calls,
    };
    run_numbers::<Plain<Instant>>(heap, function, &script, outcomes, answers, ending)
}

#[unsafe(no_mangle)]
pub extern "C" fn bodkinfawn_pseudonym_cells(
    heap: Global,
    function: &Function,
    default: Pseudonym,
    values: &[Pseudonym],
    marks: &[u8],
    frames: &[Span],
    groups: &[Span],
    answers: &mut [Pseudonym],
    answer_marks: &mut [u8],
) -> Told
    ensures coding { CodingLaws {V = Pseudonym} {N = Pseudonym} plain_coding }
    ensures filled { CellsFilled plain_coding function.now default (record { values = values.now; marks = marks.now; frames = frames.now; groups = groups.now }) (record { values = answers.old; marks = answer_marks.old }) (record { values = answers.new; marks = answer_marks.new }) result }
    ensures call { CellsCall plain_coding same_pseudonym function.now default (record { values = values.now; marks = marks.now; frames = frames.now; groups = groups.now }) (record { values = answers.old; marks = answer_marks.old }) (record { values = answers.new; marks = answer_marks.new }) result }
{
    let lent = Lent {
        values,
        marks,
        frames,
        groups,
    };
    cells::<Plain<Pseudonym>>(heap, function, default, &lent, answers, answer_marks)
}

#[unsafe(no_mangle)]
pub extern "C" fn bodkinfawn_pseudonym_numbers(
    heap: Global,
    function: &Function,
    values: &[Pseudonym],
    marks: &[u8],
    frames: &[Span],
    groups: &[Span],
    answers: &mut [u64],
) -> Told
    ensures { NumbersCall plain_coding same_pseudonym function.now (record { values = values.now; marks = marks.now; frames = frames.now; groups = groups.now }) answers.old answers.new result }
{
    let lent = Lent {
        values,
        marks,
        frames,
        groups,
    };
    numbers::<Plain<Pseudonym>>(heap, function, &lent, answers)
}

#[unsafe(no_mangle)]
pub extern "C" fn bodkinfawn_pseudonym_fractions(
    heap: Global,
    function: &Function,
    values: &[Pseudonym],
    marks: &[u8],
    frames: &[Span],
    groups: &[Span],
    answers: &mut [f64],
) -> Told
    ensures { FractionsCall plain_coding same_pseudonym function.now (record { values = values.now; marks = marks.now; frames = frames.now; groups = groups.now }) answers.old answers.new result }
{
    let lent = Lent {
        values,
        marks,
        frames,
        groups,
    };
    fractions::<Plain<Pseudonym>>(heap, function, &lent, answers)
}

#[unsafe(no_mangle)]
pub extern "C" fn bodkinfawn_pseudonym_groups(
    heap: Global,
    values: &[Pseudonym],
    marks: &[u8],
    spans: &mut [Span],
) -> Told
    ensures { GroupsCall plain_coding same_pseudonym values.now marks.now spans.old spans.new result }
{
    groups::<Plain<Pseudonym>>(heap, values, marks, spans)
}

#[unsafe(no_mangle)]
pub extern "C" fn bodkinfawn_pseudonym_run_cells(
    heap: Global,
    function: &Function,
    default: Pseudonym,
    values: &[Pseudonym],
    marks: &[u8],
    calls: &[u8],
    outcomes: &mut [Noted],
    answers: &mut [Pseudonym],
    answer_marks: &mut [u8],
    ending: &mut Noted,
) -> Told
    ensures { RunCellsCall plain_coding function.now default (record { values = values.now; marks = marks.now; calls = calls.now }) (record { outcomes = outcomes.old; answers = record { values = answers.old; marks = answer_marks.old } }, ending.old) (record { outcomes = outcomes.new; answers = record { values = answers.new; marks = answer_marks.new } }, ending.new) result }
{
    let script = Script {
        values,
        marks,
        calls,
    };
    run_cells::<Plain<Pseudonym>>(
        heap,
        function,
        default,
        &script,
        outcomes,
        answers,
        answer_marks,
        ending,
    )
}

#[unsafe(no_mangle)]
pub extern "C" fn bodkinfawn_pseudonym_run_numbers(
    heap: Global,
    function: &Function,
    values: &[Pseudonym],
    marks: &[u8],
    calls: &[u8],
    outcomes: &mut [Noted],
    answers: &mut [u64],
    ending: &mut Noted,
) -> Told
    ensures { RunNumbersCall plain_coding same_pseudonym function.now (record { values = values.now; marks = marks.now; calls = calls.now }) (record { outcomes = outcomes.old; answers = answers.old }, ending.old) (record { outcomes = outcomes.new; answers = answers.new }, ending.new) result }
{
    let script = Script {
        values,
        marks,
        calls,
    };
    run_numbers::<Plain<Pseudonym>>(heap, function, &script, outcomes, answers, ending)
}

#[unsafe(no_mangle)]
pub extern "C" fn bodkinfawn_code_cells(
    heap: Global,
    function: &Function,
    default: CollegeCode,
    values: &[CollegeCode],
    marks: &[u8],
    frames: &[Span],
    groups: &[Span],
    answers: &mut [CollegeCode],
    answer_marks: &mut [u8],
) -> Told
    ensures coding { CodingLaws {V = CollegeCode} {N = CollegeCode} plain_coding }
    ensures filled { CellsFilled plain_coding function.now default (record { values = values.now; marks = marks.now; frames = frames.now; groups = groups.now }) (record { values = answers.old; marks = answer_marks.old }) (record { values = answers.new; marks = answer_marks.new }) result }
    ensures call { CellsCall plain_coding same_code function.now default (record { values = values.now; marks = marks.now; frames = frames.now; groups = groups.now }) (record { values = answers.old; marks = answer_marks.old }) (record { values = answers.new; marks = answer_marks.new }) result }
{
    let lent = Lent {
        values,
        marks,
        frames,
        groups,
    };
    cells::<Plain<CollegeCode>>(heap, function, default, &lent, answers, answer_marks)
}

#[unsafe(no_mangle)]
pub extern "C" fn bodkinfawn_code_numbers(
    heap: Global,
    function: &Function,
    values: &[CollegeCode],
    marks: &[u8],
    frames: &[Span],
    groups: &[Span],
    answers: &mut [u64],
) -> Told
    ensures { NumbersCall plain_coding same_code function.now (record { values = values.now; marks = marks.now; frames = frames.now; groups = groups.now }) answers.old answers.new result }
{
    let lent = Lent {
        values,
        marks,
        frames,
        groups,
    };
    numbers::<Plain<CollegeCode>>(heap, function, &lent, answers)
}

#[unsafe(no_mangle)]
pub extern "C" fn bodkinfawn_code_fractions(
    heap: Global,
    function: &Function,
    values: &[CollegeCode],
    marks: &[u8],
    frames: &[Span],
    groups: &[Span],
    answers: &mut [f64],
) -> Told
    ensures { FractionsCall plain_coding same_code function.now (record { values = values.now; marks = marks.now; frames = frames.now; groups = groups.now }) answers.old answers.new result }
{
    let lent = Lent {
        values,
        marks,
        frames,
        groups,
    };
    fractions::<Plain<CollegeCode>>(heap, function, &lent, answers)
}

#[unsafe(no_mangle)]
pub extern "C" fn bodkinfawn_code_groups(
    heap: Global,
    values: &[CollegeCode],
    marks: &[u8],
    spans: &mut [Span],
) -> Told
    ensures { GroupsCall plain_coding same_code values.now marks.now spans.old spans.new result }
{
    groups::<Plain<CollegeCode>>(heap, values, marks, spans)
}

#[unsafe(no_mangle)]
pub extern "C" fn bodkinfawn_code_run_cells(
    heap: Global,
    function: &Function,
    default: CollegeCode,
    values: &[CollegeCode],
    marks: &[u8],
    calls: &[u8],
    outcomes: &mut [Noted],
    answers: &mut [CollegeCode],
    answer_marks: &mut [u8],
    ending: &mut Noted,
) -> Told
    ensures { RunCellsCall plain_coding function.now default (record { values = values.now; marks = marks.now; calls = calls.now }) (record { outcomes = outcomes.old; answers = record { values = answers.old; marks = answer_marks.old } }, ending.old) (record { outcomes = outcomes.new; answers = record { values = answers.new; marks = answer_marks.new } }, ending.new) result }
{
    let script = Script {
        values,
        marks,
        calls,
    };
    run_cells::<Plain<CollegeCode>>(
        heap,
        function,
        default,
        &script,
        outcomes,
        answers,
        answer_marks,
        ending,
    )
}

#[unsafe(no_mangle)]
pub extern "C" fn bodkinfawn_code_run_numbers(
    heap: Global,
    function: &Function,
    values: &[CollegeCode],
    marks: &[u8],
    calls: &[u8],
    outcomes: &mut [Noted],
    answers: &mut [u64],
    ending: &mut Noted,
) -> Told
    ensures { RunNumbersCall plain_coding same_code function.now (record { values = values.now; marks = marks.now; calls = calls.now }) (record { outcomes = outcomes.old; answers = answers.old }, ending.old) (record { outcomes = outcomes.new; answers = answers.new }, ending.new) result }
{
    let script = Script {
        values,
        marks,
        calls,
    };
    run_numbers::<Plain<CollegeCode>>(heap, function, &script, outcomes, answers, ending)
}

#[unsafe(no_mangle)]
pub extern "C" fn bodkinfawn_outcome_cells(
    heap: Global,
    function: &Function,
    default: OutcomeNumbers,
    values: &[OutcomeNumbers],
    marks: &[u8],
    frames: &[Span],
    groups: &[Span],
    answers: &mut [OutcomeNumbers],
    answer_marks: &mut [u8],
) -> Told
    ensures coding { CodingLaws outcome_coding }
    ensures filled { CellsFilled outcome_coding function.now default (record { values = values.now; marks = marks.now; frames = frames.now; groups = groups.now }) (record { values = answers.old; marks = answer_marks.old }) (record { values = answers.new; marks = answer_marks.new }) result }
    ensures call { CellsCall outcome_coding same_outcome function.now default (record { values = values.now; marks = marks.now; frames = frames.now; groups = groups.now }) (record { values = answers.old; marks = answer_marks.old }) (record { values = answers.new; marks = answer_marks.new }) result }
{
    let lent = Lent {
        values,
        marks,
        frames,
        groups,
    };
    cells::<Outcomes>(heap, function, default, &lent, answers, answer_marks)
}

#[unsafe(no_mangle)]
pub extern "C" fn bodkinfawn_outcome_numbers(
    heap: Global,
    function: &Function,
    values: &[OutcomeNumbers],
    marks: &[u8],
    frames: &[Span],
    groups: &[Span],
    answers: &mut [u64],
) -> Told
    ensures { NumbersCall outcome_coding same_outcome function.now (record { values = values.now; marks = marks.now; frames = frames.now; groups = groups.now }) answers.old answers.new result }
{
    let lent = Lent {
        values,
        marks,
        frames,
        groups,
    };
    numbers::<Outcomes>(heap, function, &lent, answers)
}

#[unsafe(no_mangle)]
pub extern "C" fn bodkinfawn_outcome_fractions(
    heap: Global,
    function: &Function,
    values: &[OutcomeNumbers],
    marks: &[u8],
    frames: &[Span],
    groups: &[Span],
    answers: &mut [f64],
) -> Told
    ensures { FractionsCall outcome_coding same_outcome function.now (record { values = values.now; marks = marks.now; frames = frames.now; groups = groups.now }) answers.old answers.new result }
{
    let lent = Lent {
        values,
        marks,
        frames,
        groups,
    };
    fractions::<Outcomes>(heap, function, &lent, answers)
}

#[unsafe(no_mangle)]
pub extern "C" fn bodkinfawn_outcome_groups(
    heap: Global,
    values: &[OutcomeNumbers],
    marks: &[u8],
    spans: &mut [Span],
) -> Told
    ensures { GroupsCall outcome_coding same_outcome values.now marks.now spans.old spans.new result }
{
    groups::<Outcomes>(heap, values, marks, spans)
}

#[unsafe(no_mangle)]
pub extern "C" fn bodkinfawn_outcome_run_cells(
    heap: Global,
    function: &Function,
    default: OutcomeNumbers,
    values: &[OutcomeNumbers],
    marks: &[u8],
    calls: &[u8],
    outcomes: &mut [Noted],
    answers: &mut [OutcomeNumbers],
    answer_marks: &mut [u8],
    ending: &mut Noted,
) -> Told
    ensures { RunCellsCall outcome_coding function.now default (record { values = values.now; marks = marks.now; calls = calls.now }) (record { outcomes = outcomes.old; answers = record { values = answers.old; marks = answer_marks.old } }, ending.old) (record { outcomes = outcomes.new; answers = record { values = answers.new; marks = answer_marks.new } }, ending.new) result }
{
    let script = Script {
        values,
        marks,
        calls,
    };
    run_cells::<Outcomes>(
        heap,
        function,
        default,
        &script,
        outcomes,
        answers,
        answer_marks,
        ending,
    )
}

#[unsafe(no_mangle)]
pub extern "C" fn bodkinfawn_outcome_run_numbers(
    heap: Global,
    function: &Function,
    values: &[OutcomeNumbers],
    marks: &[u8],
    calls: &[u8],
    outcomes: &mut [Noted],
    answers: &mut [u64],
    ending: &mut Noted,
) -> Told
    ensures { RunNumbersCall outcome_coding same_outcome function.now (record { values = values.now; marks = marks.now; calls = calls.now }) (record { outcomes = outcomes.old; answers = answers.old }, ending.old) (record { outcomes = outcomes.new; answers = answers.new }, ending.new) result }
{
    let script = Script {
        values,
        marks,
        calls,
    };
    run_numbers::<Outcomes>(heap, function, &script, outcomes, answers, ending)
}

#[unsafe(no_mangle)]
pub extern "C" fn bodkinfawn_pair_cells(
    heap: Global,
    function: &Function,
    default: InstantCode,
    values: &[InstantCode],
    marks: &[u8],
    frames: &[Span],
    groups: &[Span],
    answers: &mut [InstantCode],
    answer_marks: &mut [u8],
) -> Told
    ensures coding { CodingLaws {V = InstantCode} {N = InstantCode} plain_coding }
    ensures filled { CellsFilled plain_coding function.now default (record { values = values.now; marks = marks.now; frames = frames.now; groups = groups.now }) (record { values = answers.old; marks = answer_marks.old }) (record { values = answers.new; marks = answer_marks.new }) result }
    ensures call { CellsCall plain_coding same_instant_code function.now default (record { values = values.now; marks = marks.now; frames = frames.now; groups = groups.now }) (record { values = answers.old; marks = answer_marks.old }) (record { values = answers.new; marks = answer_marks.new }) result }
{
    let lent = Lent {
        values,
        marks,
        frames,
        groups,
    };
    cells::<Plain<InstantCode>>(heap, function, default, &lent, answers, answer_marks)
}

#[unsafe(no_mangle)]
pub extern "C" fn bodkinfawn_pair_numbers(
    heap: Global,
    function: &Function,
    values: &[InstantCode],
    marks: &[u8],
    frames: &[Span],
    groups: &[Span],
    answers: &mut [u64],
) -> Told
    ensures { NumbersCall plain_coding same_instant_code function.now (record { values = values.now; marks = marks.now; frames = frames.now; groups = groups.now }) answers.old answers.new result }
{
    let lent = Lent {
        values,
        marks,
        frames,
        groups,
    };
    numbers::<Plain<InstantCode>>(heap, function, &lent, answers)
}

#[unsafe(no_mangle)]
pub extern "C" fn bodkinfawn_pair_fractions(
    heap: Global,
    function: &Function,
    values: &[InstantCode],
    marks: &[u8],
    frames: &[Span],
    groups: &[Span],
    answers: &mut [f64],
) -> Told
    ensures { FractionsCall plain_coding same_instant_code function.now (record { values = values.now; marks = marks.now; frames = frames.now; groups = groups.now }) answers.old answers.new result }
{
    let lent = Lent {
        values,
        marks,
        frames,
        groups,
    };
    fractions::<Plain<InstantCode>>(heap, function, &lent, answers)
}

#[unsafe(no_mangle)]
pub extern "C" fn bodkinfawn_pair_groups(
    heap: Global,
    values: &[InstantCode],
    marks: &[u8],
    spans: &mut [Span],
) -> Told
    ensures { GroupsCall plain_coding same_instant_code values.now marks.now spans.old spans.new result }
{
    groups::<Plain<InstantCode>>(heap, values, marks, spans)
}

#[unsafe(no_mangle)]
pub extern "C" fn bodkinfawn_pair_run_cells(
    heap: Global,
    function: &Function,
    default: InstantCode,
    values: &[InstantCode],
    marks: &[u8],
    calls: &[u8],
    outcomes: &mut [Noted],
    answers: &mut [InstantCode],
    answer_marks: &mut [u8],
    ending: &mut Noted,
) -> Told
    ensures { RunCellsCall plain_coding function.now default (record { values = values.now; marks = marks.now; calls = calls.now }) (record { outcomes = outcomes.old; answers = record { values = answers.old; marks = answer_marks.old } }, ending.old) (record { outcomes = outcomes.new; answers = record { values = answers.new; marks = answer_marks.new } }, ending.new) result }
{
    let script = Script {
        values,
        marks,
        calls,
    };
    run_cells::<Plain<InstantCode>>(
        heap,
        function,
        default,
        &script,
        outcomes,
        answers,
        answer_marks,
        ending,
    )
}

#[unsafe(no_mangle)]
pub extern "C" fn bodkinfawn_pair_run_numbers(
    heap: Global,
    function: &Function,
    values: &[InstantCode],
    marks: &[u8],
    calls: &[u8],
    outcomes: &mut [Noted],
    answers: &mut [u64],
    ending: &mut Noted,
) -> Told
    ensures { RunNumbersCall plain_coding same_instant_code function.now (record { values = values.now; marks = marks.now; calls = calls.now }) (record { outcomes = outcomes.old; answers = answers.old }, ending.old) (record { outcomes = outcomes.new; answers = answers.new }, ending.new) result }
{
    let script = Script {
        values,
        marks,
        calls,
    };
    run_numbers::<Plain<InstantCode>>(heap, function, &script, outcomes, answers, ending)
}
