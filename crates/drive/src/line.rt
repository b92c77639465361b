// A line with its outcome.
ghost use Rattle.std.specs.Prelude.{◌≡◌, ◌≢◌, ℕ, List, IfOk, OnOk, Ok, Err, MatchResult, string_bytes};
ghost use Rattle.lines.specs.Cursors.{Onward, ahead, passed};
ghost use Rattle.lines.specs.declared.stop.Stop.TheVariants.{Unread, Memory};
ghost use Rattle.drive.specs.declared.line.Form.TheVariants.{Whole, Mirror, Run};
ghost use Rattle.drive.specs.Outcomes.{IsComment, TellsRefusal, line_text};
ghost use Rattle.drive.specs.Reads.{ReadsLimit, ReadsSetting};
ghost use Rattle.drive.specs.Runs.{TellsRun};
ghost use Rattle.drive.specs.Whole.{TellsWhole};

use crate::answer::Answer;
use crate::groups::answer_groups;
use crate::ops::read_steps;
use crate::outcome::Refusal;
use crate::runs::answer_run;
use crate::whole::answer_whole;
use column::column::ROW_LIMIT;
use column::fault::Fault;
use column::kind::{CollegeCode, Instant, LoginOutcome, Pair, Pseudonym};
use evaluator::evaluator::Evaluator;
use evaluator::mirror::MirrorEvaluator;
use functions::function::{Function, read_function};
use lead_lag::WindowShift;
use lines::cursor::Cursor;
use lines::kinds::{KindName, read_kind};
use lines::stop::{Bad, Stop};
use lines::text::{Text, Value};
use nth_value::NthValue;
use rank::cume_dist::CumeDist;
use rank::rank::{PercentRank, Rank};
use rank::row_number::RowNumber;
use run::rows::RowEvaluator;
use std::alloc::Global;

// What a line asks for: a whole partition, the same of the mirror, a run, or the peer groups of a column.
#[derive(Clone, Copy)]
enum Form {
    Whole,
    Mirror,
    Run,
    Groups,
}

// A line, without the outcome that it states.
#[derive(Clone, Copy)]
struct Line<'a> {
    heap: Global,
    text: &'a str,
    form: Form,
    // where the words begin that a form may not take
    words: Bad,
}

impl Line<'_> {
    // The line with its outcome.
    fn answered(&self, outcome: &str) -> Result<String, Stop>
        ensures { MatchResult result (λ s. string_bytes s ≡ line_text self.now.text.now outcome.now) (λ stop. stop ≡ Memory) }
    {
        let text = self.text;
        Ok(format!(in self.heap; "{text} = {outcome}")?)
    }
}

fn read_form(cursor: &mut Cursor<'_>) -> Result<Form, Bad> {
    let form = if cursor.take(b'W') {
        Form::Whole
    } else if cursor.take(b'X') {
        Form::Mirror
    } else if cursor.take(b'G') {
        Form::Groups
    } else {
        cursor.expect(b'H')?;
        Form::Run
    };
    cursor.expect(b' ')?;
    Ok(form)
}

// The row limit that a run states is the one that it has.
fn read_limit(cursor: &mut Cursor<'_>) -> Result<(), Bad>
    ensures reads { OnOk result (ReadsLimit (passed cursor.old cursor.new)) }
    ensures onward { Onward cursor.old cursor.new }
{
    cursor.expect(b'L')?;
    cursor.number_in(ROW_LIMIT..=ROW_LIMIT)?;
    Ok(())
}

// Whether a run is set to frames that begin at 0, and its limit behind that.
fn read_setting(cursor: &mut Cursor<'_>) -> Result<bool, Bad>
    ensures reads { IfOk result (λ from_zero. ReadsSetting (passed cursor.old cursor.new) from_zero) }
    ensures onward { Onward cursor.old cursor.new }
{
    cursor.expect(b'Z')?;
    let from_zero = bool::read(cursor)?;
    cursor.expect(b' ')?;
    read_limit(cursor)?;
    Ok(from_zero)
}

fn whole_line<E: Evaluator + Drop>(
    line: &Line<'_>,
    cursor: &mut Cursor<'_>,
    made: Result<E, Fault>,
) -> Result<String, Stop>
where
    E::Value: Value,
    E::Answer: Answer<E::Value>,
    ensures refused { IfOk result (λ s. (outcome : List ℕ) × (string_bytes s ≡ line_text line.now.text.now outcome) × TellsRefusal made outcome) }
    ensures back { TellsWhole E.Value.Kind.same E.Value.Show.text E.Value.Text.fits E.Answer.Show.text E.Answer.Answer.sized E.Evaluator.WANTS_FRAMES E.Evaluator.WANTS_GROUPS E.Evaluator.meaning made line.now.text.now (ahead cursor.old) result }
{
    let outcome = answer_whole(line.heap, cursor, made)?;
    line.answered(outcome.as_str())
}

// A run whose evaluator is refused has that refusal in the place of all outcomes.
fn run_line<E: RowEvaluator + Drop>(
    line: &Line<'_>,
    cursor: &mut Cursor<'_>,
    made: Result<E, Fault>,
) -> Result<String, Stop>
where
    E::Value: Value,
    E::Answer: Answer<E::Value>,
    ensures { TellsRun E.Value.Text.reads E.Answer.Show.text E.Evaluator.meaning E.Evaluator.WANTS_FRAMES made line.now.text.now cursor.old result }
{
    let heap = line.heap;
    let from_zero = read_setting(cursor)?;
    let head = cursor.since(0);
    let steps = read_steps::<E::Value>(heap, cursor)?;
    match made {
        Ok(evaluator) => {
            let ops = answer_run(heap, &evaluator, from_zero, steps.as_slice())?;
            Ok(format!(in heap; "{head}{ops}")?)
        }
        Err(fault) => line.answered(Refusal(fault).to_string(heap)?.as_str()),
    }
}

// The forms that each evaluator has.
fn answer_evaluator<E: Evaluator + Drop>(
    line: &Line<'_>,
    cursor: &mut Cursor<'_>,
    made: Result<E, Fault>,
) -> Result<String, Stop>
where
    E::Value: Value,
    E::Answer: Answer<E::Value>,
    ensures whole { line.now.form ≡ Whole → TellsWhole E.Value.Kind.same E.Value.Show.text E.Value.Text.fits E.Answer.Show.text E.Answer.Answer.sized E.Evaluator.WANTS_FRAMES E.Evaluator.WANTS_GROUPS E.Evaluator.meaning made line.now.text.now (ahead cursor.old) result }
    ensures other { line.now.form ≢ Whole → result ≡ Err (Unread line.now.words) }
{
    match line.form {
        Form::Whole => whole_line(line, cursor, made),
        _ => Err(Stop::Unread(line.words)),
    }
}

// Those of an evaluator that answers by row.
fn answer_rows<E: RowEvaluator + Drop>(
    line: &Line<'_>,
    cursor: &mut Cursor<'_>,
    made: Result<E, Fault>,
) -> Result<String, Stop>
where
    E::Value: Value,
    E::Answer: Answer<E::Value>,
    ensures whole { line.now.form ≡ Whole → TellsWhole E.Value.Kind.same E.Value.Show.text E.Value.Text.fits E.Answer.Show.text E.Answer.Answer.sized E.Evaluator.WANTS_FRAMES E.Evaluator.WANTS_GROUPS E.Evaluator.meaning made line.now.text.now (ahead cursor.old) result }
    ensures run { line.now.form ≡ Run → TellsRun E.Value.Text.reads E.Answer.Show.text E.Evaluator.meaning E.Evaluator.WANTS_FRAMES made line.now.text.now cursor.old result }
    ensures other { line.now.form ≢ Whole → line.now.form ≢ Run → result ≡ Err (Unread line.now.words) }
{
    match line.form {
        Form::Run => run_line(line, cursor, made),
        _ => answer_evaluator(line, cursor, made),
    }
}

// The mirror, of an evaluator that is not refused.
fn mirror_of<E: MirrorEvaluator + Drop>(made: Result<E, Fault>) -> Result<E, Fault>
    ensures { MatchResult made (λ e. result ≡ Ok (E.MirrorEvaluator.mirrored e)) (λ f. result ≡ Err f) }
{
    made.map(|evaluator| evaluator.mirror())
}

// Those of one that also has a mirror.
fn answer_mirrored<E: RowEvaluator + MirrorEvaluator + Drop>(
    line: &Line<'_>,
    cursor: &mut Cursor<'_>,
    made: Result<E, Fault>,
) -> Result<String, Stop>
where
    E::Value: Value,
    E::Answer: Answer<E::Value>,
    ensures whole { line.now.form ≡ Whole → TellsWhole E.Value.Kind.same E.Value.Show.text E.Value.Text.fits E.Answer.Show.text E.Answer.Answer.sized E.Evaluator.WANTS_FRAMES E.Evaluator.WANTS_GROUPS E.Evaluator.meaning made line.now.text.now (ahead cursor.old) result }
    ensures mirror { line.now.form ≡ Mirror → TellsWhole E.Value.Kind.same E.Value.Show.text E.Value.Text.fits E.Answer.Show.text E.Answer.Answer.sized E.Evaluator.WANTS_FRAMES E.Evaluator.WANTS_GROUPS (λ e. E.Evaluator.meaning (E.MirrorEvaluator.mirrored e)) made line.now.text.now (ahead cursor.old) result }
    ensures run { line.now.form ≡ Run → TellsRun E.Value.Text.reads E.Answer.Show.text E.Evaluator.meaning E.Evaluator.WANTS_FRAMES made line.now.text.now cursor.old result }
{
    match line.form {
        Form::Mirror => whole_line(line, cursor, mirror_of(made)),
        _ => answer_rows(line, cursor, made),
    }
}

// A line with a function, at its kind of values.
fn answer_function<K: Value>(line: &Line<'_>, cursor: &mut Cursor<'_>) -> Result<String, Stop> {
    let function = read_function::<K>(cursor)?;
    cursor.expect(b' ')?;
    cursor.field();
    cursor.expect(b' ')?;
    match function {
        Function::Shift(shift) => answer_mirrored(line, cursor, WindowShift::try_from(shift)),
        Function::Frames(frames) => answer_mirrored(line, cursor, NthValue::<K>::try_from(frames)),
        Function::Rank(rank_type) => answer_rows(line, cursor, Ok(Rank::<K>::new(rank_type))),
        Function::RowNumber => answer_rows(line, cursor, Ok(RowNumber::<K>::new())),
        Function::PercentRank => answer_evaluator(line, cursor, Ok(PercentRank::<K>::new())),
        Function::CumeDist => answer_evaluator(line, cursor, Ok(CumeDist::<K>::new())),
    }
}

fn groups_line<K: Value>(line: &Line<'_>, cursor: &mut Cursor<'_>) -> Result<String, Stop> {
    cursor.field();
    cursor.expect(b' ')?;
    let outcome = answer_groups::<K>(line.heap, cursor)?;
    line.answered(outcome.as_str())
}

// The line at its kind of values.
fn answer_at<K: Value>(heap: Global, text: &str) -> Result<String, Stop> {
    let mut cursor = Cursor::new(text);
    let form = read_form(&mut cursor)?;
    let line = Line {
        heap,
        text,
        form,
        words: cursor.bad(),
    };
    match form {
        Form::Groups => groups_line::<K>(&line, &mut cursor),
        _ => answer_function::<K>(&line, &mut cursor),
    }
}

// The kind is read first, since it says how a default is read.
fn answer(heap: Global, text: &str) -> Result<String, Stop> {
    let mut cursor = Cursor::new(text);
    if !matches!(read_form(&mut cursor)?, Form::Groups) {
        cursor.field();
        cursor.expect(b' ')?;
    }
    // only a `match` gets from a name to a type
    match read_kind(&mut cursor)? {
        KindName::Instant => answer_at::<Instant>(heap, text),
        KindName::Pseudonym => answer_at::<Pseudonym>(heap, text),
        KindName::Code => answer_at::<CollegeCode>(heap, text),
        KindName::Outcome => answer_at::<LoginOutcome>(heap, text),
        KindName::InstantCode => answer_at::<Pair<Instant, CollegeCode>>(heap, text),
        KindName::OutcomeLogin => {
            answer_at::<Pair<LoginOutcome, Pair<Instant, Pseudonym>>>(heap, text)
        }
    }
}

// A line with what it found in the place of what it stated; a comment or an empty line as it is.
pub(crate) fn answer_line(heap: Global, line: &str) -> Result<String, Stop>
    ensures { IsComment line.now → IfOk result (λ s. string_bytes s ≡ line.now) }
{
    if line.is_empty() || line.starts_with('#') {
        return Ok(String::from_str(heap, line)?);
    }
    let text = line.split_once(" = ").map_or(line, |(text, _)| text);
    match answer(heap, text) {
        Err(Stop::Unread(bad)) => Ok(format!(in heap; "{text} = {bad}")?),
        answered => answered,
    }
}
