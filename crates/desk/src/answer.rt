// The table of a file with the answers as its last column.
ghost use Rattle.std.specs.Prelude.{◌≡◌, false, true, None, IfErr, IfOk, length, map};
ghost use Rattle.table.specs.Contents.{bytes_of};
ghost use Rattle.options.specs.Functions.{is_valued};
ghost use Rattle.desk.specs.Columns.{Read, new_name, sheet_of};
ghost use Rattle.desk.specs.Functions.{AnswersOrder, AnswersRows, AnswersSheet, AnswersTable, AnswersValues, AnswersWhole, DefaultIs, OrderBy, Shifts, ValuedBy, laid};
ghost use Rattle.desk.specs.Refusals.{Unanswered, Why};
ghost use Rattle.desk.specs.Texts.{AllRows, Written};

use crate::by_rows::Told;
use crate::cells::read_cells;
use crate::given::{Given, order_cells};
use crate::job::{Job, Layout};
use crate::refusal::Refusal;
use crate::text::write_table;
use column::kind::{CollegeCode, Instant, LoginOutcome, Pseudonym};
use evaluator::evaluator::Evaluator;
use fields::answers::Answer;
use fields::values::FieldValue;
use lead_lag::WindowShift;
use lead_lag::offset::WindowShiftKind;
use nth_value::NthValue;
use options::asked::{Asked, ValueKind};
use options::function::Function;
use rank::cume_dist::CumeDist;
use rank::rank::{PercentRank, Rank, RankType};
use rank::row_number::RowNumber;
use run::rows::RowEvaluator;
use std::alloc::{AllocError, Global};
use table::columns::{contents, names};
use table::content::Content;
use table::read::read;
use turns::layout::Turn;

// The text that is written, and what runs took where rows were asked one by one.
#[derive(Drop)]
pub struct Answered {
    pub text: Vec<u8>,
    pub told: Option<Told>,
}

impl<'a, 'c, 't, 'b> Job<'a, 'c, 't, 'b> {
    // Each record with its answer.
    fn write<K: FieldValue, A: Answer<K>>(
        &self,
        given: &Given<'_, K>,
        answers: &[A],
    ) -> Result<Vec<u8>, AllocError>
        requires rows { AllRows self.now.table.now.records.items given.now.turns.now }
        requires answers { length answers.now ≡ length given.now.turns.now }
        ensures { IfOk result (λ v. Written A.Answer.writes given.now.turns.now answers.now self.now.table.now.records.items (new_name self.now.asked.now) v.items) }
    {
        let records = self.table.records.as_slice();
        let name = self.new_name().as_bytes();
        write_table::<K, A>(self.heap, records, name, given.turns, answers)
    }

    // The answers of an evaluator that has no row interface.
    fn answer_whole<K: FieldValue, E: Evaluator<Value = K>>(
        &self,
        given: &Given<'_, K>,
        evaluator: &E,
    ) -> Result<Answered, Refusal<'a>>
    where
        E::Answer: Answer<K>,
        requires { AllRows self.now.table.now.records.items given.now.turns.now }
        ensures answers { IfOk result (AnswersWhole E.Answer.writes (E.Evaluator.meaning evaluator.now) E.Evaluator.WANTS_FRAMES given.now.frame given.now.cells.now (laid self.now given.now.turns.now)) }
        ensures refused { IfErr result (Why (sheet_of self.now) self.now.asked.now) }
    {
        let answers = given.whole(evaluator)?;
        let text = self.write::<K, E::Answer>(given, answers.as_slice())?;
        Ok(Answered { text, told: None })
    }

    // Those of one that has it, and by rows where that is asked.
    #[tactic(auto, using(crate::proofs::Reasons::why_ran))]
    fn answer_rows<K: FieldValue, E: RowEvaluator<Value = K> + Drop>(
        &self,
        given: &Given<'_, K>,
        evaluator: &E,
    ) -> Result<Answered, Refusal<'a>>
    where
        E::Answer: Answer<K>,
        requires { AllRows self.now.table.now.records.items given.now.turns.now }
        ensures answers { IfOk result (AnswersRows E.Answer.writes E.Evaluator.meaning evaluator.now E.Evaluator.WANTS_FRAMES given.now.frame given.now.cells.now (laid self.now given.now.turns.now) self.now.asked.now.by_rows) }
        ensures refused { IfErr result (Why (sheet_of self.now) self.now.asked.now) }
    {
        let answers = given.whole(evaluator)?;
        let told = match self.asked.by_rows {
            Some(step) => Some(given.check_rows(evaluator, step, answers.as_slice())?),
            None => None,
        };
        let text = self.write::<K, E::Answer>(given, answers.as_slice())?;
        Ok(Answered { text, told })
    }

    // The default of LAG and LEAD; an empty text is NULL, as an empty field is.
    fn default<K: FieldValue>(&self) -> Result<Option<K>, Refusal<'a>>
        ensures answers { IfOk result (DefaultIs K.FieldValue.says self.now.asked.now.default) }
        ensures refused { IfErr result (Why (sheet_of self.now) self.now.asked.now) }
    {
        match self.asked.default {
            None => Ok(None),
            Some("") => Ok(None),
            Some(text) => match K::read(text.as_bytes()) {
                Some(value) => Ok(Some(value)),
                None => Err(Refusal::NoDefault {
                    text,
                    kind: K::kind(),
                }),
            },
        }
    }

    fn shift<K: FieldValue>(
        &self,
        given: &Given<'_, K>,
        kind: WindowShiftKind,
    ) -> Result<Answered, Refusal<'a>>
        requires rows { AllRows self.now.table.now.records.items given.now.turns.now }
        requires frame { given.now.frame ≡ self.now.asked.now.frame }
        ensures answers { IfOk result (Shifts K.FieldValue.says K.FieldValue.text kind self.now.asked.now given.now.cells.now (laid self.now given.now.turns.now)) }
        ensures refused { IfErr result (Why (sheet_of self.now) self.now.asked.now) }
    {
        let default = self.default::<K>()?;
        let asked = self.asked;
        match WindowShift::new(kind, asked.offset, false, asked.ignore_nulls, default) {
            Ok(shift) => self.answer_rows(given, &shift),
            Err(fault) => Err(Refusal::Call(fault)),
        }
    }

    // A function of the values of a column.
    fn of_values<K: FieldValue>(&self, given: &Given<'_, K>) -> Result<Answered, Refusal<'a>>
        requires rows { AllRows self.now.table.now.records.items given.now.turns.now }
        requires frame { given.now.frame ≡ self.now.asked.now.frame }
        requires function { is_valued self.now.asked.now.function ≡ true }
        ensures answers { IfOk result (AnswersValues K.FieldValue.says K.FieldValue.text self.now.asked.now.function self.now.asked.now given.now.cells.now (laid self.now given.now.turns.now)) }
        ensures refused { IfErr result (Why (sheet_of self.now) self.now.asked.now) }
    {
        let asked = self.asked;
        match asked.function {
            Function::Lag => self.shift(given, WindowShiftKind::Lag),
            Function::Lead => self.shift(given, WindowShiftKind::Lead),
            Function::FirstValue => self.answer_rows(given, &NthValue::first(asked.ignore_nulls)),
            Function::LastValue => self.answer_rows(given, &NthValue::last(asked.ignore_nulls)),
            _ => match NthValue::nth(asked.n, asked.ignore_nulls) {
                Ok(nth) => self.answer_rows(given, &nth),
                Err(fault) => Err(Refusal::Call(fault)),
            },
        }
    }

    // A function of the values of the column that is asked for.
    #[tactic(auto, using(crate::proofs::Reasons::why_found))]
    fn valued<K: FieldValue>(&self, turns: &[Turn]) -> Result<Answered, Refusal<'a>>
        requires read { Read self.now }
        requires rows { AllRows self.now.table.now.records.items turns.now }
        requires function { is_valued self.now.asked.now.function ≡ true }
        ensures answers { IfOk result (ValuedBy K.FieldValue.says K.FieldValue.text (sheet_of self.now) self.now.asked.now (laid self.now turns.now)) }
        ensures refused { IfErr result (Why (sheet_of self.now) self.now.asked.now) }
    {
        let asked = self.asked;
        let name = asked.of.ok_or(Refusal::NoValues)?;
        let column = self.find(name)?;
        let contents = contents(self.heap, self.table, column)?;
        let cells = read_cells::<K>(self.heap, contents.as_slice(), column)?;
        self.of_values(&Given {
            heap: self.heap,
            turns,
            cells: cells.as_slice(),
            frame: asked.frame,
        })
    }

    // A function of the order alone.
    fn of_order(&self, given: &Given<'_, Instant>) -> Result<Answered, Refusal<'a>>
        requires rows { AllRows self.now.table.now.records.items given.now.turns.now }
        requires frame { given.now.frame ≡ None }
        requires function { is_valued self.now.asked.now.function ≡ false }
        ensures answers { IfOk result (OrderBy self.now.asked.now.function self.now.asked.now given.now.cells.now (laid self.now given.now.turns.now)) }
        ensures refused { IfErr result (Why (sheet_of self.now) self.now.asked.now) }
    {
        match self.asked.function {
            Function::Rank => self.answer_rows(given, &Rank::<Instant>::new(RankType::Basic)),
            Function::DenseRank => self.answer_rows(given, &Rank::<Instant>::new(RankType::Dense)),
            Function::PercentRank => self.answer_whole(given, &PercentRank::<Instant>::new()),
            Function::CumeDist => self.answer_whole(given, &CumeDist::<Instant>::new()),
            _ => self.answer_rows(given, &RowNumber::<Instant>::new()),
        }
    }

    // Its column is the numbers of the order, so that peers are the same.
    fn ranked(&self, layout: &Layout) -> Result<Answered, Refusal<'a>>
        requires rows { AllRows self.now.table.now.records.items layout.now.turns.items }
        requires function { is_valued self.now.asked.now.function ≡ false }
        ensures answers { IfOk result (AnswersOrder self.now.asked.now.function self.now.asked.now layout.now.orders.items (laid self.now layout.now.turns.items)) }
        ensures refused { IfErr result (Why (sheet_of self.now) self.now.asked.now) }
    {
        let cells = order_cells(self.heap, layout.orders.as_slice())?;
        self.of_order(&Given {
            heap: self.heap,
            turns: layout.turns.as_slice(),
            cells: cells.as_slice(),
            frame: None,
        })
    }

    fn answer(&self) -> Result<Answered, Refusal<'a>>
        requires { Read self.now }
        ensures answers { IfOk result (AnswersSheet (sheet_of self.now) self.now.asked.now) }
        ensures refused { IfErr result (Why (sheet_of self.now) self.now.asked.now) }
    {
        let layout = self.layout()?;
        if !self.asked.function.is_valued() {
            return self.ranked(&layout);
        }
        let turns = layout.turns.as_slice();
        match self.asked.kind {
            ValueKind::Instant => self.valued::<Instant>(turns),
            ValueKind::Pseudonym => self.valued::<Pseudonym>(turns),
            ValueKind::Code => self.valued::<CollegeCode>(turns),
            ValueKind::Outcome => self.valued::<LoginOutcome>(turns),
        }
    }
}

pub(crate) fn bytes_of_all<'b>(
    heap: Global,
    contents: &'b [Content<'_>],
) -> Result<Vec<&'b [u8]>, AllocError>
    ensures { IfOk result (λ v. map (λ n. n.now) v.items ≡ map bytes_of contents.now) }
{
    contents.iter().map(|name| name.bytes()).collect(heap)
}

// The table of a text with the answers that are asked of it as its last column.
pub fn answer<'a, 'c, 't>(
    heap: Global,
    text: &'t [u8],
    asked: &'c Asked<'a>,
) -> Result<Answered, Refusal<'a>>
    ensures answers { IfOk result (AnswersTable text.now asked.now) }
    ensures refused { IfErr result (Unanswered text.now asked.now) }
{
    let table = match read(heap, text) {
        Ok(table) => table,
        Err(unread) => return Err(Refusal::Unread(unread)),
    };
    let header = names(heap, &table)?;
    let names = bytes_of_all(heap, header.as_slice())?;
    let job = Job {
        heap,
        table: &table,
        names: names.as_slice(),
        asked,
    };
    job.answer()
}
