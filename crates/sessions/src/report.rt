// The text of the report: each line with its answer, and a summary.
ghost use Rattle.std.specs.Prelude.{◌≡◌, ◌<◌, ◌≤◌, ◌++◌, map, length, IfOk, OnOk, string_bytes, MatchResult};
ghost use Rattle.sessions.specs.Faults.{FullAt, Unreported};
ghost use Rattle.sessions.specs.Report.{rows_text, head_text, summary_text, nulls, expiry_of, Reported};

use crate::answers::last_renewed;
use crate::problem::{Problem, Refusal, Unanswered};
use crate::read::read;
use crate::record::Record;
use column::kind::Instant;
use std::alloc::{AllocError, Global};

// How many cells are NULL.
fn count_nulls(cells: &[Option<Instant>]) -> usize
    ensures { result ≡ nulls cells.now }
{
    cells.iter().filter(|cell| cell.is_none()).count()
}

// How many records have no expiry.
// One function with `count_nulls`, given a closure for the cell or an iterator of cells, was tried: it asks clauses on either, and what it counts stays open.
fn count_empty(records: &[Record<'_>]) -> usize
    ensures { result ≡ nulls (map expiry_of records.now) }
{
    records
        .iter()
        .filter(|record| record.expiry.is_none())
        .count()
}

fn header(heap: Global, line: &str) -> Result<String, AllocError>
    ensures { IfOk result (λ s. string_bytes s ≡ head_text line.now) }
{
    format!(in heap; "{line},last_renewed_expiry\n")
}

fn write_summary(
    text: &mut String,
    sessions: usize,
    records: usize,
    empty: usize,
    defaults: usize,
) -> Result<(), AllocError>
    requires { defaults ≤ records }
    ensures { OnOk result (string_bytes text.new ≡ string_bytes text.old ++ summary_text sessions records empty defaults) }
{
    let found = records - defaults;
    write!(
        text,
        "# sessions: {sessions}\n# records: {records}\n# empty expiries: {empty}\n# answers found: {found}\n# defaults: {defaults}\n"
    )?;
    Ok(())
}

fn write_rows(
    text: &mut String,
    records: &[Record<'_>],
    answers: &[Option<Instant>],
) -> Result<(), AllocError>
    requires { length answers.now ≡ length records.now }
    ensures { OnOk result (string_bytes text.new ≡ string_bytes text.old ++ rows_text records.now answers.now) }
{
    for (record, answer) in records.iter().zip(answers) {
        let line = record.line;
        match *answer {
            Some(Instant(t)) => write!(text, "{line},{t}\n")?,
            None => write!(text, "{line},\n")?,
        }
    }
    Ok(())
}

// The refusal for a record; the header is line 1.
fn too_many<'a>(records: &[Record<'a>], index: usize) -> Refusal<'a>
    requires { index < length records.now }
    ensures { FullAt records.now index result }
{
    let session = records[index].session;
    Problem::TooManyRecords { session }.at(index + 2)
}

// The whole report of a text.
pub fn report<'a>(heap: Global, text: &'a str) -> Result<String, Refusal<'a>>
    ensures { MatchResult result (λ s. Reported text.now (string_bytes s)) (Unreported text.now) }
{
    let table = read(heap, text)?;
    let records = table.records.as_slice();
    // With `map_err` over this `match`, what the refusal says stays open: the closure would need a clause of its own.
    let answers = match last_renewed(heap, records) {
        Ok(answers) => answers,
        Err(Unanswered::Memory) => return Err(Refusal::Memory),
        Err(Unanswered::TooMany { record }) => return Err(too_many(records, record)),
    };
    let cells = answers.cells.as_slice();
    let mut out = header(heap, table.header)?;
    write_rows(&mut out, records, cells)?;
    write_summary(
        &mut out,
        answers.sessions,
        records.len(),
        count_empty(records),
        count_nulls(cells),
    )?;
    Ok(out)
}
