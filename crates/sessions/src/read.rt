// Reads the text of a file: a header, and a record a line.
ghost use Rattle.std.specs.Prelude.{◌≡◌, ◌<◌, ◌+◌, IfErr, true, false, map, length, IfOk, Some, vec_len, MatchResult};
ghost use Rattle.std.specs.List.{join_with_byte};
ghost use Rattle.std.specs.Str.Iter.{LacksByte};
ghost use Rattle.sessions.specs.Reading.{Reads, Apart, IsRecord, FromHeader, FromLine, FromLines, Stripped, Lines, IsTable};
ghost use Rattle.sessions.specs.Faults.{Holds, IsNoNumber, LineFault, LineRefused, LinesRefused, HeaderRefused, Unread};

use crate::columns::Columns;
use crate::header::{EXPIRY, INSTANT, find_columns};
use crate::problem::{Problem, Refusal};
use crate::record::Record;
use column::kind::Instant;
use std::alloc::{AllocError, Global};

// The text of a file as it was read.
#[derive(Drop)]
pub struct Table<'a> {
    pub header: &'a str,
    pub records: Vec<Record<'a>>,
}

// The pieces of a text between the places of an ASCII character.
fn pieces<'a>(heap: Global, text: &'a str, mark: char) -> Result<Vec<&'a str>, AllocError>
    requires { mark < 128 }
    ensures whole { IfOk result (λ v. text.now ≡ join_with_byte mark (map (λ x. x.now) v.items)) }
    ensures apart { IfOk result (λ v. Apart mark v.items) }
    ensures some { IfOk result (λ v. 0 < vec_len v) }
{
    text.split(mark).collect(heap)
}

// A text without an ASCII character at its end, should it have one there.
fn without_end(text: &str, mark: char) -> &str
    requires { mark < 128 }
    ensures { Stripped mark text.now result.now }
{
    text.strip_suffix(mark).unwrap_or(text)
}

// The lines of a text. A line end at the end of the text is no line of its own.
fn lines<'a>(heap: Global, text: &'a str) -> Result<Vec<&'a str>, AllocError>
    ensures lines { IfOk result (λ v. Lines text.now v.items) }
    ensures some { IfOk result (λ v. 0 < vec_len v) }
{
    pieces(heap, without_end(text, '\n'), '\n')
}

// Whether a line has a double quote.
fn is_quoted(line: &str) -> bool
    ensures yes { result ≡ true → Holds 34 line.now }
    ensures no { result ≡ false → LacksByte 34 line.now }
{
    line.contains('"')
}

fn number<'a>(column: &'static str, text: &'a str) -> Result<Instant, Problem<'a>>
    ensures { MatchResult result (λ t. Reads text.now (Some t)) (IsNoNumber column.now text.now) }
{
    text.parse()
        .map(Instant)
        .map_err(|_| Problem::NoNumber { column, text })
}

// A number, or NULL where the field is empty.
fn cell<'a>(column: &'static str, text: &'a str) -> Result<Option<Instant>, Problem<'a>>
    ensures { MatchResult result (Reads text.now) (λ p. IsNoNumber column.now text.now p × (0 < length text.now)) }
{
    if text.is_empty() {
        return Ok(None);
    }
    Ok(Some(number(column, text)?))
}

fn read_record<'a>(
    columns: &Columns,
    line: &'a str,
    fields: &[&'a str],
) -> Result<Record<'a>, Problem<'a>>
    ensures { MatchResult result (IsRecord columns.now line.now fields.now) (LineFault columns.now line.now fields.now) }
{
    if is_quoted(line) {
        return Err(Problem::Quote);
    }
    if fields.len() != columns.count {
        return Err(Problem::Ragged {
            found: fields.len(),
            expected: columns.count,
        });
    }
    let session = fields[columns.session];
    if session.is_empty() {
        return Err(Problem::NoSession);
    }
    number(INSTANT, fields[columns.instant])?;
    let expiry = cell(EXPIRY, fields[columns.expiry])?;
    Ok(Record {
        line,
        session,
        expiry,
    })
}

fn read_header<'a>(heap: Global, line: &'a str) -> Result<Columns, Refusal<'a>>
    ensures { MatchResult result (FromHeader line.now) (HeaderRefused line.now) }
{
    if is_quoted(line) {
        return Err(Problem::Quote.at(1));
    }
    let names = pieces(heap, line, ',')?;
    find_columns(names.as_slice()).map_err(|problem| problem.at(1))
}

// The record of a line, which is line n of the text.
fn read_line<'a>(
    heap: Global,
    columns: &Columns,
    line: &'a str,
    n: usize,
) -> Result<Record<'a>, Refusal<'a>>
    ensures { MatchResult result (FromLine columns.now line.now) (LineRefused columns.now line.now n) }
{
    let line = without_end(line, '\r');
    let fields = pieces(heap, line, ',')?;
    read_record(columns, line, fields.as_slice()).map_err(|problem| problem.at(n))
}

// The records of the lines below the header, which is line 1.
fn read_lines<'a>(
    heap: Global,
    columns: &Columns,
    lines: &[&'a str],
) -> Result<Vec<Record<'a>>, Refusal<'a>>
    ensures count { IfOk result (λ v. length v.items ≡ length lines.now) }
    ensures records { IfOk result (λ v. FromLines columns.now lines.now v.items) }
    ensures refused { IfErr result (LinesRefused columns.now lines.now) }
{
    lines
        .iter()
        .enumerate()
        .map(|(i, line)| read_line(heap, columns, line, i + 2))
        .try_collect(heap)
}

// The header and the records of a text; the first line that is wrong refuses it.
pub(crate) fn read<'a>(heap: Global, text: &'a str) -> Result<Table<'a>, Refusal<'a>>
    ensures { MatchResult result (λ t. IsTable text.now t.header.now t.records.items) (Unread text.now) }
{
    if text.is_empty() {
        return Err(Problem::Empty.at(1));
    }
    let lines = lines(heap, text)?;
    let (first, rest) = lines.as_slice().split_first().unwrap();
    let header = without_end(first, '\r');
    let columns = read_header(heap, header)?;
    let records = read_lines(heap, &columns, rest)?;
    Ok(Table { header, records })
}
