// Columns of a table, and where their fields stand.
ghost use Rattle.std.specs.Prelude.{◌≡◌, ◌+◌, ◌*◌, ◌/◌, ◌<◌, ◌≤◌, ◌++◌, List, ℕ, [], length, slice_index_or, IfOk};
ghost use Rattle.std.specs.Borrow.{Bor};
ghost use Rattle.table.specs.Columns.{ColumnOf, NamesOf};
ghost use Rattle.table.specs.FieldPlaces.{FieldAt, FieldPlace, Parted, PlaceOf};
ghost use Rattle.table.specs.Rows.{IsEnd};
ghost use Rattle.table.specs.Tables.{IsBody, IsTable};

use crate::content::{Content, unquote};
use crate::fault::Unread;
use crate::place::{Place, end_of};
use crate::read::{Table, read, without_mark};
use std::alloc::{AllocError, Global};

// The names of the columns.
pub fn names<'a>(heap: Global, table: &Table<'a>) -> Result<Vec<Content<'a>>, AllocError>
    ensures { IfOk result (λ v. NamesOf table.now.width table.now.fields.items v.items) }
{
    let mut names = Vec::new(heap);
    let header = table.width.min(table.fields.len());
    for raw in &table.fields[..header] {
        names.push(unquote(heap, raw)?)?;
    }
    Ok(names)
}

// The field of a row as it stands in the text; row 0 is the record below the header.
fn field_at<'a>(table: &Table<'a>, row: usize, column: usize) -> &'a [u8]
    requires column { column < table.now.width }
    requires row { row + 1 < length table.now.fields.items / table.now.width }
    ensures { (e : Bor (List ℕ)) → result.now ≡ (slice_index_or table.now.fields.items ((row + 1) * table.now.width + column) e).now }
{
    table.fields[(row + 1) * table.width + column]
}

// The contents of a column, below its name; none where there is no such column.
pub fn contents<'a>(
    heap: Global,
    table: &Table<'a>,
    column: usize,
) -> Result<Vec<Content<'a>>, AllocError>
    ensures inside { IfOk result (λ v. column < table.now.width → ColumnOf table.now.width table.now.fields.items column v.items) }
    ensures outside { IfOk result (λ v. table.now.width ≤ column → v.items ≡ []) }
{
    let mut contents = Vec::new(heap);
    if column >= table.width {
        return Ok(contents);
    }
    let rows = (table.fields.len() / table.width).saturating_sub(1);
    for row in 0..rows {
        contents.push(unquote(heap, field_at(table, row, column))?)?;
    }
    Ok(contents)
}

// How many bytes end a record at the front of a text: none where the text ends.
fn end_len(text: &[u8]) -> usize
    ensures { (end rest : List ℕ) → text.now ≡ end ++ rest → IsEnd end rest → result ≡ length end }
{
    match text {
        [] => 0,
        [b'\r', ..] => 2,
        _ => 1,
    }
}

// The byte at which a record begins, by its number.
fn record_start(body: &[u8], table: &Table<'_>, number: usize) -> usize
    requires read { IsBody body.now table.now.width table.now.records.items table.now.fields.items }
    requires inside { number < length table.now.records.items }
    ensures { Parted body.now table.now.width table.now.records.items table.now.fields.items number result }
{
    let mut at = 0;
    for i in 0..number {
        at += table.records[i].len();
        at += end_len(&body[at..]);
    }
    at
}

// The byte at which a field begins.
fn field_start(body: &[u8], table: &Table<'_>, number: usize, column: usize) -> usize
    requires read { IsBody body.now table.now.width table.now.records.items table.now.fields.items }
    requires inside { number < length table.now.records.items }
    requires column { column < table.now.width }
    ensures field { FieldAt body.now table.now.width number column result }
    ensures within { result ≤ length body.now }
{
    let mut at = record_start(body, table, number);
    for i in 0..column {
        at += table.fields[number * table.width + i].len() + 1;
    }
    at
}

// Where a field of a table's text begins.
fn place_in(text: &[u8], table: &Table<'_>, number: usize, column: usize) -> Place
    requires { IsTable text.now table.now.width table.now.records.items table.now.fields.items }
    ensures { FieldPlace text.now number column result.line result.column }
{
    let body = without_mark(text);
    if number >= table.records.len() || column >= table.width {
        return end_of(body);
    }
    end_of(&body[..field_start(body, table, number, column)])
}

// Where a field of a record begins, the header being number 0; of a text that is no table, where its fault is.
pub fn field_place(
    heap: Global,
    text: &[u8],
    number: usize,
    column: usize,
) -> Result<Place, AllocError>
    ensures { IfOk result (λ p. PlaceOf text.now number column p.line p.column) }
{
    match read(heap, text) {
        Ok(table) => Ok(place_in(text, &table, number, column)),
        Err(Unread::Memory) => Err(AllocError),
        Err(Unread::At { line, column, .. }) => Ok(Place { line, column }),
    }
}
