// A partition of a file, drawn with its answers.
ghost use Rattle.std.specs.Prelude.{◌≡◌, IfOk, IfSome, string_bytes};
ghost use Rattle.std.specs.List.{Contains};
ghost use Rattle.desk.specs.Answers.{parted};
ghost use Rattle.desk.specs.Columns.{Read, sheet_of};
ghost use Rattle.desk.specs.Pictures.{ColumnOrNone, DrawsPart, DrawsRows, DrawsTable, LastColumn, OnePart, drawn_frames, values_name};

use crate::answer::{answer, bytes_of_all};
use crate::given::parts_of;
use crate::job::Job;
use crate::parts::frames_of;
use crate::refusal::Refusal;
use crate::undrawn::NoPicture;
use drawing::rows::{Columns, Span, content_text, drawn_rows, labels, rows_drawn};
use drawing::sources::{places_of, see_answers};
use options::asked::Asked;
use options::command::Drawing;
use options::key::Key;
use picture::draw::draw;
use std::alloc::{AllocError, Global};
use table::columns::{contents, names};
use table::content::Content;
use table::read::read;
use turns::layout::Turn;

// The frames of a partition's rows, where the function looks at them.
fn drawn_frames<'a>(
    heap: Global,
    asked: &Asked<'_>,
    turns: &[Turn],
) -> Result<Vec<(usize, usize)>, Refusal<'a>>
    ensures { IfOk result (λ v. v.items ≡ drawn_frames asked.now turns.now) }
{
    if asked.function.takes(true, Key::Frame) {
        return frames_of(heap, asked.frame, turns);
    }
    Ok(Vec::new(heap))
}

// Draws rows of a partition.
fn draw_rows<'a>(
    heap: Global,
    asked: &Asked<'_>,
    title: &str,
    turns: &[Turn],
    columns: Columns<'_, '_>,
    span: Span,
) -> Result<String, NoPicture<'a>>
    ensures { IfOk result (λ s. DrawsRows asked.now turns.now columns.entry span (string_bytes s)) }
{
    let frames = drawn_frames(heap, asked, turns)?;
    let places = places_of(
        heap,
        asked.ignore_nulls,
        columns.values,
        turns,
        frames.as_slice(),
    )?;
    let seen = see_answers(heap, asked, &places)?;
    let labels = labels(heap, turns, span)?;
    let rows = drawn_rows(heap, turns, labels.as_slice(), columns, &seen, span)?;
    let picture = draw(heap, title, rows.as_slice())?;
    Ok(picture)
}

// Whether a row is one of a partition's.
fn has_row(turns: &[Turn], row: usize) -> bool {
    turns.iter().any(|turn| turn.row == row)
}

// The partition of a row.
fn part_with<'t>(
    heap: Global,
    turns: &'t [Turn],
    row: usize,
) -> Result<Option<&'t [Turn]>, AllocError>
    ensures { IfOk result (λ o. IfSome o (λ p. Contains (parted turns.now) p.now)) }
{
    let parts = parts_of(heap, turns)?;
    for part in &parts {
        if has_row(*part, row) {
            return Ok(Some(*part));
        }
    }
    Ok(None)
}

// Of each row, whether it was wanted and has this content too.
fn still_wanted(
    heap: Global,
    wanted: &[bool],
    column: &[Content<'_>],
    content: &str,
) -> Result<Vec<bool>, AllocError> {
    wanted
        .iter()
        .zip(column)
        .map(|(wanted, one)| *wanted && one.bytes() == content.as_bytes())
        .collect(heap)
}

fn first_true(wanted: &[bool]) -> Option<usize> {
    wanted.iter().position(|wanted| *wanted)
}

// The last column of a table that was written.
fn last_column<'a, 't>(heap: Global, text: &'t [u8]) -> Result<Vec<Content<'t>>, Refusal<'a>>
    ensures { IfOk result (λ v. LastColumn text.now v.items) }
{
    match read(heap, text) {
        Ok(table) => Ok(contents(heap, &table, table.width.saturating_sub(1))?),
        Err(unread) => Err(Refusal::Unread(unread)),
    }
}

impl<'a, 'c, 't, 'b> Job<'a, 'c, 't, 'b> {
    // The first row with these contents in the columns that make partitions.
    fn first_wanted(&self, contents: &[&str]) -> Result<Option<usize>, Refusal<'a>>
        requires { Read self.now }
    {
        let rows = self.table.records.len().saturating_sub(1);
        let mut wanted = vec![in self.heap; true; rows]?;
        for (name, content) in self.asked.partition_by.iter().zip(contents) {
            let column = self.contents(*name)?;
            wanted = still_wanted(self.heap, wanted.as_slice(), column.as_slice(), *content)?;
        }
        Ok(first_true(wanted.as_slice()))
    }

    // The rows of the partition with these contents, of the first record's where there are none.
    fn wanted_part<'r>(
        &self,
        turns: &'r [Turn],
        contents: &[&str],
    ) -> Result<&'r [Turn], NoPicture<'a>>
        requires { Read self.now }
        ensures { IfOk result (λ p. OnePart turns.now p.now) }
    {
        if contents.is_empty() {
            return Ok(part_with(self.heap, turns, 0)?.unwrap_or(&[]));
        }
        if contents.len() != self.asked.partition_by.len() {
            return Err(NoPicture::NoPartition);
        }
        let row = self.first_wanted(contents)?.ok_or(NoPicture::NoPartition)?;
        let part = part_with(self.heap, turns, row)?;
        part.ok_or(NoPicture::NoPartition)
    }

    // The column whose values are drawn: the one that is answered, or the first by which rows are ordered.
    fn drawn_values(&self) -> Result<Vec<Content<'t>>, Refusal<'a>>
        requires { Read self.now }
        ensures { IfOk result (λ v. ColumnOrNone (sheet_of self.now) (values_name self.now.asked.now.of self.now.asked.now.order_by.items) v.items) }
    {
        if let Some(name) = self.asked.of {
            return self.contents(name);
        }
        match self.asked.order_by.first() {
            Some(name) => self.contents(*name),
            None => Ok(Vec::new(self.heap)),
        }
    }

    // What is answered, of which partition and of which of its rows.
    fn title(&self, turns: &[Turn], span: Span) -> Result<String, Refusal<'a>>
        requires { Read self.now }
    {
        let asked = self.asked;
        let mut title = String::new(self.heap);
        title.push_str(asked.function.name())?;
        if let Some(of) = asked.of {
            write!(title, " of {of}")?;
        }
        if asked.ignore_nulls {
            title.push_str(", ignoring NULLs")?;
        }
        let row = turns.first().map_or(0, |turn| turn.row);
        for name in &asked.partition_by {
            let column = self.contents(*name)?;
            let content = content_text(column.as_slice(), row).unwrap_or("");
            write!(title, ", {name} {content}")?;
        }
        let from = span.from.saturating_add(1).min(span.to);
        let to = span.to;
        let count = turns.len();
        write!(title, ": rows {from} to {to} of {count}")?;
        Ok(title)
    }

    // Draws what is wanted of the rows in turn.
    fn draw_part(
        &self,
        turns: &[Turn],
        answers: &[Content<'t>],
        drawing: &Drawing<'a>,
    ) -> Result<String, NoPicture<'a>>
        requires read { Read self.now }
        requires same { self.now.asked.now ≡ drawing.now.asked }
        ensures { IfOk result (λ s. DrawsPart (sheet_of self.now) drawing.now turns.now answers.now (string_bytes s)) }
    {
        let part = self.wanted_part(turns, drawing.partition.as_slice())?;
        let count = part.len();
        let span = rows_drawn(drawing.rows, count).ok_or(NoPicture::NoRows { count })?;
        let values = self.drawn_values()?;
        let title = self.title(part, span)?;
        let columns = Columns {
            values: values.as_slice(),
            answers,
        };
        let picture = draw_rows(self.heap, self.asked, title.as_str(), part, columns, span)?;
        Ok(picture)
    }
}

// The picture of a partition of a text's table, with its answers.
pub fn picture<'a>(
    heap: Global,
    text: &[u8],
    drawing: &Drawing<'a>,
) -> Result<String, NoPicture<'a>>
    ensures { IfOk result (λ s. DrawsTable text.now drawing.now (string_bytes s)) }
{
    let asked = &drawing.asked;
    let answered = answer(heap, text, asked)?;
    let answers = last_column(heap, answered.text.as_slice())?;
    let table = match read(heap, text) {
        Ok(table) => table,
        Err(unread) => return Err(NoPicture::Unanswered(Refusal::Unread(unread))),
    };
    let header = names(heap, &table)?;
    let names = bytes_of_all(heap, header.as_slice())?;
    let job = Job {
        heap,
        table: &table,
        names: names.as_slice(),
        asked,
    };
    let layout = job.layout()?;
    let picture = job.draw_part(layout.turns.as_slice(), answers.as_slice(), drawing)?;
    Ok(picture)
}
