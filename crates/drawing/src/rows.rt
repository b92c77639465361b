// The rows of a partition as a picture shows them.
ghost use Rattle.std.specs.Prelude.{◌≡◌, ℕ, ◌+◌, ◌-◌, ◌<◌, List, IfOk, MatchOption, length, string_bytes, slice_get, slice_index_or, vec_len};
ghost use Rattle.picture.specs.declared.row.Source.TheVariants.{Nothing};
ghost use Rattle.drawing.specs.Rows.{Labels, Shows, ShowsRow, ShowsRows, content_bytes, held_in, label_text, number, row_at, rows_drawn, source_in};

use crate::sources::Seen;
use options::command::Rows;
use picture::row::{Held, Row, Source};
use std::alloc::{AllocError, Global};
use std::str;
use table::content::Content;
use turns::layout::Turn;

// The rows that are drawn: from the one at a place up to another, which is not.
#[derive(Clone, Copy)]
pub struct Span {
    pub from: usize,
    pub to: usize,
}

// The span of the rows that are named, which count from 1; all where none are. None where no row of the partition is named.
pub fn rows_drawn(rows: Option<Rows>, count: usize) -> Option<Span>
    ensures { result ≡ rows_drawn rows count }
{
    let Some(rows) = rows else {
        return Some(Span { from: 0, to: count });
    };
    let from = rows.from.saturating_sub(1);
    let to = rows.to.min(count);
    if from < to {
        return Some(Span { from, to });
    }
    None
}

// The number of a place, from 1.
fn number(place: usize) -> usize
    ensures { result ≡ number place }
{
    place.saturating_add(1)
}

impl Span {
    // A source by its place among the rows that are drawn, by its number where it is none of them.
    fn source(self, source: Source) -> Source
        ensures { result ≡ source_in self source }
    {
        match source {
            Source::Row(place) if self.from <= place && place < self.to => {
                Source::Row(place - self.from)
            }
            Source::Row(place) => Source::Outside(number(place)),
            other => other,
        }
    }

    // Those of the rows that were shown that are drawn.
    fn held(self, shown: Option<(usize, usize)>) -> Option<Held>
        ensures { result ≡ held_in self shown }
    {
        let (begin, end) = shown?;
        let start = begin.max(self.from);
        let end = end.min(self.to);
        if start < end {
            return Some(Held {
                start: start - self.from,
                end: end - self.from,
            });
        }
        None
    }
}

fn bytes_at<'c>(contents: &'c [Content<'_>], row: usize) -> &'c [u8]
    ensures { result.now ≡ content_bytes (slice_get contents.now row) }
{
    match contents.get(row) {
        Some(content) => content.bytes(),
        None => &[],
    }
}

// Bytes as a text, NULL where there are none.
fn shown(bytes: &[u8]) -> Option<&str>
    ensures { Shows bytes.now result }
{
    if bytes.is_empty() {
        return None;
    }
    Some(str::from_utf8(bytes).unwrap_or(""))
}

// A content as a text, NULL where it is empty.
pub fn content_text<'c>(contents: &'c [Content<'_>], row: usize) -> Option<&'c str>
    ensures { Shows (content_bytes (slice_get contents.now row)) result }
{
    shown(bytes_at(contents, row))
}

// The record of the turn at a place.
fn row_at(turns: &[Turn], place: usize) -> usize
    ensures { result ≡ row_at turns.now place }
{
    match turns.get(place) {
        Some(turn) => turn.row,
        None => 0,
    }
}

fn label(heap: Global, place: usize, row: usize) -> Result<String, AllocError>
    ensures { IfOk result (λ s. string_bytes s ≡ label_text place row) }
{
    let in_partition = number(place);
    let in_file = number(row);
    format!(in heap; "row {in_partition}, record {in_file}")
}

// The label of each row that is drawn.
pub fn labels(heap: Global, turns: &[Turn], span: Span) -> Result<Vec<String>, AllocError>
    ensures { IfOk result (λ v. Labels turns.now span v.items) }
{
    let mut labels = Vec::new(heap);
    for place in span.from..span.to {
        labels.push(label(heap, place, row_at(turns, place))?)?;
    }
    Ok(labels)
}

// The columns that are drawn: the values, and the answers.
#[derive(Clone, Copy)]
pub struct Columns<'c, 't> {
    pub values: &'c [Content<'t>],
    pub answers: &'c [Content<'t>],
}

fn source_at(sources: &[Source], place: usize) -> Source
    ensures { result ≡ slice_index_or sources.now place Nothing }
{
    sources.get(place).copied().unwrap_or(Source::Nothing)
}

fn shown_at(shown: &[(usize, usize)], place: usize) -> Option<(usize, usize)>
    ensures { result ≡ slice_get shown.now place }
{
    shown.get(place).copied()
}

// The row at a place of a partition.
fn drawn_row<'c>(
    label: &'c str,
    columns: Columns<'c, '_>,
    seen: &Seen,
    span: Span,
    place: usize,
    row: usize,
) -> Row<'c>
    ensures { ShowsRow columns.entry seen.now span place row label.now result }
{
    Row {
        label,
        value: content_text(columns.values, row),
        source: span.source(source_at(seen.sources.as_slice(), place)),
        answer: content_text(columns.answers, row),
        held: span.held(shown_at(seen.shown.as_slice(), place)),
    }
}

// The rows that are drawn, each with its label.
pub fn drawn_rows<'c>(
    heap: Global,
    turns: &[Turn],
    labels: &'c [String],
    columns: Columns<'c, '_>,
    seen: &Seen,
    span: Span,
) -> Result<Vec<Row<'c>>, AllocError>
    ensures { IfOk result (λ v. ShowsRows turns.now columns.entry seen.now span labels.now v.items) }
{
    let mut rows = Vec::new(heap);
    for k in 0..labels.len().min(span.to.saturating_sub(span.from)) {
        let place = span.from + k;
        let row = row_at(turns, place);
        rows.push(drawn_row(labels[k].as_str(), columns, seen, span, place, row))?;
    }
    Ok(rows)
}
