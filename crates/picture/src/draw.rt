// The picture: a line for each row, from top to bottom, and a curve from its answer to the row that it comes from.
ghost use Rattle.std.specs.Prelude.{◌≡◌, ◌+◌, ◌*◌, ◌<◌, ◌≤◌, ◌++◌, MatchResult, OnOk, string_bytes, length};
ghost use Rattle.picture.specs.Escape.{shown};
ghost use Rattle.picture.specs.Picture.{IsUndrawn, answer_text, bend, between, box_text, curve_text, default_text, head_text, held_text, label_text, line, middle, null_answer_text, null_text, outside_text, path_text, picture_text, row_text, rows_text, shown_answer_text, source_text, top, value_text};

use crate::escape::shown;
use crate::row::{Held, Row, Source, Undrawn};
use std::alloc::{AllocError, Global};

// The most rows that are drawn.
const MOST: usize = 10000;

// How many characters are shown of the title, of a label and of a value.
const TITLE: usize = 80;

const LABEL: usize = 24;

const VALUE: usize = 24;

// The height of the upper edge of a row's box.
fn top(i: usize) -> usize
    requires { i ≤ 10000 }
    ensures { result ≡ top i }
{
    56 + 24 * i
}

// The height of the middle of a row's box, and of the line on which its text stands.
fn middle(i: usize) -> usize
    requires { i ≤ 10000 }
    ensures { result ≡ middle i }
{
    65 + 24 * i
}

fn line(i: usize) -> usize
    requires { i ≤ 10000 }
    ensures { result ≡ line i }
{
    69 + 24 * i
}

// How far the curve between two rows swings out.
fn bend(i: usize, k: usize) -> usize
    ensures { result ≡ bend i k }
{
    390 + 4 * i.abs_diff(k).min(30)
}

fn write_line(text: &mut String, i: usize, label: &str) -> Result<(), AllocError>
    requires { i < 10000 }
    ensures { OnOk result (string_bytes text.new ≡ string_bytes text.old ++ label_text i label.now) }
{
    let y = line(i);
    write!(text, "<text x=\"12\" y=\"{y}\">{label}</text>\n")?;
    Ok(())
}

// The height between the middles of two rows.
fn between(i: usize, k: usize) -> usize
    requires from { i < 10000 }
    requires to { k < 10000 }
    ensures { result ≡ between i k }
{
    65 + 12 * (i + k)
}

fn write_label(heap: Global, text: &mut String, i: usize, label: &str) -> Result<(), AllocError>
    requires { i < 10000 }
    ensures { OnOk result (string_bytes text.new ≡ string_bytes text.old ++ label_text i (shown 24 label.now)) }
{
    let label = shown(heap, LABEL, label)?;
    write_line(text, i, label.as_str())
}

// A box with a value.
fn write_value(text: &mut String, i: usize, value: &str) -> Result<(), AllocError>
    requires { i < 10000 }
    ensures { OnOk result (string_bytes text.new ≡ string_bytes text.old ++ value_text i value.now) }
{
    let y = top(i);
    let at = line(i);
    write!(
        text,
        "<rect class=\"value\" x=\"180\" y=\"{y}\" width=\"190\" height=\"18\"/>\n<text x=\"188\" y=\"{at}\">{value}</text>\n"
    )?;
    Ok(())
}

// An empty dashed box.
fn write_null(text: &mut String, i: usize) -> Result<(), AllocError>
    requires { i < 10000 }
    ensures { OnOk result (string_bytes text.new ≡ string_bytes text.old ++ null_text i) }
{
    let y = top(i);
    write!(
        text,
        "<rect class=\"null\" x=\"180\" y=\"{y}\" width=\"190\" height=\"18\"/>\n"
    )?;
    Ok(())
}

fn write_box(
    heap: Global,
    text: &mut String,
    i: usize,
    value: Option<&str>,
) -> Result<(), AllocError>
    requires { i < 10000 }
    ensures { OnOk result (string_bytes text.new ≡ string_bytes text.old ++ box_text i value.entry) }
{
    match value {
        Some(value) => {
            let value = shown(heap, VALUE, value)?;
            write_value(text, i, value.as_str())
        }
        None => write_null(text, i),
    }
}

// A curve between two heights, which swings out to x at the height between.
fn write_path(
    text: &mut String,
    from: usize,
    x: usize,
    mid: usize,
    to: usize,
) -> Result<(), AllocError>
    ensures { OnOk result (string_bytes text.new ≡ string_bytes text.old ++ path_text from x mid to) }
{
    write!(
        text,
        "<path class=\"answer\" d=\"M370 {from} Q{x} {mid} 376 {to}\"/>\n"
    )?;
    Ok(())
}

// A curve from row i to row k.
fn write_curve(text: &mut String, i: usize, k: usize) -> Result<(), AllocError>
    requires from { i < 10000 }
    requires to { k < 10000 }
    ensures { OnOk result (string_bytes text.new ≡ string_bytes text.old ++ curve_text i k) }
{
    write_path(text, middle(i), bend(i, k), between(i, k), middle(k))
}

fn write_default(text: &mut String, i: usize) -> Result<(), AllocError>
    requires { i < 10000 }
    ensures { OnOk result (string_bytes text.new ≡ string_bytes text.old ++ default_text i) }
{
    let y = line(i);
    write!(
        text,
        "<text class=\"word\" x=\"396\" y=\"{y}\">default</text>\n"
    )?;
    Ok(())
}

fn write_outside(text: &mut String, i: usize, number: usize) -> Result<(), AllocError>
    requires { i < 10000 }
    ensures { OnOk result (string_bytes text.new ≡ string_bytes text.old ++ outside_text i number) }
{
    let y = line(i);
    write!(
        text,
        "<text class=\"word\" x=\"396\" y=\"{y}\">row {number}</text>\n"
    )?;
    Ok(())
}

// A curve to the row that the answer of row i comes from, or words in its place.
fn write_source(text: &mut String, i: usize, source: Source) -> Result<(), AllocError>
    requires { i < 10000 }
    ensures { OnOk result (string_bytes text.new ≡ string_bytes text.old ++ source_text i source) }
{
    match source {
        Source::Row(row) if row < MOST => write_curve(text, i, row),
        Source::Outside(number) => write_outside(text, i, number),
        Source::Default => write_default(text, i),
        _ => Ok(()),
    }
}

fn write_shown_answer(text: &mut String, i: usize, answer: &str) -> Result<(), AllocError>
    requires { i < 10000 }
    ensures { OnOk result (string_bytes text.new ≡ string_bytes text.old ++ shown_answer_text i answer.now) }
{
    let y = line(i);
    write!(text, "<text x=\"460\" y=\"{y}\">{answer}</text>\n")?;
    Ok(())
}

fn write_null_answer(text: &mut String, i: usize) -> Result<(), AllocError>
    requires { i < 10000 }
    ensures { OnOk result (string_bytes text.new ≡ string_bytes text.old ++ null_answer_text i) }
{
    let y = line(i);
    write!(
        text,
        "<text class=\"head\" x=\"460\" y=\"{y}\">NULL</text>\n"
    )?;
    Ok(())
}

// The answer of row i.
fn write_answer(
    heap: Global,
    text: &mut String,
    i: usize,
    answer: Option<&str>,
) -> Result<(), AllocError>
    requires { i < 10000 }
    ensures { OnOk result (string_bytes text.new ≡ string_bytes text.old ++ answer_text i answer.entry) }
{
    match answer {
        Some(answer) => {
            let answer = shown(heap, VALUE, answer)?;
            write_shown_answer(text, i, answer.as_str())
        }
        None => write_null_answer(text, i),
    }
}

// A bar beside the rows that are held when row i is answered.
fn write_held(text: &mut String, i: usize, held: Option<Held>) -> Result<(), AllocError>
    requires { i < 10000 }
    ensures { OnOk result (string_bytes text.new ≡ string_bytes text.old ++ held_text i held) }
{
    if let Some(Held { start, end }) = held {
        if start < end && end <= MOST {
            let x = 650 + 8 * i;
            let y = top(start);
            let height = 24 * (end - start) - 6;
            write!(
                text,
                "<rect class=\"held\" x=\"{x}\" y=\"{y}\" width=\"6\" height=\"{height}\"/>\n"
            )?;
        }
    }
    Ok(())
}

fn write_row(heap: Global, text: &mut String, i: usize, row: &Row<'_>) -> Result<(), AllocError>
    requires { i < 10000 }
    ensures { OnOk result (string_bytes text.new ≡ string_bytes text.old ++ row_text i row.now) }
{
    write_label(heap, text, i, row.label)?;
    write_box(heap, text, i, row.value)?;
    write_source(text, i, row.source)?;
    write_answer(heap, text, i, row.answer)?;
    write_held(text, i, row.held)?;
    Ok(())
}

// The style, the tip of a curve, and the heads of the columns.
const STYLE: &str =
    "<style>text{font:12px sans-serif}text.title{font-size:15px}text.head{fill:#555}rect.value{fill:#e9f0f8;stroke:#456}rect.null{fill:none;stroke:#888;stroke-dasharray:4 3}path.answer{fill:none;stroke:#a31;marker-end:url(#tip)}text.word{fill:#a31}rect.held{fill:#8b8}</style>\n<defs><marker id=\"tip\" markerWidth=\"7\" markerHeight=\"7\" refX=\"6\" refY=\"3\" orient=\"auto\"><path d=\"M0 0L6 3L0 6z\" fill=\"#a31\"/></marker></defs>\n<rect width=\"100%\" height=\"100%\" fill=\"white\"/>\n<text class=\"head\" x=\"12\" y=\"46\">row</text>\n<text class=\"head\" x=\"180\" y=\"46\">value</text>\n<text class=\"head\" x=\"376\" y=\"46\">from</text>\n<text class=\"head\" x=\"460\" y=\"46\">answer</text>\n<text class=\"head\" x=\"650\" y=\"46\">rows held, with --by-rows</text>\n";

// What stands above the rows, n of them.
fn write_head(text: &mut String, n: usize, title: &str) -> Result<(), AllocError>
    requires { n ≤ 10000 }
    ensures { OnOk result (string_bytes text.new ≡ string_bytes text.old ++ head_text n title.now) }
{
    let width = 840 + 8 * n;
    let height = top(n) + 12;
    write!(
        text,
        "<svg xmlns=\"http://www.w3.org/2000/svg\" width=\"{width}\" height=\"{height}\">\n{STYLE}<text class=\"title\" x=\"12\" y=\"22\">{title}</text>\n"
    )?;
    Ok(())
}

fn write_rows(heap: Global, text: &mut String, rows: &[Row<'_>]) -> Result<(), AllocError>
    requires { length rows.now ≤ 10000 }
    ensures { OnOk result (string_bytes text.new ≡ string_bytes text.old ++ rows_text 0 rows.now) }
{
    for (i, row) in rows.iter().enumerate() {
        write_row(heap, text, i, row)?;
    }
    Ok(())
}

// The picture of the rows of a partition.
pub fn draw(heap: Global, title: &str, rows: &[Row<'_>]) -> Result<String, Undrawn>
    ensures { MatchResult result (λ s. string_bytes s ≡ picture_text title.now rows.now) (IsUndrawn rows.now) }
{
    if rows.len() > MOST {
        return Err(Undrawn::TooMany);
    }
    let title = shown(heap, TITLE, title)?;
    let mut text = String::new(heap);
    write_head(&mut text, rows.len(), title.as_str())?;
    write_rows(heap, &mut text, rows)?;
    text.push_str("</svg>\n")?;
    Ok(text)
}
