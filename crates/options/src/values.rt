// The values of options.
ghost use Rattle.std.specs.Prelude.{◌≤◌, IfOk, MatchOption, MatchResult};
ghost use Rattle.std.specs.Str.Iter.{LacksByte};
ghost use Rattle.options.specs.FrameTexts.{Counts, Stands};
ghost use Rattle.options.specs.Given.{Absent, ValueIs};
ghost use Rattle.options.specs.Values.{ArgumentIs, BadByRows, BadCount, BadFrame, BadFrameText, BadKind, BadRows, ByRowsIs, ColumnsIs, FileGiven, FileIs, FlagIs, FrameIs, Halves, IsRange, KindIs, NamesColumns, NoRange, ReadsArgument, RowsAre};

use crate::asked::ValueKind;
use crate::command::Rows;
use crate::frame::RowsFrame;
use crate::frame_text::{FrameError, count_of, read_frame};
use crate::given::{Given, value_of};
use crate::key::Key;
use crate::misuse::Misuse;
use evaluator::utils::Argument;
use std::alloc::{AllocError, Global};

// The names between the commas of a text.
fn names<'a>(heap: Global, text: &'a str) -> Result<Vec<&'a str>, AllocError>
    ensures { IfOk result (λ v. NamesColumns text.now v.items) }
{
    text.split(',').collect(heap)
}

// The columns that an option names, none where it is not given.
pub(crate) fn columns<'a>(
    heap: Global,
    given: &[Given<'a>],
    key: Key,
) -> Result<Vec<&'a str>, AllocError>
    ensures { IfOk result (λ v. ColumnsIs given.now key v.items) }
{
    match value_of(given, key) {
        Some(text) => names(heap, text),
        None => Ok(Vec::new(heap)),
    }
}

// A text as an argument of a function.
fn argument_of(text: &str) -> Argument
    ensures { ReadsArgument text.now result }
{
    if text.eq_ignore_ascii_case("null") {
        return Argument::Null;
    }
    if let Ok(value) = text.parse::<i64>() {
        return Argument::Signed(value);
    }
    if let Ok(value) = text.parse::<u64>() {
        return Argument::Unsigned(value);
    }
    Argument::NotInteger
}

pub(crate) fn argument(given: &[Given<'_>], key: Key) -> Argument
    ensures { ArgumentIs given.now key result }
{
    match value_of(given, key) {
        Some(text) => argument_of(text),
        None => Argument::Missing,
    }
}

pub(crate) fn flag(given: &[Given<'_>], key: Key) -> bool
    ensures { FlagIs given.now key result }
{
    match value_of(given, key) {
        Some(_) => true,
        None => false,
    }
}

// A file, none for standard input.
pub(crate) fn named_file(word: &str) -> Option<&str>
    ensures { FileIs word.now result }
{
    if word == "-" {
        return None;
    }
    Some(word)
}

// The file that is given, none for standard input.
pub(crate) fn file<'a>(given: &[Given<'a>]) -> Option<&'a str>
    ensures { FileGiven given.now result }
{
    match value_of(given, Key::File) {
        Some(word) => named_file(word),
        None => None,
    }
}

// The kind of the values, instants where none is given.
pub(crate) fn kind<'a>(given: &[Given<'a>]) -> Result<ValueKind, Misuse<'a>>
    ensures { MatchResult result (KindIs given.now) (BadKind given.now) }
{
    match value_of(given, Key::Kind) {
        Some(word) => word.parse().map_err(|_| Misuse::UnknownKind(word)),
        None => Ok(ValueKind::Instant),
    }
}

// A frame that is read, or why it is none.
fn frame_text<'a>(heap: Global, text: &'a str) -> Result<RowsFrame, Misuse<'a>>
    ensures { MatchResult result (Stands text.now) (BadFrameText text.entry) }
{
    match read_frame(heap, text) {
        Ok(frame) => Ok(frame),
        Err(FrameError::Memory) => Err(Misuse::Memory),
        Err(FrameError::At(fault)) => Err(Misuse::BadFrame { text, fault }),
    }
}

// The frame, if one is given.
pub(crate) fn frame<'a>(heap: Global, given: &[Given<'a>]) -> Result<Option<RowsFrame>, Misuse<'a>>
    ensures { MatchResult result (FrameIs given.now) (BadFrame given.now) }
{
    match value_of(given, Key::Frame) {
        Some(text) => Ok(Some(frame_text(heap, text)?)),
        None => Ok(None),
    }
}

// A number of rows from 1 on.
fn rows_text<'a>(text: &'a str) -> Result<usize, Misuse<'a>>
    ensures { MatchResult result (λ k. Counts text.now k × (1 ≤ k)) (BadCount text.entry) }
{
    match count_of(text) {
        Some(rows) if rows > 0 => Ok(rows),
        _ => Err(Misuse::NoNumber {
            key: Key::ByRows,
            text,
        }),
    }
}

// How many rows a node holds before it answers, if the answer is to be row by row.
pub(crate) fn by_rows<'a>(given: &[Given<'a>]) -> Result<Option<usize>, Misuse<'a>>
    ensures { MatchResult result (ByRowsIs given.now) (BadByRows given.now) }
{
    match value_of(given, Key::ByRows) {
        Some(text) => Ok(Some(rows_text(text)?)),
        None => Ok(None),
    }
}

// The parts of a text before and behind its first minus sign.
fn halves(text: &str) -> Option<(&str, &str)>
    ensures { MatchOption result (LacksByte 45 text.now) (λ h. Halves text.now h.0.now h.1.now) }
{
    text.split_once('-')
}

// `FROM-TO`.
fn range_of(text: &str) -> Option<Rows>
    ensures { MatchOption result (NoRange text.now) (IsRange text.now) }
{
    let (from, to) = halves(text)?;
    let rows = Rows {
        from: count_of(from)?,
        to: count_of(to)?,
    };
    if rows.from > rows.to {
        return None;
    }
    Some(rows)
}

// The rows that are drawn, all where none are given.
pub(crate) fn rows<'a>(given: &[Given<'a>]) -> Result<Option<Rows>, Misuse<'a>>
    ensures { MatchResult result (RowsAre given.now) (BadRows given.now) }
{
    match value_of(given, Key::Rows) {
        Some(text) => match range_of(text) {
            Some(rows) => Ok(Some(rows)),
            None => Err(Misuse::BadRows(text)),
        },
        None => Ok(None),
    }
}
