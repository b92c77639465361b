// The text of a frame, in SQL's words.
ghost use Rattle.std.specs.Prelude.{◌≡◌, ◌+◌, ◌<◌, ◌≤◌, ◌⊎◌, MatchOption, MatchResult, Some, vec_len};
ghost use Rattle.options.specs.FrameTexts.{Behind, Between, BoundFault, Count, Counts, IsBound, IsFrame, NotAllowed, NotBetween, NotFrame, NotShort, Short, Allowed, Refused, Stands, side};
ghost use Rattle.options.specs.Messages.{problem_text};
ghost use Rattle.options.specs.Words.{Is, column_at, word_at};
ghost use Rattle.options.specs.declared.frame_text.FrameError.TheVariants.{At, Memory};

use crate::frame::{Bound, RowsFrame};
use crate::words::{Words, cut};
use std::alloc::{AllocError, Global};
use std::fmt;

// What a frame's text lacks where reading stops, or what SQL refuses of it.
#[derive(Clone, Copy)]
pub enum FrameProblem {
    NoRows,
    NoBound,
    NoSide,
    NoRow,
    NoAnd,
    WordBehind,
    StartsLast,
    EndsFirst,
    StartBehindEnd,
}

// A problem, and the column of the text where it lies.
#[derive(Clone, Copy)]
pub struct FrameFault {
    pub column: usize,
    pub problem: FrameProblem,
}

impl fmt::Display for FrameProblem {
    ghost output = { λ p. Some (problem_text p) };

    fn fmt<W: fmt::Write>(&self, f: &mut fmt::Formatter<W>) -> fmt::Result {
        f.write_str(match self {
            FrameProblem::NoRows => "a frame begins with ROWS",
            FrameProblem::NoBound => {
                "a bound has to come here: UNBOUNDED, CURRENT ROW or a number of rows"
            }
            FrameProblem::NoSide => "PRECEDING or FOLLOWING has to come here",
            FrameProblem::NoRow => "ROW has to come here",
            FrameProblem::NoAnd => "AND has to come here",
            FrameProblem::WordBehind => "the frame has ended before this word",
            FrameProblem::StartsLast => "a frame may not start at UNBOUNDED FOLLOWING",
            FrameProblem::EndsFirst => "a frame may not end at UNBOUNDED PRECEDING",
            FrameProblem::StartBehindEnd => "the frame starts behind its end",
        })
    }
}

// Why a text gives no frame.
#[derive(Clone, Copy)]
pub enum FrameError {
    Memory,
    At(FrameFault),
}

// Std's error for want of memory.
impl From<AllocError> for FrameError {
    ghost from_gives = { λ _ r. r ≡ Memory };

    fn from(_: AllocError) -> FrameError {
        FrameError::Memory
    }
}

impl From<FrameFault> for FrameError {
    ghost from_gives = { λ f r. r ≡ At f };

    fn from(fault: FrameFault) -> FrameError {
        FrameError::At(fault)
    }
}

// The fault of word k.
fn fault(words: &Words<'_>, k: usize, problem: FrameProblem) -> FrameFault
    ensures { result ≡ record { column = column_at words.now k; problem = problem } }
{
    FrameFault {
        column: words.column(k),
        problem,
    }
}

// Asks for a word.
fn expect(words: &Words<'_>, k: usize, word: &str, problem: FrameProblem) -> Result<(), FrameFault>
    ensures { MatchResult result (λ _. Is word.now (word_at words.now k)) (λ f. ¬ (Is word.now (word_at words.now k)) × (f ≡ record { column = column_at words.now k; problem = problem })) }
{
    if words.is(k, word) {
        return Ok(());
    }
    Err(fault(words, k, problem))
}

// A text of digits as a number of rows.
pub(crate) fn count_of(text: &str) -> Option<usize>
    ensures { MatchOption result (¬ (Count text.now)) (Counts text.now) }
{
    text.parse().ok()
}

// The bound of words k and k + 1.
fn read_bound(words: &Words<'_>, k: usize) -> Result<Bound, FrameFault>
    requires { k < 8 }
    ensures { MatchResult result (IsBound (word_at words.now k) (word_at words.now (k + 1))) (BoundFault words.now k) }
{
    let preceding = words.is(k + 1, "preceding");
    let following = words.is(k + 1, "following");
    if words.is(k, "current") {
        expect(words, k + 1, "row", FrameProblem::NoRow)?;
        return Ok(Bound::CurrentRow);
    }
    if words.is(k, "unbounded") {
        if preceding {
            return Ok(Bound::UnboundedPreceding);
        }
        expect(words, k + 1, "following", FrameProblem::NoSide)?;
        return Ok(Bound::UnboundedFollowing);
    }
    let rows = count_of(words.word(k)).ok_or(fault(words, k, FrameProblem::NoBound))?;
    if preceding {
        return Ok(Bound::Preceding(rows));
    }
    if following {
        return Ok(Bound::Following(rows));
    }
    Err(fault(words, k + 1, FrameProblem::NoSide))
}

// Asks that no word stands at k or behind it.
fn expect_end(words: &Words<'_>, k: usize) -> Result<(), FrameFault>
    ensures { MatchResult result (λ _. vec_len words.now.list ≤ k) (Behind words.now k) }
{
    if words.list.len() > k {
        return Err(fault(words, k, FrameProblem::WordBehind));
    }
    Ok(())
}

// The place of a bound in the order in which SQL has them.
fn side(bound: Bound) -> u8
    ensures { result ≡ side bound }
{
    match bound {
        Bound::UnboundedPreceding => 0,
        Bound::Preceding(_) => 1,
        Bound::CurrentRow => 2,
        Bound::Following(_) => 3,
        Bound::UnboundedFollowing => 4,
    }
}

// Asks that SQL allows a frame, whose bounds stand at words s and e.
fn check(words: &Words<'_>, frame: RowsFrame, s: usize, e: usize) -> Result<RowsFrame, FrameFault>
    ensures { MatchResult result (λ f. (f ≡ frame) × Allowed f) (NotAllowed words.now s e frame) }
{
    if side(frame.start) == 4 {
        return Err(fault(words, s, FrameProblem::StartsLast));
    }
    if side(frame.end) == 0 {
        return Err(fault(words, e, FrameProblem::EndsFirst));
    }
    if side(frame.start) > side(frame.end) {
        return Err(fault(words, e, FrameProblem::StartBehindEnd));
    }
    Ok(frame)
}

// `rows between BOUND and BOUND`, of which the first two words are read.
fn read_between(words: &Words<'_>) -> Result<RowsFrame, FrameFault>
    ensures { MatchResult result (λ f. Between words.now f × Allowed f) (NotBetween words.now) }
{
    let start = read_bound(words, 2)?;
    expect(words, 4, "and", FrameProblem::NoAnd)?;
    let end = read_bound(words, 5)?;
    expect_end(words, 7)?;
    check(words, RowsFrame { start, end }, 2, 5)
}

// `rows BOUND`, of which the first word is read.
fn read_short(words: &Words<'_>) -> Result<RowsFrame, FrameFault>
    ensures { MatchResult result (λ f. Short words.now f × Allowed f) (NotShort words.now) }
{
    let start = read_bound(words, 1)?;
    expect_end(words, 3)?;
    let end = Bound::CurrentRow;
    check(words, RowsFrame { start, end }, 1, 1)
}

fn read_words(words: &Words<'_>) -> Result<RowsFrame, FrameFault>
    ensures { MatchResult result (λ f. IsFrame words.now f × Allowed f) (NotFrame words.now) }
{
    expect(words, 0, "rows", FrameProblem::NoRows)?;
    if words.is(1, "between") {
        return read_between(words);
    }
    read_short(words)
}

// The frame that a text stands for: `rows between BOUND and BOUND`, or `rows BOUND` up to the current row.
pub fn read_frame(heap: Global, text: &str) -> Result<RowsFrame, FrameError>
    ensures { MatchResult result (Stands text.now) (Refused text.now) }
{
    let words = cut(heap, text)?;
    Ok(read_words(&words)?)
}
