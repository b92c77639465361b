// Frames of ROWS, and which rows of a partition lie in that of a row.
ghost use Rattle.std.specs.Prelude.{◌≡◌, ◌≤◌, ℕ};
ghost use Rattle.options.specs.Frames.{FrameLaw, first_row, last_row_end, frame_rows};

// One end of a frame, counted in rows from the current one.
#[derive(Clone, Copy)]
pub enum Bound {
    UnboundedPreceding,
    Preceding(usize),
    CurrentRow,
    Following(usize),
    UnboundedFollowing,
}

// A frame of ROWS: from one bound to the other, both rows included.
#[derive(Clone, Copy)]
pub struct RowsFrame {
    pub start: Bound,
    pub end: Bound,
}

// The first row from a start bound on, at most n.
fn start_row(start: Bound, i: usize, n: usize) -> usize
    ensures { result ≡ first_row start i n }
{
    match start {
        Bound::UnboundedPreceding => 0,
        Bound::Preceding(k) => i.saturating_sub(k).min(n),
        Bound::CurrentRow => i.min(n),
        Bound::Following(k) => i.saturating_add(k).min(n),
        Bound::UnboundedFollowing => n,
    }
}

// The row after the last one up to an end bound, at most n.
fn end_row(end: Bound, i: usize, n: usize) -> usize
    ensures { result ≡ last_row_end end i n }
{
    match end {
        Bound::UnboundedPreceding => 0,
        Bound::Preceding(k) if k <= i => (i - k).saturating_add(1).min(n),
        Bound::Preceding(_) => 0,
        Bound::CurrentRow => i.saturating_add(1).min(n),
        Bound::Following(k) => i.saturating_add(k).saturating_add(1).min(n),
        Bound::UnboundedFollowing => n,
    }
}

// The frame of row i in a partition of n rows: its first row, and the row after its last.
pub fn frame_of(frame: RowsFrame, i: usize, n: usize) -> (usize, usize)
    ensures rows { result ≡ frame_rows frame i n }
    ensures law { FrameLaw frame i n result }
    ensures forward { (j : ℕ) → i ≤ j → (result.0 ≤ (frame_rows frame j n).0) × (result.1 ≤ (frame_rows frame j n).1) }
{
    let start = start_row(frame.start, i, n);
    let end = end_row(frame.end, i, n).max(start);
    (start, end)
}
