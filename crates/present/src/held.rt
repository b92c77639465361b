// Ported from `lead_lag.rs` of the crate datafusion-functions-window 55.0.0 (Apache-2.0), and changed:
// a count and the row of the oldest stand for the queue of distances between present rows.
ghost use Rattle.std.specs.Prelude.{◌≡◌};
ghost use Rattle.column.specs.Cells.{view};
ghost use Rattle.present.specs.Counting.{row_after, counted, passed, counted_row, oldest_source, found_row, source_ahead};

use crate::scan::{pass_ahead, present_after, present_ahead};
use column::column::Window;
use column::kind::Kind;

// So many present rows, and the oldest of them.
#[derive(Clone, Copy)]
pub struct Counted {
    pub count: usize,
    pub oldest: usize,
}

// The next row; looking back with NULLs ignored also the present rows that are counted, once there are some,
// and looking ahead so the row that was found for the row before, or that there was none, once one was sought.
// `m`, which calls take beside it, is no field: a shift keeps its offset, and would hold it twice.
#[derive(Clone, Copy)]
pub struct Held {
    pub next: usize,
    pub counted: Option<Counted>,
    pub found: Option<Option<usize>>,
}

impl Held {
    // At row 0.
    pub const START: Held = Held {
        next: 0,
        counted: None,
        found: None,
    };

    // Past a row that is not counted.
    pub fn passed(self, next: usize) -> Held
        ensures { result ≡ passed self (row_after next) }
    {
        Held {
            next: self.next.max(next.saturating_add(1)),
            ..self
        }
    }

    // Past a row for which `source` was found ahead.
    pub fn found(self, next: usize, source: Option<usize>) -> Held
        ensures { result ≡ found_row self (row_after next) source }
    {
        Held {
            found: Some(source),
            ..self.passed(next)
        }
    }
}

// Counts the present row `next`: as one more, or in place of the oldest.
fn count_present<K: Kind>(
    m: usize,
    before: Option<Counted>,
    window: &Window<'_, K>,
    next: usize,
) -> Counted
    ensures { result ≡ counted m before (view window.now) next (row_after next) }
{
    match before {
        None => Counted {
            count: 1,
            oldest: next,
        },
        Some(c) if c.count < m => Counted {
            count: c.count + 1,
            ..c
        },
        Some(c) => Counted {
            oldest: present_after(window, c.oldest, next.saturating_add(1)).unwrap_or(c.oldest),
            ..c
        },
    }
}

// What is held after row `next`, looking back past `m` present rows; a NULL row counts for nothing.
pub fn count_row<K: Kind>(m: usize, held: Held, window: &Window<'_, K>, next: usize) -> Held
    ensures { result ≡ counted_row m held (view window.now) next (row_after next) }
{
    let after = held.passed(next);
    if window.cell(next).is_some() {
        return Held {
            counted: Some(count_present(m, held.counted, window, next)),
            ..after
        };
    }
    after
}

// The m-th present row back, once so many are counted.
pub fn oldest_source(m: usize, held: Held) -> Option<usize>
    ensures { result ≡ oldest_source m held }
{
    held.counted.filter(|c| c.count >= m).map(|c| c.oldest)
}

// The m-th present row after row `next`, below `end`: sought from what was found for the row before, where something was.
pub fn source_ahead<K: Kind>(
    m: usize,
    held: Held,
    window: &Window<'_, K>,
    next: usize,
    end: usize,
) -> Option<usize>
    ensures { result ≡ source_ahead m held (view window.now) next end }
{
    match held.found {
        None => present_ahead(window, next.saturating_add(1), end, m),
        Some(found) => pass_ahead(window, found, next, end).filter(|row| *row < end),
    }
}
