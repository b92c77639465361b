// Ported from `lead_lag.rs` of the crate datafusion-functions-window 55.0.0 (Apache-2.0), and changed:
// `evaluate` as a row call that is told its window and refuses a row that is too early.
ghost use Rattle.std.specs.Prelude.{◌≡◌};
ghost use Rattle.column.specs.Cells.{view};
ghost use Rattle.present.specs.Counting.{row_after};
ghost use Rattle.lead_lag.specs.Shift.{row_off, taken, mark_of};
ghost use Rattle.lead_lag.specs.Steps.{source_by, waits, held_after};

use crate::offset::Way;
use column::column::Window;
use column::kind::Kind;
use present::held::{Held, count_row, oldest_source, source_ahead};

// Where a shift looks; with NULLs ignored only present rows are steps.
#[derive(Clone, Copy)]
pub(crate) struct Look {
    pub(crate) way: Way,
    pub(crate) ignore_nulls: bool,
}

impl Way {
    // The row so many rows off row `i`, if it is one of the `n` rows.
    pub(crate) fn row_off(self, n: usize, i: usize) -> Option<usize>
        ensures { result ≡ row_off self n i }
    {
        match self {
            Way::Own => Some(i),
            Way::Back(m) => i.checked_sub(m),
            Way::Ahead(m) if i < n && m < n - i => Some(i + m),
            Way::Ahead(_) => None,
        }
    }
}

impl Look {
    // The keep mark.
    pub(crate) fn mark(self, held: Held) -> usize
        ensures { result ≡ mark_of self.way self.ignore_nulls held }
    {
        match self.way {
            Way::Back(m) if self.ignore_nulls => oldest_source(m, held).unwrap_or(0),
            Way::Back(m) => held.next.saturating_sub(m),
            Way::Own | Way::Ahead(_) => held.next,
        }
    }

    // The row that the answer of row `next` is taken from, if there is one below `end`.
    pub(crate) fn source<K: Kind>(
        self,
        held: Held,
        window: &Window<'_, K>,
        next: usize,
        end: usize,
    ) -> Option<usize>
        ensures { result ≡ source_by self.way self.ignore_nulls held (view window.now) next end }
    {
        if !self.ignore_nulls {
            return self.way.row_off(end, next);
        }
        match self.way {
            Way::Own => Some(next),
            Way::Back(m) => oldest_source(m, held),
            Way::Ahead(m) => source_ahead(m, held, window, next, end),
        }
    }

    // Whether a row with this source is too early.
    pub(crate) fn must_wait(self, source: Option<usize>, known: bool) -> bool
        ensures { result ≡ waits self.way source known }
    {
        matches!(self.way, Way::Ahead(_)) && !known && source.is_none()
    }

    // What is held after row `next`, whose answer is taken from `source`.
    pub(crate) fn step<K: Kind>(
        self,
        held: Held,
        window: &Window<'_, K>,
        next: usize,
        source: Option<usize>,
    ) -> Held
        ensures { result ≡ held_after self.way self.ignore_nulls held (view window.now) next (row_after next) source }
    {
        match self.way {
            Way::Back(m) if self.ignore_nulls => count_row(m, held, window, next),
            Way::Ahead(_) if self.ignore_nulls => held.found(next, source),
            _ => held.passed(next),
        }
    }
}

// The cell of the source row, or the default.
pub(crate) fn take_cell<K: Kind>(
    window: &Window<'_, K>,
    default: Option<K>,
    source: Option<usize>,
) -> Option<K>
    ensures { result ≡ taken (view window.now) default source }
{
    // a match: no clause is inferred for a closure that holds the window, and with one written out `map_or` is longer
    match source {
        Some(row) => window.cell(row),
        None => default,
    }
}
