// Ported from `nth_value.rs` of the crate datafusion-functions-window 55.0.0 (Apache-2.0), and changed:
// `valid_index` as the row of a frame that a window shows.
ghost use Rattle.std.specs.Prelude.{◌≡◌, ◌-◌};
ghost use Rattle.std.specs.List.{range_with_len};
ghost use Rattle.column.specs.Cells.{view};
ghost use Rattle.nth_value.specs.Frames.{picked, frame_rows, cell_of};

use crate::kind::Pick;
use column::column::Window;
use column::kind::Kind;
use present::scan::{present_ahead, present_behind};

// Which row of a frame is sought; with NULLs ignored only present rows count.
#[derive(Clone, Copy)]
pub(crate) struct Seek {
    pub(crate) pick: Pick,
    pub(crate) ignore_nulls: bool,
}

impl Pick {
    // The row counted to among all rows of a frame.
    pub(crate) fn row_in(self, frame: (usize, usize)) -> Option<usize>
        ensures { result ≡ picked self (range_with_len frame.0 (frame.1 - frame.0)) }
    {
        let (start, end) = frame;
        match self {
            Pick::Nothing => None,
            Pick::FromStart(m) => start
                .checked_add(m.saturating_sub(1))
                .filter(|row| *row < end),
            Pick::FromEnd(m) => end.checked_sub(m.max(1)).filter(|row| *row >= start),
        }
    }
}

impl Seek {
    // The row counted to among the rows that a frame takes.
    pub(crate) fn row_of<K: Kind>(
        self,
        window: &Window<'_, K>,
        frame: (usize, usize),
    ) -> Option<usize>
        ensures { result ≡ picked self.pick (frame_rows self.ignore_nulls (view window.now) frame) }
    {
        if !self.ignore_nulls {
            return self.pick.row_in(frame);
        }
        let (start, end) = frame;
        match self.pick {
            Pick::Nothing => None,
            Pick::FromStart(m) => present_ahead(window, start, end, m),
            Pick::FromEnd(m) => present_behind(window, start, end, m),
        }
    }
}

// The cell of a row, NULL where there is none.
pub(crate) fn cell_of<K: Kind>(window: &Window<'_, K>, row: Option<usize>) -> Option<K>
    ensures { result ≡ cell_of (view window.now) row }
{
    // a `?` says it shorter than `take_cell` of `lead_lag` with no default
    window.cell(row?)
}
