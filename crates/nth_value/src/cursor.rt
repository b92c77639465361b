// Ported from `nth_value.rs` of the crate datafusion-functions-window 55.0.0 (Apache-2.0), and changed:
// going through the frames of a partition with what is known of the frame before, in place of a scan of each frame.
// Frames whose starts and ends never fall cost one pass over the rows in all; any other frame costs its own rows.
ghost use Rattle.std.specs.Prelude.{◌≡◌, ℕ, ◌-◌, ◌≤◌, List, reverse, length, Option as Cell};
ghost use Rattle.std.specs.List.{slice_get};
ghost use Rattle.column.specs.Cells.{view};
ghost use Rattle.column.specs.Windows.{window_end};
ghost use Rattle.present.specs.Present.{at, ahead};
ghost use Rattle.nth_value.specs.Frames.{picked, frame_rows};
ghost use Rattle.nth_value.specs.Cursors.{ShowsAll, Reaches, Passes, Knows, finds, Proper};

use crate::frames::Seek;
use crate::kind::Pick;
use column::column::Window;
use column::kind::Kind;
use present::held::{Held, count_row, oldest_source};
use present::scan::{pass_ahead, present_ahead, present_behind};

// The m-th present row of those from `start` on.
#[derive(Clone, Copy)]
pub(crate) struct Reached {
    m: usize,
    start: usize,
    found: Option<usize>,
}

// The m-th present row back, of those below `held.next`.
#[derive(Clone, Copy)]
pub(crate) struct Passed {
    m: usize,
    held: Held,
}

// What is known between one frame and the next.
#[derive(Clone, Copy)]
pub(crate) enum Cursor {
    // nothing: the frame's ends tell the row
    Ends(Pick),
    // counting present rows from the frame's start
    Ahead(Reached),
    // counting present rows from the frame's end
    Behind(Passed),
}

impl Reached {
    // The row that a frame gives, once the start has moved on to the frame's.
    fn find<K: Kind>(&mut self, window: &Window<'_, K>, frame: (usize, usize)) -> Option<usize>
        requires proper { frame.0 ≤ frame.1 }
        requires within { frame.1 ≤ window_end window.now }
        ensures same { self.new.m ≡ self.old.m }
        ensures found { Reaches (view window.now) (window_end window.now) self.old → Reaches (view window.now) (window_end window.now) self.new × (result ≡ slice_get (ahead (view window.now) frame.0 (frame.1 - frame.0)) (self.old.m - 1)) }
    {
        let (start, end) = frame;
        if start < self.start {
            return present_ahead(window, start, end, self.m);
        }
        // by row number: a window is read by row
        for row in self.start..start {
            self.found = pass_ahead(window, self.found, row, window.end());
        }
        self.start = start;
        self.found.filter(|row| *row < end)
    }
}

impl Passed {
    // The row that a frame gives, once the rows up to the frame's end are counted.
    fn find<K: Kind>(&mut self, window: &Window<'_, K>, frame: (usize, usize)) -> Option<usize>
        ensures same { self.new.m ≡ self.old.m }
        ensures found { (rows : List (Cell K)) → ShowsAll window.now rows → Passes rows self.old → Passes rows self.new × (result ≡ slice_get (reverse (ahead (at rows) frame.0 (frame.1 - frame.0))) (self.old.m - 1)) }
    {
        let (start, end) = frame;
        if end < self.held.next {
            return present_behind(window, start, end, self.m);
        }
        // by row number: a window is read by row
        for row in self.held.next..end {
            self.held = count_row(self.m, self.held, window, row);
        }
        oldest_source(self.m, self.held).filter(|row| *row >= start)
    }
}

impl Cursor {
    // Before the first frame of a window's rows.
    pub(crate) fn new<K: Kind>(seek: Seek, window: &Window<'_, K>) -> Cursor
        requires { Proper seek.pick }
        ensures { (rows : List (Cell K)) → ShowsAll window.now rows → Knows (window_end window.now) rows result × ((f : ℕ × ℕ) → finds result rows f ≡ picked seek.pick (frame_rows seek.ignore_nulls (at rows) f)) }
    {
        match seek.pick {
            Pick::FromStart(m) if seek.ignore_nulls => Cursor::Ahead(Reached {
                m,
                start: 0,
                found: present_ahead(window, 0, window.end(), m),
            }),
            Pick::FromEnd(m) if seek.ignore_nulls => Cursor::Behind(Passed {
                m,
                held: Held::START,
            }),
            pick => Cursor::Ends(pick),
        }
    }

    // The row that a frame gives.
    pub(crate) fn find<K: Kind>(
        &mut self,
        window: &Window<'_, K>,
        frame: (usize, usize),
    ) -> Option<usize>
        requires proper { frame.0 ≤ frame.1 }
        requires within { frame.1 ≤ window_end window.now }
        ensures { (rows : List (Cell K)) → ShowsAll window.now rows → Knows (window_end window.now) rows self.old → Knows (window_end window.now) rows self.new × (result ≡ finds self.old rows frame) × ((f : ℕ × ℕ) → finds self.new rows f ≡ finds self.old rows f) }
    {
        match self {
            Cursor::Ends(pick) => pick.row_in(frame),
            Cursor::Ahead(known) => known.find(window, frame),
            Cursor::Behind(known) => known.find(window, frame),
        }
    }
}
