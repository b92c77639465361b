// Ported from `nth_value.rs` of the crate datafusion-functions-window 55.0.0 (Apache-2.0), and changed:
// `evaluate` over each frame as one loop over a lent output.
ghost use Rattle.std.specs.Prelude.{◌≡◌, ℕ, ◌<◌, ◌≤◌, length, slice_index_or};
ghost use Rattle.column.specs.Cells.{column_cells};
ghost use Rattle.column.specs.Slots.{written};
ghost use Rattle.nth_value.specs.Cursors.{Proper};
ghost use Rattle.nth_value.specs.Nth.{frame_answers};

use crate::cursor::Cursor;
use crate::frames::{Seek, cell_of};
use column::column::{Column, Window};
use column::kind::Kind;
use column::output::Output;

// Writes the answer over each frame.
pub(crate) fn write_all<K: Kind, O: Output<Option<K>>>(
    seek: Seek,
    column: &Column<'_, K>,
    frames: &[(usize, usize)],
    out: &mut O,
)
    // the contract speaks of the lent column and output themselves; a struct that held what the check told would be unpacked in every clause
    requires framed { length frames.now ≡ length column.now.values.now }
    requires fit { (i : ℕ) → i < length frames.now → ((slice_index_or frames.now i (0, 0)).0 ≤ (slice_index_or frames.now i (0, 0)).1) × ((slice_index_or frames.now i (0, 0)).1 ≤ length column.now.values.now) }
    requires room { length column.now.values.now ≤ O.Output.size (O.Output.slots out.old) }
    requires proper { Proper seek.pick }
    ensures slots { O.Output.slots out.new ≡ written O.Output.stored (frame_answers seek.pick seek.ignore_nulls (column_cells column.now) frames.now) (O.Output.slots out.old) (length column.now.values.now) }
    ensures place { O.Output.place out.old out.new }
{
    let window = Window {
        begin: 0,
        rows: *column,
    };
    let mut cursor = Cursor::new(seek, &window);
    for (i, frame) in frames.iter().enumerate() {
        let row = cursor.find(&window, *frame);
        out.put(i, cell_of(&window, row));
    }
}
