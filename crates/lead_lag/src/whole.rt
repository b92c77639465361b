// Ported from `lead_lag.rs` of the crate datafusion-functions-window 55.0.0 (Apache-2.0), and changed:
// `evaluate_all` as loops over a lent output, with one row held in place of a queue of them.
ghost use Rattle.std.specs.Prelude.{◌≡◌, ℕ, ◌<◌, ◌≤◌, true, false, length, slice_index_or};
ghost use Rattle.column.specs.Cells.{column_cells};
ghost use Rattle.column.specs.Slots.{written};
ghost use Rattle.lead_lag.specs.Shift.{Proper, shifted};
ghost use Rattle.lead_lag.specs.declared.offset.Way.TheVariants.{Back, Ahead};

use crate::offset::Way;
use crate::rows::{Look, take_cell};
use column::column::{Column, Window};
use column::kind::Kind;
use column::output::Output;
use present::held::{Held, count_row, oldest_source};
use present::scan::{pass_ahead, present_ahead};

// Three loops, since each row costs some nanoseconds: what one way wants would be tested at each row of the others.
// All go by row number, as an output is put to.

// Writes the answer of each row where NULLs count as rows.
fn write_off<K: Kind, O: Output<Option<K>>>(
    way: Way,
    default: Option<K>,
    column: &Column<'_, K>,
    out: &mut O,
)
    requires lengths { length column.now.values.now ≡ length column.now.marks.now }
    requires room { length column.now.values.now ≤ O.Output.size (O.Output.slots out.old) }
    ensures slots { O.Output.slots out.new ≡ written O.Output.stored (shifted way false default (column_cells column.now)) (O.Output.slots out.old) (length column.now.values.now) }
    ensures place { O.Output.place out.old out.new }
{
    let window = Window {
        begin: 0,
        rows: *column,
    };
    let n = column.values.len();
    'rows: for i in 0..n {
        out.put(i, take_cell(&window, default, way.row_off(n, i)));
    }
}

// Writes the answer of each row looking back past `m` present rows.
fn write_back<K: Kind, O: Output<Option<K>>>(
    m: usize,
    default: Option<K>,
    column: &Column<'_, K>,
    out: &mut O,
)
    requires lengths { length column.now.values.now ≡ length column.now.marks.now }
    requires room { length column.now.values.now ≤ O.Output.size (O.Output.slots out.old) }
    requires proper { 0 < m }
    ensures slots { O.Output.slots out.new ≡ written O.Output.stored (shifted (Back m) true default (column_cells column.now)) (O.Output.slots out.old) (length column.now.values.now) }
    ensures place { O.Output.place out.old out.new }
{
    let window = Window {
        begin: 0,
        rows: *column,
    };
    let mut held = Held::START;
    'rows: for i in 0..column.values.len() {
        out.put(i, take_cell(&window, default, oldest_source(m, held)));
        held = count_row(m, held, &window, i);
    }
}

// Writes the answer of each row looking ahead past `m` present rows.
// Each row is passed over once, where a scan for each row would pass it again and again.
fn write_ahead<K: Kind, O: Output<Option<K>>>(
    m: usize,
    default: Option<K>,
    column: &Column<'_, K>,
    out: &mut O,
)
    requires lengths { length column.now.values.now ≡ length column.now.marks.now }
    requires room { length column.now.values.now ≤ O.Output.size (O.Output.slots out.old) }
    ensures slots { O.Output.slots out.new ≡ written O.Output.stored (shifted (Ahead m) true default (column_cells column.now)) (O.Output.slots out.old) (length column.now.values.now) }
    ensures place { O.Output.place out.old out.new }
{
    let window = Window {
        begin: 0,
        rows: *column,
    };
    let n = column.values.len();
    let mut source = present_ahead(&window, 1, n, m);
    'rows: for i in 0..n {
        out.put(i, take_cell(&window, default, source));
        source = pass_ahead(&window, source, i + 1, n);
    }
}

// Whether no row is NULL.
fn all_present(marks: &[bool]) -> bool
    ensures { result ≡ true → (k : ℕ) → k < length marks.now → slice_index_or marks.now k false ≡ true }
{
    marks.iter().all(|mark| *mark)
}

// Writes the answer of each row.
pub(crate) fn write_all<K: Kind, O: Output<Option<K>>>(
    look: Look,
    default: Option<K>,
    column: &Column<'_, K>,
    out: &mut O,
)
    // the contract speaks of the lent lists and the output themselves; a struct that held what the check told would be unpacked in every clause
    requires lengths { length column.now.values.now ≡ length column.now.marks.now }
    requires room { length column.now.values.now ≤ O.Output.size (O.Output.slots out.old) }
    requires proper { Proper look.way }
    ensures slots { O.Output.slots out.new ≡ written O.Output.stored (shifted look.way look.ignore_nulls default (column_cells column.now)) (O.Output.slots out.old) (length column.now.values.now) }
    ensures place { O.Output.place out.old out.new }
{
    if !look.ignore_nulls || all_present(column.marks) {
        return write_off(look.way, default, column, out);
    }
    match look.way {
        Way::Own => write_off(look.way, default, column, out),
        Way::Back(m) => write_back(m, default, column, out),
        Way::Ahead(m) => write_ahead(m, default, column, out),
    }
}
