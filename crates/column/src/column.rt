ghost use Rattle.std.specs.Prelude.{◌≡◌, false, map, length, None, slice_index_or, IfOk};
ghost use Rattle.std.specs.Bool.{then_some};
ghost use Rattle.std.specs.List.{zip};
ghost use Rattle.column.specs.Cells.{column_cells, same_cell, view};
ghost use Rattle.column.specs.Refusal.{passes, column_refusal};
ghost use Rattle.column.specs.Windows.{window_end};

use crate::fault::Fault;
use crate::kind::Kind;
use std::alloc::{AllocError, Global};

// The most rows that a partition has.
pub const ROW_LIMIT: usize = 16_777_216;

// Values, and marks that are true where a value is present; the value at a NULL row is never read.
// Two lists, and not one of options, since callers lend them so.
#[derive(Clone, Copy)]
pub struct Column<'a, K> {
    pub values: &'a [K],
    pub marks: &'a [bool],
}

// The rows of a partition from `begin` on.
#[derive(Clone, Copy)]
pub struct Window<'a, K> {
    pub begin: usize,
    pub rows: Column<'a, K>,
}

impl<'a, K> Window<'a, K> {
    // The rows that the two lists hold, from `begin` on.
    pub fn new(begin: usize, values: &'a [K], marks: &'a [bool]) -> Window<'a, K>
        ensures begin { result.begin ≡ begin }
        ensures values { result.rows.values.now ≡ values.entry.now }
        ensures marks { result.rows.marks.now ≡ marks.now }
    {
        let rows = Column { values, marks };
        Window { begin, rows }
    }

    // The row after the last; the largest number where it lies above that.
    pub fn end(&self) -> usize
        ensures { result ≡ window_end self.now }
    {
        self.begin.saturating_add(self.rows.values.len())
    }
}

// The values with a true mark, NULL for the others; no `then_some`, which would read the value at a NULL row.
fn marked_values<K: Kind>(
    heap: Global,
    values: &[K],
    marks: &[bool],
) -> Result<Vec<Option<K>>, AllocError>
    ensures { IfOk result (λ v. v.items ≡ map (λ p. then_some p.1 p.0) (zip values.now marks.now)) }
{
    values
        .iter()
        .zip(marks)
        .map(|(value, mark)| if *mark { Some(*value) } else { None })
        .collect(heap)
}

impl<K: Kind> Column<'_, K> {
    // The mark of a row; past the end false.
    pub fn is_marked(&self, row: usize) -> bool
        ensures { result ≡ slice_index_or self.now.marks.now row false }
    {
        self.marks.get(row) == Some(&true)
    }

    // The cell of a row; past the end NULL.
    #[tactic(auto, using(crate::proofs::Cells::cell_present, crate::proofs::Cells::cell_past, crate::proofs::Cells::cell_null))]
    pub fn cell(&self, row: usize) -> Option<K>
        ensures { result ≡ slice_index_or (column_cells self.now) row None }
    {
        let value = self.values.get(row)?;
        if self.is_marked(row) {
            Some(*value)
        } else {
            None
        }
    }

    // All cells, as many as the shorter list has.
    #[tactic(auto, using(crate::proofs::Cells::zipped))]
    pub fn to_cells(&self, heap: Global) -> Result<Vec<Option<K>>, AllocError>
        ensures { IfOk result (λ v. v.items ≡ column_cells self.now) }
    {
        marked_values(heap, self.values, self.marks)
    }

    // Values and marks are equally many, and not too many.
    pub fn check(&self) -> Result<(), Fault>
        ensures { result ≡ passes (column_refusal (length self.now.values.now) (length self.now.marks.now)) }
    {
        let values = self.values.len();
        let marks = self.marks.len();
        if values != marks {
            return Err(Fault::Lengths(values.min(marks)));
        }
        if values > ROW_LIMIT {
            return Err(Fault::RowLimit(ROW_LIMIT));
        }
        Ok(())
    }
}

impl<K: Kind> Window<'_, K> {
    // The cell of a row, NULL where the window does not show it.
    pub fn cell(&self, row: usize) -> Option<K>
        ensures { result ≡ view self.now row }
    {
        // a guard: by `checked_sub` and `?`, a scan of rows took up to twice as long
        if row < self.begin {
            return None;
        }
        self.rows.cell(row - self.begin)
    }
}

// Both NULL, or both present and the same.
pub fn same_cell<K: Kind>(a: Option<K>, b: Option<K>) -> bool
    ensures { result ≡ same_cell K.Kind.same a b }
{
    match (a, b) {
        (Some(x), Some(y)) => x.same(&y),
        (None, None) => true,
        _ => false,
    }
}
