// The cells of a column.
ghost use Rattle.std.specs.Prelude.{◌≡◌, IfOk, MatchResult, is_some, length, map, vec_len};
ghost use Rattle.std.specs.Option.{unwrap_or};
ghost use Rattle.column.specs.Cells.{cells};
ghost use Rattle.desk.specs.Cells.{AreCells, IsCell, NoCell, NoCells};
ghost use Rattle.desk.specs.Parts.{cell_at};

use crate::refusal::Refusal;
use column::column::Column;
use column::kind::Kind;
use fields::values::FieldValue;
use std::alloc::{AllocError, Global};
use table::content::Content;
use turns::layout::Turn;

// The value of a field, NULL where it is empty; else what it says has to be of the kind.
fn read_cell<'a, K: FieldValue>(
    content: &[u8],
    row: usize,
    column: usize,
) -> Result<Option<K>, Refusal<'a>>
    ensures { MatchResult result (IsCell K.FieldValue.says content.now) (NoCell content.now row column) }
{
    if content.is_empty() {
        return Ok(None);
    }
    match K::read(content) {
        Some(value) => Ok(Some(value)),
        None => Err(Refusal::NoValue {
            record: row,
            column,
            kind: K::kind(),
        }),
    }
}

// The cells of a column's contents, in the turn of the rows.
pub(crate) fn read_cells<'a, K: FieldValue>(
    heap: Global,
    contents: &[Content<'_>],
    column: usize,
) -> Result<Vec<Option<K>>, Refusal<'a>>
    ensures { MatchResult result (λ v. AreCells K.FieldValue.says contents.now v.items) (NoCells K.FieldValue.says contents.now column) }
{
    let mut cells = Vec::new(heap);
    for (row, content) in contents.iter().enumerate() {
        let cell = read_cell::<K>(content.bytes(), row.saturating_add(1), column)?;
        cells.push(cell)?;
    }
    Ok(cells)
}

// The cells of a partition's rows, as two lists.
#[derive(Drop)]
pub(crate) struct CellLists<K> {
    pub values: Vec<K>,
    pub marks: Vec<bool>,
}

impl<K: Kind> CellLists<K> {
    pub fn as_column(&self) -> Column<'_, K>
        ensures values { result.values.now ≡ self.now.values.items }
        ensures marks { result.marks.now ≡ self.now.marks.items }
    {
        Column {
            values: self.values.as_slice(),
            marks: self.marks.as_slice(),
        }
    }
}

// The cell of a row, of those of all rows.
fn cell_of<K: Kind>(cells: &[Option<K>], turn: Turn) -> Option<K>
    ensures { result ≡ cell_at cells.now turn }
{
    cells.get(turn.row).copied().flatten()
}

// The values of a partition's rows, with a filler under NULL.
fn values_of<K: Kind>(
    heap: Global,
    turns: &[Turn],
    all: &[Option<K>],
    filler: K,
) -> Result<Vec<K>, AllocError>
    ensures { IfOk result (λ v. v.items ≡ map (λ t. unwrap_or (cell_at all.now t) filler) turns.now) }
{
    turns
        .iter()
        .map(|turn| cell_of(all, *turn).unwrap_or(filler))
        .collect(heap)
}

// Which of a partition's rows have a value.
fn marks_of<K: Kind>(
    heap: Global,
    turns: &[Turn],
    all: &[Option<K>],
) -> Result<Vec<bool>, AllocError>
    ensures { IfOk result (λ v. v.items ≡ map (λ t. is_some (cell_at all.now t)) turns.now) }
{
    turns
        .iter()
        .map(|turn| cell_of(all, *turn).is_some())
        .collect(heap)
}

// The cells of a partition's rows, of those of all rows.
pub(crate) fn cells_of<K: FieldValue>(
    heap: Global,
    turns: &[Turn],
    all: &[Option<K>],
) -> Result<CellLists<K>, AllocError>
    ensures rows { IfOk result (λ c. cells c.values.items c.marks.items ≡ map (cell_at all.now) turns.now) }
    ensures values { IfOk result (λ c. vec_len c.values ≡ length turns.now) }
    ensures marks { IfOk result (λ c. vec_len c.marks ≡ length turns.now) }
{
    let values = values_of(heap, turns, all, K::filler())?;
    let marks = marks_of(heap, turns, all)?;
    Ok(CellLists { values, marks })
}
