// Rows numbered by their order.
ghost use Rattle.std.specs.Prelude.{IfOk, MatchOption, Option, ℤ};
ghost use Rattle.turns.specs.Numbers.{Ordered, SayCells, SaysCell, Worded};

use crate::numbers::{refine, refine_by};
use fields::values::whole_number;
use std::alloc::{AllocError, Global};
use table::content::Content;

// The cell that a content says: a whole number, or NULL where it is empty.
fn whole_cell(bytes: &[u8]) -> Option<Option<i64>>
    ensures { MatchOption result ((cell : Option ℤ) → SaysCell bytes.now cell → ⊥) (SaysCell bytes.now) }
{
    if bytes.is_empty() {
        return Some(None);
    }
    Some(Some(whole_number(bytes)?))
}

// The cells of a column, if each of its contents says one.
fn whole_cells(
    heap: Global,
    contents: &[Content<'_>],
) -> Result<Option<Vec<Option<i64>>>, AllocError>
    ensures { IfOk result (λ o. MatchOption o (Worded contents.now) (λ v. SayCells contents.now v.items)) }
{
    let mut cells = Vec::new(heap);
    for content in contents {
        let Some(cell) = whole_cell(content.bytes()) else {
            return Ok(None);
        };
        cells.push(cell)?;
    }
    Ok(Some(cells))
}

// Rows of one number by a column more: by value if all are whole numbers, else by bytes; NULL last.
pub fn refine_order(
    heap: Global,
    numbers: &[usize],
    contents: &[Content<'_>],
) -> Result<Vec<usize>, AllocError>
    ensures { IfOk result (λ v. Ordered numbers.now contents.now v.items) }
{
    match whole_cells(heap, contents)? {
        Some(cells) => refine_by(heap, numbers, cells.as_slice(), 0),
        None => refine(heap, numbers, contents),
    }
}
