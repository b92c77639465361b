// Rows numbered by their keys: a row that comes before another has a lower number, and peers have one.
ghost use Rattle.std.specs.Prelude.{◌≡◌, ◌<◌, All, length, IfOk, IsSorted};
ghost use Rattle.std.specs.Int.{from_bool};
ghost use Rattle.std.specs.Ordering.{is_lt};
ghost use Rattle.turns.specs.Keys.{AtRows, CellKeys, Numbered, TextCells, WithRows, key_cmp};
ghost use Rattle.turns.specs.Numbers.{Alike, ByBytes, Refined};

use std::alloc::{AllocError, Global};
use table::content::Content;

// Each key with its row.
fn with_rows<K: Copy>(heap: Global, keys: &[K]) -> Result<Vec<(K, usize)>, AllocError>
    ensures { IfOk result (λ v. WithRows keys.now v.items) }
{
    let mut rows = Vec::new(heap);
    for row in 0..keys.len() {
        rows.push((keys[row], row))?;
    }
    Ok(rows)
}

// By how much the number rises behind a key.
fn rise<K: Ord>(before: &K, key: &K) -> usize
    ensures { result ≡ from_bool (is_lt (K.cmp before.now key.now)) }
{
    usize::from(before.cmp(key).is_lt())
}

// Numbers for keys in order, which rise by one where the key changes.
fn climb<K: Ord>(heap: Global, keys: &[(K, usize)]) -> Result<Vec<usize>, AllocError>
    requires { IsSorted (key_cmp K.cmp) keys.now }
    ensures { IfOk result (λ v. Numbered (key_cmp K.cmp) keys.now v.items) }
{
    let mut numbers = Vec::new(heap);
    let mut number = 0usize;
    for i in 0..keys.len() {
        number += rise(&keys[i.saturating_sub(1)].0, &keys[i].0);
        numbers.push(number)?;
    }
    Ok(numbers)
}

// The numbers of keys at their rows.
fn at_rows<K>(
    heap: Global,
    keys: &[(K, usize)],
    numbers: &[usize],
) -> Result<Vec<usize>, AllocError>
    requires long { length numbers.now ≡ length keys.now }
    requires rows { All (λ k. k.1 < length keys.now) keys.now }
    ensures { IfOk result (λ v. AtRows keys.now numbers.now v.items) }
{
    let mut placed = vec![in heap; 0usize; keys.len()]?;
    for i in 0..keys.len() {
        placed[keys[i].1] = numbers[i];
    }
    Ok(placed)
}

// A number for each key, by their order.
fn number_keys<K: Ord + Copy>(heap: Global, keys: &[K]) -> Result<Vec<usize>, AllocError>
    ensures { IfOk result (λ v. Numbered K.cmp keys.now v.items) }
{
    let mut rows = with_rows(heap, keys)?;
    rows.sort()?;
    let numbers = climb(heap, rows.as_slice())?;
    at_rows(heap, rows.as_slice(), numbers.as_slice())
}

// A key for each row: its number, whether it is NULL, and its value, for NULL one that is given.
fn cell_keys<T: Copy>(
    heap: Global,
    numbers: &[usize],
    cells: &[Option<T>],
    null: T,
) -> Result<Vec<(usize, bool, T)>, AllocError>
    ensures { IfOk result (λ v. CellKeys null numbers.now cells.now v.items) }
{
    let mut keys = Vec::new(heap);
    for row in 0..numbers.len().min(cells.len()) {
        let cell = cells[row];
        keys.push((numbers[row], cell.is_none(), cell.unwrap_or(null)))?;
    }
    Ok(keys)
}

// Rows of one number by their cells, NULL last.
pub(crate) fn refine_by<T: Ord + Copy>(
    heap: Global,
    numbers: &[usize],
    cells: &[Option<T>],
    null: T,
) -> Result<Vec<usize>, AllocError>
    ensures { IfOk result (λ v. Refined T.cmp numbers.now cells.now v.items) }
{
    let keys = cell_keys(heap, numbers, cells, null)?;
    number_keys(heap, keys.as_slice())
}

// The bytes of contents, NULL where there are none.
fn text_cells<'a>(
    heap: Global,
    contents: &'a [Content<'_>],
) -> Result<Vec<Option<&'a [u8]>>, AllocError>
    ensures { IfOk result (λ v. TextCells contents.now v.items) }
{
    let mut cells = Vec::new(heap);
    for content in contents {
        let bytes = content.bytes();
        cells.push(if bytes.is_empty() { None } else { Some(bytes) })?;
    }
    Ok(cells)
}

// Rows of one number by their contents.
pub fn refine(
    heap: Global,
    numbers: &[usize],
    contents: &[Content<'_>],
) -> Result<Vec<usize>, AllocError>
    ensures same { IfOk result (λ v. Alike numbers.now contents.now v.items) }
    ensures order { IfOk result (λ v. ByBytes numbers.now contents.now v.items) }
{
    let cells = text_cells(heap, contents)?;
    refine_by(heap, numbers, cells.as_slice(), b"")
}
