// The rows of a table, partition by partition and each in its order.
ghost use Rattle.std.specs.Prelude.{◌≡◌, List, IfOk, IsPermutation, IsSorted};
ghost use Rattle.turns.specs.Turns.{FileOrder, turn_cmp};
ghost use Rattle.turns.specs.declared.layout.Turn.{Turn};

use std::alloc::{AllocError, Global};

// Where a row comes: the number of its partition, the number of its order, and its own.
#[derive(Clone, Copy, PartialEq, Eq, PartialOrd, Ord)]
pub struct Turn {
    pub partition: usize,
    pub order: usize,
    pub row: usize,
}

fn in_file_order(
    heap: Global,
    partitions: &[usize],
    orders: &[usize],
) -> Result<Vec<Turn>, AllocError>
    ensures { IfOk result (λ v. FileOrder partitions.now orders.now v.items) }
{
    let mut turns = Vec::new(heap);
    for row in 0..partitions.len().min(orders.len()) {
        turns.push(Turn {
            partition: partitions[row],
            order: orders[row],
            row,
        })?;
    }
    Ok(turns)
}

// All rows, by the number of their partition, of their order, and their own.
pub fn turns(heap: Global, partitions: &[usize], orders: &[usize]) -> Result<Vec<Turn>, AllocError>
    ensures rows { IfOk result (λ v. (rows : List Turn) × FileOrder partitions.now orders.now rows × IsPermutation rows v.items) }
    ensures sorted { IfOk result (λ v. IsSorted turn_cmp v.items) }
{
    let mut turns = in_file_order(heap, partitions, orders)?;
    turns.sort()?;
    Ok(turns)
}
