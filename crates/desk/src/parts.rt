// What a window function is asked of one partition.
ghost use Rattle.std.specs.Prelude.{◌≡◌, ◌++◌, IfErr, IfOk, MatchResult, OnOk, length, map, replicate};
ghost use Rattle.column.specs.Refusal.{column_refusal};
ghost use Rattle.partition.specs.Table.{input};
ghost use Rattle.desk.specs.Parts.{IsPart, held, order_value, peer_frames, row_frames, turn_frames, turn_groups};
ghost use Rattle.desk.specs.Stops.{Refuses};

use crate::cells::{CellLists, cells_of};
use crate::refusal::Refusal;
use column::column::Column;
use column::kind::{Instant, Kind};
use fields::values::FieldValue;
use options::frame::{RowsFrame, frame_of};
use partition::peers::peer_groups;
use partition::whole::WholePartition;
use std::alloc::{AllocError, Global};
use turns::layout::Turn;

// The number of an order as a value.
pub(crate) fn order_value(order: usize) -> Instant
    ensures { result ≡ order_value order }
{
    Instant(i64::try_from(order).unwrap_or(i64::MAX))
}

// The numbers of the rows' order.
fn orders_of(heap: Global, turns: &[Turn]) -> Result<Vec<Instant>, AllocError>
    ensures { IfOk result (λ v. v.items ≡ map (λ t. order_value t.order) turns.now) }
{
    turns
        .iter()
        .map(|turn| order_value(turn.order))
        .collect(heap)
}

// The peer groups of a partition's rows: each its first row, and the row after its last.
fn groups_of<'a>(heap: Global, turns: &[Turn]) -> Result<Vec<(usize, usize)>, Refusal<'a>>
    ensures { MatchResult result (λ v. v.items ≡ turn_groups turns.now) (Refuses (column_refusal (length turns.now) (length turns.now))) }
{
    let orders = orders_of(heap, turns)?;
    let marks = vec![in heap; true; turns.len()]?;
    let column = Column {
        values: orders.as_slice(),
        marks: marks.as_slice(),
    };
    let mut groups = vec![in heap; (0usize, 0usize); turns.len()]?;
    match peer_groups(&column, groups.as_mut_slice()) {
        Ok(count) => {
            groups.truncate(count);
            Ok(groups)
        }
        Err(fault) => Err(Refusal::Call(fault)),
    }
}

// So many rows with frames that end there.
fn push_frames(frames: &mut Vec<(usize, usize)>, end: usize, count: usize) -> Result<(), AllocError>
    ensures { OnOk result (frames.new.items ≡ frames.old.items ++ replicate count (0, end)) }
{
    for _ in 0..count {
        frames.push((0, end))?;
    }
    Ok(())
}

// SQL's default: the rows up to the last peer of each; without an order all rows are peers.
fn peer_frames(heap: Global, groups: &[(usize, usize)]) -> Result<Vec<(usize, usize)>, AllocError>
    ensures { IfOk result (λ v. v.items ≡ peer_frames groups.now) }
{
    let mut frames = Vec::new(heap);
    for (start, end) in groups {
        push_frames(&mut frames, *end, end.saturating_sub(*start))?;
    }
    Ok(frames)
}

fn row_frames(
    heap: Global,
    frame: RowsFrame,
    rows: usize,
) -> Result<Vec<(usize, usize)>, AllocError>
    ensures { IfOk result (λ v. v.items ≡ row_frames frame rows) }
{
    (0..rows)
        .map(|row| frame_of(frame, row, rows))
        .collect(heap)
}

// The frame of each row of a partition.
pub(crate) fn frames_of<'a>(
    heap: Global,
    frame: Option<RowsFrame>,
    turns: &[Turn],
) -> Result<Vec<(usize, usize)>, Refusal<'a>>
    ensures { MatchResult result (λ v. v.items ≡ turn_frames frame turns.now) (Refuses (column_refusal (length turns.now) (length turns.now))) }
{
    match frame {
        Some(frame) => Ok(row_frames(heap, frame, turns.len())?),
        None => {
            let groups = groups_of(heap, turns)?;
            Ok(peer_frames(heap, groups.as_slice())?)
        }
    }
}

// A partition as evaluators are handed it.
#[derive(Drop)]
pub(crate) struct Part<K> {
    cells: CellLists<K>,
    frames: Vec<(usize, usize)>,
    groups: Vec<(usize, usize)>,
}

impl<K: Kind> Part<K> {
    pub fn as_partition(&self) -> WholePartition<'_, K>
        ensures { input result ≡ held self.now }
    {
        WholePartition {
            column: self.cells.as_column(),
            frames: self.frames.as_slice(),
            groups: self.groups.as_slice(),
        }
    }
}

// What an evaluator looks at beside the cells.
#[derive(Clone, Copy)]
pub(crate) struct Wants {
    pub frames: bool,
    pub groups: bool,
}

// The partition of some rows in turn, with the frames and peer groups that are wanted.
pub(crate) fn part_of<'a, K: FieldValue>(
    heap: Global,
    turns: &[Turn],
    cells: &[Option<K>],
    frame: Option<RowsFrame>,
    wants: Wants,
) -> Result<Part<K>, Refusal<'a>>
    ensures part { IfOk result (λ p. IsPart wants.frames wants.groups frame cells.now turns.now (held p)) }
    ensures refused { IfErr result (Refuses (column_refusal (length turns.now) (length turns.now))) }
{
    let cells = cells_of(heap, turns, cells)?;
    let mut frames = Vec::new(heap);
    if wants.frames {
        frames = frames_of(heap, frame, turns)?;
    }
    let mut groups = Vec::new(heap);
    if wants.groups {
        groups = groups_of(heap, turns)?;
    }
    Ok(Part {
        cells,
        frames,
        groups,
    })
}
