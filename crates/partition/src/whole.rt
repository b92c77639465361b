ghost use Rattle.std.specs.Prelude.{◌≡◌, length, position, Ok};
ghost use Rattle.column.specs.Cells.{column_cells};
ghost use Rattle.partition.specs.Peers.{PeerLaw};
ghost use Rattle.column.specs.Refusal.{passes};
ghost use Rattle.partition.specs.Table.{input, unfit, frames_fault, frames_refusal, groups_refusal, column_groups, whole_refusal, Accepted};

use crate::peers::groups_fault;
use crate::walk::PeerGroups;
use column::column::Column;
use column::fault::Fault;
use column::kind::Kind;

// What a call on a whole partition is handed; an empty list of frames or of groups is absent.
#[derive(Clone, Copy)]
pub struct WholePartition<'a, K> {
    pub column: Column<'a, K>,
    // a frame for each row, start and end, the end not included
    pub frames: &'a [(usize, usize)],
    // the peer groups of the column, each its first row and the row after its last
    pub groups: &'a [(usize, usize)],
}

impl<'a, K> WholePartition<'a, K> {
    // Without frames or groups, hand over empty lists of them.
    pub fn new(
        values: &'a [K],
        marks: &'a [bool],
        frames: &'a [(usize, usize)],
        groups: &'a [(usize, usize)],
    ) -> WholePartition<'a, K>
        ensures { input result ≡ record { values = values.entry.now; marks = marks.now; frames = frames.now; groups = groups.now } }
    {
        let column = Column { values, marks };
        WholePartition {
            column,
            frames,
            groups,
        }
    }
}

// Whether a frame does not fit `n` rows.
fn unfit(n: usize, frame: (usize, usize)) -> bool
    ensures { result ≡ unfit n frame }
{
    let (start, end) = frame;
    start > end || end > n
}

// The first frame that does not fit `n` rows.
fn first_unfit(n: usize, frames: &[(usize, usize)]) -> Option<usize>
    ensures { result ≡ position (unfit n) frames.now }
{
    frames.iter().position(|frame| unfit(n, *frame))
}

// The place at which a list of frames is not one a row, each fit.
fn frames_fault(n: usize, frames: &[(usize, usize)]) -> Option<usize>
    ensures { result ≡ frames_fault n frames.now }
{
    let rows = frames.len().min(n);
    first_unfit(n, &frames[..rows]).or((frames.len() != n).then_some(rows))
}

fn check_frames(n: usize, frames: &[(usize, usize)]) -> Result<(), Fault>
    ensures { result ≡ passes (frames_refusal n frames.now) }
{
    if frames.is_empty() {
        return Ok(());
    }
    frames_fault(n, frames).map_or(Ok(()), |row| Err(Fault::BadFrames(row)))
}

fn check_groups<K: Kind>(column: &Column<'_, K>, groups: &[(usize, usize)]) -> Result<(), Fault>
    requires { length column.now.values.now ≡ length column.now.marks.now }
    ensures { result ≡ passes (groups_refusal groups.now (column_groups K.Kind.same column.now)) }
{
    if groups.is_empty() {
        return Ok(());
    }
    groups_fault(PeerGroups::of(column), groups).map_or(
        Ok(()),
        |group| Err(Fault::BadGroups(group)),
    )
}

// The checks in their order; apart, since each early return would owe the clauses of `check_whole` anew.
// The two wants stand side by side, as an evaluator has them: a struct would be made at each call to be taken apart here.
fn first_fault<K: Kind>(
    partition: &WholePartition<'_, K>,
    wants_frames: bool,
    wants_groups: bool,
    slots: usize,
) -> Result<(), Fault>
    ensures { result ≡ passes (whole_refusal K.Kind.same wants_frames wants_groups (input partition.now) slots) }
{
    partition.column.check()?;
    let n = partition.column.values.len();
    check_frames(n, partition.frames)?;
    check_groups(&partition.column, partition.groups)?;
    let no_frames = wants_frames && partition.frames.is_empty();
    let no_groups = wants_groups && partition.groups.is_empty();
    if n > 0 && (no_frames || no_groups) {
        return Err(Fault::Absent(0));
    }
    if slots < n {
        return Err(Fault::ShortOutput(slots));
    }
    Ok(())
}

// Checks a call on a whole partition that writes to so many slots: the first check that fails refuses it.
pub fn check_whole<K: Kind>(
    partition: &WholePartition<'_, K>,
    wants_frames: bool,
    wants_groups: bool,
    slots: usize,
) -> Result<(), Fault>
    ensures checked { result ≡ passes (whole_refusal K.Kind.same wants_frames wants_groups (input partition.now) slots) }
    ensures accepted { result ≡ Ok tt → Accepted K.Kind.same wants_frames wants_groups (input partition.now) slots }
    ensures peers { PeerLaw K.Kind.same (column_cells partition.now.column) }
{
    first_fault(partition, wants_frames, wants_groups, slots)
}
