// The last renewed expiry before each record in its session.
ghost use Rattle.std.specs.Prelude.{◌≡◌, ◌≤◌, map, length, IfOk, vec_items, MatchResult, All};
ghost use Rattle.column.specs.Refusal.{row_limit};
ghost use Rattle.sessions.specs.Sessions.{AllAnswered, LastRenewed, Inside, cell_at, Within, Overfull, sessions_in};

use crate::cells::Cells;
use crate::lag::answer_session;
use crate::partitions::{Place, partition};
use crate::problem::Unanswered;
use crate::record::Record;
use column::kind::Instant;
use std::alloc::{AllocError, Global};

// The answers of each session.
fn answer_sessions(heap: Global, partitions: &[Cells]) -> Result<Vec<Cells>, AllocError>
    requires { All (λ p. length (vec_items p) ≤ row_limit) partitions.now }
    ensures { IfOk result (λ v. AllAnswered partitions.now v.items) }
{
    partitions
        .iter()
        .map(|cells| answer_session(heap, cells.as_slice()))
        .try_collect(heap)
}

// The cell at a place.
fn cell_at(lists: &[Cells], place: Place) -> Option<Instant>
    requires { Inside (map vec_items lists.now) place }
    ensures { result ≡ cell_at (map vec_items lists.now) place }
{
    lists[place.session][place.row]
}

// The answer at each record's place.
fn gather(heap: Global, places: &[Place], answers: &[Cells]) -> Result<Cells, AllocError>
    requires { All (Inside (map vec_items answers.now)) places.now }
    ensures { IfOk result (λ v. v.items ≡ map (cell_at (map vec_items answers.now)) places.now) }
{
    places
        .iter()
        .map(|place| cell_at(answers, *place))
        .collect(heap)
}

// The answer of each record, in file order, and how many sessions there are.
#[derive(Drop)]
pub struct Answers {
    pub cells: Cells,
    pub sessions: usize,
}

pub fn last_renewed(heap: Global, records: &[Record<'_>]) -> Result<Answers, Unanswered>
    ensures { MatchResult result (λ a. LastRenewed records.now a.cells.items × Within records.now × (a.sessions ≡ sessions_in records.now (length records.now))) (Overfull records.now) }
{
    let partitions = partition(heap, records)?;
    let answers = answer_sessions(heap, partitions.cells.as_slice())?;
    let cells = gather(heap, partitions.places.as_slice(), answers.as_slice())?;
    Ok(Answers {
        cells,
        sessions: partitions.cells.len(),
    })
}
