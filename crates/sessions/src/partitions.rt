// One partition a session: the cells of its records in file order.
ghost use Rattle.std.specs.Prelude.{◌≡◌, ◌≤◌, [], length, IfOk, vec_len, MatchResult, OnOk, slice_index_or};
ghost use Rattle.sessions.specs.Names.{Numbered};
ghost use Rattle.sessions.specs.Sessions.{Grouped, lists, Appended, Bounded, Overfull};

use crate::cells::Cells;
use crate::problem::Unanswered;
use crate::record::Record;
use column::column::ROW_LIMIT;
use column::kind::Instant;
use std::alloc::{AllocError, Global};
use std::collections::BTreeMap;

// Where a record stands: the number of its session, and its row among that session's records.
#[derive(Clone, Copy)]
pub struct Place {
    pub session: usize,
    pub row: usize,
}

// The partitions by session number, and the place of each record.
#[derive(Drop)]
pub struct Partitions {
    pub cells: Vec<Cells>,
    pub places: Vec<Place>,
}

// The number of a name, the next one where the name is new.
fn number_of<'a>(
    numbers: &mut BTreeMap<&'a str, usize>,
    name: &'a str,
    next: usize,
) -> Result<usize, AllocError>
    ensures { IfOk result (Numbered numbers.old numbers.new name.now next) }
{
    let number = numbers.entry(name)?.or_insert(next);
    Ok(*number)
}

// Puts a cell behind those of its session, which is new where it is the next, and answers its row.
fn append(
    heap: Global,
    all: &mut Vec<Cells>,
    session: usize,
    cell: Option<Instant>,
) -> Result<usize, AllocError>
    requires { session ≤ vec_len all.old }
    ensures row { IfOk result (λ k. k ≡ length (slice_index_or (lists all.old) session [])) }
    ensures after { OnOk result (Appended (lists all.old) (lists all.new) session cell) }
{
    if session == all.len() {
        all.push(Vec::new(heap))?;
    }
    let cells = &mut all[session];
    let row = cells.len();
    cells.push(cell)?;
    Ok(row)
}

pub(crate) fn partition<'a>(heap: Global, records: &[Record<'a>]) -> Result<Partitions, Unanswered>
    ensures { MatchResult result (λ p. Grouped records.now (lists p.cells) p.places.items × Bounded (lists p.cells)) (Overfull records.now) }
{
    let mut numbers = BTreeMap::new(heap);
    let mut cells = Vec::new(heap);
    let mut places = Vec::new(heap);
    for (i, record) in records.iter().enumerate() {
        let session = number_of(&mut numbers, record.session, cells.len())?;
        let row = append(heap, &mut cells, session, record.expiry)?;
        if row >= ROW_LIMIT {
            return Err(Unanswered::TooMany { record: i });
        }
        places.push(Place { session, row })?;
    }
    Ok(Partitions { cells, places })
}
