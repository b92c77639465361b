ghost use Rattle.std.specs.Prelude.{◌≡◌, ◌<◌, ◌≤◌, true, false, [], length};
ghost use Rattle.std.specs.Iterator.{YieldsFirst, item_count};
ghost use Rattle.column.specs.Cells.{column_cells};
ghost use Rattle.column.specs.Refusal.{passes, yields, kept_or};
ghost use Rattle.partition.specs.Peers.{IsGroup, PeerLaw};
ghost use Rattle.partition.specs.Walk.{groups_left};
ghost use Rattle.partition.specs.Table.{column_groups, groups_fault, places_refusal, grouping_refusal, at_front};

use crate::walk::PeerGroups;
use column::column::{Column, same_cell};
use column::fault::Fault;
use column::kind::Kind;

impl<'a, K: Kind> PeerGroups<'a, K> {
    // All groups of a column that passed its checks; a checked column as a type would be unpacked in every clause.
    pub(crate) fn of(column: &Column<'a, K>) -> PeerGroups<'a, K>
        requires { length column.now.values.now ≡ length column.now.marks.now }
        ensures { groups_left K.Kind.same result ≡ column_groups K.Kind.same column.now }
    {
        PeerGroups {
            column: *column,
            start: 0,
        }
    }

    // The end of the next group, which begins at row `start`.
    fn group_end(&self) -> usize
        requires { self.now.start < length self.now.column.values.now }
        ensures { IsGroup K.Kind.same (column_cells self.now.column) self.now.start result }
    {
        let column = &self.column;
        let n = column.values.len();
        let first = column.cell(self.start);
        (self.start + 1..n)
            .find(|row| !same_cell(first, column.cell(*row)))
            .unwrap_or(n)
    }

    // Whether no row is left, and so no group: the next group itself is not worked out.
    fn is_done(&self) -> bool
        ensures all { result ≡ true → groups_left K.Kind.same self.now ≡ [] }
        ensures some { result ≡ false → 0 < length (groups_left K.Kind.same self.now) }
    {
        self.start >= self.column.values.len()
    }
}

impl<K: Kind> Iterator for PeerGroups<'_, K> {
    type Item = (usize, usize);

    ghost next_gives = { YieldsFirst (groups_left K.Kind.same) };

    ghost remaining = { item_count (groups_left K.Kind.same) };

    fn next(&mut self) -> Option<(usize, usize)> {
        let start = self.start;
        if start >= self.column.values.len() {
            return None;
        }
        self.start = self.group_end();
        Some((start, self.start))
    }
}

// The place at which a list is not that of the groups.
pub(crate) fn groups_fault<K: Kind>(
    mut own: PeerGroups<'_, K>,
    groups: &[(usize, usize)],
) -> Option<usize>
    ensures { result ≡ groups_fault groups.now (groups_left K.Kind.same own.entry) }
{
    // `position` and `or_else` would have two closures that both move `own` on; here each `next` is seen
    for (k, group) in groups.iter().enumerate() {
        if Some(*group) != own.next() {
            return Some(k);
        }
    }
    if own.is_done() {
        None
    } else {
        Some(groups.len())
    }
}

// There is a place for each group.
fn check_places(count: usize, places: usize) -> Result<(), Fault>
    ensures { result ≡ passes (places_refusal count places) }
{
    if places < count {
        return Err(Fault::ShortGroups(places));
    }
    Ok(())
}

// Writes the groups to the front of the list.
fn write_groups<K: Kind>(own: PeerGroups<'_, K>, groups: &mut [(usize, usize)])
    requires { length (groups_left K.Kind.same own) ≤ length groups.old }
    ensures { groups.new ≡ at_front (groups_left K.Kind.same own.entry) groups.old }
{
    // by number: of a slice nothing is known after a `zip` of its `iter_mut`
    for (k, group) in own.enumerate() {
        groups[k] = group;
    }
}

// Works the peer groups of a column out, each its first row and the row after its last, and gives their number.
pub fn peer_groups<K: Kind>(
    column: &Column<'_, K>,
    groups: &mut [(usize, usize)],
) -> Result<usize, Fault>
    ensures result { result ≡ yields (length (column_groups K.Kind.same column.now)) (grouping_refusal K.Kind.same column.now (length groups.old)) }
    ensures list { groups.new ≡ kept_or (grouping_refusal K.Kind.same column.now (length groups.old)) groups.old (at_front (column_groups K.Kind.same column.now) groups.old) }
    ensures law { PeerLaw K.Kind.same (column_cells column.now) }
{
    column.check()?;
    let count = PeerGroups::of(column).count();
    check_places(count, groups.len())?;
    write_groups(PeerGroups::of(column), groups);
    Ok(count)
}
