ghost use Rattle.std.specs.Prelude.{◌≡◌, length};

use column::column::Column;

// The peer groups of a column from row `start` on, one after another.
#[derive(Drop)]
pub(crate) struct PeerGroups<'a, K> {
    pub(crate) column: Column<'a, K>,
    pub(crate) start: usize,
    ghost lengths: { length column.values.now ≡ length column.marks.now },
}
