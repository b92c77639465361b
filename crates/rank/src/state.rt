// Ported from `rank.rs` of the crate datafusion-functions-window 55.0.0 (Apache-2.0), and changed:
// the row that a group begins with stands for the count of its rows so far.
ghost use Rattle.std.specs.Prelude.{◌≡◌, ◌<◌};
ghost use Rattle.column.specs.Refusal.{row_limit};
ghost use Rattle.rank.specs.Ranks.{start, state_after};

use column::column::same_cell;
use column::kind::Kind;

// The peer group of the last row that was answered, and the next row.
#[derive(Drop)]
pub struct RankState<K> {
    // its first cell; none before the first row
    last_rank_data: Option<Option<K>>,
    // its first row
    pub(crate) last_rank_boundary: usize,
    // its number, from 1
    pub(crate) n_rank: usize,
    pub(crate) next: usize,
}

impl<K: Kind> RankState<K> {
    pub(crate) fn new() -> RankState<K>
        ensures { result ≡ start }
    {
        RankState {
            last_rank_data: None,
            last_rank_boundary: 0,
            n_rank: 0,
            next: 0,
        }
    }

    // Takes row `next` with its cell: it opens a group, or continues the one that is held.
    // The row after it has to fit.
    pub(crate) fn step(&mut self, next: usize, cell: Option<K>)
        requires { next < row_limit }
        ensures { self.new ≡ state_after K.Kind.same self.old cell next }
    {
        // a form that is required here (docs/DECISIONS.md, "Language forms"): state and cell are matched together, and the state is filled in place
        let opens = match (&mut self.last_rank_data, cell) {
            (Some(first), cell) => {
                let held = *first;
                let opens = !same_cell(held, cell);
                if opens {
                    *first = cell;
                }
                opens
            }
            (none, cell) => {
                *none = Some(cell);
                true
            }
        };
        if opens {
            self.last_rank_boundary = next;
            self.n_rank = self.n_rank.saturating_add(1);
        }
        self.next = self.next.max(next + 1);
    }
}
