// The present rows ahead of a row, and those behind one.
ghost use Rattle.std.specs.Prelude.{◌≡◌, ℕ, ◌+◌, ◌-◌, reverse};
ghost use Rattle.std.specs.List.{slice_get};
ghost use Rattle.column.specs.Cells.{view};
ghost use Rattle.present.specs.Present.{ahead};
ghost use Rattle.present.specs.Counting.{moved_on, next_after};

use column::column::Window;
use column::kind::Kind;

// The m-th present row of those from `from` up to `end`, not included.
pub fn present_ahead<K: Kind>(
    window: &Window<'_, K>,
    from: usize,
    end: usize,
    m: usize,
) -> Option<usize>
    ensures { result ≡ slice_get (ahead (view window.now) from (end - from)) (m - 1) }
{
    // a loop: `filter` and `nth` took one and a half times as long
    let mut left = m;
    for row in from..end {
        if window.cell(row).is_some() {
            if left <= 1 {
                return Some(row);
            }
            left -= 1;
        }
    }
    None
}

// The m-th present row of those from `from` up to `end`, not included, counted from the last.
// Apart from `present_ahead`: `rev` makes the range another type, and a function over both would ask for clauses on its items.
pub fn present_behind<K: Kind>(
    window: &Window<'_, K>,
    from: usize,
    end: usize,
    m: usize,
) -> Option<usize>
    ensures { result ≡ slice_get (reverse (ahead (view window.now) from (end - from))) (m - 1) }
{
    let present = |row: &usize| window.cell(*row).is_some();
    (from..end).rev().filter(present).nth(m.saturating_sub(1))
}

// The first present row after `row`, below `end`.
pub(crate) fn present_after<K: Kind>(
    window: &Window<'_, K>,
    row: usize,
    end: usize,
) -> Option<usize>
    ensures { result ≡ next_after (view window.now) row end }
{
    (row.saturating_add(1)..end).find(|row| window.cell(*row).is_some())
}

// Given the j-th present row of those from `row` on, the j-th of those from the row after it on.
#[tactic(auto, using(crate::proofs::Ahead::pass_null, crate::proofs::Ahead::pass_none, crate::proofs::Ahead::pass_found))]
pub fn pass_ahead<K: Kind>(
    window: &Window<'_, K>,
    source: Option<usize>,
    row: usize,
    n: usize,
) -> Option<usize>
    ensures is { result ≡ moved_on (view window.now) source row n }
    ensures next { (j : ℕ) → source ≡ slice_get (ahead (view window.now) row (n - row)) j → result ≡ slice_get (ahead (view window.now) (row + 1) (n - (row + 1))) j }
{
    if window.cell(row).is_none() {
        return source;
    }
    present_after(window, source?, n)
}
