// The columns of a header by name.
ghost use Rattle.std.specs.Prelude.{◌≡◌, ℕ, ◌+◌, ◌≤◌, ◌<◌, length, MatchOption, MatchResult};
ghost use Rattle.table.specs.Names.{IsColumn, Named, NotColumn};

// Why a name is of no one column.
#[derive(Clone, Copy)]
pub enum NoColumn {
    Absent,
    Twice,
}

// The first column of a name from one on.
fn next_named(names: &[&[u8]], name: &[u8], from: usize) -> Option<usize>
    requires { from ≤ length names.now }
    ensures { MatchOption result ((k : ℕ) → from ≤ k → Named names.now name.now k → ⊥) (λ k. (from ≤ k) × Named names.now name.now k × ((j : ℕ) → from ≤ j → j < k → Named names.now name.now j → ⊥)) }
{
    for i in from..names.len() {
        if names[i] == name {
            return Some(i);
        }
    }
    None
}

// The one column of a name.
pub fn find_column(names: &[&[u8]], name: &[u8]) -> Result<usize, NoColumn>
    ensures { MatchResult result (IsColumn names.now name.now) (NotColumn names.now name.now) }
{
    let Some(first) = next_named(names, name, 0) else {
        return Err(NoColumn::Absent);
    };
    match next_named(names, name, first + 1) {
        Some(_) => Err(NoColumn::Twice),
        None => Ok(first),
    }
}
