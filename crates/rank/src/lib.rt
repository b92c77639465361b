// Ported from the crate datafusion-functions-window 55.0.0 (Apache-2.0), and changed: its modules on ranks, as each of the files here says.
#![tactic(auto)]

ghost use Rattle.rank.specs.Cases.{Cases};

pub mod cume_dist;
mod fractions;
mod graded;
pub mod rank;
pub mod row_number;
mod state;

// The number of worked cases; they hold of the definitions.
pub fn cases_hold() -> usize
    ensures { Cases result }
{
    10
}
