// Ported from `rank.rs` and `cume_dist.rs` of the crate datafusion-functions-window 55.0.0 (Apache-2.0),
// and changed: one loop over the peer groups, into a lent output, serves all functions that answer by them.
ghost use Rattle.std.specs.Prelude.{◌≡◌, ℕ, ◌≤◌, true, false};
ghost use Rattle.column.specs.Cells.{column_cells};
ghost use Rattle.column.specs.Refusal.{row_limit};
ghost use Rattle.column.specs.Slots.{written};
ghost use Rattle.evaluator.specs.Meaning.{WholeCall};
ghost use Rattle.partition.specs.Peers.{Group};
ghost use Rattle.partition.specs.Table.{input, row_count, whole_refusal};
ghost use Rattle.rank.specs.Groups.{Covers, Within, graded, graded_by};
ghost use Rattle.rank.specs.Fractions.{fraction};

use column::fault::Fault;
use column::kind::Kind;
use column::output::Output;
use partition::whole::{WholePartition, check_whole};

// A window function that gives all rows of a peer group one answer.
pub trait Graded {
    type Grade: Copy;

    ghost graded: { Self → ℕ → Group → ℕ → Self.Grade };

    // The answer of a group's rows, by the group's number from 0 and the number of all rows.
    fn grade(&self, number: usize, group: (usize, usize), rows: usize) -> Self::Grade
        requires { Within number group rows }
        ensures { result ≡ graded self.now number group rows };
}

// Writes the answer of each row, group by group.
fn write_graded<G: Graded, O: Output<G::Grade>>(
    function: &G,
    rows: usize,
    groups: &[(usize, usize)],
    out: &mut O,
)
    // the contract speaks of the lent lists and the output themselves; a struct that held what the check told would be unpacked in every clause
    requires covers { Covers 0 groups.now rows }
    requires limited { rows ≤ row_limit }
    requires room { rows ≤ O.Output.size (O.Output.slots out.old) }
    ensures slots { O.Output.slots out.new ≡ written O.Output.stored (graded_by (G.Graded.graded function.now) groups.now rows) (O.Output.slots out.old) rows }
    ensures place { O.Output.place out.old out.new }
{
    for (number, &group) in groups.iter().enumerate() {
        let grade = function.grade(number, group, rows);
        // by row number: an output is put to by row, and lends no list to go over
        for row in group.0..group.1 {
            out.put(row, grade);
        }
    }
}

// The call on a whole partition: the answers of a function that gives them by peer groups.
#[tactic(auto, using(evaluator::proofs::Calls::refused_call))]
pub(crate) fn evaluate_graded<G: Graded, K: Kind, O: Output<G::Grade>>(
    function: &G,
    rows: &WholePartition<'_, K>,
    out: &mut O,
) -> Result<(), Fault>
    ensures call { WholeCall O.Output.stored (whole_refusal K.Kind.same false true (input rows.now) (O.Output.size (O.Output.slots out.old))) (graded (G.Graded.graded function.now) K.Kind.same (column_cells rows.now.column)) (row_count (input rows.now)) (O.Output.slots out.old) (O.Output.slots out.new) result }
    ensures place { O.Output.place out.old out.new }
{
    // groups are wanted, and frames are not
    check_whole(rows, false, true, out.len())?;
    write_graded(function, rows.column.values.len(), rows.groups, out);
    Ok(())
}

// One division of two whole numbers, which have to fit 32 bits.
pub(crate) fn fraction(part: usize, whole: usize) -> f64
    requires part { part ≤ row_limit }
    requires whole { whole ≤ row_limit }
    ensures { result ≡ fraction part whole }
{
    part as u32 as f64 / whole as u32 as f64
}
