ghost use Rattle.std.specs.Prelude.{◌≡◌, Bool};
ghost use Rattle.partition.specs.Table.{input, row_count, whole_refusal};
ghost use Rattle.evaluator.specs.Meaning.{Partition, Meaning, Alike, Laws, WholeCall, partition};

use column::fault::Fault;
use column::kind::Kind;
use column::output::Output;
use partition::whole::WholePartition;

// A window function with its arguments, on whole partitions.
pub trait Evaluator: Sized {
    type Value: Kind;

    // a cell, a whole number or a fraction
    type Answer: Copy;

    const WANTS_FRAMES: bool;

    const WANTS_GROUPS: bool;

    // the two constants, as contracts name them
    ghost WANTS_FRAMES: { Bool };

    ghost WANTS_GROUPS: { Bool };

    ghost meaning: { Self → Meaning Self.Value Self.Answer };

    ghost renewed: { Self → Self };

    // An evaluator of the same meaning that stands at row 0 of every partition.
    fn fresh(&self) -> Self
        ensures is { result ≡ renewed self.now }
        ensures alike { Alike (meaning self.now) (meaning result) }
        ensures stands { (p : Partition Self.Value) → (meaning result).stands p 0 };

    // Writes the answer of each row, or refuses and writes nothing.
    fn evaluate_all<O: Output<Self::Answer>>(
        &self,
        rows: &WholePartition<'_, Self::Value>,
        out: &mut O,
    ) -> Result<(), Fault>
        ensures call { WholeCall O.Output.stored (whole_refusal Self.Value.Kind.same WANTS_FRAMES WANTS_GROUPS (input rows.now) (O.Output.size (O.Output.slots out.old))) ((meaning self.now).answer (partition WANTS_FRAMES (input rows.now))) (row_count (input rows.now)) (O.Output.slots out.old) (O.Output.slots out.new) result }
        ensures place { O.Output.place out.old out.new };

    ghost lawful: { (e : Self) → Laws (meaning e) };
}
