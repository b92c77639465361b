ghost use Rattle.std.specs.Prelude.{◌≡◌};
ghost use Rattle.partition.specs.Table.{Input, input, row_count, whole_refusal};
ghost use Rattle.evaluator.specs.Meaning.{WholeCall, partition};
ghost use Rattle.evaluator.specs.Mirror.{Mirror, Mirrored, turned};

use crate::evaluator::Evaluator;
use column::fault::Fault;
use column::output::Output;
use partition::whole::WholePartition;

// An evaluator with one that does the same from the other end of a partition.
pub trait MirrorEvaluator: Evaluator {
    ghost mirrored: { Self → Self };

    fn mirror(&self) -> Self
        ensures { Mirror Self.Value.same Self.Evaluator.WANTS_FRAMES Self.Evaluator.WANTS_GROUPS Self.Evaluator.meaning Self.Evaluator.renewed mirrored self.now result };
}

// A mirror's mirror is the evaluator made fresh.
pub fn mirror_twice<E: MirrorEvaluator + Drop>(evaluator: &E) -> E
    ensures { result ≡ E.Evaluator.renewed evaluator.now }
{
    let once = evaluator.mirror();
    once.mirror()
}

// The mirror's answers on turned rows: those of the evaluator on the rows, from the last to the first.
pub fn evaluate_mirrored<E: MirrorEvaluator + Drop, O: Output<E::Answer>>(
    evaluator: &E,
    rows: &WholePartition<'_, E::Value>,
    out: &mut O,
) -> Result<(), Fault>
    ensures call { WholeCall O.Output.stored (whole_refusal E.Value.Kind.same E.Evaluator.WANTS_FRAMES E.Evaluator.WANTS_GROUPS (input rows.now) (O.Output.size (O.Output.slots out.old))) ((E.Evaluator.meaning (E.MirrorEvaluator.mirrored evaluator.now)).answer (partition E.Evaluator.WANTS_FRAMES (input rows.now))) (row_count (input rows.now)) (O.Output.slots out.old) (O.Output.slots out.new) result }
    ensures turned { (x : Input E.Value) → input rows.now ≡ turned E.Value.Kind.same x → Mirrored O.Output.stored (whole_refusal E.Value.Kind.same E.Evaluator.WANTS_FRAMES E.Evaluator.WANTS_GROUPS x (O.Output.size (O.Output.slots out.old))) ((E.Evaluator.meaning evaluator.now).answer (partition E.Evaluator.WANTS_FRAMES x)) (row_count x) (O.Output.slots out.old) (O.Output.slots out.new) result }
    ensures place { O.Output.place out.old out.new }
{
    let mirror = evaluator.mirror();
    mirror.evaluate_all(rows, out)
}
