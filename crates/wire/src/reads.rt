ghost use Rattle.std.specs.Prelude.{◌≡◌};
ghost use Rattle.wire.specs.Lists.{marks_of};
ghost use Rattle.wire.specs.Stops.{Makes};
ghost use Rattle.wire.specs.Whole.{read_stop};

use crate::calls::Shown;
use crate::function::{Family, Function};
use crate::kinds::{Crossing, read_values};
use crate::lists::read_marks;
use crate::stop::Stop;
use column::kind::Kind;
use std::alloc::Global;

// The values that a call lends, and its marks.
#[derive(Drop)]
pub(crate) struct Read<'a, V> {
    pub(crate) values: &'a [V],
    pub(crate) marks: Vec<bool>,
}

impl<'a, V: Kind> Read<'a, V> {
    // What the windows of a run show parts of.
    pub(crate) fn shown(&'a self) -> Shown<'a, V>
        ensures values { result.values.now ≡ self.now.values.now }
        ensures marks { result.marks.now ≡ self.now.marks.items }
    {
        Shown {
            values: self.values,
            marks: self.marks.as_slice(),
        }
    }
}

// What every call of a family is handed, or its first flaw; values that have to be made go to the room.
pub(crate) fn read_list<'a, C: Crossing>(
    heap: Global,
    function: &Function,
    family: Family,
    values: &'a [C::Numbers],
    marks: &[u8],
    room: &'a mut Vec<C::Value>,
) -> Result<Read<'a, C::Value>, Stop>
    ensures { Makes result (read_stop C.Crossing.coding family function.now values.entry.now marks.now) (λ r. (r.values.now ≡ C.Crossing.coding.decodes values.entry.now) × (r.marks.items ≡ marks_of marks.now)) }
{
    function.check(family)?;
    let marks = read_marks(heap, marks)?;
    let values = read_values::<C>(heap, values, room)?;
    Ok(Read { values, marks })
}
