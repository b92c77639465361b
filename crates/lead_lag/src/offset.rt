// Ported from `lead_lag.rs` of the crate datafusion-functions-window 55.0.0 (Apache-2.0), and changed:
// the sign of an offset, without the planner's part.
ghost use Rattle.std.specs.Prelude.{◌≡◌};
ghost use Rattle.lead_lag.specs.Offset.{kind_offset, signed_offset, way_of};

use evaluator::utils::opposite;
use std::cmp::Ordering;

// Which of the two functions.
#[derive(Clone, Copy)]
pub enum WindowShiftKind {
    Lag,
    Lead,
}

// Where an offset looks, and how far.
#[derive(Clone, Copy)]
pub(crate) enum Way {
    Own,
    Back(usize),
    Ahead(usize),
}

impl WindowShiftKind {
    // LAG's offset as it is given, LEAD's negated; 1 row where none is given.
    pub fn shift_offset(&self, value: Option<i64>) -> i64
        ensures { result ≡ kind_offset self.now value }
    {
        match self {
            WindowShiftKind::Lag => value.unwrap_or(1),
            WindowShiftKind::Lead => value.map_or(-1, opposite),
        }
    }
}

// The offset of the function, negated once more where the window is reversed.
pub(crate) fn signed_offset(kind: WindowShiftKind, value: Option<i64>, reversed: bool) -> i64
    ensures { result ≡ signed_offset kind value reversed }
{
    let offset = kind.shift_offset(value);
    if reversed { opposite(offset) } else { offset }
}

impl From<i64> for Way {
    ghost from_gives = { λ offset way. way ≡ way_of offset };

    fn from(offset: i64) -> Way {
        let m = offset.unsigned_abs() as usize;
        match offset.cmp(&0) {
            Ordering::Less => Way::Ahead(m),
            Ordering::Equal => Way::Own,
            Ordering::Greater => Way::Back(m),
        }
    }
}
