// Ported from `nth_value.rs` of the crate datafusion-functions-window 55.0.0 (Apache-2.0), and changed:
// which row of a frame a function counts to, without the planner's part.
ghost use Rattle.std.specs.Prelude.{◌≡◌, ℤ, FitsSigned};
ghost use Rattle.std.specs.Int.{w64};
ghost use Rattle.nth_value.specs.Frames.{pick_of};
ghost use Rattle.nth_value.specs.Nth.{turned_kind};

use evaluator::utils::opposite;

// Which of the three functions.
#[derive(Clone, Copy)]
pub enum NthValueKind {
    First,
    Last,
    // positive counts from the frame's start, negative from its end
    Nth(i64),
}

// Which of a frame's rows is counted to.
#[derive(Clone, Copy)]
pub(crate) enum Pick {
    Nothing,
    FromStart(usize),
    FromEnd(usize),
}

impl NthValueKind {
    // The same function from the other end of a partition.
    pub(crate) fn turned(self) -> NthValueKind
        ensures is { result ≡ turned_kind self }
        ensures fits { (n : ℤ) → self ≡ NthValueKind.Nth n → FitsSigned w64 n }
    {
        match self {
            NthValueKind::First => NthValueKind::Last,
            NthValueKind::Last => NthValueKind::First,
            NthValueKind::Nth(n) => NthValueKind::Nth(opposite(n)),
        }
    }
}

impl From<NthValueKind> for Pick {
    ghost from_gives = { λ kind pick. pick ≡ pick_of kind };

    fn from(kind: NthValueKind) -> Pick {
        match kind {
            NthValueKind::First => Pick::FromStart(1),
            NthValueKind::Last => Pick::FromEnd(1),
            NthValueKind::Nth(0) => Pick::Nothing,
            NthValueKind::Nth(n) if n > 0 => Pick::FromStart(n.unsigned_abs() as usize),
            NthValueKind::Nth(n) => Pick::FromEnd(n.unsigned_abs() as usize),
        }
    }
}
