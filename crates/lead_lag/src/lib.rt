// Ported from `lead_lag.rs` of the crate datafusion-functions-window 55.0.0 (Apache-2.0), and changed:
// the planner's part is left out, the caller lends the output, and a count with the row of the oldest
// stands for the queue of distances between present rows.
#![tactic(auto)]

ghost use Rattle.std.specs.Prelude.{◌≡◌, true, false, FitsSigned};
ghost use Rattle.std.specs.Int.{w64};
ghost use Rattle.lead_lag.specs.Cases.{Cases};
ghost use Rattle.lead_lag.specs.Offset.{way_of};
ghost use Rattle.lead_lag.specs.Shift.{shift_meaning, renewed_with, shift_renewed, shift_mirrored, making};
ghost use Rattle.lead_lag.specs.Steps.{shift_stepped, shift_settling};
ghost use Rattle.lead_lag.specs.Lawful.{shift_lawful};

pub mod offset;
mod rows;
mod whole;

use crate::offset::{Way, WindowShiftKind, signed_offset};
use crate::rows::{Look, take_cell};
use crate::whole::write_all;
use column::fault::Fault;
use column::kind::Kind;
use column::output::Output;
use evaluator::evaluator::Evaluator;
use evaluator::mirror::MirrorEvaluator;
use evaluator::utils::{Argument, get_signed_integer, opposite};
use partition::whole::{WholePartition, check_whole};
use present::held::Held;
use run::rows::{RowEvaluator, Turn};

// LAG and LEAD: a positive offset looks back, a negative one ahead.
#[derive(Drop)]
pub struct WindowShift<K> {
    shift_offset: i64,
    ignore_nulls: bool,
    default_value: Option<K>,
    held: Held,
}

impl<K: Kind> WindowShift<K> {
    // The offset is an argument of the call in SQL; the default is a cell, NULL if none is given.
    pub fn new(
        kind: WindowShiftKind,
        offset: Argument,
        reversed: bool,
        ignore_nulls: bool,
        default_value: Option<K>,
    ) -> Result<WindowShift<K>, Fault>
        ensures { result ≡ making kind offset reversed ignore_nulls default_value }
    {
        let value = get_signed_integer(offset)?;
        let shift_offset = signed_offset(kind, value, reversed);
        Ok(WindowShift {
            shift_offset,
            ignore_nulls,
            default_value,
            held: Held::START,
        })
    }

    // The same shift with this offset, holding nothing.
    fn renewed(&self, shift_offset: i64) -> WindowShift<K>
        ensures { result ≡ renewed_with shift_offset self.now }
    {
        WindowShift {
            shift_offset,
            held: Held::START,
            ..*self
        }
    }

    // The same shift from the other end of a partition.
    fn turned(&self) -> WindowShift<K>
        ensures is { result ≡ shift_mirrored self.now }
        ensures fits { FitsSigned w64 self.now.shift_offset }
    {
        self.renewed(opposite(self.shift_offset))
    }

    // Where it looks.
    fn look(&self) -> Look
        ensures { result ≡ record { way = way_of self.now.shift_offset; ignore_nulls = self.now.ignore_nulls } }
    {
        Look {
            way: Way::from(self.shift_offset),
            ignore_nulls: self.ignore_nulls,
        }
    }
}

impl<K: Kind> Evaluator for WindowShift<K> {
    type Value = K;

    type Answer = Option<K>;

    const WANTS_FRAMES: bool = false;

    const WANTS_GROUPS: bool = false;

    ghost WANTS_FRAMES = { false };

    ghost WANTS_GROUPS = { false };

    ghost meaning = { shift_meaning };

    ghost renewed = { shift_renewed };

    ghost lawful = { λ e. shift_lawful e };

    fn fresh(&self) -> WindowShift<K> {
        self.renewed(self.shift_offset)
    }

    #[tactic(auto, using(evaluator::proofs::Calls::refused_call))]
    fn evaluate_all<O: Output<Option<K>>>(
        &self,
        rows: &WholePartition<'_, K>,
        out: &mut O,
    ) -> Result<(), Fault> {
        check_whole(rows, Self::WANTS_FRAMES, Self::WANTS_GROUPS, out.len())?;
        write_all(self.look(), self.default_value, &rows.column, out);
        Ok(())
    }
}

impl<K: Kind> RowEvaluator for WindowShift<K> {
    ghost stepped = { shift_stepped };

    ghost settling = { shift_settling };

    fn row(&mut self, turn: &Turn<'_, K>) -> Result<Option<K>, Fault> {
        let next = turn.shown()?;
        let window = turn.window();
        let end = turn.end();
        let look = self.look();
        let source = look.source(self.held, &window, next, end);
        if look.must_wait(source, turn.known()) {
            return Err(Fault::TooEarly(next));
        }
        let answer = take_cell(&window, self.default_value, source);
        self.held = look.step(self.held, &window, next, source);
        Ok(answer)
    }

    fn settle(&mut self, _next: usize, _last: (usize, usize)) {}

    fn keep_mark(&self) -> usize {
        self.look().mark(self.held)
    }
}

impl<K: Kind> MirrorEvaluator for WindowShift<K> {
    ghost mirrored = { shift_mirrored };

    fn mirror(&self) -> WindowShift<K> {
        self.turned()
    }
}

// The worked cases hold of the definitions.
pub fn cases_hold() -> bool
    ensures cases { Cases }
    ensures told { result ≡ true }
{
    true
}
