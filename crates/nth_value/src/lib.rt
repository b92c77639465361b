// Ported from `nth_value.rs` of the crate datafusion-functions-window 55.0.0 (Apache-2.0), and changed:
// the planner's part is left out, the caller lends the output, frames in order cost one pass over the rows,
// and a row call is told its window and refuses a row that is too early.
#![tactic(auto)]

ghost use Rattle.std.specs.Prelude.{◌≡◌, true, false, IfOk};
ghost use Rattle.column.specs.Cells.{view};
ghost use Rattle.nth_value.specs.declared.kind.NthValueKind.TheVariants.{First, Last};
ghost use Rattle.nth_value.specs.Cases.{Cases};
ghost use Rattle.nth_value.specs.Frames.{pick_of};
ghost use Rattle.nth_value.specs.Marks.{SettledMark};
ghost use Rattle.nth_value.specs.Settling.{answer_by, MarkLaw};
ghost use Rattle.nth_value.specs.Nth.{nth_meaning, nth_renewed, nth_stepped, nth_settling, nth_mirrored, new_of, making};
ghost use Rattle.nth_value.specs.Lawful.{nth_lawful};

mod cursor;
mod frames;
pub mod kind;
pub mod state;
mod whole;

use crate::frames::{Seek, cell_of};
use crate::kind::{NthValueKind, Pick};
use crate::state::NthValueState;
use crate::whole::write_all;
use column::column::Window;
use column::fault::Fault;
use column::kind::Kind;
use column::output::Output;
use evaluator::evaluator::Evaluator;
use evaluator::mirror::MirrorEvaluator;
use evaluator::utils::{Argument, get_signed_integer};
use partition::whole::{WholePartition, check_whole};
use run::rows::{RowEvaluator, Turn};

// FIRST_VALUE, LAST_VALUE and NTH_VALUE over a row's frame.
#[derive(Drop)]
pub struct NthValue<K> {
    kind: NthValueKind,
    ignore_nulls: bool,
    state: NthValueState<K>,
}

impl<K: Kind> NthValue<K> {
    #[tactic(auto, using(crate::proofs::Marks::settled_mark))]
    fn new(kind: NthValueKind, ignore_nulls: bool) -> NthValue<K>
        ensures is { result ≡ new_of kind ignore_nulls }
        ensures mark { SettledMark result }
    {
        NthValue {
            kind,
            ignore_nulls,
            state: NthValueState::start(),
        }
    }

    pub fn first(ignore_nulls: bool) -> NthValue<K>
        ensures is { result ≡ new_of First ignore_nulls }
        ensures mark { SettledMark result }
    {
        NthValue::new(NthValueKind::First, ignore_nulls)
    }

    pub fn last(ignore_nulls: bool) -> NthValue<K>
        ensures is { result ≡ new_of Last ignore_nulls }
        ensures mark { SettledMark result }
    {
        NthValue::new(NthValueKind::Last, ignore_nulls)
    }

    // A positive n counts from the frame's start, a negative one from its end.
    pub fn nth(n: Argument, ignore_nulls: bool) -> Result<NthValue<K>, Fault>
        ensures is { result ≡ making n ignore_nulls }
        ensures mark { IfOk result SettledMark }
    {
        let n = get_signed_integer(n)?.ok_or(Fault::MissingArgument(1))?;
        if n == i64::MIN {
            return Err(Fault::TooSmall(1));
        }
        Ok(NthValue::new(NthValueKind::Nth(n), ignore_nulls))
    }

    // The keep mark before the first row; until settling raises it, it is the last frame's start.
    #[tactic(auto, using(crate::proofs::Marks::mark_law))]
    pub fn first_mark() -> usize
        ensures is { result ≡ 0 }
        ensures law { MarkLaw K }
    {
        0
    }

    // What it seeks in a frame.
    fn seek(&self) -> Seek
        ensures { result ≡ record { pick = pick_of self.now.kind; ignore_nulls = self.now.ignore_nulls } }
    {
        Seek {
            pick: Pick::from(self.kind),
            ignore_nulls: self.ignore_nulls,
        }
    }

    // The answer over a frame, as far as the window shows it.
    fn answer(&self, window: &Window<'_, K>, frame: (usize, usize)) -> Option<K>
        ensures { result ≡ answer_by (pick_of self.now.kind) self.now.ignore_nulls self.now.state (view window.now) frame }
    {
        // no `unwrap_or_else`: no clause is inferred for a closure that holds the window, and the goal stays open
        if let Some(answer) = self.state.finalized_result {
            return answer;
        }
        cell_of(window, self.seek().row_of(window, frame))
    }
}

impl<K: Kind> Evaluator for NthValue<K> {
    type Value = K;

    type Answer = Option<K>;

    const WANTS_FRAMES: bool = true;

    const WANTS_GROUPS: bool = false;

    ghost WANTS_FRAMES = { true };

    ghost WANTS_GROUPS = { false };

    ghost meaning = { nth_meaning };

    ghost renewed = { nth_renewed };

    ghost lawful = { λ e. nth_lawful e };

    fn fresh(&self) -> NthValue<K> {
        NthValue::new(self.kind, self.ignore_nulls)
    }

    #[tactic(auto, using(evaluator::proofs::Calls::refused_call))]
    fn evaluate_all<O: Output<Option<K>>>(
        &self,
        rows: &WholePartition<'_, K>,
        out: &mut O,
    ) -> Result<(), Fault> {
        check_whole(rows, Self::WANTS_FRAMES, Self::WANTS_GROUPS, out.len())?;
        write_all(self.seek(), &rows.column, rows.frames, out);
        Ok(())
    }
}

impl<K: Kind> RowEvaluator for NthValue<K> {
    ghost stepped = { nth_stepped };

    ghost settling = { nth_settling };

    fn row(&mut self, turn: &Turn<'_, K>) -> Result<Option<K>, Fault> {
        let next = turn.shown()?;
        let window = turn.window();
        let frame = turn.frame();
        // where the window's end is known as the total, every frame is settled
        if !turn.known() && frame.1 > turn.end() {
            return Err(Fault::TooEarly(next));
        }
        let answer = self.answer(&window, frame);
        self.state = self.state.answered(answer, frame);
        Ok(answer)
    }

    fn settle(&mut self, next: usize, last: (usize, usize)) {
        self.state = self.state.settled(self.kind, self.ignore_nulls, next, last);
    }

    fn keep_mark(&self) -> usize {
        self.state.mark
    }
}

impl<K: Kind> MirrorEvaluator for NthValue<K> {
    ghost mirrored = { nth_mirrored };

    fn mirror(&self) -> NthValue<K> {
        NthValue::new(self.kind.turned(), self.ignore_nulls)
    }
}

// The number of worked cases; they hold of the definitions.
pub fn cases_hold() -> usize
    ensures { Cases result }
{
    7
}
