ghost use Rattle.std.specs.Prelude.{◌≡◌, ◌<◌, ◌≤◌, ⊤, MatchResult};
ghost use Rattle.column.specs.declared.fault.Fault.TheVariants.{TooEarly};
ghost use Rattle.column.specs.Refusal.{row_limit};
ghost use Rattle.run.specs.Shown.{end_of};
ghost use Rattle.run.specs.Rows.{Stepping, Settling, left_by, Handed, RowCall, SettleCall};

use column::column::Window;
use column::fault::Fault;
use column::kind::Kind;
use evaluator::evaluator::Evaluator;
use std::alloc::AllocError;

// What a run hands to a row call, once its checks have passed; only runs can make one.
pub struct Turn<'a, K> {
    pub(crate) next: usize,
    pub(crate) window: Window<'a, K>,
    pub(crate) frame: (usize, usize),
    pub(crate) known: bool,
    ghost limited: { end_of window ≤ row_limit },
}

// By hand: beside a ghost field `Clone` cannot be derived.
impl<K: Copy> Clone for Turn<'_, K> {
    ghost is_clone = { λ x y. y ≡ x };

    ghost is_infallible = { λ _. ⊤ };

    fn clone(&self) -> Result<Self, AllocError> {
        Ok(*self)
    }
}

impl<K: Copy> Copy for Turn<'_, K> {}

impl<'a, K: Kind> Turn<'a, K> {
    // The row that is asked for.
    pub fn next(&self) -> usize
        ensures { result ≡ self.now.next }
    {
        self.next
    }

    // The rows that are shown.
    pub fn window(&self) -> Window<'a, K>
        ensures { result ≡ self.now.window }
    {
        self.window
    }

    // The row after the last that is shown.
    pub fn end(&self) -> usize
        ensures { result ≡ end_of self.now.window }
    {
        self.window.end()
    }

    // The row that is asked for; too early if the window does not reach past it.
    pub fn shown(&self) -> Result<usize, Fault>
        ensures { MatchResult result
            (λ row. (row ≡ self.now.next) × (row < end_of self.now.window))
            (λ fault. (fault ≡ TooEarly self.now.next) × (end_of self.now.window ≤ self.now.next)) }
    {
        if self.next < self.end() {
            Ok(self.next)
        } else {
            Err(Fault::TooEarly(self.next))
        }
    }

    // The frame that came with the request, (0, 0) where none did.
    pub fn frame(&self) -> (usize, usize)
        ensures { result ≡ self.now.frame }
    {
        self.frame
    }

    // Whether the window's end is known as the total.
    pub fn known(&self) -> bool
        ensures { result ≡ self.now.known }
    {
        self.known
    }
}

// An evaluator that answers row by row; only runs make the row call.
pub trait RowEvaluator: Evaluator {
    // what an accepted row call and what settling leave of an evaluator
    ghost stepped: { Stepping Self Self.Value };

    ghost settling: { Settling Self };

    fn row(&mut self, turn: &Turn<'_, Self::Value>) -> Result<Self::Answer, Fault>
        requires { Handed Self.Evaluator.WANTS_FRAMES (Self.Evaluator.meaning self.old).keep turn.now.window turn.now.frame turn.now.known }
        ensures call { RowCall Self.Evaluator.meaning Self.Evaluator.WANTS_FRAMES turn.now.next turn.now.window turn.now.frame turn.now.known self.old self.new result }
        ensures leaves { self.new ≡ left_by result self.old (stepped self.old turn.now.next turn.now.window turn.now.frame) };

    // Settles what is known of the rows answered, the last of them with this frame.
    fn settle(&mut self, next: usize, last: (usize, usize))
        ensures call { SettleCall Self.Evaluator.meaning Self.Evaluator.WANTS_FRAMES next last self.old self.new }
        ensures leaves { self.new ≡ settling self.old next last };

    // The lowest row that may still be read.
    fn keep_mark(&self) -> usize
        ensures { result ≡ (Self.Evaluator.meaning self.now).keep };
}
