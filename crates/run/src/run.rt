ghost use Rattle.std.specs.Prelude.{◌≡◌, ℕ};
ghost use Rattle.evaluator.specs.Meaning.{Partition, Alike};
ghost use Rattle.run.specs.Rows.{left_by};
ghost use Rattle.run.specs.Run.{Requested, Settled, frame_or_none, closing, finishing};

use crate::progress::Progress;
use crate::rows::{RowEvaluator, Turn};
use crate::stage::{Stage, Total, Unclosed};
use column::column::{ROW_LIMIT, Window};
use column::fault::Fault;

// An evaluator that is asked row by row, with what is remembered of the requests, and the total where it is known.
#[derive(Drop)]
pub struct Running<E, S> {
    evaluator: E,
    progress: Progress,
    stage: S,
}

// A run before its total is known.
pub type Open<E> = Running<E, Unclosed>;

// A run whose total is known.
pub type Closed<E> = Running<E, Total>;

// A run that is open or closed.
#[derive(Drop)]
pub enum Run<E> {
    Opened(Open<E>),
    Shut(Closed<E>),
}

impl<E: RowEvaluator, S: Stage> Running<E, S> {
    // The answer of the next row, if the window settles it.
    pub fn request(
        &mut self,
        window: &Window<'_, E::Value>,
        frame: Option<(usize, usize)>,
    ) -> Result<E::Answer, Fault>
        ensures asked { Requested E.Evaluator.meaning E.Evaluator.WANTS_FRAMES (S.Stage.total self.old.stage) window.now frame self.old.evaluator self.new.evaluator self.old.progress self.new.progress result }
        ensures leaves { self.new.evaluator ≡ left_by result self.old.evaluator (E.RowEvaluator.stepped self.old.evaluator self.old.progress.next window.now (frame_or_none frame)) }
        ensures stage { self.new.stage ≡ self.old.stage }
    {
        let mark = self.evaluator.keep_mark();
        let total = self.stage.total();
        self.progress
            .check(E::WANTS_FRAMES, total, mark, window, frame)?;
        let turn = Turn {
            next: self.progress.next,
            window: *window,
            frame: frame.unwrap_or((0, 0)),
            known: Some(window.end()) == total,
        };
        let answer = self.evaluator.row(&turn)?;
        self.progress.next += 1;
        if E::WANTS_FRAMES {
            self.progress.last = turn.frame;
        }
        Ok(answer)
    }

    // Settles what is known of the rows answered, on a run whose frames all begin at 0.
    pub fn settle(&mut self) -> Result<(), Fault>
        ensures settled { Settled E.Evaluator.meaning E.Evaluator.WANTS_FRAMES self.old.progress self.old.evaluator self.new.evaluator result }
        ensures leaves { self.new.evaluator ≡ left_by result self.old.evaluator (E.RowEvaluator.settling self.old.evaluator self.old.progress.next self.old.progress.last) }
        ensures progress { self.new.progress ≡ self.old.progress }
        ensures stage { self.new.stage ≡ self.old.stage }
    {
        if !self.progress.from_zero {
            return Err(Fault::NotFromZero(self.progress.next));
        }
        self.evaluator
            .settle(self.progress.next, self.progress.last);
        Ok(())
    }

    // The lowest row that a window still has to show.
    pub fn keep_mark(&self) -> usize
        ensures { result ≡ (E.Evaluator.meaning self.now.evaluator).keep }
    {
        self.evaluator.keep_mark()
    }
}

impl<E: RowEvaluator> Running<E, Unclosed> {
    pub fn new(evaluator: &E, from_zero: bool) -> Open<E>
        ensures progress { result.progress ≡ record { from_zero = from_zero; next = 0; last = (0, 0) } }
        ensures renewed { result.evaluator ≡ E.Evaluator.renewed evaluator.now }
        ensures alike { Alike (E.Evaluator.meaning evaluator.now) (E.Evaluator.meaning result.evaluator) }
        ensures stands { (p : Partition E.Value) → (E.Evaluator.meaning result.evaluator).stands p 0 }
    {
        Running {
            evaluator: evaluator.fresh(),
            progress: Progress {
                from_zero,
                next: 0,
                last: (0, 0),
            },
            stage: Unclosed,
        }
    }

    pub fn close(self, total: usize) -> Result<Closed<E>, (Fault, Open<E>)>
        ensures { result ≡ closing self total }
    {
        if total < self.progress.next || total < self.progress.last.1 || total > ROW_LIMIT {
            return Err((Fault::BadTotal(self.progress.next), self));
        }
        let Running {
            evaluator,
            progress,
            stage: _,
        } = self;
        Ok(Running {
            evaluator,
            progress,
            stage: Total(total),
        })
    }
}

impl<E: RowEvaluator> Running<E, Total> {
    // Hands back the evaluator and the row count.
    pub fn finish(self) -> Result<(E, usize), (Fault, Closed<E>)>
        ensures { result ≡ finishing self }
    {
        let Total(total) = self.stage;
        if self.progress.next != total {
            return Err((Fault::Unanswered(self.progress.next), self));
        }
        let Running {
            evaluator,
            progress: _,
            stage: _,
        } = self;
        Ok((evaluator, total))
    }
}
