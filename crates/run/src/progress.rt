ghost use Rattle.std.specs.Prelude.{◌≡◌, Some};
ghost use Rattle.column.specs.Refusal.{passes};
ghost use Rattle.run.specs.Table.{unfit_frame};
ghost use Rattle.run.specs.Run.{refusal_at};

use column::column::{ROW_LIMIT, Window};
use column::fault::Fault;
use column::kind::Kind;

// What a run remembers of its requests: its setting, the next row and the last wanted frame.
#[derive(Clone, Copy)]
pub struct Progress {
    pub from_zero: bool,
    pub next: usize,
    pub last: (usize, usize),
}

impl Progress {
    // Whether a frame that is there may not come next.
    fn unfit(&self, total: Option<usize>, frame: (usize, usize)) -> bool
        ensures { result ≡ unfit_frame self.now total (Some frame) }
    {
        let (start, end) = frame;
        let (last_start, last_end) = self.last;
        start > end
            || end > total.unwrap_or(ROW_LIMIT)
            || start < last_start
            || end < last_end
            || (self.from_zero && start > 0)
    }

    // The first check of a row request that fails, of all but whether the row is too early.
    pub(crate) fn check<K: Kind>(
        &self,
        wants: bool,
        total: Option<usize>,
        mark: usize,
        window: &Window<'_, K>,
        frame: Option<(usize, usize)>,
    ) -> Result<(), Fault>
        ensures { result ≡ passes (refusal_at wants self.now total mark window.now frame) }
    {
        let wanted = frame.filter(|_| wants);
        if wants && wanted.is_none() {
            return Err(Fault::NoFrame(self.next));
        }
        if total == Some(self.next) {
            return Err(Fault::NoRowLeft(self.next));
        }
        window.rows.check()?;
        // a window that begins past the limit ends past it; of any other the end is a plain sum
        if window.begin > ROW_LIMIT {
            return Err(Fault::RowLimit(ROW_LIMIT));
        }
        let end = window.end();
        if end > ROW_LIMIT {
            return Err(Fault::RowLimit(ROW_LIMIT));
        }
        if window.begin > mark {
            return Err(Fault::BeginsLate(mark));
        }
        if let Some(t) = total
            && end > t
        {
            return Err(Fault::PastTotal(t));
        }
        if let Some(f) = wanted
            && self.unfit(total, f)
        {
            return Err(Fault::BadFrame(self.next));
        }
        Ok(())
    }
}
