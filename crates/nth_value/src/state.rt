// Ported from `nth_value.rs` of the crate datafusion-functions-window 55.0.0 (Apache-2.0), and changed:
// `memoize` as a step of what is held, told the last frame and the number of answers given.
ghost use Rattle.std.specs.Prelude.{◌≡◌};
ghost use Rattle.nth_value.specs.Settling.{start, answered, raised, fixed, settled_first, settled_nth, settled_by};

use crate::kind::{NthValueKind, Pick};
use column::kind::Kind;

// The last answer, the answer that is fixed for all later rows, and the keep mark.
#[derive(Clone, Copy)]
pub struct NthValueState<K> {
    pub(crate) last_answer: Option<K>,
    pub(crate) finalized_result: Option<Option<K>>,
    pub(crate) mark: usize,
}

impl<K: Kind> NthValueState<K> {
    // Before the first row.
    pub(crate) fn start() -> NthValueState<K>
        ensures { result ≡ start }
    {
        NthValueState {
            last_answer: None,
            finalized_result: None,
            mark: 0,
        }
    }

    // After an answer over a frame.
    pub(crate) fn answered(self, answer: Option<K>, frame: (usize, usize)) -> NthValueState<K>
        ensures { result ≡ answered self answer frame }
    {
        NthValueState {
            last_answer: answer,
            ..self.raised(frame.0)
        }
    }

    fn raised(self, mark: usize) -> NthValueState<K>
        ensures { result ≡ raised self mark }
    {
        NthValueState {
            mark: self.mark.max(mark),
            ..self
        }
    }

    // The last answer is that of all later rows.
    fn fixed(self, mark: usize) -> NthValueState<K>
        ensures { result ≡ fixed self mark }
    {
        NthValueState {
            finalized_result: Some(self.last_answer),
            ..self.raised(mark)
        }
    }

    fn settled_first(self, ignore_nulls: bool, last: (usize, usize)) -> NthValueState<K>
        ensures { result ≡ settled_first ignore_nulls self last }
    {
        let (start, end) = last;
        if start >= end {
            return self;
        }
        if ignore_nulls && self.last_answer.is_none() {
            return self.raised(end - 1);
        }
        self.fixed(end - 1)
    }

    fn settled_nth(self, n: i64, given: usize, last: (usize, usize)) -> NthValueState<K>
        ensures { result ≡ settled_nth n self given last }
    {
        let (start, end) = last;
        let rows = end.saturating_sub(start);
        match Pick::from(NthValueKind::Nth(n)) {
            Pick::FromStart(m) if rows >= m && given > m => self.fixed(end - 1),
            Pick::FromEnd(m) if rows >= m => self.raised(end - m),
            _ => self,
        }
    }

    // Settles what is known after so many answers, the last of them over this frame.
    pub(crate) fn settled(
        self,
        kind: NthValueKind,
        ignore_nulls: bool,
        given: usize,
        last: (usize, usize),
    ) -> NthValueState<K>
        ensures { result ≡ settled_by kind ignore_nulls self given last }
    {
        match kind {
            NthValueKind::First => self.settled_first(ignore_nulls, last),
            _ if ignore_nulls => self,
            NthValueKind::Last => self.raised(last.1.saturating_sub(1)),
            NthValueKind::Nth(n) => self.settled_nth(n, given, last),
        }
    }
}
