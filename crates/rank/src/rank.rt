// Ported from `rank.rs` of the crate datafusion-functions-window 55.0.0 (Apache-2.0), and changed:
// the planner's part is left out, the caller lends the output, and PERCENT_RANK's evaluator is one with CUME_DIST's.
ghost use Rattle.std.specs.Prelude.{◌≡◌, true, false, List, Option};
ghost use Rattle.rank.specs.Fractions.{percent_rank};
ghost use Rattle.rank.specs.Laws.{RankLaw};
ghost use Rattle.rank.specs.Ranks.{rank_graded, rank_meaning, new_rank, rank_renewed, rank_held, rank_stepped, rank_settling};
ghost use Rattle.rank.specs.RanksLemmas.{rank_lawful};

use crate::fractions::{Fraction, FractionEvaluator};
use crate::graded::{Graded, evaluate_graded, fraction};
use crate::state::RankState;
use column::fault::Fault;
use column::kind::Kind;
use column::output::Output;
use evaluator::evaluator::Evaluator;
use partition::whole::WholePartition;
use run::rows::{RowEvaluator, Turn};

// Which of the two functions that count.
#[derive(Clone, Copy)]
pub enum RankType {
    Basic,
    Dense,
}

// RANK and DENSE_RANK.
#[derive(Drop)]
pub struct Rank<K> {
    rank_type: RankType,
    state: RankState<K>,
}

impl<K: Kind> Rank<K> {
    pub fn new(rank_type: RankType) -> Rank<K>
        ensures is { result ≡ new_rank rank_type }
        ensures law { (rows : List (Option K)) → RankLaw K.Kind.same rows }
    {
        Rank {
            rank_type,
            state: RankState::new(),
        }
    }

    // The answer of the row that was taken last; sums saturate, since windows may contradict each other.
    fn rank(&self) -> u64
        ensures { result ≡ rank_held self.now.rank_type self.now.state }
    {
        match self.rank_type {
            RankType::Basic => (self.state.last_rank_boundary as u64).saturating_add(1),
            RankType::Dense => self.state.n_rank as u64,
        }
    }
}

impl Graded for RankType {
    type Grade = u64;

    ghost graded = { rank_graded };

    fn grade(&self, number: usize, group: (usize, usize), _rows: usize) -> u64 {
        match self {
            RankType::Basic => group.0 as u64 + 1,
            RankType::Dense => number as u64 + 1,
        }
    }
}

impl<K: Kind> Evaluator for Rank<K> {
    type Value = K;

    type Answer = u64;

    const WANTS_FRAMES: bool = false;

    const WANTS_GROUPS: bool = true;

    ghost WANTS_FRAMES = { false };

    ghost WANTS_GROUPS = { true };

    ghost meaning = { rank_meaning K.Kind.same };

    ghost renewed = { rank_renewed };

    ghost lawful = { λ e. rank_lawful K.Kind.same e };

    fn fresh(&self) -> Rank<K> {
        Rank::new(self.rank_type)
    }

    fn evaluate_all<O: Output<u64>>(
        &self,
        rows: &WholePartition<'_, K>,
        out: &mut O,
    ) -> Result<(), Fault> {
        evaluate_graded(&self.rank_type, rows, out)
    }
}

impl<K: Kind> RowEvaluator for Rank<K> {
    ghost stepped = { rank_stepped K.Kind.same };

    ghost settling = { rank_settling };

    fn row(&mut self, turn: &Turn<'_, K>) -> Result<u64, Fault> {
        let next = turn.shown()?;
        self.state.step(next, turn.window().cell(next));
        Ok(self.rank())
    }

    fn settle(&mut self, _next: usize, _last: (usize, usize)) {}

    fn keep_mark(&self) -> usize {
        self.state.next
    }
}

// PERCENT_RANK's fraction: the rows before the group, divided by the rows but one.
pub struct PercentRankFraction;

impl Fraction for PercentRankFraction {
    ghost fraction = { percent_rank };

    fn of(group: (usize, usize), rows: usize) -> f64 {
        fraction(group.0, rows.saturating_sub(1).max(1))
    }
}

// PERCENT_RANK.
pub type PercentRank<K> = FractionEvaluator<PercentRankFraction, K>;
