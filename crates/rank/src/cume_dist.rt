// Ported from `cume_dist.rs` of the crate datafusion-functions-window 55.0.0 (Apache-2.0), and changed:
// the planner's part is left out, the caller lends the output, and the evaluator is one with PERCENT_RANK's.
ghost use Rattle.rank.specs.Fractions.{cume_dist};

use crate::fractions::{Fraction, FractionEvaluator};
use crate::graded::fraction;

// CUME_DIST's fraction: the rows up to the group's end, divided by the rows.
pub struct CumeDistFraction;

impl Fraction for CumeDistFraction {
    ghost fraction = { cume_dist };

    fn of(group: (usize, usize), rows: usize) -> f64 {
        fraction(group.1, rows)
    }
}

// CUME_DIST.
pub type CumeDist<K> = FractionEvaluator<CumeDistFraction, K>;
