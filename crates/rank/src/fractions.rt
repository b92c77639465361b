// Ported from `rank.rs` and `cume_dist.rs` of the crate datafusion-functions-window 55.0.0 (Apache-2.0),
// and changed: PERCENT_RANK and CUME_DIST are one evaluator, over the fraction that each gives.
ghost use Rattle.std.specs.Prelude.{◌≡◌, ℕ, true, false, List, Option, Float};
ghost use Rattle.partition.specs.Peers.{Group};
ghost use Rattle.rank.specs.Fractions.{fraction_meaning, new_evaluator};
ghost use Rattle.rank.specs.FractionsLemmas.{fraction_lawful};
ghost use Rattle.rank.specs.Groups.{Within};
ghost use Rattle.rank.specs.Laws.{GroupLaw};

use crate::graded::{Graded, evaluate_graded};
use column::fault::Fault;
use column::kind::Kind;
use column::output::Output;
use evaluator::evaluator::Evaluator;
use partition::whole::WholePartition;
use std::marker::PhantomData;

// A fraction of all rows that the rows of a peer group are given, whatever the group's number.
pub trait Fraction {
    ghost fraction: { ℕ → Group → ℕ → Float };

    fn of(group: (usize, usize), rows: usize) -> f64
        requires { Within 0 group rows }
        ensures { (number : ℕ) → result ≡ fraction number group rows };
}

// The window function that answers such a fraction.
#[derive(Drop)]
pub struct FractionEvaluator<F, K> {
    kind: PhantomData<(F, K)>,
}

impl<F: Fraction, K: Kind> FractionEvaluator<F, K> {
    pub fn new() -> FractionEvaluator<F, K>
        ensures is { result ≡ new_evaluator }
        ensures law { (rows : List (Option K)) → GroupLaw K.Kind.same rows }
    {
        FractionEvaluator { kind: PhantomData }
    }
}

impl<F: Fraction, K: Kind> Graded for FractionEvaluator<F, K> {
    type Grade = f64;

    ghost graded = { λ e. F.Fraction.fraction };

    fn grade(&self, _number: usize, group: (usize, usize), rows: usize) -> f64 {
        F::of(group, rows)
    }
}

impl<F: Fraction, K: Kind> Evaluator for FractionEvaluator<F, K> {
    type Value = K;

    type Answer = f64;

    const WANTS_FRAMES: bool = false;

    const WANTS_GROUPS: bool = true;

    ghost WANTS_FRAMES = { false };

    ghost WANTS_GROUPS = { true };

    ghost meaning = { λ e. fraction_meaning F.Fraction.fraction K.Kind.same };

    ghost renewed = { λ e. new_evaluator };

    ghost lawful = { λ e. fraction_lawful F.Fraction.fraction K.Kind.same };

    fn fresh(&self) -> FractionEvaluator<F, K> {
        FractionEvaluator::new()
    }

    fn evaluate_all<O: Output<f64>>(
        &self,
        rows: &WholePartition<'_, K>,
        out: &mut O,
    ) -> Result<(), Fault> {
        evaluate_graded(self, rows, out)
    }
}
