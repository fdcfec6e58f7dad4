//! Theorems about runs, over any order and any pools: each function here does nothing, and its contract is a theorem.
ghost use Rattle.question.specs.Theorems.{OneAnswer, OutStays, WordsStay, MoreWords, SameWords, RunsRise, Criterion};
ghost use Rattle.question.specs.Theorems.{HeightCounts, WeightGoesOn, LongWeighs, RoundsFind, HeavyByRounds};
ghost use Rattle.question.specs.Designs.{Designs};
ghost use Rattle.question.specs.Edges.{Edges};

use model::orders::Order;
use model::pools::Pool;

/// A question has at most one answer that says whether the goal is in reach, and by which climb.
pub fn one_answer<P: Pool>(pool: &P)
    ensures { OneAnswer (P.Pool.words pool.now) }
{}

/// A goal at which no run ends stays out of reach, after any step and after any run.
pub fn out_stays_out<P: Pool>(pool: &P)
    ensures { OutStays (P.Pool.words pool.now) }
{}

/// No word leaves a pool, runs survive a larger one, and pools with the same words have the same climbs and verdicts.
pub fn more_words_more_runs<P: Pool, Q: Pool>(pool: &P, other: &Q)
    ensures stay { WordsStay (P.Pool.words pool.now) }
    ensures more { MoreWords (P.Pool.words pool.now) (Q.Pool.words other.now) }
    ensures same { SameWords (P.Pool.words pool.now) (Q.Pool.words other.now) }
{}

/// Where no rule falls, runs only rise, never come back to a stage that they left, and have rises as climbs; and no rise has more rules than there are.
pub fn runs_rise<O: Order, P: Pool>(order: &O, pool: &P)
    ensures { RunsRise (P.Pool.words pool.now) (O.Order.stages order.now) (O.Order.above order.now) }
{}

/// Some run has exactly this climb if and only if the climb is a rise and each of its rules can be supplied with a word that fits, by the pool or by an earlier rule of the climb.
pub fn climbs_by_supply<P: Pool>(pool: &P)
    ensures { Criterion (P.Pool.words pool.now) }
{}

/// The weight of a climb by recursion, with heights that count beginnings. A climb of five rules or more is too heavy.
pub fn weights_add_up()
    ensures height { HeightCounts }
    ensures goes_on { WeightGoesOn }
    ensures long { LongWeighs }
{}

/// Each round finds the heaviest rise of so many rules; and where no rule falls, as many rounds as there are rules find whether some rise is too heavy.
pub fn heavy_by_rounds<O: Order>(order: &O)
    ensures most { RoundsFind }
    ensures heavy { HeavyByRounds (O.Order.stages order.now) (O.Order.above order.now) }
{}

/// Worked designs, and cases at the edge of the definitions.
pub fn worked_designs()
    ensures designs { Designs }
    ensures edges { Edges }
{}
