//! Whether some rise is too heavy.
ghost use Rattle.std.specs.Prelude.{◌≡◌, ℕ, ◌<◌, ◌≤◌, length, Decides, Option as Maybe};
ghost use Rattle.question.specs.Runs.{rule};
ghost use Rattle.question.specs.Rises.{Heavy};
ghost use Rattle.question.specs.Rises.{height as height_at};
ghost use Rattle.question.specs.Rounds.{by_rule, one_more, Over};
ghost use Rattle.question.specs.Rounds.{adds as adds_at};
ghost use Rattle.question.specs.Rules.{rules_of};
ghost use Rattle.question.specs.Weighing.{cap, capped, Shows, NeverLong};

use crate::begun::{LIMIT, begun};
use crate::rule::Rule;

/// Stands for each weight above the limit.
// Kept as a number: weights are added and compared, and stop at this one.
const OVER: usize = LIMIT + 1;

/// A stage is a byte.
const STAGES: usize = 256;

/// A weight for each stage that has one.
// Kept in bytes: it is filled and copied once for each rule, and as `usize` it takes eight times the room.
type Weights = [Option<u8>; STAGES];

/// How many different beginnings the stage's staying rules have, or `OVER`.
fn height(rules: &[Rule], stage: u8) -> usize
    ensures { result ≡ cap (height_at (rules_of rules.now) stage) }
{
    begun(rules, stage).map_or(OVER, |words| words.len())
}

// Kept by the rule's number, here and below: so the definitions speak of it.
/// What rule `k` adds to the weight of a rise, before `n` more rules, or `OVER`.
fn adds(rules: &[Rule], k: usize, n: u8) -> usize
    requires { k < length rules.now }
    ensures { result ≡ cap (adds_at (rules_of rules.now) n k) }
{
    let rule = &rules[k];
    let high = (1 + usize::from(n)) * (1 + height(rules, rule.from));
    let wide = rule.left.word().len();
    (high + wide.saturating_sub(1)).min(OVER)
}

/// Whether there is a weight above the limit.
fn is_over(weight: Option<u8>) -> bool
    ensures { Decides result (Over weight) }
{
    weight.is_some_and(|weight| usize::from(weight) > LIMIT)
}

/// The weight of the heaviest rise that begins with rule `k`, where `rest` is that of the `n` rules after it.
fn by_rule(rules: &[Rule], k: usize, n: u8, rest: Option<u8>) -> Option<u8>
    requires { k < length rules.now }
    ensures { result ≡ capped (by_rule (rules_of rules.now) n (λ _. rest) (rule (rules_of rules.now) k).from k) }
{
    let rule = &rules[k];
    if rule.from == rule.to {
        return None;
    }
    let rest = rest?;
    Some((adds(rules, k, n) + usize::from(rest)).min(OVER) as u8)
}

/// By stage, the weights of the heaviest rises of one rule more, from those of `n` rules.
fn one_more(rules: &[Rule], n: u8, weights: &Weights) -> Weights
    ensures { (f : ℕ → Maybe ℕ) → Shows f weights.now → Shows (one_more (rules_of rules.now) n f) result }
{
    let mut longer = [None; STAGES];
    for (k, rule) in rules.iter().enumerate() {
        let from = usize::from(rule.from);
        let rest = weights[usize::from(rule.to)];
        // A weight that is missing comes before each that is not.
        longer[from] = longer[from].max(by_rule(rules, k, n, rest));
    }
    longer
}

/// Whether some rise from `stage` to `goal` is too heavy.
// Rules, stage and goal are kept as in `search`, with the number of rules as a clause.
pub(crate) fn is_heavy(rules: &[Rule], stage: u8, goal: u8) -> bool
    requires { length rules.now ≤ 32 }
    ensures { NeverLong (rules_of rules.now) → Decides result (Heavy (rules_of rules.now) stage goal) }
{
    let mut weights = [None; STAGES];
    weights[usize::from(goal)] = Some(0);
    for n in 0..rules.len() as u8 {
        weights = one_more(rules, n, &weights);
        if is_over(weights[usize::from(stage)]) {
            return true;
        }
    }
    false
}
