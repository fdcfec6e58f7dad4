//! The search for the earliest climb.
ghost use Rattle.std.specs.Prelude.{◌≡◌, ℕ, ◌<◌, ◌≤◌, length, if◌then◌else◌, Decides, MatchOption};
ghost use Rattle.question.specs.Feasible.{Servable};
ghost use Rattle.question.specs.Rules.{rule_of, rules_of};
ghost use Rattle.question.specs.Search.{Changes, Passes, ShortRise, Sought};

use crate::climb::Climb;
use crate::feasible::feasible;
use crate::rule::Rule;
use crate::table::Cells;
use model::pools::Pool;

impl Rule {
    /// Whether the rule belongs to the stage and changes it.
    fn changes_at(&self, stage: u8) -> bool
        ensures { Decides result (Changes (rule_of self.now) stage) }
    {
        self.from == stage && self.to != stage
    }
}

// Kept as a flag beside a number: past the climb's end the one number says nothing, and an Option would be taken apart at each use.
/// How many numbers there are to choose from at a place of a climb: those of the rules, and past the climb's end one that says nothing.
fn choices(rules: &[Rule], within: bool) -> u8
    requires { length rules.now ≤ 32 }
    ensures { result ≡ (if within then length rules.now else 1) }
{
    if within { rules.len() as u8 } else { 1 }
}

/// The stage after a place of a climb, if rule `k` fits there. Past the climb's end the stage stays.
fn next(rules: &[Rule], within: bool, stage: u8, k: u8) -> Option<u8>
    requires { k < (if within then length rules.now else 1) }
    ensures { MatchOption result ((q : ℕ) → Passes (rules_of rules.now) within stage k q → ⊥) (λ q. Passes (rules_of rules.now) within stage k q) }
{
    if !within {
        return Some(stage);
    }
    let rule = &rules[usize::from(k)];
    rule.changes_at(stage).then_some(rule.to)
}

// Kept as rules, stage and goal, of at most 32 rules: only this and the weighing take them, as `judge` was lent them.
/// The earliest rise of at most four rules from `stage` to `goal` that is not too heavy and that the pool serves.
pub(crate) fn earliest<Q: Pool>(
    pool: &Q,
    rules: &[Rule],
    stage: u8,
    goal: u8,
    cells: &mut Cells,
) -> Option<Climb>
    requires { length rules.now ≤ 32 }
    ensures { Sought (ShortRise (rules_of rules.now) stage goal (Servable (rules_of rules.now) (Q.Pool.words pool.now))) result }
{
    // Kept as nested loops: each goes on from the stage that the one around it reached, which one loop would have to keep in a
    // list, and the first climb that serves leaves all of them.
    'search: {
        for n in 0..=4 {
            for a in 0..choices(rules, n > 0) {
                let Some(p) = next(rules, n > 0, stage, a) else {
                    continue;
                };
                for b in 0..choices(rules, n > 1) {
                    let Some(q) = next(rules, n > 1, p, b) else {
                        continue;
                    };
                    for c in 0..choices(rules, n > 2) {
                        let Some(s) = next(rules, n > 2, q, c) else {
                            continue;
                        };
                        for d in 0..choices(rules, n > 3) {
                            let Some(end) = next(rules, n > 3, s, d) else {
                                continue;
                            };
                            if end != goal {
                                continue;
                            }
                            let climb = [a, b, c, d];
                            if feasible(pool, rules, &climb[..usize::from(n)], cells) {
                                break 'search Some(Climb {
                                    rules: climb,
                                    len: n,
                                });
                            }
                        }
                    }
                }
            }
        }
        None
    }
}
