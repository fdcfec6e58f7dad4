//! The clauses of a climb.
ghost use Rattle.std.specs.Prelude.{◌≡◌, ◌+◌, ◌<◌, ◌≤◌, List, [], length};
ghost use Rattle.question.specs.Lists.{In};
ghost use Rattle.question.specs.Rows.{held};
ghost use Rattle.question.specs.Horns.{Bit, base, spelled};
ghost use Rattle.question.specs.Bits.{bits_of, Met};
ghost use Rattle.question.specs.Coding.{suppliers_of, clauses_of, SetOf, Added, Right};
ghost use Rattle.question.specs.Plans.{rules_in, staying_horns, pair_horns};

use crate::bits::Bits;
use crate::clause::Clause;
use crate::plan::Plan;
use crate::row::Row;
use crate::rule::Rule;
use arrayvec::ArrayVec;

/// A climb has at most 4 · 4 pairs of rules, and a pair at most 4 clauses for each of 32 staying rules and 4 for the changing one.
const MOST: usize = 2112;

/// The clauses of a climb with suppliers.
#[derive(Drop)]
pub(crate) struct Clauses {
    items: ArrayVec<Clause, MOST>,
}

impl Clauses {
    /// No clause.
    pub(crate) fn none() -> Clauses
        ensures { clauses_of result ≡ [] }
    {
        Clauses {
            items: ArrayVec::new(),
        }
    }

    /// The clauses in order.
    pub(crate) fn as_slice(&self) -> &[Clause]
        ensures { result.now ≡ clauses_of self.now }
    {
        self.items.as_slice()
    }

    /// Makes these the clauses of the plan.
    pub(crate) fn fill(&mut self, plan: &Plan<'_>)
        ensures { Right (rules_in plan.now) plan.now.climb.now (suppliers_of plan.now.suppliers.now) (clauses_of self.new) }
    {
        self.items.clear();
        let n = plan.climb.len() as u8;
        for i in 0..n {
            for j in i..n {
                self.add_pair(plan, i, j);
            }
        }
    }

    /// Adds the clauses at the stage before rule `i` of words that rule `j` is to use.
    // The room is kept as a clause, here and below: each function needs another.
    fn add_pair(&mut self, plan: &Plan<'_>, i: u8, j: u8)
        requires pair { (i ≤ j) × (j < length plan.now.climb.now) }
        requires room { length (clauses_of self.old) + 132 ≤ 2112 }
        ensures { Added plan.now.bits.now 132 (pair_horns plan.now i j) self.old self.new }
    {
        self.stay(plan, i, j);
        if i < j {
            self.items.push(Clause {
                head: plan.bits.number(i, j, &[]),
                symbol: None,
                word: Row::default(),
                body: plan.bits.only(i + 1, j, &[]),
            });
        } else {
            self.spell(plan.bits, i, i, &plan.rule(i), plan.served(i));
        }
    }

    /// Adds the clauses of the staying rules at the stage before rule `i`, for words that rule `j` is to use.
    fn stay(&mut self, plan: &Plan<'_>, i: u8, j: u8)
        requires pair { (i ≤ j) × (j < length plan.now.climb.now) }
        requires room { length (clauses_of self.old) + 128 ≤ 2112 }
        ensures { Added plan.now.bits.now 128 (staying_horns plan.now i j) self.old self.new }
    {
        let stage = plan.rule(i).from;
        let body = plan.bits.only(i, j, &[]);
        for rule in plan.rules.iter().filter(|rule| rule.stays_at(stage)) {
            self.spell(plan.bits, i, j, rule, body);
        }
    }

    /// Adds the clauses that read the rule's left side symbol by symbol, and then ask that each bit of `body` accepts right·x.
    fn spell(&mut self, bits: &Bits, at: u8, goal: u8, rule: &Rule, body: u16)
        requires room { length (clauses_of self.old) + 4 ≤ 2112 }
        requires met { Met (bits_of bits.now) at goal (held rule.now.left) }
        ensures { (bs : List Bit) → SetOf (bits_of bits.now) bs body →
            Added bits.now 4 (spelled (base at goal) (held rule.now.left) (held rule.now.right) bs) self.old self.new }
    {
        let word = rule.left.word();
        let Some((last, front)) = word.split_last() else {
            self.items.push(Clause {
                head: bits.number(at, goal, &[]),
                symbol: None,
                word: rule.right,
                body,
            });
            return;
        };
        for (m, symbol) in front.iter().enumerate() {
            self.items.push(Clause {
                head: bits.number(at, goal, &word[..m]),
                symbol: Some(*symbol),
                word: Row::default(),
                body: bits.only(at, goal, &word[..m + 1]),
            });
        }
        self.items.push(Clause {
            head: bits.number(at, goal, front),
            symbol: Some(*last),
            word: rule.right,
            body,
        });
    }
}
