//! Whether some run has a given climb.
ghost use Rattle.std.specs.Prelude.{◌≡◌, ℕ, ◌<◌, ◌≤◌, ◌↔◌, ◌/◌, ◌%◌, [], ◌∷◌, length, drop, None, Decides};
ghost use Rattle.question.specs.Accepts.{Has};
ghost use Rattle.question.specs.Coding.{suppliers_of};
ghost use Rattle.question.specs.Plans.{rules_in};
ghost use Rattle.question.specs.Feasible.{Accepted, AcceptedIf, Pooled, Served, Servable, RunsBy};
ghost use Rattle.question.specs.Ways.{ways as ways_of};
ghost use Rattle.question.specs.Rules.{rules_of, Climbing};

use crate::bits::Bits;
use crate::compile::Clauses;
use crate::mark::has;
use crate::plan::{Plan, Supplier};
use crate::rule::Rule;
use crate::saturation::saturate;
use crate::table::Cells;
use model::pools::Pool;
use model::sieve::{MarkTest, Sieve, wanted_where};

/// The test whether a mark has the bit.
#[derive(Clone, Copy)]
struct WithBit {
    bit: u8,
    ghost below: { bit < 16 },
}

impl MarkTest for WithBit {
    ghost means = { λ test m. Has m test.bit };

    fn holds(&self, m: u16) -> bool {
        has(m, self.bit)
    }
}

// The table and its first mark are kept as two: both go straight into a sieve.
/// Whether the bit accepts some word of the pool, by a saturated table.
fn accepts_some<Q: Pool>(pool: &Q, table: &[u16], first: u16, bit: u8) -> bool
    requires { bit < 16 }
    ensures { Accepted (Q.Pool.words pool.now) table.now first bit result }
{
    let wanted = wanted_where(&WithBit { bit });
    pool.meets(Sieve {
        table,
        first,
        wanted: &wanted,
    })
}

/// Whether the bit of each rule that the pool supplies accepts some word of the pool, by a saturated table.
fn accepts_all<Q: Pool>(pool: &Q, table: &[u16], first: u16, suppliers: &[Supplier]) -> bool
    requires { length suppliers.now ≤ 4 }
    ensures { Pooled (Q.Pool.words pool.now) table.now first (suppliers_of suppliers.now) result }
{
    suppliers.iter().enumerate().all(
        |(j, supplier)|
            requires { j < 16 }
            ensures { AcceptedIf (supplier.entry.now ≡ None) (Q.Pool.words pool.entry.now) table.entry.now first j result }
        { supplier.is_some() || accepts_some(pool, table, first, j as u8) },
    )
}

/// Whether the pool serves the climb of a plan, with the plan's suppliers.
fn serves<Q: Pool>(pool: &Q, plan: &Plan<'_>, clauses: &mut Clauses, table: &mut Cells) -> bool
    ensures { Served (rules_in plan.now) (Q.Pool.words pool.now) plan.now.climb.now (suppliers_of plan.now.suppliers.now) result }
{
    clauses.fill(plan);
    let first = saturate(clauses.as_slice(), table);
    accepts_all(pool, table, first, plan.suppliers)
}

/// How many ways there are to supply `n` rules, each by the pool or by an earlier rule.
fn ways(n: usize) -> u8
    requires { n ≤ 4 }
    ensures { result ≡ ways_of n }
{
    match n {
        0 | 1 => 1,
        2 => 2,
        3 => 6,
        _ => 24,
    }
}

/// The suppliers of four rules in one of the ways. Rule j has j + 1 to choose from: none for the pool, and the earlier rules.
fn suppliers(way: u8) -> [Supplier; 4]
    ensures { suppliers_of result ≡ 0 ∷ way % 2 ∷ way / 2 % 3 ∷ way / 6 ∷ [] }
{
    let numbers = [0, way % 2, way / 2 % 3, way / 6];
    numbers.map(|number| number.checked_sub(1))
}

/// Whether some run from the pool has exactly this climb, if it is a rise and not too heavy. Of one that is too heavy it says no.
pub(crate) fn feasible<Q: Pool>(pool: &Q, rules: &[Rule], climb: &[u8], table: &mut Cells) -> bool
    requires { Climbing rules.now climb.now }
    ensures decides { Decides result (Servable (rules_of rules.now) (Q.Pool.words pool.now) climb.now) }
    ensures runs { RunsBy (rules_of rules.now) (Q.Pool.words pool.now) climb.now result }
{
    let Ok(bits) = Bits::of(rules, climb) else {
        return false;
    };
    let mut clauses = Clauses::none();
    let n = climb.len();
    for way in 0..ways(n) {
        let suppliers = suppliers(way);
        let plan = Plan {
            bits: &bits,
            rules,
            climb,
            suppliers: &suppliers[..n],
        };
        if serves(pool, &plan, &mut clauses, table) {
            return true;
        }
    }
    false
}
