//! A climb with a supplier for each of its rules.
ghost use Rattle.question.specs.Coding.{Ready, suppliers_of};

use crate::bits::Bits;
use crate::rule::{Rule, changing};

/// Where a rule of a climb takes its word from: the pool, or what an earlier rule of the climb makes.
pub(crate) type Supplier = Option<u8>;

/// A climb, the rules that its numbers mean, its bits, and a supplier for each of its rules.
#[derive(Clone, Copy)]
pub(crate) struct Plan<'a> {
    pub bits: &'a Bits,
    pub rules: &'a [Rule],
    pub climb: &'a [u8],
    pub suppliers: &'a [Supplier],
    ghost ready: { Ready bits.now rules.now climb.now (suppliers_of suppliers.now) },
}

impl Plan<'_> {
    ghost use Rattle.std.specs.Prelude.{◌≡◌, suc, ◌<◌, length, ◌==◌};
    ghost use Rattle.question.specs.Rises.{changing as changing_at};
    ghost use Rattle.question.specs.Rules.{rule_of};
    ghost use Rattle.question.specs.Coding.{SetOf};
    ghost use Rattle.question.specs.Bits.{bits_of};
    ghost use Rattle.question.specs.Plans.{rules_in, supplier_in, served_in};

    /// Rule `i` of the climb.
    // That `i` is a place of the climb is kept as a clause, here and in `compile`: places are counted by loops over its length.
    pub(crate) fn rule(&self, i: u8) -> Rule
        requires { i < length self.now.climb.now }
        ensures { rule_of result ≡ changing_at (rules_in self.now) self.now.climb.now i }
    {
        changing(self.rules, self.climb, i)
    }

    /// Whether rule `j` supplies rule `k`.
    fn supplies(&self, j: u8, k: u8) -> bool
        requires { k < length self.now.climb.now }
        ensures { result ≡ (supplier_in self.now k == suc j) }
    {
        self.suppliers[usize::from(k)] == Some(j)
    }

    /// The set of the bits that what rule `j` makes has to serve.
    pub(crate) fn served(&self, j: u8) -> u16
        requires { j < length self.now.climb.now }
        ensures { SetOf (bits_of self.now.bits.now) (served_in self.now j) result }
    {
        // Kept as a loop: as a `filter` and a `fold`, it stayed open that the fold's closure may be called for each rule.
        let mut set = 0;
        for k in j + 1..self.climb.len() as u8 {
            if self.supplies(j, k) {
                set |= self.bits.only(j + 1, k, &[]);
            }
        }
        set
    }
}
