//! The bits of a climb.
ghost use Rattle.std.specs.Prelude.{◌≡◌, ◌<◌, ◌≤◌, [], ◌∷◌, length, MatchResult};
ghost use Rattle.std.specs.List.{flat_map};
ghost use Rattle.question.specs.Lists.{In};
ghost use Rattle.question.specs.Rises.{weight, weight_limit};
ghost use Rattle.question.specs.Rises.{begun as begun_at};
ghost use Rattle.question.specs.Rows.{held};
ghost use Rattle.question.specs.Rules.{rules_of, words_of, Climbing};
ghost use Rattle.question.specs.Horns.{bit};

use crate::begun::{LIMIT, TooHeavy, beginnings, begun, holds};
use crate::row::Row;
use crate::rule::{Rule, changing};
use arrayvec::ArrayVec;

/// The bit of rule `goal` of a climb, at the stage before rule `at`, once `begun` is read.
#[derive(Clone, Copy, Default)]
pub(crate) struct Slot {
    at: u8,
    goal: u8,
    begun: Row<4>,
}

/// The bits of a climb that is not too heavy. The number of a bit is its place.
#[derive(Drop)]
pub(crate) struct Bits {
    slots: ArrayVec<Slot, LIMIT>,
    ghost short: { length slots.items ≤ 11 },
}

impl Slot {
    ghost use Rattle.question.specs.Bits.{same_bit, bit_of};

    /// Whether this is that bit.
    // Kept beside the derived equality, and as three values here and below: the word is a slice, which a slot would copy, and a
    // struct with the slice would be built at each call from the same three.
    fn is(&self, at: u8, goal: u8, begun: &[u8]) -> bool
        ensures { result ≡ same_bit (bit at goal begun.now) (bit_of self.now) }
    {
        at == self.at && goal == self.goal && holds(&self.begun, begun)
    }
}

impl Bits {
    ghost use Rattle.question.specs.Bits.{place, bits_of, Puts, bits_for, Tabled};
    ghost use Rattle.question.specs.Coding.{SetOf};

    /// The bits of a climb, if it is not too heavy.
    pub(crate) fn of(rules: &[Rule], climb: &[u8]) -> Result<Bits, TooHeavy>
        requires { Climbing rules.now climb.now }
        ensures { MatchResult result (Tabled (rules_of rules.now) climb.now) (λ _. weight_limit < weight (rules_of rules.now) climb.now) }
    {
        let mut table = Bits {
            slots: ArrayVec::new(),
        };
        let n = climb.len() as u8;
        for i in 0..n {
            let rule = changing(rules, climb, i);
            table.put_stage(rules, rule.from, i, n)?;
            table.put_words(i, i + 1, beginnings(&rule.left).as_slice())?;
        }
        Ok(table)
    }

    /// The number of a bit of the climb.
    pub(crate) fn number(&self, at: u8, goal: u8, begun: &[u8]) -> u8
        requires { In (bit at goal begun.now) (bits_of self.now) }
        ensures is { result ≡ place (bit at goal begun.now) (bits_of self.now) }
        ensures below { result < 11 }
    {
        let slots = self.slots.as_slice();
        let place = slots.iter().position(|slot| slot.is(at, goal, begun));
        place.unwrap() as u8
    }

    /// The set of one bit of the climb.
    pub(crate) fn only(&self, at: u8, goal: u8, begun: &[u8]) -> u16
        requires { In (bit at goal begun.now) (bits_of self.now) }
        ensures { SetOf (bits_of self.now) (bit at goal begun.now ∷ []) result }
    {
        1 << self.number(at, goal, begun)
    }

    // `at` and `n` are kept as two numbers, here and below: they are the range of the loop over rules.
    /// Adds the bits with nothing read, and with what the stage's staying rules begin to read.
    fn put_stage(&mut self, rules: &[Rule], stage: u8, at: u8, n: u8) -> Result<(), TooHeavy>
        requires { at < n }
        ensures { Puts (flat_map (bits_for at n) ([] ∷ begun_at (rules_of rules.now) stage)) self.old result self.new }
    {
        let words = begun(rules, stage)?;
        self.put_goals(at, n, &Row::default())?;
        self.put_words(at, n, words.as_slice())
    }

    /// Adds the bits with each of the words read.
    fn put_words(&mut self, at: u8, n: u8, words: &[Row<4>]) -> Result<(), TooHeavy>
        ensures { Puts (flat_map (bits_for at n) (words_of words.now)) self.old result self.new }
    {
        for word in words {
            self.put_goals(at, n, word)?;
        }
        Ok(())
    }

    /// Adds the bits of the rules before the `n`-th with the word read.
    fn put_goals(&mut self, at: u8, n: u8, word: &Row<4>) -> Result<(), TooHeavy>
        ensures { Puts (bits_for at n (held word.now)) self.old result self.new }
    {
        for goal in at..n {
            self.put(at, goal, *word)?;
        }
        Ok(())
    }

    /// Adds a bit, if there is room for it.
    fn put(&mut self, at: u8, goal: u8, begun: Row<4>) -> Result<(), TooHeavy>
        ensures { Puts (bit at goal (held begun) ∷ []) self.old result self.new }
    {
        self.slots.try_push(Slot { at, goal, begun })?;
        Ok(())
    }
}
