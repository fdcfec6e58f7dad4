//! A session: a stage, rules and heard words over an order and a pool.
ghost use Rattle.std.specs.Prelude.{◌≡◌, Decides};
ghost use Rattle.session.specs.Calls.{admit, hear, fire, numbered, stands_at};
ghost use Rattle.session.specs.Checks.{Checked};
ghost use Rattle.session.specs.Contents.{Content};
ghost use Rattle.session.specs.Ledger.{fresh, InPool, stage_checks, ready_checks};
ghost use Rattle.question.specs.Rows.{held};
ghost use Rattle.question.specs.Rules.{rule_of};
ghost use Rattle.question.specs.Runs.{rule as rule_at};
ghost use Rattle.session.specs.Sessions.{ledger, answer, news, Notes, Kept, Served, Asked};

use crate::fault::Fault;
use crate::heard::Heard;
use crate::limits::{LIST_USED, RULE_PLACES, WORD_LIMIT};
use crate::rewrite::rewritten;
use crate::table::Table;
use crate::telling::tell;
use model::orders::Order;
use model::pools::{Either, Pool};
use question::row::Row;
use question::rule::Rule;
use question::verdict::{Verdict, judge};

/// Whether the pool had a heard word before.
#[derive(Clone, Copy, PartialEq, Eq, Debug)]
pub enum News {
    Known,
    New,
}

/// Whether some run ends at a goal; and the number of rules in the earliest climb of those that do.
// Kept beside Option<u8>: its names are the answers to an ask, out of reach and in reach.
#[derive(Clone, Copy, PartialEq, Eq, Debug)]
pub enum Reach {
    Out,
    In(u8),
}

/// A stage of the order, rules, and the words that were heard. Its pool is the given one and these words.
#[derive(Drop)]
pub struct Session<O, P> {
    order: O,
    pool: P,
    stage: u8,
    rules: Table<Rule, RULE_PLACES>,
    heard: Heard,
}

impl<O: Order, P: Pool> Session<O, P> {
    /// A session at stage 0, with no rules and nothing heard.
    pub fn new(order: O, pool: P) -> Session<O, P>
        ensures given { (result.order ≡ order) × (result.pool ≡ pool) }
        ensures fresh { ledger result ≡ fresh }
    {
        Session {
            order,
            pool,
            stage: 0,
            rules: Table::new(),
            heard: Table::new(),
        }
    }

    /// Does nothing: the ledger settles the whole content of both tables, unused places and symbols too.
    pub fn settled(&self)
        ensures { Content self.now }
    {}

    /// A rule leads from a stage to a stage.
    fn check_stages(&self, from: u8, to: u8) -> Result<(), Fault>
        ensures { Checked (stage_checks (O.Order.stages self.now.order) from to) result (λ _. Unit {0}) }
    {
        if !self.order.has_stage(from) || !self.order.has_stage(to) {
            return Err(Fault::NoSuchStage);
        }
        Ok(())
    }

    /// Whether the session's pool has the word.
    fn knows(&self, word: &[u8]) -> bool
        ensures { Decides result (InPool (P.Pool.words self.now.pool) (ledger self.now) word.now) }
    {
        Either(&self.pool, &self.heard).holds(word)
    }

    /// Stores the word if the pool lacks it.
    fn note(&mut self, word: Row<WORD_LIMIT>) -> Result<News, Fault>
        ensures kept { Kept self.old self.new }
        ensures notes { Notes (P.Pool.words self.old.pool) (ledger self.old) (held word) result (ledger self.new) }
    {
        if self.knows(word.word()) {
            return Ok(News::Known);
        }
        if self.heard.is_full() {
            return Err(Fault::HeardFull);
        }
        self.heard.add(word);
        Ok(News::New)
    }

    /// Admits a rule, and answers its number.
    pub fn admit(&mut self, from: u8, left: &[u8], to: u8, right: &[u8]) -> Result<u8, Fault>
        ensures { Served O.Order P.Pool self.old (admit (record { from = from; left = left.now; to = to; right = right.now })) (answer numbered result) self.new }
    {
        self.check_stages(from, to)?;
        let rule = Rule::new(from, left, to, right)?;
        if !self.order.at_or_above(to, from) {
            return Err(Fault::Falls);
        }
        if self.rules.is_full() {
            return Err(Fault::RulesFull);
        }
        Ok(self.rules.add(rule) as u8)
    }

    /// Hears a word, and stores it if the pool lacks it.
    pub fn hear(&mut self, word: &[u8]) -> Result<News, Fault>
        ensures { Served O.Order P.Pool self.old (hear word.now) (answer news result) self.new }
    {
        self.note(Row::try_from(word)?)
    }

    /// The rule of that number, if it leads from the present stage and the pool has the word.
    fn ready(&self, number: u8, word: &[u8]) -> Result<Rule, Fault>
        ensures { Checked (ready_checks (P.Pool.words self.now.pool) (ledger self.now) number word.now) result (λ rule. rule_of rule ≡ rule_at (ledger self.now).rules number) }
    {
        let place = self.rules.as_slice().get(usize::from(number));
        let rule = *place.ok_or(Fault::NoSuchRule)?;
        if rule.from != self.stage {
            return Err(Fault::OtherStage);
        }
        if !self.knows(word) {
            return Err(Fault::NotInPool);
        }
        Ok(rule)
    }

    /// Makes the step by the rule of that number on a word of the pool, and answers the stage.
    pub fn fire(&mut self, number: u8, word: &[u8]) -> Result<u8, Fault>
        ensures { Served O.Order P.Pool self.old (fire number word.now) (answer stands_at result) self.new }
    {
        let row = Row::try_from(word)?;
        let rule = self.ready(number, word)?;
        let made = rewritten(&rule, &row)?;
        self.note(made)?;
        self.stage = rule.to;
        Ok(rule.to)
    }
}
