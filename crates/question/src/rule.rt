//! The rules of a session.
ghost use Rattle.std.specs.Prelude.{◌≡◌, ◌<◌, ◌≤◌, length, slice_index};
ghost use Rattle.model.specs.Symbols.{Symbols};
ghost use Rattle.question.specs.Rises.{stays_at};
ghost use Rattle.question.specs.Rises.{changing as changing_at};
ghost use Rattle.question.specs.Rows.{IsMade};
ghost use Rattle.question.specs.Rules.{rule_of, rules_of};

use crate::row::{Row, WordError};

/// So many symbols go into a side of a rule.
const SIDE: usize = 4;

/// At stage `from`, a word that begins with `left` gives the word with `right` in its place, and the stage becomes `to`.
#[derive(Clone, Copy, Debug, Default, Eq, PartialEq)]
pub struct Rule {
    pub from: u8,
    pub left: Row<4>,
    pub to: u8,
    pub right: Row<4>,
}

impl Rule {
    /// The rule with these sides, if each has at most four bytes and each byte is a symbol.
    pub fn new(from: u8, left: &[u8], to: u8, right: &[u8]) -> Result<Rule, WordError>
        ensures { IsMade ((length left.now ≤ 4) × (length right.now ≤ 4)) (Symbols left.now × Symbols right.now) (λ rule. rule_of rule ≡ record { from = from; left = left.now; to = to; right = right.now }) result }
    {
        // The lengths of both sides are judged before the symbols of either.
        if right.len() > SIDE {
            return Err(WordError::TooLong);
        }
        Ok(Rule {
            from,
            left: Row::try_from(left)?,
            to,
            right: Row::try_from(right)?,
        })
    }

    /// Whether the rule belongs to the stage and does not change it.
    pub(crate) fn stays_at(&self, stage: u8) -> bool
        ensures { result ≡ stays_at stage (rule_of self.now) }
    {
        self.from == stage && self.to == stage
    }
}

/// Rule `i` of a climb.
// Rules and climb are kept as two, and a place of the climb as a number with a clause: `Plan` joins them once there are bits.
pub(crate) fn changing(rules: &[Rule], climb: &[u8], i: u8) -> Rule
    requires { (i < length climb.now) × (slice_index climb.now i < length rules.now) }
    ensures { rule_of result ≡ changing_at (rules_of rules.now) climb.now i }
{
    rules[usize::from(climb[usize::from(i)])]
}
