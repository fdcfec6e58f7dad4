//! The word that a rule makes of a word.
ghost use Rattle.std.specs.Prelude.{◌≡◌};
ghost use Rattle.question.specs.Rows.{held};
ghost use Rattle.question.specs.Rules.{rule_of};
ghost use Rattle.session.specs.Checks.{Checked};
ghost use Rattle.session.specs.Ledger.{result_checks, made_by};

use crate::fault::Fault;
use crate::limits::WORD_LIMIT;
use question::row::Row;
use question::rule::Rule;

/// The word that `rule` makes of `word`.
pub(crate) fn rewritten(rule: &Rule, word: &Row<WORD_LIMIT>) -> Result<Row<WORD_LIMIT>, Fault>
    ensures { Checked (result_checks (rule_of rule.now) (held word.now)) result (λ row. held row ≡ made_by (rule_of rule.now) (held word.now)) }
{
    let rest = word
        .word()
        .strip_prefix(rule.left.word())
        .ok_or(Fault::OtherBeginning)?;
    Row::joined(rule.right.word(), rest).map_err(|_| Fault::ResultTooLong)
}
