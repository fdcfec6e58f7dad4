//! The verdict on a goal.
ghost use Rattle.question.specs.Judging.{Answered};
ghost use Rattle.question.specs.Rules.{rules_of};

use crate::climb::Climb;
use crate::rule::Rule;
use crate::search::earliest;
use crate::table::{CELLS, clear};
use crate::weighing::is_heavy;
use model::orders::Order;
use model::pools::Pool;

/// So many rules there may be.
const MOST_RULES: usize = 32;

/// What is said of a goal.
#[derive(Clone, Copy, Debug, Eq, PartialEq)]
pub enum Verdict {
    /// No run ends at it.
    Out,
    /// Some run ends at it, and this is the earliest climb of such a run.
    In(Climb),
    /// Some rise to it weighs too much.
    TooHeavy,
}

/// Why nothing is said of a goal.
#[derive(Clone, Copy, Debug, Eq, PartialEq)]
pub enum Unjudged {
    /// There are more than 32 rules.
    TooManyRules,
    /// The workspace has fewer than 32,768 cells.
    TooFewCells,
}

/// The verdict on `goal`, from `stage` and the words of the pool. What it says is right where no rule falls in the order.
pub fn judge<O: Order, Q: Pool>(
    order: &O,
    pool: &Q,
    rules: &[Rule],
    stage: u8,
    goal: u8,
    workspace: &mut [u16],
) -> Result<Verdict, Unjudged>
    ensures { Answered (O.Order.stages order.now) (O.Order.above order.now) (Q.Pool.words pool.now) (rules_of rules.now) stage goal workspace.old result workspace.new }
{
    if rules.len() > MOST_RULES {
        return Err(Unjudged::TooManyRules);
    }
    let cells = workspace
        .first_chunk_mut::<CELLS>()
        .ok_or(Unjudged::TooFewCells)?;
    if is_heavy(rules, stage, goal) {
        return Ok(Verdict::TooHeavy);
    }
    let found = earliest(pool, rules, stage, goal, cells);
    clear(cells);
    Ok(found.map_or(Verdict::Out, Verdict::In))
}
