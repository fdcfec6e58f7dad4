//! The law of sessions, over any order and any pool: each function here does nothing, and its contract is a theorem.
ghost use Rattle.session.specs.Consequences.{LawHolds, HistoryGoesOn, OneOutcome, SomeOutcome, FireIsStep};
ghost use Rattle.session.specs.Histories.{TwoStages, NoStage};

use model::orders::Order;
use model::pools::Pool;

/// A history that follows the ledger is lawful: no stage comes again that was left, nor one that was called out of reach while nothing was added.
/// The history of no call, and of one call more.
pub fn law_holds<O: Order, P: Pool>(order: &O, pool: &P)
    ensures law { LawHolds (O.Order.stages order.now) (O.Order.above order.now) (P.Pool.words pool.now) }
    ensures history { HistoryGoesOn (O.Order.stages order.now) (O.Order.above order.now) (P.Pool.words pool.now) }
{}

/// A call has one outcome, and none is without; and the calls alone settle a history.
pub fn one_outcome<O: Order, P: Pool>(order: &O, pool: &P)
    ensures one { OneOutcome (O.Order.stages order.now) (O.Order.above order.now) (P.Pool.words pool.now) }
    ensures some { SomeOutcome (O.Order.stages order.now) (O.Order.above order.now) (P.Pool.words pool.now) }
{}

/// An accepted fire is one step of a run, and each step within the limits is an accepted fire.
pub fn fire_is_step<O: Order, P: Pool>(order: &O, pool: &P)
    ensures { FireIsStep (O.Order.stages order.now) (O.Order.above order.now) (P.Pool.words pool.now) }
{}

/// Two histories, worked out.
pub fn worked_histories()
    ensures two_stages { TwoStages }
    ensures no_stage { NoStage }
{}
