//! Ladders, flags and pairs of them.
use model::orders::{Flags, Ladder, Order, Pair};

#[test]
fn ladders(rt: HostRuntime) {
    let ladder = Ladder(5);
    assert_eq!(rt; ladder.size(), 5);
    assert!(rt; ladder.has_stage(4));
    assert!(rt; !ladder.has_stage(5));
    assert!(rt; ladder.at_or_above(4, 4));
    assert!(rt; ladder.at_or_above(4, 0));
    assert!(rt; !ladder.at_or_above(3, 4));
    assert!(rt; !ladder.at_or_above(5, 0));
    assert_eq!(rt; Ladder(64).size(), 64);
    assert_eq!(rt; Ladder(65).size(), 0);
    assert!(rt; !Ladder(0).at_or_above(0, 0));
}

#[test]
fn flags(rt: HostRuntime) {
    let flags = Flags(3);
    assert_eq!(rt; flags.size(), 8);
    assert!(rt; flags.at_or_above(5, 1));
    assert!(rt; !flags.at_or_above(6, 1));
    assert!(rt; !flags.at_or_above(9, 1));
    assert_eq!(rt; Flags(6).size(), 64);
    assert_eq!(rt; Flags(7).size(), 0);
    assert_eq!(rt; Flags(255).size(), 0);
    assert_eq!(rt; Flags(0).size(), 1);
}

#[test]
fn pairs(rt: HostRuntime) {
    assert_eq!(rt; Pair(Ladder(8), Flags(3)).size(), 64);
    assert_eq!(rt; Pair(Ladder(9), Flags(3)).size(), 0);
    assert_eq!(rt; Pair(Ladder(65), Flags(0)).size(), 0);
    let pair = Pair(Ladder(3), Flags(2));
    assert_eq!(rt; pair.size(), 12);
    assert!(rt; pair.at_or_above(6, 2));
    assert!(rt; !pair.at_or_above(6, 1));
    assert!(rt; !pair.at_or_above(12, 0));
    let nested = Pair(pair, Ladder(2));
    assert_eq!(rt; nested.size(), 24);
    assert!(rt; nested.at_or_above(13, 4));
    assert!(rt; !nested.at_or_above(12, 5));
}
