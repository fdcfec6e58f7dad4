//! Verdicts on worked designs, and at the edges of the weight limit.
use model::book::Book;
use model::keys::KnownKeys;
use model::orders::Ladder;
use model::pools::{Either, Pool};
use model::symbols::SymbolSet;
use question::row::WordError;
use question::rule::Rule;
use question::verdict::{Unjudged, Verdict, judge};
use std::process::Abort;
use std::test::Fail;

fn rule(from: u8, left: &[u8], to: u8, right: &[u8]) -> Result<Rule, Fail> {
    Rule::new(from, left, to, right).map_err(|_| Fail::new("a rule"))
}

/// The verdict on `goal` from stage 0 of a ladder of five stages. The cells past the 32,768th stay.
fn verdict<P: Pool>(
    rt: &impl Abort,
    pool: &P,
    rules: &[Rule],
    goal: u8,
    first: u16,
) -> Result<Verdict, Fail> {
    let mut cells = [7; 32_769];
    let verdict = judge(&Ladder(5), pool, rules, 0, goal, &mut cells).map_err(|_| Fail::new(
        "a verdict",
    ))?;
    assert!(rt; cells[0] == first && cells[32_767] == first && cells[32_768] == 7);
    Ok(verdict)
}

fn out<P: Pool>(rt: &impl Abort, pool: &P, rules: &[Rule], goal: u8) -> Result<(), Fail> {
    assert_eq!(rt; verdict(rt, pool, rules, goal, 0)?, Verdict::Out);
    Ok(())
}

fn by<P: Pool>(
    rt: &impl Abort,
    pool: &P,
    rules: &[Rule],
    goal: u8,
    climb: &[u8],
) -> Result<(), Fail> {
    let Verdict::In(found) = verdict(rt, pool, rules, goal, 0)? else {
        return Err(Fail::new("not in reach"));
    };
    assert!(rt; found.as_slice() == climb);
    Ok(())
}

fn heavy<P: Pool>(rt: &impl Abort, pool: &P, rules: &[Rule], goal: u8) -> Result<(), Fail> {
    assert_eq!(rt; verdict(rt, pool, rules, goal, 7)?, Verdict::TooHeavy);
    Ok(())
}

#[test]
fn two_exchanges(rt: HostRuntime) -> Result<(), Fail> {
    let rules = [rule(0, &[1], 1, &[2])?, rule(1, &[2], 2, &[])?];
    by(&rt, &Book(&[2, 1, 15]), &rules, 2, &[0, 1])?;
    by(&rt, &Book(&[]), &rules, 0, &[])?;
    out(&rt, &Book(&[]), &rules, 1)?;
    let keys = KnownKeys {
        set: SymbolSet(2),
        end: 15,
    };
    by(&rt, &Either(Book(&[]), keys), &rules, 2, &[0, 1])
}

#[test]
fn the_kept_word(rt: HostRuntime) -> Result<(), Fail> {
    let rules = [
        rule(0, &[1], 1, &[2])?,
        rule(1, &[2], 2, &[3])?,
        rule(2, &[2], 3, &[4])?,
    ];
    by(&rt, &Book(&[2, 1, 15]), &rules, 3, &[0, 1, 2])
}

#[test]
fn one_output_used_once(rt: HostRuntime) -> Result<(), Fail> {
    let rules = [
        rule(0, &[1], 1, &[2])?,
        rule(1, &[2, 4], 2, &[5])?,
        rule(2, &[2, 3], 3, &[6])?,
    ];
    let book = Book(&[3, 1, 4, 15, 3, 1, 3, 15]);
    out(&rt, &book, &rules, 3)?;
    by(&rt, &book, &rules, 2, &[0, 1])
}

#[test]
fn a_growing_word(rt: HostRuntime) -> Result<(), Fail> {
    let rules = [rule(0, &[1], 0, &[1, 1])?, rule(0, &[1, 1, 1, 1], 1, &[2])?];
    by(&rt, &Book(&[2, 1, 15]), &rules, 1, &[1])
}

#[test]
fn a_long_unwrapping(rt: HostRuntime) -> Result<(), Fail> {
    let rules = [
        rule(0, &[1], 0, &[2, 2])?,
        rule(0, &[2], 0, &[3, 3])?,
        rule(0, &[3], 0, &[4, 4])?,
        rule(0, &[4], 0, &[5, 5])?,
        rule(0, &[5], 0, &[6, 6])?,
        rule(0, &[6], 0, &[])?,
        rule(0, &[15], 1, &[15])?,
    ];
    by(&rt, &Book(&[2, 1, 15]), &rules, 1, &[6])
}

/// Four rules from stage to stage, with these left sides.
fn stairs(a: &[u8], b: &[u8]) -> Result<[Rule; 4], Fail> {
    Ok([
        rule(0, a, 1, &[1])?,
        rule(1, b, 2, &[1])?,
        rule(2, &[1], 3, &[1])?,
        rule(3, &[1], 4, &[1])?,
    ])
}

#[test]
fn the_weight_limit(rt: HostRuntime) -> Result<(), Fail> {
    out(&rt, &Book(&[]), &stairs(&[1], &[1])?, 4)?;
    out(&rt, &Book(&[]), &stairs(&[1, 1], &[1])?, 4)?;
    heavy(&rt, &Book(&[]), &stairs(&[1, 1], &[1, 1])?, 4)?;
    let all_bits = stairs(&[1, 1], &[1])?;
    by(&rt, &Book(&[2, 1, 1]), &all_bits, 4, &[0, 1, 2, 3])?;
    out(&rt, &Book(&[1, 1]), &all_bits, 4)
}

#[test]
fn empty_sides(rt: HostRuntime) -> Result<(), Fail> {
    let rules = [rule(0, &[], 1, &[3])?, rule(1, &[3], 2, &[])?];
    by(&rt, &Book(&[0]), &rules, 2, &[0, 1])?;
    out(&rt, &Book(&[]), &rules, 1)?;
    let loops = [
        rule(0, &[], 0, &[1])?,
        rule(0, &[2], 1, &[])?,
        rule(0, &[1, 1], 1, &[])?,
    ];
    by(&rt, &Book(&[0]), &loops, 1, &[2])
}

#[test]
fn equal_rules(rt: HostRuntime) -> Result<(), Fail> {
    let rules = [
        rule(0, &[1], 0, &[1])?,
        rule(0, &[1], 1, &[1])?,
        rule(0, &[1], 1, &[1])?,
    ];
    by(&rt, &Book(&[1, 1]), &rules, 1, &[1])?;
    out(&rt, &Book(&[2, 3, 1]), &rules, 1)
}

#[test]
fn short_workspaces_and_long_lists_of_rules(rt: HostRuntime) -> Result<(), Fail> {
    let one = rule(0, &[1], 1, &[2])?;
    let mut cells = [7; 32_767];
    let answer = judge(&Ladder(5), &Book(&[]), &[one], 0, 1, &mut cells);
    assert_eq!(rt; answer, Err(Unjudged::TooFewCells));
    assert!(rt; cells[0] == 7);
    let mut cells = [7; 32_768];
    let answer = judge(&Ladder(5), &Book(&[]), &[one; 33], 0, 1, &mut cells);
    assert_eq!(rt; answer, Err(Unjudged::TooManyRules));
    assert!(rt; cells[0] == 7);
    assert!(rt; judge(&Ladder(5), &Book(&[]), &[one; 32], 0, 1, &mut cells).is_ok());
    assert_eq!(rt;
        Rule::new(0, &[1, 2, 3, 4, 5], 1, &[]),
        Err(WordError::TooLong)
    );
    assert_eq!(rt; Rule::new(0, &[], 1, &[16]), Err(WordError::SymbolTooHigh));
    Ok(())
}
